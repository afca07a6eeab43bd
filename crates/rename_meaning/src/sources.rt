// What files hold behind a renaming, what units preprocess to over them, and what analysis the workspace has: laws that no
// caller runs, and that callers' proofs cite.
ghost use Rattle.rename_meaning.specs.EditedSource.{RespelledFilesHoldEdited};
ghost use Rattle.rename_meaning.specs.Plans.{PlansKeepMeaning, RefusalsAreOne};
ghost use Rattle.rename_meaning.specs.RenamedSource.{RespelledFilesHaveRenamedAnalysis, RespelledFilesHaveRenamedTexts, RespelledFilesKeepExternalNames};

/// Files in which the members of a class are respelled, and that are left alone else, hold for each path of the analysis
/// the edited bytes.
pub fn respelled_files_hold_edited()
    ensures { RespelledFilesHoldEdited }
{}

/// Over such files each unit of the workspace preprocesses to the tokens that it had, with the members respelled, where a
/// place names the class and nothing stands against the renaming.
pub fn respelled_files_have_renamed_texts()
    ensures { RespelledFilesHaveRenamedTexts }
{}

/// So the workspace has the analysis that it had, renamed: these tokens are read to the trees that they had, and bound name
/// for name as before.
pub fn respelled_files_have_renamed_analysis()
    ensures { RespelledFilesHaveRenamedAnalysis }
{}

/// And two identifiers of external linkage, of two units of one project or of one unit, denote one entity exactly where they
/// did.
pub fn respelled_files_keep_external_names()
    ensures { RespelledFilesKeepExternalNames }
{}

/// The edits that a plan of a renaming gives rename the class of the part which the place names: over each source that has the
/// analysis, once they are made, the members are respelled and nothing else is, and the workspace means what it meant.
pub fn plans_keep_meaning()
    ensures { PlansKeepMeaning }
{}

/// A renaming of a class is refused in one way: what is named first is one place and one cause.
pub fn refusals_are_one()
    ensures { RefusalsAreOne }
{}
