// What stays under every renaming: laws that no caller runs.
ghost use Rattle.renamed.specs.Staying.{EditedPathsStay, RenamedTokensStay, RenamedUnitsStay};

/// A renamed text has a token for each token: of the same kind, with the same white space before it, on the same line,
/// directly there or not.
pub fn renamed_tokens_stay()
    ensures { RenamedTokensStay }
{}

/// An edited table of files has the paths that it had, by their numbers.
pub fn edited_paths_stay()
    ensures { EditedPathsStay }
{}

/// A renamed analysis has a unit for each unit: with the tree that it had, and each identifier bound as it was.
pub fn renamed_units_stay()
    ensures { RenamedUnitsStay }
{}
