// What units over edited files have: laws that no caller runs, and that callers' proofs cite.
ghost use Rattle.rename_meaning.specs.KeptFileTokens.{FileTokensAreKept, FileTokensAreRenamedWhereNamed};
ghost use Rattle.rename_meaning.specs.KeptUnits.{AnalysisIsRenamedWhereNamed, TextsAreRenamedWhereNamed, UnitsAreKept};
ghost use Rattle.rename_meaning.specs.Limits.{EditedFilesAreWithinLimits};

/// The edited files are within the limits on files, for a class that a place names.
pub fn edited_files_are_within_limits()
    ensures { EditedFilesAreWithinLimits }
{}

/// The renaming keeps each unit of the analysis, where the words of directives hold no member, uses of parameters stay
/// alike with these, and the edited files are within the limits.
pub fn units_are_kept()
    ensures { UnitsAreKept }
{}

/// The units over the edited files have the renamed texts, for a class that a place names; and their analysis is the
/// renamed one, where the renamed texts are read and bound as before.
pub fn units_are_renamed_where_named()
    ensures texts { TextsAreRenamedWhereNamed }
    ensures analysis { AnalysisIsRenamedWhereNamed }
{}

/// The renaming keeps the file tokens of the analysis: those of files are renamed, and numbers of lines stay.
pub fn file_tokens_are_kept()
    ensures { FileTokensAreKept }
{}

/// The file tokens of the renamed analysis are the renamed ones, for a class that a place names.
pub fn file_tokens_are_renamed_where_named()
    ensures { FileTokensAreRenamedWhereNamed }
{}
