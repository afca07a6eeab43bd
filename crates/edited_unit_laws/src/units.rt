// What is true of units over edited files: laws that no caller runs, and that callers' proofs cite.
ghost use Rattle.edited_unit_laws.specs.EditedFiles.{EditedFilesAreKept, EditedTablesAreFound, RespelledFilesAreKept};
ghost use Rattle.edited_unit_laws.specs.StepLaws.{ConditionsGoAlike, DefinitionsGoAlike, FilesGoAlike, InclusionsGoAlike, NamesAreAskedAlike, RunsGoAlike, UndefinitionsGoAlike};
ghost use Rattle.edited_unit_laws.specs.UnitTexts.{UnitTextsAreRenamed};
ghost use Rattle.edited_unit_laws.specs.Units.{UnitsAreRenamed};

/// A kept file whose members are respelled is kept over the edit: its edited file has the renamed tokens, where
/// identifiers alone change, each into an identifier, and each token and line keeps what it means. So is each file
/// whose edited bytes have the renamed tokens.
pub fn respelled_files_are_kept()
    ensures files { RespelledFilesAreKept }
    ensures edited { EditedFilesAreKept }
{}

/// Files that hold their edited bytes hold what the edited table tells.
pub fn edited_tables_are_found()
    ensures found { EditedTablesAreFound }
{}

/// A run of renamed tokens gives the renamed tokens.
pub fn runs_go_alike()
    ensures texts { RunsGoAlike }
{}

/// Renamed `define` and `undef` lines keep the macros: each stands renamed under the new spelling of its name, and
/// there are no others.
pub fn definitions_keep_macros()
    ensures defined { DefinitionsGoAlike }
    ensures undefined { UndefinitionsGoAlike }
{}

/// Renamed conditions have the values of the old ones, and a renamed name is that of a macro exactly where it was.
pub fn conditions_go_alike()
    ensures values { ConditionsGoAlike }
    ensures names { NamesAreAskedAlike }
{}

/// A renamed include line brings the edited file of the path that the old one named.
pub fn inclusions_go_alike()
    ensures included { InclusionsGoAlike }
{}

/// The items of an edited file, in their sections, give the renamed tokens, whatever files they include.
pub fn files_go_alike()
    ensures files { FilesGoAlike }
{}

/// A unit over the edited files has the renamed tokens and notes, the same work left and as many tokens, and a
/// table with the same paths and the edited bytes; so has its text, and the next unit begins alike.
pub fn units_are_renamed()
    ensures units { UnitsAreRenamed }
    ensures texts { UnitTextsAreRenamed }
{}
