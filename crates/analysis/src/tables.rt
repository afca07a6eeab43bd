// What is true of the table of every analysis: a law that no caller runs, and that callers' proofs cite.
ghost use Rattle.analysis.specs.Counts.{TokensAreFew};
ghost use Rattle.analysis.specs.Tables.{MadeFilesArePseudo, PathsStandOnce, TablesAreFound, UnitFilesAreOpened};

/// In the table of an analysis only pseudo files have texts that the program made.
pub fn made_files_are_pseudo()
    ensures { MadeFilesArePseudo }
{}

/// What the table of an analysis tells of files is what they hold.
pub fn tables_are_found()
    ensures { TablesAreFound }
{}

/// The units of an analysis have no more tokens together than the limit on them allows.
pub fn tokens_are_few()
    ensures { TokensAreFew }
{}

/// The file of each unit of a workspace is among those that its analysis opened.
pub fn unit_files_are_opened()
    ensures { UnitFilesAreOpened }
{}

/// In the table of an analysis each path has one number.
pub fn paths_stand_once()
    ensures { PathsStandOnce }
{}
