// What a renaming against which nothing stands keeps of trees and bindings: laws that no caller runs, and that callers' proofs
// cite.
ghost use Rattle.rename_meaning.specs.ReadUnits.{EditedFilesHaveRenamedAnalysis, UnitsReadAsBefore};

/// The renamed tokens of each unit are read to the tree that it had, and bound as they were. So files that hold the edited
/// bytes have the renamed analysis, for a class that a place names.
pub fn units_read_as_before()
    ensures reads { UnitsReadAsBefore }
    ensures analysis { EditedFilesHaveRenamedAnalysis }
{}
