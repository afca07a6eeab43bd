// What is true of the typedef names of each text: laws that no caller runs, and that callers' proofs cite.
ghost use Rattle.tree_laws.specs.TypedefNames.{NamesAreReadAsTheyAreBound, NamesOfPartsAreReadAsTheyAreBound};

/// What stands as a type name denotes a typedef name, and what stands as a primary expression or as the bare name of a
/// parameter denotes none: in each unit that is read, and in a declaration, a statement or an expression by itself.
pub fn names_are_read_as_they_are_bound()
    ensures units { NamesAreReadAsTheyAreBound }
    ensures parts { NamesOfPartsAreReadAsTheyAreBound }
{}
