// What a renaming against which nothing stands keeps of bindings: a law that no caller runs, and that callers' proofs cite.
ghost use Rattle.rename_meaning.specs.BoundUnits.{NamesBindAsBefore, UnitsAreRenamedWhole, UnitsBindAsBefore};

/// The renamed tokens of each unit that is not of GNU C, with the tree that the unit has, are bound name for name as before: by
/// each renaming that spells tokens with the name for each member, and by that of the unit. Those of each unit are a renaming of
/// its text, in which all names of an entity go together.
pub fn names_bind_as_before()
    ensures names { NamesBindAsBefore }
    ensures units { UnitsBindAsBefore }
    ensures whole { UnitsAreRenamedWhole }
{}
