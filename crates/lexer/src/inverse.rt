// Lines and columns against characters: a law that no caller runs, and that callers' proofs cite.
ghost use Rattle.lexer.specs.Inverse.{CharactersHavePlaces, PlacesAreInverse};

/// Each character has a line and a column; and it has these exactly where it is the one that stands there.
pub fn places_are_inverse()
    ensures some { CharactersHavePlaces }
    ensures inverse { PlacesAreInverse }
{}
