// What is the same is one: laws that no caller runs, and that callers' proofs cite.
ghost use Rattle.same_readings.specs.AlikeLaws.{AlikeTextsBindAlike, AlikeTextsReadAlike, WholeTextsAreReadSo};
ghost use Rattle.same_readings.specs.Laws.{SameTreesAreOne, SameBindingsAreOne};
ghost use Rattle.same_readings.specs.Readings.{ReadingsFoundAreSo};

/// Two trees that are the same are one, and each is the same as itself.
pub fn same_trees_are_one()
    ensures { SameTreesAreOne }
{}

/// Two bindings that are the same are one, and each is the same as itself.
pub fn same_bindings_are_one()
    ensures { SameBindingsAreOne }
{}

/// Tokens that are found to be read to a tree and bound so are.
pub fn readings_found_are_so()
    ensures { ReadingsFoundAreSo }
{}

/// Any grammar reads them to one tree, or stops at one token.
pub fn alike_texts_read_alike()
    ensures { AlikeTextsReadAlike }
{}

/// GNU C binds them alike, or has one first fault, where no spelling says more to it than the other.
pub fn alike_texts_bind_alike()
    ensures { AlikeTextsBindAlike }
{}

/// A text of GNU C of which one spelling becomes another wherever it stands is read to the tree that it had, and bound as
/// it was.
pub fn whole_texts_are_read_so()
    ensures { WholeTextsAreReadSo }
{}
