// What is true of the trees of texts in which names are respelled: laws that no caller runs, and that callers' proofs cite.
ghost use Rattle.renamed_tree_laws.specs.ReadAlike.{RespelledTextsReadAlike, TextsOfOneKindReadAlike};

/// A text in which each name that is read by its kind is of this kind, where another text is read, is read to the same
/// tree.
pub fn texts_of_one_kind_read_alike()
    ensures { TextsOfOneKindReadAlike }
{}

/// A text in which names are respelled, so that each name that is read by what it denotes still denotes it, is read to
/// the same tree.
pub fn respelled_texts_read_alike()
    ensures { RespelledTextsReadAlike }
{}
