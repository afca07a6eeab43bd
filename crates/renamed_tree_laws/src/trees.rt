// What is true of the trees of texts of which one respells names of the other: laws that no caller runs.
ghost use Rattle.renamed_tree_laws.specs.TreesAlike.{AgreeingTextsReadAlike, LooseNamesAreBare, RenamedTextsReadAlike};

/// A text whose names agree with the tree of another text, token for token of the same class, is read to that tree.
pub fn agreeing_texts_read_alike()
    ensures { AgreeingTextsReadAlike }
{}

/// A text in which all names of an entity are renamed together is read to the same tree, where names that denote nothing
/// stay no typedef names.
pub fn renamed_texts_read_alike()
    ensures { RenamedTextsReadAlike }
{}

/// Each name that is read as no typedef name, though it is a use of nothing, is one of the bare names of the binding.
pub fn loose_names_are_bare()
    ensures { LooseNamesAreBare }
{}
