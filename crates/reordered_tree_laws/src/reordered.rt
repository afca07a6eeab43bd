// What is true of a tree in which the items of lists stand in another order: laws that no caller runs.
ghost use Rattle.reordered_tree_laws.specs.Adding.{ItemsBindAlike, PartsAddBeside, PartsOnlyAdd};
ghost use Rattle.reordered_tree_laws.specs.Beside.{PartsBindAlike};
ghost use Rattle.reordered_tree_laws.specs.Laws.{TokensAreArranged, ReorderedTreesAreOfTheirTexts};
ghost use Rattle.reordered_tree_laws.specs.Moving.{PartsMoveAlike};
ghost use Rattle.reordered_tree_laws.specs.Ranges.{RangesEndWithScopes};
ghost use Rattle.reordered_tree_laws.specs.Seen.{NewOrdersAreNotSeen};

/// The tokens of the tree in the new order are the arranged ones, and it is the tree of a text with as many tokens.
pub fn reordered_trees_are_of_their_texts()
    ensures arranged { TokensAreArranged }
    ensures texts { ReorderedTreesAreOfTheirTexts }
{}

/// A part of a unit binds alike whatever declarations stand beside it that it does not ask for: the items before
/// it in a list are such.
pub fn parts_bind_alike()
    ensures { PartsBindAlike }
{}

/// Declarations do not see the order of the items of lists: the names and types of declarators, specifiers, and
/// first and last tokens are the same.
pub fn new_orders_are_not_seen()
    ensures { NewOrdersAreNotSeen }
{}

/// What a part adds to what is known stands beside, where its tokens do: a part with no object, function or body of its
/// own, and with no list in braces behind a tag.
pub fn parts_add_beside()
    ensures { PartsAddBeside }
{}

/// An item of a list binds behind other items as it does without them.
pub fn items_bind_alike()
    ensures { ItemsBindAlike }
{}

/// A range of an ordinary identifier or a tag that a part behind the first token adds begins in the part, and ends in
/// it or with the scope around it.
pub fn ranges_end_with_scopes()
    ensures { RangesEndWithScopes }
{}

/// A part that is moved as a whole binds alike at its new place.
pub fn parts_move_alike()
    ensures { PartsMoveAlike }
{}

/// A part with no object, function, statement or body of its own only adds to what is known: in front, and names of
/// its own.
pub fn parts_only_add()
    ensures { PartsOnlyAdd }
{}
