// What is true of the tree of every text that is read: laws that no caller runs, and that callers' proofs cite.
ghost use Rattle.tree_laws.specs.ReadTexts.{TokensStandInOrder, AllTokensStandInTrees, TreesAreOfTheirTexts, TreesOfEditionsArePlain, ReadingStopsInTheText};

/// By any grammar the tokens of a tree are those from the first one of the text on, one after another, and as
/// many as the text has where a unit ends with the text.
pub fn tokens_stand_in_order()
    ensures order { TokensStandInOrder }
    ensures all { AllTokensStandInTrees }
{}

/// The tree that is read of a text has its tokens in order, and its nodes have their forms: by C99, C11 and GNU C. In
/// C99 and C11 no block stands in a declarator.
pub fn trees_are_of_their_texts()
    ensures trees { TreesAreOfTheirTexts }
    ensures plain { TreesOfEditionsArePlain }
{}

/// Where a text has no tree by a grammar, reading stops at one of its tokens, or behind the last one.
pub fn reading_stops_in_the_text()
    ensures { ReadingStopsInTheText }
{}
