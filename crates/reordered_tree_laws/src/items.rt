// What is true of the items of lists, towards a new order of them: laws that no caller runs.
ghost use Rattle.reordered_tree_laws.specs.Lasting.{ItemsAddAlike, NamesLast};
ghost use Rattle.reordered_tree_laws.specs.Owned.{PartsStayOwn};
ghost use Rattle.reordered_tree_laws.specs.Siblings.{ItemsStandBeside, SiblingsAreApart, WholesAreClear};
ghost use Rattle.reordered_tree_laws.specs.Spread.{ItemsAddTheirTokens, NothingIsAskedFor};

/// An item adds the same declarations whatever stands beside it that it does not ask for.
pub fn items_add_alike()
    ensures { ItemsAddAlike }
{}

/// Behind a part in which only some names can last and no tag is declared, all that it has declared has ended but for these.
pub fn names_last()
    ensures { NamesLast }
{}

/// A part none of whose tokens stands beside makes known nothing that does.
pub fn parts_stay_own()
    ensures { PartsStayOwn }
{}

/// A part like an item adds nothing but what stands beside, where its tokens do.
pub fn items_add_their_tokens()
    ensures { ItemsAddTheirTokens }
{}

/// A part like an item asks for none of no declarations, where none of its tokens stands beside.
pub fn nothing_is_asked_for()
    ensures { NothingIsAskedFor }
{}

/// An item asks for none of what the items in front of it declare, whose names it does not use.
pub fn siblings_are_apart()
    ensures { SiblingsAreApart }
{}

/// A list gains what its items gain, each read alone, where each is clear by itself.
pub fn items_stand_beside()
    ensures { ItemsStandBeside }
{}

/// Each item of a list is clear by itself, where the list as a whole is.
pub fn wholes_are_clear()
    ensures { WholesAreClear }
{}
