// What is true of the binding of every text: laws that no caller runs, and that callers' proofs cite.
ghost use Rattle.tree_laws.specs.BoundNames.{NamesAreSpelledAsTheirEntities, NamesStandInTheText, FaultsStandInTheText, EachTokenIsOneName, EntitiesAreNames, OneLinkedName, BoundNamesPass, ParameterListsAreInOrder, ArgumentListsAreInOrder, BodiesStandInTheText, BodiesAreApart};
ghost use Rattle.tree_laws.specs.RenamedNames.{RenamedBindAlike};

/// Each name is spelled as the token that names its entity.
pub fn names_are_spelled_as_their_entities()
    ensures { NamesAreSpelledAsTheirEntities }
{}

/// Names, the tokens that name their entities, and faults stand in the text.
pub fn names_stand_in_the_text()
    ensures names { NamesStandInTheText }
    ensures faults { FaultsStandInTheText }
{}

/// No token is two names.
pub fn each_token_is_one_name()
    ensures { EachTokenIsOneName }
{}

/// The token that names an entity is a name of it.
pub fn entities_are_names()
    ensures { EntitiesAreNames }
{}

/// Two tokens of one spelling, each of which names an entity that has linkage, are one token.
pub fn one_name_has_linkage()
    ensures { OneLinkedName }
{}

/// What is true of each token that stands in the tree where names do is true of each name, and of the token that names
/// its entity.
pub fn bound_names_pass()
    ensures { BoundNamesPass }
{}

/// Parameter lists and argument lists stand in order of their names, and each name has one at most.
pub fn lists_stand_in_order()
    ensures parameters { ParameterListsAreInOrder }
    ensures arguments { ArgumentListsAreInOrder }
{}

/// The body of a function stands behind its name, and before the name of the next function with a body.
pub fn bodies_stand_apart()
    ensures within { BodiesStandInTheText }
    ensures apart { BodiesAreApart }
{}

/// A text that is renamed, with all names of an entity together, in which no token gets the spelling of a name that it
/// had not, and that is read to the same tree, binds name for name as before.
pub fn renamed_names_bind_alike()
    ensures { RenamedBindAlike }
{}
