// What is true of each text that is read and bound: laws that no caller runs, and that callers' proofs cite.
ghost use Rattle.tree_laws.specs.ReadTexts.{ReadNamesStandInTheText, ReadFaultsStandInTheText, EachReadTokenIsOneName, ReadNamesAreIdentifiers, ReadEntitiesAreNames, OneReadLinkedName, ReadParameterListsAreInOrder, ReadArgumentListsAreInOrder, ReadBodiesStandInTheText, ReadBodiesAreApart};

use crate::bound::{
    bodies_stand_apart, bound_names_pass, each_token_is_one_name, entities_are_names,
    lists_stand_in_order, names_stand_in_the_text, one_name_has_linkage,
};
use crate::trees::trees_are_of_their_texts;

/// Names, the tokens that name their entities, and faults of binding stand in the text.
pub fn read_names_stand_in_the_text()
    ensures names { ReadNamesStandInTheText }
    ensures faults { ReadFaultsStandInTheText }
{
    trees_are_of_their_texts();
    names_stand_in_the_text();
}

/// No token is two names.
pub fn each_read_token_is_one_name()
    ensures { EachReadTokenIsOneName }
{
    trees_are_of_their_texts();
    each_token_is_one_name();
}

/// A name is an identifier, and so is the token that names its entity.
pub fn read_names_are_identifiers()
    ensures { ReadNamesAreIdentifiers }
{
    trees_are_of_their_texts();
    bound_names_pass();
}

/// The token that names an entity is a name of it.
pub fn read_entities_are_names()
    ensures { ReadEntitiesAreNames }
{
    trees_are_of_their_texts();
    entities_are_names();
}

/// Two tokens of one spelling, each of which names an entity that has linkage, are one token.
pub fn one_read_name_has_linkage()
    ensures { OneReadLinkedName }
{
    trees_are_of_their_texts();
    one_name_has_linkage();
}

/// Parameter lists and argument lists stand in order of their names, and each name has one at most.
pub fn read_lists_stand_in_order()
    ensures parameters { ReadParameterListsAreInOrder }
    ensures arguments { ReadArgumentListsAreInOrder }
{
    trees_are_of_their_texts();
    lists_stand_in_order();
}

/// The body of a function stands behind its name, and before the name of the next function with a body.
pub fn read_bodies_stand_apart()
    ensures within { ReadBodiesStandInTheText }
    ensures apart { ReadBodiesAreApart }
{
    trees_are_of_their_texts();
    bodies_stand_apart();
}
