// Names of GNU C: laws that no caller runs, and that callers' proofs cite.
ghost use Rattle.gnu_tree_laws.specs.GnuNames.{GnuNamesAreSpelledAsTheirEntities, GnuNamesStandInTheText, GnuFaultsStandInTheText, EachGnuTokenIsOneName, GnuEntitiesAreNames, OneLinkedGnuName, GnuNamesPass};

/// Each name is spelled as the token that names its entity.
pub fn gnu_names_are_spelled_as_their_entities()
    ensures { GnuNamesAreSpelledAsTheirEntities }
{}

/// Names, the tokens that name their entities, and faults stand in the text.
pub fn gnu_names_stand_in_the_text()
    ensures names { GnuNamesStandInTheText }
    ensures faults { GnuFaultsStandInTheText }
{}

/// No token is two names.
pub fn each_gnu_token_is_one_name()
    ensures { EachGnuTokenIsOneName }
{}

/// The token that names an entity is a name of it.
pub fn gnu_entities_are_names()
    ensures { GnuEntitiesAreNames }
{}

/// Two tokens of one spelling, each of which names an entity that has linkage, are one token.
pub fn one_gnu_name_has_linkage()
    ensures { OneLinkedGnuName }
{}

/// What is true of each token that stands in the tree where names do is true of each name, and of the token that names
/// its entity.
pub fn gnu_names_pass()
    ensures { GnuNamesPass }
{}
