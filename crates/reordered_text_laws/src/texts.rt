// What is true of items that change places, as to how they are read: laws that no caller runs.
ghost use Rattle.reordered_text_laws.specs.Alone.{TextsAloneAreReadByClasses};
ghost use Rattle.reordered_text_laws.specs.Fronted.{TextsAreReadBehindATypedef, AgreesBehindATypedef, AgreeingTextsAreRead};
ghost use Rattle.reordered_text_laws.specs.InOrder.{ListsAreReadInAnyOrder, ArrangedTokensAreReadInOrder, TextsAloneAreReadInOrder};
ghost use Rattle.reordered_text_laws.specs.ReorderedTexts.{PartsAreReadAnywhere, ItemsAreReadAnywhere, NumbersDoNotMatter, ArgumentsAreReadInAnyOrder, ParametersAreReadInAnyOrder};

use renamed_tree_laws::agreeing_texts_read_alike;
use tree_laws::tokens_stand_in_order;

/// A text in which each identifier is spelled as no other token is read as the classes of its tokens are, by any grammar.
pub fn texts_alone_are_read_by_classes()
    ensures texts { TextsAloneAreReadByClasses }
{}

/// By any grammar tokens are read alike whatever their numbers are.
pub fn numbers_do_not_matter()
    ensures numbers { NumbersDoNotMatter }
{}

/// What is read for a production is read the same before any tokens that begin with the same two classes; an argument or
/// a parameter that is read before a comma or the end of its list, before any tokens that begin with one of these.
pub fn items_are_read_anywhere()
    ensures parts { PartsAreReadAnywhere }
    ensures items { ItemsAreReadAnywhere }
{}

/// Arguments of a call that are read are read in any other order too, to the list of these.
pub fn arguments_are_read_in_any_order()
    ensures arguments { ArgumentsAreReadInAnyOrder }
{}

/// Parameters of a list that are read are read in any other order too, to the list of these.
pub fn parameters_are_read_in_any_order()
    ensures parameters { ParametersAreReadInAnyOrder }
{}

/// What is read is read with all its lists, of arguments and of parameters, in a new order, and what is left stays.
pub fn lists_are_read_in_any_order()
    ensures lists { ListsAreReadInAnyOrder }
{}

/// The tokens of a unit in the new order of its lists are read, with the classes that they had, to its tree in that order.
pub fn arranged_tokens_are_read_in_order()
    ensures units { ArrangedTokensAreReadInOrder }
{}

/// A text in which each identifier is spelled as no other token, and whose tokens have the classes of those of another
/// such text in the new order of its lists, is read to the tree of that text in the new order.
pub fn texts_alone_are_read_in_order()
    ensures texts { TextsAloneAreReadInOrder }
{
    tokens_stand_in_order();
}

/// A text is read by a grammar in which the empty word is a typedef name as it is read, by the grammar of the edition,
/// behind a typedef of the empty word, where the word stands for type names alone.
pub fn texts_are_read_behind_a_typedef()
    ensures texts { TextsAreReadBehindATypedef }
{}

/// Names that agree with a tree agree with it behind such a typedef.
pub fn names_agree_behind_a_typedef()
    ensures agrees { AgreesBehindATypedef }
{}

/// A text whose names agree with a tree is read to it, if tokens of its classes are read to it with their typedef names as
/// keywords.
pub fn agreeing_texts_are_read()
    ensures texts { AgreeingTextsAreRead }
{
    agreeing_texts_read_alike();
}
