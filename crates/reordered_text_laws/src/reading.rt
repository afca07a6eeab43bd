// What is true of texts in a new order of their lists, as to how they are read: laws that no caller runs.
ghost use Rattle.reordered_text_laws.specs.Joined.{TextsAreReadInOrder, PlainTokensStandInOrder, ArrangedTextsAreRead, SpelledTextsHaveNames};

use crate::texts::texts_alone_are_read_in_order;
use renamed_tree_laws::agreeing_texts_read_alike;

/// A text whose tokens have the classes of those of another one in the new order of its lists, and whose names agree with
/// the tree of that text in the new order, is read to it; so is one whose tokens have their kinds and spellings.
pub fn texts_are_read_in_order()
    ensures texts { TextsAreReadInOrder }
    ensures arranged { ArrangedTextsAreRead }
{
    agreeing_texts_read_alike();
    texts_alone_are_read_in_order();
}

/// Tokens with the kinds and spellings of others in a new order have their classes in it.
pub fn plain_tokens_stand_in_order()
    ensures tokens { PlainTokensStandInOrder }
{}

/// No identifier is spelled by the empty word among tokens that are spelled as their kinds say.
pub fn spelled_texts_have_names()
    ensures names { SpelledTextsHaveNames }
{}
