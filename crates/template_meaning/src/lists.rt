// What is so where nothing stands against a new order of the parameters of a function: laws that no caller runs.
ghost use Rattle.template_meaning.specs.Again.{ListsStandInEach};
ghost use Rattle.template_meaning.specs.CanReorder.{UnitsCanReorder};
ghost use Rattle.template_meaning.specs.Clear.{UnitsAreClear};
ghost use Rattle.template_meaning.specs.Forms.{NoListIsFirst, UnitListsAreBracketed};
ghost use Rattle.template_meaning.specs.Lists.{UnitsAreCut};
ghost use Rattle.template_meaning.specs.Prototypes.{DeclaratorsHavePrototypes};
ghost use Rattle.template_meaning.specs.Spans.{FilesStandInOrder};
ghost use Rattle.template_meaning.specs.Standing.{UnitsGoOn};

use edited_unit_laws::paths_stand;
use reordered_text_laws::{
    plain_tokens_stand_in_order, spelled_texts_have_names, texts_are_read_in_order,
};
use reordered_tree_laws::{reordered_bind_alike, reordered_names_agree};
use tree_laws::{identifiers_are_told, read_lists_stand_in_order};

/// Each list of the functions is clear, and so is each of their names: its marks come from no macro and were put out for one
/// run, a list stands there in each processing of that run, and so on with each offence.
pub fn units_are_clear()
    ensures { UnitsAreClear }
{}

/// Each list of the functions has as many items as the order has numbers, those in items of others too.
pub fn units_are_cut()
    ensures { UnitsAreCut }
{
    read_lists_stand_in_order();
}

/// Each list of the functions is a pair of parentheses with arguments or parameters in it, or nothing, where the order is not
/// empty: no identifier list is among them.
pub fn unit_lists_are_bracketed()
    ensures { UnitListsAreBracketed }
{
    read_lists_stand_in_order();
}

/// In each processing of the run for which a mark of a list was put out, in whatever unit, a list of the functions stands at the
/// same positions, with its own mark there.
pub fn lists_stand_in_each()
    ensures { ListsStandInEach }
{}

/// No list of the functions begins a unit: words of a declaration stand in front.
pub fn no_list_is_first()
    ensures { NoListIsFirst }
{
    read_lists_stand_in_order();
}

/// The lists of the functions in each unit can get the order: each node has its form, and no item says anything to the items
/// beside it or to what follows.
pub fn units_can_reorder()
    ensures { UnitsCanReorder }
{
    read_lists_stand_in_order();
    identifiers_are_told();
}

/// Each declarator of the functions has a parameter type list without `...`.
pub fn declarators_have_prototypes()
    ensures { DeclaratorsHavePrototypes }
{
    read_lists_stand_in_order();
    identifiers_are_told();
}

/// Tokens with the kinds and spellings of those of a unit, with the items of the functions' lists in the new order, are read to
/// its tree in this order and bound, and each name denotes at its new place what it denoted.
pub fn units_go_on()
    ensures { UnitsGoOn }
{
    read_lists_stand_in_order();
    texts_are_read_in_order();
    plain_tokens_stand_in_order();
    spelled_texts_have_names();
    reordered_names_agree();
    reordered_bind_alike();
    units_can_reorder();
}

/// Where the lists of each file that holds some may move, and its path holds the bytes that were read, each path that holds a file
/// has a text in the new order, by the edit of the new order.
pub fn files_stand_in_order()
    ensures { FilesStandInOrder }
{
    paths_stand();
}
