// What is so of the marks of lists where nothing stands against a new order: laws that no caller runs.
ghost use Rattle.template_meaning.specs.Even.{ListsAreEven};
ghost use Rattle.template_meaning.specs.Kept.{OrdersKeepMeaning, PlansKeepMeaning, RefusalsAreOne};
ghost use Rattle.template_meaning.specs.Standing.{AcceptedListsHavePlaces};
ghost use Rattle.template_meaning.specs.Files.{FilesHaveLists};
ghost use Rattle.template_meaning.specs.Items.{ItemsStand};
ghost use Rattle.template_meaning.specs.Moves.{FileListsMove};
ghost use Rattle.template_meaning.specs.Places.{ListsHaveRuns};
ghost use Rattle.template_meaning.specs.Units.{UnitsHaveLists};

use crate::lists::{
    declarators_have_prototypes, files_stand_in_order, lists_stand_in_each, units_are_cut,
    units_go_on,
};
use crate::trees::tokens_may_stand;
use analysis::{made_files_are_pseudo, paths_stand_once};
use edited_unit_laws::{workspace_tokens_are_of_runs, workspaces_are_reordered};
use expansion_laws::{ends_stay, runs_have_cuts};
use tree_laws::{read_lists_stand_in_order, read_names_stand_in_the_text};
use unit_laws::files_stand;

/// The lists of the functions stand in each unit: their marks are parentheses and commas that no macro put in, no item is
/// reached in a list, and no number of a line is put in there; and they are the lists of the cut of the unit.
pub fn units_have_lists()
    ensures lists { UnitsHaveLists }
{
    read_lists_stand_in_order();
    units_are_cut();
}

/// The lists of the functions in a file are nested, so they have a cut; and in each run that a unit reached stand the lists
/// that this cut has there, and no others. Each list of a file is one of a unit, in such a run.
pub fn files_have_lists()
    ensures lists { FilesHaveLists }
    ensures runs { ListsHaveRuns }
{
    runs_have_cuts();
    workspace_tokens_are_of_runs();
    lists_stand_in_each();
    units_have_lists();
}

/// Each item of a list in a file has tokens, does not begin with `#`, and does not end in `/` or `(`.
pub fn items_stand()
    ensures items { ItemsStand }
{
    tokens_may_stand();
    ends_stay();
    read_lists_stand_in_order();
    units_are_cut();
}

/// No token that is of no other kind stands in the lines of a list of a kept file, from that of its `(` to that of its `)`.
pub fn lists_are_even()
    ensures even { ListsAreEven }
{
    files_have_lists();
}

/// The lists of each file may move: their marks are tokens of it, their items have tokens and begin and end as they may in any
/// other place, and in their lines stand neither an odd token nor a line that is no text.
pub fn file_lists_move()
    ensures { FileListsMove }
{
    runs_have_cuts();
    lists_stand_in_each();
    workspace_tokens_are_of_runs();
    units_have_lists();
    files_have_lists();
    items_stand();
    declarators_have_prototypes();
}

/// The lists of the functions have places in files, in units and in runs.
pub fn accepted_lists_have_places()
    ensures { AcceptedListsHavePlaces }
{
    file_lists_move();
    files_stand();
    workspace_tokens_are_of_runs();
    made_files_are_pseudo();
    paths_stand_once();
    read_lists_stand_in_order();
    units_have_lists();
    files_have_lists();
    files_stand_in_order();
    declarators_have_prototypes();
}

/// Where nothing stands against a new order, files whose lists are in it have the analysis that they had, reordered; so the
/// edits that a plan gives keep meaning.
pub fn orders_keep_meaning()
    ensures orders { OrdersKeepMeaning }
    ensures plans { PlansKeepMeaning }
{
    workspaces_are_reordered();
    read_names_stand_in_the_text();
    read_lists_stand_in_order();
    units_go_on();
    accepted_lists_have_places();
    paths_stand_once();
}

/// A new order is refused for its offences in one way: what is named first is one place and one cause.
pub fn refusals_are_one()
    ensures { RefusalsAreOne }
{}
