//! What a new order of the parameters of a function keeps of a workspace, and what is so where nothing stands against
//! it (this project's, over ISO/IEC 9899:1999, 5.1.1.2, 6.2.1, 6.5.2.2, 6.7.5.3 and 6.10.3).
//!
//! `reordered` says what the workspace is behind the edit: its files, and each unit's tokens, tree and names. That an
//! accepted order makes it so is the law `orders_keep_meaning`. It rests on laws of the crates
//! `expansion_laws`, `reordered_tree_laws` and `reordered_text_laws`, which ask that no list comes from a macro, that
//! items have no say in each other, and so on; this crate proves that it is so where none of the offences of
//! `template_rules` stands. No program stands here: a law is the `ensures` of a function.
//!
//! `lists.rt`: `IsAccepted` of `specs/Accepted.antt` is an order against which nothing stands. Then each list and each
//! name is clear, `UnitIsClear` of `specs/Clear.antt`, which says of each offence what follows where it does not stand;
//! a list stands again in each processing of its run, `StandsInEach` of `specs/Again.antt`; and each list has as many
//! items as the order has numbers, `IsCut` of `specs/Lists.antt`. For that the trees that are read have to be known
//! (`trees.rt`): each node has the children of one alternative of its production, `IsOfAlternative` of
//! `specs/Children.antt`; so it has the forms that binding in a new order asks for, `specs/Forms.antt`, and no token in
//! it is of a class for which no alternative asks, `specs/Ends.antt`. With what a binding tells of the identifiers in a
//! tree (`identifiers_are_told` of `tree_laws`) each unit is such that its lists can get the order, `CanReorder` of
//! `reordered_tree_laws`: that is `specs/CanReorder.antt`.
//!
//! `runs.rt`: the lists of the functions stand in each unit by their marks, `(`, `,` and `)`, that no macro put in
//! (`specs/Units.antt`); in the files they are nested, and in each run that a unit reaches stand those of its file
//! (`specs/Files.antt`, `specs/Places.antt`); so their items change places in files, runs and units alike. Their tokens
//! let them move: `specs/Items.antt`, `specs/Even.antt`, `specs/Moves.antt`.
#![tactic(auto)]

mod lists;
mod runs;
mod trees;

pub use lists::{
    declarators_have_prototypes, files_stand_in_order, lists_stand_in_each, no_list_is_first,
    unit_lists_are_bracketed, units_are_clear, units_are_cut, units_can_reorder, units_go_on,
};
pub use runs::{
    accepted_lists_have_places, file_lists_move, files_have_lists, items_stand, lists_are_even,
    orders_keep_meaning, refusals_are_one, units_have_lists,
};
pub use trees::{children_are_of_alternatives, tokens_may_stand, trees_have_forms};
