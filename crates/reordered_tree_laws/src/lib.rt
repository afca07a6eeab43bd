//! What is true of the tree of a text in which the items of lists stand in another order, the parameters of parameter
//! lists and the arguments of calls, and of what it binds (this project's, over ISO/IEC 9899:1999, 6.2.1, 6.2.2,
//! 6.5.2.2, 6.7.5.3 and 6.7.7).
//!
//! No program stands here: a law is the `ensures` of a function without a body. `reordered` of `specs/Reordered.antt`
//! is that tree, and `cut_in` of `specs/Cuts.antt` says where its lists stand among the tokens, in the words of the
//! crate `list_cuts`. Its tokens are the arranged ones, and it is the tree of a text with as many tokens. What
//! declarations see of it stays, `AreSeenAlike` of `specs/Seen.antt`. `CanReorder` of `specs/Premises.antt` says what
//! must be true of the lists of a unit, so that names bind as before, `ReorderedBindAlike`; rows of
//! `proofs/PremiseRows.antt` and `proofs/Rows.antt` show where it is so and where not.
//!
//! `reordered.rt`: what stands before a part does not matter to the binder where the part does not ask for it
//! (`parts_bind_alike`, `specs/Beside.antt`), and what a part adds stands beside the parts behind it
//! (`parts_add_beside`, `specs/Adding.antt`); so an item binds behind other items as it does without them,
//! `items_bind_alike`. A range that a part adds ends in it or with the scope around it (`specs/Ranges.antt`). Two texts
//! are held together by one map of places, `GoTogether` of `specs/Moving.antt`: a part that is moved as a whole keeps
//! that, `parts_move_alike`, and `parts_only_add` says that a part like an item adds names of its own in front of what
//! is known. They are proved by inductions beside the walk (`proofs/BesideWalk.antt`, `proofs/Adding.antt`,
//! `proofs/Ranges.antt`, `proofs/MovedWalk.antt`).
//!
//! `items.rt` is of the items of one list. Nothing of an item lasts but its declared name (`specs/Lasting.antt`); it
//! adds the same declarations behind other items as without them; what is known in front of some tokens names none of
//! them (`specs/Owned.antt`); an item asks for nothing that the items in front of it declare, where it uses none of
//! their names (`specs/Siblings.antt`). So behind a list is known what each item adds that is read alone,
//! `items_stand_beside`. `items_add_their_tokens` and `nothing_is_asked_for` of `specs/Spread.antt` show what other
//! laws ask of an item by its form and its tokens alone.
//!
//! `lists.rt`: a text whose lists can get the order binds name for name what it bound before, `reordered_bind_alike`.
//! The proof walks over the two texts at once and keeps `StatesGo` (`proofs/ListWalk.antt`); at a list it needs that
//! nothing that is known names one of the tokens behind, `IsKnown` of `specs/Going.antt`, and whatever is asked behind
//! the list is answered by one of the items at most, or by members alone (`proofs/Spots.antt`, `proofs/Stacks.antt`,
//! `proofs/TwoOrders.antt`, `proofs/ToldTwice.antt`).
//!
//! `agreeing.rt`: where names agree with a tree, `agrees` of `tree_laws`, and its lists can get the new order, they
//! agree with the tree in the new order, `specs/ReorderedNames.antt`: so typedef names are read as before. It is proved
//! over the outline of the binder's walk (`proofs/OutlineSteps.antt`, `proofs/NamesWalk.antt`); `HaveBareNames` of
//! `specs/BareNames.antt` is the form of a parameter's declarator in parentheses (6.7.5.3 paragraph 11).
#![tactic(auto)]

mod agreeing;
mod items;
mod lists;
mod reordered;

pub use agreeing::reordered_names_agree;
pub use items::{
    items_add_alike, items_add_their_tokens, items_stand_beside, names_last, nothing_is_asked_for,
    parts_stay_own, siblings_are_apart, wholes_are_clear,
};
pub use lists::reordered_bind_alike;
pub use reordered::{
    items_bind_alike, new_orders_are_not_seen, parts_add_beside, parts_bind_alike,
    parts_move_alike, parts_only_add, ranges_end_with_scopes, reordered_trees_are_of_their_texts,
};
