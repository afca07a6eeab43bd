//! What is true of the reading of texts whose lists stand in a new order, arguments and parameters, and of the marks of
//! these lists (ISO/IEC 9899:1999, 6.5.2, 6.5.2.2, 6.7.5.3, 6.7.7, 6.10.3 and Annex A.2).
//!
//! No program stands here: each law is the `ensures` of a function without a body. `texts.rt`: `specs/ByClasses.antt`
//! reads tokens by their classes alone. A text in which no name is a use of another one is read so by any grammar, and
//! the numbers of its tokens do not matter. What is read so stands anywhere: an argument or a parameter needs but a
//! comma or the end of its list behind it. So the items of a list are read in any order, and a unit is read with all
//! its lists in a new order at once: to the tree in that order, `reordered` of the crate `reordered_tree_laws`.
//!
//! `reading.rt`: any text is read so. Its type names are spelled by the empty word, each other identifier by a word of
//! its own, and the tree stays, since behind a typedef of that word the names agree with it (`proofs/FrontKeyed.antt`).
//! So what is read of the text in the new order is `reordered` of the tree, if its names agree with that. Its classes
//! are given by the kinds and spellings of its tokens (`proofs/PlainOrder.antt`).
//!
//! `cuts.rt` makes cuts of `list_cuts` by marks: a list has a mark in front of it and one behind each of its items, so
//! the numbers of these marks tell a cut, and lists that are nested by their marks have a cut. Bytes, characters,
//! tokens of a file and tokens of a unit have the same lists, each with its own numbers. `marks.rt` finds the marks,
//! `(`, `,` and `)`, in the trees of texts and in the expansions of runs.
//!
//! Read `specs/ReorderedTexts.antt`, then `specs/InOrder.antt` and `specs/Joined.antt`; `specs/Marks.antt`,
//! `specs/MarkedCuts.antt` and `specs/Trees.antt`; of the proofs `proofs/Near.antt`, `proofs/Anew.antt` and
//! `proofs/Joined.antt`.
#![tactic(auto)]

mod cuts;
mod marks;
mod reading;
mod texts;

pub use cuts::{cuts_are_marked, cuts_are_tidied};
pub use marks::{runs_have_marks, tokens_are_of_classes, trees_have_marks};
pub use reading::{plain_tokens_stand_in_order, spelled_texts_have_names, texts_are_read_in_order};
pub use texts::{
    agreeing_texts_are_read, arguments_are_read_in_any_order, arranged_tokens_are_read_in_order,
    items_are_read_anywhere, lists_are_read_in_any_order, names_agree_behind_a_typedef,
    numbers_do_not_matter, parameters_are_read_in_any_order, texts_alone_are_read_by_classes,
    texts_alone_are_read_in_order, texts_are_read_behind_a_typedef,
};
