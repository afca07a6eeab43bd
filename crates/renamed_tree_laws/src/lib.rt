//! What is true of the trees of two texts of which the second respells names of the first (ISO/IEC 9899:1999, 6.2.1,
//! 6.7.5.3, 6.7.7).
//!
//! No program stands here: each law is the `ensures` of a function without a body. The reader of the crate `c99_read`
//! asks of a name whether it is a typedef name where it stands. Most names it reads as either: members, tags, labels,
//! declared names. So a text in which names are respelled is read to the same tree if the others are still of the
//! kind that was read: type names, primary expressions, and names in an identifier list or behind the parenthesis of
//! a parameter's declarator. `reading.rt` says so along the reading of the first text, by the reader's own scopes:
//! both texts are followed in step, and the table of productions says what the next token is read as
//! (`proofs/Moods.antt`, `proofs/Table.antt`). `trees.rt` says so of the tree that was read, by what the binder's
//! walk finds (`agrees` of the crate `tree_laws`). Where all names of an entity are renamed together, what is left
//! are names that denote nothing, in identifier lists and behind such a parenthesis: each is one of the bare names of
//! the binding.
//!
//! They are given to `rename_meaning` and `reordered_text_laws`. Their proofs cite the modules of `proofs/Lib.antt`
//! that are public; a lemma there keeps its name, and all else may change. Read `specs/Along.antt`,
//! `specs/Respelled.antt`, `specs/ReadAlike.antt`, then `proofs/Moods.antt` and `proofs/Locked.antt`; `specs/Loose.antt`,
//! `specs/TreesAlike.antt`, then `proofs/Asking.antt`, `proofs/RenamedTrees.antt` and `proofs/Enclosing.antt`.
#![tactic(auto)]

mod reading;
mod trees;

pub use reading::{respelled_texts_read_alike, texts_of_one_kind_read_alike};
pub use trees::{agreeing_texts_read_alike, loose_names_are_bare, renamed_texts_read_alike};
