//! Whether a text is read and bound as it was: whether two trees are one, and whether two bindings are; whether tokens of GNU C
//! are read and bound so; and whether a text is so much like another that it must be.
//!
//! Where no law says that a changed text is read and bound as before, it is read and bound again and held against what it
//! was: `is_same_tree` and `is_same_bound` tell it, by `same_tree` and `same_bound` of `specs/SameTrees.antt` and
//! `specs/SameNames.antt`, and want no memory. What is the same by these is one (`specs/Laws.antt`). `reads_so` does it
//! for tokens of GNU C, by `specs/Readings.antt`. Read `specs/Numbers.antt`, then `trees.rt`, `names.rt` and
//! `readings.rt`.
//!
//! Reading and binding compare the spellings of names with one another, and ask for some words by themselves. So two
//! texts with as many tokens, of the same classes, in which two tokens are spelled alike where they are in the other, are
//! read to one tree, and bound alike by GNU C, if no spelling is such a word in the one and none in the other
//! (`specs/Alike.antt`, `specs/AlikeLaws.antt`). A text that is renamed so that one spelling becomes another wherever it
//! stands is such a text, and so is one whose tokens stand elsewhere and are spelled as before: `goes_whole` tells it, by
//! `specs/Whole.antt`, and reads nothing. Of the proofs read `proofs/ReadAlike.antt`, `proofs/BoundAlike.antt` and
//! `proofs/WholeTexts.antt`.
#![tactic(auto)]

mod laws;
mod names;
mod numbers;
mod readings;
mod trees;
mod whole;

pub use laws::{
    alike_texts_bind_alike, alike_texts_read_alike, readings_found_are_so, same_bindings_are_one,
    same_trees_are_one, whole_texts_are_read_so,
};
pub use names::is_same_bound;
pub use readings::reads_so;
pub use trees::is_same_tree;
pub use whole::goes_whole;
