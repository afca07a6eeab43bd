//! The old name where no unit processes it.
//!
//! A new spelling of a class reaches its members, and those stand in what some unit processes. `unseen` gives the
//! identifiers that are spelled as the class, that nothing of the analysis declares or uses and that no unit has: in
//! groups that every unit skips (ISO/IEC 9899:1999, 6.10.1 paragraph 6), in `pragma` and `error` lines, in replacement
//! lists that nothing expands and in arguments that macros drop; and the words so spelled in the string literals of
//! `_Pragma` operators (6.10.9), of which no unit has a character. Of read-only files it gives none, of the lines of macros none that such a
//! parameter has, and of names that do not reach past a function those alone that stand between the members of the
//! class. `IsUnseen` of `specs/Unseen.antt` says which they are; `push_unseen` tells them, a line each. What a new name
//! may be, and what an edit changes, belongs to the crates below and beside this one. Refused: only want of memory.
//! Cost is that of two walks over the tokens of files, of one over those of units where such an identifier is found that
//! is of another class, of one more where such a word is, and of two over the names of units where no unit has it. Read
//! `specs/Words.antt`, `specs/Reach.antt` and `specs/Unseen.antt`, then `unseen_places.rt`.
#![tactic(auto)]

mod characters;
mod files;
mod idle;
mod lines;
mod names;
mod others;
mod place_lines;
mod place_order;
mod pragmas;
mod processed;
mod reach;
mod unseen_places;
mod words;

pub use place_lines::push_unseen;
pub use unseen_places::unseen;
