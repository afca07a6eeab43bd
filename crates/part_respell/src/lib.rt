//! The bytes of a file in which the members of a class are spelled otherwise.
//!
//! `respell` takes a file, the members of a class in it and a new name, and gives the edited bytes: the name
//! stands for the first character of each member, the bytes of its other characters are gone, and every other
//! byte stays, line splices too. It equals `respelled` of `specs/Respelled.antt`, where the new spelling of a
//! token by its origins stands as well, or tells that more bytes would be needed than are allowed. The crate
//! knows parts by their positions alone: what a class is belongs to the crates below, which names may be given
//! and which files are edited to those above. Read `specs/Respelled.antt`, then `respelling.rt`.
#![tactic(auto)]

mod respelling;

pub use respelling::respell;
