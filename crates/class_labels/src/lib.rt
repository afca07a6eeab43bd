//! The labels of characters: in which part each lies, and in which class of parts.
//!
//! `Partition` gives each character a class number and its place in a part; parts with one number are a class,
//! whose members a walk gives in order. `step` makes the parts that begin at two characters equally long, by a
//! cut of every part of the class of the longer one, and their classes one: of two classes the one with fewer
//! parts gets the other's number, a tick of `Steps` for each. `step` and the readers take no memory: `add` takes
//! the room for every part that its characters can be cut into. `regrow` gives the parts of a class another
//! length. This crate knows characters by number, and neither files nor tokens: those are of `eclass_map`. What
//! lists of steps force together, and how little they relabel, is stated here for it (`specs/Walk.antt`,
//! `specs/Weight.antt`). Read `specs/Labels.antt`, `specs/Table.antt` and `specs/Regrown.antt`, then
//! `partition.rt`.
#![tactic(auto)]

mod partition;
mod regrowth;
mod spots;

pub use partition::Partition;
pub use spots::Spot;
