//! The plan of a new order of a macro's parameters: the edits of all files, or the first reason against it, and that each
//! unit has the tokens that it had (this project's, over ISO/IEC 9899:1999, 5.1.1.2 phases 1 to 4 and 6.10.3).
//!
//! `plan_macro` takes an analysed workspace, a place in it, and the numbers of an order. It gives the edits of every file
//! that holds a list of the macros which the place names, or says that the place names nothing or no macro, that the numbers
//! are no order, or which offence stands first: that is the work of `macro_rules`. Before it gives edits, it preprocesses the
//! edited files once more, and compares kinds and spellings of all tokens, unit by unit; where they differ, and where a file
//! is asked for that the analysis did not ask for, it answers as if memory ran out. So what edits keep (`specs/Kept.antt`)
//! rests on this comparison alone. It reads and writes no files.
#![tactic(auto)]

mod comparing;
mod edited_sources;
mod plan;

pub use plan::plan_macro;
