//! What is true of every unit (ISO/IEC 9899:1999, 5.1.1.2 phase 4, 6.10): laws over the definition of `include_tree`.
//!
//! No program stands here: each law is the `ensures` of a function without a body. They are proved by inductions over
//! the items of files (`proofs/WalkLemmas.antt`, `proofs/ReorderedWalkLemmas.antt`) above those over expansions in
//! `expansion_laws`. `units.rt` says what units are made of: what is true of the tokens of kept files, and kept where
//! tokens are put in or made, is true of each token of a unit and of each of which its notes tell. `unit_keeps_tests`
//! says it of any test; the other laws are of links, of whole tokens and places, and of spellings. `names.rt` says what
//! links join: the names of one spelling of which events tell, and each parameter with its uses. Kept files are those
//! of the table behind the unit. What a unit with a fault gives is nothing here.
//!
//! `reordered.rt` is of units over files in which the items of lists change places. Lists stand in runs of text lines,
//! so the lines of directives stay, and with them the macros, the files and the conditions of a unit: its states over
//! the edited files are those over the old ones, but for the bytes of files, and its tokens are those in the new order.
//! Each run goes so by `runs_are_arranged` of `expansion_laws`, where its file has them so.
//!
//! Read `specs/UnitTests.antt`, `specs/UnitItems.antt`, `specs/UnitLinks.antt`, `specs/UnitTokens.antt`,
//! `specs/UnitSpelling.antt`, `specs/UnitNames.antt`, then `specs/ToldNames.antt` and `specs/Uses.antt`;
//! `specs/Edited.antt`, `specs/Walking.antt`, `specs/Reordered.antt`, `specs/Files.antt` and `specs/TokenRuns.antt`.
#![tactic(auto)]

mod names;
mod reordered;
mod units;

pub use names::{told_names_are_linked, uses_are_linked};
pub use reordered::{files_stand, tokens_are_of_runs, units_are_reordered, units_go_alike};
pub use units::{
    reached_tokens_are_whole, unit_keeps_tests, unit_links_are_alike, unit_names_are_made_of_names,
    unit_tokens_are_spelled, unit_tokens_are_whole, unit_tokens_stand_in_files,
};
