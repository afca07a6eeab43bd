//! A workspace, analysed as a whole: what must be spelled alike in all its units.
//!
//! `analyse` preprocesses, reads and binds all units of a workspace in order, and joins what one name stands for; what
//! was read for one unit is kept for the next, so each path is read at most once. Its answer is `analysis_of` of
//! `specs/Analysis.antt`, or names the first fault with its unit, and its classes are those of the links of
//! `specs/Links.antt` over the tokens of `specs/FileTokens.antt`. An `Analysis` tells which part a place names, how it
//! is spelled, and the members of its class in the order of their places. `texts` and `one_text` preprocess alone; they
//! equal `texts_of` of `specs/Texts.antt`. All say of a refusal whether a read failed. How a unit is preprocessed, read
//! and bound, and what a class is, belongs to the crates below; reports and renaming to those above. What wants memory
//! may answer `Memory`; the readers of `Texts` and of `Analysis` take none.
//!
//! The laws of `tables.rt` are of every analysis: texts that the program made are those of pseudo files, so a file that
//! is no pseudo file holds the bytes that were read; what it tells of files is what they hold; each path has one number; the tokens of all units are few; and the
//! file of each unit is among those that were opened. Further laws of analyses belong there.
//!
//! Crates above list this one for the words of those below, `specs/Below.antt` and `proofs/Below.antt`, and it hands on
//! the types of trees, names and units that its own readers give. Read `specs/Analysis.antt`, `specs/Links.antt`,
//! `specs/Parts.antt` and `specs/Naming.antt`, then `analysing.rt`; of the laws `specs/Tables.antt` and
//! `specs/Counts.antt`.
#![tactic(auto)]

mod accepted;
mod accepting;
mod adding;
mod all_texts;
mod all_units;
mod analyse_fault;
mod analysing;
mod brought;
mod class_lists;
mod external_names;
mod fault_places;
mod file_tokens;
mod fronts;
mod joining;
mod linking;
mod listed;
mod making_again;
mod marks;
mod nameable;
mod naming;
mod number_order;
mod occurrences;
mod part_lists;
mod place_order;
mod place_printing;
mod placing;
mod preprocessing;
mod processed;
mod read_only;
mod reading;
mod spelling;
mod tables;
mod taking;
mod token_search;
mod unit_at;
mod unit_fronts;
mod unit_reading;

pub use accepted::UnitParts;
pub use all_texts::Texts;
pub use all_units::AllUnits;
pub use analyse_fault::AnalyseFault;
pub use analysing::{Analysis, AnalysisParts, analyse, analyse_within};
pub use external_names::{is_external, is_external_name};
pub use place_printing::push_place;
pub use preprocessing::{one_text, texts};
pub use tables::{
    made_files_are_pseudo, paths_stand_once, tables_are_found, tokens_are_few,
    unit_files_are_opened,
};
pub use unit_at::UnitAt;

// Handed on: the types of this crate's own interface that crates below make.
pub use gnu_bind::{Bound, EntityKind, Linkage, List, Name, Range};
pub use include_tree::{Event, EventKind, KeptFile, Reached, UnitText};
