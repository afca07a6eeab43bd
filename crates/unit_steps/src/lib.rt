//! The steps of a translation unit that need no other file (ISO/IEC 9899:1999, 5.1.1.2 phase 4, 6.10).
//!
//! `Progress` is what is known of a unit at each moment beside the table of files: the macros that are defined, the
//! work that is left, the first names of each spelling, and the `UnitText` so far, with all that happened. Its calls
//! are the steps: a run of text lines, lines that define macros or take them away, conditions with their operands of
//! `defined` and the words with which GNU C asks for headers, and the name of an include line. Each is a step of the
//! definition in `specs/State.antt`, and what happens in it is a list of `specs/Notes.antt`. Which lines are processed,
//! and in which order, is `include_tree`. Every step wants memory. Read `specs/Notes.antt`, `specs/State.antt`,
//! `specs/Conditions.antt`, `specs/Questions.antt`, `specs/Directives.antt` and `specs/IncludeNames.antt`, then
//! `progress.rt`, `conditions.rt`, `questions.rt` and `directives.rt`. What units begin with alike can be kept: macros and
//! first names are copied, and what stands between two `Mark`s of a text is put behind another (`specs/Pieces.antt`).
#![tactic(auto)]

mod beginning;
mod conditions;
mod directives;
mod events;
mod first_names;
mod include_names;
mod progress;
mod questions;
mod source_text;
mod unit_text;
mod visits;

pub use directives::behind_word;
pub use events::{Event, EventKind, Reached};
pub use first_names::FirstNames;
pub use macro_expand::{Macros, Work, push_shared, shared};
pub use progress::Progress;
pub use questions::{Question, asks_next, questions_of};
pub use source_text::SourceText;
pub use unit_text::{Mark, UnitText};
