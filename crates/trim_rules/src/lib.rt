//! Include lines that can be taken away, and why others stay (this project's, over ISO/IEC 9899:1999, 6.10.2 and 6.10.7).
//!
//! `judge` looks at each include line of an analysed workspace that brings nothing which is used, and says why it stays: its
//! operand is expanded; it brings no whole declarations; a name that it defines is mentioned elsewhere; it brings what other
//! units may use; or a pragma. Where nothing keeps it, it can go: the judgements are `AreJudged` of `specs/Staying.antt`.
//! `Lines` are such lines, and `trimmed` gives the bytes of a file in which they are null directives, `edits` those of all files
//! (`specs/Trimmed.antt`). Which lines bring nothing belongs to `unused_names`, and what the edits keep to `trim_plan`. Nothing is
//! refused; what wants memory answers `Memory`. A unit's tokens and the items that it reached are walked over once, and
//! then what each judged inclusion brings. Read `specs/Inside.antt`, `specs/Defining.antt` and `specs/Staying.antt`, then
//! `judging.rt`.
#![tactic(auto)]

mod defining;
mod judging;
mod mentions;
mod reached;
mod reasons;
mod trimming;
mod unit_reasons;

pub use judging::{Judged, judge};
pub use reasons::Why;
pub use trimming::{Lines, TrimmedFile, edits, trimmed};
