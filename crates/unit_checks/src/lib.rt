//! Each unit of a workspace by itself: whether it is accepted, and what stands against it.
//!
//! `check` preprocesses, reads and binds each unit with nothing of the units before (ISO/IEC 9899:1999, 5.1.1.2 phases 4
//! and 7), and tells for each that is not accepted a line: the place and the cause, which are those that the analysis of
//! a workspace of this unit alone names, the token there, and where that token comes from, if a macro brought it; at
//! last how many are accepted. `check_text` of `specs/Checked.antt` is this text. What all units have together, as their
//! classes and the limits on all their tokens, it does not look at: that is the analysis. Refused: `ReadFault` where a
//! read failed, with its path; `Memory`. The files hold what they held. A file that many units include is read for each
//! of them. Read `specs/Findings.antt` and `specs/Checked.antt`, then `unit_check.rt`.
#![tactic(auto)]

mod check_fault;
mod checking;
mod finding_lines;
mod findings;
mod places;
mod stops;
mod unit_check;

pub use check_fault::CheckFault;
pub use checking::{Checked, check};
