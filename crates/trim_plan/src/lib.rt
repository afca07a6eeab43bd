//! The plan of a trim: include lines that nothing needs become null directives, and what that keeps (this project's, over
//! ISO/IEC 9899:1999, 5.1.1.2 phases 1 to 7, 6.10.2 and 6.10.7).
//!
//! `plan_trim` gives the edits of the files in which removable lines stand, and says of each other line that brings nothing
//! which is used why it stays: that is the work of `trim_rules`. Then it analyses the workspace once more, over the edited
//! files in memory, and compares: over each source that has the analysis, once the edits are made, each unit has the tokens that
//! it had but for what the lines brought, is read to the tree that it had without these declarations, and each name that is
//! left denotes what it denoted (`TrimsOver` of `specs/Kept.antt`). Where that were not so, no plan would be given: the
//! answer would be want of memory. It reads and writes no files. `push_stays` tells the lines that stay, as `specs/Stays.antt`
//! says. Read `specs/Trimmed.antt` and `specs/Kept.antt`, then `plan.rt`.
#![tactic(auto)]

mod comparing;
mod left;
mod plan;
mod second;
mod telling;
mod trees;

pub use plan::{Trim, plan_trim};
pub use telling::push_stays;
