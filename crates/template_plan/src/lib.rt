//! The plan of a new order of a function's parameters: the edits of all files, or the first reason against it, and that
//! they keep meaning (this project's, over ISO/IEC 9899:1999, 5.1.1.2 phases 1 to 7, 6.2.1, 6.5.2.2 and 6.7.5.3).
//!
//! `plan_template` takes an analysed workspace, a place in it, and the numbers of an order. It gives the edits of every
//! file that holds a list of the functions which the place names, or says that the place names nothing or no function,
//! that the numbers are no order, or which offence stands first. Over each source that has the analysis, once the edits
//! are made, the workspace means what it meant (`ReordersOver` of `reordered`). It reads and writes no files: `apply`
//! of `edited_files` puts the edits. The law behind it is `orders_keep_meaning` of `template_meaning`: there the laws on
//! units, runs and files meet. They speak of C99 and C11. Where a unit is of GNU C, the edited files are analysed once more
//! in memory (`second.rt`) and compared with the first analysis, unit by unit and file by file: tokens, trees (`trees.rt`, by the lists of `begins.rt`)
//! and names (`comparing.rt`); where they differ, the plan answers as if memory ran out.
#![tactic(auto)]

mod begins;
mod comparing;
mod places;
mod plan;
mod second;
mod trees;

pub use plan::plan_template;
