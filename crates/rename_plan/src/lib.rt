//! The plan of a renaming: the edits of all files, or the first reason against it.
//!
//! `plan_rename` takes an analysed workspace, a place in it, a new name, and whether strings that `#` makes (6.10.3.2)
//! may follow the renaming. It gives the edits of every file that holds a member of the class of the named part, or
//! says that the name is no identifier, that the place names nothing, or which offence stands first. Over each source
//! that has the analysis, once the edits are made, the workspace means what it meant (`RenamesOver` of
//! `renamed`). It reads and writes no files: `apply` of `edited_files` puts the edits.
#![tactic(auto)]

mod plan;

pub use plan::plan_rename;
