//! What a new order of a function's parameters promises: files, and each unit's tokens, tree and names behind it (this project's).
//!
//! `specs/Reorder.antt` is the promise, `IsReorder`: between two sources the items of the named functions' lists were put in the new
//! order, nothing else changed, and the workspace means what it meant. `specs/Reordered.antt` says what that is: the bytes of files,
//! and the tokens, the tree and the names of each unit. Nothing else has to be read but the words of lists among elements
//! (`list_cuts`) and of trees (`reordered_tree_laws`). `template_plan` gives edits that keep it. The laws say what stays in every new
//! order (`specs/Staying.antt`). `renamed` is the same for names.
#![tactic(auto)]

mod staying;

pub use staying::{reordered_paths_stay, reordered_standards_stay};
