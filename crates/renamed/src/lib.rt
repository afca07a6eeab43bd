//! What a rename promises: tokens, texts, tables of files and analyses behind it (this project's).
//!
//! `specs/Rename.antt` is the promise, `IsRename`: between two sources the members of the named class were respelled, nothing else
//! changed, and the workspace means what it meant. `specs/Renamed.antt` says what that is: how the members of a class are spelled
//! otherwise, and the two equations `TextsAreRenamed` and `AnalysisIsRenamed`, over `Changed` of `analysis`. `rename_plan` gives edits
//! that keep it, `batch_run` says it of each line, and docs/THEOREM.md walks through it. How it is proved is not said here: names of
//! macros, and what occurs, are words of proofs (`macro_expand`, `edited_unit_laws`). The laws say what stays under every renaming,
//! whatever is spelled otherwise (`specs/Staying.antt`). `reordered` is the same for orders.
#![tactic(auto)]

mod staying;

pub use staying::{edited_paths_stay, renamed_tokens_stay, renamed_units_stay};
