//! Edited files have the renamed text, the renamed units and the renamed analysis, and files in which the items of
//! lists change places the units and the analysis in the new order (ISO/IEC 9899:1999, 5.1.1.2 phases 1 to 4 and 7,
//! 6.10).
//!
//! No program stands here: each law is the `ensures` of a function without a body, over definitions of the crates
//! below. A change of files is a renaming of tokens, the edited bytes of each file, and the files that the units have
//! in the end. `lines.rt` ties an edit of bytes to the renaming of tokens over which `macro_expand` says how an
//! expansion is renamed: the tokens of an edited file, its items and macro definitions, the value of a condition.
//! `units.rt`: where a unit has no fault, and the renaming keeps what `specs/Keeping.antt` says, the unit over the
//! edited files has the renamed tokens, links and events, the same items reached, the same work left and as many
//! tokens, and a table with the same paths and the edited bytes; runs, definitions, conditions, inclusions and files go
//! alike, kind by kind. `workspaces.rt` says it of all units in order, and `analyses.rt` of their analysis, its links
//! and its file tokens, where the renamed tokens read and bind as before. What must be kept are premises here: this
//! crate knows no class and no offence.
//!
//! Lemmas that both renamings and new orders ask for stand here too, in `proofs/`: the tokens of files and of the units of an
//! analysis, where they stand and of what they are made.
//!
//! `reordered.rt`: where the lists of each unit stand in it and in its runs, as `units_are_reordered` of `unit_laws`
//! asks, and tokens in the new order are read and bound, the units of the workspace over the edited files are those
//! with their tokens in the new order, each read and bound. What is asked of trees and names is said in the crates that
//! speak of them. The text of each file stands so by the laws of `arranged_text_laws`.
//!
//! Read `specs/EditedTokens.antt`, `specs/Lines.antt`, `specs/Conditions.antt`, `specs/UnitLines.antt`;
//! `specs/Edited.antt`, `specs/Renamed.antt`, `specs/Keeping.antt`, `specs/Steps.antt`, `specs/StepLaws.antt`,
//! `specs/Units.antt`, `specs/UnitTexts.antt`, `specs/EditedFiles.antt`; `specs/WorkspaceTexts.antt`,
//! `specs/Analyses.antt`; then `specs/Texts.antt`, `specs/ReorderedAnalyses.antt`, `specs/Workspaces.antt` and
//! `specs/TokenRuns.antt`.
#![tactic(auto)]

mod analyses;
mod lines;
mod reordered;
mod units;
mod workspaces;

pub use analyses::{
    analyses_are_renamed, analyses_are_texts_that_read, file_tokens_are_renamed, links_are_renamed,
    units_alone_are_renamed,
};
pub use lines::{
    conditions_count_alike, definitions_are_renamed, edited_files_keep_tokens, items_are_renamed,
    unit_lines_are_renamed,
};
pub use reordered::{
    analyses_are_reordered, paths_stand, texts_stand, workspace_tokens_are_of_runs,
    workspaces_are_reordered,
};
pub use units::{
    conditions_go_alike, definitions_keep_macros, edited_tables_are_found, files_go_alike,
    inclusions_go_alike, respelled_files_are_kept, runs_go_alike, units_are_renamed,
};
pub use workspaces::texts_are_renamed;
