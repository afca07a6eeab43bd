//! What is so where no offence stands against a renaming: edited files have the renamed texts, trees and bindings, and
//! the analysis that they had, renamed (this project's, over ISO/IEC 9899:1999, 5.1.1.2 phases 1 to 4 and 7, 6.2.1,
//! 6.10.1, 6.10.3).
//!
//! No program stands here: each law is the `ensures` of a function without a body, over definitions of the crates
//! below. An analysis with its classes, the members of one class and an identifier are given, against which no offence
//! stands (`IsAllowed` of `specs/Allowed.antt`). First, what the laws of `edited_unit_laws` ask for. `premises.rt`:
//! linked tokens stay alike and others stay apart, tokens of files are kept, edited files have the renamed tokens, and
//! strings and pasted tokens are made anew of renamed ones; no word of a directive holds a member of a class that a
//! place names. `keeping.rt` brings it to units: tokens of units occur, names of which a unit tells get one new
//! spelling for each old one, and uses of parameters stay alike with these, which is a premise of `lines_are_kept`. Who
//! adds an offence shows here what follows where it does not stand.
//!
//! Then, what comes of it. The limits on the sizes of files are kept too, so files that hold the edited bytes have the
//! renamed texts, unit by unit (`units.rt`). The renaming is one of the tokens of each unit by which `tree_laws` says
//! that names are bound as before: what is no identifier stays, different spellings stay different, and all names of an
//! entity, which links join, get one new spelling (`bindings.rt`). In a unit an identifier that has linkage is one
//! entity, so external names of the units of a project are spelled alike exactly where they were, and the links are the
//! old ones, renamed (`links.rt`). Each token keeps its class, and a bare name in the range of a typedef name of its
//! spelling keeps this, so by `renamed_tree_laws` the renamed tokens are read to the tree that they had, and the
//! analysis of the edited files is the old one, renamed (`meaning.rt`). A rename speaks of files whose members are
//! respelled, one file by one edit: these hold each path of the analysis edited, and so the edits of a plan keep
//! meaning (`sources.rt`). Positions move by the growth of the members before them, so the table of classes goes on
//! with the files (`moves.rt`).
//!
//! Read `specs/Allowed.antt`, `specs/KeptFiles.antt`, `specs/Spellings.antt`, `specs/Renamings.antt`,
//! `specs/ToldNames.antt`, `specs/ReachedLines.antt`; then `specs/RenamedSource.antt`, `specs/EditedSource.antt`,
//! `specs/Plans.antt`, `specs/KeptUnits.antt`, `specs/BoundUnits.antt`, `specs/KeptLinks.antt`, `specs/OneMove.antt`,
//! `specs/ReadUnits.antt`, `specs/Limits.antt`, `specs/KeptFileTokens.antt`.
#![tactic(auto)]

mod bindings;
mod keeping;
mod links;
mod meaning;
mod moves;
mod premises;
mod sources;
mod units;

pub use bindings::names_bind_as_before;
pub use keeping::{lines_stay_alike_where_named, told_names_are_kept, units_occur};
pub use links::links_are_kept;
pub use meaning::units_read_as_before;
pub use moves::{classes_follow, positions_move_alike};
pub use premises::{
    edited_files_are_renamed, files_keep_pieces, lines_are_kept, linked_stay_alike,
    occurring_are_kept, others_stay_apart, strings_are_made_of_renamed_tokens, tokens_are_kept,
    tokens_are_made_anew, unedited_text_stays, words_are_free_where_named,
};
pub use sources::{
    plans_keep_meaning, refusals_are_one, respelled_files_have_renamed_analysis,
    respelled_files_have_renamed_texts, respelled_files_hold_edited,
    respelled_files_keep_external_names,
};
pub use units::{
    edited_files_are_within_limits, file_tokens_are_kept, file_tokens_are_renamed_where_named,
    units_are_kept, units_are_renamed_where_named,
};
