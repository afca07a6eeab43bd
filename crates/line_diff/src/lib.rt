//! The diff of one file between two texts, in the unified format (this project's).
//!
//! `push_diff` adds it behind a text: it equals `file_text` of `specs/FileText.antt`. Line k of the new text stands beside
//! line k of the old one, since the edits of this program keep the lines of a file; no longest common part is searched. A row
//! in which the texts differ is told with three rows before it and behind it, rows that touch make one hunk, a last line
//! without line feed is told as one, and a carriage return or any odd byte is a byte of its line.
//!
//! For all texts the hunks, applied to the old one, give the new one: `hunks_make_the_new_text` says so of `applied`
//! (`specs/Applied.antt`), which reads hunks as a patch does and refuses what does not fit. The crate knows no file and no
//! edit. Read `specs/Rows.antt`, `specs/Hunks.antt` and `specs/Applied.antt`, then `hunks.rt`.
#![tactic(auto)]

mod diffs;
mod entries;
mod hunks;
mod laws;
mod lines;
mod rows;

pub use diffs::push_diff;
pub use laws::hunks_make_the_new_text;
