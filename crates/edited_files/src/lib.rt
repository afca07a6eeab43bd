//! Edits of files, kept by path, and put: the one place of the program that writes source files (this project's own).
//!
//! `TextEdits` keeps edits by path, one for each: an edit of a path that has one takes its place. So whoever edits
//! files step by step puts each file once, at the end. What wants memory may answer `Memory`, and then nothing has
//! changed. `apply` puts each edit in order of path, stops at the first put that fails, and says how many it had put
//! before. What is held afterwards, and which counts of failed calls rose, stands in `specs/Applying.antt`. It takes no
//! memory, so no answer for want of it comes once the first file is put.
//!
//! The crate makes no edits and knows no workspace: it takes the list that a plan gave. Read `specs/Edited.antt`, then
//! `text_edits.rt`; `specs/Applying.antt`, then `applying.rt`.
#![tactic(auto)]

mod applying;
mod text_edits;

pub use applying::{Applied, apply};
pub use text_edits::TextEdits;
