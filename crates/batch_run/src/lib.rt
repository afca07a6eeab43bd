//! Batches of renames over one workspace, and the file that has them, one a line (this project's own).
//!
//! `read_batch` takes the bytes of a batch file and gives its lines, as `specs/Reading.antt` says, or the number of the
//! first line that is bad. A `BatchLine` is a place and a new name; whether the place names anything, and whether the
//! name is an identifier, is for those who run the lines to say. This crate reads no file.
//!
//! `run_batch` analyses a workspace and runs lines of a batch in order, each on the files as those before left them. A
//! line is answered as a rename is: with its edits, or with the first reason against it, and then it changes nothing.
//! No file is read twice, and nothing is analysed twice: behind an accepted line the analysis goes on with the files as
//! the line leaves them (`advance` of `kept_analysis`), once another line asks for it. The answer is the text that tells
//! the lines, and one edit for each file that changes, as the last line leaves it; nothing is put here. Each line keeps
//! meaning, between the files as it finds them and as it leaves them, over all sources that agree with what was read
//! (`specs/Keeping.antt`). What stands against a rename belongs to `rename_rules`. What wants memory may answer `Memory`.
//!
//! Read `specs/Reading.antt`, then `read.rt`; `specs/Batch.antt`, `specs/Keeping.antt`, `specs/Running.antt`, then
//! `running.rt`.
#![tactic(auto)]

mod batch_line;
mod line_parts;
mod read;
mod refusal;
mod replies;
mod running;
mod standing;
mod stepping;

pub use batch_line::BatchLine;
pub use read::read_batch;
pub use refusal::BatchRefusal;
pub use running::{Batched, run_batch};
