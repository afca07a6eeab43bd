//! The note on a bad command line.
//!
//! `tell_usage` tells what is wrong with words that are of no form: it names the first word that is bad, or says what the command
//! takes. `usage_note` of `specs/Notes.antt` is its line. Which words are of a form belongs to `command_words`, whose `asked` says
//! so, and who asks for a note to the crate above. Nothing here wants memory. Read `specs/Forms.antt` and `specs/Notes.antt`, then
//! `notes.rt`.
#![tactic(auto)]

mod forms;
mod notes;
mod places;

pub use notes::tell_usage;
