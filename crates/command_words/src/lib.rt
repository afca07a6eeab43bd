//! The words of the command line, and the lines that the program writes.
//!
//! `asked` says what the words after the program's name ask for, as `specs/Request.antt` says, or that they are of no
//! form; `workspace_file` names the file that a request is asked over. `help` and `version` are the texts of
//! `specs/Help.antt`. `tell` and its kin write one line of a message to a sink, piece by piece, and stop at the first
//! write that fails; `edited_text` and `size_text` make lines of the output. `specs/Message.antt` has every line,
//! `specs/Telling.antt` what telling does to a sink. Here nothing is known of what a command does: that is the crate
//! `cscout_run`. Only `edited_text` and `size_text` want memory. A command's words, its help and its lines are added
//! here; the words of each are a type of the module `requests`. Read `specs/Request.antt`, then `requests.rt`.
#![tactic(auto)]

mod help_texts;
mod lines;
mod messages;
mod orders;
pub mod requests;

pub use help_texts::{help, version};
pub use lines::{edited_text, size_text};
pub use messages::{tell, tell_batch, tell_line, tell_offence, tell_query, tell_unit};
pub use orders::order_of;
pub use requests::{Ask, Edit, Report, Request, asked, is_number, number, workspace_file};
