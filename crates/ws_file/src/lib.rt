//! The workspace file, both ways.
//!
//! `read_ws` takes the bytes of a workspace file and gives the workspace of `specs/Reading.antt`, or the
//! first line that is refused; `print_ws` writes a workspace as the text of `specs/Printing.antt`, which
//! is read back equal where it fits the limit of a file. `Workspace` is the list of its units and of the
//! prefixes of read-only paths, each as `specs/Workspace.antt` says. This crate reads no file and knows
//! no C: a setting is a text that later becomes a line of a unit's pseudo file. What wants memory may
//! answer `Memory`; readers never do. Read `specs/Reading.antt`, then `reader.rt`.
#![tactic(auto)]

mod copies;
mod line_parts;
mod print;
mod read;
mod reader;
mod refusal;
mod text_tests;
mod words;
mod workspaces;

pub use cs_base::{Setting, Unit};
pub use print::print_ws;
pub use read::read_ws;
pub use refusal::WsRefusal;
pub use workspaces::Workspace;
