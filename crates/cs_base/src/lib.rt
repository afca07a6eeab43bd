//! What every layer above shares: positions, preprocessing tokens as values, causes, and the outside.
//!
//! A position names a character of the logical text of a source file (ISO/IEC 9899:1999, 5.1.1.2);
//! a `Tok` is a preprocessing token (6.4) whose text and origins are shared and which contracts see
//! as the plain record of `specs/Token.antt`; a `Span` tells origins of its characters. `Files` and
//! `Sink` are all that the program knows of the world: their laws stand in `specs/Outside.antt`, and
//! `MemFiles` and `MemSink` are worlds in memory that can be told to fail. This crate knows no syntax:
//! it neither reads text nor makes messages. What wants memory answers `Memory`; readers never do. Read
//! `specs/Token.antt`, `specs/Spans.antt` and `specs/Outside.antt`, then `outside.rt`.
#![tactic(auto)]

mod call_list;
mod causes;
mod edit_list;
mod forms;
mod held_bytes;
mod held_files;
mod limits;
mod no_memory;
mod outside;
mod paths;
mod positions;
mod reserved_words;
mod spans;
mod step_count;
mod store;
mod texts;
mod tokens;
mod ws_units;

pub use causes::Cause;
pub use edit_list::Edits;
pub use held_bytes::MemSink;
pub use held_files::MemFiles;
pub use limits::{
    MOST_BYTES, MOST_BYTES_OF_ALL, MOST_FILES, MOST_TOKENS, MOST_TOKENS_OF_ALL, MOST_UNITS,
    MOST_WORK,
};
pub use no_memory::Memory;
pub use outside::{Files, Got, Put, Sink, Wrote};
pub use paths::normal_path;
pub use positions::{Part, Place, Pos};
pub use reserved_words::{
    is_built_in, is_function_word, is_reserved, is_reserved_by_gnu, is_reserved_in, is_word_of_gnu,
};
pub use spans::Span;
pub use step_count::Steps;
pub use texts::Text;
pub use tokens::{Kind, Link, Tok, Toks};
pub use ws_units::{Setting, Standard, Unit};
