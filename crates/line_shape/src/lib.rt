//! Directive lines and the runs of text between them (ISO/IEC 9899:1999, 6.10).
//!
//! `shape` takes the text of a source file and gives its items, those of `items_of` of
//! `specs/Items.antt`: each directive line, sorted by the word behind its `#`, and each run of text
//! lines between two directives. A directive line of no allowed form is an item too, with the first
//! cause of `specs/BadLines.antt`: it is a fault only where it is reached, which the crates above know,
//! as they know macros, conditions and source files. Tokens behind an operand are not looked at. An
//! item names its tokens by their numbers and copies none. Only want of memory is refused. Read
//! `specs/Items.antt` and `specs/BadLines.antt`, then `walk.rt`.
#![tactic(auto)]

mod directive;
mod items;
mod macro_line;
mod names;
mod parameters;
mod signs;
mod walk;

pub use items::{GnuLine, Item, ItemKind};
pub use signs::{
    is_close, is_comma, is_ellipsis, is_hash, is_name, is_open, is_paste, is_sign, is_word,
};
pub use walk::shape;
