//! What the tree of a unit of GNU C tells by itself of names that have another use than the standards'.
//!
//! `lists_of` takes the tokens of a unit with their tree, and lists what rules ask for that keep the meaning of a
//! program: identifiers that may denote nothing, as names of attributes and of functions that are built in; strings that
//! reach the assembler, with names of symbols in them; numbers in the attributes of a declared name, which may count its
//! parameters, and its names for the assembler; and the blocks that stand in expressions. It equals `listed_in` of
//! `specs/Lists.antt`. `push_given` adds what such a string gives behind its escape sequences (`specs/Strings.antt`), and `holds_word`
//! finds a name in it. This crate knows no scopes: which of the identifiers denote nothing is told by who binds them. Lists want
//! memory. Read `specs/Tokens.antt`, `specs/Counted.antt` and `specs/Lists.antt`, then `listing.rt`.
#![tactic(auto)]

mod counted;
mod listing;
mod lists;
mod strings;
mod tokens;
mod whole_words;
mod words;

pub use counted::Counted;
pub use listing::lists_of;
pub use lists::{Adjacent, Lists};
pub use strings::push_given;
pub use tokens::attribute_name;
pub use whole_words::holds_word;
