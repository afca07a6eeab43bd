//! Macros and what their bodies become (ISO/IEC 9899:1999, 6.10.3).
//!
//! `Macros` keeps the macros that are defined, a finite map by `specs/Live.antt`, and can be copied;
//! `Definition::of` gives the definition of a `define` line, by `specs/Defining.antt`, which has the first definitions
//! of `__LINE__`, `__FILE__` and `__COUNTER__` too. A `HiddenTok` is a token with the names that are not available to it.
//! `result_of` gives what a name is replaced by, its arguments given: strings are made, then tokens are pasted
//! (`specs/Substitution.antt`); `Notes` keep what happened on the way, and `Work` is what is left to be done. Where
//! names are found, and their arguments read, belongs to `macro_expand`. What makes tokens, definitions or notes
//! wants memory. Read `specs/Macro.antt`, `specs/Hides.antt`, `specs/Bodies.antt` and `specs/Substitution.antt`,
//! then `chains.rt`, `operands.rt` and `substitution.rt`.
#![tactic(auto)]

mod added_names;
mod chains;
mod costs;
mod define_line;
mod definitions;
mod fault;
mod hidden;
mod hide_set;
mod name_parts;
mod notes;
mod operands;
mod parameters;
mod pasting;
mod plain_bodies;
mod predefined;
mod shared_tokens;
mod substitution;
mod table;

pub use added_names::AddedNames;
pub use chains::{Chain, chains_of, occurs_alone};
pub use definitions::{Definition, Form};
pub use fault::ExpandFault;
pub use hidden::{HiddenTok, HiddenToks, only};
pub use hide_set::HideSet;
pub use line_shape::{is_close, is_comma, is_name, is_open, is_word};
pub use notes::{Notes, Replacement, Work};
pub use parameters::{is_function, rest_number};
pub use predefined::{line_number, number_token, path_string};
pub use shared_tokens::{all_shared, push_shared, shared};
pub use substitution::{result_of, work_left};
pub use table::Macros;
