//! Reports on the units of a workspace and on its analysis, as text.
//!
//! `print_tokens` gives the tokens of a unit that is preprocessed, `print_skipped` the items of source files
//! that no unit processes (ISO/IEC 9899:1999, 6.10.1 paragraph 6). They equal `tokens_text` of
//! `specs/TokensText.antt` and `skipped_text` of `specs/Skipped.antt`. `report` gives what is asked of an analysis,
//! as `IsReport` of `specs/Queries.antt` tells it: the members of the class of a name, the first members of classes
//! that are declared and not used, or the include lines that no inclusion needs. How units are preprocessed and
//! analysed, and what is unused, belongs to the crates below, who asks for a report to the crate above. Refused is a
//! place that names nothing; want of memory is answered `Memory`. Cost is that of one walk over the tokens, over the
//! items and what was reached of them with one sort of the files, over the members of the class, or over what is
//! printed. Read `specs/Skipped.antt`, then `skipped.rt`; `specs/Queries.antt`, then `class_lines.rt` and
//! `list_lines.rt`.
#![tactic(auto)]

mod class_lines;
mod file_order;
mod list_lines;
mod marks;
mod queries;
mod skipped;
mod spans;
mod unit_tokens;

pub use queries::{Query, QueryRefusal, report};
pub use skipped::print_skipped;
pub use unit_tokens::print_tokens;
