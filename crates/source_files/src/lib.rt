//! Source files that are kept from unit to unit (ISO/IEC 9899:1999, 5.1.1.1, 6.10.2).
//!
//! A path that is asked for is read once and gets a number, whether it is there or not (`specs/Files.antt`). A
//! `Cache` keeps what each number stands for, and how many tokens the units had. `candidates_of` gives the paths
//! that an include line asks for, `search` the first of them that is there, and `open_file` opens it: it is lexed
//! and shaped once, within the limits of `specs/Limits.antt`, and kept as a `KeptFile`; `Cache::edit` gives
//! a kept file other bytes (`specs/Edited.antt`). `header_of_toks` gives what the tokens of an expanded include line name. How a failed read and want of memory are told is in
//! `specs/Answers.antt`; what stays true of the table of files from step to step in `specs/Tables.antt`. Macros and
//! lines belong to the crates above. Read `specs/Files.antt`, `specs/Search.antt` and `specs/Opening.antt`, then
//! `cache.rt` and `searching.rt`.
#![tactic(auto)]

mod asking;
mod cache;
mod candidates;
mod edit_refusal;
mod file_table;
mod header;
mod kept_file;
mod opening;
mod pre_fault;
mod searching;
mod shared_table;
mod signs;
mod slot;
mod status;

pub use cache::Cache;
pub use candidates::{behind_of, candidates_of};
pub use edit_refusal::EditRefusal;
pub use header::{
    Header, begins_header, greater_at, header_at, header_in, header_of_toks, is_header, is_string,
};
pub use kept_file::KeptFile;
pub use lexer::FileText;
pub use line_shape::{GnuLine, Item, ItemKind};
pub use opening::{first_place, open_file};
pub use pre_fault::{PreFault, fault_at, fault_there};
pub use searching::{ask_bytes, search};
pub use signs::is_less;
