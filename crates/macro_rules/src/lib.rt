//! A new order of a macro's parameters, and of the arguments of its calls: what it changes, and what stands against it.
//!
//! A class names macros (`specs/Macros.antt`): those of the `define` lines that some unit processes and whose whole name is
//! one member of the class. Their lists are their own and those of calls: names that stand in a run of text lines and that
//! one of them replaces, in whatever unit (`specs/Lists.antt`). Each list is to have as many items as the first macro has
//! parameters (`specs/Counting.antt`). `macro_heads` gives the macros, `first_offence` the first of the offences of
//! `specs/Offences.antt` and `specs/FileOffences.antt`, `edit_files` the edits of `specs/Edits.antt`. Nothing is promised
//! here of what the edited files mean: that is asked by `macro_plan`. Positions are looked up in sets, and each list is
//! walked once, so all takes time that grows with the files, the tokens of the units, and how deep lists stand in one
//! another.
#![tactic(auto)]

mod file_edits;
mod files;
mod first;
mod heads;
mod levels;
mod lines;
mod list_offences;
mod lists;
mod macros;
mod name_offences;
mod odd_lines;
mod positions;
mod replacements;
mod token_offences;

pub use file_edits::edit_files;
pub use first::{first_offence, parameter_count};
pub use heads::Head;
pub use macros::{Macros, macro_heads, named_macros};
