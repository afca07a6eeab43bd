//! Macro expansion (ISO/IEC 9899:1999, 6.10.3): its definition, and the program.
//!
//! `expand` takes the macros, the path of the file, the tokens of a run and the work that is left, and
//! gives what `expansion` of `specs/Expansion.antt` says: the expanded tokens, and in `Notes` what
//! happened on the way: replaced names, links to their macros' names, strings and pasted tokens; or the
//! first fault at the position of a macro's name. The definition is one step over whole lists of tokens
//! with their hide sets (`step`), closed by as many steps as the work and the tokens allow. That these
//! suffice, and what a renaming rests on, are laws of the crate `expansion_laws`. The run and `Work.left`
//! together are below 2^32, and at most 200 arguments are expanded inside one another. What follows is a
//! stack of results over the run, which is lent (`specs/Frames.antt`): a replacement moves no more than it puts in,
//! and no token of a run moves before it is taken.
//!
//! Macros, their definitions and what their bodies become are those of `macro_body`. Read its `specs/Hides.antt`,
//! `specs/Bodies.antt` and `specs/Substitution.antt`, then `specs/Calls.antt`, `specs/Expansion.antt` and
//! `specs/Renaming.antt` here; of the program `expansion.rt` and `replacing.rt`.
#![tactic(auto)]

mod call_reading;
mod calls;
mod context;
mod expansion;
mod replacing;
mod rest;

pub use expansion::expand;
pub use macro_body::{
    Definition, ExpandFault, Form, Macros, Notes, Replacement, Work, all_shared, is_close, is_name,
    is_open, is_word, line_number, push_shared, shared,
};
