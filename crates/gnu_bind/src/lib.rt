//! The binding of translation units of GNU C, as gcc reads them.
//!
//! `bind` takes the tokens of a unit with their tree and tells what each identifier denotes, or the first fault. It
//! equals `gnu_binding_of` of `specs/Bound.antt`: a walk as that of `scope_bind`, of which it takes every step that GNU
//! C leaves as the standards have it. Its own are attributes and built-in functions, whose names denote nothing; blocks
//! in expressions, labels of blocks, addresses of labels and `asm goto`; `typeof`, `__auto_type`, `_Generic`, paths to
//! members, structures without members, and what a built-in function gives, whose type is unknown. Units of C99 and C11
//! are bound by `scope_bind` alone; `bind_by` asks the standard of a unit, and equals `binding_by`. `bind_from` gives the
//! same of a unit that begins as another one: what is known behind the beginning is kept in a `BoundFront`, and goes along to the
//! unit, where file scope has another end (`specs/Fronts.antt`). This crate knows neither how a tree is read nor macros,
//! files or classes.
//! Declarations, names and types want memory. Read `specs/Senses.antt`, `Names.antt`, `BlockLabels.antt`,
//! `Alone.antt` and `Types.antt`, then `Walk.antt`, then `walking.rt`.
#![tactic(auto)]

mod alone;
mod binding;
mod block_labels;
mod carrying;
mod copies;
mod entering;
mod fronts;
mod known;
mod laws;
mod leaving;
mod names;
mod open_lists;
mod reading;
mod roles;
mod senses;
mod tree_tokens;
mod types;
mod walking;
mod words;

pub use binding::{bind, bind_by};
pub use fronts::{BoundFront, bind_from};
pub use laws::{fronts_bind_alike, gnu_fronts_bind_alike, standards_bind_alike};
pub use roles::GnuRole;
pub use scope_bind::{BindRefusal, Bound, EntityKind, Linkage, List, Name, Range};
pub use senses::{Sense, Special};
