//! The language in which classes are asked for: its words, what it accepts, and what a query says of a class.
//!
//! A query is one word: `name=PATTERN` and attributes, joined by `|`, `&`, `!` and parentheses. `Compiled::of` reads it
//! once, or names the first fault: it is `parsed` of `specs/Reading.antt`. `Compiled::satisfied` says whether something
//! with some attributes and a spelling satisfies it, as `value` of `specs/Queries.antt` tells. A pattern is matched as
//! `specs/Patterns.antt` tells: each `*` stands for any bytes. What the attributes of a class are belongs to those who
//! ask. At most 64 `!` and `(` are open at once, so the walk needs little stack. It makes steps and no tree; asking
//! takes a step for each sign and atom. A pattern costs pattern times spelling, where each run of `*` is one, and
//! nothing where more of its bytes stand for themselves than the spelling has. `Told` remembers what a query without
//! patterns said of attributes. Read `specs/Queries.antt` and `specs/Reading.antt`, then `walk.rt` and `compiled.rt`.
#![tactic(auto)]

mod atoms;
mod attributes;
mod compiled;
mod faults;
mod laws;
mod patterns;
mod steps;
mod told;
mod walk;

pub use attributes::{Attribute, Facts};
pub use compiled::{Compiled, Room};
pub use faults::{QueryFault, QueryRefusal};
pub use laws::{patterns_are_replaced, queries_are_derived};
pub use told::Told;
