//! The grammar of C as data (ISO/IEC 9899:1999, 6.4.1, 6.4.6 and Annex A.2).
//!
//! A token counts by its class: its keyword, its punctuator, the kind of its constant, and whether a name is a
//! typedef name where it stands; `base_class` gives it as far as no declaration has a say. `alternatives` gives
//! the rows of a production, which are those of `table` in `specs/Grammar.antt`; they are data that costs nothing
//! when it runs. `production_starts`, `starts` and `holds` say of a production, an item and a test whether it fits
//! the classes of the next two tokens. Nothing here reads a text or wants memory: that is `c99_read`. Another
//! dialect is another table. Read `specs/Grammar.antt` beside the standard's annex, `specs/Starting.antt` and
//! `specs/Standard.antt`, then `table.rt` and `starting.rt`.
#![tactic(auto)]

mod classes;
mod declarations;
mod declarators;
mod dialects;
mod expressions;
mod first;
mod first_sets;
mod gnu_declarations;
mod gnu_declarators;
mod gnu_first;
mod gnu_statements;
mod grammar_laws;
mod items;
mod rows;
mod spellings;
mod starting;
mod statements;
mod table;

pub use classes::Class;
pub use dialects::{Dialect, Edition};
pub use grammar_laws::first_sets_are_the_tables;
pub use items::{Action, Alternative, Ask, Item, Test};
pub use spellings::base_class;
pub use starting::{holds, is_among, production_starts, starts};
pub use table::alternatives;
