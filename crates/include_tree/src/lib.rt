//! Translation units: source files with all that they include, preprocessed (ISO/IEC 9899:1999, 5.1.1.2
//! phase 4, 6.10).
//!
//! `preprocessed` of `specs/Preprocessed.antt` takes what files hold, a unit with its number, and what is carried
//! from the units before; it gives the tokens of the unit with what happened on the way, and what is
//! carried on, or the first fault with its place. Items of a file are walked in order, in their if-sections
//! (`specs/Walk.antt`); an included file is walked where its line stands, within a limit on depth. Macro
//! expansion and the values of conditions belong to the crates below; C, classes and what a name means to
//! the crates above. How a file is read and the limits are parameters of the definition.
//!
//! `preprocess` gives that text, which a `UnitText` of `unit_steps` keeps, or the first fault; a failed read
//! and want of memory are refusals of their own. A `Cache` of `source_files` keeps files once read, from unit
//! to unit. `preprocess_on` gives the same, and puts in what units before began with alike: fronts, of which
//! `specs/Fronts.antt` says what they keep. The laws `units_are_counted`, `depth_is_a_limit` and
//! `pseudo_files_are_of_their_units` hold of all units. Read `specs/Files.antt` of `source_files`, `specs/Notes.antt`
//! of `unit_steps`, then `specs/Walk.antt`, `specs/Unit.antt` and `specs/Laws.antt` here; of the program
//! `unit_walk.rt`, `main_walk.rt` and `walking.rt`.
#![tactic(auto)]

mod asking;
mod fronts;
mod including;
mod item_steps;
mod item_toks;
mod laws;
mod leads;
mod main_walk;
mod section_lines;
mod sections;
mod settings_text;
mod unit_walk;
mod walking;

pub use fronts::Fronts;
pub use laws::{
    depth_is_a_limit, equal_settings_share, items_give_the_same_again,
    pseudo_files_are_of_their_units, tables_only_grow, unit_gives_the_same_again,
    units_are_counted,
};
pub use source_files::{Cache, GnuLine, Item, ItemKind, KeptFile, PreFault, begins_header};
pub use unit_steps::{Event, EventKind, Reached, UnitText};
pub use unit_walk::{preprocess, preprocess_on};
