//! What a new order of the parameters of a function does to an analysed workspace, and what stands against it.
//!
//! A class names functions (`specs/Functions.antt`): each of some unit one of whose names holds a member of the class.
//! Their lists are the parameter lists of their declarators and the argument lists of calls whose callee is the name
//! itself (`specs/Lists.antt`). Each of these is to have as many items as the first declarator has parameters. What
//! stands against a new order, and where, say `specs/NameOffences.antt` of names, `specs/Marks.antt` of the parentheses
//! and commas of lists, `specs/Insides.antt` of what happens inside them and of names in macros, and `specs/Offences.antt`
//! of lists in macros, of scopes and of odd tokens; `specs/GnuOffences.antt` of what units of GNU C say of a function
//! besides. Each function takes the first of the offences before it to the first of them all, in the order of the crate
//! `offences`. `edit_files` gives the edits of the files that hold a list (`specs/FileLists.antt`). The answer for a place and an order is these edits or the first refusal
//! (`specs/Template.antt`). The plan of a whole template, and what it keeps, belong to the crates above.
#![tactic(auto)]

mod begun_tokens;
mod body_lists;
mod callees;
mod counting;
mod covers;
mod dependences;
mod file_edits;
mod file_lists;
mod functions;
mod gnu_texts;
mod gnu_units;
mod held_lists;
mod item_units;
mod known_lists;
mod list_insides;
mod list_macros;
mod list_marks;
mod list_rules;
mod macro_names;
mod names;
mod odd_lines;
mod odd_tokens;
mod places;
mod run_list;
mod unit_functions;
mod unit_parameters;

pub use counting::{Declarator, first_declarator, parameter_count};
pub use file_edits::edit_files;
pub use functions::{Functions, has_functions, named_functions};
pub use gnu_units::at_gnu_units;
pub use held_lists::{list_begins, lists_are_held};
pub use list_insides::at_insides;
pub use list_marks::at_marks;
pub use list_rules::at_lists;
pub use macro_names::at_macro_names;
pub use names::at_names;
