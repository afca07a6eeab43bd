//! Trees of C as declarations see them (ISO/IEC 9899:1999, 6.7.2 to 6.7.7, 6.9.1).
//!
//! What a tree says without a scope: the name of a declarator, its type as far as members need it, and its parameter
//! list (`specs/Types.antt`, `specs/Trees.antt`); the parameter lists of a unit with its argument lists and bodies
//! (`specs/Lists.antt`), and `parameter_lists`, the names of the parameters of each (`specs/Parameters.antt`). Here
//! stand also the words that scopes use: `Declaration`, `Occurrence`, `Linkage`, `EntityKind` and the seven faults
//! (`specs/Declarations.antt`). What a name denotes is `scope_bind`. Lists want memory, questions on a tree do not.
//! Read `specs/Declarations.antt`, `specs/Types.antt` and `specs/Trees.antt`, then `declarators.rt` and
//! `parameters.rt`.
#![tactic(auto)]

mod bare_names;
mod bodies;
mod declarations;
mod declarators;
mod entity;
mod faults;
mod frames;
mod listing;
mod lists;
mod parameters;
mod shapes;
mod trees;
mod types;

pub use bodies::push_bodies;
pub use declarations::{Cause, Declaration, Fault, Occurrence, Space};
pub use declarators::{declarator_type, first_list, name_below};
pub use entity::{EntityKind, Linkage};
pub use faults::BindRefusal;
pub use frames::{Body, Frame, Position, Scope, Words};
pub use listing::Shown;
pub use lists::{Indices, List, Range};
pub use parameters::{ParameterForm, ParameterList, ParameterNames, parameter_lists};
pub use shapes::{first_node, is_bare, lone_token, second_node};
pub use trees::{
    Part, child_at, first_token, has_node, is_at, is_list, is_node, is_text, last_token, words_of,
};
pub use types::{Base, CType};
