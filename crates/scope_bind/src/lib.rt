//! Scopes, name spaces, linkage and types of names (ISO/IEC 9899:1999, 6.2.1 to 6.2.3, 6.7.8).
//!
//! What each identifier of a translation unit denotes, given the tokens and their tree: its entity,
//! named by the first token that declares it, with kind and linkage; the parameter lists of functions and
//! the argument lists of calls; the bodies; and names that are parameters only since they are no typedef
//! names. It is `binding_of` of `specs/Bound.antt`, a walk over the tree in which each declaration has
//! its range of tokens, or the first of seven faults. Types are followed as far as members need them.
//! A binding is told by indices and holds no spelling, so a renamed text binds to the same value: that is a law of
//! `tree_laws`. What is known behind the beginning of a text goes along to each text that begins so, `specs/Carried.antt`: `gnu_bind`
//! binds by that. This crate knows neither how a tree is read nor macros, files or classes. Spellings,
//! declarations, names and types want memory. What a tree says without a scope is in `c_types`, which of the
//! declarations a name may denote in `name_chains`. The steps of the walk are public, for a walk over units of
//! another dialect. Read `specs/Declarations.antt` of `c_types`, then
//! `Ordinary.antt` and the files beside it, `Walk.antt`, `Bound.antt`, then `binding.rt`, `walking.rt` and
//! `facts.rt`.
#![tactic(auto)]

mod binding;
mod bound;
mod entering;
mod expressions;
mod facts;
mod initializers;
mod labels;
mod leaving;
mod linkage;
mod marks;
mod members;
mod name_table;
mod naming;
mod objects;
mod ordinary;
mod places;
mod reading;
mod roles;
mod tags;
mod walking;

pub use binding::{bind, bound_behind, bound_unless, count_of, outermost};
pub use bound::{Bound, Name};
pub use c_types::{
    BindRefusal, EntityKind, Indices, Linkage, List, ParameterForm, ParameterList, ParameterNames,
    Range, parameter_lists,
};
pub use expressions::{found_after, of_conditional, of_main, of_postfix, of_unary};
pub use facts::Facts;
pub use initializers::position_after;
pub use ordinary::Declared;
pub use roles::{Role, role_of};
pub use walking::walk;
