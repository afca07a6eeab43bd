//!
//! A `Tree` is a node: its label, the index of its first token, and its children, which are indices
//! of tokens or nodes; contracts see it as a `Node` of `specs/Tree.antt`. `Visible` says which names
//! are typedef names; contracts see it as the list of its scopes, `specs/Names.antt`. This crate knows
//! no grammar: it does not say which trees are trees of a text, and reads no token. What wants memory
//! answers `Memory`; readers never do. Read `specs/Tree.antt` and `specs/Names.antt`, then `tree.rt`.
#![tactic(auto)]

mod numbered_names;
mod production;
mod tree;
mod visible;

pub use production::{Label, Production};
pub use tree::{Child, Tree};
pub use visible::Visible;
