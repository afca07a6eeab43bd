//! What is true of the binding of every unit of GNU C.
//!
//! Laws of `gnu_binding_of`, which no program runs, and which callers' proofs cite, as `tree_laws` has them of the
//! standards: a name is spelled as the token that names its entity; and where the tree is one of the tokens,
//! `IsTreeOf` of `tree_laws`, names, entities and faults stand in the text, no token is two names, one
//! spelling with linkage is one entity, the token that names an entity is a name of it, and what is true of tokens where
//! names stand is true of names; and a text that uses nothing of GNU C and that the standards bind binds so by GNU C. They
//! go over the walk of `gnu_bind`, and rest on what `tree_laws` says of each step of the standards. Read
//! `specs/GnuPlaces.antt` and `specs/GnuNames.antt`, then `proofs/GnuHeld.antt`.
#![tactic(auto)]

mod names;
mod standard_texts;

pub use names::{
    each_gnu_token_is_one_name, gnu_entities_are_names, gnu_names_are_spelled_as_their_entities,
    gnu_names_pass, gnu_names_stand_in_the_text, one_gnu_name_has_linkage,
};
pub use standard_texts::standard_texts_bind_alike;
