//! What is true of the binding of every translation unit, and of the tree of every text that is read (ISO/IEC 9899:1999
//! and 9899:2011, 6.2.1 to 6.2.3, 6.7.7, Annex A.2).
//!
//! No program stands here: each law is the `ensures` of a function without a body. `bound.rt` speaks of `binding_of` of
//! the crate `scope_bind`. A name is spelled as the token that names its entity, and a text that is renamed,
//! `NamesAreRenamed` of `specs/RenamedNames.antt`, binds name for name as before: that is so for each list of tokens
//! and each tree. The other laws there ask that the tree is one of these tokens, `IsTreeOf` of
//! `specs/TreesOfTexts.antt`. Then names, entities and faults stand in the text, no token is two names, one spelling
//! with linkage is one entity, the token that names an entity is a name of it, what is true of tokens where names stand
//! is true of names, lists stand in order of their names, and bodies stand apart. `trees.rt` speaks of `read_of` of the
//! crate `c99_read`: the tokens of a tree stand in the order of the text, whatever the grammar, and a tree of C is one
//! of its text, GNU C too. So `bindings.rt` has the laws of `bound.rt` for each text that is read by an edition and
//! bound, with no premise on its tree. Reading is proved by one induction (`proofs/Walked.antt`); what is special to C
//! is `specs/Shapes.antt`, held against the tables.
//!
//! `told.rt` says what a binding tells of the identifiers in a tree, where no fault stands, `specs/Told.antt` for each
//! node: what declares a tag, an enumeration constant or an ordinary identifier, what uses one, and that two parameters
//! of one list have different spellings. It is proved along the walk of the binder (`proofs/Grown.antt`,
//! `proofs/Sorted.antt`).
//!
//! `typedefs.rt` says that reader and binder agree on typedef names: what stands as a type name in the tree denotes
//! one, and what stands as a primary expression or as the bare name of a parameter denotes none. An outline of the
//! binder's walk, which holds ordinary names alone, is followed beside each step of the reader (`specs/Agreeing.antt`,
//! `proofs/Outline.antt`, `proofs/Goes.antt`; for bodies `proofs/Handing.antt`, `proofs/Functions.antt`).
//!
//! `standards.rt` is of a text without a word that C11 adds. What C99 reads of it, C11 reads too; what C11 reads of it,
//! C99 reads, where no semicolon stands alone behind specifiers of members; the tree by C99 is the narrowed one by C11
//! (`specs/Narrowed.antt`); and both have one binding, or one first fault. Reading is proved in step, by the tables of
//! both standards (`proofs/StandardSteps.antt`, `proofs/Back.antt`), binding by one induction over trees
//! (`proofs/Narrowing.antt`).
//!
//! Read `specs/TreesOfTexts.antt`, `specs/BoundNames.antt`, `specs/RenamedNames.antt`, `specs/ReadTexts.antt`, then
//! `specs/ToldNames.antt`, `specs/TypedefNames.antt` and `specs/Narrowed.antt`.
#![tactic(auto)]

mod bindings;
mod bound;
mod standards;
mod told;
mod trees;
mod typedefs;

pub use bindings::{
    each_read_token_is_one_name, one_read_name_has_linkage, read_bodies_stand_apart,
    read_entities_are_names, read_lists_stand_in_order, read_names_are_identifiers,
    read_names_stand_in_the_text,
};
pub use bound::{
    bodies_stand_apart, bound_names_pass, each_token_is_one_name, entities_are_names,
    lists_stand_in_order, names_are_spelled_as_their_entities, names_stand_in_the_text,
    one_name_has_linkage, renamed_names_bind_alike,
};
pub use standards::{texts_are_bound_by_both_standards, texts_are_read_by_both_standards};
pub use told::identifiers_are_told;
pub use trees::{reading_stops_in_the_text, tokens_stand_in_order, trees_are_of_their_texts};
pub use typedefs::names_are_read_as_they_are_bound;
