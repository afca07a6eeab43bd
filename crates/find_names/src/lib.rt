//! The classes that satisfy a query.
//!
//! `find` goes over the classes that a place can name and that are no keywords, and gives a line for each that satisfies
//! the query: the place of its first member, how many members it has, and how it is spelled. It is `PrintsFound` of
//! `specs/Found.antt`; what an attribute says of a class stands in `specs/Satisfying.antt`, and which classes are in
//! question in `specs/Question.antt`. How a query is read belongs to `query_words`, which classes a name touches to
//! `class_marks`, what is unused to `unused_names`. Refused is a word that is no query, by its first fault; want of
//! memory is answered `Memory`, and so is a query of 2^32 bytes or more. It costs one walk over all names, whose classes
//! are found once for all that is asked of them, one over the tokens of all files, and one over the members of all
//! classes. The query is read once; one that asks for no spelling is asked once for all classes with the same
//! attributes. Read the three files, then `found_classes.rt`.
#![tactic(auto)]

mod class_facts;
mod file_tokens;
mod found_classes;
mod keywords;
mod questions;
mod refusal;
mod role_marks;

pub use found_classes::find;
pub use refusal::FindRefusal;
