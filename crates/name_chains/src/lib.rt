//! Declarations in the order in which they come, and which of them a name may denote (ISO/IEC 9899:1999, 6.2.1 to
//! 6.2.3).
//!
//! `Chains` keeps the declarations of a unit so far. `latest` gives the latest one of a name space with the spelling
//! of a token that fits what is asked, `linked` the latest with a linkage, `member` and `members_before` those of a
//! structure or union, by number; `keep` takes the names of a parameter list that a body begins with. Each answer is
//! that of a search through all declarations, the latest first (`specs/Chains.antt`); the code finds it by keys, each
//! of which leads from one declaration to the one before it. Spellings, keys and declarations want memory, questions
//! do not. What is asked where is `scope_bind`. Read `specs/Links.antt` and `specs/Chains.antt`, then `links.rt` and
//! `chains.rt`.
#![tactic(auto)]

mod chains;
mod keeping;
mod latest;
mod linked;
mod links;
mod spellings;
mod structures;

pub use chains::Chains;
pub use latest::{Asked, has_linkage, is_spelled};
