//! Why a place names nothing.
//!
//! A place names a part where a unit reads a file of its path, the file has such a character, that lies in an identifier, and some
//! unit processes it. `unnamed` gives the first of these four that fails, as `IsUnnamed` of `specs/Unnamed.antt` says, or none where
//! the place names something; `tell_unnamed` tells the line of it. What a place names belongs to `analysis`, who asks for a note to
//! the crate above. Nothing here wants memory. Cost is that of one walk over the tokens of a file. Read `specs/Unnamed.antt`, then
//! `steps.rt`.
#![tactic(auto)]

mod steps;
mod telling;

pub use steps::{FailedStep, unnamed};
pub use telling::tell_unnamed;
