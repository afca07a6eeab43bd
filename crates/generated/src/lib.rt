//! The generated workspace, in memory: it shows what an analysis costs at any size.
//!
//! `generate` makes a header, so many units that include it, and the workspace file that names them. Read
//! `specs/Generated.antt`, then `making.rt`.
#![tactic(auto)]

mod making;
mod unfailing;

pub use making::generate;
pub use unfailing::Unfailing;
