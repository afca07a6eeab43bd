//! What the crates of worked rows share: files and tokens, made of short texts.
//!
//! `held` makes files in memory of a text, `toks` makes tokens of words. Neither reads C: a token's kind goes by its
//! first character alone. What wants memory may answer `Memory`.
#![tactic(auto)]

mod files;
mod tokens;

pub use files::held;
pub use tokens::toks;
