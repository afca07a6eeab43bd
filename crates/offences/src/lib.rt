//! Offences against an edit, and the first of them; a class over an analysis, its members in tokens, and tokens once the members are
//! spelled otherwise (this project's).
//!
//! What stands against an edit, a rename or a new order, is an `Offence`: a cause at a position in a file. The first one is
//! that of the least place, and at one place that of the least number (`specs/First.antt`); `first_with` takes one more into
//! account. A `Class` is an analysis with the members and the number of one of its classes; `member_over` and `member_at` tell
//! which member holds a character, and `holds_member` whether a token holds one (`specs/Class.antt`, `specs/Tokens.antt`). A
//! plan gives one answer or one `Refusal`, `GivesOne` of `specs/Answers.antt`, or its memory runs out (`PlanFault`,
//! `specs/Refusals.antt`). Which offences there are belongs to the crates above, `rename_rules` and `template_rules`.
//!
//! Where the members of a class are spelled otherwise, tokens are respelled by the origins of their characters, and positions move:
//! `renaming_of` of `specs/Respelling.antt`. `class_moves` makes tables of it, of what stands for each character of a file and where,
//! and `renamed_toks` makes the new tokens by them; `toks_stay` tells where
//! there is nothing to make. The tables tell this very renaming (`proofs/MovedLemmas.antt`). Which names may
//! be given belongs to `rename_rules`, and what follows a rename to `kept_analysis`. Read `specs/First.antt`, then `firsts.rt`; of
//! tokens `specs/Respelling.antt`, `specs/Moves.antt`, then `respelled_toks.rt`.
#![tactic(auto)]

mod classes;
mod firsts;
mod moves;
mod puts;
mod refusals;
mod respelled_toks;
mod still_toks;

pub use classes::{Class, holds_member, length, member_at, member_over};
pub use firsts::{Offence, compare, first_with};
pub use moves::{FileMove, Moves, class_moves};
pub use puts::Put;
pub use refusals::{PlanFault, Refusal, refused};
pub use respelled_toks::{links_stay, renamed_links, renamed_tok, renamed_toks, stays, toks_stay};
