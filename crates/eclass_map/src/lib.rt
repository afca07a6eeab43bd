//! Parts of added tokens and the classes of parts that must be spelled alike.
//!
//! `Classes` takes tokens by their places and links between tokens of equal spelling, whose origins are added
//! tokens, one after another. Two characters are the same where a chain of links leads from one to the other,
//! first character to first and so on; a part runs from a character that is the same as a token's first to
//! before the next such character, or to its token's end; a class is all parts whose first characters are the
//! same. Where a part begins inside another, the other is cut, and so is every part of its class. This crate
//! knows positions and links, and neither why tokens are linked nor what they spell. A character is found by
//! halving the tokens of its file. Who asks for one after another hands on where the last one stood (`found`). `join` and the readers take no memory: `add_token` takes the room for
//! every part that its token can be cut into. Of two classes the one with fewer parts gets the other's
//! number, a tick of `Steps` for each. `is_whole` tells before a link is joined whether the origins of its
//! tokens are whole added tokens; `join_whole` joins it if so, and `join_to` where that is known of the second.
//! `resize` gives the parts of a class another length, and moves what stands behind them in their files. The
//! position of a character is told by the run of neighbours that it was added with (`places.rt`). The parts by
//! number are those of `class_labels`. Read `specs/Chain.antt` there, `specs/ClassTable.antt` and
//! `specs/Resized.antt`, then `class_table.rt`.
#![tactic(auto)]

mod class_table;
mod file_hints;
mod laws;
mod places;
mod token_list;
mod wholeness;

pub use class_table::{Classes, FoundPart};
pub use laws::joins_relabel_little;
pub use token_list::part_holds;
