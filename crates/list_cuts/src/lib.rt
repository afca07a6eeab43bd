//! Lists whose items change places: parameters and arguments in a new order.
//!
//! A cut tells where lists and their items stand among elements of any kind: the bytes of a file, its tokens, the
//! tokens of a unit. `arranged` of `specs/Cuts.antt` gives the elements in the new order, where item `order[k]` of
//! each list stands at the place of item k, lists inside items too, and all else stays. `arrange` does so to the
//! bytes of a file whose lists are given by the spans of their items, in time that grows with the bytes and with how
//! deep lists stand in one another: it equals `all_rearranged` of `specs/Spans.antt`. The crate knows neither C nor
//! functions. Read `specs/Cuts.antt` and `specs/Spans.antt`, then `rearranging.rt`.
#![tactic(auto)]

mod laws;
mod orders;
mod rearranging;
mod spans;

pub use laws::{elements_move, images_move, lists_are_cuts};
pub use orders::is_order;
pub use rearranging::{arrange, rearrange};
pub use spans::{ListSpans, Span};
