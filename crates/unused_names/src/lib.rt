//! Names that are declared and never used, and include lines that bring nothing which is used.
//!
//! Both look at an analysed workspace as a whole. `unneeded` gives the include lines each inclusion of which shares no
//! entity with the rest of its unit and gives no macro name a meaning that is asked for behind it
//! (ISO/IEC 9899:1999, 6.2.1, 6.10.2, 6.10.3): it is `AreUnneeded` of `specs/Unneeded.antt`. `unused` gives the first
//! member of each class that some name declares and none uses: it is `AreUnused` of `specs/Unused.antt`. Lines in
//! read-only files and classes with a member there are left out. How a workspace is analysed belongs to the crate
//! below, and how the answers are printed to those above. Nothing is refused; want of memory is answered `Memory`.
//! What an inclusion brings, and which names events speak of, is handed to those that go on from here.
//! `unused` walks over all names twice; `unneeded` looks at each token and event of a unit once for each inclusion that
//! is open there, whose number is limited. Read `specs/Inclusions.antt`, `specs/Unneeded.antt` and
//! `specs/Unused.antt`, then `unneeded_lines.rt` and `unused_classes.rt`.
#![tactic(auto)]

mod counting;
mod inclusions;
mod last_uses;
mod lines;
mod order;
mod spans;
mod unneeded_lines;
mod unused_classes;

pub use inclusions::{end_of, is_enter, tokens_before};
pub use last_uses::{gives_meaning, name_of};
pub use unneeded_lines::unneeded;
pub use unused_classes::{is_unused_class, unused};
