//! What a renaming does to an analysed workspace, and what stands against it.
//!
//! The definitions over an analysis: the tokens that hold members of a class (`specs/Tokens.antt`), the twelve
//! offences against a renaming, each at the places where it stands (`specs/Offences.antt`, with `specs/Prefixes.antt` for new
//! names in front of constants, `specs/Escapes.antt` for members behind a backslash, and `specs/GnuOffences.antt` for those that
//! units of GNU C have of their own, of which `specs/Undeclared.antt` has calls of what no unit declares), the first of them
//! (`First` of the crate `offences`), and the answer for a place and a new name
//! (`specs/Renaming.antt`): the edits of all files that hold a member, or the first refusal. The functions tell of one token or
//! one offence: which member holds a character, how a token is spelled anew; and `edit_files` gives the edits, file by file in the
//! order of paths (`specs/FileOrder.antt`).
//!
//! What stands in texts of units is found in one go over them, the first of each of four causes (`in_units`), and
//! comes to the others later (`and_first`). A unit of GNU C is looked at twice more: `gnu_offences` looks at its calls, and reads its
//! tree again, which lists names that may denote nothing and texts for the assembler, unless its tokens alone tell that
//! none of these has to do with the class; and where nothing else stands, `failing` reads and binds its renamed
//! tokens, and holds both against what they were. The plan of a whole renaming, and what a renaming keeps, belong
//! to the crates above. Read the first four files in this order.
//!
//! Where something with linkage would get a name of the C library (`specs/LibraryNames.antt`) is said by `specs/LibraryPlaces.antt`;
//! `reserved` asks for it, and walks units only where some token would be spelled so.
#![tactic(auto)]

mod bare_offences;
mod constant_prefixes;
mod edits;
mod escapes;
mod failing_units;
mod first_calls;
mod gnu_texts;
mod held_tokens;
mod library_names;
mod library_places;
mod member_offences;
mod occurrences;
mod project_names;
mod renamings;
mod respelling_table;
mod sizes;
mod spelling;
mod symbols;
mod token_offences;
mod unit_offences;
mod words_and_texts;

pub use edits::edit_files;
pub use failing_units::failing;
pub use held_tokens::holders;
pub use member_offences::{no_identifiers, read_only};
pub use occurrences::occurring;
pub use renamings::Renaming;
pub use respelling_table::{Respelling, is_clash, is_new_spelling, is_old_spelling, respellings};
pub use sizes::{run_length, too_large};
pub use spelling::spelled;
pub use token_offences::{clashing, reserved};
pub use unit_offences::{InUnits, and_first, in_units};
pub use words_and_texts::gnu_offences;
