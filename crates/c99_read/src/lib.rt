//! The reader of C (ISO/IEC 9899:1999 and 9899:2011, Annex A.2): translation phase 7 as far as the syntax goes.
//!
//! `read` takes the tokens of a preprocessed translation unit and gives its tree, or the first fault:
//! `Syntax` where nothing that may follow starts, `TooDeep` where the 257th level would begin. It equals
//! `read_of` of `specs/Reading.antt`, one interpreter of a table of productions, at the table that
//! `c99_grammar` has for the dialect. A token counts by its class alone, and whether a name
//! is a typedef name where it stands (6.7.7) the reader keeps for itself while it reads. Types, tags,
//! members, labels and what is declared twice belong to the crates above. A few procedures read any item of
//! the table; nesting is bounded, so a text of any length needs little stack. The first operand of an expression is
//! read before the nodes over it are opened, since most of these have no operator and are left out of the tree.
//! A `Front` keeps what was read of the beginning of a text; `read_from` goes on from there in another text that begins so.
//! Trees, classes and names want memory. Read `specs/Grammar.antt` of `c99_grammar` beside the standard's annex,
//! `specs/Reading.antt`, `specs/State.antt`, then `reading.rt` and `reader.rt`.
#![tactic(auto)]

ghost use Rattle.std.specs.Prelude.{◌<◌, ◌^◌, length};
ghost use Rattle.cs_base.specs.Answer.{Gives};
ghost use Rattle.c99_read.specs.Answer.{stop_of};
ghost use Rattle.c99_read.specs.Reading.{read_of};
ghost use Rattle.c99_grammar.specs.Standard.{grammar};

mod ahead;
mod chosen;
mod faults;
mod file_names;
mod front;
mod identifiers;
mod laws;
mod leads;
mod names;
mod open_node;
mod operators;
mod parts;
mod reader;
mod reading;

pub use c99_grammar::{Dialect, Edition, first_sets_are_the_tables};
use c99_tree::{Production, Tree};
use cs_base::Tok;
pub use faults::ReadRefusal;
pub use front::{Front, read_from};
pub use laws::alike_tokens_read_alike;
use reader::Reader;
use std::alloc::Global;

/// The tree of the tokens of a translation unit by a dialect, or the first fault.
pub fn read(alloc: Global, toks: &[Tok], dialect: Dialect) -> Result<Tree, ReadRefusal>
    requires few { length toks.now < 2 ^ 32 }
    ensures answer { Gives (λ tree. tree) stop_of result (read_of (grammar dialect) toks.now) }
{
    let mut reader = Reader::new(alloc, toks, dialect)?;
    reader.produce(0, Production::TranslationUnit, dialect)?;
    Ok(reader.into_tree()?)
}
