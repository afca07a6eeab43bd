// The tree of the tokens of a unit.
ghost use Rattle.std.specs.Prelude.{◌≡◌};
ghost use Rattle.cs_base.specs.Answer.{Gives};
ghost use Rattle.c99_read.specs.Answer.{stop_of};
ghost use Rattle.c99_read.specs.Fronts.{BeginsWith};
ghost use Rattle.c99_read.specs.Reading.{read_of};
ghost use Rattle.c99_tree.specs.Joined.{followed};
ghost use Rattle.c99_read.specs.Below.c99_grammar.Dialects.{dialect};
ghost use Rattle.c99_read.specs.Below.c99_grammar.Standard.{grammar};

use c99_read::{Dialect, Front, ReadRefusal, read, read_from};
use c99_tree::Tree;
use cs_base::{Standard, Tok};
use std::alloc::Global;

/// The tree of the tokens by a standard; 2^32 of them and more want too much memory.
pub(crate) fn read_toks(
    alloc: Global,
    toks: &[Tok],
    standard: Standard,
) -> Result<Tree, ReadRefusal>
    ensures { Gives (λ tree. tree) stop_of result (read_of (grammar (dialect standard)) toks.now) }
{
    if toks.len() > u32::MAX as usize {
        return Err(ReadRefusal::Memory);
    }
    read(alloc, toks, Dialect::of(standard))
}

/// The tree of the tokens behind the front of this standard with which they begin. The standard is read by the clauses alone.
pub(crate) fn read_toks_from(
    alloc: Global,
    front: &Front,
    toks: &[Tok],
    _standard: Standard,
) -> Result<Tree, ReadRefusal>
    requires by { front.now.dialect ≡ dialect _standard }
    requires begins { BeginsWith toks.now front.now }
    ensures { Gives (λ rest. followed front.now.tree rest) stop_of result (read_of (grammar (dialect _standard)) toks.now) }
{
    if toks.len() > u32::MAX as usize {
        return Err(ReadRefusal::Memory);
    }
    read_from(alloc, front, toks)
}
