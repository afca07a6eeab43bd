// Where a fault at a token of a unit stands.
ghost use Rattle.std.specs.Prelude.{◌≡◌, IfOk, option_copied};
ghost use Rattle.include_tree.specs.Below.source_files.Faults.{first_place};
ghost use Rattle.analysis.specs.Analysis.{token_or_last, place_of_index};
ghost use Rattle.analysis.specs.Places.{place_at};

use crate::placing::place_in_one;
use cs_base::{Memory, Place, Pos, Text, Tok};
use include_tree::Cache;
use std::alloc::Global;

/// The place of the token with the index, and of the last one where that is the end; a unit of this path
/// that has no token begins there.
pub(crate) fn place_of_index(
    alloc: Global,
    cache: &Cache,
    path: &[u8],
    toks: &[Tok],
    index: u32,
) -> Result<Place, Memory>
    ensures { IfOk result (λ place. place ≡ place_of_index cache.now.table path.now toks.now index) }
{
    match token_or_last(toks, index) {
        Some(tok) => place_at(alloc, cache, tok.at()),
        None => first_place(alloc, path),
    }
}

fn token_or_last(toks: &[Tok], index: u32) -> Option<&Tok>
    ensures { option_copied result ≡ token_or_last toks.now index }
{
    let last = toks.len().saturating_sub(1);
    toks.get(last.min(index as usize))
}

fn first_place(alloc: Global, path: &[u8]) -> Result<Place, Memory>
    ensures { IfOk result (λ place. place ≡ first_place path.now) }
{
    Ok(Place {
        path: Text::new(alloc, path)?,
        line: 1,
        column: 1,
    })
}

// The place of a position in the files that were read.
fn place_at(alloc: Global, cache: &Cache, at: Pos) -> Result<Place, Memory>
    ensures { IfOk result (λ place. place ≡ place_at cache.now.table at) }
{
    let (path, line, column) = place_in_one(cache.file(at.file), at);
    Ok(Place {
        path: Text::new(alloc, path)?,
        line,
        column,
    })
}
