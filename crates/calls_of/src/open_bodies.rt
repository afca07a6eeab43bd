// The function whose body is open behind so many tokens (ISO/IEC 9899:1999, 6.9.1).
ghost use Rattle.std.specs.Prelude.{◌≡◌, ◌<◌, ◌≤◌, ◌+◌, None, Some, All, length, slice_set, slice_index_or, IfOk};
ghost use Rattle.std.specs.Option.{option_or};
ghost use Rattle.calls_of.specs.OpenBodies.{body_at, AreOpenIn, Opened};

use analysis::Range;
use cs_base::Memory;
use std::alloc::Global;

// So many numbers of tokens, or more where the body is open behind more.
fn longer(numbers: usize, body: &Range) -> usize
    ensures all { numbers ≤ result }
    ensures own { body.now.to < result }
{
    numbers.max(body.to as usize + 1)
}

// How many numbers of tokens there are behind which some body may be open.
fn numbers_of(functions: &[Range]) -> usize
    ensures { All (λ r. r.to < result) functions.now }
{
    let mut numbers = 0;
    for body in functions {
        numbers = longer(numbers, body);
    }
    numbers
}

// Behind so many tokens the body of this function is open, unless an earlier one is.
fn mark(table: &mut Vec<Option<u32>>, before: usize, name: u32)
    requires { before < length table.old.items }
    ensures { table.new.items ≡ slice_set table.old.items before (option_or (slice_index_or table.old.items before None) (Some name)) }
{
    if table[before].is_none() {
        table[before] = Some(name);
    }
}

// So it is behind each number of tokens behind which its body is open.
fn mark_all(table: &mut Vec<Option<u32>>, body: Range)
    requires { body.to < length table.old.items }
    ensures length { length table.new.items ≡ length table.old.items }
    ensures opened { Opened body.name body.from (body.to + 1) table.old.items table.new.items }
{
    for before in body.from as usize + 1..body.to as usize + 1 {
        mark(table, before, body.name);
    }
}

/// For each number of tokens the name of the function whose body is open behind them.
pub(crate) fn open_bodies(alloc: Global, functions: &[Range]) -> Result<Vec<Option<u32>>, Memory>
    ensures { IfOk result (λ table. AreOpenIn table.items functions.now) }
{
    let none: Option<u32> = None;
    let numbers = numbers_of(functions);
    let mut table = vec![in alloc; none; numbers]?;
    for body in functions {
        mark_all(&mut table, *body);
    }
    Ok(table)
}

/// What the table says for so many tokens.
pub(crate) fn body_at(table: &[Option<u32>], before: u32) -> Option<u32>
    ensures { result ≡ body_at table.now before }
{
    match table.get(before as usize) {
        Some(name) => *name,
        None => None,
    }
}
