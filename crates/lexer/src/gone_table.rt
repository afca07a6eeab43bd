// The table of bytes that are no logical character, by which bytes and characters are told apart.
ghost use Rattle.std.specs.Prelude.{◌≡◌, ◌≤◌, ◌<◌, ◌+◌, ◌^◌, nat_lt, nat_le, if◌then◌else◌, ℕ, IfOk, Some, None, length, get_or};
ghost use Rattle.std.specs.List.{prefix_len};
ghost use Rattle.std.specs.List.Sorted.{IsNonDecreasing};
ghost use Rattle.cs_base.specs.Limits.{most_bytes};
ghost use Rattle.lexer.specs.GoneTable.{gone_of, marks_of, byte_in as byte, character_in as character, gone_before as before, is_gone as gone_is, going as going_of};

use crate::logical::gone_length;
use cs_base::Memory;
use std::alloc::Global;

// How many bytes go from this one on, where `skip` go that go with one before.
fn going(skip: usize, first: u8, after: &[u8]) -> usize
    requires { skip ≤ length after.now + 1 }
    ensures answer { result ≡ going_of skip first after.now }
    ensures bound { result ≤ length after.now + 1 }
{
    if skip == 0 {
        gone_length(first, after)
    } else {
        skip
    }
}

/// The offsets of the bytes of a file that go.
pub(crate) fn gone_offsets(alloc: Global, bytes: &[u8]) -> Result<Vec<u32>, Memory>
    requires { length bytes.now ≤ most_bytes }
    ensures { IfOk result (λ gone. gone.items ≡ gone_of bytes.now) }
{
    let mut gone = Vec::new(alloc);
    let mut rest = bytes;
    let mut at = 0;
    let mut skip: usize = 0;
    while let [c, after @ ..] = rest {
        skip = going(skip, *c, after);
        if skip > 0 {
            gone.push(at)?;
            skip -= 1;
        }
        at += 1;
        rest = after;
    }
    Ok(gone)
}

/// For each byte of a file that goes, the number of the logical characters before it.
pub(crate) fn gone_marks(alloc: Global, bytes: &[u8]) -> Result<Vec<u32>, Memory>
    requires { length bytes.now ≤ most_bytes }
    ensures { IfOk result (λ marks. marks.items ≡ marks_of bytes.now) }
{
    let mut marks = Vec::new(alloc);
    let mut rest = bytes;
    let mut at = 0;
    let mut skip: usize = 0;
    while let [c, after @ ..] = rest {
        skip = going(skip, *c, after);
        if skip > 0 {
            marks.push(at)?;
            skip -= 1;
        } else {
            at += 1;
        }
        rest = after;
    }
    Ok(marks)
}

// How many bytes go before logical character `at`.
fn marks_to(marks: &[u32], at: u32) -> usize
    requires { IsNonDecreasing marks.now }
    ensures answer { result ≡ prefix_len (λ m. nat_le m at) marks.now }
    ensures bound { result ≤ length marks.now }
{
    marks.partition_point(|m| *m <= at)
}

/// The offset of logical character `at`.
pub(crate) fn byte_in(marks: &[u32], at: u32) -> u32
    requires rises { IsNonDecreasing marks.now }
    requires small { at + length marks.now < 2 ^ 32 }
    ensures answer { result ≡ byte marks.now at }
    ensures bound { result ≤ at + length marks.now }
{
    at + marks_to(marks, at) as u32
}

// How many bytes go before this offset.
fn gone_before(gone: &[u32], offset: u32) -> usize
    requires { IsNonDecreasing gone.now }
    ensures answer { result ≡ before gone.now offset }
    ensures bound { result ≤ length gone.now }
{
    gone.partition_point(|g| *g < offset)
}

fn is_gone(gone: &[u32], offset: u32, count: usize) -> bool
    requires { count ≡ before gone.now offset }
    ensures { result ≡ gone_is gone.now offset }
{
    match gone.get(count) {
        Some(g) => *g == offset,
        None => false,
    }
}

/// The logical character at an offset, if that byte does not go.
pub(crate) fn character_in(gone: &[u32], offset: u32) -> Option<u32>
    requires rises { IsNonDecreasing gone.now }
    requires apart { (k : ℕ) → k < length gone.now → k ≤ get_or gone.now k 0 }
    ensures { result ≡ character gone.now offset }
{
    let count = gone_before(gone, offset);
    if is_gone(gone, offset, count) {
        None
    } else {
        Some(offset - count as u32)
    }
}
