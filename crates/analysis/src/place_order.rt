// The order of places.
ghost use Rattle.std.specs.Prelude.{◌≡◌, OnOk, MatchBool};
ghost use Rattle.std.specs.List.Sorted.{IsPermutation, IsStrictlySortedBy};
ghost use Rattle.std.specs.declared.cmp.Ordering.TheVariants.{Less};
ghost use Rattle.analysis.specs.Parts.{part_cmp};
ghost use Rattle.analysis.specs.Places.{path_at, place_cmp};

use crate::accepted::Accepted;
use cs_base::{Memory, Part, Pos};
use std::alloc::Global;
use std::cmp::Ordering;

// The path that has a number.
fn path_of(a: &Accepted, number: u32) -> &[u8]
    ensures { result.now ≡ path_at a.now.table number }
{
    match a.path(number) {
        Some(path) => path,
        None => &[],
    }
}

// Which of two positions comes first.
fn compare(a: &Accepted, p: Pos, q: Pos) -> Ordering
    ensures { result ≡ place_cmp a.now.table p q }
{
    // In one file no path is looked at.
    if p.file == q.file {
        return p.at.cmp(&q.at);
    }
    match path_of(a, p.file).cmp(path_of(a, q.file)) {
        Ordering::Less => Ordering::Less,
        Ordering::Equal => p.at.cmp(&q.at),
        Ordering::Greater => Ordering::Greater,
    }
}

// The part comes before the other.
fn comes_before(a: &Accepted, part: Part, other: Part) -> bool
    ensures { MatchBool result (part_cmp a.now part other ≡ Less) (Unit {0}) }
{
    match compare(a, part.start, other.start) {
        Ordering::Less => true,
        _ => false,
    }
}

// Each part comes before the next.
fn are_in_order(a: &Accepted, parts: &[Part]) -> bool
    ensures { MatchBool result (IsStrictlySortedBy (part_cmp a.now) parts.now) (Unit {0}) }
{
    for i in 1..parts.len() {
        if !comes_before(a, parts[i - 1], parts[i]) {
            return false;
        }
    }
    true
}

// The numbers of all files, in the order of their paths.
fn by_path(alloc: Global, a: &Accepted) -> Result<Vec<u32>, Memory> {
    let mut numbers = Vec::new(alloc);
    for number in 0..a.files() {
        numbers.push(number)?;
    }
    numbers.sort_by(|number, other| path_of(a, *number).cmp(path_of(a, *other)))?;
    Ok(numbers)
}

/// For each file how many have a path before its own. Guesses: no contract rests on them, and `sort` tests what it makes of
/// them.
pub(crate) fn ranks(alloc: Global, a: &Accepted) -> Result<Vec<usize>, Memory> {
    let numbers = by_path(alloc, a)?;
    let mut ranks = vec![in alloc; 0; numbers.len()]?;
    for k in 0..numbers.len() {
        let number = numbers[k] as usize;
        if number < ranks.len() {
            ranks[number] = k;
        }
    }
    Ok(ranks)
}

// The rank of the file of a part, and the character at which it begins.
fn place_of(ranks: &[usize], part: &Part) -> (usize, u32) {
    let file = part.start.file as usize;
    let rank = if file < ranks.len() { ranks[file] } else { 0 };
    (rank, part.start.at)
}

/// Puts parts into the order of their places, by the ranks of their files. No two may stand at one place, which is tested.
pub(crate) fn sort(a: &Accepted, ranks: &[usize], parts: &mut Vec<Part>) -> Result<(), Memory>
    ensures moved { IsPermutation parts.old.items parts.new.items }
    ensures sorted { OnOk result (IsStrictlySortedBy (part_cmp a.now) parts.new.items) }
{
    parts.sort_unstable_by_key(|part| place_of(ranks, part));
    if are_in_order(a, parts) {
        Ok(())
    } else {
        Err(Memory)
    }
}
