// The order of places.
ghost use Rattle.std.specs.Prelude.{◌≡◌, OnOk, IfSome, MatchBool};
ghost use Rattle.std.specs.Cmp.Lexicographic.{slice_cmp};
ghost use Rattle.std.specs.List.Sorted.{IsPermutation, IsStrictlySortedBy};
ghost use Rattle.std.specs.Ordering.{nat_cmp, ordering_then};
ghost use Rattle.std.specs.declared.cmp.Ordering.TheVariants.{Less};
ghost use Rattle.analysis.specs.Parts.{part_cmp};
ghost use Rattle.analysis.specs.Places.{place_cmp};

use analysis::{Analysis, KeptFile};
use cs_base::{Memory, Part, Pos};
use std::cmp::Ordering;

// Which of two positions in kept files comes first.
fn compare_in(file: &KeptFile, p: Pos, other: &KeptFile, q: Pos) -> Ordering
    ensures { result ≡ ordering_then (slice_cmp nat_cmp file.now.path other.now.path) (nat_cmp p.at q.at) }
{
    match file.path().cmp(other.path()) {
        Ordering::Less => Ordering::Less,
        Ordering::Equal => p.at.cmp(&q.at),
        Ordering::Greater => Ordering::Greater,
    }
}

// Which of two positions comes first, if they stand in kept files.
fn compare(a: &Analysis, p: Pos, q: Pos) -> Option<Ordering>
    ensures { IfSome result (λ o. o ≡ place_cmp a.now.value.table p q) }
{
    match (a.file(p.file), a.file(q.file)) {
        (Some(file), Some(other)) => Some(compare_in(file, p, other, q)),
        _ => None,
    }
}

// Whether the part comes before the other.
fn comes_before(a: &Analysis, part: Part, other: Part) -> bool
    ensures { MatchBool result (part_cmp a.now.value part other ≡ Less) (Unit {0}) }
{
    match compare(a, part.start, other.start) {
        Some(Ordering::Less) => true,
        _ => false,
    }
}

// Whether each part comes before the next.
fn are_in_order(a: &Analysis, parts: &[Part]) -> bool
    ensures { MatchBool result (IsStrictlySortedBy (part_cmp a.now.value) parts.now) (Unit {0}) }
{
    for i in 1..parts.len() {
        if !comes_before(a, parts[i - 1], parts[i]) {
            return false;
        }
    }
    true
}

/// Puts parts of kept files into the order of their places. No two may stand at one place, which is tested.
pub(crate) fn sort(a: &Analysis, parts: &mut Vec<Part>) -> Result<(), Memory>
    ensures moved { IsPermutation parts.old.items parts.new.items }
    ensures sorted { OnOk result (IsStrictlySortedBy (part_cmp a.now.value) parts.new.items) }
{
    parts.sort_by(|part, other| compare(a, part.start, other.start).unwrap_or(Ordering::Equal))?;
    if are_in_order(a, parts) {
        Ok(())
    } else {
        Err(Memory)
    }
}
