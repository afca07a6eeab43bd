// Declarations with linkage (6.2.2), found by their linkage and the spelling of their name.
ghost use Rattle.std.specs.Prelude.{◌≡◌, ◌==◌, not, max};
ghost use Rattle.std.specs.Option.{option_map};
ghost use Rattle.c_types.specs.declared.entity.Linkage.TheVariants.{External, Internal};
ghost use Rattle.name_chains.specs.Linked.{linkage_key, newest_linked, has_other, at_place};

use crate::links::Links;
use crate::spellings::number_at;
use c_types::{Declaration, Linkage, Space};

/// What the ordinary identifiers with this linkage that are spelled as token `k` have in common.
pub(crate) fn linkage_key(numbers: &[u32], space: Space, linkage: Linkage, k: u32) -> usize
    ensures { result ≡ linkage_key numbers.now space linkage k }
{
    match (space, linkage) {
        (Space::Ordinary, Linkage::External) => number_at(numbers, k) as usize * 2 + 1,
        (Space::Ordinary, Linkage::Internal) => number_at(numbers, k) as usize * 2 + 2,
        _ => 0,
    }
}

fn newest_linked(linked: &Links, numbers: &[u32], linkage: Linkage, i: u32) -> usize
    ensures { result ≡ newest_linked linked.now.newest numbers.now linkage i }
{
    linked.newest(linkage_key(numbers, Space::Ordinary, linkage, i))
}

fn later(place: usize, other: usize) -> usize
    ensures { result ≡ max place other }
{
    if place < other { other } else { place }
}

/// The place of the latest one with linkage that is spelled as token `i`.
pub(crate) fn linked_place(linked: &Links, numbers: &[u32], i: u32) -> usize
    ensures { result ≡ max (newest_linked linked.now.newest numbers.now External i) (newest_linked linked.now.newest numbers.now Internal i) }
{
    later(
        newest_linked(linked, numbers, Linkage::External, i),
        newest_linked(linked, numbers, Linkage::Internal, i),
    )
}

fn has_linked(linked: &Links, numbers: &[u32], linkage: Linkage, i: u32) -> bool
    ensures { result ≡ not (newest_linked linked.now.newest numbers.now linkage i == 0) }
{
    newest_linked(linked, numbers, linkage, i) != 0
}

/// Some declaration that is spelled as token `i` has linkage, and another one.
pub(crate) fn has_other(linked: &Links, numbers: &[u32], linkage: Linkage, i: u32) -> bool
    ensures { result ≡ has_other linked.now.newest numbers.now linkage i }
{
    match linkage {
        Linkage::External => has_linked(linked, numbers, Linkage::Internal, i),
        Linkage::Internal => has_linked(linked, numbers, Linkage::External, i),
        Linkage::Absent => linked_place(linked, numbers, i) != 0,
    }
}

/// The declaration at the place, if there is one.
pub(crate) fn declaration_at(declared: &[Declaration], place: usize) -> Option<&Declaration>
    ensures { option_map (λ d. d.now) result ≡ at_place declared.now place }
{
    if place == 0 {
        None
    } else {
        declared.get(place - 1)
    }
}
