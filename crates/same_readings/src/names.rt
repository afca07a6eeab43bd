// Two bindings, one name after another.
ghost use Rattle.std.specs.Prelude.{◌≡◌};
ghost use Rattle.same_readings.specs.SameNames.{number_of_kind, number_of_linkage, same_answer, same_name, same_range, all_same, same_number, same_list, same_bound};

use gnu_bind::{Bound, EntityKind, Linkage, List, Name, Range};

fn number_of_kind(kind: EntityKind) -> u8
    ensures { result ≡ number_of_kind kind }
{
    match kind {
        EntityKind::Object => 0,
        EntityKind::Function => 1,
        EntityKind::Typedef => 2,
        EntityKind::Parameter => 3,
        EntityKind::Enumerator => 4,
        EntityKind::Tag => 5,
        EntityKind::Member => 6,
        EntityKind::Label => 7,
    }
}

fn number_of_linkage(linkage: Linkage) -> u8
    ensures { result ≡ number_of_linkage linkage }
{
    match linkage {
        Linkage::External => 0,
        Linkage::Internal => 1,
        Linkage::Absent => 2,
    }
}

fn is_answer(one: bool, other: bool) -> bool
    ensures { result ≡ same_answer one other }
{
    if one { other } else { !other }
}

fn is_name(one: Name, other: Name) -> bool
    ensures { result ≡ same_name one other }
{
    one.index == other.index
        && (one.entity == other.entity
            && (is_answer(one.declares, other.declares)
                && (number_of_kind(one.kind) == number_of_kind(other.kind)
                    && number_of_linkage(one.linkage) == number_of_linkage(other.linkage))))
}

fn is_range(one: Range, other: Range) -> bool
    ensures { result ≡ same_range one other }
{
    one.name == other.name && (one.from == other.from && one.to == other.to)
}

fn is_list(one: &List, other: &List) -> bool
    ensures { result ≡ same_list one.now other.now }
{
    one.name == other.name
        && (one.begin == other.begin
            && (one.close == other.close
                && are_numbers(one.commas.as_slice(), other.commas.as_slice())))
}

fn are_names(one: &[Name], other: &[Name]) -> bool
    ensures { result ≡ all_same same_name one.now other.now }
{
    let mut left = one;
    let mut right = other;
    while let [one_of, more @ ..] = left {
        match right {
            [other_of, behind @ ..] => {
                if !(is_name(*one_of, *other_of)) {
                    return false;
                }
                left = more;
                right = behind;
            }
            [] => return false,
        }
    }
    right.is_empty()
}

fn are_ranges(one: &[Range], other: &[Range]) -> bool
    ensures { result ≡ all_same same_range one.now other.now }
{
    let mut left = one;
    let mut right = other;
    while let [one_of, more @ ..] = left {
        match right {
            [other_of, behind @ ..] => {
                if !(is_range(*one_of, *other_of)) {
                    return false;
                }
                left = more;
                right = behind;
            }
            [] => return false,
        }
    }
    right.is_empty()
}

fn are_numbers(one: &[u32], other: &[u32]) -> bool
    ensures { result ≡ all_same same_number one.now other.now }
{
    let mut left = one;
    let mut right = other;
    while let [one_of, more @ ..] = left {
        match right {
            [other_of, behind @ ..] => {
                if !(*one_of == *other_of) {
                    return false;
                }
                left = more;
                right = behind;
            }
            [] => return false,
        }
    }
    right.is_empty()
}

fn are_lists(one: &[List], other: &[List]) -> bool
    ensures { result ≡ all_same same_list one.now other.now }
{
    let mut left = one;
    let mut right = other;
    while let [one_of, more @ ..] = left {
        match right {
            [other_of, behind @ ..] => {
                if !(is_list(one_of, other_of)) {
                    return false;
                }
                left = more;
                right = behind;
            }
            [] => return false,
        }
    }
    right.is_empty()
}

/// Whether two bindings are one.
pub fn is_same_bound(one: &Bound, other: &Bound) -> bool
    ensures { result ≡ same_bound one.now other.now }
{
    are_names(one.names(), other.names())
        && (are_lists(one.declarators(), other.declarators())
            && (are_lists(one.calls(), other.calls())
                && (are_ranges(one.functions(), other.functions())
                    && (are_numbers(one.bare(), other.bare())
                        && are_ranges(one.typedefs(), other.typedefs())))))
}
