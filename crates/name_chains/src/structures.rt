// Members of a structure or union, found by their number and by their name.
ghost use Rattle.std.specs.Prelude.{◌≡◌, ◌⊎◌, ◌+◌, ◌++◌, ◌==◌, ℕ, true, false, not, nat_lt, get_or, length, filter, map, reverse, slice_get, None, if◌then◌else◌, IfOk, OnOk};
ghost use Rattle.std.specs.Option.{option_map, option_map_or, option_to_list};
ghost use Rattle.name_chains.specs.Places.{is_place_in, is_member_of, place_of};
ghost use Rattle.name_chains.specs.Links.{latest_place, AreChained};
ghost use Rattle.name_chains.specs.Linked.{at_place};
ghost use Rattle.name_chains.specs.Chains.{name_key_of, member_key, member_key_of, found_key, found_key_of};
ghost use Rattle.name_chains.specs.Members.{is_found_in, lifted};
ghost use Rattle.name_chains.specs.Ranks.{rank_at, depth_at, jump_at, next_towards, is_member_at, IsRank, AreRanked};

use crate::chains::name_key;
use crate::keeping::lifted;
use crate::linked::declaration_at;
use crate::links::Links;
use c_types::{Declaration, Space};
use cs_base::Memory;
use std::alloc::Global;

/// What the members of a structure or union have in common, with the places of those without a name.
pub(crate) fn member_key(space: Space) -> usize
    ensures { result ≡ member_key space }
{
    match space {
        Space::Members(number) => number as usize + 1,
        Space::Unnamed(number) => number as usize + 1,
        _ => 0,
    }
}

/// What all have in common that are found among the members of a structure or union.
pub(crate) fn found_key(space: Space) -> usize
    ensures { result ≡ found_key space }
{
    match space {
        Space::Members(number) => number as usize + 1,
        Space::Inner(number) => number as usize + 1,
        _ => 0,
    }
}

fn is_place_in(number: u32, space: Space) -> bool
    ensures { result ≡ is_place_in number space }
{
    match space {
        Space::Members(n) => n == number,
        Space::Unnamed(n) => n == number,
        _ => false,
    }
}

/// Of a member: how many of its structure or union there are up to it, the place of one before it, from which
/// the way to the first ones is shorter, or 0, and how many stand before the first one that has its name.
#[derive(Clone, Copy, Debug, PartialEq, Eq)]
pub(crate) struct Rank {
    pub depth: usize,
    pub jump: usize,
    pub first: usize,
}

fn no_rank() -> Rank
    ensures { result ≡ record { depth = 0; jump = 0; first = 0 } }
{
    Rank {
        depth: 0,
        jump: 0,
        first: 0,
    }
}

fn rank_at(ranks: &[Rank], k: usize) -> Rank
    ensures { result ≡ rank_at ranks.now k }
{
    match ranks.get(k) {
        Some(rank) => *rank,
        None => no_rank(),
    }
}

fn depth_at(ranks: &[Rank], place: usize) -> usize
    ensures { result ≡ depth_at ranks.now place }
{
    if place == 0 {
        0
    } else {
        rank_at(ranks, place - 1).depth
    }
}

fn jump_at(ranks: &[Rank], place: usize) -> usize
    ensures { result ≡ jump_at ranks.now place }
{
    if place == 0 {
        0
    } else {
        rank_at(ranks, place - 1).jump
    }
}

// The place of the latest member of the structure or union.
fn newest_member(structures: &Links, number: u32) -> usize
    ensures { result ≡ get_or structures.now.newest (number + 1) 0 }
{
    structures.newest(member_key(Space::Members(number)))
}

// A declaration, where there is one, behind others.
fn lift(all: &mut Vec<Declaration>, d: Option<&Declaration>, owner: u32) -> Result<(), Memory>
    ensures { OnOk result (all.new.items ≡ all.old.items ++ map (lifted owner) (option_to_list (option_map (λ d. d.now) d.entry))) }
{
    match d {
        Some(d) => {
            all.push(lifted(d, owner)?)?;
            Ok(())
        }
        None => Ok(()),
    }
}

/// What is found among the members of a structure or union, the latest first, as names of the one around it.
pub(crate) fn lifted_from(
    alloc: Global,
    declared: &[Declaration],
    found: &Links,
    owner: u32,
    number: u32,
) -> Result<Vec<Declaration>, Memory>
    requires held { AreChained found_key_of declared.now found.now }
    ensures { IfOk result (λ v. v.items ≡ map (lifted owner) (filter (is_found_in number) (reverse declared.now))) }
{
    let mut all = Vec::new(alloc);
    let mut place = found.newest(found_key(Space::Members(number)));
    'chain: while place > 0 {
        lift(&mut all, declaration_at(declared, place), owner)?;
        place = found.before(place - 1);
    }
    Ok(all)
}

// How many members the structure or union has.
fn member_count(declared: &[Declaration], structures: &Links, ranks: &[Rank], number: u32) -> usize
    requires owned { AreChained member_key_of declared.now structures.now }
    requires ranked { AreRanked declared.now ranks.now }
    ensures { result ≡ length (filter (is_member_of number) declared.now) }
{
    depth_at(ranks, newest_member(structures, number))
}

// Where the way from member `k` to the one with `n` before it goes on.
fn next_towards(structures: &Links, ranks: &[Rank], n: usize, k: usize) -> usize
    ensures { result ≡ next_towards structures.now.before ranks.now n k }
{
    let jump = rank_at(ranks, k).jump;
    if n < depth_at(ranks, jump) {
        jump
    } else {
        structures.before(k)
    }
}

// At most `n` members stand before the one at the place.
fn is_up_to(ranks: &[Rank], place: usize, n: u32) -> bool
    ensures { result ≡ not (nat_lt (n + 1) (depth_at ranks.now place)) }
{
    depth_at(ranks, place) <= n as usize + 1
}

// The one at the place, where so many stand before it.
fn numbered_at<'a>(
    declared: &'a [Declaration],
    ranks: &[Rank],
    place: usize,
    n: u32,
) -> Option<&'a Declaration>
    ensures { option_map (λ d. d.now) result ≡ (if depth_at ranks.now place == n + 1 then at_place declared.now place else None) }
{
    if depth_at(ranks, place) == n as usize + 1 {
        declaration_at(declared, place)
    } else {
        None
    }
}

/// Member number `n` of the structure or union. Each step goes past a part of the members between, so there are few.
pub(crate) fn member_numbered<'a>(
    declared: &'a [Declaration],
    structures: &Links,
    ranks: &[Rank],
    number: u32,
    n: u32,
) -> Option<&'a Declaration>
    requires owned { AreChained member_key_of declared.now structures.now }
    requires ranked { AreRanked declared.now ranks.now }
    ensures { option_map (λ d. d.now) result ≡ slice_get (filter (is_member_of number) declared.now) n }
{
    let mut place = newest_member(structures, number);
    'members: while place > 0 {
        if is_up_to(ranks, place, n) {
            return numbered_at(declared, ranks, place, n);
        }
        place = next_towards(structures, ranks, n as usize, place - 1);
    }
    None
}

fn is_member_at(declared: &[Declaration], k: usize, number: u32, name_at: u32) -> bool
    ensures { result ≡ option_map_or (is_member_at number name_at) (slice_get declared.now k) false }
{
    match declared.get(k) {
        Some(d) => is_place_in(number, d.space) && d.name_at == name_at,
        None => false,
    }
}

// The place of the latest member of the structure or union whose name is this token.
fn member_place(
    declared: &[Declaration],
    names: &Links,
    numbers: &[u32],
    number: u32,
    name_at: u32,
) -> usize
    requires chained { AreChained (name_key_of numbers.now) declared.now names.now }
    ensures { result ≡ latest_place (is_member_at number name_at) (reverse declared.now) }
{
    let mut place = names.newest(name_key(numbers, Space::Members(number), name_at));
    'chain: while place > 0 {
        if is_member_at(declared, place - 1, number, name_at) {
            return place;
        }
        place = names.before(place - 1);
    }
    0
}

/// How many members of the structure or union stand before the first one whose name is this token.
pub(crate) fn members_before(
    declared: &[Declaration],
    names: &Links,
    structures: &Links,
    ranks: &[Rank],
    numbers: &[u32],
    number: u32,
    name_at: u32,
) -> usize
    requires chained { AreChained (name_key_of numbers.now) declared.now names.now }
    requires owned { AreChained member_key_of declared.now structures.now }
    requires ranked { AreRanked declared.now ranks.now }
    ensures { result ≡ place_of (filter (is_member_of number) declared.now) name_at }
{
    let place = member_place(declared, names, numbers, number, name_at);
    if place == 0 {
        return member_count(declared, structures, ranks, number);
    }
    rank_at(ranks, place - 1).first
}

// The latest member or one that it jumps past, where the two jumps before are as far as each other.
fn jump_from(ranks: &[Rank], newest: usize) -> usize
    ensures { (result ≡ newest) ⊎ (result ≡ jump_at ranks.now (jump_at ranks.now newest)) }
{
    let near = jump_at(ranks, newest);
    let far = jump_at(ranks, near);
    let first = depth_at(ranks, newest).wrapping_sub(depth_at(ranks, near));
    let second = depth_at(ranks, near).wrapping_sub(depth_at(ranks, far));
    if first == second { far } else { newest }
}

// The rank of a member with the name behind the declarations.
fn member_rank(
    declared: &[Declaration],
    names: &Links,
    structures: &Links,
    ranks: &[Rank],
    numbers: &[u32],
    number: u32,
    name_at: u32,
) -> Result<Rank, Memory>
    requires chained { AreChained (name_key_of numbers.now) declared.now names.now }
    requires owned { AreChained member_key_of declared.now structures.now }
    requires ranked { AreRanked declared.now ranks.now }
    ensures { IfOk result (IsRank number name_at declared.now) }
{
    let count = member_count(declared, structures, ranks, number);
    let jump = jump_from(ranks, newest_member(structures, number));
    let first = members_before(declared, names, structures, ranks, numbers, number, name_at);
    match count.checked_add(1) {
        Some(depth) => Ok(Rank { depth, jump, first }),
        None => Err(Memory),
    }
}

/// The rank of a declaration behind these.
pub(crate) fn rank_of(
    declared: &[Declaration],
    names: &Links,
    structures: &Links,
    ranks: &[Rank],
    numbers: &[u32],
    d: &Declaration,
) -> Result<Rank, Memory>
    requires chained { AreChained (name_key_of numbers.now) declared.now names.now }
    requires owned { AreChained member_key_of declared.now structures.now }
    requires ranked { AreRanked declared.now ranks.now }
    ensures { IfOk result (λ r. (number : ℕ) → is_member_of number d.now ≡ true → IsRank number d.now.name_at declared.now r) }
{
    match d.space {
        Space::Members(number) | Space::Unnamed(number) => {
            member_rank(
                declared, names, structures, ranks, numbers, number, d.name_at,
            )
        }
        _ => Ok(no_rank()),
    }
}
