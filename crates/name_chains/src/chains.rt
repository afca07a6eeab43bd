// Declarations, and the latest one that a name may denote.
ghost use Rattle.std.specs.Prelude.{◌≡◌, ◌&&◌, not, ℕ, ◌++◌, [], ◌∷◌, find, filter, filter_map, reverse, take, map, get_or, slice_get, IfOk, OnOk, OnErr};
ghost use Rattle.std.specs.List.{list_any};
ghost use Rattle.std.specs.Option.{option_map, option_to_list};
ghost use Rattle.c_types.specs.declared.declarations.Space.TheVariants.{Ordinary};
ghost use Rattle.c_types.specs.Declarations.{is_named, has_linkage, is_linkage};
ghost use Rattle.name_chains.specs.Entering.{kept_here};
ghost use Rattle.name_chains.specs.Latest.{passes};
ghost use Rattle.name_chains.specs.Members.{is_found_in, lifted};
ghost use Rattle.name_chains.specs.Places.{is_member_of, place_of};
ghost use Rattle.name_chains.specs.Spellings.{AreNumbers};
ghost use Rattle.name_chains.specs.Links.{has_key, AreChained, IsLeft};
ghost use Rattle.name_chains.specs.Chains.{count_of, space_key, name_key, name_key_of, with_end, lasts, has_begun, has_ended, next_at, next_place, asked_at, AreOver};

use crate::keeping::kept_at;
use crate::latest::{Asked, tested};
use crate::linked::{declaration_at, has_other, linkage_key, linked_place};
use crate::links::{Links, place_at};
use crate::spellings::{number_at, numbers_of};
use crate::structures::{
    Rank, found_key, lifted_from, member_key, member_numbered, members_before, rank_of,
};
use c_types::{Declaration, Linkage, Space};
use cs_base::{Memory, Tok};
use std::alloc::Global;
use std::marker::Model;

/// The declarations of a unit of these tokens. The latest one of a name is found among those of its name
/// space that are spelled alike, one with linkage among those of its linkage, and members among those of their
/// structure or union. Contracts see the latest declaration first.
#[derive(Drop)]
pub struct Chains<'a> {
    toks: &'a [Tok],
    // for each token the number of its spelling
    numbers: Vec<u32>,
    declared: Vec<Declaration>,
    // by name space and spelling, by linkage and spelling, and by structure or union
    names: Links,
    linked: Links,
    structures: Links,
    // by structure or union, what is found among its members
    found: Links,
    // for each declaration a place to go on from, where only those matter that have not ended as its range begins
    over: Vec<usize>,
    // for each token one more than the place of the first declaration whose range ends there, or 0
    ends: Vec<usize>,
    // for each declaration, where it is a member, how it is found by its number and by its name
    ranks: Vec<Rank>,
}

impl<'a> Model for Chains<'a> {
    ghost use Rattle.std.specs.Prelude.{reverse};
    ghost use Rattle.name_chains.specs.Chains.{Chains, IsTabled};

    ghost Value = { Chains };

    ghost view = { λ c. record { toks = c.toks.now; declared = reverse c.declared.items } };

    ghost invariant = { λ c. IsTabled c.toks.now c.numbers.items c.declared.items c.names c.linked c.structures c.found c.over.items c.ends.items c.ranks.items };
}

// A table that tells no place.
fn blank(alloc: Global, count: usize) -> Result<Vec<usize>, Memory>
    ensures { IfOk result (λ v. (k : ℕ) → get_or v.items k 0 ≡ 0) }
{
    Ok(vec![in alloc; 0usize; count]?)
}

fn count_of(numbers: &[u32]) -> u32
    ensures { result ≡ count_of numbers.now }
{
    let fourth = numbers.len() / 4;
    if fourth < u32::MAX as usize {
        fourth as u32
    } else {
        u32::MAX
    }
}

fn space_key(count: u32, space: Space, number: u32) -> usize
    ensures { result ≡ space_key count space number }
{
    match space {
        Space::Ordinary => count as usize + 1 + number as usize,
        Space::Tags => (number as usize * 2_654_435_761) % (count as usize + 1),
        Space::Members(n) => {
            (number as usize * 2_654_435_761 + n as usize * 2) % (count as usize + 1)
        }
        Space::Inner(n) | Space::Unnamed(n) => {
            (number as usize * 2_654_435_761 + n as usize * 2) % (count as usize + 1)
        }
        Space::Labels(n) => {
            (number as usize * 2_654_435_761 + n as usize * 2 + 1) % (count as usize + 1)
        }
    }
}

/// What declarations in the name space that are spelled as token `k` have in common.
pub(crate) fn name_key(numbers: &[u32], space: Space, k: u32) -> usize
    ensures { result ≡ name_key numbers.now space k }
{
    space_key(count_of(numbers), space, number_at(numbers, k))
}

// The range of declaration `k` has begun at the token.
fn has_begun(declared: &[Declaration], k: usize, at: u32) -> bool
    ensures { result ≡ has_begun at (slice_get declared.now k) }
{
    match declared.get(k) {
        Some(d) => d.from <= at,
        None => false,
    }
}

fn has_ended(declared: &[Declaration], k: usize, at: u32) -> bool
    ensures { result ≡ has_ended at (slice_get declared.now k) }
{
    match declared.get(k) {
        Some(d) => d.to <= at,
        None => false,
    }
}

// Where the way goes on from declaration `k`, if only those matter that have not ended at the token.
fn next_at(declared: &[Declaration], names: &Links, over: &[usize], at: u32, k: usize) -> usize
    ensures { result ≡ next_at declared.now names.now.before over.now at k }
{
    if has_begun(declared, k, at) {
        place_at(over, k)
    } else {
        names.before(k)
    }
}

// Where it goes on from there if this is asked.
fn next_place(
    declared: &[Declaration],
    names: &Links,
    over: &[usize],
    asked: Asked,
    k: usize,
) -> usize
    ensures { result ≡ next_place declared.now names.now.before over.now (asked_at asked) k }
{
    match asked {
        Asked::Live(at) | Asked::Within(at, _) | Asked::Tag(at, _, _) => next_at(
            declared, names, over, at, k,
        ),
        Asked::Anywhere => names.before(k),
    }
}

// The place of the latest one with the name of `d` that has not ended as the range of `d` begins. Those that it
// passes, the way to a later one goes over at once, so that each is passed but once where ranges begin in order.
fn place_over(
    declared: &[Declaration],
    names: &Links,
    over: &[usize],
    numbers: &[u32],
    d: &Declaration,
) -> usize
    requires chained { AreChained (name_key_of numbers.now) declared.now names.now }
    requires over { AreOver (name_key_of numbers.now) declared.now over.now }
    ensures { IsLeft (has_key (name_key_of numbers.now) (name_key_of numbers.now d.now)) (filter (lasts (name_key_of numbers.now) (name_key_of numbers.now d.now) d.now.from)) declared.now (reverse declared.now) result }
{
    let mut place = names.newest(name_key(numbers, d.space, d.name_at));
    'ended: while place > 0 && has_ended(declared, place - 1, d.from) {
        place = next_at(declared, names, over, d.from, place - 1);
    }
    place
}

// The latest one that is named as token `i` and of which this can be said.
fn chained<'a>(
    declared: &'a [Declaration],
    names: &Links,
    over: &[usize],
    numbers: &[u32],
    toks: &[Tok],
    space: Space,
    i: u32,
    asked: Asked,
) -> Option<&'a Declaration>
    requires chained { AreChained (name_key_of numbers.now) declared.now names.now }
    requires over { AreOver (name_key_of numbers.now) declared.now over.now }
    requires numbered { AreNumbers toks.now numbers.now }
    ensures { option_map (λ d. d.now) result ≡ find (λ d. is_named toks.now space i d && passes asked d) (reverse declared.now) }
{
    let mut place = names.newest(name_key(numbers, space, i));
    'chain: while place > 0 {
        if let Some(d) = tested(declared, toks, numbers, space, i, asked, place - 1) {
            return Some(d);
        }
        place = next_place(declared, names, over, asked, place - 1);
    }
    None
}

// The place is that of the first declaration whose range ends at the token, unless one is told.
fn tell_end(ends: &mut Vec<usize>, to: u32, place: usize)
    ensures { ends.new.items ≡ with_end to place ends.old.items }
{
    let at = to as usize;
    if at < ends.len() && ends[at] == 0 {
        ends[at] = place;
    }
}

impl<'a> Chains<'a> {
    /// Nothing is declared yet.
    pub fn new(alloc: Global, toks: &'a [Tok]) -> Result<Chains<'a>, Memory>
        ensures { IfOk result (λ c. c ≡ record { toks = toks.now; declared = [] }) }
    {
        Ok(Chains {
            toks,
            numbers: numbers_of(alloc, toks)?,
            declared: Vec::new(alloc),
            names: Links::new(alloc),
            linked: Links::new(alloc),
            structures: Links::new(alloc),
            found: Links::new(alloc),
            over: Vec::new(alloc),
            // The outermost scope ends at the count of the tokens.
            ends: blank(alloc, toks.len() + 1)?,
            ranks: Vec::new(alloc),
        })
    }

    pub fn toks(&self) -> &'a [Tok]
        ensures { result.now ≡ self.now.toks }
    {
        self.toks
    }

    /// The declarations, the first one first.
    pub fn declared(&self) -> &[Declaration]
        ensures { reverse result.now ≡ self.now.declared }
    {
        self.declared.as_slice()
    }

    /// A declaration more, which is the latest one.
    pub fn push(&mut self, d: Declaration) -> Result<(), Memory>
        ensures ok { OnOk result (self.new ≡ record self.old { declared = d ∷ self.old.declared }) }
        ensures unchanged { OnErr result (self.new ≡ self.old) }
    {
        let count = self.declared.len();
        let name = name_key(self.numbers.as_slice(), d.space, d.name_at);
        let linkage = linkage_key(self.numbers.as_slice(), d.space, d.linkage, d.name_at);
        let structure = member_key(d.space);
        let found = found_key(d.space);
        let over = place_over(
            self.declared.as_slice(),
            &self.names,
            self.over.as_slice(),
            self.numbers.as_slice(),
            &d,
        );
        let rank = rank_of(
            self.declared.as_slice(),
            &self.names,
            &self.structures,
            self.ranks.as_slice(),
            self.numbers.as_slice(),
            &d,
        )?;
        self.names.grow(count, name)?;
        self.linked.grow(count, linkage)?;
        self.structures.grow(count, structure)?;
        self.found.grow(count, found)?;
        self.over.reserve(1)?;
        self.ranks.reserve(1)?;
        self.declared.reserve(1)?;
        self.names.link(count, name);
        self.linked.link(count, linkage);
        self.structures.link(count, structure);
        self.found.link(count, found);
        self.over.push(over).unwrap();
        self.ranks.push(rank).unwrap();
        tell_end(&mut self.ends, d.to, count + 1);
        self.declared.push(d).unwrap();
        Ok(())
    }

    /// The latest declaration in the name space that is named as token `i`, and of which this can be said.
    pub fn latest(&self, space: Space, i: u32, asked: Asked) -> Option<&Declaration>
        ensures { option_map (λ d. d.now) result ≡ find (λ d. is_named self.now.toks space i d && passes asked d) self.now.declared }
    {
        chained(
            self.declared.as_slice(),
            &self.names,
            self.over.as_slice(),
            self.numbers.as_slice(),
            self.toks,
            space,
            i,
            asked,
        )
    }

    /// The latest declaration with linkage that is named as token `i`.
    pub fn linked(&self, i: u32) -> Option<&Declaration>
        ensures { option_map (λ d. d.now) result ≡ find (λ d. is_named self.now.toks Ordinary i d && has_linkage d.linkage) self.now.declared }
    {
        let place = linked_place(&self.linked, self.numbers.as_slice(), i);
        declaration_at(self.declared.as_slice(), place)
    }

    /// One that has linkage, and another one.
    pub fn is_mixed(&self, linkage: Linkage, i: u32) -> bool
        ensures { result ≡ list_any (λ d. is_named self.now.toks Ordinary i d && (has_linkage d.linkage && not (is_linkage d.linkage linkage))) self.now.declared }
    {
        has_other(&self.linked, self.numbers.as_slice(), linkage, i)
    }

    // How many declarations stand before the first one whose range ends at the token.
    fn count_before(&self, to: u32) -> usize
        ensures { (depth from end : ℕ) → filter_map (kept_here to depth from end) (take result (reverse self.now.declared)) ≡ [] }
    {
        let at = to as usize;
        if at >= self.ends.len() {
            return 0;
        }
        match place_at(self.ends.as_slice(), at) {
            0 => self.declared.len(),
            place => place - 1,
        }
    }

    fn push_some(&mut self, kept: Option<Declaration>) -> Result<(), Memory>
        ensures { OnOk result (self.new ≡ record self.old { declared = option_to_list kept ++ self.old.declared }) }
    {
        match kept {
            Some(d) => self.push(d),
            None => Ok(()),
        }
    }

    /// The declarations, and behind them those of the list, from one token to another.
    pub fn keep(&mut self, list: u32, depth: u32, from: u32, to: u32) -> Result<(), Memory>
        ensures { OnOk result (self.new ≡ record self.old { declared = filter_map (kept_here list depth from to) self.old.declared ++ self.old.declared }) }
    {
        let count = self.declared().len();
        let first = self.count_before(list);
        'kept: for k in first..count {
            let kept = kept_at(self.declared(), k, list, depth, from, to)?;
            self.push_some(kept)?;
        }
        Ok(())
    }

    /// What is found among the members of a structure or union, the latest first, as names of the one around it.
    pub fn lifted(&self, alloc: Global, owner: u32, number: u32) -> Result<Vec<Declaration>, Memory>
        ensures { IfOk result (λ v. v.items ≡ map (lifted owner) (filter (is_found_in number) self.now.declared)) }
    {
        lifted_from(alloc, self.declared.as_slice(), &self.found, owner, number)
    }

    /// Member number `n` of the structure or union.
    pub fn member(&self, number: u32, n: u32) -> Option<&Declaration>
        ensures { option_map (λ d. d.now) result ≡ slice_get (reverse (filter (is_member_of number) self.now.declared)) n }
    {
        member_numbered(
            self.declared.as_slice(),
            &self.structures,
            self.ranks.as_slice(),
            number,
            n,
        )
    }

    /// How many members of the structure or union stand before the first one with the name.
    pub fn members_before(&self, number: u32, name_at: u32) -> usize
        ensures { result ≡ place_of (reverse (filter (is_member_of number) self.now.declared)) name_at }
    {
        members_before(
            self.declared.as_slice(),
            &self.names,
            &self.structures,
            self.ranks.as_slice(),
            self.numbers.as_slice(),
            number,
            name_at,
        )
    }
}
