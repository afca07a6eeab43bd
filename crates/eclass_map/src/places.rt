// The positions of characters by their numbers: those that are neighbours in a file are told by the first of them.
ghost use Rattle.std.specs.Prelude.{ℕ, ◌≡◌, ◌+◌, ◌^◌, ◌<◌, ◌≤◌, ◌++◌, ◌∷◌, [], length, drop, slice_get, slice_index_or, Some, IfOk, IfSome, IsTrue, OnOk};
ghost use Rattle.eclass_map.specs.ClassTable.{fresh_places, nowhere};
ghost use Rattle.eclass_map.specs.Places.{next_first, no_run, AreRuns};
ghost use Rattle.eclass_map.specs.Settled.{AreApart, ArePlaced, Fits};

use crate::token_list::{Added, place_tokens};
use cs_base::{Memory, Pos};
use std::alloc::Global;
use std::marker::Model;

/// Characters that stand one behind another: the number of the first, and where it stands.
#[derive(Clone, Copy, Drop)]
pub struct Run {
    pub first: u32,
    pub start: Pos,
}

/// Positions in the order of the numbers of their characters. Contracts see the list of them, and how many runs there
/// is room for.
#[derive(Drop)]
pub struct Places {
    runs: Vec<Run>,
    count: u32,
}

impl Model for Places {
    ghost use Rattle.std.specs.Prelude.{◌-◌, vec_len, vec_capacity};
    ghost use Rattle.eclass_map.specs.Places.{PlaceList, places_of, AreRuns};

    ghost Value = { PlaceList };

    ghost view = { λ p. record { list = places_of p.runs.items p.count; room = vec_capacity p.runs - vec_len p.runs } };

    ghost invariant = { λ p. AreRuns 0 p.runs.items p.count };
}

impl Places {
    pub fn new(alloc: Global) -> Places
        ensures { result.list ≡ [] }
    {
        Places {
            runs: Vec::new(alloc),
            count: 0,
        }
    }

    /// How many positions there are.
    pub fn len(&self) -> u32
        ensures { result ≡ length self.now.list }
    {
        self.count
    }

    /// Takes the room for one run more.
    pub fn reserve(&mut self) -> Result<(), Memory>
        ensures list { self.new.list ≡ self.old.list }
        ensures room { OnOk result (0 < self.new.room) }
    {
        self.runs.reserve(1)?;
        Ok(())
    }

    /// The positions of so many characters more, the first of which stands at `start`; there is room for a run.
    pub fn push(&mut self, start: Pos, len: u32)
        requires room { 0 < self.old.room }
        requires within { start.at + len ≤ 2 ^ 32 }
        requires short { length self.old.list + len < 2 ^ 32 }
        ensures { self.new.list ≡ self.old.list ++ fresh_places start len }
    {
        let run = Run {
            first: self.count,
            start,
        };
        self.runs.push(run).unwrap();
        self.count += len;
    }

    /// The position with this number. The run at the guess is tried first.
    pub fn at(&self, x: u32, guess: usize) -> Pos
        requires { x < length self.now.list }
        ensures { result ≡ slice_index_or self.now.list x nowhere }
    {
        let run = self.runs[run_of(&self.runs, self.count, x, guess)];
        Pos {
            file: run.start.file,
            at: run.start.at + (x - run.first),
        }
    }
}

#[tactic(auto, using(crate::proofs::RunFacts::next_at, crate::proofs::RunFacts::next_end))]
// The number of the first character of run `k`, or how many characters there are.
fn first_of(runs: &[Run], count: u32, k: usize) -> u32
    ensures { result ≡ next_first (drop k runs.now) count }
{
    if k < runs.len() { runs[k].first } else { count }
}

// Run `k` has the character.
fn is_run_of(runs: &[Run], count: u32, x: u32, k: usize) -> bool
    ensures within { IsTrue result → k < length runs.now }
    ensures begun { IsTrue result → (slice_index_or runs.now k no_run).first ≤ x }
    ensures last { IsTrue result → x < next_first (drop (k + 1) runs.now) count }
{
    k < runs.len() && runs[k].first <= x && x < first_of(runs, count, k + 1)
}

// The run of a character: the one at the guess, or found by halving.
fn run_of(runs: &[Run], count: u32, x: u32, guess: usize) -> usize
    requires runs { AreRuns 0 runs.now count }
    requires held { x < count }
    ensures within { result < length runs.now }
    ensures begun { (slice_index_or runs.now result no_run).first ≤ x }
    ensures last { x < next_first (drop (result + 1) runs.now) count }
{
    if is_run_of(runs, count, x, guess) {
        return guess;
    }
    let mut low = 0;
    let mut high = runs.len();
    while high - low > 1 {
        let middle = low + (high - low) / 2;
        if runs[middle].first <= x {
            low = middle;
        } else {
            high = middle;
        }
    }
    low
}

/// The positions of the characters of the tokens, by their numbers; `count` is how many there are.
pub fn place_runs(alloc: Global, tokens: &[Added], count: u32) -> Result<Places, Memory>
    requires within { (k : ℕ) (r : Added) → slice_get tokens.now k ≡ Some r → r.first + r.place.len ≤ count }
    requires fits { Fits tokens.now }
    requires apart { AreApart tokens.now }
    ensures long { IfOk result (λ p. length p.list ≡ count) }
    ensures placed { IfOk result (λ p. ArePlaced tokens.now p.list) }
{
    match runs_of(alloc, tokens, count)? {
        Some(places) => Ok(places),
        None => listed(alloc, &place_tokens(alloc, tokens, count)?),
    }
}

// The same, each token a run; none where the numbers of their characters do not follow one another.
fn runs_of(alloc: Global, tokens: &[Added], count: u32) -> Result<Option<Places>, Memory>
    requires within { (k : ℕ) (r : Added) → slice_get tokens.now k ≡ Some r → r.first + r.place.len ≤ count }
    requires fits { Fits tokens.now }
    ensures { IfOk result (λ found. IfSome found (λ p. (length p.list ≡ count) × ArePlaced tokens.now p.list)) }
{
    let mut places = Places::new(alloc);
    for k in 0..tokens.len() {
        let token = tokens[k];
        if token.first != places.len() {
            return Ok(None);
        }
        places.reserve()?;
        places.push(token.place.start, token.place.len);
    }
    if places.len() == count {
        Ok(Some(places))
    } else {
        Ok(None)
    }
}

// These positions, each a run.
fn listed(alloc: Global, positions: &[Pos]) -> Result<Places, Memory>
    requires few { length positions.now < 2 ^ 32 }
    ensures { IfOk result (λ p. p.list ≡ positions.now) }
{
    let mut places = Places::new(alloc);
    for k in 0..positions.len() {
        places.reserve()?;
        push_one(&mut places, positions[k]);
    }
    Ok(places)
}

// One position more, for which there is room.
fn push_one(places: &mut Places, start: Pos)
    requires room { 0 < places.old.room }
    requires short { length places.old.list + 1 < 2 ^ 32 }
    ensures { places.new.list ≡ places.old.list ++ start ∷ [] }
{
    places.push(start, 1);
}
