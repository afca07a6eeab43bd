// Declarations with a key, each of which leads to the one before it.
ghost use Rattle.std.specs.Prelude.{◌≡◌, ◌<◌, ◌≤◌, ℕ, length, get_or, IfOk, OnOk};
ghost use Rattle.name_chains.specs.Links.{no_links, with_link, TellsSame, HasRoom};

use cs_base::Memory;
use std::alloc::Global;
use std::marker::Model;

/// For each declaration the place of the one before it with the same key, and for each key that of its
/// latest declaration. A place is one more than how many declarations stand before, and 0 is none.
#[derive(Drop)]
pub(crate) struct Links {
    before: Vec<usize>,
    newest: Vec<usize>,
}

impl Model for Links {
    ghost use Rattle.name_chains.specs.Links.{Links};

    ghost Value = { Links };

    ghost view = { λ l. record { before = l.before.items; newest = l.newest.items } };
}

// How many places there are to be: more than the index, and twice as many as there were.
fn room_for(len: usize, at: usize) -> Result<usize, Memory>
    requires { len ≤ at }
    ensures { IfOk result (λ count. (at < count) × (len ≤ count)) }
{
    match at.checked_add(len) {
        Some(places) if places < usize::MAX => Ok(places + 1),
        _ => Err(Memory),
    }
}

#[tactic(auto, using(crate::proofs::LinkLemmas::tells_same))]
// Room for a place at the index, where none is told.
fn grow(places: &mut Vec<usize>, at: usize) -> Result<(), Memory>
    ensures same { (k : ℕ) → get_or places.new.items k 0 ≡ get_or places.old.items k 0 }
    ensures room { OnOk result (at < length places.new.items) }
{
    let len = places.len();
    if at < len {
        return Ok(());
    }
    let count = room_for(len, at)?;
    places.resize(count, 0)?;
    Ok(())
}

/// The place that is told at the index.
pub(crate) fn place_at(places: &[usize], k: usize) -> usize
    ensures { result ≡ get_or places.now k 0 }
{
    match places.get(k) {
        Some(place) => *place,
        None => 0,
    }
}

impl Links {
    pub fn new(alloc: Global) -> Links
        ensures { result ≡ no_links }
    {
        Links {
            before: Vec::new(alloc),
            newest: Vec::new(alloc),
        }
    }

    /// Room to link declaration number `count`.
    pub(crate) fn grow(&mut self, count: usize, key: usize) -> Result<(), Memory>
        ensures same { TellsSame self.old self.new }
        ensures room { OnOk result (HasRoom self.new count key) }
    {
        grow(&mut self.before, count)?;
        grow(&mut self.newest, key)
    }

    /// Declaration number `count` has the key.
    pub(crate) fn link(&mut self, count: usize, key: usize)
        requires { HasRoom self.old count key }
        ensures { self.new ≡ with_link count key self.old }
    {
        self.before[count] = place_at(self.newest.as_slice(), key);
        self.newest[key] = count + 1;
    }

    /// The place of the latest declaration with the key.
    pub(crate) fn newest(&self, key: usize) -> usize
        ensures { result ≡ get_or self.now.newest key 0 }
    {
        place_at(self.newest.as_slice(), key)
    }

    /// The place of the declaration before number `k` with the same key.
    pub(crate) fn before(&self, k: usize) -> usize
        ensures { result ≡ get_or self.now.before k 0 }
    {
        place_at(self.before.as_slice(), k)
    }
}
