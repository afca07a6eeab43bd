// Names, and where each stands by its token.
ghost use Rattle.std.specs.Prelude.{◌≡◌, ◌≢◌, ℕ, ◌+◌, ◌≤◌, length, take, get_or, IfOk, OnOk};
ghost use Rattle.std.specs.Option.{option_map};
ghost use Rattle.scope_bind.specs.Names.{ArePlaces, name_at};

use crate::bound::Name;
use cs_base::Memory;
use std::alloc::Global;
use std::marker::Model;

/// Names, each of which is found by its token. Contracts see a list.
#[derive(Drop)]
pub(crate) struct NameTable {
    names: Vec<Name>,
    // for each token one more than the place of its last name among these, or 0
    places: Vec<u32>,
}

impl Model for NameTable {
    ghost use Rattle.std.specs.Prelude.{List};
    ghost use Rattle.scope_bind.specs.declared.bound.Name.{Name};

    ghost Value = { List Name };

    ghost view = { λ t. t.names.items };

    ghost use Rattle.scope_bind.specs.Names.{ArePlaces};

    ghost invariant = { λ t. ArePlaces t.names.items t.places.items };
}

// A table that says of no token where its name stands.
fn blank(alloc: Global, count: usize) -> Result<Vec<u32>, Memory>
    ensures { IfOk result (λ v. (k : ℕ) → get_or v.items k 0 ≡ 0) }
{
    Ok(vec![in alloc; 0u32; count]?)
}

// Room for so many tokens, of which the new ones have no names.
fn grow(places: &mut Vec<u32>, count: usize) -> Result<(), Memory>
    ensures same { OnOk result ((k : ℕ) → get_or places.new.items k 0 ≡ get_or places.old.items k 0) }
    ensures room { OnOk result (count ≤ length places.new.items) }
{
    let len = places.len();
    'room: for k in len..count {
        places.push(0)?;
    }
    Ok(())
}

// The place is told at the token.
fn tell(places: &mut Vec<u32>, index: u32, place: u32) -> Result<(), Memory>
    ensures here { OnOk result (get_or places.new.items index 0 ≡ place) }
    ensures others { OnOk result ((k : ℕ) → k ≢ index → get_or places.new.items k 0 ≡ get_or places.old.items k 0) }
{
    let at = index as usize;
    grow(places, at + 1)?;
    places[at] = place;
    Ok(())
}

// Name number `k` is told at its token.
fn tell_name(places: &mut Vec<u32>, names: &[Name], k: usize) -> Result<(), Memory>
    ensures { OnOk result (ArePlaces (take k names.now) places.old.items → ArePlaces (take (k + 1) names.now) places.new.items) }
{
    if k >= u32::MAX as usize {
        return Err(Memory);
    }
    match names.get(k) {
        Some(name) => tell(places, name.index, k as u32 + 1),
        None => Ok(()),
    }
}

fn places_of(alloc: Global, count: usize, names: &[Name]) -> Result<Vec<u32>, Memory>
    ensures { IfOk result (λ v. ArePlaces names.now v.items) }
{
    let mut places = blank(alloc, count)?;
    let total = names.len();
    'names: for k in 0..total {
        tell_name(&mut places, names, k)?;
    }
    Ok(places)
}

impl NameTable {
    /// The names, in a text of so many tokens.
    pub(crate) fn new(alloc: Global, count: usize, names: Vec<Name>) -> Result<NameTable, Memory>
        ensures { IfOk result (λ t. t ≡ names.items) }
    {
        let places = places_of(alloc, count, names.as_slice())?;
        Ok(NameTable { names, places })
    }

    /// The last name at the token.
    pub(crate) fn at(&self, index: u32) -> Option<&Name>
        ensures { option_map (λ n. n.now) result ≡ name_at self.now index }
    {
        let place = self.places.get(index as usize)?;
        match *place {
            0 => None,
            next => self.names.get(next as usize - 1),
        }
    }

    pub(crate) fn as_slice(&self) -> &[Name]
        ensures { result.now ≡ self.now }
    {
        self.names.as_slice()
    }
}
