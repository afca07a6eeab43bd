// The places of tokens among some of them.
ghost use Rattle.std.specs.Prelude.{◌≡◌, ℕ, Some, IsTrue, slice_get};
ghost use Rattle.template_meaning.specs.Compared.{ArePlaces};

use cs_base::Memory;
use std::alloc::Global;

// The place of a token is number `p`, if there is room for it.
fn set_place(places: &mut [u32], k: u32, p: usize) {
    if (k as usize) < places.len() && p <= u32::MAX as usize {
        places[k as usize] = p as u32;
    }
}

/// The places that tokens have among these, of `count` tokens in all.
pub(crate) fn places_of(alloc: Global, toks: &[u32], count: usize) -> Result<Vec<u32>, Memory> {
    let mut places = Vec::new(alloc);
    for _ in 0..count {
        places.push(0)?;
    }
    for p in 0..toks.len() {
        let k = toks[p];
        set_place(places.as_mut_slice(), k, p);
    }
    Ok(places)
}

fn is_number_at(places: &[u32], k: u32, p: usize) -> bool
    ensures { IsTrue result → slice_get places.now k ≡ Some p }
{
    match places.get(k as usize) {
        Some(place) => *place as usize == p,
        None => false,
    }
}

// Number `p` is the place of its token.
fn is_placed(toks: &[u32], places: &[u32], p: usize) -> bool
    ensures { IsTrue result → (k : ℕ) → slice_get toks.now p ≡ Some k → slice_get places.now k ≡ Some p }
{
    match toks.get(p) {
        Some(k) => is_number_at(places, *k, p),
        None => false,
    }
}

/// They are the places of the tokens.
pub(crate) fn are_places(toks: &[u32], places: &[u32]) -> bool
    ensures { IsTrue result → ArePlaces toks.now places.now }
{
    for p in 0..toks.len() {
        if !is_placed(toks, places, p) {
            return false;
        }
    }
    true
}
