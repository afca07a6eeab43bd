// The tokens with which lists begin, each found by its number at once.
ghost use Rattle.std.specs.Prelude.{◌≡◌, ◌==◌, false, IfOk, IfSome, slice_get};
ghost use Rattle.std.specs.Option.{option_map_or};
ghost use Rattle.template_meaning.specs.Compared.{ArePlaces};
ghost use Rattle.template_meaning.specs.Matched.{begun};

use crate::places::{are_places, places_of};
use cs_base::Memory;
use std::alloc::Global;
use std::marker::Model;

/// Tokens of a unit with which lists begin, each once, with the place of each among them. Contracts see the tokens.
#[derive(Drop)]
pub(crate) struct Begins {
    lists: Vec<u32>,
    places: Vec<u32>,
}

impl Model for Begins {
    ghost use Rattle.std.specs.Prelude.{ℕ, List};
    ghost use Rattle.template_meaning.specs.Compared.{ArePlaces};

    ghost Value = { List ℕ };

    ghost view = { λ b. b.lists.items };

    ghost invariant = { λ b. ArePlaces b.lists.items b.places.items };
}

// Whether the list with this number begins with token `k`.
fn is_begin_of(lists: &[u32], number: u32, k: u32) -> bool
    ensures { result ≡ option_map_or (λ b. b == k) (slice_get lists.now number) false }
{
    match lists.get(number as usize) {
        Some(begin) => *begin == k,
        None => false,
    }
}

// Whether token `k` is one of these, which have these places.
fn is_one_of(lists: &[u32], places: &[u32], k: u32) -> bool
    requires { ArePlaces lists.now places.now }
    ensures { result ≡ begun lists.now k }
{
    match places.get(k as usize) {
        Some(number) => is_begin_of(lists, *number, k),
        None => false,
    }
}

impl Begins {
    /// Those of a unit with so many tokens; none where one stands there twice, or none of its tokens is one.
    pub(crate) fn of(alloc: Global, lists: Vec<u32>, count: usize) -> Result<Option<Begins>, Memory>
        ensures { IfOk result (λ found. IfSome found (λ begins. begins ≡ lists.items)) }
    {
        let places = places_of(alloc, &lists, count)?;
        if !are_places(&lists, &places) {
            return Ok(None);
        }
        Ok(Some(Begins { lists, places }))
    }

    /// Whether a list begins with token `k`.
    pub(crate) fn has(&self, k: u32) -> bool
        ensures { result ≡ begun self.now k }
    {
        is_one_of(&self.lists, &self.places, k)
    }
}
