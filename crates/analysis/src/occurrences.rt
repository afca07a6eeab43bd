// The identifiers of a unit, joined with the first occurrences of their entities.
ghost use Rattle.std.specs.Prelude.{◌≡◌, ◌≤◌, ◌<◌, ◌^◌, None, Some, MatchBool, IfOk, OnOk, length, slice_index_or, slice_set, unwrap_or};
ghost use Rattle.analysis.specs.Joins.{Joins};
ghost use Rattle.analysis.specs.Links.{occurrence_links};

use crate::joining::join_first;
use cs_base::{Memory, Tok};
use eclass_map::Classes;
use gnu_bind::Bound;
use std::alloc::Global;

/// Joins each token of a unit that is bound to an entity with the first one that is.
pub(crate) fn join_occurrences(
    alloc: Global,
    bound: &Bound,
    toks: &[Tok],
    classes: &mut Classes,
) -> Result<(), Memory>
    ensures { OnOk result (Joins (occurrence_links bound.now.names toks.now 0 toks.now) classes.old classes.new) }
{
    let count = count_of(toks)?;
    let mut firsts = vec![in alloc; None; toks.len()]?;
    // Where the table has the tokens. Guesses: no contract rests on them.
    let mut places = vec![in alloc; 0; toks.len()]?;
    let mut place = 0;
    for k in 0..count {
        if let Some(entity) = bound.entity(k) {
            let first = first_of(&mut firsts, entity, k)?;
            place = classes.near_from(&toks[k as usize], place);
            note_place(&mut places, k, place);
            let is_own = is_same(first, k);
            let both = [place, places[first as usize]];
            join_first(
                &toks[k as usize],
                &toks[first as usize],
                is_own,
                both,
                classes,
            )?;
        }
    }
    Ok(())
}

/// How many tokens there are: `Memory` from 2^32 on.
pub(crate) fn count_of(toks: &[Tok]) -> Result<u32, Memory>
    ensures { IfOk result (λ count. count ≡ length toks.now) }
{
    if toks.len() > u32::MAX as usize {
        return Err(Memory);
    }
    Ok(toks.len() as u32)
}

// The first token that is bound to the entity: the one that was met, or else token `k`, which is met now.
// `Memory` where the entity is no token.
fn first_of(firsts: &mut Vec<Option<u32>>, entity: u32, k: u32) -> Result<u32, Memory>
    ensures within { OnOk result (entity < length firsts.old.items) }
    ensures answer { IfOk result (λ first. first ≡ unwrap_or (slice_index_or firsts.old.items entity None) k) }
    ensures noted { IfOk result (λ first. firsts.new.items ≡ slice_set firsts.old.items entity (Some first)) }
{
    let place = entity as usize;
    if place >= firsts.len() {
        return Err(Memory);
    }
    let first = firsts[place].unwrap_or(k);
    firsts[place] = Some(first);
    Ok(first)
}

fn is_same(first: u32, second: u32) -> bool
    ensures { MatchBool result (first ≡ second) (first ≡ second → ⊥) }
{
    first == second
}

fn note_place(places: &mut Vec<usize>, k: u32, place: usize)
    requires { k < length places.old.items }
    ensures { length places.new.items ≡ length places.old.items }
{
    places[k as usize] = place;
}
