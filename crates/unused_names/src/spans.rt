// The first and the last occurrence of each entity of a unit.
ghost use Rattle.std.specs.Prelude.{◌≡◌, ◌≤◌, ◌<◌, ◌+◌, ℕ, None, Some, IfOk, OnOk, MatchBool, length, slice_index_or, slice_set};
ghost use Rattle.unused_names.specs.Spans.{span_with, AreSpans, ReachesOut, TellsSpan};

use analysis::Bound;
use cs_base::{Memory, Tok};
use std::alloc::Global;

/// How many tokens there are: `Memory` from 2^32 on.
pub(crate) fn count_of(toks: &[Tok]) -> Result<u32, Memory>
    ensures { IfOk result (λ count. count ≡ length toks.now) }
{
    if toks.len() > u32::MAX as usize {
        return Err(Memory);
    }
    Ok(toks.len() as u32)
}

/// The first and the last token that is bound to an entity.
#[derive(Clone, Copy)]
pub struct Span {
    pub first: u32,
    pub last: u32,
}

// The span with one token more, behind all others.
fn span_with(span: Option<Span>, k: u32) -> Span
    ensures { result ≡ span_with span k }
{
    match span {
        None => Span { first: k, last: k },
        Some(span) => Span {
            first: span.first,
            last: k,
        },
    }
}

// Notes one more token of an entity. `Memory` where the entity is no token of the unit.
fn note(spans: &mut Vec<Option<Span>>, entity: u32, k: u32) -> Result<(), Memory>
    ensures within { OnOk result (entity < length spans.old.items) }
    ensures noted { OnOk result (spans.new.items ≡ slice_set spans.old.items entity (Some (span_with (slice_index_or spans.old.items entity None) k))) }
{
    let place = entity as usize;
    if place >= spans.len() {
        return Err(Memory);
    }
    spans[place] = Some(span_with(spans[place], k));
    Ok(())
}

// The spans with one token more.
fn note_token(spans: &mut Vec<Option<Span>>, bound: &Bound, k: u32) -> Result<(), Memory>
    requires { AreSpans bound.now.names k spans.old.items }
    ensures { OnOk result (AreSpans bound.now.names (k + 1) spans.new.items) }
{
    match bound.entity(k) {
        Some(entity) => note(spans, entity, k),
        None => Ok(()),
    }
}

/// The spans of all entities among so many tokens.
pub(crate) fn spans(alloc: Global, bound: &Bound, count: u32) -> Result<Vec<Option<Span>>, Memory>
    ensures { IfOk result (λ spans. AreSpans bound.now.names count spans.items) }
{
    let mut spans = vec![in alloc; None; count as usize]?;
    for k in 0..count {
        note_token(&mut spans, bound, k)?;
    }
    Ok(spans)
}

// What is known of an entity.
fn span_of(spans: &[Option<Span>], entity: u32) -> Option<Span>
    ensures { result ≡ slice_index_or spans.now entity None }
{
    if (entity as usize) < spans.len() {
        spans[entity as usize]
    } else {
        None
    }
}

// Whether the entity of a token has an occurrence past these bounds.
fn reaches_out(
    bound: &Bound,
    count: u32,
    spans: &[Option<Span>],
    from: u32,
    to: u32,
    k: u32,
) -> bool
    requires spans { AreSpans bound.now.names count spans.now }
    ensures { MatchBool result (ReachesOut bound.now.names count from to k) (ReachesOut bound.now.names count from to k → ⊥) }
{
    let Some(entity) = bound.entity(k) else {
        return false;
    };
    match span_of(spans, entity) {
        Some(span) => span.first < from || span.last >= to,
        None => false,
    }
}

/// Whether the entity of some token within these bounds has an occurrence past them.
pub(crate) fn any_reaches_out(
    bound: &Bound,
    count: u32,
    spans: &[Option<Span>],
    from: u32,
    to: u32,
) -> bool
    requires spans { AreSpans bound.now.names count spans.now }
    ensures { MatchBool result ((k : ℕ) × (from ≤ k) × (k < to) × (k < count) × ReachesOut bound.now.names count from to k)
        ((k : ℕ) → from ≤ k → k < to → k < count → ReachesOut bound.now.names count from to k → ⊥) }
{
    for k in from..to.min(count) {
        if reaches_out(bound, count, spans, from, to, k) {
            return true;
        }
    }
    false
}
