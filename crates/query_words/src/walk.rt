// Reading and compiling at once, by recursion over the query: as deep as `!` and `(` are open, and no deeper.
ghost use Rattle.std.specs.Prelude.{Ok, ◌≡◌, ◌<◌, ◌≤◌, ◌^◌, IfErr, IfOk, length};
ghost use Rattle.query_words.specs.Queries.{Query};
ghost use Rattle.query_words.specs.Reading.{both, closed, either, enclosed, negation, read};
ghost use Rattle.query_words.specs.Steps.{IsCompiled, IsFault};

use crate::atoms::{atom, is_byte};
use crate::faults::{QueryFault, QueryRefusal};
use crate::steps::{Step, push_step};
use std::alloc::Global;

/// What stands behind an opening byte: a whole query behind `(`, what is denied behind `!`.
#[derive(Clone, Copy)]
pub enum Rule {
    Whole,
    Denied,
}

#[cycle(walk)]
/// What is joined by `|`, where so many more `!` and `(` may be open: its steps behind others, and the place behind it.
pub fn either(
    alloc: Global,
    text: &[u8],
    room: usize,
    at: usize,
    steps: &mut Vec<Step>,
) -> Result<usize, QueryRefusal>
    requires few { length text.now < 2 ^ 32 }
    requires inside { at ≤ length text.now }
    ensures answer { IfOk result
        (IsCompiled (either (enclosed text.now room) text.now at) steps.old.items steps.new.items) }
    ensures refused { IfErr result (IsFault (either (enclosed text.now room) text.now at)) }
    ensures within { IfOk result (λ next. next ≤ length text.now) }
{
    let mut next = both(alloc, text, room, at, steps)?;
    for _sign in 0..text.len() {
        if !is_byte(text, next, b'|') {
            return Ok(next);
        }
        let end = both(alloc, text, room, next + 1, steps)?;
        push_step(steps, Step::Or)?;
        next = end;
    }
    Ok(next)
}

#[cycle(walk)]
// What is joined by `&`.
fn both(
    alloc: Global,
    text: &[u8],
    room: usize,
    at: usize,
    steps: &mut Vec<Step>,
) -> Result<usize, QueryRefusal>
    requires few { length text.now < 2 ^ 32 }
    requires inside { at ≤ length text.now }
    ensures answer { IfOk result
        (IsCompiled (both (enclosed text.now room) text.now at) steps.old.items steps.new.items) }
    ensures refused { IfErr result (IsFault (both (enclosed text.now room) text.now at)) }
    ensures within { IfOk result (λ next. next ≤ length text.now) }
{
    let mut next = negation(alloc, text, room, at, steps)?;
    for _sign in 0..text.len() {
        if !is_byte(text, next, b'&') {
            return Ok(next);
        }
        let end = negation(alloc, text, room, next + 1, steps)?;
        push_step(steps, Step::And)?;
        next = end;
    }
    Ok(next)
}

#[cycle(walk)]
#[tactic(auto, unfolding(crate::specs::Reading::negation))]
// What is denied, what stands in parentheses, or an atom.
fn negation(
    alloc: Global,
    text: &[u8],
    room: usize,
    at: usize,
    steps: &mut Vec<Step>,
) -> Result<usize, QueryRefusal>
    requires few { length text.now < 2 ^ 32 }
    requires inside { at ≤ length text.now }
    ensures answer { IfOk result
        (IsCompiled (negation (enclosed text.now room) text.now at) steps.old.items steps.new.items) }
    ensures refused { IfErr result (IsFault (negation (enclosed text.now room) text.now at)) }
    ensures within { IfOk result (λ next. next ≤ length text.now) }
{
    if is_byte(text, at, b'!') {
        let next = enclosed(alloc, text, room, Rule::Denied, at, steps)?;
        push_step(steps, Step::Negate)?;
        return Ok(next);
    }
    if is_byte(text, at, b'(') {
        let next = enclosed(alloc, text, room, Rule::Whole, at, steps)?;
        return closed(text, next);
    }
    atom(alloc, at, &text[at..], steps)
}

#[cycle(walk)]
// What stands behind the opening byte at a place.
fn enclosed(
    alloc: Global,
    text: &[u8],
    room: usize,
    rule: Rule,
    at: usize,
    steps: &mut Vec<Step>,
) -> Result<usize, QueryRefusal>
    requires few { length text.now < 2 ^ 32 }
    requires inside { at < length text.now }
    ensures answer { IfOk result (IsCompiled (enclosed text.now room rule at) steps.old.items steps.new.items) }
    ensures refused { IfErr result (IsFault (enclosed text.now room rule at)) }
    ensures within { IfOk result (λ next. next ≤ length text.now) }
{
    if room == 0 {
        return Err(QueryRefusal::Fault(QueryFault::Deep { at: at as u32 }));
    }
    match rule {
        Rule::Whole => either(alloc, text, room - 1, at + 1, steps),
        Rule::Denied => negation(alloc, text, room - 1, at + 1, steps),
    }
}

// The place behind the `)` behind a query.
fn closed(text: &[u8], next: usize) -> Result<usize, QueryRefusal>
    requires few { length text.now < 2 ^ 32 }
    requires inside { next ≤ length text.now }
    ensures answer { IfOk result (λ end. (query : Query) → closed text.now (read query next) ≡ Ok (read query end)) }
    ensures refused { IfErr result (λ e. (query : Query) → IsFault (closed text.now (read query next)) e) }
    ensures within { IfOk result (λ end. end ≤ length text.now) }
{
    if is_byte(text, next, b')') {
        Ok(next + 1)
    } else {
        Err(QueryRefusal::Fault(QueryFault::Bad { at: next as u32 }))
    }
}
