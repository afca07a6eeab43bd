// A query that is read once, and asked of many things.
ghost use Rattle.std.specs.Prelude.{◌≡◌, ◌<◌, ◌^◌, ◌&&◌, ◌||◌, Ok, IfErr, IfOk, OnOk, nat_le, length};
ghost use Rattle.query_words.specs.Grammar.{Alternatives, Derives};
ghost use Rattle.query_words.specs.Patterns.{matches};
ghost use Rattle.query_words.specs.Queries.{Query, value};
ghost use Rattle.query_words.specs.Reading.{depth_limit, parsed};
ghost use Rattle.query_words.specs.Steps.{IsFault, IsFaultRead, IsOf, Means, front_of, last_of, put, step_on};

use crate::attributes::Facts;
use crate::faults::{QueryFault, QueryRefusal};
use crate::patterns::is_match;
use crate::steps::{Pattern, Step};
use crate::walk;
use cs_base::Memory;
use std::alloc::Global;

/// How many `!` and `(` may be open at once.
const DEPTH_LIMIT: usize = 64;

/// A query as steps.
#[derive(Drop)]
pub struct Compiled {
    steps: Vec<Step>,
}

/// Room for the work of asking: what stands in it does not count.
#[derive(Drop)]
pub struct Room {
    values: Vec<bool>,
    places: Vec<bool>,
}

impl Room {
    pub fn new(alloc: Global) -> Room {
        Room {
            values: Vec::new(alloc),
            places: Vec::new(alloc),
        }
    }
}

impl Compiled {
    /// The query that a word is, or its first fault.
    pub fn of(alloc: Global, query: &[u8]) -> Result<Compiled, QueryRefusal>
        requires few { length query.now < 2 ^ 32 }
        ensures answer { IfOk result (IsOf query.now) }
        ensures refused { IfErr result (IsFault (parsed query.now)) }
        // The query is one that the grammar derives; and where a fault is, it is so by the grammar alone.
        ensures derived { IfOk result (λ compiled.
            (q : Query) × Derives Alternatives depth_limit query.now q × Means q compiled) }
        ensures fault { IfErr result (IsFaultRead query.now) }
    {
        compile(alloc, query)
    }

    /// Whether something with these attributes and this spelling satisfies the query.
    pub fn satisfied(&self, facts: &Facts, spelling: &[u8], room: &mut Room) -> Result<bool, Memory>
        ensures { IfOk result (λ holds. (q : Query) → Means q self.now → holds ≡ value facts.now spelling.now q) }
    {
        room.values.clear();
        for step in &self.steps {
            take_step(step, facts, spelling, room)?;
        }
        Ok(taken(&mut room.values))
    }
}

// The same, as it is read.
fn compile(alloc: Global, query: &[u8]) -> Result<Compiled, QueryRefusal>
    requires few { length query.now < 2 ^ 32 }
    ensures answer { IfOk result (IsOf query.now) }
    ensures refused { IfErr result (IsFault (parsed query.now)) }
{
    let mut steps = Vec::new(alloc);
    let next = walk::either(alloc, query, DEPTH_LIMIT, 0, &mut steps)?;
    if next < query.len() {
        return Err(QueryRefusal::Fault(QueryFault::Bad { at: next as u32 }));
    }
    Ok(Compiled { steps })
}

// Takes the last value.
fn taken(values: &mut Vec<bool>) -> bool
    ensures last { result ≡ last_of values.old.items }
    ensures front { values.new.items ≡ front_of values.old.items }
{
    match values.pop() {
        Some(last) => last,
        None => false,
    }
}

fn put(values: &mut Vec<bool>, value: bool) -> Result<(), Memory>
    ensures { OnOk result (values.new.items ≡ put values.old.items value) }
{
    values.push(value)?;
    Ok(())
}

// Makes room for so many places, and one more.
fn make_room(places: &mut Vec<bool>, len: usize) -> Result<(), Memory>
    ensures { OnOk result (len < length places.new.items) }
{
    while places.len() <= len {
        places.push(false)?;
    }
    Ok(())
}

// Whether a pattern matches a spelling.
fn is_matched(pattern: &Pattern, spelling: &[u8], places: &mut Vec<bool>) -> Result<bool, Memory>
    ensures { IfOk result (λ holds. holds
        ≡ (nat_le pattern.now.least (length spelling.now) && matches pattern.now.bytes.items spelling.now)) }
{
    if spelling.len() < pattern.least {
        return Ok(false);
    }
    make_room(places, pattern.bytes.len())?;
    Ok(is_match(&pattern.bytes, spelling, places))
}

// Takes a step.
fn take_step(step: &Step, facts: &Facts, spelling: &[u8], room: &mut Room) -> Result<(), Memory>
    ensures { OnOk result (room.new.values.items ≡ step_on facts.now spelling.now room.old.values.items step.now) }
{
    match step {
        Step::Has(attribute) => put(&mut room.values, facts.has(*attribute)),
        Step::Spelled(pattern) => {
            let holds = is_matched(pattern, spelling, &mut room.places)?;
            put(&mut room.values, holds)
        }
        Step::Negate => {
            let last = taken(&mut room.values);
            put(&mut room.values, !last)
        }
        Step::And => {
            let right = taken(&mut room.values);
            let left = taken(&mut room.values);
            put(&mut room.values, both_of(left, right))
        }
        Step::Or => {
            let right = taken(&mut room.values);
            let left = taken(&mut room.values);
            put(&mut room.values, either_of(left, right))
        }
    }
}

fn either_of(first: bool, second: bool) -> bool
    ensures { result ≡ (first || second) }
{
    first || second
}

fn both_of(first: bool, second: bool) -> bool
    ensures { result ≡ (first && second) }
{
    first && second
}
