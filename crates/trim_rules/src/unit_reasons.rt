// Why the inclusions of a unit keep their lines.
ghost use Rattle.std.specs.Prelude.{◌≡◌, ◌<◌, ◌-◌, ◌^◌, ◌++◌, ◌∷◌, [], IfOk, OnOk, length, slice_get};
ghost use Rattle.std.specs.List.{list_any};
ghost use Rattle.std.specs.Option.{option_map, option_map_or};
ghost use Rattle.analysis.specs.Below.c_types.Declarations.{spelling_at};
ghost use Rattle.trim_rules.specs.Held.{first_held_defining, first_held_giving, held_giving, is_held_whole, is_within, pragma_held, pragmas_of, why_behind, why_between, why_held, AreReasonsOf};
ghost use Rattle.trim_rules.specs.Mentions.{told_at};
ghost use Rattle.trim_rules.specs.Reasons.{reason};
ghost use Rattle.trim_rules.specs.Walks.{is_marked};
ghost use Rattle.unused_names.specs.Unneeded.{name_of as spelling_of};

use crate::defining::{defining, edges};
use crate::mentions::Mentions;
use crate::reached::is_pragma;
use crate::reasons::Reason;
use analysis::{Analysis, Event, Reached, UnitAt, UnitText};
use cs_base::{Memory, Tok};
use std::alloc::Global;
use unused_names::{end_of, gives_meaning, name_of, tokens_before};

/// What is asked of the inclusions of a unit.
#[derive(Drop)]
pub(crate) struct UnitReasons<'a> {
    text: &'a UnitText,
    count: u32,
    edges: Vec<bool>,
    defining: Vec<bool>,
    pragmas: Vec<u32>,
    mentions: Mentions<'a>,
}

// How many tokens there are: `Memory` from 2^32 - 1 on.
fn count_of(toks: &[Tok]) -> Result<u32, Memory>
    ensures answer { IfOk result (λ count. count ≡ length toks.now) }
    ensures few { IfOk result (λ count. count < 2 ^ 32 - 1) }
{
    if toks.len() >= u32::MAX as usize {
        return Err(Memory);
    }
    Ok(toks.len() as u32)
}

// Adds how many events come before an item, if it is a pragma.
fn push_pragma(counts: &mut Vec<u32>, a: &Analysis, one: &Reached) -> Result<(), Memory>
    ensures { OnOk result (counts.new.items ≡ counts.old.items ++ pragmas_of a.now.value.table (one.now ∷ [])) }
{
    if !is_pragma(a, one) {
        return Ok(());
    }
    counts.push(one.events)?;
    Ok(())
}

// How many events come before each pragma that is reached.
fn pragmas(alloc: Global, a: &Analysis, reached: &[Reached]) -> Result<Vec<u32>, Memory>
    ensures { IfOk result (λ counts. counts.items ≡ pragmas_of a.now.value.table reached.now) }
{
    let mut counts = Vec::new(alloc);
    for one in reached {
        push_pragma(&mut counts, a, one)?;
    }
    Ok(counts)
}

// A mark of a token; none past the end.
fn is_marked(marks: &[bool], k: u32) -> bool
    ensures { result ≡ is_marked marks.now k }
{
    let place = k as usize;
    if place < marks.len() {
        marks[place]
    } else {
        false
    }
}

// Tokens are those of whole declarations, or none.
fn is_whole(edges: &[bool], from: u32, to: u32) -> bool
    ensures { result ≡ is_held_whole edges.now from to }
{
    from == to || (is_marked(edges, from) && is_marked(edges, to))
}

// The first of the tokens that is marked.
fn first_marked(marks: &[bool], from: u32, to: u32) -> Option<u32>
    ensures { result ≡ first_held_defining marks.now from to }
{
    for k in from..to {
        if is_marked(marks, k) {
            return Some(k);
        }
    }
    None
}

// Some count is one inside.
fn any_within(counts: &[u32], k: usize, end: usize) -> bool
    ensures { result ≡ list_any (is_within k end) counts.now }
{
    counts
        .iter()
        .any(|count| k < *count as usize && *count as usize <= end)
}

// The spelling of token `k`.
fn spelling_at(toks: &[Tok], k: u32) -> &[u8]
    ensures { result.now ≡ spelling_at toks.now k }
{
    match toks.get(k as usize) {
        Some(tok) => tok.text(),
        None => &[],
    }
}

// The name of event `i`.
fn name_at(events: &[Event], i: usize) -> &[u8]
    ensures { result.now ≡ option_map_or spelling_of (slice_get events.now i) [] }
{
    match events.get(i) {
        Some(event) => name_of(event),
        None => &[],
    }
}

impl<'a> Mentions<'a> {
    // Event `i` gives a name a meaning that is mentioned outside.
    fn is_giving(&self, events: &'a [Event], k: usize, end: usize, i: usize) -> bool
        ensures { result ≡ held_giving (told_at self.now.spans) events.now k end i }
    {
        match events.get(i) {
            Some(event) => gives_meaning(event.kind) && self.is_mentioned(name_of(event), k, end),
            None => false,
        }
    }

    // The first event that does.
    fn first_giving(&self, events: &'a [Event], k: usize, end: usize) -> Option<usize>
        requires { k < length events.now }
        ensures { result ≡ first_held_giving (told_at self.now.spans) events.now k end }
    {
        for i in k + 1..end {
            if self.is_giving(events, k, end, i) {
                return Some(i);
            }
        }
        None
    }
}

impl<'a> UnitReasons<'a> {
    /// Those of a unit.
    pub(crate) fn of(
        alloc: Global,
        a: &'a Analysis,
        unit: &'a UnitAt<'_>,
    ) -> Result<UnitReasons<'a>, Memory>
        ensures own { IfOk result (λ r. AreReasonsOf a.now.value.table unit.now r) }
        ensures text { IfOk result (λ r. r.text.now ≡ unit.now.text) }
        ensures count { IfOk result (λ r. r.count ≡ length r.text.now.toks) }
    {
        let text = unit.text();
        let bound = unit.bound();
        let count = count_of(text.toks())?;
        let tree = unit.tree(alloc)?;
        let edges = edges(alloc, &tree, count)?;
        let defining = defining(alloc, &tree, bound, count)?;
        let pragmas = pragmas(alloc, a, text.reached())?;
        let mentions = Mentions::of(alloc, a, text)?;
        Ok(UnitReasons {
            text,
            count,
            edges,
            defining,
            pragmas,
            mentions,
        })
    }

    /// Why the inclusion that an event begins keeps its line.
    pub(crate) fn why_in(&self, k: usize) -> Option<Reason<'a>>
        requires within { k < length self.now.text.now.events }
        requires count { self.now.count ≡ length self.now.text.now.toks }
        ensures { option_map reason result ≡ why_held self.now k }
    {
        let events = self.text.events();
        let end = end_of(events, k);
        let from = tokens_before(self.text, self.count, k);
        let to = tokens_before(self.text, self.count, end);
        self.why_between(k, end, from, to)
    }

    // The same, where it ends and what it brings are known.
    fn why_between(&self, k: usize, end: usize, from: u32, to: u32) -> Option<Reason<'a>>
        requires within { k < length self.now.text.now.events }
        ensures { option_map reason result ≡ why_between self.now k end from to }
    {
        if !is_whole(&self.edges, from, to) {
            return Some(Reason::Fragment);
        }
        let events = self.text.events();
        match self.mentions.first_giving(events, k, end) {
            Some(i) => Some(Reason::Name(name_at(events, i))),
            None => self.behind_names(k, end, from, to),
        }
    }

    // What keeps the line where no name does.
    fn behind_names(&self, k: usize, end: usize, from: u32, to: u32) -> Option<Reason<'a>>
        ensures { option_map reason result ≡ why_behind self.now k end from to }
    {
        match first_marked(&self.defining, from, to) {
            Some(j) => Some(Reason::Definition(spelling_at(self.text.toks(), j))),
            None => self.pragma_in(k, end),
        }
    }

    fn pragma_in(&self, k: usize, end: usize) -> Option<Reason<'a>>
        ensures { option_map reason result ≡ pragma_held self.now k end }
    {
        if any_within(&self.pragmas, k, end) {
            return Some(Reason::Pragma);
        }
        None
    }
}
