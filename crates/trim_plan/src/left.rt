// The tokens of a unit that no inclusion by some lines brings, and where they stand without the others.
ghost use Rattle.std.specs.Prelude.{◌≡◌, ◌<◌, ◌+◌, ◌&&◌, if◌then◌else◌, IfOk, IsTrue, Some, length, nat_le, nat_lt, false, replicate, slice_get, slice_set, true};
ghost use Rattle.trim_plan.specs.Left.{goes_by, is_gone};
ghost use Rattle.trim_plan.specs.Places.{mark_at, AreGoneMarks, ArePlaces, IsLeftOf, MarksMore};

use analysis::UnitText;
use cs_base::Memory;
use std::alloc::Global;
use trim_rules::Lines;
use unused_names::{end_of, is_enter, tokens_before};

/// Which tokens of a unit are gone, and for each token, and the end, how many before it are left.
#[derive(Drop)]
pub(crate) struct Left {
    gone: Vec<bool>,
    places: Vec<u32>,
}

// So many tokens, none of which is marked.
fn blank(alloc: Global, count: usize) -> Result<Vec<bool>, Memory>
    ensures { IfOk result (λ marks. marks.items ≡ replicate count false) }
{
    Ok(vec![in alloc; false; count]?)
}

// Marks token `k`, if there is one.
fn set(marks: &mut Vec<bool>, k: u32)
    ensures { marks.new.items ≡ slice_set marks.old.items k true }
{
    if (k as usize) < marks.len() {
        marks[k as usize] = true;
    }
}

// Marks the tokens from one to before another.
fn mark(gone: &mut Vec<bool>, from: u32, to: u32)
    ensures { MarksMore (λ k. nat_le from k && nat_lt k to) gone.old.items gone.new.items }
{
    for k in from..to {
        set(gone, k);
    }
}

// Marks the tokens that an event brings, if it begins an inclusion by one of the lines.
fn mark_event(gone: &mut Vec<bool>, lines: &Lines, text: &UnitText, count: u32, k: usize)
    requires count { count ≡ length text.now.toks }
    requires within { k < length text.now.events }
    ensures { MarksMore (λ j. goes_by lines.now text.now j k) gone.old.items gone.new.items }
{
    let events = text.events();
    let event = &events[k];
    if !is_enter(event.kind) {
        return;
    }
    if !lines.has(event.at) {
        return;
    }
    let from = tokens_before(text, count, k);
    let to = tokens_before(text, count, end_of(events, k));
    mark(gone, from, to);
}

// The marks of a unit with so many tokens.
fn marks_of(alloc: Global, lines: &Lines, text: &UnitText, count: u32) -> Result<Vec<bool>, Memory>
    requires count { count ≡ length text.now.toks }
    ensures { IfOk result (λ gone. AreGoneMarks (is_gone lines.now text.now) count gone.items) }
{
    let mut gone = blank(alloc, count as usize)?;
    let events = text.events();
    for k in 0..events.len() {
        mark_event(&mut gone, lines, text, count, k);
    }
    Ok(gone)
}

// The place behind a token.
fn behind(place: u32, is_gone: bool) -> Result<u32, Memory>
    ensures { IfOk result (λ next. next ≡ (if is_gone then place else place + 1)) }
{
    if is_gone {
        return Ok(place);
    }
    if place == u32::MAX {
        return Err(Memory);
    }
    Ok(place + 1)
}

fn mark_of(gone: &[bool], k: usize) -> bool
    requires { k < length gone.now }
    ensures { result ≡ mark_at gone.now k }
{
    gone[k]
}

// The places of tokens, by these marks.
fn places_of(alloc: Global, gone: &[bool]) -> Result<Vec<u32>, Memory>
    ensures { IfOk result (λ places. ArePlaces (mark_at gone.now) (length gone.now) places.items) }
{
    let mut places = Vec::with_capacity(alloc, gone.len() + 1)?;
    let mut place = 0u32;
    places.push(place)?;
    for k in 0..gone.len() {
        let is_gone = mark_of(gone, k);
        let next = behind(place, is_gone)?;
        places.push(next)?;
        place = next;
    }
    Ok(places)
}

impl Left {
    /// Those of a unit with so many tokens.
    pub(crate) fn of(
        alloc: Global,
        lines: &Lines,
        text: &UnitText,
        count: u32,
    ) -> Result<Left, Memory>
        requires count { count ≡ length text.now.toks }
        ensures { IfOk result (λ left. IsLeftOf (is_gone lines.now text.now) count left) }
    {
        let gone = marks_of(alloc, lines, text, count)?;
        let places = places_of(alloc, &gone)?;
        Ok(Left { gone, places })
    }

    /// Whether token `k` is gone.
    pub(crate) fn is_gone(&self, k: u32) -> bool
        ensures { result ≡ mark_at self.now.gone.items k }
    {
        let place = k as usize;
        if place < self.gone.len() {
            self.gone[place]
        } else {
            false
        }
    }

    /// How many tokens before token `k` are left; none past the end.
    pub(crate) fn place(&self, k: u32) -> Option<u32>
        ensures { result ≡ slice_get self.now.places.items k }
    {
        self.places.get(k as usize).copied()
    }

    /// A number is the place of token `k`.
    pub(crate) fn is_at(&self, k: u32, at: u32) -> bool
        ensures { IsTrue result → slice_get self.now.places.items k ≡ Some at }
    {
        match self.place(k) {
            Some(place) => place == at,
            None => false,
        }
    }
}
