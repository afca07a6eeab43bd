// Where names of macros are asked for last.
ghost use Rattle.std.specs.Prelude.{◌≡◌, ◌≤◌, ◌<◌, ◌+◌, ℕ, List, None, IfOk, OnOk, MatchBool, length};
ghost use Rattle.unused_names.specs.LastUses.{last_at, AreLast, MeansBehind};
ghost use Rattle.unused_names.specs.Unneeded.{asks_meaning, gives_meaning, name_of, file_of, subject_of};

use analysis::{Event, EventKind};
use cs_base::Memory;
use indexmap::IndexMap;
use std::alloc::Global;

/// Whether a line gives a name a meaning or takes it away, or says that its file is read once.
pub fn gives_meaning(kind: EventKind) -> bool
    ensures { result ≡ gives_meaning kind }
{
    match kind {
        EventKind::Defined | EventKind::Undefined | EventKind::Once => true,
        _ => false,
    }
}

// Whether a name is asked for, or a file is passed over.
fn asks_meaning(kind: EventKind) -> bool
    ensures { result ≡ asks_meaning kind }
{
    match kind {
        EventKind::Replaced | EventKind::Tested | EventKind::Left | EventKind::Passed => true,
        _ => false,
    }
}

/// The spelling of the name of an event.
pub fn name_of(event: &Event) -> &[u8]
    ensures { result.now ≡ name_of event.now }
{
    match &event.name {
        Some(name) => name.text(),
        None => &[],
    }
}

// The number of the file of an event, if it has one.
fn file_of(event: &Event) -> u32
    ensures { result ≡ file_of event.now }
{
    match event.file {
        Some(number) => number,
        None => 0,
    }
}

// What an event is of: a name or a file.
fn subject_of(event: &Event) -> (u32, &[u8])
    ensures { (result.0, result.1.now) ≡ subject_of event.now }
{
    (file_of(event), name_of(event))
}

/// For a name or a file the number of the last event that asks for it. The names are lent by the events.
#[derive(Drop)]
pub(crate) struct LastUses<'a> {
    numbers: IndexMap<(u32, &'a [u8]), usize>,
}

impl<'a> LastUses<'a> {
    fn new(alloc: Global) -> LastUses<'a>
        ensures { (subject : ℕ × List ℕ) → last_at result.numbers subject ≡ None }
    {
        LastUses {
            numbers: IndexMap::new(alloc),
        }
    }

    // Notes the next event.
    fn add(&mut self, events: &'a [Event], k: usize) -> Result<(), Memory>
        requires within { k < length events.now }
        requires before { AreLast events.now k (last_at self.old.numbers) }
        ensures { OnOk result (AreLast events.now (k + 1) (last_at self.new.numbers)) }
    {
        let event = &events[k];
        if !asks_meaning(event.kind) {
            return Ok(());
        }
        self.numbers.insert(subject_of(event), k)?;
        Ok(())
    }

    /// Those of these events.
    pub(crate) fn of(alloc: Global, events: &'a [Event]) -> Result<LastUses<'a>, Memory>
        ensures { IfOk result (λ uses. AreLast events.now (length events.now) (last_at uses.numbers)) }
    {
        let mut uses = LastUses::new(alloc);
        for k in 0..events.len() {
            uses.add(events, k)?;
        }
        Ok(uses)
    }

    fn last(&self, subject: (u32, &'a [u8])) -> Option<usize>
        ensures { result ≡ last_at self.now.numbers (subject.entry.0, subject.entry.1.now) }
    {
        self.numbers.get(&subject).copied()
    }
}

// Whether an event gives a name a meaning that one from number `end` on asks for.
fn means_behind(events: &[Event], uses: &LastUses<'_>, i: usize, end: usize) -> bool
    requires within { i < length events.now }
    requires last { AreLast events.now (length events.now) (last_at uses.now.numbers) }
    ensures { MatchBool result (MeansBehind events.now i end) (MeansBehind events.now i end → ⊥) }
{
    let event = &events[i];
    if !gives_meaning(event.kind) {
        return false;
    }
    let Some(last) = uses.last(subject_of(event)) else {
        return false;
    };
    if last < end {
        return false;
    }
    true
}

/// Whether some event behind event `k` and before number `end` does.
pub(crate) fn any_means_behind(events: &[Event], uses: &LastUses<'_>, k: usize, end: usize) -> bool
    requires within { end ≤ length events.now }
    requires begins { k < length events.now }
    requires last { AreLast events.now (length events.now) (last_at uses.now.numbers) }
    ensures { MatchBool result ((i : ℕ) × (k < i) × (i < end) × MeansBehind events.now i end)
        ((i : ℕ) → k < i → i < end → MeansBehind events.now i end → ⊥) }
{
    for i in k + 1..end {
        if means_behind(events, uses, i, end) {
            return true;
        }
    }
    false
}
