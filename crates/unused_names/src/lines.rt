// The include lines of a workspace, and which of them some inclusion needs.
ghost use Rattle.std.specs.Prelude.{◌≡◌, ◌<◌, ◌+◌, [], false, IfOk, OnOk, MatchBool, length};
ghost use Rattle.cs_base.specs.declared.positions.Pos.{Pos};
ghost use Rattle.unused_names.specs.LastUses.{last_at, AreLast};
ghost use Rattle.unused_names.specs.Lines.{AreLines, GoOn, MeetsLine, has_position, lines_in};
ghost use Rattle.unused_names.specs.Spans.{AreSpans};
ghost use Rattle.unused_names.specs.Unneeded.{IsUnneeded};

use crate::counting::any_counts;
use crate::inclusions::{end_of, is_enter, tokens_before};
use crate::last_uses::{LastUses, any_means_behind};
use crate::spans::{Span, any_reaches_out, count_of, spans};
use analysis::{Analysis, Bound, UnitText};
use cs_base::{Memory, Pos};
use indexmap::IndexSet;
use std::alloc::Global;

// Whether what an inclusion brings is not used outside it.
fn is_unneeded(
    text: &UnitText,
    bound: &Bound,
    count: u32,
    spans: &[Option<Span>],
    uses: &LastUses<'_>,
    k: usize,
) -> bool
    requires count { count ≡ length text.now.toks }
    requires spans { AreSpans bound.now.names count spans.now }
    requires uses { AreLast text.now.events (length text.now.events) (last_at uses.now.numbers) }
    requires within { k < length text.now.events }
    ensures { MatchBool result (IsUnneeded text.now bound.now.names k) (IsUnneeded text.now bound.now.names k → ⊥) }
{
    let events = text.events();
    let end = end_of(events, k);
    let from = tokens_before(text, count, k);
    let to = tokens_before(text, count, end);
    if any_reaches_out(bound, count, spans, from, to) {
        return false;
    }
    if any_counts(events, k, end) {
        return false;
    }
    !any_means_behind(events, uses, k, end)
}

/// The `#` of each include line, for each time that it is processed; and those that some inclusion needs.
#[derive(Drop)]
pub(crate) struct Lines {
    all: Vec<Pos>,
    needed: IndexSet<(u32, u32)>,
}

impl Lines {
    fn new(alloc: Global) -> Lines
        ensures all { result.all.items ≡ [] }
        ensures needs { (p : Pos) → has_position result.needed p ≡ false }
    {
        Lines {
            all: Vec::new(alloc),
            needed: IndexSet::new(alloc),
        }
    }

    /// All, as they were met.
    pub(crate) fn all(&self) -> &[Pos]
        ensures { result.now ≡ self.now.all.items }
    {
        self.all.as_slice()
    }

    /// Whether some inclusion by the line needs it.
    pub(crate) fn needs(&self, p: Pos) -> bool
        ensures { result ≡ has_position self.now.needed p }
    {
        self.needed.contains(&(p.file, p.at))
    }

    // Adds a line, for one inclusion.
    fn push(&mut self, at: Pos, unneeded: bool) -> Result<(), Memory>
        ensures { OnOk result (MeetsLine at unneeded (lines_in self.old.all.items self.old.needed) (lines_in self.new.all.items self.new.needed)) }
    {
        self.all.push(at)?;
        if unneeded {
            return Ok(());
        }
        self.needed.insert((at.file, at.at))?;
        Ok(())
    }

    // Adds the line of an event, if that begins an inclusion.
    fn push_event(
        &mut self,
        text: &UnitText,
        bound: &Bound,
        count: u32,
        spans: &[Option<Span>],
        uses: &LastUses<'_>,
        k: usize,
    ) -> Result<(), Memory>
        requires count { count ≡ length text.now.toks }
        requires spans { AreSpans bound.now.names count spans.now }
        requires uses { AreLast text.now.events (length text.now.events) (last_at uses.now.numbers) }
        requires within { k < length text.now.events }
        ensures { OnOk result (GoOn text.now bound.now.names k (k + 1) (lines_in self.old.all.items self.old.needed) (lines_in self.new.all.items self.new.needed)) }
    {
        let events = text.events();
        let event = &events[k];
        if !is_enter(event.kind) {
            return Ok(());
        }
        let unneeded = is_unneeded(text, bound, count, spans, uses, k);
        self.push(event.at, unneeded)?;
        Ok(())
    }

    // Adds the lines of a unit.
    fn push_unit(&mut self, alloc: Global, text: &UnitText, bound: &Bound) -> Result<(), Memory>
        ensures { OnOk result (GoOn text.now bound.now.names 0 (length text.now.events) (lines_in self.old.all.items self.old.needed) (lines_in self.new.all.items self.new.needed)) }
    {
        let count = count_of(text.toks())?;
        let spans = spans(alloc, bound, count)?;
        let events = text.events();
        let uses = LastUses::of(alloc, events)?;
        for k in 0..events.len() {
            self.push_event(text, bound, count, &spans, &uses, k)?;
        }
        Ok(())
    }

    /// Those of a workspace.
    pub(crate) fn of(alloc: Global, a: &Analysis) -> Result<Lines, Memory>
        ensures { IfOk result (λ l. AreLines a.now.value.units (length a.now.value.units) 0 (lines_in l.all.items l.needed)) }
    {
        let mut lines = Lines::new(alloc);
        for unit in 0..a.units() {
            let one = a.unit(alloc, unit + 1)?;
            lines.push_unit(alloc, one.text(), one.bound())?;
        }
        Ok(lines)
    }
}
