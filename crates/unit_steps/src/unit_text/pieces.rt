// Pieces of the text of a unit.
ghost use Rattle.std.specs.Prelude.{◌≡◌, ◌++◌, IfOk};
ghost use Rattle.unit_steps.specs.Keeping.{no_text};
ghost use Rattle.unit_steps.specs.Pieces.{mark_of, IsWithin, piece_of, joined, with_tokens};

use super::UnitText;
use crate::events::{Event, Reached};
use cs_base::{Link, Memory, Tok};
use macro_expand::{push_shared, shared};
use std::alloc::Global;

/// A place in the text of a unit: how long each of its lists was when the text came so far.
#[derive(Clone, Copy, Debug, PartialEq, Eq)]
pub struct Mark {
    pub toks: usize,
    pub links: usize,
    pub pasted: usize,
    pub stringized: usize,
    pub header: usize,
    pub answers: usize,
    pub reached: usize,
    pub events: usize,
}

impl Mark {
    /// The place where each text begins.
    pub fn first() -> Mark
        ensures { result ≡ mark_of no_text }
    {
        Mark {
            toks: 0,
            links: 0,
            pasted: 0,
            stringized: 0,
            header: 0,
            answers: 0,
            reached: 0,
            events: 0,
        }
    }
}

impl UnitText {
    /// The place where it ends so far.
    pub fn mark(&self) -> Mark
        ensures { result ≡ mark_of self.now }
    {
        Mark {
            toks: self.toks.len(),
            links: self.links.len(),
            pasted: self.pasted.len(),
            stringized: self.stringized.len(),
            header: self.header.len(),
            answers: self.answers.len(),
            reached: self.reached.len(),
            events: self.events.len(),
        }
    }

    /// What of it stands between two places. Texts and origins of tokens are shared.
    pub fn piece(&self, alloc: Global, from: Mark, to: Mark) -> Result<UnitText, Memory>
        requires within { IsWithin from to self.now }
        ensures { IfOk result (λ piece. piece ≡ piece_of from to self.now) }
    {
        let mut piece = UnitText::new(alloc);
        piece.push_piece(self, from, to)?;
        Ok(piece)
    }

    /// Puts what of another text stands between two places behind it.
    pub fn push_piece(&mut self, other: &UnitText, from: Mark, to: Mark) -> Result<(), Memory>
        requires within { IsWithin from to other.now }
        ensures { IfOk result (λ _. self.new ≡ joined self.old (piece_of from to other.now)) }
    {
        self.push_tokens(other, from, to)?;
        push_links(&mut self.links, &other.links[from.links..to.links])?;
        push_reached(&mut self.reached, &other.reached[from.reached..to.reached])?;
        push_events(&mut self.events, &other.events[from.events..to.events])
    }

    /// Puts another text behind it.
    pub fn push_text(&mut self, other: &UnitText) -> Result<(), Memory>
        ensures { IfOk result (λ _. self.new ≡ joined self.old other.now) }
    {
        self.push_piece(other, Mark::first(), other.mark())
    }

    // Puts what of its lists of tokens stands between two places behind those of this one.
    fn push_tokens(&mut self, other: &UnitText, from: Mark, to: Mark) -> Result<(), Memory>
        requires within { IsWithin from to other.now }
        ensures { IfOk result (λ _. self.new ≡ with_tokens self.old (piece_of from to other.now)) }
    {
        push_toks(&mut self.toks, &other.toks[from.toks..to.toks])?;
        push_toks(&mut self.pasted, &other.pasted[from.pasted..to.pasted])?;
        push_toks(
            &mut self.stringized,
            &other.stringized[from.stringized..to.stringized],
        )?;
        push_toks(&mut self.header, &other.header[from.header..to.header])?;
        push_toks(&mut self.answers, &other.answers[from.answers..to.answers])
    }
}

// Adds the same tokens.
fn push_toks(all: &mut Vec<Tok>, toks: &[Tok]) -> Result<(), Memory>
    ensures { IfOk result (λ _. all.new.items ≡ all.old.items ++ toks.now) }
{
    all.reserve(toks.len())?;
    push_shared(all, toks)
}

// Adds the same links.
fn push_links(all: &mut Vec<Link>, links: &[Link]) -> Result<(), Memory>
    ensures { IfOk result (λ _. all.new.items ≡ all.old.items ++ links.now) }
{
    all.reserve(links.len())?;
    for link in links {
        all.push(Link {
            x: shared(&link.x)?,
            y: shared(&link.y)?,
        })?;
    }
    Ok(())
}

// Adds the same items that were reached.
fn push_reached(all: &mut Vec<Reached>, reached: &[Reached]) -> Result<(), Memory>
    ensures { IfOk result (λ _. all.new.items ≡ all.old.items ++ reached.now) }
{
    all.reserve(reached.len())?;
    for item in reached {
        all.push(*item)?;
    }
    Ok(())
}

// Adds the same events.
fn push_events(all: &mut Vec<Event>, events: &[Event]) -> Result<(), Memory>
    ensures { IfOk result (λ _. all.new.items ≡ all.old.items ++ events.now) }
{
    all.reserve(events.len())?;
    for event in events {
        all.push(event.copied()?)?;
    }
    Ok(())
}
