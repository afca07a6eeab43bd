// Where the names of a unit are mentioned first and last.
ghost use Rattle.std.specs.Prelude.{◌≡◌, ◌<◌, ◌+◌, ℕ, List, None, Some, IfOk, OnOk, length};
ghost use Rattle.trim_rules.specs.Mentions.{is_outside_of, is_told_outside, told_at, widened, with_items, with_token, with_tokens, AreMentions, HasNames, Widens};

use crate::reached::toks_reached;
use analysis::{Analysis, Event, Reached, UnitText};
use cs_base::{Memory, Tok};
use indexmap::IndexMap;
use std::alloc::Global;
use unused_names::{gives_meaning, name_of};

/// How many events come before the first item that mentions a name, and how many before the last.
#[derive(Clone, Copy)]
pub struct Mention {
    pub first: u32,
    pub last: u32,
}

// The mention with one more.
fn widened(mention: Option<Mention>, behind: u32) -> Mention
    ensures { result ≡ widened mention behind }
{
    match mention {
        None => Mention {
            first: behind,
            last: behind,
        },
        Some(mention) => Mention {
            first: mention.first.min(behind),
            last: mention.last.max(behind),
        },
    }
}

// Whether some mention is outside an inclusion.
fn is_outside_of(mention: Option<Mention>, k: usize, end: usize) -> bool
    ensures { result ≡ is_outside_of k end mention }
{
    match mention {
        Some(mention) => mention.first as usize <= k || mention.last as usize > end,
        None => false,
    }
}

/// The mentions of the names to which a unit gives meanings, or from which it takes them. The keys are lent by the unit.
#[derive(Drop)]
pub(crate) struct Mentions<'a> {
    spans: IndexMap<&'a [u8], Option<Mention>>,
}

impl<'a> Mentions<'a> {
    fn new(alloc: Global) -> Mentions<'a>
        ensures { (name : List ℕ) → told_at result.spans name ≡ None }
    {
        Mentions {
            spans: IndexMap::new(alloc),
        }
    }

    // What is known of a spelling; none where it is no such name.
    fn told(&self, text: &'a [u8]) -> Option<Option<Mention>>
        ensures { result ≡ told_at self.now.spans text.now }
    {
        self.spans.get(&text).copied()
    }

    // The name of the next event is looked for, if that gives it a meaning.
    fn add_name(&mut self, events: &'a [Event], k: usize) -> Result<(), Memory>
        requires within { k < length events.now }
        requires before { HasNames events.now k (told_at self.old.spans) }
        ensures { OnOk result (HasNames events.now (k + 1) (told_at self.new.spans)) }
    {
        let event = &events[k];
        if !gives_meaning(event.kind) {
            return Ok(());
        }
        self.spans.insert(name_of(event), None)?;
        Ok(())
    }

    // The names that events give meanings.
    fn names(alloc: Global, events: &'a [Event]) -> Result<Mentions<'a>, Memory>
        ensures { IfOk result (λ m. HasNames events.now (length events.now) (told_at m.spans)) }
    {
        let mut mentions = Mentions::new(alloc);
        for k in 0..events.len() {
            mentions.add_name(events, k)?;
        }
        Ok(mentions)
    }

    // A token mentions its spelling, behind so many events.
    fn add_tok(&mut self, tok: &'a Tok, behind: u32) -> Result<(), Memory>
        ensures { OnOk result (Widens (λ name m. with_token name behind m tok.now) (told_at self.old.spans) (told_at self.new.spans)) }
    {
        let text = tok.text();
        let Some(mention) = self.told(text) else {
            return Ok(());
        };
        self.spans.insert(text, Some(widened(mention, behind)))?;
        Ok(())
    }

    // So do these.
    fn add_toks(&mut self, toks: &'a [Tok], behind: u32) -> Result<(), Memory>
        ensures { OnOk result (Widens (λ name m. with_tokens name behind m toks.now) (told_at self.old.spans) (told_at self.new.spans)) }
    {
        for tok in toks {
            self.add_tok(tok, behind)?;
        }
        Ok(())
    }

    // So do the tokens of items that were reached.
    fn add_items(&mut self, a: &'a Analysis, reached: &[Reached]) -> Result<(), Memory>
        ensures { OnOk result (Widens (λ name m. with_items a.now.value.table name m reached.now) (told_at self.old.spans) (told_at self.new.spans)) }
    {
        for one in reached {
            self.add_toks(toks_reached(a, one), one.events)?;
        }
        Ok(())
    }

    /// Those of a unit.
    pub(crate) fn of(
        alloc: Global,
        a: &'a Analysis,
        text: &'a UnitText,
    ) -> Result<Mentions<'a>, Memory>
        ensures { IfOk result (λ m. AreMentions a.now.value.table text.now (told_at m.spans)) }
    {
        let mut mentions = Mentions::names(alloc, text.events())?;
        mentions.add_toks(text.pasted(), 0)?;
        mentions.add_items(a, text.reached())?;
        Ok(mentions)
    }

    /// Whether a name is mentioned outside an inclusion.
    pub(crate) fn is_mentioned(&self, name: &'a [u8], k: usize, end: usize) -> bool
        ensures { result ≡ is_told_outside k end (told_at self.now.spans name.now) }
    {
        match self.told(name) {
            Some(mention) => is_outside_of(mention, k, end),
            None => false,
        }
    }
}
