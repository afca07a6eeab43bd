// What happens is noted in the text of a unit.
ghost use Rattle.std.specs.Prelude.{◌≡◌, ◌<◌, ◌^◌, ◌++◌, ◌∷◌, [], length, map, None, IfOk};
ghost use Rattle.unit_steps.specs.Notes.{Reaches, Linked, Answered, Named, named_event, file_event, before_in};
ghost use Rattle.unit_steps.specs.Keeping.{no_text, noted_in, put_in, replaced_event, expanded_into};

use super::UnitText;
use crate::events::{Event, EventKind, Reached};
use cs_base::{Link, Memory, Pos, Tok};
use macro_expand::{Notes, Replacement, push_shared, shared};
use std::alloc::Global;

#[tactic(auto, unfolding(crate::specs::Texts::reached_in))]
impl UnitText {
    /// Nothing happened yet.
    pub fn new(alloc: Global) -> UnitText
        ensures { result ≡ no_text }
    {
        UnitText {
            toks: Vec::new(alloc),
            links: Vec::new(alloc),
            pasted: Vec::new(alloc),
            stringized: Vec::new(alloc),
            header: Vec::new(alloc),
            answers: Vec::new(alloc),
            reached: Vec::new(alloc),
            events: Vec::new(alloc),
        }
    }

    /// The same text: the room that was taken and not used is given back.
    pub fn settled(mut self) -> UnitText
        ensures { result ≡ self }
    {
        self.toks.shrink_to_fit();
        self.links.shrink_to_fit();
        self.pasted.shrink_to_fit();
        self.stringized.shrink_to_fit();
        self.header.shrink_to_fit();
        self.answers.shrink_to_fit();
        self.reached.shrink_to_fit();
        self.events.shrink_to_fit();
        self
    }

    /// How many tokens were put out.
    pub fn before(&self) -> u32
        requires { length self.now.toks < 2 ^ 32 }
        ensures { result ≡ length self.now.toks }
    {
        self.toks.len() as u32
    }

    /// Tokens are put out.
    pub(crate) fn put(&mut self, toks: Vec<Tok>) -> Result<(), Memory>
        ensures { IfOk result (λ _. self.new ≡ put_in self.old toks.items) }
    {
        append(&mut self.toks, toks)
    }

    /// Two names are linked.
    pub(crate) fn note_linked(&mut self, x: &Tok, y: &Tok) -> Result<(), Memory>
        ensures { IfOk result (λ _. self.new ≡ noted_in self.old (Linked x.now y.now ∷ [])) }
    {
        self.links.push(Link {
            x: shared(x)?,
            y: shared(y)?,
        })?;
        Ok(())
    }

    /// A number stands for an operand of `defined`.
    pub(crate) fn note_answered(&mut self, number: &Tok) -> Result<(), Memory>
        ensures { IfOk result (λ _. self.new ≡ noted_in self.old (Answered number.now ∷ [])) }
    {
        self.answers.push(shared(number)?)?;
        Ok(())
    }

    /// An include line is expanded to these tokens.
    pub fn note_named(&mut self, toks: &[Tok]) -> Result<(), Memory>
        ensures { IfOk result (λ _. self.new ≡ noted_in self.old (Named toks.now ∷ [])) }
    {
        push_shared(&mut self.header, toks)
    }

    /// An item stands in a processed group.
    pub(crate) fn note_reached(
        &mut self,
        file: u32,
        item: u32,
        evaluated: bool,
        before: u32,
    ) -> Result<(), Memory>
        ensures { IfOk result (λ _. self.new ≡ noted_in self.old (Reaches file item evaluated before ∷ [])) }
    {
        if self.events.len() > u32::MAX as usize {
            return Err(Memory);
        }
        let events = self.events.len() as u32;
        self.reached.push(Reached {
            file,
            item,
            evaluated,
            events,
            before,
        })?;
        Ok(())
    }

    /// A name is defined, taken away, asked for or left over.
    pub(crate) fn note_name(
        &mut self,
        kind: EventKind,
        name: &Tok,
        before: u32,
    ) -> Result<(), Memory>
        ensures { IfOk result (λ _. self.new ≡ record self.old { events = self.old.events ++ named_event kind name.now None before ∷ [] }) }
    {
        self.events.push(Event {
            kind,
            name: Some(shared(name)?),
            at: name.at(),
            def: None,
            file: None,
            before,
        })?;
        Ok(())
    }

    /// A file is entered or left by an include line whose `#` is there.
    pub(crate) fn note_file(
        &mut self,
        kind: EventKind,
        at: Pos,
        file: u32,
        before: u32,
    ) -> Result<(), Memory>
        ensures { IfOk result (λ _. self.new ≡ record self.old { events = self.old.events ++ file_event kind at file before ∷ [] }) }
    {
        self.events.push(Event {
            kind,
            name: None,
            at,
            def: None,
            file: Some(file),
            before,
        })?;
        Ok(())
    }

    /// Something happened in an expansion, in that of a run or in another.
    pub(crate) fn note_expanded(
        &mut self,
        run: bool,
        before: u32,
        notes: Notes,
    ) -> Result<(), Memory>
        ensures { IfOk result (λ _. self.new ≡ expanded_into self.old run before notes) }
    {
        let (links, pasted, stringized, replaced, counted) = notes.into_lists();
        append(&mut self.links, links)?;
        append(&mut self.pasted, pasted)?;
        append(&mut self.stringized, stringized)?;
        append(&mut self.answers, counted)?;
        push_replaced(&mut self.events, run, before, replaced)
    }
}

// Moves values behind others.
fn append<T: Drop>(all: &mut Vec<T>, more: Vec<T>) -> Result<(), Memory>
    ensures { IfOk result (λ _. all.new.items ≡ all.old.items ++ more.items) }
{
    let mut more = more;
    all.append(&mut more)?;
    Ok(())
}

// Adds the events of replacements.
fn push_replaced(
    events: &mut Vec<Event>,
    run: bool,
    before: u32,
    replaced: Vec<Replacement>,
) -> Result<(), Memory>
    ensures { IfOk result (λ _. events.new.items ≡ events.old.items ++ map (replaced_event run before) replaced.items) }
{
    for r in replaced {
        events.push(replaced_event(run, before, r)?)?;
    }
    Ok(())
}

// The event of a replacement. More than 2^32 tokens before it are answered by `Memory`.
fn replaced_event(run: bool, before: u32, r: Replacement) -> Result<Event, Memory>
    ensures { IfOk result (λ e. e ≡ replaced_event run before r) }
{
    let Replacement {
        name,
        def,
        before: more,
    } = r;
    let at = name.at();
    Ok(Event {
        kind: EventKind::Replaced,
        name: Some(name),
        at,
        def,
        file: None,
        before: before_in(run, before, more)?,
    })
}

// How many tokens were put out before, with those that an expansion of a run put out.
fn before_in(run: bool, before: u32, more: u32) -> Result<u32, Memory>
    ensures { IfOk result (λ n. n ≡ before_in run before more) }
{
    if !run {
        return Ok(before);
    }
    if more > u32::MAX - before {
        return Err(Memory);
    }
    Ok(before + more)
}
