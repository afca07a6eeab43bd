// A unit that is preprocessed.
ghost use Rattle.std.specs.Prelude.{◌≡◌};
ghost use Rattle.unit_steps.specs.Texts.{text_of};

mod noting;
mod pieces;

use crate::events::{Event, Reached};
use cs_base::{Link, Tok};
pub use pieces::Mark;
use std::marker::Model;

/// The tokens of a unit, and what happened while it was preprocessed. Contracts see the record of its
/// lists.
#[derive(Drop)]
pub struct UnitText {
    toks: Vec<Tok>,
    links: Vec<Link>,
    pasted: Vec<Tok>,
    stringized: Vec<Tok>,
    header: Vec<Tok>,
    answers: Vec<Tok>,
    reached: Vec<Reached>,
    events: Vec<Event>,
}

impl Model for UnitText {
    ghost use Rattle.unit_steps.specs.Texts.{UnitTextValue, text_of};

    ghost Value = { UnitTextValue };

    ghost view = { λ t. text_of t.toks.items t.links.items t.pasted.items t.stringized.items t.header.items t.answers.items t.reached.items t.events.items };
}

impl UnitText {
    /// A text of these parts, each list as it is.
    pub fn of(
        toks: Vec<Tok>,
        links: Vec<Link>,
        pasted: Vec<Tok>,
        stringized: Vec<Tok>,
        header: Vec<Tok>,
        answers: Vec<Tok>,
        reached: Vec<Reached>,
        events: Vec<Event>,
    ) -> UnitText
        ensures { result ≡ text_of toks.items links.items pasted.items stringized.items header.items answers.items
            reached.items events.items }
    {
        UnitText {
            toks,
            links,
            pasted,
            stringized,
            header,
            answers,
            reached,
            events,
        }
    }

    /// The tokens of the unit, in order.
    pub fn toks(&self) -> &[Tok]
        ensures { result.now ≡ self.now.toks }
    {
        self.toks.as_slice()
    }

    /// Names that are linked: with the name of their macro, with the first name of their spelling, and with
    /// the parameter that they use.
    pub fn links(&self) -> &[Link]
        ensures { result.now ≡ self.now.links }
    {
        self.links.as_slice()
    }

    /// The tokens that `##` made, also those that became part of another one.
    pub fn pasted(&self) -> &[Tok]
        ensures { result.now ≡ self.now.pasted }
    {
        self.pasted.as_slice()
    }

    /// The tokens that `#` made strings of.
    pub fn stringized(&self) -> &[Tok]
        ensures { result.now ≡ self.now.stringized }
    {
        self.stringized.as_slice()
    }

    /// The tokens that include lines were expanded to.
    pub fn header(&self) -> &[Tok]
        ensures { result.now ≡ self.now.header }
    {
        self.header.as_slice()
    }

    /// The numbers that stood for operands of `defined`.
    pub fn answers(&self) -> &[Tok]
        ensures { result.now ≡ self.now.answers }
    {
        self.answers.as_slice()
    }

    /// The items that stand in processed groups, in order.
    pub fn reached(&self) -> &[Reached]
        ensures { result.now ≡ self.now.reached }
    {
        self.reached.as_slice()
    }

    /// The events, in order.
    pub fn events(&self) -> &[Event]
        ensures { result.now ≡ self.now.events }
    {
        self.events.as_slice()
    }
}
