// What is listed.
ghost use Rattle.std.specs.Prelude.{◌≡◌};

use crate::counted::Counted;
use std::marker::Model;

/// Tokens that stand side by side: the first one, and the one behind the last.
#[derive(Clone, Copy, Debug, PartialEq, Eq)]
pub struct Adjacent {
    pub from: u32,
    pub to: u32,
}

/// Identifiers that may denote nothing; texts for the assembler; what may count parameters of a name, and its names for
/// the assembler; and the `{` of blocks in expressions.
#[derive(Drop)]
pub(crate) struct Listing {
    pub places: Vec<u32>,
    pub texts: Vec<Adjacent>,
    pub counts: Vec<Counted>,
    pub symbols: Vec<Counted>,
    pub begins: Vec<u32>,
}

/// What is listed. Contracts see lists.
#[derive(Drop)]
pub struct Lists {
    listing: Listing,
}

impl Model for Lists {
    ghost use Rattle.gnu_lists.specs.Lists.{Listed};

    ghost Value = { Listed };

    ghost view = { λ l. record { places = l.listing.places.items; texts = l.listing.texts.items; counts = l.listing.counts.items; symbols = l.listing.symbols.items; begins = l.listing.begins.items } };
}

impl Lists {
    pub(crate) fn new(listing: Listing) -> Lists
        ensures { result ≡ record { places = listing.places.items; texts = listing.texts.items; counts = listing.counts.items; symbols = listing.symbols.items; begins = listing.begins.items } }
    {
        Lists { listing }
    }

    /// Identifiers that may denote nothing: names of attributes and of operands of `asm`, and those in expressions.
    pub fn places(&self) -> &[u32]
        ensures { result.now ≡ self.now.places }
    {
        &self.listing.places
    }

    /// Strings that reach the assembler and may have names of symbols in them.
    pub fn texts(&self) -> &[Adjacent]
        ensures { result.now ≡ self.now.texts }
    {
        &self.listing.texts
    }

    /// What may count the parameters of a declared name: numbers in its attributes, and that it has no code of the
    /// compiler's own.
    pub fn counts(&self) -> &[Counted]
        ensures { result.now ≡ self.now.counts }
    {
        &self.listing.counts
    }

    /// Strings by which a declared name goes for the assembler.
    pub fn symbols(&self) -> &[Counted]
        ensures { result.now ≡ self.now.symbols }
    {
        &self.listing.symbols
    }

    /// The `{` of each block in an expression.
    pub fn begins(&self) -> &[u32]
        ensures { result.now ≡ self.now.begins }
    {
        &self.listing.begins
    }
}
