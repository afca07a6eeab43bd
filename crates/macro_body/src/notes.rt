// What an expansion does on the way.
ghost use Rattle.std.specs.Prelude.{◌≡◌, [], ◌∷◌, IfOk};
ghost use Rattle.cs_base.specs.Token.{Token};
ghost use Rattle.macro_body.specs.Notes.{Replaced, Linked, Stringized, Pasted, Counted};

use crate::shared_tokens::{push_shared, shared};
use cs_base::{Link, Memory, Pos, Tok};
use std::alloc::Global;
use std::marker::Model;

/// A replaced name: the position of the name in its macro's definition, or none for the first
/// definitions of `__LINE__`, `__FILE__` and `__COUNTER__`; and how many tokens were put out before.
#[derive(Drop)]
pub struct Replacement {
    pub name: Tok,
    pub def: Option<Pos>,
    pub before: u32,
}

/// The work that an expansion may still do: each replacement takes one and the number of the tokens
/// that it puts in; and the number for which the next `__COUNTER__` stands.
#[derive(Clone, Copy, Debug, PartialEq, Eq)]
pub struct Work {
    pub left: u32,
    pub counter: u32,
}

/// What expansions did, in order: links of replaced names with the names of their macros, tokens made
/// by `##`, tokens that strings were made of by `#`, replacements, and numbers of the unit.
#[derive(Drop)]
pub struct Notes {
    links: Vec<Link>,
    pasted: Vec<Tok>,
    stringized: Vec<Tok>,
    replaced: Vec<Replacement>,
    counted: Vec<Tok>,
}

impl Model for Notes {
    ghost use Rattle.macro_body.specs.Kept.{Kept, kept};

    ghost Value = { Kept };

    ghost view = { λ n. kept n.links.items n.pasted.items n.stringized.items n.replaced.items n.counted.items };
}

impl Notes {
    ghost use Rattle.macro_body.specs.Kept.{kept, kept_with};

    pub fn new(alloc: Global) -> Notes
        ensures { result ≡ kept [] [] [] [] [] }
    {
        Notes {
            links: Vec::new(alloc),
            pasted: Vec::new(alloc),
            stringized: Vec::new(alloc),
            replaced: Vec::new(alloc),
            counted: Vec::new(alloc),
        }
    }

    pub fn links(&self) -> &[Link]
        ensures { result.now ≡ self.now.links }
    {
        self.links.as_slice()
    }

    pub fn pasted(&self) -> &[Tok]
        ensures { result.now ≡ self.now.pasted }
    {
        self.pasted.as_slice()
    }

    pub fn stringized(&self) -> &[Tok]
        ensures { result.now ≡ self.now.stringized }
    {
        self.stringized.as_slice()
    }

    pub fn replaced(&self) -> &[Replacement]
        ensures { result.now ≡ self.now.replaced }
    {
        self.replaced.as_slice()
    }

    /// The lists themselves: links, pasted tokens, tokens that strings were made of, replacements, and numbers of
    /// the unit.
    pub fn into_lists(self) -> (Vec<Link>, Vec<Tok>, Vec<Tok>, Vec<Replacement>, Vec<Tok>)
        ensures { self ≡ kept result.0.items result.1.items result.2.items result.3.items result.4.items }
    {
        let Notes {
            links,
            pasted,
            stringized,
            replaced,
            counted,
        } = self;
        (links, pasted, stringized, replaced, counted)
    }

    // A name is replaced, whose macro has the name `macro_name`.
    pub fn note_replaced(&mut self, name: &Tok, macro_name: &Tok, before: u32) -> Result<(), Memory>
        ensures { IfOk result (λ _. self.new ≡ kept_with self.old (Replaced name.now macro_name.now before ∷ [])) }
    {
        self.replaced.push(Replacement {
            name: shared(name)?,
            def: macro_name.origins(0),
            before,
        })?;
        Ok(())
    }

    // A name is linked with that of its macro.
    pub fn note_linked(&mut self, name: &Tok, macro_name: &Tok) -> Result<(), Memory>
        ensures { IfOk result (λ _. self.new ≡ kept_with self.old (Linked name.now macro_name.now ∷ [])) }
    {
        self.links.push(Link {
            x: shared(name)?,
            y: shared(macro_name)?,
        })?;
        Ok(())
    }

    // The next number of the unit stands for a name.
    pub fn note_counted(&mut self, number: &Tok) -> Result<(), Memory>
        ensures { IfOk result (λ _. self.new ≡ kept_with self.old (Counted number.now ∷ [])) }
    {
        self.counted.push(shared(number)?)?;
        Ok(())
    }

    // A `##` makes a token.
    pub(crate) fn note_pasted(&mut self, made: &Tok) -> Result<(), Memory>
        ensures { IfOk result (λ _. (x y : Token) → self.new ≡ kept_with self.old (Pasted x y made.now ∷ [])) }
    {
        self.pasted.push(shared(made)?)?;
        Ok(())
    }

    // A `#` makes a string of tokens.
    pub(crate) fn note_stringized(&mut self, toks: &[Tok]) -> Result<(), Memory>
        ensures { IfOk result (λ _. (s : Token) → self.new ≡ kept_with self.old (Stringized toks.now s ∷ [])) }
    {
        push_shared(&mut self.stringized, toks)
    }
}
