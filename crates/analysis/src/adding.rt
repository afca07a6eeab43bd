// Tokens that are added to a table of classes, in the order of their places.
ghost use Rattle.std.specs.Prelude.{◌≡◌, ◌≤◌, ◌<◌, ◌+◌, ◌^◌, ◌++◌, ◌∷◌, [], IsTrue, OnOk};
ghost use Rattle.eclass_map.specs.ClassTable.{AreLinks, HasParts, added_tokens};
ghost use Rattle.analysis.specs.Adding.{Follows};
ghost use Rattle.analysis.specs.FileTokens.{span_of};

use cs_base::{Memory, Part, Pos, Tok};
use eclass_map::Classes;
use std::alloc::Global;
use std::marker::Model;

/// A table of classes to which tokens are added, each behind those before it. Contracts see the added tokens,
/// in order.
#[derive(Drop)]
pub(crate) struct Adding {
    classes: Classes,
    end: Pos,
    count: u32,
}

impl Model for Adding {
    ghost use Rattle.std.specs.Prelude.{List};
    ghost use Rattle.cs_base.specs.declared.positions.Part.{Part};
    ghost use Rattle.eclass_map.specs.ClassTable.{added_tokens};
    ghost use Rattle.analysis.specs.Adding.{IsAdding};

    ghost Value = { List Part };

    ghost view = { λ a. added_tokens a.classes };

    ghost invariant = { λ a. IsAdding a.classes a.end a.count };
}

impl Adding {
    pub(crate) fn new(alloc: Global) -> Adding
        ensures { result ≡ [] }
    {
        Adding {
            classes: Classes::new(alloc),
            end: Pos { file: 0, at: 0 },
            count: 0,
        }
    }

    /// Adds a token. One without characters, one that begins before the end of the last one, and characters
    /// past the numbers that they can have are answered by `Memory`.
    pub(crate) fn add(&mut self, tok: &Tok) -> Result<(), Memory>
        ensures { OnOk result (self.new ≡ self.old ++ span_of tok.now ∷ []) }
    {
        let place = span(tok);
        if !follows(self.end, self.count, place) {
            return Err(Memory);
        }
        let start = place.start;
        self.classes.add_token(start.file, start.at, place.len)?;
        self.end = Pos {
            file: start.file,
            at: start.at + place.len,
        };
        self.count += place.len;
        Ok(())
    }

    /// The table.
    pub(crate) fn into_classes(self) -> Classes
        ensures tokens { added_tokens result ≡ self }
        ensures links { AreLinks [] result }
        ensures parts { HasParts result }
    {
        let Adding { classes, .. } = self;
        classes
    }
}

/// Where a token begins, and how many characters it has.
pub(crate) fn span(tok: &Tok) -> Part
    ensures { result ≡ span_of tok.now }
{
    Part {
        start: tok.origins(0).unwrap_or(Pos { file: 0, at: 0 }),
        len: tok.text().len() as u32,
    }
}

// Whether a token can be added behind so many characters that end here.
fn follows(end: Pos, count: u32, token: Part) -> bool
    ensures { IsTrue result → Follows end count token }
{
    token.len > 0
        && is_behind(end, token.start)
        && fits(token.start.at, token.len)
        && fits(count, token.len)
}

fn is_behind(end: Pos, start: Pos) -> bool
    ensures file { IsTrue result → end.file ≤ start.file }
    ensures at { IsTrue result → end.file ≡ start.file → end.at ≤ start.at }
{
    end.file < start.file || (end.file == start.file && end.at <= start.at)
}

fn fits(from: u32, len: u32) -> bool
    ensures { IsTrue result → from + len < 2 ^ 32 }
{
    len <= u32::MAX - from
}
