// Lists of parts, one behind another in one vector.
ghost use Rattle.std.specs.Prelude.{◌≡◌, ◌≤◌, ◌++◌, ◌∷◌, [], OnOk, OnErr, length, slice_index_or, slice_range};

use cs_base::{Memory, Part};
use std::alloc::Global;
use std::marker::Model;

/// Lists of parts under the numbers 0, 1, .. Contracts see the list of them.
#[derive(Drop)]
pub(crate) struct PartLists {
    parts: Vec<Part>,
    // Where each list ends among the parts.
    ends: Vec<usize>,
}

impl Model for PartLists {
    ghost use Rattle.std.specs.Prelude.{List, length};
    ghost use Rattle.cs_base.specs.declared.positions.Part.{Part};
    ghost use Rattle.analysis.specs.Segments.{segments, AreEnds};

    ghost Value = { List (List Part) };

    ghost view = { λ l. segments 0 l.ends.items l.parts.items };

    ghost invariant = { λ l. AreEnds 0 l.ends.items (length l.parts.items) };
}

impl PartLists {
    pub(crate) fn new(alloc: Global) -> PartLists
        ensures { result ≡ [] }
    {
        PartLists {
            parts: Vec::new(alloc),
            ends: Vec::new(alloc),
        }
    }

    /// A list more, which gets the next number.
    pub(crate) fn push(&mut self, list: &[Part]) -> Result<(), Memory>
        ensures ok { OnOk result (self.new ≡ self.old ++ list.now ∷ []) }
        ensures err { OnErr result (self.new ≡ self.old) }
    {
        self.ends.reserve(1)?;
        self.parts.extend_from_slice(list)?;
        self.ends.push(self.parts.len()).unwrap();
        Ok(())
    }

    /// The list with this number; an empty one past the last.
    pub(crate) fn get(&self, number: u32) -> &[Part]
        ensures { result.now ≡ slice_index_or self.now number [] }
    {
        let place = number as usize;
        if place >= self.ends.len() {
            return &[];
        }
        between(&self.parts, begin_at(&self.ends, place), self.ends[place])
    }
}

// The parts from one place to another.
fn between(parts: &[Part], begin: usize, end: usize) -> &[Part]
    requires up { begin ≤ end }
    requires within { end ≤ length parts.now }
    ensures { result.now ≡ slice_range parts.now begin end }
{
    &parts[begin..end]
}

// Where the list at a place begins.
fn begin_at(ends: &[usize], place: usize) -> usize
    requires { place ≤ length ends.now }
    ensures { result ≡ slice_index_or (0 ∷ ends.now) place 0 }
{
    if place == 0 { 0 } else { ends[place - 1] }
}
