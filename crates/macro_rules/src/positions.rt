// Positions, and whether one is among them.
ghost use Rattle.std.specs.Prelude.{◌≡◌, ◌++◌, ◌∷◌, [], true, slice_index_or, slice_set, IfOk, OnOk};
ghost use Rattle.macro_rules.specs.Positions.{is_pos, has, slot_of, AreMet};

use cs_base::{Memory, Pos};
use indexmap::IndexSet;
use std::alloc::Global;
use std::marker::Model;

// How many slots there are.
const SLOTS: usize = 4096;

// The slot of a position.
fn slot_of(p: Pos) -> usize
    ensures { result ≡ slot_of p }
{
    (p.at as usize + 64 * (p.file as usize)) % SLOTS
}

// A mark at the slot of each position of a list: a first test, which most of the other positions do not pass. Contracts see
// the list of them.
#[derive(Drop)]
struct Slots {
    marks: Vec<bool>,
}

impl Model for Slots {
    ghost use Rattle.std.specs.Prelude.{List, Bool};

    ghost Value = { List Bool };

    ghost view = { λ s. s.marks.items };
}

impl Slots {
    // No mark.
    fn new(alloc: Global) -> Result<Slots, Memory>
        ensures { IfOk result (AreMet []) }
    {
        Ok(Slots {
            marks: vec![in alloc; false; SLOTS]?,
        })
    }

    // One more, if there is such a slot.
    fn mark(&mut self, p: Pos)
        ensures { self.new ≡ slice_set self.old (slot_of p) true }
    {
        let slot = slot_of(p);
        if slot < self.marks.len() {
            self.marks[slot] = true;
        }
    }

    // Whether the slot of a position is marked, or is none.
    fn is_marked(&self, p: Pos) -> bool
        ensures { result ≡ slice_index_or self.now (slot_of p) true }
    {
        let slot = slot_of(p);
        if slot < self.marks.len() {
            self.marks[slot]
        } else {
            true
        }
    }
}

/// Positions, as they were met. Contracts see a list.
#[derive(Drop)]
pub(crate) struct Positions {
    all: Vec<Pos>,
    set: IndexSet<(u32, u32)>,
    slots: Slots,
}

impl Model for Positions {
    ghost use Rattle.std.specs.Prelude.{List};
    ghost use Rattle.cs_base.specs.declared.positions.Pos.{Pos};
    ghost use Rattle.macro_rules.specs.Positions.{IsSet, AreMet};

    ghost Value = { List Pos };

    ghost view = { λ p. p.all.items };

    ghost invariant = { λ p. IsSet p.all.items p.set × AreMet p.all.items p.slots };
}

/// Whether two positions are one.
pub(crate) fn is_pos(p: Pos, q: Pos) -> bool
    ensures { result ≡ is_pos p q }
{
    p.file == q.file && p.at == q.at
}

impl Positions {
    /// None.
    pub(crate) fn new(alloc: Global) -> Result<Positions, Memory>
        ensures { IfOk result (λ p. p ≡ []) }
    {
        let slots = Slots::new(alloc)?;
        Ok(Positions {
            all: Vec::new(alloc),
            set: IndexSet::new(alloc),
            slots,
        })
    }

    /// One more.
    pub(crate) fn push(&mut self, p: Pos) -> Result<(), Memory>
        ensures { OnOk result (self.new ≡ self.old ++ p ∷ []) }
    {
        self.all.reserve(1)?;
        self.set.insert((p.file, p.at))?;
        self.slots.mark(p);
        self.all.push(p).unwrap();
        Ok(())
    }

    /// Whether a position is among them.
    pub(crate) fn has(&self, p: Pos) -> bool
        ensures { result ≡ has self.now p }
    {
        if self.slots.is_marked(p) {
            self.set.contains(&(p.file, p.at))
        } else {
            false
        }
    }
}
