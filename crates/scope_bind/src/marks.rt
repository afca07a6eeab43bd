// Numbers with marks.
ghost use Rattle.std.specs.Prelude.{◌≡◌, ◌≤◌, ℕ, ◌++◌, [], ◌∷◌, false, length, get_or, OnOk, OnErr};
ghost use Rattle.c_types.specs.Declarations.{is_in};

use cs_base::Memory;
use std::alloc::Global;
use std::marker::Model;

/// Numbers, of each of which it is known at once whether it is among them. Contracts see a list.
#[derive(Drop)]
pub(crate) struct Marks {
    numbers: Vec<u32>,
    // for each number whether it is among them
    marks: Vec<bool>,
}

impl Model for Marks {
    ghost use Rattle.std.specs.Prelude.{ℕ, List};
    ghost use Rattle.scope_bind.specs.Marks.{AreMarked};

    ghost Value = { List ℕ };

    ghost view = { λ m. m.numbers.items };

    ghost invariant = { λ m. AreMarked m.numbers.items m.marks.items };
}

// Room for so many marks, of which the new ones are not set.
fn grow(marks: &mut Vec<bool>, count: usize) -> Result<(), Memory>
    ensures same { (k : ℕ) → get_or marks.new.items k false ≡ get_or marks.old.items k false }
    ensures room { OnOk result (count ≤ length marks.new.items) }
{
    let len = marks.len();
    'room: for k in len..count {
        marks.push(false)?;
    }
    Ok(())
}

impl Marks {
    pub(crate) fn new(alloc: Global) -> Marks
        ensures { result ≡ [] }
    {
        Marks {
            numbers: Vec::new(alloc),
            marks: Vec::new(alloc),
        }
    }

    pub(crate) fn push(&mut self, number: u32) -> Result<(), Memory>
        ensures ok { OnOk result (self.new ≡ self.old ++ number ∷ []) }
        ensures unchanged { OnErr result (self.new ≡ self.old) }
    {
        let at = number as usize;
        self.numbers.reserve(1)?;
        grow(&mut self.marks, at + 1)?;
        self.numbers.push(number).unwrap();
        self.marks[at] = true;
        Ok(())
    }

    pub(crate) fn has(&self, number: u32) -> bool
        ensures { result ≡ is_in self.now number }
    {
        match self.marks.get(number as usize) {
            Some(mark) => *mark,
            None => false,
        }
    }

    pub(crate) fn as_slice(&self) -> &[u32]
        ensures { result.now ≡ self.now }
    {
        self.numbers.as_slice()
    }
}
