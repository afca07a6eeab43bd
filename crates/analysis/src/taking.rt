// What is taken of units that are accepted one after another: those that find room are kept.
ghost use Rattle.std.specs.Prelude.{◌≡◌, ◌<◌, ◌++◌, ◌∷◌, [], OnOk};
ghost use Rattle.cs_base.specs.Limits.{most_units};
ghost use Rattle.analysis.specs.FileTokens.{numbers_brought};
ghost use Rattle.analysis.specs.GnuUnits.{gnu_begin};
ghost use Rattle.analysis.specs.MadeAgain.{Takes};

use crate::accepted::UnitParts;
use crate::brought::push_brought;
use cs_base::{Memory, Pos, Tok};
use std::alloc::Global;

/// The first units, which are kept; how many behind them are not; where those of GNU C begin; and the numbers that they bring.
#[derive(Drop)]
pub(crate) struct Taken {
    pub(crate) kept: Vec<UnitParts>,
    pub(crate) others: usize,
    pub(crate) begins: Vec<Option<Pos>>,
    pub(crate) brought: Vec<Tok>,
    // The last one, if it is not kept, until the next one comes.
    last: Option<UnitParts>,
    // How many tokens more find room.
    room: usize,
}

impl Taken {
    /// No unit yet; those that are kept may have so many tokens together.
    pub(crate) fn new(alloc: Global, room: usize) -> Taken
        ensures kept { result.kept.items ≡ [] }
        ensures others { result.others ≡ 0 }
        ensures begins { result.begins.items ≡ [] }
        ensures brought { result.brought.items ≡ [] }
    {
        Taken {
            kept: Vec::new(alloc),
            others: 0,
            begins: Vec::new(alloc),
            brought: Vec::new(alloc),
            last: None,
            room,
        }
    }

    /// The unit that was taken last.
    pub(crate) fn last(&self) -> Option<&UnitParts> {
        match &self.last {
            Some(unit) => Some(unit),
            None => self.kept.last(),
        }
    }

    /// Takes a unit more.
    pub(crate) fn add(&mut self, alloc: Global, unit: UnitParts) -> Result<(), Memory>
        requires few { self.old.others < most_units }
        ensures takes { OnOk result (Takes unit self.old.kept.items self.new.kept.items self.old.others self.new.others) }
        ensures begins { OnOk result (self.new.begins.items ≡ self.old.begins.items ++ gnu_begin unit ∷ []) }
        ensures brought { OnOk result (self.new.brought.items ≡ self.old.brought.items ++ numbers_brought unit.text) }
    {
        self.begins.push(unit.gnu_begin())?;
        push_brought(alloc, &mut self.brought, unit.text())?;
        self.put(unit)
    }

    // The unit is kept, if it finds room.
    fn put(&mut self, unit: UnitParts) -> Result<(), Memory>
        requires few { self.old.others < most_units }
        ensures takes { OnOk result (Takes unit self.old.kept.items self.new.kept.items self.old.others self.new.others) }
        ensures begins { self.new.begins.items ≡ self.old.begins.items }
        ensures brought { self.new.brought.items ≡ self.old.brought.items }
    {
        let size = unit.text().toks().len();
        if self.others == 0 && size <= self.room {
            self.room -= size;
            self.kept.push(unit)?;
            return Ok(());
        }
        self.others += 1;
        self.last = Some(unit);
        Ok(())
    }
}
