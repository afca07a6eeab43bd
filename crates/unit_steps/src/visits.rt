// Items that are reached, and files that are entered, left or passed over.
ghost use Rattle.std.specs.Prelude.{◌≡◌, ◌==◌, ◌∷◌, [], true, length, IfOk};
ghost use Rattle.std.specs.List.{list_any};
ghost use Rattle.unit_steps.specs.Notes.{Reaches, Entered, Exited, ReadOnce};
ghost use Rattle.unit_steps.specs.Directives.{is_read_once};
ghost use Rattle.source_files.specs.Files.{Table};
ghost use Rattle.unit_steps.specs.Keeping.{noted_in};

use crate::events::EventKind;
use crate::progress::Progress;
use cs_base::{Memory, Pos};

impl Progress {
    ghost use Rattle.unit_steps.specs.Moments.{state_in, IsAble, GoesOn};

    /// Item number `item` of a file stands in a processed group.
    pub fn reach(&mut self, file: u32, item: u32, evaluated: bool) -> Result<(), Memory>
        requires able { IsAble self.old }
        ensures goes_on { GoesOn self.old self.new result }
        ensures noted { IfOk result (λ _. self.new ≡ record self.old { text = noted_in self.old.text (Reaches file item evaluated (length self.old.text.toks) ∷ []) }) }
    {
        let before = self.text.before();
        self.text.note_reached(file, item, evaluated, before)?;
        Ok(())
    }

    /// The items of a file begin, which an include line whose `#` is there includes.
    pub fn enter(&mut self, at: Pos, file: u32) -> Result<(), Memory>
        requires able { IsAble self.old }
        ensures goes_on { GoesOn self.old self.new result }
        ensures noted { IfOk result (λ _. self.new ≡ record self.old { text = noted_in self.old.text (Entered at file (length self.old.text.toks) ∷ []) }) }
    {
        let before = self.text.before();
        self.text.note_file(EventKind::Enter, at, file, before)?;
        Ok(())
    }

    /// They end.
    pub fn leave(&mut self, at: Pos, file: u32) -> Result<(), Memory>
        requires able { IsAble self.old }
        ensures goes_on { GoesOn self.old self.new result }
        ensures noted { IfOk result (λ _. self.new ≡ record self.old { text = noted_in self.old.text (Exited at file (length self.old.text.toks) ∷ []) }) }
    {
        let before = self.text.before();
        self.text.note_file(EventKind::Leave, at, file, before)?;
        Ok(())
    }

    /// The items of a file are passed over.
    pub fn pass(&mut self, at: Pos, file: u32) -> Result<(), Memory>
        requires able { IsAble self.old }
        ensures goes_on { GoesOn self.old self.new result }
        ensures noted { IfOk result (λ _. self.new ≡ record self.old { text = noted_in self.old.text (ReadOnce true at file (length self.old.text.toks) ∷ []) }) }
    {
        let before = self.text.before();
        self.text.note_file(EventKind::Passed, at, file, before)?;
        Ok(())
    }

    /// Whether a file is read once.
    pub fn is_read_once(&self, file: u32) -> bool
        ensures { (table : Table) → result ≡ is_read_once file (state_in table self.now) }
    {
        has_number(self.once.as_slice(), file)
    }
}

fn has_number(numbers: &[u32], number: u32) -> bool
    ensures { result ≡ list_any (λ n. n == number) numbers.now }
{
    numbers.iter().any(|n| *n == number)
}
