// What is kept from unit to unit.
ghost use Rattle.std.specs.Prelude.{◌≡◌, ◌⊎◌, ◌≤◌, ◌<◌, ◌+◌, ℕ, false, MatchBool, None, Err, IfErr, IfSome, IsSome, OnErr, option_copied, not, IfOk, OnOk, length, slice_get};
ghost use Rattle.std.specs.Option.{option_map};
ghost use Rattle.std.specs.Str.{bytes_eq};
ghost use Rattle.lexer.specs.FileText.{file_text};
ghost use Rattle.lexer.specs.Refusal.{fault_of as lex_fault_of};
ghost use Rattle.cs_base.specs.Outside.{ReadsOnly};
ghost use Rattle.cs_base.specs.Limits.{most_bytes, most_bytes_of_all};
ghost use Rattle.source_files.specs.Limits.{the_limits};
ghost use Rattle.source_files.specs.Files.{Source, Table, carried, lines_path, nothing_carried, absent_at, asked, found_at, number_at};
ghost use Rattle.source_files.specs.Opening.{opening, file_read};
ghost use Rattle.source_files.specs.KeptFiles.{kept_at};
ghost use Rattle.source_files.specs.Tables.{AreFound, AreText, BeginsWithLines, HasEachOnce};
ghost use Rattle.source_files.specs.Statuses.{IsUnread, is_missing};
ghost use Rattle.source_files.specs.Answers.{fault_of, OpensFile, IsNoReadFault, reads_of, AsksOn};

mod editing;
mod making;

use crate::asking::ask;
use crate::kept_file::KeptFile;
use crate::pre_fault::{PreFault, fault_at, fault_there};
use crate::shared_table::SharedTable;
use crate::status::{Status, is_there, status_of};
use cs_base::{Cause, Files, MOST_BYTES, MOST_BYTES_OF_ALL, MOST_FILES, Memory, Place};
use lexer::LexRefusal;
use std::alloc::Global;
use std::marker::Model;

/// The files that were read, absent paths too, each under its number, and how many tokens the units had.
#[derive(Drop)]
pub struct Cache {
    table: SharedTable,
    files: u32,
    bytes: u32,
    toks: u32,
}

impl Model for Cache {
    ghost use Rattle.source_files.specs.Files.{Carried, carried};
    ghost use Rattle.source_files.specs.CacheFields.{IsCache};

    ghost Value = { Carried };

    ghost view = { λ c. carried c.table c.toks };

    ghost invariant = { λ c. IsCache c.table c.files c.bytes c.toks };
}

impl Cache {
    /// Nothing is kept.
    pub fn new(alloc: Global) -> Result<Cache, Memory>
        ensures { IfOk result (λ c. c ≡ nothing_carried) }
    {
        let table = SharedTable::new(alloc)?;
        Ok(Cache {
            table,
            files: 0,
            bytes: 0,
            toks: 0,
        })
    }

    /// The same files, with no tokens counted, for a unit that is preprocessed once more: they lie in memory once. While both
    /// are there, a path that has no number and a file that was not opened are answered by `Memory`.
    pub fn shared(&self) -> Result<Cache, Memory>
        ensures { IfOk result (λ c. c ≡ carried self.now.table 0) }
    {
        let table = self.table.shared()?;
        Ok(Cache {
            table,
            files: self.files,
            bytes: self.bytes,
            toks: 0,
        })
    }

    /// The kept file with this number: none exactly where the number is 0, is past the table, or is that of
    /// a path without a kept file. Takes no memory.
    pub fn file(&self, number: u32) -> Option<&KeptFile>
        ensures { option_copied result ≡ kept_at self.now.table number }
    {
        self.table.kept(number)
    }

    /// The path that has this number, also one without a kept file: none exactly past the table. Takes no
    /// memory.
    pub fn path(&self, number: u32) -> Option<&[u8]>
        ensures { option_copied result ≡ option_map (λ e. e.path) (slice_get self.now.table number) }
    {
        self.table.path(number)
    }

    /// The path that has this number, if no file was there when it was asked for. Takes no memory.
    pub fn absent(&self, number: u32) -> Option<&[u8]>
        ensures { option_copied result ≡ absent_at self.now.table number }
    {
        self.table.absent(number)
    }

    /// The number of a path: none exactly where it has none. Takes no memory.
    pub fn number(&self, path: &[u8]) -> Option<u32>
        ensures { result ≡ number_at path.now self.now.table }
    {
        self.table.number(path)
    }

    /// How many numbers are given: those from 0 to before this one, each to a path of its own, and the first to the
    /// pseudo file of lines. Takes no memory.
    pub fn numbers(&self) -> u32
        ensures answer { result ≡ length self.now.table }
        ensures once { HasEachOnce self.now.table }
        ensures text { AreText self.now.table }
        ensures lines { BeginsWithLines self.now.table }
    {
        self.table.next_number()
    }

    // Asks for a path, unless it was asked for before: whether there is a file.
    pub(crate) fn ask<F: Files>(
        &mut self,
        alloc: Global,
        files: &mut F,
        path: &str,
    ) -> Result<bool, PreFault>
        requires { bytes_eq path.now lines_path ≡ false }
        ensures answer { (source : Source) → AreFound source self.new.table → OnOk result (self.new.table ≡ asked source path.now self.old.table) }
        ensures there { IfOk result (λ there. is_missing (found_at path.now self.new.table) ≡ not there) }
        ensures asks { AsksOn (F.told files.old).held self.old self.new }
        ensures no_fault { IfErr result (λ e. fault_of e ≡ None) }
        ensures faults { ReadsOnly (F.told files.old) (F.told files.new) (reads_of result) }
    {
        match ask(alloc, &mut self.table, files, path) {
            Ok(()) => Ok(is_there(&self.table, path.as_bytes())),
            Err(fault) => Err(fault),
        }
    }

    // The number of the file of a path that was asked for, opened if it is not open yet. A fault of
    // opening it stands at this place.
    pub(crate) fn open(
        &mut self,
        alloc: Global,
        path: &[u8],
        place: &Place,
    ) -> Result<u32, PreFault>
        requires { bytes_eq path.now lines_path ≡ false }
        ensures answer { OpensFile result (opening the_limits file_text place.now path.now self.old.table) self.new.table path.now }
        ensures toks { self.new.toks ≡ self.old.toks }
        ensures unchanged { OnErr result (self.new ≡ self.old) }
        ensures no_read { IfErr result IsNoReadFault }
    {
        match status_of(&self.table, path) {
            Status::Missing => Err(fault_there(alloc, place, Cause::MissingFile)),
            Status::Kept(number) => Ok(number),
            Status::Unread(number, size) => self.open_first(alloc, path, number, size, place),
        }
    }

    // The same for a file that was not opened yet.
    fn open_first(
        &mut self,
        alloc: Global,
        path: &[u8],
        number: u32,
        size: usize,
        place: &Place,
    ) -> Result<u32, PreFault>
        requires other { bytes_eq path.now lines_path ≡ false }
        requires unread { IsUnread self.old.table path.now number size }
        ensures answer { OpensFile result (opening the_limits file_text place.now path.now self.old.table) self.new.table path.now }
        ensures toks { self.new.toks ≡ self.old.toks }
        ensures unchanged { OnErr result (self.new ≡ self.old) }
        ensures no_read { IfErr result IsNoReadFault }
    {
        if self.files >= MOST_FILES {
            return Err(fault_there(alloc, place, Cause::TooManyFiles));
        }
        if is_too_much(size, self.bytes) {
            return Err(fault_there(alloc, place, Cause::TooManyBytes));
        }
        match self.table.open(alloc, path) {
            Ok(()) => {
                self.files += 1;
                self.bytes += size as u32;
                Ok(number)
            }
            Err(refusal) => Err(text_fault(alloc, path, place, refusal)),
        }
    }
}

// So many bytes more are too many; a file that is too large is named for that.
fn is_too_much(size: usize, bytes: u32) -> bool
    requires { bytes ≤ most_bytes_of_all }
    ensures { MatchBool result ((size ≤ most_bytes) × (most_bytes_of_all < bytes + size)) ((most_bytes < size) ⊎ (bytes + size ≤ most_bytes_of_all)) }
{
    size <= MOST_BYTES && size > MOST_BYTES_OF_ALL - bytes as usize
}

// Why a file has no text, as a fault of the unit.
fn text_fault(alloc: Global, path: &[u8], place: &Place, refusal: LexRefusal) -> PreFault
    ensures answer { IfSome (fault_of result) (λ f. IfSome (lex_fault_of refusal) (λ e. (number : ℕ) (table : Table) → file_read place.now number path.now table (Err e) ≡ Err f)) }
    ensures no_memory { IsSome (fault_of result) → IsSome (lex_fault_of refusal) }
    ensures no_read { IsNoReadFault result }
{
    match refusal {
        LexRefusal::FileTooLarge => fault_there(alloc, place, Cause::FileTooLarge),
        LexRefusal::OpenComment { line, column, .. } => fault_at(
            alloc,
            path,
            line,
            column,
            Cause::OpenComment,
        ),
        LexRefusal::Memory => PreFault::Memory,
    }
}
