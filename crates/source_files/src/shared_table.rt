// A table of files that caches share: it is written where one alone has it.
ghost use Rattle.std.specs.Prelude.{◌≡◌, ◌∷◌, [], None, Err, IfOk, IfErr, IfSome, IsSome, OnOk, OnErr, is_some, length, option_copied, slice_get, true, false, is_ok};
ghost use Rattle.std.specs.Option.{option_map};
ghost use Rattle.std.specs.Str.{bytes_eq, is_utf8};
ghost use Rattle.lexer.specs.FileText.{file_text};
ghost use Rattle.lexer.specs.Refusal.{fault_of};
ghost use Rattle.source_files.specs.Edited.{edited, size_at};
ghost use Rattle.source_files.specs.Files.{lines_path, Lines, absent_at, entry, found_at, made_path, number_at, number_of, numbered, opened};
ghost use Rattle.source_files.specs.KeptFiles.{kept_at};
ghost use Rattle.source_files.specs.Tables.{AreText, BeginsWithLines, HasEachOnce};
ghost use Rattle.source_files.specs.Slots.{found_of, IsNumbered};

use crate::file_table::FileTable;
use crate::kept_file::KeptFile;
use crate::slot::Slot;
use cs_base::Memory;
use lexer::LexRefusal;
use std::alloc::Global;
use std::marker::Model;
use std::rc::Rc;

/// The table of files of a cache, which others may share. Contracts see the table.
#[derive(Drop)]
pub(crate) struct SharedTable {
    table: Rc<FileTable>,
}

impl Model for SharedTable {
    ghost use Rattle.source_files.specs.Files.{Table};

    ghost Value = { Table };

    ghost view = { λ t. t.table.value };
}

impl SharedTable {
    ghost use Rattle.source_files.specs.FileTableFields.{Stands, is_unread, unread_bytes};

    pub(crate) fn new(alloc: Global) -> Result<SharedTable, Memory>
        ensures { IfOk result (λ t. t ≡ entry lines_path Lines ∷ []) }
    {
        Ok(SharedTable {
            table: Rc::new(alloc, FileTable::new(alloc))?,
        })
    }

    /// The same table, shared: neither is written while both are there.
    pub(crate) fn shared(&self) -> Result<SharedTable, Memory>
        ensures { IfOk result (λ t. t ≡ self.now) }
    {
        Ok(SharedTable {
            table: self.table.clone()?,
        })
    }

    // The number that the next path gets.
    pub(crate) fn next_number(&self) -> u32
        ensures answer { result ≡ length self.now }
        ensures once { HasEachOnce self.now }
        ensures text { AreText self.now }
        ensures lines { BeginsWithLines self.now }
    {
        self.table.next_number()
    }

    // The file that is kept under a number.
    pub(crate) fn kept(&self, number: u32) -> Option<&KeptFile>
        ensures { option_copied result ≡ kept_at self.now number }
    {
        self.table.kept(number)
    }

    // The path that has a number.
    pub(crate) fn path(&self, number: u32) -> Option<&[u8]>
        ensures { option_copied result ≡ option_map (λ e. e.path) (slice_get self.now number) }
    {
        self.table.path(number)
    }

    // The path that has a number, where no file was there.
    pub(crate) fn absent(&self, number: u32) -> Option<&[u8]>
        ensures { option_copied result ≡ absent_at self.now number }
    {
        self.table.absent(number)
    }

    // The path of the first pseudo file with this text, if there is one.
    pub(crate) fn made(&self, text: &[u8]) -> Option<&[u8]>
        ensures answer { option_copied result ≡ made_path text.now self.now }
        ensures other { IfSome (made_path text.now self.now) (λ path. bytes_eq path lines_path ≡ false) }
    {
        self.table.made(text)
    }

    // The number of a path, if it has one.
    pub(crate) fn number(&self, path: &[u8]) -> Option<u32>
        ensures { result ≡ number_at path.now self.now }
    {
        self.table.number(path)
    }

    // The number of a path and what it stands for, if it has one.
    pub(crate) fn find(&self, path: &[u8]) -> Option<(u32, &Slot)>
        requires { bytes_eq path.now lines_path ≡ false }
        ensures none { is_some result ≡ is_some (found_at path.now self.now) }
        ensures some { IfSome result (λ r. Stands self.now path.now r.0 r.1.now) }
    {
        self.table.find(path)
    }

    // How many bytes the file of a number has, if it was opened.
    pub(crate) fn opened_size(&self, number: u32) -> Option<usize>
        requires { IsSome (kept_at self.now number) }
        ensures { result ≡ size_at self.now number }
    {
        self.table.opened_size(number)
    }

    // A path gets the next number: `Memory` also while the table is shared.
    pub(crate) fn push(&mut self, path: &[u8], slot: Slot) -> Result<(), Memory>
        requires fresh { found_at path.now self.old ≡ None }
        requires text { is_utf8 path.now ≡ true }
        requires numbered { IsNumbered (length self.old) path.now slot }
        ensures ok { OnOk result (self.new ≡ numbered path.now (found_of slot) self.old) }
        ensures unchanged { OnErr result (self.new ≡ self.old) }
    {
        match Rc::get_mut(&mut self.table) {
            Some(table) => table.push(path, slot),
            None => Err(Memory),
        }
    }

    // The file of a path, which is there and was not opened, is opened, or its text has a fault: `Memory` also while the table
    // is shared.
    pub(crate) fn open(&mut self, alloc: Global, path: &[u8]) -> Result<(), LexRefusal>
        requires other { bytes_eq path.now lines_path ≡ false }
        requires there { is_unread (found_at path.now self.old) ≡ true }
        ensures ok { OnOk result (self.new ≡ opened path.now (unread_bytes (found_at path.now self.old)) self.old) }
        ensures readable { OnOk result (is_ok (file_text (number_of path.now self.old) (unread_bytes (found_at path.now self.old))) ≡ true) }
        ensures refused { IfErr result (λ e. IfSome (fault_of e) (λ fault. file_text (number_of path.now self.old) (unread_bytes (found_at path.now self.old)) ≡ Err fault)) }
        ensures unchanged { OnErr result (self.new ≡ self.old) }
    {
        match Rc::get_mut(&mut self.table) {
            Some(table) => table.open(alloc, path),
            None => Err(LexRefusal::Memory),
        }
    }

    // The kept file of a number gets other bytes, or these have a fault: `Memory` also while the table is shared.
    pub(crate) fn edit(
        &mut self,
        alloc: Global,
        number: u32,
        bytes: Vec<u8>,
    ) -> Result<(), LexRefusal>
        requires { IsSome (kept_at self.old number) }
        ensures ok { OnOk result (self.new ≡ edited number bytes.items self.old) }
        ensures readable { OnOk result (is_ok (file_text number bytes.items) ≡ true) }
        ensures refused { IfErr result (λ e. IfSome (fault_of e) (λ fault. file_text number bytes.items ≡ Err fault)) }
        ensures unchanged { OnErr result (self.new ≡ self.old) }
    {
        match Rc::get_mut(&mut self.table) {
            Some(table) => table.edit(alloc, number, bytes),
            None => Err(LexRefusal::Memory),
        }
    }
}
