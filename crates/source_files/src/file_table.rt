// The table of files: what is known of each path that has a number.
ghost use Rattle.std.specs.Prelude.{◌≡◌, ◌<◌, ◌∷◌, [], false, None, is_some, IfSome, OnOk, OnErr, IsSome, option_copied, length, slice_get, true, Err, IfErr, is_ok};
ghost use Rattle.std.specs.List.{position};
ghost use Rattle.std.specs.Option.{option_map};
ghost use Rattle.std.specs.Str.{bytes_eq, is_utf8};
ghost use Rattle.lexer.specs.FileText.{file_text};
ghost use Rattle.lexer.specs.Refusal.{fault_of};
ghost use Rattle.source_files.specs.Files.{lines_path, Lines, absent_at, entry, found_at, is_absent_at, is_made, made_path, number_of, number_at, numbered, opened};
ghost use Rattle.source_files.specs.Edited.{edited, size_at};
ghost use Rattle.source_files.specs.KeptFiles.{kept_at};
ghost use Rattle.source_files.specs.Tables.{AreText, BeginsWithLines, HasEachOnce};
ghost use Rattle.source_files.specs.Slots.{found_of, IsNumbered};

use crate::kept_file::KeptFile;
use crate::slot::Slot;
use cs_base::Memory;
use indexmap::IndexSet;
use lexer::LexRefusal;
use std::alloc::Global;
use std::marker::Model;

// The pseudo file in which the numbers of lines stand.
const LINES_PATH: &[u8] = b"<lines>";

// The path with number n is the one at place n - 1; number 0 is the pseudo file of lines.
#[derive(Drop)]
pub(crate) struct FileTable {
    paths: IndexSet<Vec<u8>>,
    slots: Vec<Slot>,
}

fn is_lines(path: &[u8]) -> bool
    ensures { result ≡ bytes_eq path.now lines_path }
{
    path == LINES_PATH
}

// The place of the first pseudo file with this text.
fn made_at(slots: &[Slot], text: &[u8]) -> Option<usize>
    ensures answer { result ≡ position (λ s. is_made text.now (found_of s)) slots.now }
    ensures within { IfSome result (λ i. i < length slots.now) }
{
    slots.iter().position(|slot| slot.is_made(text))
}

impl Model for FileTable {
    ghost use Rattle.source_files.specs.Files.{Table};
    ghost use Rattle.source_files.specs.FileTableFields.{paths_in, table_in, IsFileTable};

    ghost Value = { Table };

    ghost view = { table_in };

    ghost invariant = { λ t. IsFileTable (paths_in t) t.slots.items };
}

impl FileTable {
    ghost use Rattle.source_files.specs.FileTableFields.{Stands, is_unread, unread_bytes};

    pub fn new(alloc: Global) -> FileTable
        ensures { result ≡ entry lines_path Lines ∷ [] }
    {
        FileTable {
            paths: IndexSet::new(alloc),
            slots: Vec::new(alloc),
        }
    }

    // The number that the next path gets.
    pub(crate) fn next_number(&self) -> u32
        ensures answer { result ≡ length self.now }
        ensures once { HasEachOnce self.now }
        ensures text { AreText self.now }
        ensures lines { BeginsWithLines self.now }
    {
        self.slots.len() as u32 + 1
    }

    // The file that is kept under a number.
    pub(crate) fn kept(&self, number: u32) -> Option<&KeptFile>
        ensures { option_copied result ≡ kept_at self.now number }
    {
        let slots = self.slots.as_slice();
        if number == 0 {
            return None;
        }
        let i = number as usize - 1;
        if i < slots.len() {
            slots[i].kept()
        } else {
            None
        }
    }

    // The path that has a number.
    pub fn path(&self, number: u32) -> Option<&[u8]>
        ensures { option_copied result ≡ option_map (λ e. e.path) (slice_get self.now number) }
    {
        let paths = &self.paths;
        if number == 0 {
            return Some(LINES_PATH);
        }
        match paths.get_index(number as usize - 1) {
            Some(path) => Some(path.as_slice()),
            None => None,
        }
    }

    // The path that has a number, where no file was there.
    pub(crate) fn absent(&self, number: u32) -> Option<&[u8]>
        ensures { option_copied result ≡ absent_at self.now number }
    {
        if self.is_absent(number) {
            self.path(number)
        } else {
            None
        }
    }

    // No file was there for the path of a number.
    fn is_absent(&self, number: u32) -> bool
        ensures { result ≡ is_absent_at self.now number }
    {
        let slots = self.slots.as_slice();
        if number == 0 {
            return false;
        }
        let i = number as usize - 1;
        if i < slots.len() {
            slots[i].is_absent()
        } else {
            false
        }
    }

    // The path of the first pseudo file with this text, if there is one.
    pub(crate) fn made(&self, text: &[u8]) -> Option<&[u8]>
        ensures answer { option_copied result ≡ made_path text.now self.now }
        ensures other { IfSome (made_path text.now self.now) (λ path. bytes_eq path lines_path ≡ false) }
    {
        match made_at(self.slots.as_slice(), text) {
            Some(i) => self.path(i as u32 + 1),
            None => None,
        }
    }

    // The number of a path, if it has one.
    pub fn number(&self, path: &[u8]) -> Option<u32>
        ensures { result ≡ number_at path.now self.now }
    {
        let paths = &self.paths;
        if is_lines(path) {
            return Some(0);
        }
        match paths.get_index_of(path) {
            Some(i) => Some(i as u32 + 1),
            None => None,
        }
    }

    // The number of a path and what it stands for, if it has one.
    pub fn find(&self, path: &[u8]) -> Option<(u32, &Slot)>
        requires { bytes_eq path.now lines_path ≡ false }
        ensures none { is_some result ≡ is_some (found_at path.now self.now) }
        ensures some { IfSome result (λ r. Stands self.now path.now r.0 r.1.now) }
    {
        match self.paths.get_index_of(path) {
            Some(i) => Some((i as u32 + 1, &self.slots[i])),
            None => None,
        }
    }

    // A path gets the next number.
    pub fn push(&mut self, path: &[u8], slot: Slot) -> Result<(), Memory>
        requires fresh { found_at path.now self.old ≡ None }
        requires text { is_utf8 path.now ≡ true }
        requires numbered { IsNumbered (length self.old) path.now slot }
        ensures ok { OnOk result (self.new ≡ numbered path.now (found_of slot) self.old) }
        ensures unchanged { OnErr result (self.new ≡ self.old) }
    {
        if self.slots.len() >= u32::MAX as usize - 1 {
            return Err(Memory);
        }
        let key = Vec::from_slice(*self.slots.allocator(), path)?;
        self.slots.reserve(1)?;
        self.paths.insert(key)?;
        self.slots.push(slot).unwrap();
        Ok(())
    }

    // The file of a path, which is there and was not opened, is opened, or its text has a fault.
    pub(crate) fn open(&mut self, alloc: Global, path: &[u8]) -> Result<(), LexRefusal>
        requires other { bytes_eq path.now lines_path ≡ false }
        requires there { is_unread (found_at path.now self.old) ≡ true }
        ensures ok { OnOk result (self.new ≡ opened path.now (unread_bytes (found_at path.now self.old)) self.old) }
        ensures readable { OnOk result (is_ok (file_text (number_of path.now self.old) (unread_bytes (found_at path.now self.old))) ≡ true) }
        ensures refused { IfErr result (λ e. IfSome (fault_of e) (λ fault. file_text (number_of path.now self.old) (unread_bytes (found_at path.now self.old)) ≡ Err fault)) }
        ensures unchanged { OnErr result (self.new ≡ self.old) }
    {
        match self.paths.get_index_of(path) {
            Some(i) => self.slots[i].open(alloc, i as u32 + 1, path),
            None => unreachable!(),
        }
    }

    // The kept file of a number gets other bytes, or these have a fault.
    pub(crate) fn edit(
        &mut self,
        alloc: Global,
        number: u32,
        bytes: Vec<u8>,
    ) -> Result<(), LexRefusal>
        requires { IsSome (kept_at self.old number) }
        ensures ok { OnOk result (self.new ≡ edited number bytes.items self.old) }
        ensures readable { OnOk result (is_ok (file_text number bytes.items) ≡ true) }
        ensures refused { IfErr result (λ e. IfSome (fault_of e) (λ fault. file_text number bytes.items ≡ Err fault)) }
        ensures unchanged { OnErr result (self.new ≡ self.old) }
    {
        self.slots[number as usize - 1].edit(alloc, bytes)
    }

    // How many bytes the file of a number has, if it was opened.
    pub(crate) fn opened_size(&self, number: u32) -> Option<usize>
        requires { IsSome (kept_at self.now number) }
        ensures { result ≡ size_at self.now number }
    {
        self.slots[number as usize - 1].opened_size()
    }
}
