// What a number stands for.
ghost use Rattle.std.specs.Prelude.{◌≡◌, true, IfErr, IfSome, IsSome, Err, OnOk, OnErr, is_ok, length, option_copied};
ghost use Rattle.std.specs.Option.{option_map};
ghost use Rattle.source_files.specs.Files.{is_absent, is_made, opened_bytes};
ghost use Rattle.lexer.specs.FileText.{file_text};
ghost use Rattle.lexer.specs.Refusal.{fault_of};

use crate::kept_file::KeptFile;
use lexer::LexRefusal;
use std::alloc::Global;
use std::mem;

/// What is known of a path that has a number: there is no file; there is one, which was not opened
/// without a fault; or its file is kept, as one that was opened or as a pseudo file.
#[derive(Drop)]
pub enum Slot {
    Absent,
    Unopened(Vec<u8>),
    Opened(KeptFile),
    Made(KeptFile),
}

impl Slot {
    ghost use Rattle.source_files.specs.Slots.{found_of, kept_of, bytes_in, is_unopened, number_in, opened_slot, slot_with};

    // The file that is kept.
    pub(crate) fn kept(&self) -> Option<&KeptFile>
        ensures { option_copied result ≡ kept_of self.now }
    {
        match self {
            Slot::Absent => None,
            Slot::Unopened(_) => None,
            Slot::Opened(file) => Some(file),
            Slot::Made(file) => Some(file),
        }
    }

    // There is no file.
    pub(crate) fn is_absent(&self) -> bool
        ensures { result ≡ is_absent (found_of self.now) }
    {
        match self {
            Slot::Absent => true,
            _ => false,
        }
    }

    // It is a pseudo file with this text.
    pub(crate) fn is_made(&self, text: &[u8]) -> bool
        ensures { result ≡ is_made text.now (found_of self.now) }
    {
        match self {
            Slot::Made(file) => file.bytes() == text,
            _ => false,
        }
    }

    // A file that is there is opened: it is kept with its text, or that has a fault.
    pub(crate) fn open(&mut self, alloc: Global, number: u32, path: &[u8]) -> Result<(), LexRefusal>
        requires { is_unopened self.old ≡ true }
        ensures ok { OnOk result (self.new ≡ opened_slot number path.now (bytes_in self.old)) }
        ensures readable { OnOk result (is_ok (file_text number (bytes_in self.old)) ≡ true) }
        ensures refused { IfErr result (λ e. IfSome (fault_of e) (λ fault. file_text number (bytes_in self.old) ≡ Err fault)) }
        ensures unchanged { OnErr result (self.new ≡ self.old) }
    {
        match mem::replace(self, Slot::Absent) {
            Slot::Unopened(bytes) => match KeptFile::read(alloc, number, path, bytes) {
                Ok(file) => {
                    *self = Slot::Opened(file);
                    Ok(())
                }
                Err(unread) => {
                    *self = Slot::Unopened(unread.bytes);
                    Err(unread.refusal)
                }
            },
            _ => unreachable!(),
        }
    }

    // The file that is kept gets other bytes, or these have a fault.
    pub(crate) fn edit(&mut self, alloc: Global, bytes: Vec<u8>) -> Result<(), LexRefusal>
        requires { IsSome (kept_of self.old) }
        ensures ok { OnOk result (self.new ≡ slot_with bytes.items self.old) }
        ensures readable { OnOk result (is_ok (file_text (number_in self.old) bytes.items) ≡ true) }
        ensures refused { IfErr result (λ e. IfSome (fault_of e) (λ fault. file_text (number_in self.old) bytes.items ≡ Err fault)) }
        ensures unchanged { OnErr result (self.new ≡ self.old) }
    {
        match self {
            Slot::Opened(file) => file.edit(alloc, bytes),
            Slot::Made(file) => file.edit(alloc, bytes),
            _ => unreachable!(),
        }
    }

    // How many bytes the file has, if it was opened.
    pub(crate) fn opened_size(&self) -> Option<usize>
        ensures { result ≡ option_map length (opened_bytes (found_of self.now)) }
    {
        match self {
            Slot::Opened(file) => Some(file.bytes().len()),
            _ => None,
        }
    }
}
