// Kept files get other bytes.
ghost use Rattle.std.specs.Prelude.{◌≡◌, ◌≤◌, ◌<◌, ◌^◌, IfSome, IsSome, OnErr};
ghost use Rattle.cs_base.specs.Answer.{Gives};
ghost use Rattle.source_files.specs.Edited.{bytes_with as all_with, edit_fault_of, edited_of};
ghost use Rattle.source_files.specs.KeptFiles.{kept_at};

use super::Cache;
use crate::edit_refusal::EditRefusal;
use cs_base::MOST_BYTES_OF_ALL;
use std::alloc::Global;

impl Cache {
    /// The kept file of a number gets other bytes, by which it is lexed and shaped anew; its number and its path stay, and
    /// so do all other files and the count of tokens.
    ///
    /// Refused: `TooManyBytes` exactly where the opened files would have too many bytes together; else `Unread` with the
    /// fault of the new text, or for want of memory. A refused call changes nothing.
    pub fn edit(&mut self, alloc: Global, number: u32, bytes: Vec<u8>) -> Result<(), EditRefusal>
        requires kept { IsSome (kept_at self.old.table number) }
        ensures answer { Gives (λ _. self.new.table) edit_fault_of result (edited_of number bytes.items self.old.table) }
        ensures toks { self.new.toks ≡ self.old.toks }
        ensures unchanged { OnErr result (self.new ≡ self.old) }
    {
        let all = bytes_with(self.bytes, self.table.opened_size(number), bytes.len());
        if all > MOST_BYTES_OF_ALL {
            return Err(EditRefusal::TooManyBytes);
        }
        match self.table.edit(alloc, number, bytes) {
            Ok(()) => {
                self.bytes = all as u32;
                Ok(())
            }
            Err(refusal) => Err(EditRefusal::Unread(refusal)),
        }
    }
}

// How many bytes all opened files have, of which one gets so many in place of its own.
fn bytes_with(all: u32, old: Option<usize>, size: usize) -> usize
    requires within { IfSome old (λ o. o ≤ all) }
    requires small { size < 2 ^ 63 }
    ensures { result ≡ all_with all old size }
{
    match old {
        Some(old) => all as usize - old + size,
        None => all as usize,
    }
}
