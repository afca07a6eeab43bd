// Bytes that only grow, with room for more that is taken beforehand.
ghost use Rattle.std.specs.Prelude.{◌≡◌, ◌≤◌, ◌+◌, ◌-◌, ◌++◌, [], length, OnOk, OnErr};
ghost use Rattle.cs_base.specs.Stored.{stored};

use crate::no_memory::Memory;
use std::alloc::Global;
use std::marker::Model;

#[derive(Drop)]
pub struct Store {
    bytes: Vec<u8>,
    room: usize,
}

impl Model for Store {
    ghost use Rattle.std.specs.Prelude.{◌≤◌, ◌+◌, vec_len, vec_capacity};
    ghost use Rattle.cs_base.specs.Stored.{Stored, stored};

    ghost Value = { Stored };

    ghost view = { λ s. stored s.bytes.items s.room };

    ghost invariant = { λ s. vec_len s.bytes + s.room ≤ vec_capacity s.bytes };
}

impl Store {
    pub fn new(alloc: Global) -> Store
        ensures { result ≡ stored [] 0 }
    {
        Store {
            bytes: Vec::new(alloc),
            room: 0,
        }
    }

    pub fn bytes(&self) -> &[u8]
        ensures { result.now ≡ self.now.bytes }
    {
        self.bytes.as_slice()
    }

    pub fn len(&self) -> usize
        ensures { result ≡ length self.now.bytes }
    {
        self.bytes.len()
    }

    pub fn room(&self) -> usize
        ensures { result ≡ self.now.room }
    {
        self.room
    }

    // Takes room for so many bytes more.
    pub fn reserve(&mut self, more: u32) -> Result<(), Memory>
        ensures ok { OnOk result (self.new ≡ stored self.old.bytes (self.old.room + more)) }
        ensures unchanged { OnErr result (self.new ≡ self.old) }
    {
        let room = self.room.checked_add(more as usize).ok_or(Memory)?;
        self.bytes.reserve(room)?;
        self.room = room;
        Ok(())
    }

    // Adds a piece beside the room.
    pub fn grow(&mut self, piece: &[u8]) -> Result<(), Memory>
        ensures ok { OnOk result (self.new ≡ stored (self.old.bytes ++ piece.now) self.old.room) }
        ensures unchanged { OnErr result (self.new ≡ self.old) }
    {
        let more = self.room.checked_add(piece.len()).ok_or(Memory)?;
        self.bytes.reserve(more)?;
        self.bytes.extend_from_slice(piece).unwrap();
        Ok(())
    }

    // Adds a piece in the room.
    pub fn fill(&mut self, piece: &[u8])
        requires { length piece.now ≤ self.old.room }
        ensures { self.new ≡ stored (self.old.bytes ++ piece.now) (self.old.room - length piece.now) }
    {
        self.bytes.extend_from_slice(piece).unwrap();
        self.room -= piece.len();
    }
}
