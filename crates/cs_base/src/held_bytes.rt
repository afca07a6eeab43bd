// A sink in memory, which can be told to fail.
ghost use Rattle.std.specs.Prelude.{◌≡◌, ◌+◌, ◌∷◌, [], ◌++◌, Some, OnOk, OnErr};
ghost use Rattle.cs_base.specs.Outside.{Writes, Faults, write_failed};
ghost use Rattle.cs_base.specs.Written.{nothing_written, write_fails, after_write};

use crate::call_list::CallList;
use crate::no_memory::Memory;
use crate::outside::{Sink, Wrote};
use crate::store::Store;
use std::alloc::Global;
use std::marker::Model;

/// A sink that keeps its bytes, in room that is reserved for them before. A write fails where its number
/// is on a list or the piece is longer than the room; then it adds nothing.
#[derive(Drop)]
pub struct MemSink {
    store: Store,
    calls: CallList,
    failed_writes: u64,
}

impl Model for MemSink {
    ghost use Rattle.cs_base.specs.Written.{Written, written};

    ghost Value = { Written };

    ghost view = { λ s. written s.store.bytes s.calls.fails.items s.store.room s.calls.made s.failed_writes };
}

impl MemSink {
    /// No byte, and no room.
    pub fn new(alloc: Global) -> MemSink
        ensures { result ≡ nothing_written }
    {
        MemSink {
            store: Store::new(alloc),
            calls: CallList::new(alloc),
            failed_writes: 0,
        }
    }

    /// Lets the write of this number fail; writes are numbered from 1.
    pub fn fail_at(&mut self, call: u32) -> Result<(), Memory>
        ensures ok { OnOk result (self.new ≡ record self.old { fails = self.old.fails ++ call ∷ [] }) }
        ensures unchanged { OnErr result (self.new ≡ self.old) }
    {
        self.calls.fail_at(call)
    }

    /// Room for so many bytes more.
    pub fn reserve(&mut self, bytes: u32) -> Result<(), Memory>
        ensures ok { OnOk result (self.new ≡ record self.old { room = self.old.room + bytes }) }
        ensures unchanged { OnErr result (self.new ≡ self.old) }
    {
        self.store.reserve(bytes)
    }

    /// What was written.
    pub fn bytes(&self) -> &[u8]
        ensures { result.now ≡ self.now.bytes }
    {
        self.store.bytes()
    }
}

impl Sink for MemSink {
    ghost bytes = { λ s. Some s.bytes };

    ghost failed_writes = { λ s. s.failed_writes };

    fn write(&mut self, piece: &[u8]) -> Wrote
        ensures bytes { Writes piece.now (Some self.old.bytes) (Some self.new.bytes) result }
        ensures faults { Faults (write_failed result) self.old.failed_writes self.new.failed_writes }
        ensures answer { write_failed result ≡ write_fails piece.now self.old }
        ensures after { self.new ≡ after_write piece.now self.old result }
    {
        if self.calls.begin() || piece.len() > self.store.room() {
            self.failed_writes = self.failed_writes.saturating_add(1);
            return Wrote::Failed;
        }
        self.store.fill(piece);
        Wrote::Done
    }
}
