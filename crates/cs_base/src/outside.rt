// The outside, as far as the program knows it: files by their paths, and sinks of bytes.
ghost use Rattle.std.specs.Prelude.{ℕ, List, Option, IfSome};
ghost use Rattle.cs_base.specs.Outside.{FilesTold, GivesHeld, ReadsOnly, read_end, put_failed, Puts, PutsOnly, write_failed, Writes, Faults};

use std::alloc::Global;

/// What a read gave: the bytes of the path, that there is no such file, that the read failed, or that
/// it wanted memory.
#[derive(Drop)]
pub enum Got {
    Bytes(Vec<u8>),
    Absent,
    Failed,
    Memory,
}

/// How a put ended.
#[derive(Clone, Copy, Debug, PartialEq, Eq)]
pub enum Put {
    Done,
    Failed,
}

/// How a write ended.
#[derive(Clone, Copy, Debug, PartialEq, Eq)]
pub enum Wrote {
    Done,
    Failed,
}

/// Files by their paths. What they hold is told or not; the calls that failed are counted.
pub trait Files {
    /// What is told: the files held; how many reads and how many puts failed, which never fall and stand still at
    /// 2^64 - 1; and the path of the last call that failed.
    ghost told: { Self → FilesTold };

    /// The bytes of the path.
    fn read(&mut self, alloc: Global, path: &str) -> Got
        ensures answer { IfSome (told self.old).held (λ files. GivesHeld path.now files result) }
        ensures faults { ReadsOnly (told self.old) (told self.new) (read_end path.now result) };

    /// Lets the path hold these bytes, whether it was there or not.
    fn put(&mut self, path: &str, bytes: &[u8]) -> Put
        ensures held { Puts path.now bytes.now (told self.old).held (told self.new).held result }
        ensures faults { PutsOnly path.now (put_failed result) (told self.old) (told self.new) };
}

/// A sink of bytes, which are told or not; the writes that failed are counted.
pub trait Sink {
    /// The bytes written so far, where they are told.
    ghost bytes: { Self → Option (List ℕ) };

    /// How many writes failed. It never falls, and stands still at 2^64 - 1.
    ghost failed_writes: { Self → ℕ };

    /// Writes the piece.
    fn write(&mut self, piece: &[u8]) -> Wrote
        ensures bytes { Writes piece.now (bytes self.old) (bytes self.new) result }
        ensures faults { Faults (write_failed result) (failed_writes self.old) (failed_writes self.new) };
}
