// Files in memory, which can be told to fail.
ghost use Rattle.std.specs.Prelude.{◌≡◌, ◌≤◌, ◌+◌, ◌∷◌, [], ◌++◌, ℕ, List, Some, All, IfSome, IsNone, OnOk, OnErr, length};
ghost use Rattle.std.specs.List.{position};
ghost use Rattle.std.specs.Option.{option_copied};
ghost use Rattle.std.specs.Str.{bytes_eq};
ghost use Rattle.cs_base.specs.Outside.{bytes_at, GivesHeld, ReadsOnly, read_end, Puts, PutsOnly, read_failed, put_failed};
ghost use Rattle.cs_base.specs.World.{empty_world, read_fails, put_fails, told_of, Reads, after_read, after_put};
ghost use Rattle.cs_base.specs.HeldFiles.{files_in, IsRange};

use crate::call_list::CallList;
use crate::no_memory::Memory;
use crate::outside::{Files, Got, Put};
use crate::store::Store;
use crate::texts::Text;
use std::alloc::Global;
use std::marker::Model;

// A file: its bytes are those of the store from `start` up to `end`.
#[derive(Drop)]
struct HeldFile {
    path: Text,
    start: usize,
    end: usize,
}

// The path of the last failed call, or the number of its file, which takes no memory.
#[derive(Drop)]
enum LastFailed {
    Untold,
    Kept(Text),
    Held(usize),
}

/// Files that lie in memory. A put takes room that is reserved before, and no memory. A call fails where
/// its number is on a list, and a put also where it is longer than the room or the path is not held.
#[derive(Drop)]
pub struct MemFiles {
    alloc: Global,
    files: Vec<HeldFile>,
    store: Store,
    calls: CallList,
    failed_reads: u64,
    failed_puts: u64,
    last_failed: LastFailed,
}

impl Model for MemFiles {
    ghost use Rattle.std.specs.Prelude.{length};
    ghost use Rattle.cs_base.specs.World.{World, world};

    ghost Value = { World };

    ghost use Rattle.cs_base.specs.HeldFiles.{files_in, last_path, AreHeld};

    ghost view = { λ m. world (files_in m.store.bytes m.files.items) m.calls.fails.items m.store.room m.calls.made m.failed_reads m.failed_puts (last_path m.files.items m.last_failed) };

    ghost invariant = { λ m. AreHeld (length m.store.bytes) m.files.items m.last_failed };
}

impl MemFiles {
    /// No file, and no room.
    pub fn new(alloc: Global) -> MemFiles
        ensures { result ≡ empty_world }
    {
        MemFiles {
            alloc,
            files: Vec::new(alloc),
            store: Store::new(alloc),
            calls: CallList::new(alloc),
            failed_reads: 0,
            failed_puts: 0,
            last_failed: LastFailed::Untold,
        }
    }

    /// One file more, behind the others. It takes no room of later puts.
    pub fn add(&mut self, path: &str, bytes: &[u8]) -> Result<(), Memory>
        requires { IsNone (bytes_at path.now self.old.files) }
        ensures ok { OnOk result (self.new ≡ record self.old { files = self.old.files ++ (path.now, bytes.now) ∷ [] }) }
        ensures unchanged { OnErr result (self.new ≡ self.old) }
    {
        let path = Text::new(self.alloc, path.as_bytes())?;
        self.files.reserve(1)?;
        let start = self.store.len();
        self.store.grow(bytes)?;
        let end = self.store.len();
        self.files.push(HeldFile { path, start, end }).unwrap();
        Ok(())
    }

    /// Lets the call of this number fail. Reads and puts are numbered together, from 1; a read that
    /// wants memory has its number too.
    pub fn fail_at(&mut self, call: u32) -> Result<(), Memory>
        ensures ok { OnOk result (self.new ≡ record self.old { fails = self.old.fails ++ call ∷ [] }) }
        ensures unchanged { OnErr result (self.new ≡ self.old) }
    {
        self.calls.fail_at(call)
    }

    /// Room for so many bytes of later puts more.
    pub fn reserve(&mut self, bytes: u32) -> Result<(), Memory>
        ensures ok { OnOk result (self.new ≡ record self.old { room = self.old.room + bytes }) }
        ensures unchanged { OnErr result (self.new ≡ self.old) }
    {
        self.store.reserve(bytes)
    }

    /// What the path holds, without a call that counts; none exactly where it is not held.
    pub fn bytes(&self, path: &str) -> Option<&[u8]>
        ensures { option_copied result ≡ bytes_at path.now self.now.files }
    {
        bytes_of(self.files.as_slice(), self.store.bytes(), path.as_bytes())
    }
}

impl Files for MemFiles {
    ghost told = { told_of };

    fn read(&mut self, alloc: Global, path: &str) -> Got
        ensures answer { GivesHeld path.now self.old.files result }
        ensures faults { ReadsOnly (told_of self.old) (told_of self.new) (read_end path.now result) }
        ensures reads { Reads path.now self.old result }
        ensures after { self.new ≡ after_read path.now (read_failed result) self.old }
    {
        if self.calls.begin() {
            let Ok(kept) = Text::new(alloc, path.as_bytes()) else {
                return Got::Memory;
            };
            self.last_failed = LastFailed::Kept(kept);
            self.failed_reads = self.failed_reads.saturating_add(1);
            return Got::Failed;
        }
        let Some(bytes) = bytes_of(self.files.as_slice(), self.store.bytes(), path.as_bytes())
        else {
            return Got::Absent;
        };
        match Vec::from_slice(alloc, bytes) {
            Ok(copy) => Got::Bytes(copy),
            Err(_) => Got::Memory,
        }
    }

    fn put(&mut self, path: &str, bytes: &[u8]) -> Put
        ensures held { Puts path.now bytes.now (Some self.old.files) (Some self.new.files) result }
        ensures faults { PutsOnly path.now (put_failed result) (told_of self.old) (told_of self.new) }
        ensures answer { put_failed result ≡ put_fails path.now bytes.now self.old }
        ensures after { self.new ≡ after_put path.now bytes.now self.old result }
    {
        let listed = self.calls.begin();
        let Some(k) = place_of(self.files.as_slice(), path.as_bytes()) else {
            self.last_failed = LastFailed::Untold;
            self.failed_puts = self.failed_puts.saturating_add(1);
            return Put::Failed;
        };
        if listed || bytes.len() > self.store.room() {
            self.last_failed = LastFailed::Held(k);
            self.failed_puts = self.failed_puts.saturating_add(1);
            return Put::Failed;
        }
        let start = self.store.len();
        self.store.fill(bytes);
        let end = self.store.len();
        let file = &mut self.files[k];
        file.start = start;
        file.end = end;
        Put::Done
    }
}

// The number of the first file of the path.
fn place_of(files: &[HeldFile], path: &[u8]) -> Option<usize>
    ensures { result ≡ position (λ f. bytes_eq f.path path.now) files.now }
{
    files.iter().position(|file| file.path.bytes() == path)
}

// What the path holds.
fn bytes_of<'a>(files: &'a [HeldFile], store: &'a [u8], path: &[u8]) -> Option<&'a [u8]>
    requires { All (IsRange (length store.now)) files.now }
    ensures { option_copied result ≡ bytes_at path.now (files_in store.now files.now) }
{
    let k = place_of(files, path)?;
    let file = &files[k];
    Some(&store[file.start..file.end])
}
