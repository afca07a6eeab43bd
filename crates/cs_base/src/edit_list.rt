// The edits of files that a command has made, before any is put.
ghost use Rattle.std.specs.Prelude.{◌≡◌, ◌≤◌, ◌<◌, ◌+◌, ◌^◌, ◌↔◌, [], ◌∷◌, ◌++◌, length, slice_get, IfSome, OnOk, OnErr, IsTrue, IsUtf8};
ghost use Rattle.cs_base.specs.Edit.{edit, comes_last};

use crate::no_memory::Memory;
use crate::texts::Text;
use std::alloc::Global;
use std::marker::Model;
use std::str;

#[derive(Drop)]
struct FileEdit {
    path: Text,
    bytes: Vec<u8>,
    count: u32,
}

/// New bytes for some files, each with the number of its places that change. Contracts see a list of
/// (path, bytes, count), sorted by the bytes of the paths, each of which is UTF-8 and stands once.
#[derive(Drop)]
pub struct Edits {
    edits: Vec<FileEdit>,
}

impl Model for Edits {
    ghost use Rattle.std.specs.Prelude.{List};
    ghost use Rattle.cs_base.specs.Edit.{Edit};

    ghost Value = { List Edit };

    ghost use Rattle.cs_base.specs.EditList.{edits_in};
    ghost use Rattle.cs_base.specs.Edit.{IsKept};

    ghost view = { λ e. edits_in e.edits.items };

    ghost invariant = { λ e. IsKept (edits_in e.edits.items) };
}

impl Edits {
    ghost use Rattle.cs_base.specs.Edit.{IsKept};

    /// No edit.
    pub fn new(alloc: Global) -> Edits
        ensures { result ≡ [] }
    {
        Edits {
            edits: Vec::new(alloc),
        }
    }

    /// One edit more. On `Memory` the path and the bytes are dropped.
    pub fn push(&mut self, path: Text, bytes: Vec<u8>, count: u32) -> Result<(), Memory>
        requires utf8 { IsUtf8 path }
        requires after { IsTrue (comes_last path self.old) }
        requires few { length self.old + 1 < 2 ^ 32 }
        ensures ok { OnOk result (self.new ≡ self.old ++ edit path bytes.items count ∷ []) }
        ensures unchanged { OnErr result (self.new ≡ self.old) }
    {
        self.edits.push(FileEdit { path, bytes, count })?;
        Ok(())
    }

    /// How many edits there are.
    pub fn len(&self) -> u32
        ensures answer { result ≡ length self.now }
        ensures sound { IsKept self.now }
    {
        self.edits.len() as u32
    }

    pub fn is_empty(&self) -> bool
        ensures { IsTrue result ↔ (self.now ≡ []) }
    {
        self.edits.is_empty()
    }

    /// The path of edit `k`, from 0.
    pub fn path(&self, k: u32) -> &[u8]
        requires { k < length self.now }
        ensures answer { IfSome (slice_get self.now k) (λ e. result.now ≡ e.path) }
        ensures utf8 { IsUtf8 result.now }
    {
        let file = &self.edits[k as usize];
        file.path.bytes()
    }

    /// The same path as text.
    pub fn path_text(&self, k: u32) -> &str
        requires { k < length self.now }
        ensures { IfSome (slice_get self.now k) (λ e. result.now ≡ e.path) }
    {
        match str::from_utf8(self.path(k)) {
            Ok(text) => text,
            Err(_) => unreachable!(),
        }
    }

    /// The new bytes of edit `k`, from 0.
    pub fn bytes(&self, k: u32) -> &[u8]
        requires { k < length self.now }
        ensures { IfSome (slice_get self.now k) (λ e. result.now ≡ e.bytes) }
    {
        let file = &self.edits[k as usize];
        file.bytes.as_slice()
    }

    /// How many places of the file edit `k` changes, from 0.
    pub fn count(&self, k: u32) -> u32
        requires { k < length self.now }
        ensures { IfSome (slice_get self.now k) (λ e. result ≡ e.count) }
    {
        self.edits[k as usize].count
    }
}
