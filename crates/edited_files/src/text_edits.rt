// Edits by path, one for each.
ghost use Rattle.std.specs.Prelude.{◌≡◌, ◌<◌, ◌^◌, [], false, IfOk, IsUtf8, OnOk, OnErr, length, slice_get};
ghost use Rattle.std.specs.List.{prefix_len};
ghost use Rattle.std.specs.Option.{option_map_or};
ghost use Rattle.std.specs.Str.{bytes_eq};
ghost use Rattle.cs_base.specs.Edit.{edit, comes_before, IsKept};
ghost use Rattle.edited_files.specs.Edited.{with_edit, with_each};
ghost use Rattle.edited_files.specs.Fields.{edits_in};

use cs_base::{Edits, Memory, Text};
use std::alloc::Global;
use std::cmp::Ordering;
use std::marker::Model;

#[derive(Drop)]
struct TextEdit {
    path: Text,
    bytes: Vec<u8>,
    count: u32,
}

/// New bytes for some files. Contracts see a list of edits, by path, one for each.
#[derive(Drop)]
pub struct TextEdits {
    edits: Vec<TextEdit>,
}

impl Model for TextEdits {
    ghost use Rattle.std.specs.Prelude.{List};
    ghost use Rattle.cs_base.specs.Edit.{Edit, IsKept};
    ghost use Rattle.edited_files.specs.Fields.{edits_in};

    ghost Value = { List Edit };

    ghost view = { λ e. edits_in e.edits.items };

    ghost invariant = { λ e. IsKept (edits_in e.edits.items) };
}

impl TextEdits {
    /// No edit.
    pub fn new(alloc: Global) -> TextEdits
        ensures { result ≡ [] }
    {
        TextEdits {
            edits: Vec::new(alloc),
        }
    }

    /// Lets this edit be that of its path.
    pub fn put(
        &mut self,
        alloc: Global,
        path: &[u8],
        bytes: &[u8],
        count: u32,
    ) -> Result<(), Memory>
        requires { IsUtf8 path.now }
        ensures ok { OnOk result (self.new ≡ with_edit (edit path.now bytes.now count) self.old) }
        ensures unchanged { OnErr result (self.new ≡ self.old) }
    {
        let made = TextEdit {
            path: Text::new(alloc, path)?,
            bytes: Vec::from_slice(alloc, bytes)?,
            count,
        };
        let k = place_for(self.edits.as_slice(), path);
        if has_path(self.edits.as_slice(), k, path) {
            self.edits[k] = made;
            return Ok(());
        }
        if self.edits.len() >= u32::MAX as usize {
            return Err(Memory);
        }
        self.edits.insert(k, made)?;
        Ok(())
    }

    /// Lets each of these edits be that of its path.
    pub fn put_each(&mut self, alloc: Global, edits: &Edits) -> Result<(), Memory>
        ensures ok { OnOk result (self.new ≡ with_each edits.now self.old) }
        ensures sound { IsKept self.old }
    {
        let _edits = &self.edits;
        for k in 0..edits.len() {
            self.put(alloc, edits.path(k), edits.bytes(k), edits.count(k))?;
        }
        Ok(())
    }

    /// The edits, to be put.
    pub fn edits(&self, alloc: Global) -> Result<Edits, Memory>
        ensures answer { IfOk result (λ edits. edits ≡ self.now) }
        ensures sound { IsKept self.now }
    {
        copied_edits(alloc, self.edits.as_slice())
    }
}

// The same edits.
fn copied_edits(alloc: Global, edits: &[TextEdit]) -> Result<Edits, Memory>
    requires { IsKept (edits_in edits.now) }
    ensures { IfOk result (λ made. made ≡ edits_in edits.now) }
{
    let mut made = Edits::new(alloc);
    for e in edits {
        let path = Text::new(alloc, e.path.bytes())?;
        let bytes = Vec::from_slice(alloc, e.bytes.as_slice())?;
        made.push(path, bytes, e.count)?;
    }
    Ok(made)
}

// The place of an edit of the path: so many edits come before it.
fn place_for(edits: &[TextEdit], path: &[u8]) -> usize
    ensures { result ≡ prefix_len (λ e. comes_before e.path path.now) edits.now }
{
    edits
        .iter()
        .take_while(|e| comes_before(e.path.bytes(), path))
        .count()
}

// Whether the edit of this number is one of the path.
fn has_path(edits: &[TextEdit], k: usize, path: &[u8]) -> bool
    ensures { result ≡ option_map_or (λ e. bytes_eq e.path path.now) (slice_get edits.now k) false }
{
    match edits.get(k) {
        Some(e) => e.path.bytes() == path,
        None => false,
    }
}

// A path comes before another in the order of their bytes.
fn comes_before(path: &[u8], later: &[u8]) -> bool
    ensures { result ≡ comes_before path.now later.now }
{
    match path.cmp(later) {
        Ordering::Less => true,
        Ordering::Equal => false,
        Ordering::Greater => false,
    }
}
