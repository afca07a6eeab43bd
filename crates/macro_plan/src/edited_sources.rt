// The files of an analysis, once edits are made.
ghost use Rattle.std.specs.Prelude.{◌≡◌, ◌++◌, ◌∷◌, [], IfOk, OnOk, Some};
ghost use Rattle.std.specs.Option.{option_copied};
ghost use Rattle.analysis.specs.Below.include_tree.PseudoFiles.{is_pseudo};
ghost use Rattle.analysis.specs.Below.source_files.KeptFiles.{kept_at};
ghost use Rattle.macro_plan.specs.Edited.{AreEdited, bytes_for, edited_bytes};

use analysis::{Analysis, KeptFile};
use cs_base::{Edits, MemFiles, Memory};
use std::alloc::Global;
use std::str;

/// The new bytes of a path, if one of the edits has some.
pub(crate) fn bytes_for<'a>(edits: &'a Edits, path: &[u8]) -> Option<&'a [u8]>
    ensures { option_copied result ≡ bytes_for path.now edits.now }
{
    for k in 0..edits.len() {
        if edits.path(k) == path {
            return Some(edits.bytes(k));
        }
    }
    None
}

// The bytes of a kept file once the edits are made.
fn edited_bytes<'a>(edits: &'a Edits, file: &'a KeptFile) -> &'a [u8]
    ensures { result.now ≡ edited_bytes edits.now file.now }
{
    match bytes_for(edits, file.path()) {
        Some(bytes) => bytes,
        None => file.bytes(),
    }
}

fn is_pseudo(path: &[u8]) -> bool
    ensures { result ≡ is_pseudo path.now }
{
    match path {
        [] => false,
        [first, ..] => *first == b'<',
    }
}

// Adds a file of a path that is not held yet.
fn add_text(files: &mut MemFiles, path: &str, bytes: &[u8]) -> Result<(), Memory>
    ensures { OnOk result (files.new.files ≡ files.old.files ++ (path.now, bytes.now) ∷ []) }
{
    if files.bytes(path).is_some() {
        return Err(Memory);
    }
    files.add(path, bytes)
}

// The same; each path is text.
fn add(files: &mut MemFiles, path: &[u8], bytes: &[u8]) -> Result<(), Memory>
    ensures { OnOk result (files.new.files ≡ files.old.files ++ (path.now, bytes.now) ∷ []) }
{
    match str::from_utf8(path) {
        Ok(text) => add_text(files, text, bytes),
        Err(_) => Err(Memory),
    }
}

// Adds a kept file, if it is no pseudo file.
fn add_file(
    files: &mut MemFiles,
    a: &Analysis,
    edits: &Edits,
    number: u32,
    file: &KeptFile,
) -> Result<(), Memory>
    requires kept { kept_at a.now.value.table number ≡ Some file.now }
    requires before { AreEdited a.now.value.table edits.now files.old.files }
    ensures { OnOk result (AreEdited a.now.value.table edits.now files.new.files) }
{
    if is_pseudo(file.path()) {
        Ok(())
    } else {
        add(files, file.path(), edited_bytes(edits, file))
    }
}

fn add_numbered(
    files: &mut MemFiles,
    a: &Analysis,
    edits: &Edits,
    number: u32,
) -> Result<(), Memory>
    requires { AreEdited a.now.value.table edits.now files.old.files }
    ensures { OnOk result (AreEdited a.now.value.table edits.now files.new.files) }
{
    match a.file(number) {
        Some(file) => add_file(files, a, edits, number, file),
        None => Ok(()),
    }
}

/// All kept files of an analysis that are no pseudo files, once the edits are made.
pub(crate) fn edited_sources(alloc: Global, a: &Analysis, edits: &Edits) -> Result<MemFiles, Memory>
    ensures { IfOk result (λ files. AreEdited a.now.value.table edits.now files.files) }
{
    let mut files = MemFiles::new(alloc);
    for number in 0..a.files() {
        add_numbered(&mut files, a, edits, number)?;
    }
    Ok(files)
}
