// The analysis of a workspace over the files behind a new order.
ghost use Rattle.std.specs.Prelude.{◌≡◌, ◌++◌, ◌∷◌, [], All, IfOk, OnOk};
ghost use Rattle.std.specs.Option.{option_copied};
ghost use Rattle.analysis.specs.Below.include_tree.PseudoFiles.{is_pseudo};
ghost use Rattle.template_meaning.specs.Compared.{bytes_for, edited_bytes, IsEditedFile, IsSecond};

use analysis::{Analysis, KeptFile, analyse};
use cs_base::{Edits, MemFiles, Memory};
use std::alloc::Global;
use std::str;

/// The name of a pseudo file.
pub(crate) fn is_pseudo(path: &[u8]) -> bool
    ensures { result ≡ is_pseudo path.now }
{
    match path {
        [first, ..] => *first == b'<',
        [] => false,
    }
}

// The new bytes of a path, if one of the edits has some.
fn bytes_for<'a>(edits: &'a Edits, path: &[u8]) -> Option<&'a [u8]>
    ensures { option_copied result ≡ bytes_for path.now edits.now }
{
    for k in 0..edits.len() {
        if edits.path(k) == path {
            return Some(edits.bytes(k));
        }
    }
    None
}

// The bytes of a kept file once the edits are made.
fn edited_bytes<'a>(edits: &'a Edits, file: &'a KeptFile) -> &'a [u8]
    ensures { result.now ≡ edited_bytes edits.now file.now }
{
    match bytes_for(edits, file.path()) {
        Some(bytes) => bytes,
        None => file.bytes(),
    }
}

// A file more, unless its path is there. Each path of an analysis has one number, so none is.
fn add_new(files: &mut MemFiles, path: &str, bytes: &[u8]) -> Result<(), Memory>
    ensures { OnOk result (files.new.files ≡ files.old.files ++ (path.now, bytes.now) ∷ []) }
{
    match files.bytes(path) {
        Some(_) => Err(Memory),
        None => {
            files.add(path, bytes)?;
            Ok(())
        }
    }
}

// The same for a file of an analysis once the edits are made, unless it is a pseudo file.
fn add_file(files: &mut MemFiles, edits: &Edits, a: &Analysis, number: u32) -> Result<(), Memory>
    requires { All (IsEditedFile a.now.value.table edits.now) files.old.files }
    ensures { OnOk result (All (IsEditedFile a.now.value.table edits.now) files.new.files) }
{
    let Some(file) = a.file(number) else {
        return Ok(());
    };
    let own = file.path();
    if is_pseudo(own) {
        return Ok(());
    }
    match str::from_utf8(own) {
        Ok(path) => {
            add_new(files, path, edited_bytes(edits, file))?;
            Ok(())
        }
        Err(_) => Err(Memory),
    }
}

// The files of an analysis once the edits are made.
fn files_behind(alloc: Global, edits: &Edits, a: &Analysis) -> Result<MemFiles, Memory>
    ensures { IfOk result (λ files. All (IsEditedFile a.now.value.table edits.now) files.files) }
{
    let mut files = MemFiles::new(alloc);
    for number in 0..a.files() {
        add_file(&mut files, edits, a, number)?;
    }
    Ok(files)
}

/// The workspace, analysed once more, over the files once the edits are made.
pub(crate) fn second(alloc: Global, edits: &Edits, a: &Analysis) -> Result<Analysis, Memory>
    ensures { IfOk result (λ b. IsSecond edits.now a.now.value b.value) }
{
    let mut files = files_behind(alloc, edits, a)?;
    let ws = a.workspace();
    match analyse(alloc, ws, &mut files) {
        Ok(b) => Ok(b),
        Err(_) => Err(Memory),
    }
}
