// The analysis of a workspace over the files behind a trim.
ghost use Rattle.std.specs.Prelude.{◌≡◌, ◌++◌, ◌∷◌, [], All, IfOk, OnOk};
ghost use Rattle.analysis.specs.Below.include_tree.PseudoFiles.{is_pseudo};
ghost use Rattle.trim_rules.specs.Trimmed.{trimmed};
ghost use Rattle.trim_plan.specs.Second.{IsFileOf, IsSecond};

use analysis::{Analysis, KeptFile, analyse};
use cs_base::{MemFiles, Memory};
use std::alloc::Global;
use std::str;
use trim_rules::{Lines, trimmed};

// The name of a pseudo file.
fn is_pseudo(path: &[u8]) -> bool
    ensures { result ≡ is_pseudo path.now }
{
    match path {
        [first, ..] => *first == b'<',
        [] => false,
    }
}

// A file more, unless its path is there. Each path of an analysis has one number, so none is.
fn add_new(files: &mut MemFiles, path: &str, bytes: &[u8]) -> Result<(), Memory>
    ensures { OnOk result (files.new.files ≡ files.old.files ++ (path.now, bytes.now) ∷ []) }
{
    match files.bytes(path) {
        Some(_) => Err(Memory),
        None => {
            files.add(path, bytes)?;
            Ok(())
        }
    }
}

// A file more, in which these lines are null directives.
fn add_trimmed(
    alloc: Global,
    files: &mut MemFiles,
    lines: &Lines,
    file: &KeptFile,
    path: &str,
) -> Result<(), Memory>
    ensures { OnOk result (files.new.files ≡ files.old.files ++ (path.now, trimmed lines.now file.now) ∷ []) }
{
    let made = trimmed(alloc, lines, file)?;
    match made {
        Some(new) => add_new(files, path, &new.bytes),
        None => add_new(files, path, file.bytes()),
    }
}

// The same for a file of an analysis, unless it is a pseudo file.
fn add_file(
    alloc: Global,
    files: &mut MemFiles,
    lines: &Lines,
    a: &Analysis,
    number: u32,
) -> Result<(), Memory>
    requires { All (IsFileOf lines.now a.now.value.table) files.old.files }
    ensures { OnOk result (All (IsFileOf lines.now a.now.value.table) files.new.files) }
{
    let Some(file) = a.file(number) else {
        return Ok(());
    };
    let own = file.path();
    if is_pseudo(own) {
        return Ok(());
    }
    match str::from_utf8(own) {
        Ok(path) => {
            add_trimmed(alloc, files, lines, file, path)?;
            Ok(())
        }
        Err(_) => Err(Memory),
    }
}

// The files of an analysis, in which these lines are null directives.
fn files_behind(alloc: Global, lines: &Lines, a: &Analysis) -> Result<MemFiles, Memory>
    ensures { IfOk result (λ files. All (IsFileOf lines.now a.now.value.table) files.files) }
{
    let mut files = MemFiles::new(alloc);
    for number in 0..a.files() {
        add_file(alloc, &mut files, lines, a, number)?;
    }
    Ok(files)
}

/// The workspace, analysed once more, over the files in which these lines are null directives.
pub(crate) fn second(alloc: Global, lines: &Lines, a: &Analysis) -> Result<Analysis, Memory>
    ensures { IfOk result (λ b. IsSecond lines.now a.now.value b.value) }
{
    let mut files = files_behind(alloc, lines, a)?;
    let ws = a.workspace();
    match analyse(alloc, ws, &mut files) {
        Ok(b) => Ok(b),
        Err(_) => Err(Memory),
    }
}
