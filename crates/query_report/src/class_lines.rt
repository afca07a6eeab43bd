// The report `class`: the members of the class that a place names.
ghost use Rattle.std.specs.Prelude.{◌≡◌, ◌++◌, ℕ, Err, None, Some, false, IfOk, OnOk, slice_get};
ghost use Rattle.analysis.specs.Below.source_files.KeptFiles.{kept_at};
ghost use Rattle.analysis.specs.ClassReport.{IsClassReport, part_line, part_lines};
ghost use Rattle.analysis.specs.Naming.{file_named};
ghost use Rattle.analysis.specs.Parts.{IsPart};
ghost use Rattle.query_report.specs.Paths.{has_path};
ghost use Rattle.query_report.specs.declared.queries.QueryRefusal.TheVariants.{NoName};

use crate::queries::QueryRefusal;
use analysis::{Analysis, push_place};
use cs_base::{Memory, Part, Place};
use std::alloc::Global;
use std::str;

/// The members of the class of the name at a place, each as `PATH:LINE:COL TEXT` on a line, in the order of
/// their places.
pub(crate) fn class_report(
    alloc: Global,
    a: &Analysis,
    place: &Place,
) -> Result<Vec<u8>, QueryRefusal>
    ensures answer { IfOk result (λ text. IsClassReport a.now.value place.now.path place.now.line place.now.column (Some text.items)) }
    ensures no_name { result ≡ Err NoName → IsClassReport a.now.value place.now.path place.now.line place.now.column None }
{
    let Ok(path) = str::from_utf8(place.path.bytes()) else {
        return unreadable(a, place);
    };
    match a.part_at(path, place.line, place.column) {
        Some(part) => Ok(part_lines(alloc, a, a.members(part))?),
        None => Err(QueryRefusal::NoName),
    }
}

// A place whose path is no text: files that are read have paths that are, so it names nothing.
fn unreadable(a: &Analysis, place: &Place) -> Result<Vec<u8>, QueryRefusal>
    ensures answer { IfOk result (λ text. IsClassReport a.now.value place.now.path place.now.line place.now.column (Some text.items)) }
    ensures no_name { result ≡ Err NoName → IsClassReport a.now.value place.now.path place.now.line place.now.column None }
{
    if is_kept(a, place.path.bytes()) {
        Err(QueryRefusal::Memory)
    } else {
        Err(QueryRefusal::NoName)
    }
}

// Whether a kept file has the path.
fn is_kept(a: &Analysis, path: &[u8]) -> bool
    ensures { result ≡ false → file_named path.now 0 a.now.value.table ≡ None }
{
    for number in 0..a.files() {
        if has_path(a, number, path) {
            return true;
        }
    }
    false
}

// Whether the kept file with a number has the path.
fn has_path(a: &Analysis, number: u32, path: &[u8]) -> bool
    ensures { result ≡ has_path path.now (kept_at a.now.value.table number) }
{
    match a.file(number) {
        Some(file) => path == file.path(),
        None => false,
    }
}

/// The lines of parts, in order.
pub(crate) fn part_lines(alloc: Global, a: &Analysis, parts: &[Part]) -> Result<Vec<u8>, Memory>
    requires parts { (k : ℕ) (part : Part) → slice_get parts.now k ≡ Some part → IsPart a.now.value part }
    ensures { IfOk result (λ text. text.items ≡ part_lines a.now.value parts.now) }
{
    let mut text = Vec::new(alloc);
    for part in parts {
        push_part(&mut text, a, *part)?;
    }
    Ok(text)
}

// Adds the line of a part.
fn push_part(text: &mut Vec<u8>, a: &Analysis, part: Part) -> Result<(), Memory>
    requires { IsPart a.now.value part }
    ensures { OnOk result (text.new.items ≡ text.old.items ++ part_line a.now.value part) }
{
    push_place(text, a, part.start)?;
    text.extend_from_slice(b" ")?;
    text.extend_from_slice(a.spelling(part))?;
    text.extend_from_slice(b"\n")?;
    Ok(())
}
