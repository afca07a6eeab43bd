// The part that a place names.
ghost use Rattle.std.specs.Prelude.{◌≡◌, Some, slice_get, option_copied};
ghost use Rattle.std.specs.Str.{bytes_eq};
ghost use Rattle.include_tree.specs.Below.source_files.Files.{Entry};
ghost use Rattle.include_tree.specs.Below.source_files.KeptFiles.{kept_at};
ghost use Rattle.analysis.specs.Classes.{AreItsClasses};
ghost use Rattle.analysis.specs.Marking.{AreMarked};
ghost use Rattle.std.specs.Option.{option_and_then};
ghost use Rattle.analysis.specs.Naming.{character_of, file_named, is_processed, named_position, names_processed, where_processed, Names};

use crate::accepted::Accepted;
use crate::marks::{Marks, is_marked};
use crate::token_search::token_over;
use cs_base::{Part, Pos};
use eclass_map::Classes;
use include_tree::KeptFile;

// Whether this is the path with a number.
fn is_path(a: &Accepted, number: u32, path: &[u8]) -> bool
    ensures { (e : Entry) → slice_get a.now.table number ≡ Some e → result ≡ bytes_eq path.now e.path }
{
    match a.path(number) {
        Some(other) => path == other,
        None => false,
    }
}

/// The kept file of a path.
pub(crate) fn file_named<'a>(a: &'a Accepted, path: &[u8]) -> Option<&'a KeptFile>
    ensures { option_copied result ≡ file_named path.now 0 a.now.table }
{
    for number in 0..a.files() {
        if is_path(a, number, path) {
            return a.file(number);
        }
    }
    None
}

/// The character of a file at a line and a column.
pub(crate) fn character_of(file: &KeptFile, line: u32, column: u32) -> Option<Pos>
    ensures { result ≡ character_of line column file.now }
{
    match file.text().at_of(line, column) {
        Some(at) => Some(Pos {
            file: file.number(),
            at,
        }),
        None => None,
    }
}

// Whether a character of a file lies in an identifier that some unit processes.
fn is_processed(a: &Accepted, marks: &[Marks], file: &KeptFile, pos: Pos) -> bool
    requires kept { kept_at a.now.table pos.file ≡ Some file.now }
    requires marked { AreMarked a.now.table (names_processed a.now) marks.now }
    ensures { result ≡ is_processed a.now pos }
{
    match token_over(file.text().toks(), pos) {
        Some(token) => is_marked(marks, pos.file, token),
        None => false,
    }
}

// The position that a place names: that of its character, where it lies in such an identifier.
fn named_position(a: &Accepted, marks: &[Marks], path: &[u8], line: u32, column: u32) -> Option<Pos>
    requires { AreMarked a.now.table (names_processed a.now) marks.now }
    ensures { result ≡ named_position a.now path.now line column }
{
    match file_named(a, path) {
        Some(file) => position_in(a, marks, file, line, column),
        None => None,
    }
}

// The same in a file.
fn position_in(
    a: &Accepted,
    marks: &[Marks],
    file: &KeptFile,
    line: u32,
    column: u32,
) -> Option<Pos>
    requires kept { kept_at a.now.table file.now.number ≡ Some file.now }
    requires marked { AreMarked a.now.table (names_processed a.now) marks.now }
    ensures { result ≡ option_and_then (where_processed a.now) (character_of line column file.now) }
{
    match character_of(file, line, column) {
        Some(pos) => {
            if is_processed(a, marks, file, pos) {
                Some(pos)
            } else {
                None
            }
        }
        None => None,
    }
}

/// The part that a place names: the one that holds its character, where that lies in an identifier which some
/// unit processes. Only the tokens of the file of the path are looked at, by halving.
pub(crate) fn part_named(
    a: &Accepted,
    classes: &Classes,
    marks: &[Marks],
    path: &[u8],
    line: u32,
    column: u32,
) -> Option<Part>
    requires own { AreItsClasses a.now classes.now }
    requires marked { AreMarked a.now.table (names_processed a.now) marks.now }
    ensures { Names a.now path.now line column result }
{
    match named_position(a, marks, path, line, column) {
        Some(pos) => classes.part_at(pos),
        None => None,
    }
}
