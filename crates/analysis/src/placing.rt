// Where positions stand: their places and bytes, and the positions of places.
ghost use Rattle.std.specs.Prelude.{◌≡◌, option_copied, unwrap_or};
ghost use Rattle.std.specs.Option.{option_map_or};
ghost use Rattle.std.specs.Str.{bytes_eq};
ghost use Rattle.lexer.specs.Lines.{line_column_of};
ghost use Rattle.include_tree.specs.Below.source_files.Faults.{place_of};
ghost use Rattle.include_tree.specs.Below.source_files.Files.{lines_path};
ghost use Rattle.analysis.specs.Places.{place_in_file, place_in_lines};
ghost use Rattle.analysis.specs.Placing.{IsPositionAt, byte_at, has_place_in_lines, position_at, position_in_lines};

use crate::accepted::Accepted;
use crate::naming::{character_of, file_named};
use cs_base::Pos;
use include_tree::KeptFile;

// The digits of the number of a line begin so many characters behind those of the line before.
const DIGITS_APART: u32 = 8;

// The last line of their pseudo file that has a position.
const MOST_LINES: u32 = 1 << 29;

const LINES_PATH: &[u8] = b"<lines>";

/// The path, the line and the column of a position in its file, which is the pseudo file of lines where none is
/// kept.
pub(crate) fn place_in_one(file: Option<&KeptFile>, at: Pos) -> (&[u8], u32, u32)
    ensures { place_of result.0.now (result.1, result.2) ≡ option_map_or (place_in_file at) (option_copied file.entry) (place_in_lines at) }
{
    match file {
        Some(file) => place_in_file(file, at),
        None => place_in_lines(at),
    }
}

fn place_in_file(file: &KeptFile, at: Pos) -> (&[u8], u32, u32)
    ensures { place_of result.0.now (result.1, result.2) ≡ place_in_file at file.now }
{
    let (line, column) = line_column(file, at.at);
    (file.path(), line, column)
}

fn line_column(file: &KeptFile, at: u32) -> (u32, u32)
    ensures { result ≡ unwrap_or (line_column_of file.now.bytes at) (1, 1) }
{
    match file.text().line_column(at) {
        Some(place) => place,
        None => (1, 1),
    }
}

fn place_in_lines<'a>(at: Pos) -> (&'a [u8], u32, u32)
    ensures { place_of result.0.now (result.1, result.2) ≡ place_in_lines at }
{
    (
        LINES_PATH,
        at.at / DIGITS_APART + 1,
        at.at % DIGITS_APART + 1,
    )
}

/// The byte at which the character of a position begins.
pub(crate) fn byte(a: &Accepted, at: Pos) -> Option<u32>
    ensures { result ≡ byte_at a.now.table at }
{
    match a.file(at.file) {
        Some(file) => file.text().byte_of(at.at),
        None => None,
    }
}

/// The position at a place: the one of a file that has this place.
pub(crate) fn position(a: &Accepted, path: &[u8], line: u32, column: u32) -> Option<Pos>
    ensures { IsPositionAt a.now.table (place_of path.now (line, column)) result }
{
    // Each path has one number, and the first is that of the pseudo file of lines.
    let _files = a.files();
    found_at(a, path, line, column)
}

// The same, found by the path.
fn found_at(a: &Accepted, path: &[u8], line: u32, column: u32) -> Option<Pos>
    ensures { result ≡ position_at a.now.table path.now line column }
{
    if is_lines(path) {
        return position_in_lines(line, column);
    }
    match file_named(a, path) {
        Some(file) => character_of(file, line, column),
        None => None,
    }
}

fn is_lines(path: &[u8]) -> bool
    ensures { result ≡ bytes_eq path.now lines_path }
{
    path == LINES_PATH
}

fn position_in_lines(line: u32, column: u32) -> Option<Pos>
    ensures { result ≡ position_in_lines line column }
{
    if !has_place_in_lines(line, column) {
        return None;
    }
    Some(Pos {
        file: 0,
        at: (line - 1) * DIGITS_APART + (column - 1),
    })
}

fn has_place_in_lines(line: u32, column: u32) -> bool
    ensures { result ≡ has_place_in_lines line column }
{
    1 <= line && line <= MOST_LINES && 1 <= column && column <= DIGITS_APART
}
