// Places in the files that were read for a unit.
ghost use Rattle.std.specs.Prelude.{◌≡◌, IfOk, option_copied, unwrap_or};
ghost use Rattle.analysis.specs.Below.lexer.Lines.{line_column_of};
ghost use Rattle.include_tree.specs.Below.source_files.Faults.{place_of};
ghost use Rattle.analysis.specs.Analysis.{place_of_index, token_or_last};
ghost use Rattle.analysis.specs.Places.{place_at, place_in_file};
ghost use Rattle.unit_checks.specs.Findings.{is_position, place_apart, source_place};

use cs_base::{Memory, Place, Pos, Text, Tok};
use include_tree::{Cache, KeptFile};
use std::alloc::Global;

const LINES_PATH: &[u8] = b"<lines>";

// The digits of the number of a line begin so many characters behind those of the line before.
const DIGITS_APART: u32 = 8;

// A place of this path.
fn place(alloc: Global, path: &[u8], line: u32, column: u32) -> Result<Place, Memory>
    ensures { IfOk result (λ place. place ≡ place_of path.now (line, column)) }
{
    Ok(Place {
        path: Text::new(alloc, path)?,
        line,
        column,
    })
}

fn line_column(file: &KeptFile, at: u32) -> (u32, u32)
    ensures { result ≡ unwrap_or (line_column_of file.now.bytes at) (1, 1) }
{
    match file.text().line_column(at) {
        Some(place) => place,
        None => (1, 1),
    }
}

fn place_in_file(alloc: Global, file: &KeptFile, at: Pos) -> Result<Place, Memory>
    ensures { IfOk result (λ place. place ≡ place_in_file at file.now) }
{
    let (line, column) = line_column(file, at.at);
    place(alloc, file.path(), line, column)
}

// The place of a position; one without a kept file stands in the pseudo file of lines.
fn place_at(alloc: Global, cache: &Cache, at: Pos) -> Result<Place, Memory>
    ensures { IfOk result (λ place. place ≡ place_at cache.now.table at) }
{
    match cache.file(at.file) {
        Some(file) => place_in_file(alloc, file, at),
        None => place(
            alloc,
            LINES_PATH,
            at.at / DIGITS_APART + 1,
            at.at % DIGITS_APART + 1,
        ),
    }
}

fn token_or_last(toks: &[Tok], index: u32) -> Option<&Tok>
    ensures { option_copied result ≡ token_or_last toks.now index }
{
    let last = toks.len().saturating_sub(1);
    toks.get(last.min(index as usize))
}

/// The place of the token with the index, and of the last one where that is the end; a unit of this path that has no
/// token begins there.
pub(crate) fn place_of_index(
    alloc: Global,
    cache: &Cache,
    path: &[u8],
    toks: &[Tok],
    index: u32,
) -> Result<Place, Memory>
    ensures { IfOk result (λ place. place ≡ place_of_index cache.now.table path.now toks.now index) }
{
    match token_or_last(toks, index) {
        Some(tok) => place_at(alloc, cache, tok.at()),
        None => place(alloc, path, 1, 1),
    }
}

fn is_position(p: Pos, q: Pos) -> bool
    ensures { result ≡ is_position p q }
{
    p.file == q.file && p.at == q.at
}

// The place of a position of a file, where it is another one.
fn place_apart(alloc: Global, cache: &Cache, at: Pos, p: Pos) -> Result<Option<Place>, Memory>
    ensures { IfOk result (λ place. place ≡ place_apart cache.now.table at p) }
{
    if is_position(at, p) {
        return Ok(None);
    }
    match cache.file(p.file) {
        Some(file) => Ok(Some(place_in_file(alloc, file, p)?)),
        None => Ok(None),
    }
}

/// Where a token comes from, if that is elsewhere.
pub(crate) fn source_place(alloc: Global, cache: &Cache, tok: &Tok) -> Result<Option<Place>, Memory>
    ensures { IfOk result (λ place. place ≡ source_place cache.now.table tok.now) }
{
    match tok.origins(0) {
        Some(p) => place_apart(alloc, cache, tok.at(), p),
        None => Ok(None),
    }
}
