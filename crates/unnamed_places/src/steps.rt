// The first step on the way from a place to a part that fails.
ghost use Rattle.std.specs.Prelude.{◌≡◌, MatchOption, option_copied};
ghost use Rattle.std.specs.List.{list_any};
ghost use Rattle.analysis.specs.Below.source_files.KeptFiles.{KeptValue};
ghost use Rattle.analysis.specs.FileTokens.{span_of};
ghost use Rattle.analysis.specs.Naming.{character_of};
ghost use Rattle.unnamed_places.specs.Unnamed.{has_path_at, in_name, is_name_over, IsFile, IsUnnamed, IsWhy};

use analysis::{Analysis, KeptFile};
use cs_base::{Part, Pos, Tok};
use eclass_map::part_holds;
use line_shape::is_name;

/// Why a place names nothing.
#[derive(Clone, Copy, Debug, PartialEq, Eq)]
pub enum FailedStep {
    /// No unit reads a file of this path.
    NoFile,
    /// The file has no byte there.
    NoCharacter,
    /// It lies in no identifier.
    NoIdentifier,
    /// No unit processes the identifier.
    Unprocessed,
}

/// Why the place names nothing; none where it names a part. Lines and columns count from 1.
pub fn unnamed(a: &Analysis, path: &str, line: u32, column: u32) -> Option<FailedStep>
    ensures { IsUnnamed a.now.value path.now line column result }
{
    match a.part_at(path, line, column) {
        Some(_) => None,
        None => Some(why(a, path.as_bytes(), line, column)),
    }
}

// Why, where it names none.
fn why(a: &Analysis, path: &[u8], line: u32, column: u32) -> FailedStep
    ensures { IsWhy a.now.value path.now line column result }
{
    match file_of(a, path) {
        Some(file) => why_in(a, path, file, line, column),
        None => FailedStep::NoFile,
    }
}

// ---- files

// Whether the file with a number has a path.
fn has_path_at(a: &Analysis, path: &[u8], number: u32) -> bool
    ensures { result ≡ has_path_at a.now.value path.now number }
{
    match a.file(number) {
        Some(file) => path == file.path(),
        None => false,
    }
}

// The file of a path.
fn file_of<'a>(a: &'a Analysis, path: &[u8]) -> Option<&'a KeptFile>
    ensures { MatchOption (option_copied result) ((file : KeptValue) → IsFile a.now.value path.now file → ⊥) (IsFile a.now.value path.now) }
{
    for number in 0..a.files() {
        if has_path_at(a, path, number) {
            return a.file(number);
        }
    }
    None
}

// ---- characters

// Where a token begins, and how many characters it has.
fn span(tok: &Tok) -> Part
    ensures { result ≡ span_of tok.now }
{
    Part {
        start: tok.origins(0).unwrap_or(Pos { file: 0, at: 0 }),
        len: tok.text().len() as u32,
    }
}

// Whether a token is an identifier that holds a position.
fn is_name_over(tok: &Tok, p: Pos) -> bool
    ensures { result ≡ is_name_over p tok.now }
{
    is_name(tok) && part_holds(span(tok), p)
}

// Whether some token of these is.
fn any_over(toks: &[Tok], p: Pos) -> bool
    ensures { result ≡ list_any (is_name_over p) toks.now }
{
    for tok in toks {
        if is_name_over(tok, p) {
            return true;
        }
    }
    false
}

// Whether a position lies in an identifier of a file.
fn in_name(file: &KeptFile, p: Pos) -> bool
    ensures { result ≡ in_name file.now p }
{
    any_over(file.text().toks(), p)
}

// The character of a file at a line and a column.
fn character_of(file: &KeptFile, line: u32, column: u32) -> Option<Pos>
    ensures { result ≡ character_of line column file.now }
{
    match file.text().at_of(line, column) {
        Some(at) => Some(Pos {
            file: file.number(),
            at,
        }),
        None => None,
    }
}

// Why no character of a file names anything.
fn why_in(a: &Analysis, path: &[u8], file: &KeptFile, line: u32, column: u32) -> FailedStep
    requires { IsFile a.now.value path.now file.now }
    ensures { IsWhy a.now.value path.now line column result }
{
    match character_of(file, line, column) {
        None => FailedStep::NoCharacter,
        Some(p) => {
            if in_name(file, p) {
                FailedStep::Unprocessed
            } else {
                FailedStep::NoIdentifier
            }
        }
    }
}
