// Where the file tokens of an analysis stand, in order.
ghost use Rattle.std.specs.Prelude.{◌≡◌, ◌<◌, ◌≤◌, ◌||◌, ◌∷◌, [], ℕ, Some, IfOk, OnOk, MatchBool, filter, length, slice_get};
ghost use Rattle.std.specs.List.{list_any};
ghost use Rattle.std.specs.List.Sorted.{IsNonDecreasingBy};
ghost use Rattle.std.specs.Option.{option_map_or};
ghost use Rattle.cs_base.specs.Token.{has_origins};
ghost use Rattle.cs_base.specs.declared.positions.Part.{Part};
ghost use Rattle.analysis.specs.Below.source_files.KeptFiles.{kept_at};
ghost use Rattle.analysis.specs.FileTokens.{IsFileToken, file_tokens, kept_tokens, span_of, table_tokens};
ghost use Rattle.find_names.specs.FileTokens.{AreFileTokens, has_span, is_part, is_span, place_number};

use analysis::{Analysis, KeptFile};
use cs_base::{Kind, Memory, Part, Pos, Tok};
use std::alloc::Global;

// The characters of a file have lower numbers.
const FILE_SIZE: u64 = 1 << 32;

// Where a token begins, and how many characters it has.
fn span_of(tok: &Tok) -> Part
    ensures { result ≡ span_of tok.now }
{
    Part {
        start: tok.origins(0).unwrap_or(Pos { file: 0, at: 0 }),
        len: tok.text().len() as u32,
    }
}

fn has_origins(kind: Kind) -> bool
    ensures { result ≡ has_origins kind }
{
    match kind {
        Kind::Ident | Kind::Number => true,
        _ => false,
    }
}

/// Whether two parts are one.
pub(crate) fn is_part(part: Part, other: Part) -> bool
    ensures { result ≡ is_part part other }
{
    (part.start.file == other.start.file && part.start.at == other.start.at)
        && part.len == other.len
}

// The number of the place where a part begins, by which it is looked for.
fn place_number(part: Part) -> u64
    ensures { result ≡ place_number part }
{
    part.start.file as u64 * FILE_SIZE + part.start.at as u64
}

fn push(spans: &mut Vec<Part>, tok: &Tok) -> Result<(), Memory>
    ensures { OnOk result ((part : Part) → has_span spans.new.items part ≡ (has_span spans.old.items part || is_span part tok.now)) }
{
    spans.push(span_of(tok))?;
    Ok(())
}

// Adds these tokens.
fn push_all(spans: &mut Vec<Part>, toks: &[Tok]) -> Result<(), Memory>
    ensures { OnOk result ((part : Part) → has_span spans.new.items part ≡ (has_span spans.old.items part || list_any (is_span part) toks.now)) }
{
    for tok in toks {
        push(spans, tok)?;
    }
    Ok(())
}

// Adds a token of a file, if it has parts.
fn push_token(spans: &mut Vec<Part>, tok: &Tok) -> Result<(), Memory>
    ensures { OnOk result ((part : Part) → has_span spans.new.items part
        ≡ (has_span spans.old.items part || list_any (is_span part) (filter (λ t. has_origins t.kind) (tok.now ∷ [])))) }
{
    if has_origins(tok.kind()) {
        push(spans, tok)
    } else {
        Ok(())
    }
}

// Adds those of a file.
fn push_file(spans: &mut Vec<Part>, file: &KeptFile) -> Result<(), Memory>
    ensures { OnOk result ((part : Part) → has_span spans.new.items part
        ≡ (has_span spans.old.items part || list_any (is_span part) (kept_tokens file.now))) }
{
    let toks = file.text().toks();
    for tok in toks {
        push_token(spans, tok)?;
    }
    Ok(())
}

// Adds those of the kept file with this number, if there is one.
fn push_numbered(spans: &mut Vec<Part>, a: &Analysis, number: u32) -> Result<(), Memory>
    ensures { OnOk result ((part : Part) → has_span spans.new.items part
        ≡ (has_span spans.old.items part || list_any (is_span part) (option_map_or kept_tokens (kept_at a.now.value.table number) []))) }
{
    match a.file(number) {
        Some(file) => push_file(spans, file),
        None => Ok(()),
    }
}

// Adds those of all kept files.
fn push_files(spans: &mut Vec<Part>, a: &Analysis) -> Result<(), Memory>
    ensures { OnOk result ((part : Part) → has_span spans.new.items part
        ≡ (has_span spans.old.items part || list_any (is_span part) (table_tokens 0 a.now.value.table))) }
{
    for number in 0..a.files() {
        push_numbered(spans, a, number)?;
    }
    Ok(())
}

// Those of an analysis: of files, and the numbers that units brought.
fn spans_of(alloc: Global, a: &Analysis) -> Result<Vec<Part>, Memory>
    ensures { IfOk result (λ spans. AreFileTokens a.now.value spans.items) }
{
    let mut spans = Vec::new(alloc);
    push_files(&mut spans, a)?;
    push_all(&mut spans, a.numbers_brought())?;
    Ok(spans)
}

// Puts them into the order of their places.
fn put_in_order(spans: &mut Vec<Part>) -> Result<(), Memory>
    ensures same { OnOk result ((part : Part) → has_span spans.new.items part ≡ has_span spans.old.items part) }
    ensures rising { OnOk result (IsNonDecreasingBy place_number spans.new.items) }
{
    spans.sort_by_key(|span| place_number(*span))?;
    Ok(())
}

// How many of them, which are in this order, have a lower number.
fn spans_before(spans: &[Part], number: u64) -> usize
    requires { IsNonDecreasingBy place_number spans.now }
    ensures bound { result ≤ length spans.now }
    ensures lower { (i : ℕ) (span : Part) → slice_get spans.now i ≡ Some span → i < result → place_number span < number }
{
    spans.partition_point(|span| place_number(*span) < number)
}

// Whether one of them is a part: they are looked at from the first at its place on, which is found by halving.
fn has_span(spans: &[Part], part: Part) -> bool
    requires { IsNonDecreasingBy place_number spans.now }
    ensures { result ≡ has_span spans.now part }
{
    let number = place_number(part);
    let from = spans_before(spans, number);
    for at in from..spans.len() {
        let one = spans[at];
        if is_part(one, part) {
            return true;
        }
        if number < place_number(one) {
            return false;
        }
    }
    false
}

/// File tokens, in the order of their files, and there of their first characters.
#[derive(Drop)]
pub(crate) struct FileTokens {
    spans: Vec<Part>,
    ghost rising: { IsNonDecreasingBy place_number spans.items },
}

impl FileTokens {
    /// Those of an analysis.
    pub(crate) fn of(alloc: Global, a: &Analysis) -> Result<FileTokens, Memory>
        ensures { IfOk result (λ tokens. AreFileTokens a.now.value tokens.spans.items) }
    {
        let mut spans = spans_of(alloc, a)?;
        put_in_order(&mut spans)?;
        Ok(FileTokens { spans })
    }

    /// Whether a part is a whole file token.
    pub(crate) fn has(&self, a: &Analysis, part: Part) -> bool
        requires { AreFileTokens a.now.value self.now.spans.items }
        ensures { MatchBool result (IsFileToken a.now.value part) (IsFileToken a.now.value part → ⊥) }
    {
        let _files = a.files();
        has_span(&self.spans, part)
    }
}
