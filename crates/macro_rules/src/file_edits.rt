// The edits of the files that hold lists of macros and of their calls.
ghost use Rattle.std.specs.Prelude.{◌≡◌, ◌<◌, ◌^◌, [], length, map, IfOk, IsUtf8, OnOk};
ghost use Rattle.std.specs.Option.{option_map_or};
ghost use Rattle.edited_files.specs.Edited.{with_each};
ghost use Rattle.list_cuts.specs.Cuts.{IsOrder};
ghost use Rattle.analysis.specs.Below.source_files.KeptFiles.{kept_at};
ghost use Rattle.analysis.specs.Below.source_files.Tables.{AreText};
ghost use Rattle.macro_rules.specs.Edits.{byte_in, first_byte, end_byte, first_at, end_at, span_between, spans_of, new_bytes, edit_for, edit_in, edits_of};
ghost use Rattle.macro_rules.specs.Files.{toks_in};

use crate::lists::{Marks, lists_in};
use crate::macros::{Asked, Macros};
use analysis::{Analysis, KeptFile};
use cs_base::{Edits, Memory, Pos, Tok};
use edited_files::TextEdits;
use list_cuts::{ListSpans, Span, arrange};
use std::alloc::Global;

// The byte at a position of a file.
fn byte_in(file: &KeptFile, p: Pos) -> usize
    ensures answer { result ≡ byte_in file.now.bytes p }
    ensures few { result < 2 ^ 32 }
{
    match file.text().byte_of(p.at) {
        Some(byte) => byte as usize,
        None => 0,
    }
}

// The byte with which a token begins.
fn first_byte(file: &KeptFile, tok: &Tok) -> usize
    ensures { result ≡ first_byte file.now.bytes tok.now }
{
    match tok.origins(0) {
        Some(p) => byte_in(file, p),
        None => 0,
    }
}

// The byte behind its last character.
fn end_byte(file: &KeptFile, tok: &Tok) -> usize
    ensures { result ≡ end_byte file.now.bytes tok.now }
{
    let len = tok.text().len() as u32;
    let last = if len > 0 { len - 1 } else { 0 };
    match tok.origins(last) {
        Some(p) => byte_in(file, p) + 1,
        None => 0,
    }
}

// The byte with which token `k` of the file begins.
fn first_at(file: &KeptFile, k: usize) -> usize
    ensures { result ≡ first_at file.now.bytes (toks_in file.now) k }
{
    match file.text().toks().get(k) {
        Some(tok) => first_byte(file, tok),
        None => 0,
    }
}

// The byte behind it.
fn end_at(file: &KeptFile, k: usize) -> usize
    ensures { result ≡ end_at file.now.bytes (toks_in file.now) k }
{
    match file.text().toks().get(k) {
        Some(tok) => end_byte(file, tok),
        None => 0,
    }
}

// The item behind one mark and before the next.
fn span_between(file: &KeptFile, after: usize, before: usize) -> Span
    ensures { result ≡ span_between file.now.bytes (toks_in file.now) after before }
{
    if after < before && before - after > 1 {
        let begin = first_at(file, after + 1);
        let end = end_at(file, before - 1);
        Span { begin, end }
    } else {
        let end = end_at(file, after);
        Span { begin: end, end }
    }
}

// The items of a list.
fn spans_of(alloc: Global, file: &KeptFile, list: &[usize]) -> Result<ListSpans, Memory>
    ensures { IfOk result (λ spans. spans ≡ spans_of file.now.bytes (toks_in file.now) list.now) }
{
    let mut items = Vec::new(alloc);
    let mut k = 1;
    'items: while k < list.len() {
        items.push(span_between(file, list[k - 1], list[k]))?;
        k += 1;
    }
    Ok(ListSpans::new(items))
}

// Those of each of these lists.
fn all_spans(alloc: Global, file: &KeptFile, lists: &[Marks]) -> Result<Vec<ListSpans>, Memory>
    ensures { IfOk result (λ spans. spans.items ≡ map (spans_of file.now.bytes (toks_in file.now)) lists.now) }
{
    let mut spans = Vec::new(alloc);
    for list in lists {
        spans.push(spans_of(alloc, file, list.as_slice())?)?;
    }
    Ok(spans)
}

// The bytes of a file with the items of these lists in the new order.
fn new_bytes(
    alloc: Global,
    file: &KeptFile,
    lists: &[Marks],
    order: &[usize],
) -> Result<Vec<u8>, Memory>
    requires { IsOrder (length order.now) order.now }
    ensures { IfOk result (λ bytes. bytes.items ≡ new_bytes order.now lists.now file.now) }
{
    let spans = all_spans(alloc, file, lists)?;
    arrange(alloc, file.bytes(), &spans, order)
}

// The edit of a file that has these lists.
fn put_file(
    alloc: Global,
    edits: &mut TextEdits,
    file: &KeptFile,
    lists: &[Marks],
    order: &[usize],
) -> Result<(), Memory>
    requires order { IsOrder (length order.now) order.now }
    requires text { IsUtf8 file.now.path }
    ensures { OnOk result (edits.new ≡ with_each (edit_for order.now file.now lists.now) edits.old) }
{
    if lists.is_empty() {
        return Ok(());
    }
    if lists.len() > u32::MAX as usize {
        return Err(Memory);
    }
    let bytes = new_bytes(alloc, file, lists, order)?;
    edits.put(alloc, file.path(), &bytes, lists.len() as u32)
}

// The same for the file with a number, if it is kept.
fn put_numbered(
    alloc: Global,
    edits: &mut TextEdits,
    a: &Analysis,
    asked: &Asked<'_>,
    order: &[usize],
    number: u32,
) -> Result<(), Memory>
    requires order { IsOrder (length order.now) order.now }
    requires text { AreText a.now.value.table }
    ensures { OnOk result (edits.new ≡ with_each (option_map_or
        (edit_in order.now asked.now.macros.now asked.now.calls.now) (kept_at a.now.value.table number) []) edits.old) }
{
    match a.file(number) {
        Some(file) => {
            let lists = lists_in(alloc, asked.macros, asked.calls, file)?;
            put_file(alloc, edits, file, &lists, order)
        }
        None => Ok(()),
    }
}

/// The edits of all files that hold a list of a macro of the class, or of a call of one: place k of each list has item
/// `order[k]`.
pub fn edit_files(alloc: Global, macros: &Macros<'_>, order: &[usize]) -> Result<Edits, Memory>
    requires { IsOrder (length order.now) order.now }
    ensures answer { IfOk result (λ edits. edits ≡ edits_of macros.now.members macros.now.analysis.value order.now) }
{
    let a = macros.analysis();
    let asked = macros.asked();
    let mut edits = TextEdits::new(alloc);
    for number in 0..a.files() {
        put_numbered(alloc, &mut edits, a, &asked, order, number)?;
    }
    edits.edits(alloc)
}
