// The lists of functions in files, and the bytes of their items.
ghost use Rattle.std.specs.Prelude.{◌≡◌, ◌+◌, ◌-◌, ◌<◌, ◌^◌, ◌++◌, ◌∷◌, [], true, if◌then◌else◌, map, slice_get, IfOk, OnOk};
ghost use Rattle.std.specs.List.{flat_map};
ghost use Rattle.std.specs.List.Sorted.{IsNonDecreasingBy};
ghost use Rattle.std.specs.Option.{option_map_or};
ghost use Rattle.analysis.specs.Below.lexer.Tokens.{tokens_of};
ghost use Rattle.template_rules.specs.ListPlaces.{AreInOrder};
ghost use Rattle.template_rules.specs.FileLists.{characters_of, found_in, function_list, all_found, marks_in, begin_of, place_for, begins_at, with_list, with_lists, lists_in, byte_in, first_byte, end_byte, item_between, items_of};
ghost use Rattle.template_rules.specs.Lists.{separators};
ghost use Rattle.template_rules.specs.Units.{found_of};

use crate::begun_tokens::{are_in_order, begun_before, begun_by};
use crate::functions::Functions;
use crate::places::origin_of;
use crate::unit_functions::{UnitFunctions, names_function};
use analysis::KeptFile;
use c_types::{Indices, List};
use cs_base::{Memory, Pos, Tok};
use list_cuts::{ListSpans, Span};
use std::alloc::Global;

/// A list of a function: its file, and there the characters of its parentheses and of the commas between its items.
#[derive(Drop)]
pub struct FoundList {
    pub file: u32,
    pub marks: Indices,
}

// Adds the character of token `k`, if it stands in the file.
fn push_character(out: &mut Vec<u32>, file: u32, toks: &[Tok], k: u32) -> Result<(), Memory>
    ensures { OnOk result (out.new.items ≡ out.old.items ++ characters_of file toks.now k) }
{
    if let Some(p) = origin_of(toks, k) {
        if p.file == file {
            out.push(p.at)?;
        }
    }
    Ok(())
}

fn push_characters(
    out: &mut Vec<u32>,
    file: u32,
    toks: &[Tok],
    indices: &[u32],
) -> Result<(), Memory>
    ensures { OnOk result (out.new.items ≡ out.old.items ++ flat_map (characters_of file toks.now) indices.now) }
{
    for k in indices {
        push_character(out, file, toks, *k)?;
    }
    Ok(())
}

// The characters of the parentheses and commas of a list.
fn characters_in(alloc: Global, file: u32, toks: &[Tok], list: &List) -> Result<Indices, Memory>
    ensures { IfOk result (λ l. l ≡ flat_map (characters_of file toks.now) (separators list.now)) }
{
    let mut out = Vec::new(alloc);
    push_character(&mut out, file, toks, list.begin)?;
    push_characters(&mut out, file, toks, list.commas.as_slice())?;
    push_character(&mut out, file, toks, list.close)?;
    Ok(Indices::new(out))
}

// Where a list begins.
fn begin_of(list: &Indices) -> u32
    ensures { result ≡ begin_of list.now }
{
    match list.as_slice() {
        [first, ..] => *first,
        [] => 0,
    }
}

// How many lists, which stand in the order in which they begin, begin before a character.
fn place_for(lists: &[Indices], at: u32) -> usize
    requires { IsNonDecreasingBy begin_of lists.now }
    ensures { result ≡ place_for at lists.now }
{
    lists.partition_point(|list| begin_of(list) < at)
}

fn begins_at(lists: &[Indices], at: u32, k: usize) -> bool
    ensures { result ≡ begins_at at lists.now k }
{
    match lists.get(k) {
        Some(list) => begin_of(list) == at,
        None => false,
    }
}

// Lists in the order in which they begin, once this one is among them.
fn put_list(lists: &mut Vec<Indices>, list: Indices) -> Result<(), Memory>
    requires { IsNonDecreasingBy begin_of lists.old.items }
    ensures { OnOk result (lists.new.items ≡ with_list list lists.old.items) }
{
    let at = begin_of(&list);
    let k = place_for(lists.as_slice(), at);
    if begins_at(lists.as_slice(), at, k) {
        return Ok(());
    }
    lists.insert(k, list)?;
    Ok(())
}

// Adds a list of a unit, if it stands in a file.
fn push_found(
    alloc: Global,
    out: &mut Vec<FoundList>,
    toks: &[Tok],
    list: &List,
) -> Result<(), Memory>
    ensures { OnOk result (out.new.items ≡ out.old.items ++ found_in toks.now list.now) }
{
    match origin_of(toks, list.begin) {
        Some(p) => {
            let marks = characters_in(alloc, p.file, toks, list)?;
            out.push(FoundList {
                file: p.file,
                marks,
            })?;
            Ok(())
        }
        None => Ok(()),
    }
}

// The same, if it is one of a function that the class names.
fn push_function_list(
    alloc: Global,
    out: &mut Vec<FoundList>,
    unit: &UnitFunctions<'_>,
    list: &List,
) -> Result<(), Memory>
    ensures { OnOk result (out.new.items ≡ out.old.items
        ++ function_list unit.now.class.members unit.now.text.now.toks unit.now.bound.now.names list.now) }
{
    if names_function(unit, list.name) {
        push_found(alloc, out, unit.text.toks(), list)
    } else {
        Ok(())
    }
}

fn push_lists(
    alloc: Global,
    out: &mut Vec<FoundList>,
    unit: &UnitFunctions<'_>,
    all: &[List],
) -> Result<(), Memory>
    ensures { OnOk result (out.new.items ≡ out.old.items
        ++ flat_map (function_list unit.now.class.members unit.now.text.now.toks unit.now.bound.now.names) all.now) }
{
    for list in all {
        push_function_list(alloc, out, unit, list)?;
    }
    Ok(())
}

// The same for all lists of a unit.
fn push_unit(
    alloc: Global,
    out: &mut Vec<FoundList>,
    unit: &UnitFunctions<'_>,
) -> Result<(), Memory>
    ensures { OnOk result (out.new.items ≡ out.old.items ++ found_of unit.now) }
{
    push_lists(alloc, out, unit, unit.bound.declarators())?;
    push_lists(alloc, out, unit, unit.bound.calls())
}

/// The lists of all functions that a class names, in the order of units.
pub(crate) fn found_lists(
    alloc: Global,
    functions: &Functions<'_>,
) -> Result<Vec<FoundList>, Memory>
    ensures { IfOk result (λ found. found.items ≡ all_found functions.now.members functions.now.analysis.value) }
{
    let mut out = Vec::new(alloc);
    let units = functions.units();
    for unit in units {
        push_unit(alloc, &mut out, unit)?;
    }
    Ok(out)
}

// Lists in the order in which they begin, once this one is among them, if it stands in the file.
fn put_found(
    alloc: Global,
    lists: &mut Vec<Indices>,
    file: u32,
    found: &FoundList,
) -> Result<(), Memory>
    requires { IsNonDecreasingBy begin_of lists.old.items }
    ensures { OnOk result (lists.new.items ≡ with_lists (marks_in file found.now) lists.old.items) }
{
    if found.file == file {
        let marks = Vec::from_slice(alloc, found.marks.as_slice())?;
        put_list(lists, Indices::new(marks))
    } else {
        Ok(())
    }
}

/// Those of these lists that stand in a file, each once, in the order in which they begin.
pub(crate) fn lists_in(
    alloc: Global,
    found: &[FoundList],
    file: u32,
) -> Result<Vec<Indices>, Memory>
    ensures { IfOk result (λ lists. lists.items ≡ lists_in found.now file) }
{
    let mut lists = Vec::new(alloc);
    for one in found {
        put_found(alloc, &mut lists, file, one)?;
    }
    Ok(lists)
}

// The byte at a position of a file.
fn byte_in(file: &KeptFile, p: Pos) -> usize
    ensures answer { result ≡ byte_in file.now.bytes p }
    ensures few { result < 2 ^ 32 }
{
    match file.text().byte_of(p.at) {
        Some(byte) => byte as usize,
        None => 0,
    }
}

// The byte at which a token begins.
fn first_byte(file: &KeptFile, tok: &Tok) -> usize
    ensures { result ≡ first_byte file.now.bytes tok.now }
{
    match tok.origins(0) {
        Some(p) => byte_in(file, p),
        None => 0,
    }
}

// The byte behind its last character.
fn end_byte(file: &KeptFile, tok: &Tok) -> usize
    ensures { result ≡ end_byte file.now.bytes tok.now }
{
    let len = tok.text().len() as u32;
    let last = if len > 0 { len - 1 } else { 0 };
    match tok.origins(last) {
        Some(p) => byte_in(file, p) + 1,
        None => 0,
    }
}

// The item behind one character and before another.
fn item_between(file: &KeptFile, after: u32, before: u32, rises: bool) -> Span
    requires { rises ≡ true → AreInOrder (tokens_of file.now.number file.now.bytes) }
    ensures { result ≡ item_between file.now.bytes (tokens_of file.now.number file.now.bytes) after before }
{
    let toks = file.text().toks();
    let first = begun_by(toks, after, rises);
    let begun = begun_before(toks, before, rises);
    let last = if begun > 0 { begun - 1 } else { 0 };
    let begin = match toks.get(first) {
        Some(tok) => first_byte(file, tok),
        None => 0,
    };
    let end = match toks.get(last) {
        Some(tok) => end_byte(file, tok),
        None => 0,
    };
    Span { begin, end }
}

// The items of a list.
fn items_of(alloc: Global, file: &KeptFile, list: &[u32], rises: bool) -> Result<ListSpans, Memory>
    requires { rises ≡ true → AreInOrder (tokens_of file.now.number file.now.bytes) }
    ensures { IfOk result (λ spans. spans ≡ items_of file.now.bytes (tokens_of file.now.number file.now.bytes) list.now) }
{
    let mut items = Vec::new(alloc);
    let mut k = 1;
    'items: while k < list.len() {
        items.push(item_between(file, list[k - 1], list[k], rises))?;
        k += 1;
    }
    Ok(ListSpans::new(items))
}

/// Those of each of these lists.
pub(crate) fn spans_of(
    alloc: Global,
    file: &KeptFile,
    lists: &[Indices],
) -> Result<Vec<ListSpans>, Memory>
    ensures { IfOk result (λ spans. spans.items ≡ map (items_of file.now.bytes (tokens_of file.now.number file.now.bytes)) lists.now) }
{
    let rises = are_in_order(file.text().toks());
    let mut spans = Vec::new(alloc);
    for list in lists {
        spans.push(items_of(alloc, file, list.as_slice(), rises)?)?;
    }
    Ok(spans)
}
