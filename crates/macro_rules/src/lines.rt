// Lines that define macros, by their tokens (ISO/IEC 9899:1999, 6.10.3).
ghost use Rattle.std.specs.Prelude.{◌≡◌, ◌++◌, [], if◌then◌else◌, drop, length, IfOk, OnOk};
ghost use Rattle.std.specs.List.{flat_map, list_any};
ghost use Rattle.std.specs.Option.{option_map_or, unwrap_or};
ghost use Rattle.line_shape.specs.MacroLine.{is_function_like, before_close, behind_close, has_named_rest, params_in};
ghost use Rattle.line_shape.specs.Signs.{is_ellipsis, is_name};
ghost use Rattle.analysis.specs.Below.source_files.KeptFiles.{kept_at};
ghost use Rattle.macro_rules.specs.Files.{in_items};
ghost use Rattle.macro_rules.specs.Levels.{paired};
ghost use Rattle.macro_rules.specs.Macros.{has_list, rests_of, parameters_of, is_fixed, body_of, in_define, loose_place, loose_places};

use crate::files::{is_define, item_toks, items_in};
use crate::levels::{closes, level_behind};
use crate::positions::Positions;
use analysis::{Analysis, KeptFile};
use cs_base::{Memory, Tok};
use line_shape::{Item, is_close, is_ellipsis, is_name, is_open};
use std::alloc::Global;

// The tokens from number k on.
fn behind(toks: &[Tok], k: usize) -> &[Tok]
    ensures { result.now ≡ drop k toks.now }
{
    if k < toks.len() { &toks[k..] } else { &[] }
}

fn is_function_like(toks: &[Tok]) -> bool
    ensures { result ≡ is_function_like toks.now }
{
    match toks {
        [] => false,
        [first, ..] => is_open(first) && !first.gap(),
    }
}

/// Whether the macro is function-like.
pub(crate) fn has_list(line: &[Tok]) -> bool
    ensures { result ≡ has_list line.now }
{
    is_function_like(behind(line, 3))
}

// One for a name.
fn one_for(tok: &Tok) -> usize
    ensures { result ≡ (if is_name tok.now then 1 else 0) }
{
    if is_name(tok) { 1 } else { 0 }
}

// How many names stand before the first `)`.
fn names_before_close(toks: &[Tok]) -> usize
    ensures { result ≡ length (params_in (before_close toks.now)) }
{
    let mut count = 0;
    let mut rest = toks;
    'tokens: while let [tok, after @ ..] = rest {
        if is_close(tok) {
            return count;
        }
        count += one_for(tok);
        rest = after;
    }
    count
}

// Whether `...` stands there.
fn has_ellipsis(toks: &[Tok]) -> bool
    ensures { result ≡ list_any is_ellipsis (before_close toks.now) }
{
    let mut rest = toks;
    'tokens: while let [tok, after @ ..] = rest {
        if is_close(tok) {
            return false;
        }
        if is_ellipsis(tok) {
            return true;
        }
        rest = after;
    }
    false
}

// Whether the last name before the first `)` names a rest: `...` stands behind it, and nothing else.
fn has_named_rest(toks: &[Tok]) -> bool
    ensures { result ≡ has_named_rest (before_close toks.now) }
{
    let mut ends = false;
    let mut named = false;
    let mut rest = toks;
    'tokens: while let [tok, after @ ..] = rest {
        if is_close(tok) {
            return ends;
        }
        ends = is_ellipsis(tok) && named;
        named = is_name(tok);
        rest = after;
    }
    ends
}

// How many names before the first `)` are no parameters.
fn rests_before_close(toks: &[Tok]) -> usize
    ensures { result ≡ rests_of (before_close toks.now) }
{
    if has_named_rest(toks) { 1 } else { 0 }
}

// The tokens behind the first `)`.
fn behind_close(toks: &[Tok]) -> &[Tok]
    ensures { result.now ≡ unwrap_or (behind_close toks.now) [] }
{
    let mut rest = toks;
    'tokens: while let [tok, after @ ..] = rest {
        if is_close(tok) {
            return after;
        }
        rest = after;
    }
    &[]
}

/// How many parameters it has, `...` not counted, nor the name of a rest.
pub(crate) fn parameters_of(line: &[Tok]) -> usize
    ensures { result ≡ parameters_of line.now }
{
    if has_list(line) {
        let list = behind(line, 4);
        names_before_close(list).saturating_sub(rests_before_close(list))
    } else {
        0
    }
}

/// Whether it has a list that does not end in `...`.
pub(crate) fn is_fixed(line: &[Tok]) -> bool
    ensures { result ≡ is_fixed line.now }
{
    has_list(line) && !has_ellipsis(behind(line, 4))
}

// Its replacement list.
fn body_of(line: &[Tok]) -> &[Tok]
    ensures { result.now ≡ body_of line.now }
{
    if has_list(line) {
        behind_close(behind(line, 4))
    } else {
        behind(line, 3)
    }
}

// Whether parentheses pair.
fn is_paired(toks: &[Tok]) -> bool
    ensures { result ≡ paired 0 toks.now }
{
    let mut level: usize = 0;
    let mut rest = toks;
    'tokens: while let [tok, after @ ..] = rest {
        if closes(level, tok) {
            return false;
        }
        level = level_behind(level, tok);
        rest = after;
    }
    level == 0
}

// Adds the name, if parentheses do not pair in its replacement list.
fn push_line(out: &mut Positions, line: &[Tok], name: &Tok) -> Result<(), Memory>
    ensures { OnOk result (out.new ≡ out.old ++ loose_place line.now name.now) }
{
    if is_paired(body_of(line)) {
        Ok(())
    } else {
        out.push(name.at())
    }
}

// The same for an item.
fn push_item(out: &mut Positions, toks: &[Tok], item: &Item) -> Result<(), Memory>
    ensures { OnOk result (out.new ≡ out.old ++ in_define loose_place toks.now item.now) }
{
    if !is_define(item.kind) {
        return Ok(());
    }
    let line = item_toks(toks, item);
    match line.get(2) {
        Some(name) => push_line(out, line, name),
        None => Ok(()),
    }
}

fn push_items(out: &mut Positions, toks: &[Tok], items: &[Item]) -> Result<(), Memory>
    ensures { OnOk result (out.new ≡ out.old ++ flat_map (in_define loose_place toks.now) items.now) }
{
    for item in items {
        push_item(out, toks, item)?;
    }
    Ok(())
}

fn push_file(out: &mut Positions, file: &KeptFile) -> Result<(), Memory>
    ensures { OnOk result (out.new ≡ out.old ++ in_items (in_define loose_place) file.now) }
{
    push_items(out, file.text().toks(), items_in(file))
}

fn push_numbered(out: &mut Positions, a: &Analysis, number: u32) -> Result<(), Memory>
    ensures { OnOk result (out.new ≡ out.old
        ++ option_map_or (in_items (in_define loose_place)) (kept_at a.now.value.table number) []) }
{
    match a.file(number) {
        Some(file) => push_file(out, file),
        None => Ok(()),
    }
}

/// The names of the macros in whose replacement lists parentheses do not pair.
pub(crate) fn loose_places(alloc: Global, a: &Analysis) -> Result<Positions, Memory>
    ensures { IfOk result (λ places. places ≡ loose_places a.now.value.table) }
{
    let mut out = Positions::new(alloc)?;
    for number in 0..a.files() {
        push_numbered(&mut out, a, number)?;
    }
    Ok(out)
}
