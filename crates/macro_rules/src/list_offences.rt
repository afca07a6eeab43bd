// What lists say against a new order of their items.
ghost use Rattle.std.specs.Prelude.{◌≡◌, ◌-◌, ◌+◌, ◌||◌, ◌++◌, ◌∷◌, [], if◌then◌else◌, codes, OnOk};
ghost use Rattle.std.specs.List.{flat_map};
ghost use Rattle.std.specs.Option.{option_map_or};
ghost use Rattle.analysis.specs.Below.source_files.KeptFiles.{kept_at};
ghost use Rattle.cs_base.specs.declared.causes.Cause.TheVariants as cause;
ghost use Rattle.line_shape.specs.Signs.{is_hash, is_paste, is_sign};
ghost use Rattle.list_cuts.specs.Cuts.{numbers};
ghost use Rattle.offences.specs.First.{offence};
ghost use Rattle.macro_rules.specs.FileOffences.{begin_of, end_of, read_only_list, inside_offences, inside_at, insides, slash_before, slashes, odd_places, call_offences, file_offences};
ghost use Rattle.macro_rules.specs.Files.{in_files, in_items, toks_in};
ghost use Rattle.macro_rules.specs.Lists.{call_lists, lists_in};
ghost use Rattle.macro_rules.specs.Positions.{has};

use crate::files::items_in;
use crate::lists::{Marks, call_lists, lists_in};
use crate::macros::Asked;
use crate::name_offences::{push_at, push_at_token, push_bares, push_directives};
use crate::odd_lines::{begin_of, end_of, odd_places, push_odd_lines};
use crate::positions::Positions;
use analysis::{Analysis, KeptFile};
use cs_base::{Cause, Memory, Pos, Tok};
use line_shape::{is_hash, is_paste, is_sign};
use offences::Offence;
use std::alloc::Global;

// ---- all lists

// Adds `ReadOnly` at the `(` of a list, if its file is read-only.
fn push_read_only(
    out: &mut Vec<Offence>,
    a: &Analysis,
    file: &KeptFile,
    list: &[usize],
) -> Result<(), Memory>
    ensures { OnOk result (out.new.items ≡ out.old.items ++ read_only_list a.now.value file.now list.now) }
{
    if a.read_only(file.number()) {
        push_at_token(out, Cause::ReadOnly, file.text().toks(), begin_of(list))
    } else {
        Ok(())
    }
}

fn push_all_read_only(
    out: &mut Vec<Offence>,
    a: &Analysis,
    file: &KeptFile,
    lists: &[Marks],
) -> Result<(), Memory>
    ensures { OnOk result (out.new.items ≡ out.old.items ++ flat_map (read_only_list a.now.value file.now) lists.now) }
{
    for list in lists {
        push_read_only(out, a, file, list.as_slice())?;
    }
    Ok(())
}

// ---- the tokens of the list of a call

// Adds `OddToken` at a token that may not move, or where a list could be torn.
fn push_torn(out: &mut Vec<Offence>, torn: &Positions, tok: &Tok) -> Result<(), Memory>
    ensures { OnOk result (out.new.items ≡ out.old.items
        ++ (if is_hash tok.now || (is_paste tok.now || has torn.now tok.now.at) then offence cause.OddToken tok.now.at ∷ [] else [])) }
{
    if is_hash(tok) || (is_paste(tok) || torn.has(tok.at())) {
        push_at(out, Cause::OddToken, tok.at())
    } else {
        Ok(())
    }
}

// Adds `LineNumber` where the number of a line is put in.
fn push_number(out: &mut Vec<Offence>, lines: &Positions, tok: &Tok) -> Result<(), Memory>
    ensures { OnOk result (out.new.items ≡ out.old.items ++ (if has lines.now tok.now.at then offence cause.LineNumber tok.now.at ∷ [] else [])) }
{
    if lines.has(tok.at()) {
        push_at(out, Cause::LineNumber, tok.at())
    } else {
        Ok(())
    }
}

fn push_inside(
    out: &mut Vec<Offence>,
    torn: &Positions,
    lines: &Positions,
    tok: &Tok,
) -> Result<(), Memory>
    ensures { OnOk result (out.new.items ≡ out.old.items ++ inside_offences torn.now lines.now tok.now) }
{
    push_torn(out, torn, tok)?;
    push_number(out, lines, tok)
}

// Both at token `k`.
fn push_inside_at(
    out: &mut Vec<Offence>,
    torn: &Positions,
    lines: &Positions,
    toks: &[Tok],
    k: usize,
) -> Result<(), Memory>
    ensures { OnOk result (out.new.items ≡ out.old.items ++ inside_at torn.now lines.now toks.now k) }
{
    match toks.get(k) {
        Some(tok) => push_inside(out, torn, lines, tok),
        None => Ok(()),
    }
}

// The same at the tokens from one number to before another.
fn push_between(
    out: &mut Vec<Offence>,
    torn: &Positions,
    lines: &Positions,
    toks: &[Tok],
    from: usize,
    to: usize,
) -> Result<(), Memory>
    ensures { OnOk result (out.new.items ≡ out.old.items ++ flat_map (inside_at torn.now lines.now toks.now) (numbers from (to - from))) }
{
    for k in from..to {
        push_inside_at(out, torn, lines, toks, k)?;
    }
    Ok(())
}

// The same at the tokens between the parentheses of a list.
fn push_insides(
    out: &mut Vec<Offence>,
    torn: &Positions,
    lines: &Positions,
    toks: &[Tok],
    list: &[usize],
) -> Result<(), Memory>
    ensures { OnOk result (out.new.items ≡ out.old.items ++ insides torn.now lines.now toks.now list.now) }
{
    let end = end_of(list);
    let begin = begin_of(list);
    if begin >= end {
        return Ok(());
    }
    push_between(out, torn, lines, toks, begin + 1, end)
}

// Adds `OddToken` at a `/` before a mark.
fn push_slash(out: &mut Vec<Offence>, tok: &Tok) -> Result<(), Memory>
    ensures { OnOk result (out.new.items ≡ out.old.items ++ (if is_sign (codes "/") tok.now then offence cause.OddToken tok.now.at ∷ [] else [])) }
{
    if is_sign(tok, b"/") {
        push_at(out, Cause::OddToken, tok.at())
    } else {
        Ok(())
    }
}

fn push_slash_before(out: &mut Vec<Offence>, toks: &[Tok], k: usize) -> Result<(), Memory>
    ensures { OnOk result (out.new.items ≡ out.old.items ++ slash_before toks.now k) }
{
    let before = if k > 0 { k - 1 } else { 0 };
    match toks.get(before) {
        Some(tok) => push_slash(out, tok),
        None => Ok(()),
    }
}

fn push_slashes_before(out: &mut Vec<Offence>, toks: &[Tok], marks: &[usize]) -> Result<(), Memory>
    ensures { OnOk result (out.new.items ≡ out.old.items ++ flat_map (slash_before toks.now) marks.now) }
{
    for k in marks {
        push_slash_before(out, toks, *k)?;
    }
    Ok(())
}

fn push_slashes(out: &mut Vec<Offence>, toks: &[Tok], list: &[usize]) -> Result<(), Memory>
    ensures { OnOk result (out.new.items ≡ out.old.items ++ slashes toks.now list.now) }
{
    match list {
        [_, marks @ ..] => push_slashes_before(out, toks, marks),
        [] => Ok(()),
    }
}

// ---- files

// All at the list of a call.
fn push_call(
    out: &mut Vec<Offence>,
    torn: &Positions,
    lines: &Positions,
    file: &KeptFile,
    odds: &[Pos],
    list: &[usize],
) -> Result<(), Memory>
    requires { odds.now ≡ odd_places (toks_in file.now) }
    ensures { OnOk result (out.new.items ≡ out.old.items ++ call_offences torn.now lines.now file.now list.now) }
{
    let toks = file.text().toks();
    push_insides(out, torn, lines, toks, list)?;
    push_slashes(out, toks, list)?;
    push_odd_lines(out, file, odds, list)
}

fn push_calls(
    out: &mut Vec<Offence>,
    torn: &Positions,
    lines: &Positions,
    file: &KeptFile,
    odds: &[Pos],
    lists: &[Marks],
) -> Result<(), Memory>
    requires { odds.now ≡ odd_places (toks_in file.now) }
    ensures { OnOk result (out.new.items ≡ out.old.items ++ flat_map (call_offences torn.now lines.now file.now) lists.now) }
{
    for list in lists {
        push_call(out, torn, lines, file, odds, list.as_slice())?;
    }
    Ok(())
}

// Those at all lists of a file.
fn push_lists(
    alloc: Global,
    out: &mut Vec<Offence>,
    a: &Analysis,
    asked: &Asked<'_>,
    file: &KeptFile,
) -> Result<(), Memory>
    ensures { OnOk result (out.new.items ≡ out.old.items
        ++ flat_map (read_only_list a.now.value file.now) (lists_in asked.now.macros.now asked.now.calls.now file.now)) }
{
    let lists = lists_in(alloc, asked.macros, asked.calls, file)?;
    push_all_read_only(out, a, file, &lists)
}

// Those at the lists of its calls.
fn push_call_lists(
    alloc: Global,
    out: &mut Vec<Offence>,
    asked: &Asked<'_>,
    file: &KeptFile,
) -> Result<(), Memory>
    ensures { OnOk result (out.new.items ≡ out.old.items
        ++ flat_map (call_offences asked.now.torn.now asked.now.lines.now file.now) (in_items (call_lists asked.now.calls.now) file.now)) }
{
    let lists = call_lists(alloc, asked.calls, file)?;
    if lists.is_empty() {
        return Ok(());
    }
    let odds = odd_places(alloc, file.text().toks())?;
    push_calls(out, asked.torn, asked.lines, file, &odds, &lists)
}

// Those of a file.
fn push_file(
    alloc: Global,
    out: &mut Vec<Offence>,
    a: &Analysis,
    asked: &Asked<'_>,
    file: &KeptFile,
) -> Result<(), Memory>
    ensures { OnOk result (out.new.items ≡ out.old.items
        ++ file_offences a.now.value asked.now.macros.now asked.now.calls.now asked.now.torn.now asked.now.lines.now file.now) }
{
    let toks = file.text().toks();
    let items = items_in(file);
    push_directives(out, asked.calls, toks, items)?;
    push_bares(out, asked.calls, toks, items)?;
    push_lists(alloc, out, a, asked, file)?;
    push_call_lists(alloc, out, asked, file)
}

fn push_numbered(
    alloc: Global,
    out: &mut Vec<Offence>,
    a: &Analysis,
    asked: &Asked<'_>,
    number: u32,
) -> Result<(), Memory>
    ensures { OnOk result (out.new.items ≡ out.old.items ++ option_map_or
        (file_offences a.now.value asked.now.macros.now asked.now.calls.now asked.now.torn.now asked.now.lines.now)
        (kept_at a.now.value.table number) []) }
{
    match a.file(number) {
        Some(file) => push_file(alloc, out, a, asked, file),
        None => Ok(()),
    }
}

/// Adds those of all files.
pub(crate) fn push_files(
    alloc: Global,
    out: &mut Vec<Offence>,
    a: &Analysis,
    asked: &Asked<'_>,
) -> Result<(), Memory>
    ensures { OnOk result (out.new.items ≡ out.old.items ++ in_files
        (file_offences a.now.value asked.now.macros.now asked.now.calls.now asked.now.torn.now asked.now.lines.now)
        a.now.value.table) }
{
    for number in 0..a.files() {
        push_numbered(alloc, out, a, asked, number)?;
    }
    Ok(())
}
