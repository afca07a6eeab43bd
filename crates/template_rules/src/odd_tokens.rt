// Tokens of none of the other kinds, in lines with tokens of lists (ISO/IEC 9899:1999, 6.4 paragraph 3).
ghost use Rattle.std.specs.Prelude.{◌≡◌, ◌-◌, ◌++◌, [], ◌&&◌, if◌then◌else◌, not, IfOk, OnOk};
ghost use Rattle.std.specs.List.{flat_map};
ghost use Rattle.std.specs.Option.{option_map_or};
ghost use Rattle.cs_base.specs.declared.causes.Cause.TheVariants as cause;
ghost use Rattle.list_cuts.specs.Cuts.{numbers};
ghost use Rattle.analysis.specs.Below.source_files.KeptFiles.{kept_at};
ghost use Rattle.offences.specs.First.{standing, FirstThen};
ghost use Rattle.offences.specs.Tokens.{file_toks};
ghost use Rattle.template_rules.specs.LineOffences.{is_odd, odd_places, odd_position, odd_positions};
ghost use Rattle.template_rules.specs.MacroOffences.{is_direct as is_direct_list};
ghost use Rattle.template_rules.specs.Marks.{is_across as is_across_list};
ghost use Rattle.template_rules.specs.OddLines.{AreOdd, odds_among, odds_among_list, odds_by_list, odds_by_token};

use crate::list_macros::is_direct;
use crate::odd_lines::OddLines;
use crate::places::origin_of;
use crate::unit_functions::UnitFunctions;
use analysis::Analysis;
use c_types::List;
use cs_base::{Cause, Kind, Memory, Pos, Tok};
use offences::{Offence, first_with};
use std::alloc::Global;

fn is_odd(kind: Kind) -> bool
    ensures { result ≡ is_odd kind }
{
    match kind {
        Kind::Other => true,
        _ => false,
    }
}

fn push_odd(out: &mut Vec<Pos>, tok: &Tok) -> Result<(), Memory>
    ensures { OnOk result (out.new.items ≡ out.old.items ++ odd_position tok.now) }
{
    if is_odd(tok.kind()) {
        out.push(tok.at())?;
    }
    Ok(())
}

fn push_odd_of(out: &mut Vec<Pos>, toks: &[Tok]) -> Result<(), Memory>
    ensures { OnOk result (out.new.items ≡ out.old.items ++ flat_map odd_position toks.now) }
{
    for tok in toks {
        push_odd(out, tok)?;
    }
    Ok(())
}

fn push_odd_in(out: &mut Vec<Pos>, a: &Analysis, number: u32) -> Result<(), Memory>
    ensures { OnOk result (out.new.items ≡ out.old.items ++ flat_map odd_position (option_map_or file_toks (kept_at a.now.value.table number) [])) }
{
    match a.file(number) {
        Some(file) => push_odd_of(out, file.text().toks()),
        None => Ok(()),
    }
}

/// Where they stand in all files.
pub(crate) fn odd_tokens(alloc: Global, a: &Analysis) -> Result<Vec<Pos>, Memory>
    ensures { IfOk result (λ odds. odds.items ≡ odd_positions a.now.value.table) }
{
    let mut out = Vec::new(alloc);
    for number in 0..a.files() {
        push_odd_in(&mut out, a, number)?;
    }
    Ok(out)
}

// `OddToken` at the first token in the lines from a position to another.
fn odd_among(
    a: &Analysis,
    lines: &OddLines,
    from: Pos,
    to: Pos,
    first: Option<Offence>,
) -> Option<Offence>
    requires { AreOdd a.now.value.table (odd_positions a.now.value.table) lines.now }
    ensures { FirstThen a.now.value.table
        (standing cause.OddToken (odds_among a.now.value.table (odd_positions a.now.value.table) from to)) first result }
{
    match lines.first_among(from, to.at) {
        Some(p) => first_with(a, first, p, Cause::OddToken),
        None => first,
    }
}

// The same in the line of the source token that brought token `k`.
fn odd_by_token(
    a: &Analysis,
    lines: &OddLines,
    toks: &[Tok],
    k: u32,
    first: Option<Offence>,
) -> Option<Offence>
    requires { AreOdd a.now.value.table (odd_positions a.now.value.table) lines.now }
    ensures { FirstThen a.now.value.table
        (standing cause.OddToken (odds_by_token a.now.value.table (odd_positions a.now.value.table) toks.now k)) first result }
{
    if (k as usize) < toks.len() {
        let at = toks[k as usize].at();
        odd_among(a, lines, at, at, first)
    } else {
        first
    }
}

// The same for each token from one to before another.
fn odd_by_tokens(
    a: &Analysis,
    lines: &OddLines,
    toks: &[Tok],
    begin: u32,
    close: u32,
    first: Option<Offence>,
) -> Option<Offence>
    requires { AreOdd a.now.value.table (odd_positions a.now.value.table) lines.now }
    ensures { FirstThen a.now.value.table (standing cause.OddToken (flat_map
        (odds_by_token a.now.value.table (odd_positions a.now.value.table) toks.now) (numbers begin (close - begin)))) first result }
{
    let mut now = first;
    for k in begin..close {
        now = odd_by_token(a, lines, toks, k, now);
    }
    now
}

// The same in the lines from the `(` of a list to its `)`, as they stand in the file.
fn odd_among_list(
    a: &Analysis,
    lines: &OddLines,
    toks: &[Tok],
    list: &List,
    first: Option<Offence>,
) -> Option<Offence>
    requires { AreOdd a.now.value.table (odd_positions a.now.value.table) lines.now }
    ensures { FirstThen a.now.value.table
        (standing cause.OddToken (odds_among_list a.now.value.table (odd_positions a.now.value.table) toks.now list.now)) first result }
{
    match origin_of(toks, list.begin) {
        Some(from) => match origin_of(toks, list.close) {
            Some(to) => odd_among(a, lines, from, to, first),
            None => first,
        },
        None => first,
    }
}

// The same for the tokens of a list.
fn odd_by_list(
    a: &Analysis,
    lines: &OddLines,
    toks: &[Tok],
    list: &List,
    first: Option<Offence>,
) -> Option<Offence>
    requires { AreOdd a.now.value.table (odd_positions a.now.value.table) lines.now }
    ensures { FirstThen a.now.value.table
        (standing cause.OddToken (odds_by_list a.now.value.table (odd_positions a.now.value.table) toks.now list.now)) first result }
{
    let named = odd_by_token(a, lines, toks, list.name, first);
    let closed = odd_by_token(a, lines, toks, list.close, named);
    odd_by_tokens(a, lines, toks, list.begin, list.close, closed)
}

// Whether the lines from the `(` of a list to its `)` count: no macro put its marks in, and no directive stands in it.
fn is_whole(unit: &UnitFunctions<'_>, list: &List) -> bool
    ensures { result ≡ (is_direct_list unit.now.text.now.toks list.now && not (is_across_list unit.now.text.now.reached list.now)) }
{
    is_direct(unit.text.toks(), list) && !unit.runs.is_across(list)
}

// The same in these lines, if they count.
fn odd_inside(
    a: &Analysis,
    lines: &OddLines,
    toks: &[Tok],
    list: &List,
    whole: bool,
    first: Option<Offence>,
) -> Option<Offence>
    requires { AreOdd a.now.value.table (odd_positions a.now.value.table) lines.now }
    ensures { FirstThen a.now.value.table (standing cause.OddToken
        (if whole then odds_among_list a.now.value.table (odd_positions a.now.value.table) toks.now list.now else [])) first result }
{
    if whole {
        odd_among_list(a, lines, toks, list, first)
    } else {
        first
    }
}

/// `OddToken` at each of these tokens in the lines of a list. The first in each line tells.
pub(crate) fn odds_at(
    a: &Analysis,
    lines: &OddLines,
    unit: &UnitFunctions<'_>,
    list: &List,
    first: Option<Offence>,
) -> Option<Offence>
    requires { AreOdd a.now.value.table (odd_positions a.now.value.table) lines.now }
    ensures { FirstThen a.now.value.table (standing cause.OddToken (odd_places a.now.value.table
        (odd_positions a.now.value.table) unit.now.text.now list.now)) first result }
{
    let toks = unit.text.toks();
    let now = odd_by_list(a, lines, toks, list, first);
    odd_inside(a, lines, toks, list, is_whole(unit, list), now)
}
