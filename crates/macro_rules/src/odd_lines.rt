// Tokens of none of the other kinds, in the lines of lists (ISO/IEC 9899:1999, 6.4 paragraph 3).
ghost use Rattle.std.specs.Prelude.{◌≡◌, ◌++◌, [], IfOk, OnOk};
ghost use Rattle.std.specs.List.{flat_map};
ghost use Rattle.macro_rules.specs.FileOffences.{begin_of, end_of, is_odd, odd_place, odd_places, is_line_feed_at, line_begin, character_of, odd_between, odd_lines};
ghost use Rattle.macro_rules.specs.Files.{toks_in};

use crate::name_offences::push_at;
use analysis::KeptFile;
use cs_base::{Cause, Kind, Memory, Pos, Tok};
use offences::Offence;
use std::alloc::Global;

fn is_odd(kind: Kind) -> bool
    ensures { result ≡ is_odd kind }
{
    match kind {
        Kind::Other => true,
        _ => false,
    }
}

fn push_odd(out: &mut Vec<Pos>, tok: &Tok) -> Result<(), Memory>
    ensures { OnOk result (out.new.items ≡ out.old.items ++ odd_place tok.now) }
{
    if is_odd(tok.kind()) {
        out.push(tok.at())?;
    }
    Ok(())
}

/// Where they stand.
pub(crate) fn odd_places(alloc: Global, toks: &[Tok]) -> Result<Vec<Pos>, Memory>
    ensures { IfOk result (λ odds. odds.items ≡ odd_places toks.now) }
{
    let mut out = Vec::new(alloc);
    for tok in toks {
        push_odd(&mut out, tok)?;
    }
    Ok(out)
}

fn is_line_feed_at(file: &KeptFile, at: u32) -> bool
    ensures { result ≡ is_line_feed_at file.now.bytes at }
{
    match file.text().byte_of(at) {
        Some(byte) => file.bytes()[byte as usize] == b'\n',
        None => false,
    }
}

// The character with which the line of a character begins.
fn line_begin(file: &KeptFile, at: u32) -> u32
    ensures { result ≡ line_begin file.now.bytes at }
{
    let mut begin = at;
    'line: while begin > 0 {
        if is_line_feed_at(file, begin - 1) {
            return begin;
        }
        begin -= 1;
    }
    0
}

/// The number of the first mark of a list.
pub(crate) fn begin_of(list: &[usize]) -> usize
    ensures { result ≡ begin_of list.now }
{
    match list {
        [first, ..] => *first,
        [] => 0,
    }
}

/// The number of the last one.
pub(crate) fn end_of(list: &[usize]) -> usize
    ensures { result ≡ end_of list.now }
{
    match list {
        [.., last] => *last,
        [] => 0,
    }
}

// Where token `k` begins.
fn character_of(toks: &[Tok], k: usize) -> u32
    ensures { result ≡ character_of toks.now k }
{
    match toks.get(k) {
        Some(tok) => tok.at().at,
        None => 0,
    }
}

// Adds `OddToken` at such a token, if its line is between two.
fn push_between(
    out: &mut Vec<Offence>,
    file: &KeptFile,
    from: u32,
    to: u32,
    p: Pos,
) -> Result<(), Memory>
    ensures { OnOk result (out.new.items ≡ out.old.items ++ odd_between file.now.bytes from to p) }
{
    let begin = line_begin(file, p.at);
    if from <= begin && begin <= to {
        push_at(out, Cause::OddToken, p)
    } else {
        Ok(())
    }
}

fn push_all_between(
    out: &mut Vec<Offence>,
    file: &KeptFile,
    from: u32,
    to: u32,
    odds: &[Pos],
) -> Result<(), Memory>
    ensures { OnOk result (out.new.items ≡ out.old.items ++ flat_map (odd_between file.now.bytes from to) odds.now) }
{
    for p in odds {
        push_between(out, file, from, to, *p)?;
    }
    Ok(())
}

/// The same at those in the lines of a list. Lines are asked for only where there are such tokens.
pub(crate) fn push_odd_lines(
    out: &mut Vec<Offence>,
    file: &KeptFile,
    odds: &[Pos],
    list: &[usize],
) -> Result<(), Memory>
    ensures { OnOk result (out.new.items ≡ out.old.items ++ odd_lines file.now.bytes (toks_in file.now) odds.now list.now) }
{
    if odds.is_empty() {
        return Ok(());
    }
    let toks = file.text().toks();
    let from = line_begin(file, character_of(toks, begin_of(list)));
    let to = line_begin(file, character_of(toks, end_of(list)));
    push_all_between(out, file, from, to, odds)
}
