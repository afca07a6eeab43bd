// The beginnings that units have in common (ISO/IEC 9899:1999, 5.1.1.2 phase 7): what is read of one is kept for the units
// that begin so.
ghost use Rattle.std.specs.Prelude.{◌≡◌, ◌≤◌, length, true, IfOk, IfSome};
ghost use Rattle.c99_read.specs.Fronts.{BeginsWith};

use crate::unit_fronts::UnitFront;
use cs_base::{Kind, Memory, Standard, Tok};
use std::alloc::Global;

/// How many are kept.
const MOST: usize = 8;

/// How many tokens more two units must have in common, so that what they begin with is kept.
const WORTH: usize = 1024;

fn is_alike(a: &Tok, b: &Tok) -> bool {
    a.kind() == b.kind() && a.text() == b.text()
}

// How many tokens the two begin with, if they do so with the first `from`.
fn common(a: &[Tok], b: &[Tok], from: usize) -> usize {
    let count = a.len().min(b.len());
    'tokens: for k in from..count {
        if !is_alike(&a[k], &b[k]) {
            return k;
        }
    }
    count
}

// The number is that of many tokens behind the first ones.
fn is_worth(count: usize, known: usize) -> bool {
    count >= WORTH && count - WORTH >= known
}

// The token is one of these bytes.
fn is_one_of(tok: &Tok, bytes: &[u8]) -> bool {
    match tok.text() {
        [byte] => bytes.contains(byte),
        _ => false,
    }
}

// How deep brackets are open behind a token.
fn depth_behind(depth: usize, tok: &Tok) -> usize {
    if tok.kind() != Kind::Punct {
        return depth;
    }
    if is_one_of(tok, b"([{") {
        return depth.saturating_add(1);
    }
    if is_one_of(tok, b")]}") {
        return depth.saturating_sub(1);
    }
    depth
}

fn is_end(depth: usize, tok: &Tok) -> bool {
    depth == 0 && tok.kind() == Kind::Punct && tok.text() == b";".as_slice()
}

// Behind the last semicolon outside brackets that two of the first tokens follow; a guess where an external declaration ends.
fn last_end(toks: &[Tok], count: usize) -> usize {
    let count = count.min(toks.len());
    let mut depth = 0;
    let mut end = 0;
    'tokens: for k in 0..count {
        depth = depth_behind(depth, &toks[k]);
        if is_end(depth, &toks[k]) && k + 2 < count {
            end = k + 1;
        }
    }
    end
}

// Copies of the first tokens, so many where there are so many.
fn copies(alloc: Global, toks: &[Tok], count: usize) -> Result<Vec<Tok>, Memory>
    ensures { IfOk result (λ copied. length copied.items ≤ length toks.now) }
{
    let mut copied = Vec::new(alloc);
    'tokens: for k in 0..count.min(toks.len()) {
        let tok = &toks[k];
        copied.push(tok.share(tok.gap(), tok.at(), tok.line(), tok.direct())?)?;
    }
    Ok(copied)
}

/// The front with which the tokens begin by the standard, and of several the longest.
pub(crate) fn front_of<'a>(
    fronts: &'a [UnitFront],
    toks: &[Tok],
    standard: Standard,
) -> Option<&'a UnitFront>
    ensures { IfSome result (λ f. (f.now.standard ≡ standard) × BeginsWith toks.now f.now.reading) }
{
    let mut longest: Option<&'a UnitFront> = None;
    let count = fronts.len();
    'fronts: for k in 0..count {
        longest = longer(longest, &fronts[k], toks, standard);
    }
    longest
}

fn longer<'a>(
    longest: Option<&'a UnitFront>,
    front: &'a UnitFront,
    toks: &[Tok],
    standard: Standard,
) -> Option<&'a UnitFront>
    requires { IfSome longest (λ f. (f.now.standard ≡ standard) × BeginsWith toks.now f.now.reading) }
    ensures { IfSome result (λ f. (f.now.standard ≡ standard) × BeginsWith toks.now f.now.reading) }
{
    let reading = front.reading();
    if end_of(longest) < reading.at() && front.standard() == standard && reading.begins(toks) {
        Some(front)
    } else {
        longest
    }
}

// Where the front ends, if there is one.
fn end_of(front: Option<&UnitFront>) -> usize {
    match front {
        Some(front) => front.reading().at(),
        None => 0,
    }
}

/// A front of what these tokens have in common with others by the same standard, where it is worth it: the longest one with
/// which they begin does not have it but for some tokens.
pub(crate) fn learn(
    alloc: Global,
    known: Option<&UnitFront>,
    before: &[Tok],
    toks: &[Tok],
    standard: Standard,
) -> Result<Option<UnitFront>, Memory> {
    let known = end_of(known);
    // Most units have nothing more in common than what is known, so they are compared from there on first.
    if !is_worth(common(before, toks, known), known) {
        return Ok(None);
    }
    let count = common(before, toks, 0);
    let end = last_end(toks, count);
    if !is_worth(count, known) || !is_worth(end, known) || toks.len() > u32::MAX as usize {
        return Ok(None);
    }
    let seen = copies(alloc, toks, end.saturating_add(2))?;
    UnitFront::of(alloc, seen, end, standard)
}

/// A front more.
pub(crate) fn keep(fronts: &mut Vec<UnitFront>, front: UnitFront) -> Result<(), Memory> {
    if fronts.len() >= MOST {
        fronts.remove(0);
    }
    fronts.push(front)?;
    Ok(())
}
