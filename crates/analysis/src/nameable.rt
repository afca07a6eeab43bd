// Which tokens of a reached item a place may name (6.10).
ghost use Rattle.std.specs.Prelude.{◌≡◌, ◌≤◌, ◌<◌, ◌+◌, ◌^◌, ◌&&◌, if◌then◌else◌, min, length, slice_range};
ghost use Rattle.include_tree.specs.Below.line_shape.Directives.{is_elif};
ghost use Rattle.include_tree.specs.Below.source_files.HeaderNames.{is_header};
ghost use Rattle.analysis.specs.Naming.{computed_name, nameable_next, nameable_behind, nameable};

use cs_base::{Kind, Tok};
use include_tree::{GnuLine, Item, ItemKind, begins_header};

fn is_header(tok: &Tok) -> bool
    ensures { result ≡ is_header tok.now.kind }
{
    match tok.kind() {
        Kind::Header => true,
        _ => false,
    }
}

// Behind which token an include line that is expanded ends: none of its tokens where it has a header name.
fn computed_end(toks: &[Tok], from: usize, to: usize) -> usize
    requires { to ≤ length toks.now }
    ensures answer { computed_name (slice_range toks.now from to) ≡ slice_range toks.now from result }
    ensures within { result ≤ length toks.now }
{
    if from < to && is_header(&toks[from]) {
        0
    } else {
        to
    }
}

/// The tokens of a reached item that a place may name: those from one number to before another.
pub(crate) fn nameable_range(toks: &[Tok], item: &Item, evaluated: bool) -> (usize, usize)
    requires { item.now.to ≤ length toks.now }
    ensures answer { nameable item.now.kind evaluated (slice_range toks.now item.now.from item.now.to) ≡ slice_range toks.now result.0 result.1 }
    ensures within { result.1 ≤ length toks.now }
{
    let from = item.from as usize;
    let to = item.to as usize;
    let operands = from + 2;
    match item.kind {
        ItemKind::Run => (from, to),
        ItemKind::Define => (operands, to),
        ItemKind::Undef => (operands, first_of(operands, to)),
        ItemKind::Ifdef => (operands, first_of(operands, to)),
        ItemKind::Ifndef => (operands, first_of(operands, to)),
        ItemKind::If => (operands, if evaluated { to } else { 0 }),
        ItemKind::Elif => (operands, if evaluated { to } else { 0 }),
        ItemKind::Include => (operands, computed_end(toks, operands, to)),
        ItemKind::Gnu(line) => (operands, gnu_end(toks, line, evaluated, operands, to)),
        _ => (operands, 0),
    }
}

// Behind which token a line ends that GNU C alone has: none of its tokens where it asks for no name, and where the name of a
// header stands there.
fn gnu_end(toks: &[Tok], line: GnuLine, evaluated: bool, from: usize, to: usize) -> usize
    requires within { to ≤ length toks.now }
    requires low { from < 2 ^ 33 }
    ensures answer { nameable_behind line evaluated (slice_range toks.now from to) ≡ slice_range toks.now from result }
    ensures within { result ≤ length toks.now }
{
    match line {
        GnuLine::IncludeNext => next_end(toks, from, to),
        _ => asked_end(line, evaluated, from, to),
    }
}

// Behind which token a line ends that asks for the next file of a name: none where the name stands there.
fn next_end(toks: &[Tok], from: usize, to: usize) -> usize
    requires { to ≤ length toks.now }
    ensures answer { nameable_next (slice_range toks.now from to) ≡ slice_range toks.now from result }
    ensures within { result ≤ length toks.now }
{
    if from >= to || begins_header(&toks[from..to]) {
        0
    } else {
        to
    }
}

// Behind the name that a line asks for which GNU C alone has: none of its tokens where it asks for none.
fn asked_end(line: GnuLine, evaluated: bool, from: usize, to: usize) -> usize
    requires { from < 2 ^ 33 }
    ensures answer { result ≡ (if evaluated && is_elif line then min (from + 1) to else 0) }
    ensures within { result ≤ to }
{
    match line {
        GnuLine::Elifdef | GnuLine::Elifndef if evaluated => first_of(from, to),
        _ => 0,
    }
}

// Behind the first token from a number on, where the tokens end at another.
fn first_of(from: usize, to: usize) -> usize
    requires { from < 2 ^ 33 }
    ensures { result ≡ min (from + 1) to }
{
    if from < to { from + 1 } else { to }
}
