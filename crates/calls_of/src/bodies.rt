// Replacement lists in `define` lines (ISO/IEC 9899:1999, 6.10.3).
ghost use Rattle.std.specs.Prelude.{◌≡◌, ◌<◌, length, IfSome};
ghost use Rattle.std.specs.List.{position, slice_range};
ghost use Rattle.line_shape.specs.MacroLine.{is_function_like};
ghost use Rattle.line_shape.specs.Signs.{is_open, is_close};
ghost use Rattle.calls_of.specs.Bodies.{behind_first_close, is_define, list_behind};

use cs_base::Tok;
use line_shape::{ItemKind, is_close, is_open};

// Whether the tokens behind a macro's name make it function-like.
fn is_function_like(toks: &[Tok]) -> bool
    ensures { result ≡ is_function_like toks.now }
{
    match toks {
        [] => false,
        [first, ..] => is_open(first) && !first.gap(),
    }
}

// The index of the first `)`.
fn close_at(toks: &[Tok]) -> Option<usize>
    ensures answer { result ≡ position is_close toks.now }
    ensures within { IfSome result (λ k. k < length toks.now) }
{
    toks.iter().position(|tok| is_close(tok))
}

fn behind_first_close(toks: &[Tok]) -> &[Tok]
    ensures { result.now ≡ behind_first_close toks.now }
{
    match close_at(toks) {
        Some(k) => &toks[k + 1..],
        None => &[],
    }
}

/// The replacement list among the tokens behind a macro's name.
pub(crate) fn list_behind(toks: &[Tok]) -> &[Tok]
    ensures { result.now ≡ list_behind toks.now }
{
    if is_function_like(toks) {
        behind_first_close(toks)
    } else {
        toks
    }
}

/// Whether an item is a `define` line.
pub(crate) fn is_define(kind: ItemKind) -> bool
    ensures { result ≡ is_define kind }
{
    match kind {
        ItemKind::Define => true,
        _ => false,
    }
}

/// The tokens from one number to before another, of those that there are.
pub(crate) fn between(toks: &[Tok], from: usize, to: usize) -> &[Tok]
    ensures { result.now ≡ slice_range toks.now from to }
{
    let end = to.min(toks.len());
    if from < end { &toks[from..end] } else { &[] }
}
