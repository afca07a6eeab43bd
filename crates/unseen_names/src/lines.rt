// Lines of files, by their tokens: their operands, and the parameters of macros (ISO/IEC 9899:1999, 6.10.3).
ghost use Rattle.std.specs.Prelude.{◌≡◌, drop};
ghost use Rattle.std.specs.List.{list_any};
ghost use Rattle.line_shape.specs.MacroLine.{is_function_like, before_close, params_in};
ghost use Rattle.unseen_names.specs.Words.{has_parameter, is_spelled, operands, parameters_of};

use crate::files::{is_define, is_run};
use cs_base::Tok;
use line_shape::{ItemKind, is_close, is_name, is_open};

// The tokens from number k on.
fn behind(toks: &[Tok], k: usize) -> &[Tok]
    ensures { result.now ≡ drop k toks.now }
{
    if k < toks.len() { &toks[k..] } else { &[] }
}

/// The tokens of an item; in a directive line those behind its word.
pub(crate) fn operands(kind: ItemKind, line: &[Tok]) -> &[Tok]
    ensures { result.now ≡ operands kind line.now }
{
    if is_run(kind) { line } else { behind(line, 2) }
}

/// Whether a token is spelled so.
pub(crate) fn is_spelled(name: &[u8], tok: &Tok) -> bool
    ensures { result ≡ is_spelled name.now tok.now }
{
    name == tok.text()
}

fn is_function_like(toks: &[Tok]) -> bool
    ensures { result ≡ is_function_like toks.now }
{
    match toks {
        [] => false,
        [first, ..] => is_open(first) && !first.gap(),
    }
}

// Whether a name that is spelled so stands before the first `)`.
fn stands_before_close(name: &[u8], toks: &[Tok]) -> bool
    ensures { result ≡ list_any (is_spelled name.now) (params_in (before_close toks.now)) }
{
    let mut rest = toks;
    'tokens: while let [tok, after @ ..] = rest {
        if is_close(tok) {
            return false;
        }
        if is_name(tok) && is_spelled(name, tok) {
            return true;
        }
        rest = after;
    }
    false
}

// Whether the macro of a line has a parameter of this name.
fn is_parameter(name: &[u8], line: &[Tok]) -> bool
    ensures { result ≡ list_any (is_spelled name.now) (parameters_of line.now) }
{
    if is_function_like(behind(line, 3)) {
        stands_before_close(name, behind(line, 4))
    } else {
        false
    }
}

/// Whether the line defines a macro with a parameter of this name.
pub(crate) fn has_parameter(name: &[u8], kind: ItemKind, line: &[Tok]) -> bool
    ensures { result ≡ has_parameter name.now kind line.now }
{
    is_define(kind) && is_parameter(name, line)
}
