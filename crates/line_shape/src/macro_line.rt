// What can stand against a `define` line behind the macro's name (6.10.3).
ghost use Rattle.std.specs.Prelude.{◌≡◌, IfOk};
ghost use Rattle.std.specs.List.{list_any};
ghost use Rattle.line_shape.specs.Signs.{is_va_args};
ghost use Rattle.line_shape.specs.MacroLine.{macro_of};
ghost use Rattle.line_shape.specs.BadLines.{begins_with, is_operand, has_lone_hash, has_end_paste};
ghost use Rattle.line_shape.specs.Walk.{parameters_of, body_cause, definition_cause, function_cause};

use crate::names::Names;
use crate::parameters::parameter_list;
use crate::signs::{is_hash, is_name, is_open, is_paste, is_va_args};
use cs_base::{Cause, Memory, Tok};
use std::alloc::Global;

#[tactic(auto, unfolding(crate::specs::MacroLine::macro_of))]
/// What stands against the macro definition of these tokens.
pub fn definition_cause(alloc: Global, toks: &[Tok]) -> Result<Option<Cause>, Memory>
    ensures { IfOk result (λ cause. cause ≡ definition_cause (macro_of toks.now)) }
{
    match toks {
        [open, list @ ..] if is_open(open) && !open.gap() => function_cause(alloc, list),
        _ => Ok(body_cause(false, &Names::new(alloc), false, toks)),
    }
}

// What stands against a function-like macro, by the tokens behind its `(`.
fn function_cause(alloc: Global, toks: &[Tok]) -> Result<Option<Cause>, Memory>
    ensures { IfOk result (λ cause. cause ≡ function_cause toks.now (parameters_of toks.now)) }
{
    match parameter_list(alloc, toks)? {
        None => Ok(Some(Cause::BadParameters)),
        Some(list) => {
            let body = &toks[list.len..];
            Ok(body_cause(true, &list.names, list.variadic, body))
        }
    }
}

#[tactic(auto, unfolding(crate::specs::Walk::body_cause))]
// What stands against the replacement list of a macro with these parameters.
fn body_cause(function: bool, names: &Names, variadic: bool, body: &[Tok]) -> Option<Cause>
    ensures { result ≡ body_cause function names.now variadic body.now }
{
    if function && has_lone_hash(names, variadic, body) {
        return Some(Cause::BadHash);
    }
    if has_end_paste(body) {
        return Some(Cause::BadPaste);
    }
    if !variadic && has_va_args(body) {
        return Some(Cause::BadVaArgs);
    }
    None
}

// A `#` without a parameter behind it.
fn has_lone_hash(names: &Names, variadic: bool, body: &[Tok]) -> bool
    ensures { result ≡ has_lone_hash (is_operand names.now variadic) body.now }
{
    let mut rest = body;
    'tokens: while let [token, after @ ..] = rest {
        if is_hash(token) && !begins_with_operand(names, variadic, after) {
            return true;
        }
        rest = after;
    }
    false
}

fn begins_with_operand(names: &Names, variadic: bool, toks: &[Tok]) -> bool
    ensures { result ≡ begins_with (is_operand names.now variadic) toks.now }
{
    match toks {
        [] => false,
        [first, ..] => is_operand(names, variadic, first),
    }
}

#[tactic(auto, unfolding(crate::specs::BadLines::is_operand))]
// A parameter with one of these names, or `__VA_ARGS__` where `...` is a parameter.
fn is_operand(names: &Names, variadic: bool, tok: &Tok) -> bool
    ensures { result ≡ is_operand names.now variadic tok.now }
{
    is_name(tok) && (names.contains(tok.text()) || variadic && is_va_args(tok))
}

// A `##` at an end.
fn has_end_paste(body: &[Tok]) -> bool
    ensures { result ≡ has_end_paste body.now }
{
    match body {
        [] => false,
        [first, ..] if is_paste(first) => true,
        [.., last] => is_paste(last),
    }
}

fn has_va_args(body: &[Tok]) -> bool
    ensures { result ≡ list_any is_va_args body.now }
{
    body.iter().any(is_va_args)
}
