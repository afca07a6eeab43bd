// The parameter list of a function-like macro (6.10.3).
ghost use Rattle.std.specs.Prelude.{◌≡◌, ◌≤◌, [], IfOk, IfSome, length};
ghost use Rattle.line_shape.specs.Walk.{AddsParameter, ended, ended_named, parameters_from, parameters_of};

use crate::names::Names;
use crate::signs::{is_close, is_comma, is_ellipsis, is_parameter};
use cs_base::{Memory, Tok};
use std::alloc::Global;

/// The names of the parameters, whether `...` follows them as one more, whether it stands behind the name
/// of the last one, and how many tokens the list has with its `)`, behind its `(`.
#[derive(Drop)]
pub struct Parameters {
    pub names: Names,
    pub variadic: bool,
    pub named: bool,
    pub len: usize,
}

#[tactic(auto, unfolding(crate::specs::Walk::parameters_of))]
/// The parameters of the list that begins behind its `(`; none where it is bad.
pub fn parameter_list(alloc: Global, toks: &[Tok]) -> Result<Option<Parameters>, Memory>
    ensures answer { IfOk result (λ found. found ≡ parameters_of toks.now) }
    ensures within { IfOk result (λ found. IfSome found (λ list. list.len ≤ length toks.now)) }
{
    match toks {
        [] => Ok(None),
        [first, ..] if is_close(first) => Ok(Some(Parameters {
            names: Names::new(alloc),
            variadic: false,
            named: false,
            len: 1,
        })),
        _ => named_parameters(alloc, toks),
    }
}

// The parameters of a list that is not empty.
fn named_parameters(alloc: Global, toks: &[Tok]) -> Result<Option<Parameters>, Memory>
    ensures answer { IfOk result (λ found. found ≡ parameters_from [] 0 toks.now) }
    ensures within { IfOk result (λ found. IfSome found (λ list. list.len ≤ length toks.now)) }
{
    let mut names = Names::new(alloc);
    let mut rest = toks;
    let mut at: usize = 0;
    'parameters: while let [first, sign, after @ ..] = rest {
        if is_ellipsis(first) {
            return Ok(ended(names, true, false, at + 2, is_close(sign)));
        }
        if !add_parameter(&mut names, first)? {
            return Ok(None);
        }
        if is_ellipsis(sign) {
            return Ok(ended_named(names, at + 3, after));
        }
        if !is_comma(sign) {
            return Ok(ended(names, false, false, at + 2, is_close(sign)));
        }
        rest = after;
        at += 2;
    }
    Ok(None)
}

// Adds the parameter, if the token is one and its name is new, and says whether it did.
fn add_parameter(names: &mut Names, tok: &Tok) -> Result<bool, Memory>
    ensures { IfOk result (λ added. AddsParameter tok.now names.old added names.new) }
{
    if is_parameter(tok) {
        names.add(tok.text())
    } else {
        Ok(false)
    }
}

// A list that ends with a `)`, or is bad.
fn ended(names: Names, variadic: bool, named: bool, len: usize, closed: bool) -> Option<Parameters>
    ensures { result ≡ ended names variadic named len closed }
{
    if closed {
        Some(Parameters {
            names,
            variadic,
            named,
            len,
        })
    } else {
        None
    }
}

// A list whose last name stands before the `...` that these tokens are behind.
fn ended_named(names: Names, len: usize, behind: &[Tok]) -> Option<Parameters>
    ensures { result ≡ ended_named names len behind.now }
{
    match behind {
        [] => None,
        [first, ..] => ended(names, false, true, len, is_close(first)),
    }
}
