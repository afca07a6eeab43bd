// Parameters in replacement lists (6.10.3 paragraph 10, 6.10.3.2).
ghost use Rattle.std.specs.Prelude.{◌≡◌};
ghost use Rattle.std.specs.List.{position};
ghost use Rattle.std.specs.Str.{bytes_eq};
ghost use Rattle.cs_base.specs.Token.{Token};
ghost use Rattle.macro_body.specs.Macro.{is_function, rest_number, named_or_rest, parameter_at};
ghost use Rattle.macro_body.specs.Bodies.{next_parameter, quoted_parameter};

use crate::definitions::{Definition, Form};
use cs_base::Tok;
use line_shape::{is_hash, is_name};

/// Which parameter a token of the replacement list names, from 0.
pub fn parameter_at(m: &Definition, tok: &Tok) -> Option<usize>
    ensures { result ≡ parameter_at m.now tok.now }
{
    if is_name(tok) {
        named_or_rest(m, tok.text(), named(m.params.as_slice(), tok.text()))
    } else {
        None
    }
}

/// The parameter that a token makes a string of, if it is the `#` of a function-like macro and a
/// parameter follows it.
pub fn quoted_parameter(m: &Definition, tok: &Tok, behind: &[Tok]) -> Option<usize>
    ensures { result ≡ quoted_parameter m.now tok.now behind.now }
{
    if is_function(m.form) && is_hash(tok) {
        next_parameter(m, behind)
    } else {
        None
    }
}

// The parameter that the next token names.
fn next_parameter(m: &Definition, behind: &[Tok]) -> Option<usize>
    ensures { result ≡ next_parameter m.now behind.now }
{
    match behind {
        [] => None,
        [next, ..] => parameter_at(m, next),
    }
}

// Which of the named parameters has this spelling.
fn named(params: &[Tok], text: &[u8]) -> Option<usize>
    ensures { result ≡ position (λ (p : Token). bytes_eq p.text text.now) params.now }
{
    params.iter().position(|p| p.text() == text)
}

// That named parameter, or the variable arguments where this is their spelling.
fn named_or_rest(m: &Definition, text: &[u8], named: Option<usize>) -> Option<usize>
    ensures { result ≡ named_or_rest m.now text.now named }
{
    match named {
        Some(number) => Some(number),
        None => {
            if m.variadic && text == b"__VA_ARGS__".as_slice() {
                Some(m.params.as_slice().len())
            } else {
                None
            }
        }
    }
}

/// Whether a macro is function-like (6.10.3 paragraph 10).
pub fn is_function(form: Form) -> bool
    ensures { result ≡ is_function form }
{
    match form {
        Form::Function => true,
        _ => false,
    }
}

/// How many parameters stand before the variable arguments, if the macro has these.
pub fn rest_number(m: &Definition) -> Option<usize>
    ensures { result ≡ rest_number m.now }
{
    let named = m.params.as_slice().len();
    if m.variadic {
        Some(named)
    } else if m.named {
        Some(named.saturating_sub(1))
    } else {
        None
    }
}
