// The definition that a `define` line gives (6.10.3).
ghost use Rattle.std.specs.Prelude.{◌≡◌, ◌<◌, List, [], length, Some, IfOk, IfSome, IsSome, true, false};
ghost use Rattle.std.specs.List.{list_any, position};
ghost use Rattle.cs_base.specs.Token.{Token};
ghost use Rattle.line_shape.specs.declared.items.ItemKind.TheVariants.{Define};
ghost use Rattle.line_shape.specs.Signs.{is_close, is_ellipsis};
ghost use Rattle.line_shape.specs.MacroLine.{macro, is_function_like, before_close, behind_close, params_in, ends_in_rest, has_named_rest, has_plain_rest};
ghost use Rattle.line_shape.specs.Items.{line_kind};
ghost use Rattle.macro_body.specs.Defining.{defined_by, definition_of};

use crate::definitions::{Definition, Form};
use crate::shared_tokens::{all_shared, names_shared, shared};
use cs_base::{Memory, Tok, Toks};
use line_shape::{is_close, is_ellipsis, is_name, is_open};
use std::alloc::Global;

impl Definition {
    /// The definition that the tokens of a `define` line give, from its `#` on. It shares the texts and
    /// the origins of the tokens.
    pub fn of(alloc: Global, toks: &[Tok]) -> Result<Definition, Memory>
        requires defines { line_kind toks.now ≡ Define }
        ensures { IfOk result (λ m. defined_by toks.now ≡ Some m) }
    {
        let name = &toks[2];
        let rest = &toks[3..];
        if is_function_like(rest) {
            function_like(alloc, name, &rest[1..])
        } else {
            object_like(alloc, name, rest)
        }
    }
}

// Whether the tokens behind a macro's name make it function-like: a `(` with no white space before it.
fn is_function_like(toks: &[Tok]) -> bool
    ensures { result ≡ is_function_like toks.now }
{
    match toks {
        [] => false,
        [first, ..] => is_open(first) && !first.gap(),
    }
}

// An object-like macro (6.10.3 paragraph 9).
fn object_like(alloc: Global, name: &Tok, body: &[Tok]) -> Result<Definition, Memory>
    ensures { IfOk result (λ m. m ≡ definition_of name.now (macro false [] false false body.now)) }
{
    Ok(Definition {
        name: shared(name)?,
        form: Form::Object,
        params: Toks::new(Vec::new(alloc)),
        variadic: false,
        named: false,
        body: Toks::new(all_shared(alloc, body)?),
        gnu: false,
    })
}

// A function-like macro, by the tokens behind its `(` (6.10.3 paragraph 10).
fn function_like(alloc: Global, name: &Tok, toks: &[Tok]) -> Result<Definition, Memory>
    requires closed { IsSome (behind_close toks.now) }
    ensures { IfOk result (λ m. (body : List Token) → behind_close toks.now ≡ Some body →
        m ≡ definition_of name.now (macro true (params_in (before_close toks.now)) (has_plain_rest (before_close toks.now)) (has_named_rest (before_close toks.now)) body)) }
{
    let close = close_at(toks).unwrap();
    let list = &toks[..close];
    Ok(Definition {
        name: shared(name)?,
        form: Form::Function,
        params: Toks::new(names_shared(alloc, list)?),
        variadic: has_plain_rest(list),
        named: has_named_rest(list),
        body: Toks::new(all_shared(alloc, &toks[close + 1..])?),
        gnu: false,
    })
}

// The index of the first `)`.
fn close_at(toks: &[Tok]) -> Option<usize>
    ensures answer { result ≡ position is_close toks.now }
    ensures within { IfSome result (λ k. k < length toks.now) }
{
    toks.iter().position(|tok| is_close(tok))
}

fn has_ellipsis(list: &[Tok]) -> bool
    ensures { result ≡ list_any is_ellipsis list.now }
{
    list.iter().any(|tok| is_ellipsis(tok))
}

// Whether a list has `...`, but not behind a name.
fn has_plain_rest(list: &[Tok]) -> bool
    ensures { result ≡ has_plain_rest list.now }
{
    has_ellipsis(list) && !has_named_rest(list)
}

// Whether the last parameter of a list is `...` behind a name.
fn has_named_rest(list: &[Tok]) -> bool
    ensures { result ≡ has_named_rest list.now }
{
    match list {
        [.., name, last] => is_ellipsis(last) && is_name(name),
        _ => false,
    }
}
