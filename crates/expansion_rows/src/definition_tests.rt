// Macros by their names, and a definition as its line gives it.
ghost use Rattle.std.specs.Prelude.{◌≡◌, ◌∷◌, [], Some, IfOk, length, codes, replicate, true, false};
ghost use Rattle.cs_base.specs.Token.{token};
ghost use Rattle.cs_base.specs.Padding.{padded};
ghost use Rattle.cs_base.specs.declared.tokens.Kind.TheVariants.{Ident, Punct};

use cs_base::{Kind, Memory, Pos, Tok, Toks};
use lexer::lex;
use macro_expand::{Definition, Form, Macros};
use std::alloc::Global;
use std::test::Fail;

// The same token.
fn shared(tok: &Tok) -> Result<Tok, Memory> {
    tok.share(tok.gap(), tok.at(), tok.line(), tok.direct())
}

// The same tokens.
fn all_shared(alloc: Global, toks: &[Tok]) -> Result<Vec<Tok>, Memory> {
    let mut all = Vec::new(alloc);
    for tok in toks {
        all.push(shared(tok)?)?;
    }
    Ok(all)
}

// The object-like macro of these tokens: its name, and its replacement list.
fn object_like(alloc: Global, toks: &[Tok]) -> Result<Option<Definition>, Memory> {
    match toks {
        [] => Ok(None),
        [name, body @ ..] => Ok(Some(Definition {
            name: shared(name)?,
            form: Form::Object,
            params: Toks::new(Vec::new(alloc)),
            variadic: false,
            named: false,
            gnu: false,
            body: Toks::new(all_shared(alloc, body)?),
        })),
    }
}

fn define(macros: &mut Macros, alloc: Global, text: &[u8]) -> Result<(), Fail> {
    let text = lex(alloc, 1, text)?;
    if let Some(definition) = object_like(alloc, text.toks())? {
        macros.define(definition)?;
    }
    Ok(())
}

// How many tokens the replacement list of a macro has.
fn body_len(macros: &Macros, name: &[u8]) -> Option<usize> {
    match macros.find(name) {
        Some(definition) => Some(definition.body.as_slice().len()),
        None => None,
    }
}

#[test]
fn the_last_definition_stands_until_it_is_removed(rt: HostRuntime) -> Result<(), Fail> {
    let mut macros = Macros::new(rt.alloc());
    assert_eq!(rt; body_len(&macros, b"A"), None);
    define(&mut macros, rt.alloc(), b"A 1 + 2")?;
    define(&mut macros, rt.alloc(), b"B")?;
    assert_eq!(rt; body_len(&macros, b"A"), Some(3));
    define(&mut macros, rt.alloc(), b"A 1")?;
    assert_eq!(rt; body_len(&macros, b"A"), Some(1));
    macros.undef(b"A");
    macros.undef(b"C");
    assert_eq!(rt; body_len(&macros, b"A"), None);
    assert_eq!(rt; body_len(&macros, b"B"), Some(0));
    Ok(())
}

fn sign(alloc: Global, text: &[u8]) -> Result<Tok, Memory>
    ensures { IfOk result (λ t. t ≡ token Punct text.now (padded (length text.now) []) false (record { file = 1; at = 0 }) 1 true) }
{
    Tok::new(
        alloc,
        Kind::Punct,
        text,
        &[],
        false,
        Pos { file: 1, at: 0 },
        1,
        true,
    )
}

fn letter(alloc: Global, text: &[u8; 1]) -> Result<Tok, Memory>
    ensures { IfOk result (λ t. t ≡ token Ident text.now (Some (record { file = 1; at = 0 }) ∷ []) false (record { file = 1; at = 0 }) 1 true) }
{
    let at = Pos { file: 1, at: 0 };
    Tok::new(alloc, Kind::Ident, text, &[Some(at)], false, at, 1, true)
}

fn word_define(alloc: Global) -> Result<Tok, Memory>
    ensures { IfOk result (λ t. t ≡ token Ident (codes "define") (replicate 6 (Some (record { file = 1; at = 0 }))) false (record { file = 1; at = 0 }) 1 true) }
{
    let at = Pos { file: 1, at: 0 };
    Tok::new(
        alloc,
        Kind::Ident,
        b"define",
        &[Some(at); 6],
        false,
        at,
        1,
        true,
    )
}

// The definition of the line `#define F(...)`.
fn variadic_definition(alloc: Global) -> Result<Definition, Memory> {
    let line = [
        sign(alloc, b"#")?,
        word_define(alloc)?,
        letter(alloc, b"F")?,
        sign(alloc, b"(")?,
        sign(alloc, b"...")?,
        sign(alloc, b")")?,
    ];
    Definition::of(alloc, &line)
}

#[test]
fn a_line_gives_its_definition(rt: HostRuntime) -> Result<(), Fail> {
    let definition = variadic_definition(rt.alloc())?;
    assert!(rt; definition.name.text() == b"F".as_slice() && definition.form == Form::Function);
    assert!(rt; definition.variadic && definition.params.as_slice().is_empty());
    assert!(rt; definition.body.as_slice().is_empty());
    Ok(())
}
