// Texts of macro definitions and text lines, for tests: what their text lines expand to.
ghost use Rattle.std.specs.Prelude.{◌≡◌, ◌&&◌, [], IfOk, OnOk, IsTrue, is_some};
ghost use Rattle.std.specs.Bool.{OnTrue};
ghost use Rattle.std.specs.List.{list_all};
ghost use Rattle.line_shape.specs.Items.{line_kind};
ghost use Rattle.line_shape.specs.declared.items.ItemKind.TheVariants.{Define};
ghost use Rattle.macro_body.specs.Live.{table_of};
ghost use Rattle.macro_body.specs.Sound.{is_traced, is_low, AllTraced};

use cs_base::{Kind, Memory, Pos, Tok, Toks};
use lexer::lex;
use line_shape::{ItemKind, shape};
use macro_expand::{Definition, ExpandFault, Form, Macros, Notes, Work, expand};
use std::alloc::Global;

const MOST_LINE: u32 = 1 << 22;

const MOST_TOKS: usize = 1 << 20;

// Whether each character of a token has an origin.
fn has_origins(tok: &Tok) -> bool
    ensures { OnTrue result (IsTrue (list_all is_some tok.now.origins)) }
{
    for k in 0..tok.text().len() as u32 {
        if tok.origins(k).is_none() {
            return false;
        }
    }
    true
}

// Whether tokens come from a file, as all do that are read from one.
fn are_sound(toks: &[Tok]) -> bool
    ensures { OnTrue result (IsTrue (list_all (λ t. is_traced t && is_low t) toks.now)) }
{
    for tok in toks {
        if !has_origins(tok) || tok.line() > MOST_LINE {
            return false;
        }
    }
    true
}

// Defines a macro, and keeps that each replacement list comes from somewhere.
fn define(macros: &mut Macros, definition: Definition) -> Result<(), Memory>
    requires body { IsTrue (list_all is_traced definition.body) }
    requires traced { AllTraced (table_of macros.old) }
    ensures { OnOk result (AllTraced (table_of macros.new)) }
{
    macros.define(definition)
}

// Defines the macro of a `define` line.
fn define_line(alloc: Global, macros: &mut Macros, toks: &[Tok]) -> Result<(), Memory>
    requires defines { line_kind toks.now ≡ Define }
    requires traced { AllTraced (table_of macros.old) }
    ensures { OnOk result (AllTraced (table_of macros.new)) }
{
    let definition = Definition::of(alloc, toks)?;
    if !are_sound(definition.body.as_slice()) {
        return Err(Memory);
    }
    define(macros, definition)
}

// Takes the macro of an `undef` line away.
fn undefine_line(macros: &mut Macros, toks: &[Tok])
    requires { AllTraced (table_of macros.old) }
    ensures { AllTraced (table_of macros.new) }
{
    if let Some(name) = toks.get(2) {
        macros.undef(name.text());
    }
}

// One of the two macros that each translation unit begins with.
fn first_definition(alloc: Global, form: Form, name: &[u8]) -> Result<Definition, Memory>
    ensures { IfOk result (λ m. m.body ≡ []) }
{
    let at = Pos { file: 0, at: 0 };
    Ok(Definition {
        name: Tok::new(alloc, Kind::Other, name, &[], false, at, 0, false)?,
        form,
        params: Toks::new(Vec::new(alloc)),
        variadic: false,
        named: false,
        gnu: false,
        body: Toks::new(Vec::new(alloc)),
    })
}

fn first_macros(alloc: Global) -> Result<Macros, Memory>
    ensures { IfOk result (λ m. AllTraced (table_of m)) }
{
    let mut macros = Macros::new(alloc);
    let line = first_definition(alloc, Form::Line, b"__LINE__")?;
    define(&mut macros, line)?;
    let file = first_definition(alloc, Form::File, b"__FILE__")?;
    define(&mut macros, file)?;
    let counter = first_definition(alloc, Form::Counter, b"__COUNTER__")?;
    define(&mut macros, counter)?;
    Ok(macros)
}

fn expand_run(
    alloc: Global,
    macros: &Macros,
    path: &[u8],
    toks: &[Tok],
    work: &mut Work,
    notes: &mut Notes,
) -> Result<Vec<Tok>, ExpandFault>
    requires { AllTraced (table_of macros.now) }
{
    if !are_sound(toks) || toks.len() > MOST_TOKS || work.left > MOST_LINE {
        return Err(ExpandFault::Memory);
    }
    expand(alloc, macros, path, toks, work, notes)
}

fn add_all(all: &mut Vec<Tok>, toks: Vec<Tok>) -> Result<(), Memory> {
    for tok in toks {
        all.push(tok)?;
    }
    Ok(())
}

/// What the text lines of a text expand to, its macros being defined and removed between them.
pub fn expanded(
    alloc: Global,
    path: &[u8],
    text: &[u8],
    work: &mut Work,
    notes: &mut Notes,
) -> Result<Vec<Tok>, ExpandFault> {
    let Ok(text) = lex(alloc, 1, text) else {
        return Err(ExpandFault::Memory);
    };
    let mut macros = first_macros(alloc)?;
    let mut all = Vec::new(alloc);
    for item in &shape(alloc, &text)? {
        let toks = &text.toks()[item.from as usize..item.to as usize];
        match item.kind {
            ItemKind::Define => define_line(alloc, &mut macros, toks)?,
            ItemKind::Undef => undefine_line(&mut macros, toks),
            _ => add_all(
                &mut all,
                expand_run(alloc, &macros, path, toks, work, notes)?,
            )?,
        }
    }
    Ok(all)
}
