// What is known at the beginning of a unit (6.10.8).
ghost use Rattle.std.specs.Prelude.{true, false, ◌≡◌, ◌≤◌, [], IfOk, None};
ghost use Rattle.cs_base.specs.Limits.{most_tokens, most_work};
ghost use Rattle.macro_expand.specs.Below.macro_body.Live.{table_of};
ghost use Rattle.macro_expand.specs.Below.macro_body.Defining.{first_definition, first_macros};
ghost use Rattle.source_files.specs.Files.{Table};
ghost use Rattle.unit_steps.specs.Keeping.{no_text};
ghost use Rattle.unit_steps.specs.Moments.{state_in, IsAble};

use crate::first_names::FirstNames;
use crate::progress::Progress;
use crate::unit_text::UnitText;
use cs_base::{Kind, MOST_WORK, Memory, Pos, Tok, Toks};
use macro_expand::{Definition, Form, Macros, Work};
use std::alloc::Global;

// A macro that no `define` line defines.
fn first_definition(alloc: Global, form: Form, name: &[u8]) -> Result<Definition, Memory>
    ensures { IfOk result (λ m. m ≡ first_definition form name.now) }
{
    let at = Pos { file: 0, at: 0 };
    Ok(Definition {
        name: Tok::new(alloc, Kind::Other, name, &[], false, at, 0, false)?,
        form,
        params: Toks::new(Vec::new(alloc)),
        variadic: false,
        named: false,
        gnu: false,
        body: Toks::new(Vec::new(alloc)),
    })
}

// `__LINE__` and `__FILE__`.
fn standard_macros(alloc: Global) -> Result<Macros, Memory>
    ensures { IfOk result (λ m. table_of m ≡ first_macros false) }
{
    let mut macros = Macros::new(alloc);
    let line = first_definition(alloc, Form::Line, b"__LINE__")?;
    macros.define(line)?;
    let file = first_definition(alloc, Form::File, b"__FILE__")?;
    macros.define(file)?;
    Ok(macros)
}

// The same and `__COUNTER__`, which GNU C has.
fn gnu_macros(alloc: Global) -> Result<Macros, Memory>
    ensures { IfOk result (λ m. table_of m ≡ first_macros true) }
{
    let mut macros = standard_macros(alloc)?;
    let counter = first_definition(alloc, Form::Counter, b"__COUNTER__")?;
    macros.define(counter)?;
    Ok(macros)
}

fn first_macros(alloc: Global, gnu: bool) -> Result<Macros, Memory>
    ensures { IfOk result (λ m. table_of m ≡ first_macros gnu) }
{
    if gnu {
        gnu_macros(alloc)
    } else {
        standard_macros(alloc)
    }
}

impl Progress {
    /// Nothing happened yet; the unit is of GNU C or not, and may have so many tokens.
    pub fn begin(alloc: Global, gnu: bool, most: u32) -> Result<Progress, Memory>
        requires { most ≤ most_tokens }
        ensures able { IfOk result (λ p. IsAble p) }
        ensures most { IfOk result (λ p. p.most ≡ most) }
        ensures text { IfOk result (λ p. p.text ≡ no_text) }
        ensures state { (table : Table) → IfOk result (λ p. state_in table p ≡ record { table = table; macros = first_macros gnu; work = record { left = most_work; counter = 0 }; names = []; before = 0; behind = None; once = [] }) }
    {
        Ok(Progress {
            alloc,
            macros: first_macros(alloc, gnu)?,
            work: Work {
                left: MOST_WORK,
                counter: 0,
            },
            names: FirstNames::new(alloc),
            most,
            text: UnitText::new(alloc),
            behind: None,
            once: Vec::new(alloc),
        })
    }
}
