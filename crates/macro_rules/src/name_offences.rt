// What names say against a new order of a macro's parameters.
ghost use Rattle.std.specs.Prelude.{◌≡◌, ◌==◌, ◌-◌, ◌++◌, ◌∷◌, [], if◌then◌else◌, OnOk};
ghost use Rattle.std.specs.List.{flat_map};
ghost use Rattle.cs_base.specs.declared.causes.Cause.TheVariants as cause;
ghost use Rattle.list_cuts.specs.Cuts.{numbers};
ghost use Rattle.offences.specs.First.{offence, standing};
ghost use Rattle.offences.specs.Tokens.{first_place};
ghost use Rattle.macro_rules.specs.FileOffences.{at_token, directive_token, directive_offences, bare_name, bare_offences};
ghost use Rattle.macro_rules.specs.Offences.{head_offences, name_places, indirect_offences};

use crate::files::{is_run, item_toks};
use crate::heads::Head;
use crate::lists::{is_called, is_open_at, tokens_to};
use crate::positions::Positions;
use crate::replacements::{is_direct, replaces};
use analysis::Event;
use cs_base::{Cause, Memory, Pos, Tok};
use line_shape::Item;
use offences::Offence;

/// Adds a cause at a position.
pub(crate) fn push_at(out: &mut Vec<Offence>, cause: Cause, at: Pos) -> Result<(), Memory>
    ensures { OnOk result (out.new.items ≡ out.old.items ++ offence cause at ∷ []) }
{
    out.push(Offence { at, cause })?;
    Ok(())
}

/// Adds a cause at token `k`.
pub(crate) fn push_at_token(
    out: &mut Vec<Offence>,
    cause: Cause,
    toks: &[Tok],
    k: usize,
) -> Result<(), Memory>
    ensures { OnOk result (out.new.items ≡ out.old.items ++ at_token cause toks.now k) }
{
    match toks.get(k) {
        Some(tok) => push_at(out, cause, tok.at()),
        None => Ok(()),
    }
}

// ---- macros

// Adds `NoParameters` at a macro without a list of parameters, or with one that ends in `...`.
fn push_unfixed(out: &mut Vec<Offence>, head: Head) -> Result<(), Memory>
    ensures { OnOk result (out.new.items ≡ out.old.items ++ (if head.fixed then [] else offence cause.NoParameters head.at ∷ [])) }
{
    if head.fixed {
        Ok(())
    } else {
        push_at(out, Cause::NoParameters, head.at)
    }
}

// Adds `ArgumentCount` at one with another number of them.
fn push_counted(out: &mut Vec<Offence>, count: usize, head: Head) -> Result<(), Memory>
    ensures { OnOk result (out.new.items ≡ out.old.items ++ (if head.count == count then [] else offence cause.ArgumentCount head.at ∷ [])) }
{
    if head.count == count {
        Ok(())
    } else {
        push_at(out, Cause::ArgumentCount, head.at)
    }
}

fn push_head(out: &mut Vec<Offence>, count: usize, head: Head) -> Result<(), Memory>
    ensures { OnOk result (out.new.items ≡ out.old.items ++ head_offences count head) }
{
    push_unfixed(out, head)?;
    push_counted(out, count, head)
}

/// Both at each of these macros.
pub(crate) fn push_heads(out: &mut Vec<Offence>, count: usize, heads: &[Head]) -> Result<(), Memory>
    ensures { OnOk result (out.new.items ≡ out.old.items ++ flat_map (head_offences count) heads.now) }
{
    for head in heads {
        push_head(out, count, *head)?;
    }
    Ok(())
}

// ---- names that are replaced

// Adds `InMacro` where a token begins.
fn push_first(out: &mut Vec<Offence>, tok: &Tok) -> Result<(), Memory>
    ensures { OnOk result (out.new.items ≡ out.old.items ++ standing cause.InMacro (first_place tok.now)) }
{
    match tok.origins(0) {
        Some(at) => push_at(out, Cause::InMacro, at),
        None => Ok(()),
    }
}

fn push_name(out: &mut Vec<Offence>, event: &Event) -> Result<(), Memory>
    ensures { OnOk result (out.new.items ≡ out.old.items ++ standing cause.InMacro (name_places event.now.name)) }
{
    match &event.name {
        Some(name) => push_first(out, name),
        None => Ok(()),
    }
}

// The same at a name that one of the macros replaces, and that comes from a macro.
fn push_indirect(out: &mut Vec<Offence>, macros: &Positions, event: &Event) -> Result<(), Memory>
    ensures { OnOk result (out.new.items ≡ out.old.items ++ indirect_offences macros.now event.now) }
{
    if replaces(macros, event) && !is_direct(event) {
        push_name(out, event)
    } else {
        Ok(())
    }
}

/// The same at each of these events.
pub(crate) fn push_all_indirect(
    out: &mut Vec<Offence>,
    macros: &Positions,
    events: &[Event],
) -> Result<(), Memory>
    ensures { OnOk result (out.new.items ≡ out.old.items ++ flat_map (indirect_offences macros.now) events.now) }
{
    for event in events {
        push_indirect(out, macros, event)?;
    }
    Ok(())
}

// ---- names that are called

// Adds `InDirective` at a token, if such a name stands there.
fn push_directive_token(out: &mut Vec<Offence>, calls: &Positions, tok: &Tok) -> Result<(), Memory>
    ensures { OnOk result (out.new.items ≡ out.old.items ++ directive_token calls.now tok.now) }
{
    if calls.has(tok.at()) {
        push_at(out, Cause::InDirective, tok.at())
    } else {
        Ok(())
    }
}

fn push_directive_tokens(
    out: &mut Vec<Offence>,
    calls: &Positions,
    toks: &[Tok],
) -> Result<(), Memory>
    ensures { OnOk result (out.new.items ≡ out.old.items ++ flat_map (directive_token calls.now) toks.now) }
{
    for tok in toks {
        push_directive_token(out, calls, tok)?;
    }
    Ok(())
}

// The same at the tokens of a directive.
fn push_directive(
    out: &mut Vec<Offence>,
    calls: &Positions,
    toks: &[Tok],
    item: &Item,
) -> Result<(), Memory>
    ensures { OnOk result (out.new.items ≡ out.old.items ++ directive_offences calls.now toks.now item.now) }
{
    if is_run(item.kind) {
        Ok(())
    } else {
        push_directive_tokens(out, calls, item_toks(toks, item))
    }
}

/// The same in these items.
pub(crate) fn push_directives(
    out: &mut Vec<Offence>,
    calls: &Positions,
    toks: &[Tok],
    items: &[Item],
) -> Result<(), Memory>
    ensures { OnOk result (out.new.items ≡ out.old.items ++ flat_map (directive_offences calls.now toks.now) items.now) }
{
    for item in items {
        push_directive(out, calls, toks, item)?;
    }
    Ok(())
}

// Adds `InMacro` at token `k` of a run, if such a name stands there and no `(` behind it.
fn push_bare_name(
    out: &mut Vec<Offence>,
    calls: &Positions,
    toks: &[Tok],
    k: usize,
) -> Result<(), Memory>
    ensures { OnOk result (out.new.items ≡ out.old.items ++ bare_name calls.now toks.now k) }
{
    if is_called(calls, toks, k) && !is_open_at(toks, k + 1) {
        push_at_token(out, Cause::InMacro, toks, k)
    } else {
        Ok(())
    }
}

fn push_bare_names(
    out: &mut Vec<Offence>,
    calls: &Positions,
    toks: &[Tok],
    from: u32,
    to: u32,
) -> Result<(), Memory>
    ensures { OnOk result (out.new.items ≡ out.old.items ++ flat_map (bare_name calls.now toks.now) (numbers from (to - from))) }
{
    for k in from..to {
        push_bare_name(out, calls, toks, k as usize)?;
    }
    Ok(())
}

// The same at the tokens of a run.
fn push_bare(
    out: &mut Vec<Offence>,
    calls: &Positions,
    toks: &[Tok],
    item: &Item,
) -> Result<(), Memory>
    ensures { OnOk result (out.new.items ≡ out.old.items ++ bare_offences calls.now toks.now item.now) }
{
    if is_run(item.kind) {
        push_bare_names(out, calls, tokens_to(toks, item.to), item.from, item.to)
    } else {
        Ok(())
    }
}

/// The same in these items.
pub(crate) fn push_bares(
    out: &mut Vec<Offence>,
    calls: &Positions,
    toks: &[Tok],
    items: &[Item],
) -> Result<(), Memory>
    ensures { OnOk result (out.new.items ≡ out.old.items ++ flat_map (bare_offences calls.now toks.now) items.now) }
{
    for item in items {
        push_bare(out, calls, toks, item)?;
    }
    Ok(())
}
