// Names of a class that macros replace or make (ISO/IEC 9899:1999, 6.10.3).
ghost use Rattle.std.specs.Prelude.{◌≡◌};
ghost use Rattle.std.specs.List.{flat_map};
ghost use Rattle.cs_base.specs.declared.causes.Cause.TheVariants as cause;
ghost use Rattle.analysis.specs.Below.line_shape.Signs.{is_name};
ghost use Rattle.offences.specs.First.{standing, FirstThen};
ghost use Rattle.offences.specs.Tokens.{first_place};
ghost use Rattle.template_rules.specs.Insides.{all_macro_names};
ghost use Rattle.template_rules.specs.MacroOffences.{is_replacing, held_place, replaced_place, pasted_place};

use crate::functions::Functions;
use analysis::{Analysis, Event, EventKind};
use cs_base::{Cause, Kind, Tok};
use offences::{Class, Offence, first_with, holds_member};

// A cause that stands where a token begins.
fn at_first(a: &Analysis, tok: &Tok, cause: Cause, first: Option<Offence>) -> Option<Offence>
    ensures { FirstThen a.now.value.table (standing cause (first_place tok.now)) first result }
{
    match tok.origins(0) {
        Some(pos) => first_with(a, first, pos, cause),
        None => first,
    }
}

// `InMacro` at a token, if it holds a member.
fn held_at(a: &Analysis, class: &Class<'_>, tok: &Tok, first: Option<Offence>) -> Option<Offence>
    ensures { FirstThen a.now.value.table (standing cause.InMacro (held_place class.now.members tok.now)) first result }
{
    if holds_member(class, tok) {
        at_first(a, tok, Cause::InMacro, first)
    } else {
        first
    }
}

pub(crate) fn is_replacing(kind: EventKind) -> bool
    ensures { result ≡ is_replacing kind }
{
    match kind {
        EventKind::Replaced => true,
        _ => false,
    }
}

// The same at the name of an event that replaces it.
fn replaced_at(
    a: &Analysis,
    class: &Class<'_>,
    event: &Event,
    first: Option<Offence>,
) -> Option<Offence>
    ensures { FirstThen a.now.value.table (standing cause.InMacro (replaced_place class.now.members event.now)) first result }
{
    if !is_replacing(event.kind) {
        return first;
    }
    match &event.name {
        Some(tok) => held_at(a, class, tok, first),
        None => first,
    }
}

fn is_name(tok: &Tok) -> bool
    ensures { result ≡ is_name tok.now }
{
    match tok.kind() {
        Kind::Ident => true,
        _ => false,
    }
}

// The same at a name that was pasted.
fn pasted_at(a: &Analysis, class: &Class<'_>, tok: &Tok, first: Option<Offence>) -> Option<Offence>
    ensures { FirstThen a.now.value.table (standing cause.InMacro (pasted_place class.now.members tok.now)) first result }
{
    if is_name(tok) {
        held_at(a, class, tok, first)
    } else {
        first
    }
}

fn at_replaced(
    a: &Analysis,
    class: &Class<'_>,
    events: &[Event],
    first: Option<Offence>,
) -> Option<Offence>
    ensures { FirstThen a.now.value.table (standing cause.InMacro (flat_map (replaced_place class.now.members) events.now)) first result }
{
    let mut now = first;
    for event in events {
        now = replaced_at(a, class, event, now);
    }
    now
}

fn at_pasted(
    a: &Analysis,
    class: &Class<'_>,
    toks: &[Tok],
    first: Option<Offence>,
) -> Option<Offence>
    ensures { FirstThen a.now.value.table (standing cause.InMacro (flat_map (pasted_place class.now.members) toks.now)) first result }
{
    let mut now = first;
    for tok in toks {
        now = pasted_at(a, class, tok, now);
    }
    now
}

/// `InMacro`, at each name of a class that a macro replaces, and at each that was pasted.
pub fn at_macro_names(functions: &Functions<'_>, first: Option<Offence>) -> Option<Offence>
    ensures answer { FirstThen functions.now.analysis.value.table
        (all_macro_names functions.now.members functions.now.analysis.value) first result }
{
    let a = functions.analysis();
    let mut now = first;
    let units = functions.units();
    for unit in units {
        let replaced = at_replaced(a, &unit.class, unit.text.events(), now);
        now = at_pasted(a, &unit.class, unit.text.pasted(), replaced);
    }
    now
}
