// The first offence against a new order.
ghost use Rattle.std.specs.Prelude.{◌≡◌, ◌++◌, None, IfOk, OnOk};
ghost use Rattle.offences.specs.First.{IsFirst};
ghost use Rattle.macro_rules.specs.Counting.{class_heads, count_of};
ghost use Rattle.macro_rules.specs.Macros.{in_events};
ghost use Rattle.macro_rules.specs.Offences.{all_texts, indirect_offences, offences_of};

use crate::heads::{Head, count_in};
use crate::list_offences::push_files;
use crate::macros::Macros;
use crate::name_offences::{push_all_indirect, push_heads};
use crate::positions::Positions;
use crate::token_offences::push_text;
use analysis::Analysis;
use cs_base::Memory;
use offences::{Offence, first_with};
use std::alloc::Global;

/// How many parameters the first of the macros has by its place: the number of items of each list that is to have a new
/// order.
pub fn parameter_count(macros: &Macros<'_>, heads: &[Head]) -> usize
    requires { heads.now ≡ class_heads macros.now.members macros.now.analysis.value }
    ensures answer { result ≡ count_of macros.now.analysis.value macros.now.members }
{
    count_in(macros.analysis(), heads)
}

// Those of all units: at events, and at tokens.
fn push_units(
    alloc: Global,
    events: &mut Vec<Offence>,
    texts: &mut Vec<Offence>,
    a: &Analysis,
    macros: &Positions,
    calls: &Positions,
) -> Result<(), Memory>
    ensures events { OnOk result (events.new.items ≡ events.old.items ++ in_events (indirect_offences macros.now) a.now.value) }
    ensures texts { OnOk result (texts.new.items ≡ texts.old.items ++ all_texts calls.now a.now.value) }
{
    for unit in 0..a.units() {
        let one = a.unit(alloc, unit + 1)?;
        let text = one.text();
        push_all_indirect(events, macros, text.events())?;
        push_text(texts, calls, text)?;
    }
    Ok(())
}

// All offences, in no order.
fn offences(
    alloc: Global,
    macros: &Macros<'_>,
    heads: &[Head],
    count: usize,
) -> Result<Vec<Offence>, Memory>
    requires { heads.now ≡ class_heads macros.now.members macros.now.analysis.value }
    ensures { IfOk result (λ all. all.items ≡ offences_of macros.now.analysis.value macros.now.members count) }
{
    let a = macros.analysis();
    let asked = macros.asked();
    let mut out = Vec::new(alloc);
    let mut texts = Vec::new(alloc);
    push_heads(&mut out, count, heads)?;
    push_units(alloc, &mut out, &mut texts, a, asked.macros, asked.calls)?;
    push_files(alloc, &mut out, a, &asked)?;
    out.append(&mut texts)?;
    Ok(out)
}

// The first of them.
fn first_of(a: &Analysis, offences: &[Offence]) -> Option<Offence>
    ensures { IsFirst a.now.value.table offences.now result }
{
    let mut first = None;
    for offence in offences {
        first = first_with(a, first, offence.at, offence.cause);
    }
    first
}

/// The first offence against a new order of so many parameters, if one stands.
pub fn first_offence(
    alloc: Global,
    macros: &Macros<'_>,
    heads: &[Head],
    count: usize,
) -> Result<Option<Offence>, Memory>
    requires { heads.now ≡ class_heads macros.now.members macros.now.analysis.value }
    ensures answer { IfOk result (IsFirst macros.now.analysis.value.table
        (offences_of macros.now.analysis.value macros.now.members count)) }
{
    let all = offences(alloc, macros, heads, count)?;
    Ok(first_of(macros.analysis(), &all))
}
