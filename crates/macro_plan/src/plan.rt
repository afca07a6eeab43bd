// The edits of a new order of a macro's parameters, with what they keep.
ghost use Rattle.std.specs.Prelude.{◌≡◌, IfOk, length};
ghost use Rattle.list_cuts.specs.Cuts.{IsOrder};
ghost use Rattle.analysis.specs.Parts.{IsPart};
ghost use Rattle.offences.specs.Class.{IsClass};
ghost use Rattle.offences.specs.Answers.{GivesOne};
ghost use Rattle.macro_rules.specs.Counting.{class_heads, count_of};
ghost use Rattle.macro_plan.specs.Kept.{TurnsOver};
ghost use Rattle.macro_plan.specs.Macro.{IsClassOrdered, IsMacro, IsOrdered, IsTurned};
ghost use Rattle.offences.specs.Refusals.{refusal_of};

use crate::comparing::tokens_stay;
use analysis::Analysis;
use cs_base::{Edits, Part};
use list_cuts::is_order;
use macro_rules::{
    Head, Macros, edit_files, first_offence, macro_heads, named_macros, parameter_count,
};
use offences::{PlanFault, Refusal, refused};
use std::alloc::Global;

/// The edits that put the parameters of the macros which a place names into a new order, with the arguments of their
/// calls, or the first refusal. Place k takes item `order[k]`; items count from 1, as lines and columns do.
pub fn plan_macro(
    alloc: Global,
    a: &Analysis,
    path: &str,
    line: u32,
    column: u32,
    order: &[usize],
) -> Result<Edits, PlanFault>
    ensures answer { GivesOne (λ edits. edits) refusal_of result (IsMacro a.now.value path.now line column order.now) }
    // Over each source with this analysis, once the edits are made, each unit has the tokens that it had.
    ensures tokens { IfOk result (λ edits. TurnsOver a.now.value.workspace a.now.value path.now line column order.now edits) }
{
    let edits = plan_edits(alloc, a, path, line, column, order)?;
    if tokens_stay(alloc, a, &edits)? {
        Ok(edits)
    } else {
        Err(PlanFault::Memory)
    }
}

// The same by the rules alone.
fn plan_edits(
    alloc: Global,
    a: &Analysis,
    path: &str,
    line: u32,
    column: u32,
    order: &[usize],
) -> Result<Edits, PlanFault>
    ensures { GivesOne (λ edits. edits) refusal_of result (IsMacro a.now.value path.now line column order.now) }
{
    match a.part_at(path, line, column) {
        Some(part) => plan_part(alloc, a, part, order),
        None => Err(PlanFault::Refused(Refusal::NoName)),
    }
}

// The same for the class of a part.
fn plan_part(alloc: Global, a: &Analysis, part: Part, order: &[usize]) -> Result<Edits, PlanFault>
    requires { IsPart a.now.value part }
    ensures { GivesOne (λ edits. edits) refusal_of result (IsClassOrdered a.now.value part order.now) }
{
    match a.classes().class_of(part) {
        Some(number) => plan_class(alloc, a, a.members(part), number, order),
        // Each part has a class.
        None => Err(PlanFault::Memory),
    }
}

// The same for the class with these members and this number.
fn plan_class(
    alloc: Global,
    a: &Analysis,
    members: &[Part],
    number: u32,
    order: &[usize],
) -> Result<Edits, PlanFault>
    requires { IsClass a.now members.now number }
    ensures { GivesOne (λ edits. edits) refusal_of result (IsOrdered a.now.value members.now order.now) }
{
    let macros = named_macros(alloc, a, members, number)?;
    plan_named(alloc, &macros, order)
}

// The same for the macros that it names.
fn plan_named(alloc: Global, macros: &Macros<'_>, order: &[usize]) -> Result<Edits, PlanFault>
    ensures { GivesOne (λ edits. edits) refusal_of result (IsOrdered macros.now.analysis.value macros.now.members order.now) }
{
    let heads = macro_heads(alloc, macros)?;
    if heads.as_slice().is_empty() {
        return Err(PlanFault::Refused(Refusal::NotAMacro));
    }
    let count = parameter_count(macros, &heads);
    if !is_order(alloc, count, order)? {
        return Err(PlanFault::Refused(Refusal::BadOrder));
    }
    plan_macros(alloc, macros, &heads, count, order)
}

// The same for these macros, and an order of their parameters.
fn plan_macros(
    alloc: Global,
    macros: &Macros<'_>,
    heads: &[Head],
    count: usize,
    order: &[usize],
) -> Result<Edits, PlanFault>
    requires heads { heads.now ≡ class_heads macros.now.members macros.now.analysis.value }
    requires count { count ≡ count_of macros.now.analysis.value macros.now.members }
    requires order { IsOrder (length order.now) order.now }
    ensures { GivesOne (λ edits. edits) refusal_of result (IsTurned macros.now.analysis.value macros.now.members order.now) }
{
    match first_offence(alloc, macros, heads, count)? {
        Some(offence) => Err(refused(alloc, macros.analysis(), offence)),
        None => Ok(edit_files(alloc, macros, order)?),
    }
}
