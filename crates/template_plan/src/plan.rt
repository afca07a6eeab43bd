// The edits of a new order, or its first refusal.
ghost use Rattle.std.specs.Prelude.{◌≡◌, [], None, length, IfOk, IfSome, IsTrue, false};
ghost use Rattle.list_cuts.specs.Cuts.{IsOrder};
ghost use Rattle.offences.specs.Class.{IsClass};
ghost use Rattle.offences.specs.First.{IsFirst};
ghost use Rattle.offences.specs.Answers.{GivesOne};
ghost use Rattle.offences.specs.Refusals.{refusal_of};
ghost use Rattle.analysis.specs.Parts.{IsPart};
ghost use Rattle.template_meaning.specs.Below.reordered.Reorder.{ReordersOver};
ghost use Rattle.analysis.specs.GnuUnits.{gnu_places};
ghost use Rattle.template_meaning.specs.Compared.{KeepsOrder};
ghost use Rattle.template_plan.specs.Kept.{IsClassKept, IsKept, IsPlaceKept};
ghost use Rattle.template_rules.specs.FileLists.{edits_of};
ghost use Rattle.template_rules.specs.Lists.{count_of};
ghost use Rattle.template_rules.specs.Offences.{offences_of};
ghost use Rattle.template_rules.specs.Template.{order_refusal, refusal_at, IsClassOrdered, IsOrdered, IsReordered, IsTemplate};

use crate::comparing::are_compared;
use crate::second::second;
use analysis::{AllUnits, Analysis, made_files_are_pseudo, paths_stand_once, tables_are_found};
use cs_base::{Cause, Edits, Memory, Part};
use list_cuts::is_order;
use offences::{Offence, PlanFault, Refusal, refused};
use std::alloc::Global;
use template_meaning::orders_keep_meaning;
use template_rules::{
    Declarator, Functions, at_gnu_units, at_insides, at_lists, at_macro_names, at_marks, at_names,
    edit_files, first_declarator, has_functions, lists_are_held, named_functions, parameter_count,
};

/// The edits that put the parameters of the functions which a place names into a new order, with the arguments of their
/// calls, or the first refusal. Place k takes item `order[k]`; items count from 1, as lines and columns do.
pub fn plan_template(
    alloc: Global,
    a: &Analysis,
    path: &str,
    line: u32,
    column: u32,
    order: &[usize],
) -> Result<Edits, PlanFault>
    ensures answer { GivesOne (λ edits. edits) refusal_of result (IsTemplate a.now.value path.now line column order.now) }
    // Over each source with this analysis, once the edits are made, the workspace means what it meant.
    ensures meaning { IfOk result (λ edits. ReordersOver a.now.value.workspace a.now.value path.now line column order.now edits) }
{
    orders_keep_meaning();
    // The workspace is one that lines make.
    let ws = a.workspace();
    let _units = ws.units();
    plan_named(alloc, a, path, line, column, order)
}

// The same, by what is looked at: the place, the order, the offences.
fn plan_named(
    alloc: Global,
    a: &Analysis,
    path: &str,
    line: u32,
    column: u32,
    order: &[usize],
) -> Result<Edits, PlanFault>
    ensures answer { GivesOne (λ edits. edits) refusal_of result (IsTemplate a.now.value path.now line column order.now) }
    ensures kept { IfOk result (λ edits. IsPlaceKept a.now.value path.now line column order.now) }
{
    match a.part_at(path, line, column) {
        Some(part) => plan_part(alloc, a, part, order),
        None => Err(PlanFault::Refused(Refusal::NoName)),
    }
}

// The same for the class of a part.
fn plan_part(alloc: Global, a: &Analysis, part: Part, order: &[usize]) -> Result<Edits, PlanFault>
    requires { IsPart a.now.value part }
    ensures answer { GivesOne (λ edits. edits) refusal_of result (IsClassOrdered a.now.value part order.now) }
    ensures kept { IfOk result (λ edits. IsClassKept a.now.value part order.now) }
{
    match a.classes().class_of(part) {
        Some(number) => plan_class(alloc, a, a.members(part), number, order),
        // Each part has a class.
        None => Err(PlanFault::Memory),
    }
}

// The same for the class with these members and this number.
fn plan_class(
    alloc: Global,
    a: &Analysis,
    members: &[Part],
    number: u32,
    order: &[usize],
) -> Result<Edits, PlanFault>
    requires { IsClass a.now members.now number }
    ensures answer { GivesOne (λ edits. edits) refusal_of result (IsOrdered a.now.value members.now order.now) }
    ensures kept { IfOk result (λ edits. IsKept a.now.value members.now order.now) }
{
    let all = AllUnits::of(alloc, a)?;
    plan_over(alloc, &all, members, number, order)
}

// The same, where all units of the analysis are at hand.
fn plan_over(
    alloc: Global,
    all: &AllUnits<'_>,
    members: &[Part],
    number: u32,
    order: &[usize],
) -> Result<Edits, PlanFault>
    requires { IsClass all.now members.now number }
    ensures answer { GivesOne (λ edits. edits) refusal_of result (IsOrdered all.now.value members.now order.now) }
    ensures kept { IfOk result (λ edits. IsKept all.now.value members.now order.now) }
{
    let functions = named_functions(alloc, all, members, number)?;
    plan_ordered(alloc, &functions, order)
}

// The same for the functions that it names.
fn plan_ordered(
    alloc: Global,
    functions: &Functions<'_>,
    order: &[usize],
) -> Result<Edits, PlanFault>
    ensures answer { GivesOne (λ edits. edits) refusal_of result
        (IsOrdered functions.now.analysis.value functions.now.members order.now) }
    ensures kept { IfOk result (λ edits. IsKept functions.now.analysis.value functions.now.members order.now) }
{
    if !has_functions(functions) {
        return Err(PlanFault::Refused(Refusal::NotAFunction));
    }
    let count = parameter_count(functions);
    if !is_order(alloc, count, order)? {
        return Err(order_refused(alloc, functions));
    }
    plan_functions(alloc, functions, count, order)
}

// The refusal of numbers that are no order of the parameters of the first declarator: where it declares none, it is named.
fn order_refused(alloc: Global, functions: &Functions<'_>) -> PlanFault
    ensures { IfSome (refusal_of result) (λ r. r ≡ order_refusal functions.now.analysis.value functions.now.members) }
{
    match first_declarator(functions) {
        Some(declarator) => refused_at(alloc, functions, declarator),
        None => PlanFault::Refused(Refusal::BadOrder),
    }
}

// The same for the first declarator.
fn refused_at(alloc: Global, functions: &Functions<'_>, declarator: Declarator) -> PlanFault
    ensures { IfSome (refusal_of result) (λ r. r ≡ refusal_at functions.now.analysis.value declarator) }
{
    if declarator.count > 0 {
        return PlanFault::Refused(Refusal::BadOrder);
    }
    let offence = Offence {
        at: declarator.at,
        cause: Cause::NoPrototype,
    };
    refused(alloc, functions.analysis(), offence)
}

// What is answered for these functions, and an order of their parameters.
fn plan_functions(
    alloc: Global,
    functions: &Functions<'_>,
    count: usize,
    order: &[usize],
) -> Result<Edits, PlanFault>
    requires count { count ≡ count_of functions.now.analysis.value functions.now.members }
    requires order { IsOrder (length order.now) order.now }
    ensures answer { GivesOne (λ edits. edits) refusal_of result
        (IsReordered functions.now.analysis.value functions.now.members order.now) }
    ensures kept { IfOk result (λ edits. IsKept functions.now.analysis.value functions.now.members order.now) }
{
    match first_offence(alloc, functions, count)? {
        Some(offence) => Err(refused(alloc, functions.analysis(), offence)),
        None => Ok(kept_edits(alloc, functions, order)?),
    }
}

// The edits of a new order against which nothing stands, where they are seen to keep meaning if a unit is of GNU C.
fn kept_edits(alloc: Global, functions: &Functions<'_>, order: &[usize]) -> Result<Edits, Memory>
    requires order { IsOrder (length order.now) order.now }
    ensures edits { IfOk result (λ edits. edits ≡ edits_of functions.now.members functions.now.analysis.value order.now) }
    ensures kept { IfOk result (λ edits. IsKept functions.now.analysis.value functions.now.members order.now) }
{
    let edits = edit_files(alloc, functions, order)?;
    let a = functions.analysis();
    if !has_gnu(a) {
        return Ok(edits);
    }
    let same = is_compared(alloc, functions, order, &edits)?;
    if !same {
        return Err(Memory);
    }
    Ok(edits)
}

// Whether a unit is of GNU C.
fn has_gnu(a: &Analysis) -> bool
    ensures { result ≡ false → gnu_places a.now.value ≡ [] }
{
    for unit in 0..a.units() {
        if a.gnu_begin(unit + 1).is_some() {
            return true;
        }
    }
    false
}

// Whether a second analysis, over the files once the edits are made, is the first in the new order.
fn is_compared(
    alloc: Global,
    functions: &Functions<'_>,
    order: &[usize],
    edits: &Edits,
) -> Result<bool, Memory>
    requires order { IsOrder (length order.now) order.now }
    requires edits { edits.now ≡ edits_of functions.now.members functions.now.analysis.value order.now }
    ensures { IfOk result (λ kept. IsTrue kept → KeepsOrder functions.now.analysis.value functions.now.members order.now) }
{
    made_files_are_pseudo();
    tables_are_found();
    paths_stand_once();
    // The workspace is one that lines make.
    let a = functions.analysis();
    let ws = a.workspace();
    let _units = ws.units();
    let held = lists_are_held(alloc, functions)?;
    if !held {
        return Ok(false);
    }
    let b = second(alloc, edits, a)?;
    let same = are_compared(alloc, functions, order, &b)?;
    Ok(same)
}

// The first offence, if one stands.
fn first_offence(
    alloc: Global,
    functions: &Functions<'_>,
    count: usize,
) -> Result<Option<Offence>, Memory>
    requires { count ≡ count_of functions.now.analysis.value functions.now.members }
    ensures { IfOk result (IsFirst functions.now.analysis.value.table
        (offences_of functions.now.analysis.value functions.now.members (count_of functions.now.analysis.value functions.now.members))) }
{
    let named = at_names(functions, None);
    let marked = at_marks(functions, count, named);
    let replaced = at_macro_names(functions, marked);
    let inside = at_insides(functions, replaced);
    let listed = at_lists(alloc, functions, inside)?;
    let last = at_gnu_units(alloc, functions, listed)?;
    Ok(last)
}
