// What the marks of lists say against a new order.
ghost use Rattle.std.specs.Prelude.{◌≡◌};
ghost use Rattle.std.specs.List.{flat_map};
ghost use Rattle.cs_base.specs.declared.causes.Cause.TheVariants as cause;
ghost use Rattle.offences.specs.First.{standing, FirstThen};
ghost use Rattle.template_rules.specs.Functions.{names_function};
ghost use Rattle.template_rules.specs.Lists.{arguments_of, parameters_of};
ghost use Rattle.template_rules.specs.Marks.{read_only_place, is_main, main_place, across_place, count_place, mark_offences, declarator_marks, call_marks, all_marks};

use crate::counting::{arguments_of, parameters_of};
use crate::dependences::spelling_at;
use crate::functions::Functions;
use crate::places::{at_token, origin_of};
use crate::run_list::Runs;
use crate::unit_functions::{UnitFunctions, names_function};
use analysis::Analysis;
use c_types::List;
use cs_base::{Cause, Tok};
use offences::{Offence, first_with};

// `ReadOnly` at a list.
fn read_only_at(a: &Analysis, toks: &[Tok], list: &List, first: Option<Offence>) -> Option<Offence>
    ensures { FirstThen a.now.value.table (standing cause.ReadOnly (read_only_place a.now.value toks.now list.now)) first result }
{
    match origin_of(toks, list.begin) {
        Some(at) => {
            if a.read_only(at.file) {
                first_with(a, first, at, Cause::ReadOnly)
            } else {
                first
            }
        }
        None => first,
    }
}

// Whether token `k` is spelled `main`.
fn is_main(toks: &[Tok], k: u32) -> bool
    ensures { result ≡ is_main toks.now k }
{
    spelling_at(toks, k) == b"main".as_slice()
}

// `Reserved` at a list.
fn main_at(a: &Analysis, toks: &[Tok], list: &List, first: Option<Offence>) -> Option<Offence>
    ensures { FirstThen a.now.value.table (standing cause.Reserved (main_place toks.now list.now)) first result }
{
    if is_main(toks, list.name) {
        at_token(a, toks, list.name, Cause::Reserved, first)
    } else {
        first
    }
}

// `AcrossDirective` at a list.
fn across_at(
    a: &Analysis,
    toks: &[Tok],
    reached: &Runs<'_>,
    list: &List,
    first: Option<Offence>,
) -> Option<Offence>
    ensures { FirstThen a.now.value.table (standing cause.AcrossDirective (across_place toks.now reached.now list.now)) first result }
{
    if reached.is_across(list) {
        at_token(a, toks, list.name, Cause::AcrossDirective, first)
    } else {
        first
    }
}

// `ArgumentCount` at a list of so many items.
fn count_at(
    a: &Analysis,
    count: usize,
    length: usize,
    toks: &[Tok],
    list: &List,
    first: Option<Offence>,
) -> Option<Offence>
    ensures { FirstThen a.now.value.table (standing cause.ArgumentCount (count_place count length toks.now list.now)) first result }
{
    if length == count {
        first
    } else {
        at_token(a, toks, list.name, Cause::ArgumentCount, first)
    }
}

// All four at a list.
fn marks_at(
    a: &Analysis,
    count: usize,
    toks: &[Tok],
    reached: &Runs<'_>,
    length: usize,
    list: &List,
    first: Option<Offence>,
) -> Option<Offence>
    ensures { FirstThen a.now.value.table (mark_offences a.now.value count toks.now reached.now length list.now) first result }
{
    let kept = read_only_at(a, toks, list, first);
    let main = main_at(a, toks, list, kept);
    let across = across_at(a, toks, reached, list, main);
    count_at(a, count, length, toks, list, across)
}

// All four at the parameter list of a declarator, if it is one of a function that the class names.
fn at_declarator(
    a: &Analysis,
    unit: &UnitFunctions<'_>,
    count: usize,
    list: &List,
    first: Option<Offence>,
) -> Option<Offence>
    ensures { FirstThen a.now.value.table (declarator_marks unit.now.class.members a.now.value count unit.now.text.now.toks
        unit.now.text.now.reached unit.now.bound.now.names unit.now.lists list.now) first result }
{
    if names_function(unit, list.name) {
        marks_at(
            a,
            count,
            unit.text.toks(),
            &unit.runs,
            parameters_of(&unit.lists, list.name),
            list,
            first,
        )
    } else {
        first
    }
}

// The same at the argument list of a call, if its callee is one.
fn at_call(
    a: &Analysis,
    unit: &UnitFunctions<'_>,
    count: usize,
    list: &List,
    first: Option<Offence>,
) -> Option<Offence>
    ensures { FirstThen a.now.value.table (call_marks unit.now.class.members a.now.value count unit.now.text.now.toks
        unit.now.text.now.reached unit.now.bound.now.names list.now) first result }
{
    if names_function(unit, list.name) {
        marks_at(
            a,
            count,
            unit.text.toks(),
            &unit.runs,
            arguments_of(list),
            list,
            first,
        )
    } else {
        first
    }
}

// The same at all these declarators.
fn at_declarators(
    a: &Analysis,
    unit: &UnitFunctions<'_>,
    count: usize,
    all: &[List],
    first: Option<Offence>,
) -> Option<Offence>
    ensures { FirstThen a.now.value.table (flat_map (declarator_marks unit.now.class.members a.now.value count
        unit.now.text.now.toks unit.now.text.now.reached unit.now.bound.now.names unit.now.lists) all.now) first result }
{
    let mut now = first;
    for list in all {
        now = at_declarator(a, unit, count, list, now);
    }
    now
}

// The same at all these calls.
fn at_calls(
    a: &Analysis,
    unit: &UnitFunctions<'_>,
    count: usize,
    all: &[List],
    first: Option<Offence>,
) -> Option<Offence>
    ensures { FirstThen a.now.value.table (flat_map (call_marks unit.now.class.members a.now.value count
        unit.now.text.now.toks unit.now.text.now.reached unit.now.bound.now.names) all.now) first result }
{
    let mut now = first;
    for list in all {
        now = at_call(a, unit, count, list, now);
    }
    now
}

/// `ReadOnly`, at the `(` of a list in a file that is not edited; `Reserved`, at the name of a list of `main`;
/// `AcrossDirective`, at the name of a list that goes on behind a directive; `ArgumentCount`, at the name of a list that
/// has not so many items.
pub fn at_marks(functions: &Functions<'_>, count: usize, first: Option<Offence>) -> Option<Offence>
    ensures answer { FirstThen functions.now.analysis.value.table
        (all_marks functions.now.members functions.now.analysis.value count) first result }
{
    let a = functions.analysis();
    let mut now = first;
    let units = functions.units();
    for unit in units {
        let declared = at_declarators(a, unit, count, unit.bound.declarators(), now);
        now = at_calls(a, unit, count, unit.bound.calls(), declared);
    }
    now
}
