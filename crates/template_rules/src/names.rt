// What names say against a new order.
ghost use Rattle.std.specs.Prelude.{◌≡◌, true};
ghost use Rattle.std.specs.List.{flat_map};
ghost use Rattle.std.specs.List.Sorted.{IsNonDecreasingBy};
ghost use Rattle.c_types.specs.declared.lists.List.{List as NameList};
ghost use Rattle.cs_base.specs.declared.causes.Cause.TheVariants as cause;
ghost use Rattle.offences.specs.First.{standing, FirstThen};
ghost use Rattle.template_rules.specs.NameOffences.{has_prototype, is_prototype, no_prototype_place, value_place, name_offences, all_names};

use crate::callees::{calls_rise, is_callee};
use crate::functions::{Functions, holds_at};
use crate::places::at_token;
use crate::unit_functions::{UnitFunctions, declares_function};
use crate::unit_parameters::UnitParameters;
use analysis::{Analysis, Name};
use c_types::ParameterForm;
use cs_base::Cause;
use offences::Offence;

fn is_prototype(form: ParameterForm) -> bool
    ensures { result ≡ is_prototype form }
{
    match form {
        ParameterForm::Types => true,
        _ => false,
    }
}

fn has_prototype(lists: &UnitParameters, k: u32) -> bool
    ensures { result ≡ has_prototype lists.now k }
{
    match lists.of_name(k) {
        Some(list) => is_prototype(list.form),
        None => false,
    }
}

// `NoPrototype` at a name.
fn no_prototype_at(
    a: &Analysis,
    unit: &UnitFunctions<'_>,
    name: Name,
    first: Option<Offence>,
) -> Option<Offence>
    ensures { FirstThen a.now.value.table (standing cause.NoPrototype
        (no_prototype_place unit.now.class.members unit.now.text.now.toks unit.now.bound.now.names unit.now.lists name)) first result }
{
    if declares_function(unit, name) && !has_prototype(&unit.lists, name.index) {
        at_token(a, unit.text.toks(), name.index, Cause::NoPrototype, first)
    } else {
        first
    }
}

// `FunctionAsValue` at a name.
fn value_at(
    a: &Analysis,
    unit: &UnitFunctions<'_>,
    name: Name,
    rises: bool,
    first: Option<Offence>,
) -> Option<Offence>
    requires { rises ≡ true → IsNonDecreasingBy (λ (l : NameList). l.name) unit.now.bound.now.calls }
    ensures { FirstThen a.now.value.table (standing cause.FunctionAsValue
        (value_place unit.now.class.members unit.now.text.now.toks unit.now.bound.now.names unit.now.bound.now.calls name)) first result }
{
    if !holds_at(&unit.class, unit.text.toks(), name.index) {
        return first;
    }
    if declares_function(unit, name) {
        return first;
    }
    if is_callee(unit.bound.calls(), name.index, rises) {
        return first;
    }
    at_token(
        a,
        unit.text.toks(),
        name.index,
        Cause::FunctionAsValue,
        first,
    )
}

// Both at a name.
fn at_name(
    a: &Analysis,
    unit: &UnitFunctions<'_>,
    name: Name,
    rises: bool,
    first: Option<Offence>,
) -> Option<Offence>
    requires { rises ≡ true → IsNonDecreasingBy (λ (l : NameList). l.name) unit.now.bound.now.calls }
    ensures { FirstThen a.now.value.table (name_offences unit.now.class.members unit.now.text.now.toks
        unit.now.bound.now.names unit.now.bound.now.calls unit.now.lists name) first result }
{
    let lacking = no_prototype_at(a, unit, name, first);
    value_at(a, unit, name, rises, lacking)
}

// The same at these names of a unit.
fn at_unit_names(
    a: &Analysis,
    unit: &UnitFunctions<'_>,
    names: &[Name],
    first: Option<Offence>,
) -> Option<Offence>
    ensures { FirstThen a.now.value.table (flat_map (name_offences unit.now.class.members unit.now.text.now.toks
        unit.now.bound.now.names unit.now.bound.now.calls unit.now.lists) names.now) first result }
{
    let rises = calls_rise(unit.bound.calls());
    let mut now = first;
    for name in names {
        now = at_name(a, unit, *name, rises, now);
    }
    now
}

/// `NoPrototype`, at the name of a declarator of a function without a parameter type list of its own or with one that
/// ends in `...`; `FunctionAsValue`, at a name that holds a member and neither declares a function nor is directly
/// called.
pub fn at_names(functions: &Functions<'_>, first: Option<Offence>) -> Option<Offence>
    ensures answer { FirstThen functions.now.analysis.value.table
        (all_names functions.now.members functions.now.analysis.value) first result }
{
    let a = functions.analysis();
    let mut now = first;
    let units = functions.units();
    for unit in units {
        now = at_unit_names(a, unit, unit.bound.names(), now);
    }
    now
}
