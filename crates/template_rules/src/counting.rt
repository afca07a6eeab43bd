// How many parameters the functions have that a class names.
ghost use Rattle.std.specs.Prelude.{◌≡◌, ◌+◌};
ghost use Rattle.template_rules.specs.Lists.{has_types, declarations_in, parameters_of, arguments_of, declarator_of, declarators_in, sooner, soonest, first_declarator, count_of};
ghost use Rattle.std.specs.List.{flat_map};

use crate::functions::Functions;
use crate::places::origin_of;
use crate::unit_functions::{UnitFunctions, declares_function};
use crate::unit_parameters::UnitParameters;
use analysis::{Analysis, Name};
use c_types::{List, ParameterForm, ParameterList};
use cs_base::Pos;
use offences::compare;
use std::cmp::Ordering;

/// A declarator of a function: where its name stands, and how many parameters it has.
#[derive(Clone, Copy, Debug, PartialEq, Eq)]
pub struct Declarator {
    pub at: Pos,
    pub count: usize,
}

fn has_types(form: ParameterForm) -> bool
    ensures { result ≡ has_types form }
{
    match form {
        ParameterForm::Types | ParameterForm::Ellipsis => true,
        _ => false,
    }
}

fn declarations_in(list: &ParameterList) -> usize
    ensures { result ≡ declarations_in list.now }
{
    if has_types(list.form) {
        list.names.as_slice().len()
    } else {
        0
    }
}

/// How many parameter declarations the declarator has whose name is token `k`.
pub(crate) fn parameters_of(lists: &UnitParameters, k: u32) -> usize
    ensures { result ≡ parameters_of lists.now k }
{
    match lists.of_name(k) {
        Some(list) => declarations_in(list),
        None => 0,
    }
}

/// How many arguments a call has.
pub(crate) fn arguments_of(list: &List) -> usize
    ensures { result ≡ arguments_of list.now }
{
    if list.close > list.begin && list.close - list.begin == 1 {
        0
    } else {
        list.commas.as_slice().len() + 1
    }
}

// Of two declarators the one whose name stands first.
fn sooner(a: &Analysis, best: Option<Declarator>, declarator: Declarator) -> Declarator
    ensures { result ≡ sooner a.now.value.table best declarator }
{
    match best {
        Some(other) => match compare(a, declarator.at, other.at) {
            Ordering::Less => declarator,
            _ => other,
        },
        None => declarator,
    }
}

// The first of some declarators and of that which a name is in, if it declares a function.
fn with_name(
    a: &Analysis,
    unit: &UnitFunctions<'_>,
    best: Option<Declarator>,
    name: Name,
) -> Option<Declarator>
    ensures { result ≡ soonest a.now.value.table best
        (declarator_of unit.now.class.members unit.now.text.now.toks unit.now.bound.now.names unit.now.lists name) }
{
    if !declares_function(unit, name) {
        return best;
    }
    match origin_of(unit.text.toks(), name.index) {
        Some(at) => {
            let count = parameters_of(&unit.lists, name.index);
            Some(sooner(a, best, Declarator { at, count }))
        }
        None => best,
    }
}

// The same with all these names.
fn with_names(
    a: &Analysis,
    unit: &UnitFunctions<'_>,
    names: &[Name],
    best: Option<Declarator>,
) -> Option<Declarator>
    ensures { result ≡ soonest a.now.value.table best (flat_map
        (declarator_of unit.now.class.members unit.now.text.now.toks unit.now.bound.now.names unit.now.lists) names.now) }
{
    let mut now = best;
    for name in names {
        now = with_name(a, unit, now, *name);
    }
    now
}

/// Of all units the first declarator of a function.
pub fn first_declarator(functions: &Functions<'_>) -> Option<Declarator>
    ensures { result ≡ first_declarator functions.now.analysis.value functions.now.members }
{
    let a = functions.analysis();
    let mut best = None;
    let units = functions.units();
    for unit in units {
        best = with_names(a, unit, unit.bound.names(), best);
    }
    best
}

/// How many parameters the first declarator by its place has: the number of items of each list that is to have a new
/// order.
pub fn parameter_count(functions: &Functions<'_>) -> usize
    ensures answer { result ≡ count_of functions.now.analysis.value functions.now.members }
{
    match first_declarator(functions) {
        Some(declarator) => declarator.count,
        None => 0,
    }
}
