// What stands against a new order at lists, beside what their marks say and what happens inside them.
ghost use Rattle.std.specs.Prelude.{◌≡◌, IfOk};
ghost use Rattle.std.specs.List.{flat_map};
ghost use Rattle.offences.specs.First.{FirstThen};
ghost use Rattle.template_rules.specs.Asking.{AreWithin, IsKnown};
ghost use Rattle.template_rules.specs.LineOffences.{odd_positions};
ghost use Rattle.template_rules.specs.OddLines.{AreOdd};
ghost use Rattle.template_rules.specs.Offences.{list_offences, declarator_offences, call_offences, all_lists};

use crate::body_lists::body_at;
use crate::dependences::dependences_at;
use crate::functions::Functions;
use crate::item_units::{ItemUnits, all_units, units_at};
use crate::known_lists::{Known, nothing_known};
use crate::list_macros::{known_at, macro_at};
use crate::odd_lines::{OddLines, odd_lines};
use crate::odd_tokens::odds_at;
use crate::unit_functions::{UnitFunctions, names_function};
use c_types::List;
use cs_base::Memory;
use offences::Offence;
use std::alloc::Global;

// `InMacro` and `OddToken` at a list.
fn list_at(
    functions: &Functions<'_>,
    odds: &OddLines,
    unit: &UnitFunctions<'_>,
    list: &List,
    near: ItemUnits,
    known: &Known<'_>,
    first: Option<Offence>,
) -> Option<Offence>
    requires known { IsKnown functions.now unit.now.text.now.toks known.now }
    requires near { AreWithin functions.now.analysis.value.units near }
    requires odds { AreOdd functions.now.analysis.value.table (odd_positions functions.now.analysis.value.table) odds.now }
    ensures { FirstThen functions.now.analysis.value.table
        (list_offences functions.now.members functions.now.analysis.value (odd_positions functions.now.analysis.value.table) unit.now.text.now list.now) first result }
{
    let named = macro_at(
        functions,
        unit.text.toks(),
        &unit.runs,
        list,
        near,
        known,
        first,
    );
    odds_at(functions.analysis(), odds, unit, list, named)
}

// These and `ParameterDependence`, at the list of a declarator, if it is one of a function that the class names.
fn declarator_at(
    functions: &Functions<'_>,
    odds: &OddLines,
    unit: &UnitFunctions<'_>,
    list: &List,
    near: ItemUnits,
    known: &Known<'_>,
    first: Option<Offence>,
) -> Option<Offence>
    requires class { unit.now.class ≡ functions.now }
    requires known { IsKnown functions.now unit.now.text.now.toks known.now }
    requires near { AreWithin functions.now.analysis.value.units near }
    requires odds { AreOdd functions.now.analysis.value.table (odd_positions functions.now.analysis.value.table) odds.now }
    ensures { FirstThen functions.now.analysis.value.table (declarator_offences functions.now.members
        functions.now.analysis.value (odd_positions functions.now.analysis.value.table) unit.now.text.now unit.now.bound.now unit.now.lists list.now) first result }
{
    if names_function(unit, list.name) {
        let named = list_at(functions, odds, unit, list, near, known, first);
        dependences_at(
            functions.analysis(),
            unit.text.toks(),
            unit.bound.names(),
            unit.bound.bare(),
            &unit.lists,
            list,
            named,
        )
    } else {
        first
    }
}

// These and `DeclarationInArgument`, at the list of a call of one.
fn call_at(
    functions: &Functions<'_>,
    odds: &OddLines,
    unit: &UnitFunctions<'_>,
    ends: &[u32],
    list: &List,
    near: ItemUnits,
    known: &Known<'_>,
    first: Option<Offence>,
) -> Option<Offence>
    requires class { unit.now.class ≡ functions.now }
    requires known { IsKnown functions.now unit.now.text.now.toks known.now }
    requires near { AreWithin functions.now.analysis.value.units near }
    requires odds { AreOdd functions.now.analysis.value.table (odd_positions functions.now.analysis.value.table) odds.now }
    ensures { FirstThen functions.now.analysis.value.table (call_offences functions.now.members
        functions.now.analysis.value (odd_positions functions.now.analysis.value.table) unit.now.text.now unit.now.bound.now ends.now list.now) first result }
{
    if names_function(unit, list.name) {
        let named = list_at(functions, odds, unit, list, near, known, first);
        body_at(functions.analysis(), unit.text.toks(), ends, list, named)
    } else {
        first
    }
}

fn at_declarators(
    functions: &Functions<'_>,
    odds: &OddLines,
    unit: &UnitFunctions<'_>,
    all: &[List],
    first: Option<Offence>,
) -> Option<Offence>
    requires class { unit.now.class ≡ functions.now }
    requires odds { AreOdd functions.now.analysis.value.table (odd_positions functions.now.analysis.value.table) odds.now }
    ensures { FirstThen functions.now.analysis.value.table (flat_map (declarator_offences functions.now.members
        functions.now.analysis.value (odd_positions functions.now.analysis.value.table) unit.now.text.now unit.now.bound.now unit.now.lists) all.now) first result }
{
    let mut now = first;
    let mut near = all_units(functions);
    let mut known = nothing_known();
    for list in all {
        near = units_at(functions, unit, list, near);
        known = known_at(functions, unit, list, near, known);
        now = declarator_at(functions, odds, unit, list, near, &known, now);
    }
    now
}

fn at_calls(
    functions: &Functions<'_>,
    odds: &OddLines,
    unit: &UnitFunctions<'_>,
    ends: &[u32],
    all: &[List],
    first: Option<Offence>,
) -> Option<Offence>
    requires class { unit.now.class ≡ functions.now }
    requires odds { AreOdd functions.now.analysis.value.table (odd_positions functions.now.analysis.value.table) odds.now }
    ensures { FirstThen functions.now.analysis.value.table (flat_map (call_offences functions.now.members
        functions.now.analysis.value (odd_positions functions.now.analysis.value.table) unit.now.text.now unit.now.bound.now ends.now) all.now) first result }
{
    let mut now = first;
    let mut near = all_units(functions);
    let mut known = nothing_known();
    for list in all {
        near = units_at(functions, unit, list, near);
        known = known_at(functions, unit, list, near, known);
        now = call_at(functions, odds, unit, ends, list, near, &known, now);
    }
    now
}

/// At lists: `InMacro`, where it comes from a macro or is none in some processing of its text; `ParameterDependence`, at
/// each use of one parameter's name in another; `DeclarationInArgument`, where a parameter list ends inside an argument
/// that a body begins with; and `OddToken`, at each lone quote or other odd character in a line with a token of a list.
pub fn at_lists(
    alloc: Global,
    functions: &Functions<'_>,
    first: Option<Offence>,
) -> Result<Option<Offence>, Memory>
    ensures answer { IfOk result (FirstThen functions.now.analysis.value.table
        (all_lists functions.now.members functions.now.analysis.value) first) }
{
    let odds = odd_lines(alloc, functions.analysis())?;
    let mut now = first;
    let units = functions.units();
    for unit in units {
        let declared = at_declarators(functions, &odds, unit, unit.bound.declarators(), now);
        now = at_calls(
            functions,
            &odds,
            unit,
            &unit.ends,
            unit.bound.calls(),
            declared,
        );
    }
    Ok(now)
}
