// Between which units an item was reached.
ghost use Rattle.std.specs.Prelude.{◌≡◌, ◌&&◌, nat_le, nat_lt};
ghost use Rattle.std.specs.List.{list_any};
ghost use Rattle.template_rules.specs.MacroOffences.{is_item};
ghost use Rattle.template_rules.specs.Asking.{NoneBefore, NoneFrom, AreWithin};

use crate::functions::Functions;
use crate::unit_functions::{UnitFunctions, names_function};
use analysis::Reached;
use c_types::List;

/// An item, and between which units, from 0, stand all that reached it.
#[derive(Clone, Copy, Debug, PartialEq, Eq)]
pub(crate) struct ItemUnits {
    pub(crate) item: Reached,
    pub(crate) from: usize,
    pub(crate) to: usize,
}

/// Whether this is the same item of the same file.
pub(crate) fn is_item(item: Reached, other: Reached) -> bool
    ensures { result ≡ is_item item other }
{
    item.file == other.file && item.item == other.item
}

/// Whether unit `at`, from 0, is between these.
pub(crate) fn is_between(units: ItemUnits, at: usize) -> bool
    ensures { result ≡ (nat_le units.from at && nat_lt at units.to) }
{
    units.from <= at && at < units.to
}

// Whether a unit reached an item.
fn reaches(unit: &UnitFunctions<'_>, item: Reached) -> bool
    ensures { result ≡ list_any (is_item item) unit.now.text.now.reached }
{
    unit.text
        .reached()
        .iter()
        .any(|other| is_item(item, *other))
}

// Before which unit none did.
fn first_unit(units: &[UnitFunctions<'_>], item: Reached) -> usize
    ensures { NoneBefore units.now item result }
{
    for at in 0..units.len() {
        if reaches(&units[at], item) {
            return at;
        }
    }
    units.len()
}

// From which unit on none did.
fn last_unit(units: &[UnitFunctions<'_>], item: Reached) -> usize
    ensures { NoneFrom units.now item result }
{
    let mut to = 0;
    for at in 0..units.len() {
        if reaches(&units[at], item) {
            to = at + 1;
        }
    }
    to
}

// The units of an item.
fn units_of(functions: &Functions<'_>, item: Reached) -> ItemUnits
    ensures { AreWithin functions.now.analysis.value.units result }
{
    let units = functions.units();
    let from = first_unit(units, item);
    let to = last_unit(units, item);
    ItemUnits { item, from, to }
}

/// All units, of whatever item.
pub(crate) fn all_units(functions: &Functions<'_>) -> ItemUnits
    ensures { AreWithin functions.now.analysis.value.units result }
{
    let item = Reached {
        file: 0,
        item: 0,
        evaluated: false,
        events: 0,
        before: 0,
    };
    ItemUnits {
        item,
        from: 0,
        to: functions.units().len(),
    }
}

// The units of an item, where those of this item or of another are known.
fn units_for(functions: &Functions<'_>, item: Reached, near: ItemUnits) -> ItemUnits
    requires { AreWithin functions.now.analysis.value.units near }
    ensures { AreWithin functions.now.analysis.value.units result }
{
    if is_item(near.item, item) {
        near
    } else {
        units_of(functions, item)
    }
}

/// The units of the item of a list, if it is one of a function that the class names: lists that stand side by side
/// mostly are of one item.
pub(crate) fn units_at(
    functions: &Functions<'_>,
    unit: &UnitFunctions<'_>,
    list: &List,
    near: ItemUnits,
) -> ItemUnits
    requires { AreWithin functions.now.analysis.value.units near }
    ensures { AreWithin functions.now.analysis.value.units result }
{
    if !names_function(unit, list.name) {
        return near;
    }
    match unit.runs.item_of(list.name) {
        Some(item) => units_for(functions, item, near),
        None => near,
    }
}
