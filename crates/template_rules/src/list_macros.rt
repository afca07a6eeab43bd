// Lists that come from macros, or that are none in some processing of their text.
ghost use Rattle.std.specs.Prelude.{◌≡◌, ◌+◌, ◌<◌, ◌-◌, ◌==◌, true, false, length, nat_lt, slice_get};
ghost use Rattle.std.specs.List.{list_any, list_all};
ghost use Rattle.std.specs.Option.{option_copied, option_map_or};
ghost use Rattle.cs_base.specs.declared.causes.Cause.TheVariants as cause;
ghost use Rattle.list_cuts.specs.Cuts.{numbers};
ghost use Rattle.offences.specs.First.{standing, FirstThen};
ghost use Rattle.template_rules.specs.Lists.{each_mark, some_mark};
ghost use Rattle.template_rules.specs.MacroOffences.{is_direct, is_direct_at, is_pos, is_same, are_same, is_same_list, is_item, is_mark_in, is_list_at, is_list_in, is_list_as, is_list_through, is_list_for, is_mark_everywhere, macro_place};
ghost use Rattle.template_rules.specs.Asking.{asks, is_of_run, AreWithin, IsKnown, IsServed};
ghost use Rattle.template_rules.specs.declared.list_macros.Asked.TheVariants as asked;
ghost use Rattle.template_rules.specs.ListPlaces.{name_number};

use crate::functions::Functions;
use crate::item_units::{ItemUnits, is_between, is_item};
use crate::known_lists::{Known, is_known};
use crate::places::{at_token, origin_of};
use crate::run_list::Runs;
use crate::unit_functions::{
    UnitFunctions, lists_before, lists_before_run, name_number, names_function,
};
use analysis::Reached;
use c_types::List;
use cs_base::{Cause, Pos, Tok};
use offences::Offence;

fn is_direct_at(toks: &[Tok], k: u32) -> bool
    ensures { result ≡ is_direct_at toks.now k }
{
    (k as usize) < toks.len() && toks[k as usize].direct()
}

fn are_direct(toks: &[Tok], indices: &[u32]) -> bool
    ensures { result ≡ list_all (is_direct_at toks.now) indices.now }
{
    indices.iter().all(|k| is_direct_at(toks, *k))
}

/// Whether no mark of a list comes from a macro.
pub(crate) fn is_direct(toks: &[Tok], list: &List) -> bool
    ensures { result ≡ is_direct toks.now list.now }
{
    is_direct_at(toks, list.name)
        && (is_direct_at(toks, list.begin)
            && (are_direct(toks, list.commas.as_slice()) && is_direct_at(toks, list.close)))
}

fn is_same(one: Option<Pos>, other: Option<Pos>) -> bool
    ensures { result ≡ is_same one other }
{
    match one {
        Some(p) => match other {
            Some(q) => p.file == q.file && p.at == q.at,
            None => false,
        },
        None => false,
    }
}

fn are_same(toks: &[Tok], others: &[Tok], indices: &[u32], other_indices: &[u32]) -> bool
    ensures { result ≡ are_same toks.now others.now indices.now other_indices.now }
{
    if indices.len() != other_indices.len() {
        return false;
    }
    for k in 0..indices.len() {
        if !is_same(
            origin_of(toks, indices[k]),
            origin_of(others, other_indices[k]),
        ) {
            return false;
        }
    }
    true
}

/// Whether the name, the parentheses and the commas of two lists stand at the same positions.
pub(crate) fn is_same_list(toks: &[Tok], others: &[Tok], list: &List, other: &List) -> bool
    ensures { result ≡ is_same_list toks.now others.now list.now other.now }
{
    is_same(origin_of(toks, list.name), origin_of(others, other.name))
        && (is_same(origin_of(toks, list.begin), origin_of(others, other.begin))
            && (is_same(origin_of(toks, list.close), origin_of(others, other.close))
                && are_same(
                    toks,
                    others,
                    list.commas.as_slice(),
                    other.commas.as_slice(),
                )))
}

fn is_mark_in(toks: &[Tok], reached: &Runs<'_>, at: Option<Pos>, number: usize, k: u32) -> bool
    ensures { result ≡ is_mark_in toks.now reached.now at number k }
{
    is_same(origin_of(toks, k), at) && reached.run_of(k) == number
}

fn is_one_in(
    toks: &[Tok],
    reached: &Runs<'_>,
    at: Option<Pos>,
    number: usize,
    indices: &[u32],
) -> bool
    ensures { result ≡ list_any (is_mark_in toks.now reached.now at number) indices.now }
{
    indices
        .iter()
        .any(|k| is_mark_in(toks, reached, at, number, *k))
}

// Whether a mark of a list stands at a position, and was put out for this item.
fn has_mark(toks: &[Tok], reached: &Runs<'_>, at: Option<Pos>, number: usize, list: &List) -> bool
    ensures { result ≡ some_mark (is_mark_in toks.now reached.now at number) list.now }
{
    is_mark_in(toks, reached, at, number, list.name)
        || (is_mark_in(toks, reached, at, number, list.begin)
            || (is_one_in(toks, reached, at, number, list.commas.as_slice())
                || is_mark_in(toks, reached, at, number, list.close)))
}

// Whether a list of one of the functions stands at the positions of another, with such a mark.
fn is_list_at(
    unit: &UnitFunctions<'_>,
    toks: &[Tok],
    list: &List,
    k: u32,
    number: usize,
    other: &List,
) -> bool
    ensures { result ≡ is_list_at unit.now.class.members toks.now list.now k unit.now.text.now unit.now.bound.now.names number other.now }
{
    let others = unit.text.toks();
    is_same_list(toks, others, list, other)
        && (names_function(unit, other.name)
            && has_mark(others, &unit.runs, origin_of(toks, k), number, other))
}

// Whether the name of a list has a higher number than this.
fn is_past(toks: &[Tok], list: &List, number: u64) -> bool
    ensures { result ≡ nat_lt number (name_number toks.now list.now) }
{
    number < name_number(toks, list)
}

// Whether a unit has such a list for a reached item. Only the lists are looked at whose names stand at the same place.
fn is_list_in(unit: &UnitFunctions<'_>, toks: &[Tok], list: &List, k: u32, number: usize) -> bool
    ensures { result ≡ is_list_in unit.now.class.members toks.now list.now k unit.now.text.now unit.now.bound.now number }
{
    let found = unit.by_place.as_slice();
    let others = unit.text.toks();
    let name = name_number(toks, list);
    let from = lists_before(others, found, name);
    for at in from..found.len() {
        let other = found[at];
        if is_past(others, other, name) {
            return false;
        }
        if is_list_at(unit, toks, list, k, number, other) {
            return true;
        }
    }
    false
}

// Which marks of a list are asked for: one, or all.
#[derive(Clone, Copy, Debug, PartialEq, Eq)]
pub(crate) enum Asked {
    Mark(u32),
    All,
}

// Whether it has such lists for these marks.
fn are_lists_for(
    unit: &UnitFunctions<'_>,
    toks: &[Tok],
    list: &List,
    indices: &[u32],
    number: usize,
) -> bool
    ensures { result ≡ list_all
        (λ k. is_list_in unit.now.class.members toks.now list.now k unit.now.text.now unit.now.bound.now number) indices.now }
{
    for k in indices {
        if !is_list_in(unit, toks, list, *k, number) {
            return false;
        }
    }
    true
}

// Whether a list of one of the functions stands at the positions of another, and all its marks were put out for this run.
fn is_whole_at(
    unit: &UnitFunctions<'_>,
    toks: &[Tok],
    list: &List,
    number: usize,
    other: &List,
) -> bool
    ensures { result ≡ true → each_mark
        (λ k. is_list_at unit.now.class.members toks.now list.now k unit.now.text.now unit.now.bound.now.names number other.now) list.now ≡ true }
{
    let others = unit.text.toks();
    is_same_list(toks, others, list, other)
        && (names_function(unit, other.name) && is_of_run(&unit.runs, number, other))
}

// Whether it has such a list for all marks of a list: the one whose name was put out for this run is looked for by halving.
fn is_whole_in(unit: &UnitFunctions<'_>, toks: &[Tok], list: &List, number: usize) -> bool
    ensures { result ≡ true → each_mark
        (λ k. is_list_in unit.now.class.members toks.now list.now k unit.now.text.now unit.now.bound.now number) list.now ≡ true }
{
    let found = unit.by_place.as_slice();
    let others = unit.text.toks();
    let name = name_number(toks, list);
    let at = lists_before_run(others, &unit.runs, found, name, number);
    if at >= found.len() {
        return false;
    }
    is_whole_at(unit, toks, list, number, found[at])
}

// Whether it has one for each mark, asked one after another.
fn has_each(unit: &UnitFunctions<'_>, toks: &[Tok], list: &List, number: usize) -> bool
    ensures { result ≡ each_mark
        (λ k. is_list_in unit.now.class.members toks.now list.now k unit.now.text.now unit.now.bound.now number) list.now }
{
    is_list_in(unit, toks, list, list.name, number)
        && (is_list_in(unit, toks, list, list.begin, number)
            && (are_lists_for(unit, toks, list, list.commas.as_slice(), number)
                && is_list_in(unit, toks, list, list.close, number)))
}

// The same: mostly one list serves all of them.
fn has_all(unit: &UnitFunctions<'_>, toks: &[Tok], list: &List, number: usize) -> bool
    ensures { result ≡ each_mark
        (λ k. is_list_in unit.now.class.members toks.now list.now k unit.now.text.now unit.now.bound.now number) list.now }
{
    if is_whole_in(unit, toks, list, number) {
        return true;
    }
    has_each(unit, toks, list, number)
}

// Whether it has such lists for the marks that are asked for.
fn are_lists_in(
    unit: &UnitFunctions<'_>,
    toks: &[Tok],
    list: &List,
    asked: Asked,
    number: usize,
) -> bool
    ensures { result ≡ asks asked
        (λ k. is_list_in unit.now.class.members toks.now list.now k unit.now.text.now unit.now.bound.now number) list.now }
{
    match asked {
        Asked::Mark(k) => is_list_in(unit, toks, list, k, number),
        Asked::All => has_all(unit, toks, list, number),
    }
}

fn is_item_at(item: Reached, reached: &[Reached], place: usize) -> bool
    ensures { result ≡ option_map_or (is_item item) (slice_get reached.now place) false }
{
    if place < reached.len() {
        let other = reached[place];
        item.file == other.file && item.item == other.item
    } else {
        false
    }
}

// Whether it has them for an item, if that is the same as another.
fn is_list_as(
    unit: &UnitFunctions<'_>,
    toks: &[Tok],
    list: &List,
    asked: Asked,
    item: Reached,
    place: usize,
) -> bool
    requires { place < length unit.now.text.now.reached }
    ensures { result ≡ asks asked
        (λ k. is_list_as unit.now.class.members toks.now list.now k item unit.now.text.now unit.now.bound.now place) list.now }
{
    if !is_item_at(item, unit.text.reached(), place) {
        return true;
    }
    are_lists_in(unit, toks, list, asked, place + 1)
}

// Whether it has them in each processing of an item.
fn is_list_through(
    unit: &UnitFunctions<'_>,
    toks: &[Tok],
    list: &List,
    asked: Asked,
    item: Reached,
) -> bool
    ensures { result ≡ asks asked
        (λ k. is_list_through unit.now.class.members toks.now list.now k item unit.now.text.now unit.now.bound.now) list.now }
{
    let reached = unit.text.reached();
    for place in 0..reached.len() {
        if !is_list_as(unit, toks, list, asked, item, place) {
            return false;
        }
    }
    true
}

// Whether each unit has.
fn is_list_for(
    functions: &Functions<'_>,
    toks: &[Tok],
    list: &List,
    asked: Asked,
    item: Reached,
) -> bool
    ensures { result ≡ asks asked
        (λ k. is_list_for functions.now.members functions.now.analysis.value toks.now list.now k item) list.now }
{
    let units = functions.units();
    for unit in units {
        if !is_list_through(unit, toks, list, asked, item) {
            return false;
        }
    }
    true
}

// Whether a unit has them in each processing of an item, where it may be known that there is none.
fn is_list_if(
    unit: &UnitFunctions<'_>,
    toks: &[Tok],
    list: &List,
    asked: Asked,
    item: Reached,
    some: bool,
) -> bool
    requires { some ≡ false → list_any (is_item item) unit.now.text.now.reached ≡ false }
    ensures { result ≡ asks asked
        (λ k. is_list_through unit.now.class.members toks.now list.now k item unit.now.text.now unit.now.bound.now) list.now }
{
    if !some {
        return true;
    }
    is_list_through(unit, toks, list, asked, item)
}

// Whether each unit has, where it is known between which units the item was reached.
fn is_list_within(
    functions: &Functions<'_>,
    toks: &[Tok],
    list: &List,
    asked: Asked,
    item: Reached,
    near: ItemUnits,
) -> bool
    requires near { AreWithin functions.now.analysis.value.units near }
    requires item { is_item near.item item ≡ true }
    ensures { result ≡ asks asked
        (λ k. is_list_for functions.now.members functions.now.analysis.value toks.now list.now k item) list.now }
{
    let units = functions.units();
    for at in 0..units.len() {
        let some = is_between(near, at);
        if !is_list_if(&units[at], toks, list, asked, item, some) {
            return false;
        }
    }
    true
}

// Whether each unit has, where it is known of this item or of another.
fn is_list_near(
    functions: &Functions<'_>,
    toks: &[Tok],
    list: &List,
    asked: Asked,
    item: Reached,
    near: ItemUnits,
) -> bool
    requires { AreWithin functions.now.analysis.value.units near }
    ensures { result ≡ asks asked
        (λ k. is_list_for functions.now.members functions.now.analysis.value toks.now list.now k item) list.now }
{
    if is_item(near.item, item) {
        is_list_within(functions, toks, list, asked, item, near)
    } else {
        is_list_for(functions, toks, list, asked, item)
    }
}

// The same for the run for which mark `k` was put out.
fn is_mark_everywhere(
    functions: &Functions<'_>,
    toks: &[Tok],
    reached: &Runs<'_>,
    list: &List,
    k: u32,
) -> bool
    ensures { result ≡ is_mark_everywhere functions.now.members functions.now.analysis.value toks.now reached.now list.now k }
{
    match reached.item_of(k) {
        Some(item) => is_list_for(functions, toks, list, Asked::Mark(k), item),
        None => false,
    }
}

fn are_everywhere(
    functions: &Functions<'_>,
    toks: &[Tok],
    reached: &Runs<'_>,
    list: &List,
    indices: &[u32],
) -> bool
    ensures { result ≡ list_all
        (is_mark_everywhere functions.now.members functions.now.analysis.value toks.now reached.now list.now) indices.now }
{
    for k in indices {
        if !is_mark_everywhere(functions, toks, reached, list, *k) {
            return false;
        }
    }
    true
}

// The same for each mark of a list.
fn are_marks_everywhere(
    functions: &Functions<'_>,
    toks: &[Tok],
    reached: &Runs<'_>,
    list: &List,
) -> bool
    ensures { result ≡ each_mark
        (is_mark_everywhere functions.now.members functions.now.analysis.value toks.now reached.now list.now) list.now }
{
    is_mark_everywhere(functions, toks, reached, list, list.name)
        && (is_mark_everywhere(functions, toks, reached, list, list.begin)
            && (are_everywhere(functions, toks, reached, list, list.commas.as_slice())
                && is_mark_everywhere(functions, toks, reached, list, list.close)))
}

fn are_of_run(reached: &Runs<'_>, number: usize, indices: &[u32]) -> bool
    ensures { result ≡ list_all (is_of_run reached.now number) indices.now }
{
    indices.iter().all(|k| reached.run_of(*k) == number)
}

// Whether all marks of a list were put out for one run.
fn is_of_run(reached: &Runs<'_>, number: usize, list: &List) -> bool
    ensures { result ≡ each_mark (is_of_run reached.now number) list.now }
{
    reached.run_of(list.name) == number
        && (reached.run_of(list.begin) == number
            && (are_of_run(reached, number, list.commas.as_slice())
                && reached.run_of(list.close) == number))
}

// Whether each unit has for all marks of a list, where it may be known.
fn is_served(
    functions: &Functions<'_>,
    toks: &[Tok],
    list: &List,
    item: Reached,
    near: ItemUnits,
    known: &Known<'_>,
) -> bool
    requires near { AreWithin functions.now.analysis.value.units near }
    requires known { IsKnown functions.now toks.now known.now }
    ensures { result ≡ asks asked.All
        (λ k. is_list_for functions.now.members functions.now.analysis.value toks.now list.now k item) list.now }
{
    if is_known(toks, known, list, item) {
        return true;
    }
    is_list_near(functions, toks, list, Asked::All, item, near)
}

// The same for each mark of a list, where all were put out for this run: this asks once for all of them.
fn is_everywhere_at(
    functions: &Functions<'_>,
    toks: &[Tok],
    reached: &Runs<'_>,
    list: &List,
    number: usize,
    near: ItemUnits,
    known: &Known<'_>,
) -> bool
    requires run { each_mark (is_of_run reached.now number) list.now ≡ true }
    requires near { AreWithin functions.now.analysis.value.units near }
    requires known { IsKnown functions.now toks.now known.now }
    ensures { result ≡ each_mark
        (is_mark_everywhere functions.now.members functions.now.analysis.value toks.now reached.now list.now) list.now }
{
    match reached.item_at(number) {
        Some(item) => is_served(functions, toks, list, item, near, known),
        None => false,
    }
}

// The same for all marks of a list.
fn is_everywhere(
    functions: &Functions<'_>,
    toks: &[Tok],
    reached: &Runs<'_>,
    list: &List,
    near: ItemUnits,
    known: &Known<'_>,
) -> bool
    requires near { AreWithin functions.now.analysis.value.units near }
    requires known { IsKnown functions.now toks.now known.now }
    ensures { result ≡ each_mark
        (is_mark_everywhere functions.now.members functions.now.analysis.value toks.now reached.now list.now) list.now }
{
    let number = reached.run_of(list.name);
    if is_of_run(reached, number, list) {
        is_everywhere_at(functions, toks, reached, list, number, near, known)
    } else {
        are_marks_everywhere(functions, toks, reached, list)
    }
}

// What is known of such a list once it was asked.
fn known_for<'a>(
    functions: &Functions<'_>,
    toks: &[Tok],
    list: &'a List,
    item: Reached,
    near: ItemUnits,
    known: Known<'a>,
) -> Known<'a>
    requires near { AreWithin functions.now.analysis.value.units near }
    requires known { IsKnown functions.now toks.now known }
    ensures { IsKnown functions.now toks.now result }
{
    if is_served(functions, toks, list, item, near, &known) {
        Known {
            list: Some(list),
            item,
        }
    } else {
        known
    }
}

/// What is known once a list of a unit is asked, if it is one of a function that the class names and no macro has put a mark of it in.
pub(crate) fn known_at<'a>(
    functions: &Functions<'_>,
    unit: &UnitFunctions<'_>,
    list: &'a List,
    near: ItemUnits,
    known: Known<'a>,
) -> Known<'a>
    requires near { AreWithin functions.now.analysis.value.units near }
    requires known { IsKnown functions.now unit.now.text.now.toks known }
    ensures { IsKnown functions.now unit.now.text.now.toks result }
{
    let toks = unit.text.toks();
    if !names_function(unit, list.name) {
        return known;
    }
    if !is_direct(toks, list) {
        return known;
    }
    match unit.runs.item_of(list.name) {
        Some(item) => known_for(functions, toks, list, item, near, known),
        None => known,
    }
}

/// `InMacro` at a list, where it is known between which units an item was reached, and what of a list before it.
pub(crate) fn macro_at(
    functions: &Functions<'_>,
    toks: &[Tok],
    reached: &Runs<'_>,
    list: &List,
    near: ItemUnits,
    known: &Known<'_>,
    first: Option<Offence>,
) -> Option<Offence>
    requires near { AreWithin functions.now.analysis.value.units near }
    requires known { IsKnown functions.now toks.now known.now }
    ensures { FirstThen functions.now.analysis.value.table (standing cause.InMacro
        (macro_place functions.now.members functions.now.analysis.value toks.now reached.now list.now)) first result }
{
    if is_direct(toks, list) && is_everywhere(functions, toks, reached, list, near, known) {
        first
    } else {
        at_token(functions.analysis(), toks, list.name, Cause::InMacro, first)
    }
}
