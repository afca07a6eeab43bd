// What stands against a new order in units of GNU C.
ghost use Rattle.std.specs.Prelude.{◌≡◌, ◌≤◌, ◌++◌, IfOk, length, map};
ghost use Rattle.std.specs.List.{flat_map, list_any};
ghost use Rattle.cs_base.specs.declared.causes.Cause.TheVariants as cause;
ghost use Rattle.offences.specs.First.{standing, FirstThen};
ghost use Rattle.template_rules.specs.GnuOffences.{block_place, declares_by_call, first_call_place, gnu_offences, is_in_own, told_offences, told_place, IsAgainstUnit};
ghost use Rattle.template_rules.specs.ScopeOffences.{is_inside};

use crate::functions::Functions;
use crate::gnu_texts::{at_brought, in_texts, spellings};
use crate::unit_functions::{UnitFunctions, names_function};
use analysis::{Analysis, Name};
use c_types::List;
use cs_base::{Cause, Memory};
use gnu_lists::{Counted, Lists, lists_of};
use offences::Offence;
use std::alloc::Global;

// A cause where a token was brought that is said of a declared name, if this is one of the functions.
fn at_told(
    a: &Analysis,
    unit: &UnitFunctions<'_>,
    told: Counted,
    cause: Cause,
    first: Option<Offence>,
) -> Option<Offence>
    ensures { FirstThen a.now.value.table (standing cause
        (told_place unit.now.class.members unit.now.text.now.toks unit.now.bound.now.names told)) first result }
{
    if names_function(unit, told.name) {
        at_brought(a, unit.text.toks(), told.index, cause, first)
    } else {
        first
    }
}

// The same for each of these tokens.
fn at_each(
    a: &Analysis,
    unit: &UnitFunctions<'_>,
    all: &[Counted],
    cause: Cause,
    first: Option<Offence>,
) -> Option<Offence>
    ensures { FirstThen a.now.value.table (standing cause
        (flat_map (told_place unit.now.class.members unit.now.text.now.toks unit.now.bound.now.names) all.now)) first result }
{
    let mut now = first;
    for told in all {
        now = at_told(a, unit, *told, cause, now);
    }
    now
}

fn is_inside(list: &List, k: u32) -> bool
    ensures { result ≡ is_inside list.now k }
{
    list.begin < k && k < list.close
}

fn is_inside_one(lists: &[&List], k: u32) -> bool
    ensures { result ≡ list_any (λ l. is_inside l.now k) lists.now }
{
    let mut left = lists;
    while let [list, more @ ..] = left {
        if is_inside(list, k) {
            return true;
        }
        left = more;
    }
    false
}

// Whether token `k` stands inside a list of the functions.
fn is_in_own(unit: &UnitFunctions<'_>, k: u32) -> bool
    ensures { result ≡ list_any (is_in_own unit.now.class.members unit.now.text.now.toks unit.now.bound.now.names k)
        (unit.now.bound.now.declarators ++ unit.now.bound.now.calls) }
{
    is_inside_one(unit.found.as_slice(), k)
}

// `DeclarationInArgument` where the `{` of a block was brought, if it stands inside such a list.
fn at_block(
    a: &Analysis,
    unit: &UnitFunctions<'_>,
    k: u32,
    first: Option<Offence>,
) -> Option<Offence>
    ensures { FirstThen a.now.value.table (standing cause.DeclarationInArgument
        (block_place unit.now.class.members unit.now.text.now.toks unit.now.bound.now.names
        (unit.now.bound.now.declarators ++ unit.now.bound.now.calls) k)) first result }
{
    if is_in_own(unit, k) {
        at_brought(a, unit.text.toks(), k, Cause::DeclarationInArgument, first)
    } else {
        first
    }
}

// The same for each of these.
fn at_blocks(
    a: &Analysis,
    unit: &UnitFunctions<'_>,
    begins: &[u32],
    first: Option<Offence>,
) -> Option<Offence>
    ensures { FirstThen a.now.value.table (standing cause.DeclarationInArgument
        (flat_map (block_place unit.now.class.members unit.now.text.now.toks unit.now.bound.now.names
        (unit.now.bound.now.declarators ++ unit.now.bound.now.calls)) begins.now)) first result }
{
    let mut now = first;
    for k in begins {
        now = at_block(a, unit, *k, now);
    }
    now
}

// Whether a use is of what no other token names: its call is the first that declares the function.
fn declares_by_call(name: Name) -> bool
    ensures { result ≡ declares_by_call name }
{
    !name.declares && name.entity == name.index
}

// `DeclarationInArgument` at such a name that stands inside a list of the functions.
fn at_first_call(
    a: &Analysis,
    unit: &UnitFunctions<'_>,
    name: Name,
    first: Option<Offence>,
) -> Option<Offence>
    ensures { FirstThen a.now.value.table (standing cause.DeclarationInArgument
        (first_call_place unit.now.class.members unit.now.text.now.toks unit.now.bound.now.names
        (unit.now.bound.now.declarators ++ unit.now.bound.now.calls) name)) first result }
{
    if declares_by_call(name) {
        at_block(a, unit, name.index, first)
    } else {
        first
    }
}

// The same for each of these names.
fn at_first_calls(
    a: &Analysis,
    unit: &UnitFunctions<'_>,
    names: &[Name],
    first: Option<Offence>,
) -> Option<Offence>
    ensures { FirstThen a.now.value.table (standing cause.DeclarationInArgument
        (flat_map (first_call_place unit.now.class.members unit.now.text.now.toks unit.now.bound.now.names
        (unit.now.bound.now.declarators ++ unit.now.bound.now.calls)) names.now)) first result }
{
    let mut now = first;
    for name in names {
        now = at_first_call(a, unit, *name, now);
    }
    now
}

// All of them in a unit whose tree tells these lists.
fn in_lists(
    alloc: Global,
    a: &Analysis,
    unit: &UnitFunctions<'_>,
    words: &[&[u8]],
    lists: &Lists,
    first: Option<Offence>,
) -> Result<Option<Offence>, Memory>
    ensures { IfOk result (FirstThen a.now.value.table
        (told_offences unit.now.class.members (map (λ t. t.now) words.now) unit.now.text.now.toks unit.now.bound.now lists.now) first) }
{
    let counted = at_each(a, unit, lists.counts(), Cause::CountedParameter, first);
    let named = at_each(a, unit, lists.symbols(), Cause::AssemblerText, counted);
    let told = in_texts(alloc, a, words, unit.text.toks(), lists.texts(), named)?;
    let begun = at_blocks(a, unit, lists.begins(), told);
    Ok(at_first_calls(a, unit, unit.bound.names(), begun))
}

// The same in any unit, whose tree is read again: none where it is not of GNU C.
fn in_unit(
    alloc: Global,
    functions: &Functions<'_>,
    words: &[&[u8]],
    number: u32,
    first: Option<Offence>,
) -> Result<Option<Offence>, Memory>
    requires start { 1 ≤ number }
    requires end { number ≤ length functions.now.analysis.value.units }
    ensures { IfOk result (λ now. IsAgainstUnit functions.now.analysis.value functions.now.members (map (λ t. t.now) words.now) number first now) }
{
    let a = functions.analysis();
    if a.gnu_begin(number).is_none() {
        return Ok(first);
    }
    let units = functions.units();
    let k = number as usize - 1;
    let unit = &units[k];
    let read = a.unit(alloc, number)?;
    let tree = read.tree(alloc)?;
    let lists = lists_of(alloc, unit.text.toks(), &tree)?;
    in_lists(alloc, a, unit, words, &lists, first)
}

/// In each unit of GNU C: `CountedParameter` at what may count parameters in attributes of a declaration of the functions,
/// `AssemblerText` at their names for the assembler and where texts for it begin that have one of their names, and
/// `DeclarationInArgument` at the `{` of each block inside one of their lists, and at each name there of which the call is the
/// first that declares it.
pub fn at_gnu_units(
    alloc: Global,
    functions: &Functions<'_>,
    first: Option<Offence>,
) -> Result<Option<Offence>, Memory>
    ensures answer { IfOk result (FirstThen functions.now.analysis.value.table
        (gnu_offences functions.now.members functions.now.analysis.value) first) }
{
    let a = functions.analysis();
    let words = spellings(alloc, functions)?;
    let mut now = first;
    for unit in 0..a.units() {
        now = in_unit(alloc, functions, &words, unit + 1, now)?;
    }
    Ok(now)
}
