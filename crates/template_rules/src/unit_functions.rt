// The functions of a unit that a class names.
ghost use Rattle.std.specs.Borrow.{Bor};
ghost use Rattle.std.specs.Prelude.{◌≡◌, ◌==◌, ◌++◌, ◌<◌, ◌≤◌, ◌∷◌, ◌&&◌, ◌||◌, [], ℕ, Some, false, nat_lt, filter, length, map, slice_get, IfOk, OnOk};
ghost use Rattle.std.specs.List.{list_any};
ghost use Rattle.std.specs.List.Sorted.{IsNonDecreasingBy};
ghost use Rattle.std.specs.Option.{option_map_or};
ghost use Rattle.analysis.specs.Below.scope_bind.Names.{entity_at};
ghost use Rattle.c_types.specs.declared.lists.List.{List as NameList};
ghost use Rattle.template_rules.specs.ListPlaces.{HaveSame, name_number};
ghost use Rattle.template_rules.specs.MacroOffences.{run_of};
ghost use Rattle.template_rules.specs.Functions.{names_function, declares_function, is_list_of, AreFunctionsOf};

use crate::covers::Covers;
use crate::places::origin_of;
use crate::run_list::Runs;
use crate::unit_parameters::UnitParameters;
use analysis::{Bound, Name, UnitText};
use c_types::{Indices, List};
use cs_base::{Memory, Tok};
use offences::Class;
use std::alloc::Global;

// The characters of a file have lower numbers.
const FILE_SIZE: u64 = 1 << 32;

/// A unit of an analysis: its text, and what its identifiers denote; the functions that a class names, each by the first
/// token that declares it; of its tree the parameter lists of declarators, and where those lists end whose names bodies
/// begin with; the lists of declarators and of calls that belong to names of these functions, the same by the places of their
/// names, and by their beginnings; and the items that the unit reached.
#[derive(Drop)]
pub(crate) struct UnitFunctions<'a> {
    pub(crate) class: Class<'a>,
    pub(crate) text: &'a UnitText,
    pub(crate) bound: &'a Bound,
    pub(crate) entities: Indices,
    pub(crate) lists: UnitParameters,
    pub(crate) ends: Vec<u32>,
    pub(crate) found: Vec<&'a List>,
    pub(crate) by_place: Vec<&'a List>,
    pub(crate) covers: Covers<'a>,
    pub(crate) runs: Runs<'a>,
    ghost named: { AreFunctionsOf class.members text.now.toks bound.now.names entities },
    ghost gathered: { map (λ l. l.now) found.items ≡ filter (is_list_of bound.now.names entities) (bound.now.declarators ++ bound.now.calls) },
    ghost moved: { HaveSame found.items by_place.items },
    ghost rising: { IsNonDecreasingBy (λ l. name_number text.now.toks l.now) by_place.items },
    ghost covered: { HaveSame found.items covers.lists.items },
    ghost reached: { runs ≡ text.now.reached },
}

/// The number of the place where the name of a list stands, by which lists are looked for.
pub(crate) fn name_number(toks: &[Tok], list: &List) -> u64
    ensures { result ≡ name_number toks.now list.now }
{
    match origin_of(toks, list.name) {
        Some(p) => p.file as u64 * FILE_SIZE + p.at as u64,
        None => 0,
    }
}

/// How many of these lists, which are in this order, have a lower number.
pub(crate) fn lists_before(toks: &[Tok], lists: &[&List], number: u64) -> usize
    requires { IsNonDecreasingBy (λ l. name_number toks.now l.now) lists.now }
    ensures bound { result ≤ length lists.now }
    ensures lower { (i : ℕ) (l : Bor NameList) → slice_get lists.now i ≡ Some l → i < result → name_number toks.now l.now < number }
    ensures others { (i : ℕ) (l : Bor NameList) → slice_get lists.now i ≡ Some l → result ≤ i → number ≤ name_number toks.now l.now }
{
    lists.partition_point(|list| name_number(toks, list) < number)
}

// Whether a list has a lower number, or this one and a name that was put out for a run before this one.
fn is_before_run(toks: &[Tok], runs: &Runs<'_>, list: &List, number: u64, run: usize) -> bool
    ensures { result ≡ (nat_lt (name_number toks.now list.now) number
        || ((name_number toks.now list.now == number) && nat_lt (run_of runs.now list.now.name) run)) }
{
    let at = name_number(toks, list);
    at < number || (at == number && runs.run_of(list.name) < run)
}

/// How many of these lists do, where they stand in this order.
pub(crate) fn lists_before_run(
    toks: &[Tok],
    runs: &Runs<'_>,
    lists: &[&List],
    number: u64,
    run: usize,
) -> usize
    ensures { result ≤ length lists.now }
{
    lists.partition_point(|list| is_before_run(toks, runs, list, number, run))
}

/// Lists in this order.
pub(crate) fn by_place<'a>(
    alloc: Global,
    toks: &[Tok],
    lists: &[&'a List],
) -> Result<Vec<&'a List>, Memory>
    ensures moved { IfOk result (λ out. HaveSame lists.now out.items) }
    ensures rising { IfOk result (λ out. IsNonDecreasingBy (λ l. name_number toks.now l.now) out.items) }
{
    let mut out = Vec::new(alloc);
    for list in lists {
        out.push(*list)?;
    }
    out.sort_by_key(|list| name_number(toks, list))?;
    Ok(out)
}

/// Whether an entity is one of these.
pub(crate) fn has(entities: &[u32], entity: u32) -> bool
    ensures { result ≡ list_any (λ f. f == entity) entities.now }
{
    entities.iter().any(|other| *other == entity)
}

// Whether token `k` is a name of one of these.
fn is_name_of(bound: &Bound, entities: &[u32], k: u32) -> bool
    ensures { result ≡ option_map_or (λ e. list_any (λ f. f == e) entities.now) (entity_at bound.now.names k) false }
{
    match bound.entity(k) {
        Some(entity) => has(entities, entity),
        None => false,
    }
}

// Adds a list, if it belongs to a name of one.
fn push_list<'a>(
    out: &mut Vec<&'a List>,
    bound: &Bound,
    entities: &[u32],
    list: &'a List,
) -> Result<(), Memory>
    ensures { OnOk result (map (λ l. l.now) out.new.items ≡ map (λ l. l.now) out.old.items
        ++ filter (is_list_of bound.now.names entities.now) (list.now ∷ [])) }
{
    if is_name_of(bound, entities, list.name) {
        out.push(list)?;
    }
    Ok(())
}

/// Adds those of these lists that do.
pub(crate) fn push_named<'a>(
    out: &mut Vec<&'a List>,
    bound: &Bound,
    entities: &[u32],
    all: &'a [List],
) -> Result<(), Memory>
    ensures { OnOk result (map (λ l. l.now) out.new.items ≡ map (λ l. l.now) out.old.items
        ++ filter (is_list_of bound.now.names entities.now) all.now) }
{
    for list in all {
        push_list(out, bound, entities, list)?;
    }
    Ok(())
}

/// Whether token `k` names one of the functions.
pub(crate) fn names_function(unit: &UnitFunctions<'_>, k: u32) -> bool
    ensures { result ≡ names_function unit.now.class.members unit.now.text.now.toks unit.now.bound.now.names k }
{
    is_name_of(unit.bound, unit.entities.as_slice(), k)
}

/// Whether a name is that of a declarator of one of them.
pub(crate) fn declares_function(unit: &UnitFunctions<'_>, name: Name) -> bool
    ensures { result ≡ declares_function unit.now.class.members unit.now.text.now.toks unit.now.bound.now.names name }
{
    name.declares && has(unit.entities.as_slice(), name.entity)
}
