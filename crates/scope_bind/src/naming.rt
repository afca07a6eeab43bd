// The names of a unit and the parameter lists of its functions, from what is known at its end.
ghost use Rattle.std.specs.Prelude.{◌≡◌, map, filter, is_some, IfOk};
ghost use Rattle.std.specs.Option.{option_map, option_map_or};
ghost use Rattle.c_types.specs.declared.entity.EntityKind.TheVariants.{Object as AnObject};
ghost use Rattle.c_types.specs.declared.entity.Linkage.TheVariants.{Absent as NoLinkage};
ghost use Rattle.scope_bind.specs.Names.{name_at};
ghost use Rattle.scope_bind.specs.Bound.{names_of, is_of_function, is_function_name};
ghost use Rattle.scope_bind.specs.Told.{told_name, name_with, name_by};

use crate::bound::Name;
use crate::facts::Facts;
use crate::name_table::NameTable;
use c_types::{Declaration, EntityKind, Linkage, List, Occurrence};
use cs_base::Memory;
use std::alloc::Global;

fn told_name(d: &Declaration) -> Name
    ensures { result ≡ told_name d.now }
{
    Name {
        index: d.name_at,
        entity: d.entity,
        declares: true,
        kind: d.kind,
        linkage: d.linkage,
    }
}

fn told_names(alloc: Global, declared: &[Declaration]) -> Result<Vec<Name>, Memory>
    ensures { IfOk result (λ v. v.items ≡ map told_name declared.now) }
{
    Ok(declared.iter().map(|d| told_name(d)).collect(alloc)?)
}

// The declarations, each of which is found by its name.
fn table_of(alloc: Global, count: usize, declared: &[Declaration]) -> Result<NameTable, Memory>
    ensures { IfOk result (λ t. t ≡ map told_name declared.now) }
{
    let names = told_names(alloc, declared)?;
    let table = NameTable::new(alloc, count, names)?;
    Ok(table)
}

fn kind_or(n: Option<&Name>) -> EntityKind
    ensures { result ≡ option_map_or (λ n. n.kind) (option_map (λ n. n.now) n.entry) AnObject }
{
    match n {
        Some(name) => name.kind,
        None => EntityKind::Object,
    }
}

fn linkage_or(n: Option<&Name>) -> Linkage
    ensures { result ≡ option_map_or (λ n. n.linkage) (option_map (λ n. n.now) n.entry) NoLinkage }
{
    match n {
        Some(name) => name.linkage,
        None => Linkage::Absent,
    }
}

// The name of an occurrence, given the first name of its entity.
fn name_with(o: Occurrence, first: Option<&Name>) -> Name
    ensures { result ≡ name_with o (option_map (λ n. n.now) first.entry) }
{
    Name {
        index: o.index,
        entity: o.entity,
        declares: o.declares,
        kind: kind_or(first),
        linkage: linkage_or(first),
    }
}

fn name_by(table: &NameTable, o: Occurrence) -> Name
    ensures { result ≡ name_by table.now o }
{
    name_with(o, table.at(o.entity))
}

fn names_by(
    alloc: Global,
    table: &NameTable,
    occurrences: &[Occurrence],
) -> Result<Vec<Name>, Memory>
    ensures { IfOk result (λ v. v.items ≡ map (name_by table.now) occurrences.now) }
{
    Ok(
        occurrences
            .iter()
            .map(|o| name_by(table, *o))
            .collect(alloc)?,
    )
}

/// The names, in a text of so many tokens.
pub(crate) fn names_of(alloc: Global, count: usize, facts: &Facts<'_>) -> Result<Vec<Name>, Memory>
    ensures { IfOk result (λ v. v.items ≡ names_of facts.now.facts) }
{
    let table = table_of(alloc, count, facts.declared())?;
    names_by(alloc, &table, facts.occurrences())
}

fn is_function(n: &Name) -> bool
    ensures { result ≡ is_function_name n.now.kind }
{
    matches!(n.kind, EntityKind::Function)
}

fn function_names(alloc: Global, names: &[Name]) -> Result<Vec<Name>, Memory>
    ensures { IfOk result (λ v. v.items ≡ filter (λ n. is_function_name n.kind) names.now) }
{
    Ok(
        names
            .iter()
            .filter(|n| is_function(*n))
            .copied()
            .collect(alloc)?,
    )
}

fn is_among(functions: &NameTable, k: u32) -> bool
    ensures { result ≡ is_some (name_at functions.now k) }
{
    functions.at(k).is_some()
}

fn lists_of(alloc: Global, functions: &NameTable, lists: Vec<List>) -> Result<Vec<List>, Memory>
    ensures { IfOk result (λ v. v.items ≡ filter (λ l. is_some (name_at functions.now l.name)) lists.items) }
{
    Ok(
        lists
            .into_iter()
            .filter(|l| is_among(functions, l.name))
            .collect(alloc)?,
    )
}

/// Those of the parameter lists that are of functions, in a text of so many tokens.
pub(crate) fn declarators_of(
    alloc: Global,
    count: usize,
    names: &[Name],
    lists: Vec<List>,
) -> Result<Vec<List>, Memory>
    ensures { IfOk result (λ v. v.items ≡ filter (λ l. is_of_function names.now l.name) lists.items) }
{
    let functions = function_names(alloc, names)?;
    let table = NameTable::new(alloc, count, functions)?;
    lists_of(alloc, &table, lists)
}
