// The names of external linkage of each unit (ISO/IEC 9899:1999, 6.2.2).
ghost use Rattle.std.specs.Prelude.{◌≡◌, ◌++◌, IfOk, OnOk};
ghost use Rattle.gnu_bind.specs.Below.c_types.Declarations.{is_linkage};
ghost use Rattle.gnu_bind.specs.Below.c_types.declared.entity.Linkage.TheVariants.{External};
ghost use Rattle.analysis.specs.Links.{external_names_from, is_bound_to, is_external_name, names_at, names_of_unit};

use crate::accepted::UnitParts;
use crate::occurrences::count_of;
use cs_base::{Memory, Text, Tok, Toks, Unit};
use gnu_bind::{Bound, Linkage};
use linkage_join::UnitNames;
use macro_expand::shared;
use std::alloc::Global;

/// Adds the project and the external names of unit `k`, if the workspace has it.
pub(crate) fn push_names(
    alloc: Global,
    all: &mut Vec<UnitNames>,
    units: &[Unit],
    k: usize,
    parts: &UnitParts,
) -> Result<(), Memory>
    ensures { OnOk result (all.new.items ≡ all.old.items ++ names_at units.now k parts.now) }
{
    if k < units.len() {
        all.push(names_of_unit(alloc, &units[k], parts)?)?;
        return Ok(());
    }
    Ok(())
}

fn names_of_unit(alloc: Global, unit: &Unit, parts: &UnitParts) -> Result<UnitNames, Memory>
    ensures { IfOk result (λ names. names ≡ names_of_unit unit.now parts.now) }
{
    let project = Text::new(alloc, unit.project().bytes())?;
    let names = external_names(alloc, parts.bound(), parts.text().toks())?;
    Ok(UnitNames::new(project, Toks::new(names)))
}

// Those of the tokens that are the first to declare an entity of external linkage.
fn external_names(alloc: Global, bound: &Bound, toks: &[Tok]) -> Result<Vec<Tok>, Memory>
    ensures { IfOk result (λ all. all.items ≡ external_names_from bound.now.names 0 toks.now) }
{
    let count = count_of(toks)?;
    let mut all = Vec::new(alloc);
    for k in 0..count {
        if is_external_name(bound, k) {
            all.push(shared(&toks[k as usize])?)?;
        }
    }
    Ok(all)
}

/// Whether a token is the first that declares an entity of external linkage.
pub fn is_external_name(bound: &Bound, k: u32) -> bool
    ensures { result ≡ is_external_name bound.now.names k }
{
    is_own_entity(bound, k) && is_external(bound.linkage(k))
}

// Whether the token is bound to the entity that it is the first to declare.
fn is_own_entity(bound: &Bound, k: u32) -> bool
    ensures { result ≡ is_bound_to bound.now.names k k }
{
    match bound.entity(k) {
        Some(entity) => entity == k,
        None => false,
    }
}

/// Whether a linkage is external.
pub fn is_external(linkage: Linkage) -> bool
    ensures { result ≡ is_linkage linkage External }
{
    match linkage {
        Linkage::External => true,
        _ => false,
    }
}
