// Names of the library that functions and objects would get (ISO/IEC 9899:1999, 7.1.3).
ghost use Rattle.std.specs.Prelude.{◌≡◌, [], IfOk, slice_get};
ghost use Rattle.std.specs.List.{flat_map};
ghost use Rattle.std.specs.Option.{option_map_or};
ghost use Rattle.cs_base.specs.declared.causes.Cause.TheVariants as cause;
ghost use Rattle.analysis.specs.Below.c_types.Declarations.{has_linkage};
ghost use Rattle.analysis.specs.Below.scope_bind.Names.{linkage_at};
ghost use Rattle.offences.specs.First.{standing, FirstThen};
ghost use Rattle.rename_rules.specs.LibraryPlaces.{library_place, library_places, linked_place, linked_places};

use crate::library_names::is_library_name;
use crate::member_offences::in_token;
use crate::renamings::Renaming;
use crate::respelling_table::has_library_name;
use crate::spelling::spelled;
use analysis::{Analysis, Bound, Linkage, Name};
use cs_base::{Cause, Memory, Tok};
use offences::Offence;
use std::alloc::Global;

// Whether what is denoted has linkage.
fn is_linked(bound: &Bound, entity: u32) -> bool
    ensures { result ≡ has_linkage (linkage_at bound.now.names entity) }
{
    match bound.linkage(entity) {
        Linkage::External | Linkage::Internal => true,
        Linkage::Absent => false,
    }
}

// `Reserved` in a token that would become a name of the library.
fn at_token(
    alloc: Global,
    a: &Analysis,
    renaming: &Renaming<'_>,
    tok: &Tok,
    first: Option<Offence>,
) -> Result<Option<Offence>, Memory>
    ensures { IfOk result (FirstThen a.now.value.table (standing cause.Reserved
        (library_place renaming.now.class.members renaming.now.name tok.now)) first) }
{
    let class = renaming.class();
    let new = spelled(alloc, class, renaming.name(), tok)?;
    if is_library_name(&new) {
        Ok(in_token(a, class, tok, Cause::Reserved, first))
    } else {
        Ok(first)
    }
}

// The same in token `k`.
fn at_index(
    alloc: Global,
    a: &Analysis,
    renaming: &Renaming<'_>,
    toks: &[Tok],
    k: u32,
    first: Option<Offence>,
) -> Result<Option<Offence>, Memory>
    ensures { IfOk result (FirstThen a.now.value.table (standing cause.Reserved (option_map_or
        (library_place renaming.now.class.members renaming.now.name) (slice_get toks.now k) [])) first) }
{
    if (k as usize) < toks.len() {
        at_token(alloc, a, renaming, &toks[k as usize], first)
    } else {
        Ok(first)
    }
}

// The same in the token of a name, if what it denotes has linkage.
fn at_name(
    alloc: Global,
    a: &Analysis,
    renaming: &Renaming<'_>,
    bound: &Bound,
    toks: &[Tok],
    name: Name,
    first: Option<Offence>,
) -> Result<Option<Offence>, Memory>
    ensures { IfOk result (FirstThen a.now.value.table (standing cause.Reserved
        (linked_place renaming.now.class.members renaming.now.name bound.now.names toks.now name)) first) }
{
    if is_linked(bound, name.entity) {
        at_index(alloc, a, renaming, toks, name.index, first)
    } else {
        Ok(first)
    }
}

// The same in each of these names.
fn at_names(
    alloc: Global,
    a: &Analysis,
    renaming: &Renaming<'_>,
    bound: &Bound,
    toks: &[Tok],
    names: &[Name],
    first: Option<Offence>,
) -> Result<Option<Offence>, Memory>
    ensures { IfOk result (FirstThen a.now.value.table (standing cause.Reserved (flat_map
        (linked_place renaming.now.class.members renaming.now.name bound.now.names toks.now) names.now)) first) }
{
    let mut now = first;
    for name in names {
        now = at_name(alloc, a, renaming, bound, toks, *name, now)?;
    }
    Ok(now)
}

// The same in all units.
fn linked_in_units(
    alloc: Global,
    renaming: &Renaming<'_>,
    first: Option<Offence>,
) -> Result<Option<Offence>, Memory>
    ensures { IfOk result (FirstThen renaming.now.class.analysis.value.table (standing cause.Reserved (flat_map
        (linked_places renaming.now.class.members renaming.now.name) renaming.now.class.analysis.value.units)) first) }
{
    let class = renaming.class();
    let a = class.analysis();
    let mut now = first;
    for unit in 0..a.units() {
        let one = a.unit(alloc, unit + 1)?;
        let bound = one.bound();
        let text = one.text();
        now = at_names(alloc, a, renaming, bound, text.toks(), bound.names(), now)?;
    }
    Ok(now)
}

/// `Reserved`: at each member in the name of something with linkage that would become a name of the library. Units are asked for
/// only where some token would become one.
pub(crate) fn library_names(
    alloc: Global,
    renaming: &Renaming<'_>,
    first: Option<Offence>,
) -> Result<Option<Offence>, Memory>
    ensures { IfOk result (FirstThen renaming.now.class.analysis.value.table (standing cause.Reserved
        (library_places renaming.now.class.analysis.value renaming.now.class.members renaming.now.name)) first) }
{
    if has_library_name(renaming.table()) {
        linked_in_units(alloc, renaming, first)
    } else {
        Ok(first)
    }
}
