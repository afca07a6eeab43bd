// Uses of a parameter's name in another parameter (ISO/IEC 9899:1999, 6.7.5.3).
ghost use Rattle.std.specs.Prelude.{◌≡◌, ◌+◌, ◌-◌, ◌≤◌, ◌==◌, ◌&&◌, length, slice_index_or};
ghost use Rattle.std.specs.List.{flat_map, list_any, remove};
ghost use Rattle.cs_base.specs.declared.causes.Cause.TheVariants as cause;
ghost use Rattle.c_types.specs.Declarations.{spelling_at, is_in};
ghost use Rattle.list_cuts.specs.Cuts.{numbers};
ghost use Rattle.offences.specs.First.{standing, FirstThen};
ghost use Rattle.template_rules.specs.Lists.{separators};
ghost use Rattle.template_rules.specs.ScopeOffences.{is_ordinary, uses_ordinary, is_used_at, is_use, is_spelled_as, dependence_place, dependence_between, dependence_in, dependence_places};

use crate::places::at_token;
use crate::unit_parameters::UnitParameters;
use analysis::{Analysis, Name};
use c_types::{EntityKind, List};
use cs_base::{Cause, Tok};
use offences::Offence;

fn is_ordinary(kind: EntityKind) -> bool
    ensures { result ≡ is_ordinary kind }
{
    match kind {
        EntityKind::Tag | EntityKind::Member | EntityKind::Label => false,
        _ => true,
    }
}

fn uses_ordinary(name: Name) -> bool
    ensures { result ≡ uses_ordinary name }
{
    !name.declares && is_ordinary(name.kind)
}

fn is_in(indices: &[u32], k: u32) -> bool
    ensures { result ≡ is_in indices.now k }
{
    indices.iter().any(|other| *other == k)
}

fn is_used_at(k: u32, name: Name) -> bool
    ensures { result ≡ is_used_at k name }
{
    name.index == k && uses_ordinary(name)
}

fn is_used(names: &[Name], k: u32) -> bool
    ensures { result ≡ list_any (is_used_at k) names.now }
{
    names.iter().any(|name| is_used_at(k, *name))
}

// Whether token `k` uses an ordinary identifier, or is a bare name.
fn is_use(names: &[Name], bare: &[u32], k: u32) -> bool
    ensures { result ≡ is_use names.now bare.now k }
{
    is_used(names, k) || is_in(bare, k)
}

/// How token `k` is spelled; empty past the last one.
pub(crate) fn spelling_at(toks: &[Tok], k: u32) -> &[u8]
    ensures { result.now ≡ spelling_at toks.now k }
{
    if (k as usize) < toks.len() {
        toks[k as usize].text()
    } else {
        b""
    }
}

fn is_spelled_as(toks: &[Tok], k: u32, name: Option<u32>) -> bool
    ensures { result ≡ is_spelled_as toks.now k name }
{
    match name {
        Some(j) => spelling_at(toks, j) == spelling_at(toks, k),
        None => false,
    }
}

fn is_spelled_as_one(toks: &[Tok], k: u32, names: &[Option<u32>]) -> bool
    ensures { result ≡ list_any (is_spelled_as toks.now k) names.now }
{
    names.iter().any(|name| is_spelled_as(toks, k, *name))
}

// Whether a token is spelled as one of the parameters, this one not among them.
fn is_spelled_as_other(toks: &[Tok], k: u32, names: &[Option<u32>], item: usize) -> bool
    ensures { result ≡ list_any (is_spelled_as toks.now k) (remove names.now item) }
{
    if item < names.len() {
        is_spelled_as_one(toks, k, &names[..item]) || is_spelled_as_one(toks, k, &names[item + 1..])
    } else {
        is_spelled_as_one(toks, k, names)
    }
}

// `ParameterDependence` at token `k` of an item.
fn dependence_at(
    a: &Analysis,
    toks: &[Tok],
    names: &[Name],
    bare: &[u32],
    all: &[Option<u32>],
    item: usize,
    k: u32,
    first: Option<Offence>,
) -> Option<Offence>
    ensures { FirstThen a.now.value.table (standing cause.ParameterDependence (dependence_place toks.now names.now bare.now (remove all.now item) k)) first result }
{
    if is_spelled_as_other(toks, k, all, item) && is_use(names, bare, k) {
        at_token(a, toks, k, Cause::ParameterDependence, first)
    } else {
        first
    }
}

// The same in an item, behind a separator and before the next.
fn dependences_between(
    a: &Analysis,
    toks: &[Tok],
    names: &[Name],
    bare: &[u32],
    all: &[Option<u32>],
    item: usize,
    begin: u32,
    close: u32,
    first: Option<Offence>,
) -> Option<Offence>
    ensures { FirstThen a.now.value.table (standing cause.ParameterDependence (dependence_between toks.now names.now bare.now (remove all.now item) begin close)) first result }
{
    if begin >= close {
        return first;
    }
    let mut now = first;
    for k in begin + 1..close {
        now = dependence_at(a, toks, names, bare, all, item, k, now);
    }
    now
}

// Separator number `k` of a list.
fn separator_at(list: &List, k: usize) -> u32
    ensures { result ≡ slice_index_or (separators list.now) k 0 }
{
    let commas = list.commas.as_slice();
    if k == 0 {
        list.begin
    } else if k - 1 < commas.len() {
        commas[k - 1]
    } else if k - 1 == commas.len() {
        list.close
    } else {
        0
    }
}

// The one behind it, if it is not the last.
fn separator_behind(list: &List, k: usize) -> u32
    requires { k ≤ length list.now.commas }
    ensures { result ≡ slice_index_or (separators list.now) (k + 1) 0 }
{
    let commas = list.commas.as_slice();
    if k < commas.len() {
        commas[k]
    } else {
        list.close
    }
}

// The same in item number `item` of a list.
fn dependences_in(
    a: &Analysis,
    toks: &[Tok],
    names: &[Name],
    bare: &[u32],
    all: &[Option<u32>],
    list: &List,
    item: usize,
    first: Option<Offence>,
) -> Option<Offence>
    requires { item ≤ length list.now.commas }
    ensures { FirstThen a.now.value.table (standing cause.ParameterDependence (dependence_in toks.now names.now bare.now all.now (separators list.now) item)) first result }
{
    let begin = separator_at(list, item);
    let close = separator_behind(list, item);
    dependences_between(a, toks, names, bare, all, item, begin, close, first)
}

// The same in all its items.
fn dependences_of(
    a: &Analysis,
    toks: &[Tok],
    names: &[Name],
    bare: &[u32],
    all: &[Option<u32>],
    list: &List,
    first: Option<Offence>,
) -> Option<Offence>
    ensures { FirstThen a.now.value.table (standing cause.ParameterDependence (flat_map (dependence_in toks.now names.now bare.now all.now (separators list.now)) (numbers 0 (length list.now.commas + 1)))) first result }
{
    let mut now = first;
    let count = list.commas.as_slice().len() + 1;
    for item in 0..count {
        now = dependences_in(a, toks, names, bare, all, list, item, now);
    }
    now
}

/// `ParameterDependence` at the parameter list of a declarator.
pub(crate) fn dependences_at(
    a: &Analysis,
    toks: &[Tok],
    names: &[Name],
    bare: &[u32],
    lists: &UnitParameters,
    list: &List,
    first: Option<Offence>,
) -> Option<Offence>
    ensures { FirstThen a.now.value.table (standing cause.ParameterDependence (dependence_places toks.now names.now bare.now lists.now list.now)) first result }
{
    match lists.of_name(list.name) {
        Some(parameters) => {
            dependences_of(
                a,
                toks,
                names,
                bare,
                parameters.names.as_slice(),
                list,
                first,
            )
        }
        None => first,
    }
}
