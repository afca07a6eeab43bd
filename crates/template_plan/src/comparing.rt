// Whether an analysis is another one in a new order.
ghost use Rattle.std.specs.Prelude.{◌≡◌, ◌≤◌, ◌<◌, ◌-◌, true, ℕ, List, Some, IfOk, IfSome, IsTrue, length, slice_get};
ghost use Rattle.std.specs.Option.{option_map};
ghost use Rattle.analysis.specs.Analysis.{UnitAnalysis};
ghost use Rattle.analysis.specs.Below.include_tree.PseudoFiles.{is_pseudo};
ghost use Rattle.analysis.specs.Below.scope_bind.declared.bound.Name.{Name};
ghost use Rattle.analysis.specs.Below.scope_bind.Names.{entity_at, declares_at, kind_at, linkage_at};
ghost use Rattle.analysis.specs.Below.source_files.Files.{Table, absent_at};
ghost use Rattle.analysis.specs.Below.source_files.KeptFiles.{kept_at};
ghost use Rattle.template_meaning.specs.Below.reordered.Reordered.{plain};
ghost use Rattle.template_meaning.specs.Compared.{AreAbsent, AreCompared, AreKept, AreNumbered, AreNamed, AreWithin, IsAlikeAt, IsCompared, IsComparedUnit, IsPlaceOf};

use crate::begins::Begins;
use crate::places::{are_places, places_of};
use crate::second::is_pseudo;
use crate::trees::{have_items, turned_tokens};
use analysis::{Analysis, Bound, KeptFile, Name, UnitAt};
use cs_base::{Memory, Tok};
use std::alloc::Global;
use template_rules::{Functions, list_begins};

// Two tokens are of one kind and one spelling.
fn is_same(x: &Tok, y: &Tok) -> bool
    ensures { IsTrue result → plain x.now ≡ plain y.now }
{
    x.kind() == y.kind() && x.text() == y.text()
}

// A token stands at this place.
fn is_tok_at(toks: &[Tok], place: u32, tok: &Tok) -> bool
    ensures { IsTrue result → option_map plain (slice_get toks.now place) ≡ Some (plain tok.now) }
{
    match toks.get(place as usize) {
        Some(other) => is_same(other, tok),
        None => false,
    }
}

// The token at a place is token `k` of the others.
fn is_same_tok(new: &[Tok], at: u32, old: &[Tok], k: u32) -> bool
    ensures { IsTrue result → option_map plain (slice_get new.now at) ≡ option_map plain (slice_get old.now k) }
{
    match old.get(k as usize) {
        Some(tok) => is_tok_at(new, at, tok),
        None => false,
    }
}

// The second is the place of the first, if there is one.
fn is_place_of(places: &[u32], entity: Option<u32>, other: Option<u32>) -> bool
    ensures { IsTrue result → IsPlaceOf places.now entity other }
{
    match entity {
        Some(e) => match other {
            Some(f) => is_place(places, e, f),
            None => false,
        },
        None => match other {
            Some(_) => false,
            None => true,
        },
    }
}

fn is_place(places: &[u32], k: u32, at: u32) -> bool
    ensures { IsTrue result → slice_get places.now k ≡ Some at }
{
    match places.get(k as usize) {
        Some(place) => *place == at,
        None => false,
    }
}

// A name denotes at its place what it denoted.
fn is_name_at(old: &Bound, new: &Bound, places: &[u32], k: u32, at: u32) -> bool
    ensures entity { IsTrue result → IsPlaceOf places.now (entity_at old.now.names k) (entity_at new.now.names at) }
    ensures declares { IsTrue result → declares_at new.now.names at ≡ declares_at old.now.names k }
    ensures kind { IsTrue result → kind_at new.now.names at ≡ kind_at old.now.names k }
    ensures linkage { IsTrue result → linkage_at new.now.names at ≡ linkage_at old.now.names k }
{
    if !is_place_of(places, old.entity(k), new.entity(at)) {
        return false;
    }
    if old.declares(k) != new.declares(at) {
        return false;
    }
    if old.kind(k) != new.kind(at) {
        return false;
    }
    old.linkage(k) == new.linkage(at)
}

// Token `k` is the token at its place, and denotes there what it denoted.
fn is_alike_at(u: &UnitAt<'_>, v: &UnitAt<'_>, places: &[u32], k: u32, at: u32) -> bool
    ensures { IsTrue result → IsAlikeAt u.now v.now places.now k at }
{
    let had = u.text();
    let has = v.text();
    let old = had.toks();
    let new = has.toks();
    if !is_same_tok(new, at, old, k) {
        return false;
    }
    let names = u.bound();
    let others = v.bound();
    is_name_at(names, others, places, k, at)
}

// So it is with a token, if it has a place.
fn is_alike(u: &UnitAt<'_>, v: &UnitAt<'_>, places: &[u32], k: u32) -> bool
    ensures { IsTrue result → (at : ℕ) → slice_get places.now k ≡ Some at → IsAlikeAt u.now v.now places.now k at }
{
    match places.get(k as usize) {
        Some(at) => is_alike_at(u, v, places, k, *at),
        None => false,
    }
}

// So it is with each token that has a place.
fn are_alike(u: &UnitAt<'_>, v: &UnitAt<'_>, places: &[u32]) -> bool
    requires { length places.now ≤ 4294967295 }
    ensures { IsTrue result → (k at : ℕ) → slice_get places.now k ≡ Some at → IsAlikeAt u.now v.now places.now k at }
{
    for k in 0..places.len() as u32 {
        if !is_alike(u, v, places, k) {
            return false;
        }
    }
    true
}

fn is_name_within(count: usize, name: Name) -> bool
    ensures index { IsTrue result → name.index < count }
    ensures entity { IsTrue result → name.entity < count }
{
    (name.index as usize) < count && (name.entity as usize) < count
}

fn is_within(count: usize, names: &[Name], k: usize) -> bool
    ensures { IsTrue result → (n : Name) → slice_get names.now k ≡ Some n → (n.index < count) × (n.entity < count) }
{
    match names.get(k) {
        Some(name) => is_name_within(count, *name),
        None => false,
    }
}

// The names stand among so many tokens.
fn are_within(count: usize, names: &[Name]) -> bool
    ensures { IsTrue result → AreWithin count names.now }
{
    for k in 0..names.len() {
        if !is_within(count, names, k) {
            return false;
        }
    }
    true
}

// A unit is the first in the new order, whose tokens have these numbers.
fn is_compared_by(
    alloc: Global,
    order: &[usize],
    begins: &Begins,
    first: &UnitAt<'_>,
    second: &UnitAt<'_>,
) -> Result<bool, Memory>
    ensures { IfOk result (λ same. IsTrue same
        → (perm : List ℕ) × (places : List ℕ) × IsComparedUnit order.now begins.now perm places first.now second.now) }
{
    let old = first.tree(alloc)?;
    if !have_items(order.len(), begins, &old) {
        return Ok(false);
    }
    let new = second.tree(alloc)?;
    let found = turned_tokens(alloc, order, begins, &old, &new)?;
    let Some(perm) = found else {
        return Ok(false);
    };
    let numbers = perm.as_slice();
    let places = places_of(alloc, numbers, numbers.len())?;
    let all = places.as_slice();
    if all.len() > u32::MAX as usize {
        return Ok(false);
    }
    if !are_places(numbers, all) {
        return Ok(false);
    }
    if !are_alike(first, second, all) {
        return Ok(false);
    }
    Ok(are_named(first, second))
}

// The names of both stand among their tokens, which are as many.
fn are_named(u: &UnitAt<'_>, v: &UnitAt<'_>) -> bool
    ensures { IsTrue result → AreNamed u.now v.now }
{
    let had = u.text();
    let has = v.text();
    let old = had.toks();
    let new = has.toks();
    let count = old.len();
    if new.len() != count {
        return false;
    }
    let names = u.bound();
    let own = names.names();
    let within = are_within(count, own);
    if !within {
        return false;
    }
    let others = v.bound();
    let behind = others.names();
    are_within(count, behind)
}

// A unit is the first in the new order. Units count from 1.
fn is_compared(
    alloc: Global,
    functions: &Functions<'_>,
    order: &[usize],
    b: &Analysis,
    unit: u32,
) -> Result<bool, Memory>
    requires first { 1 ≤ unit }
    requires last { unit ≤ length functions.now.analysis.value.units }
    requires there { unit ≤ length b.now.value.units }
    ensures { IfOk result (λ same. IsTrue same → (u v : UnitAnalysis) → slice_get functions.now.analysis.value.units (unit - 1) ≡ Some u
        → slice_get b.now.value.units (unit - 1) ≡ Some v → IsCompared functions.now.members order.now u v) }
{
    let a = functions.analysis();
    let lists = list_begins(alloc, functions, unit)?;
    let first = a.unit(alloc, unit)?;
    let second = b.unit(alloc, unit)?;
    let count = first.text().toks().len();
    let found = Begins::of(alloc, lists, count)?;
    let Some(begins) = found else {
        return Ok(false);
    };
    let same = is_compared_by(alloc, order, &begins, &first, &second)?;
    Ok(same)
}

// So it is with all units.
fn are_units(
    alloc: Global,
    functions: &Functions<'_>,
    order: &[usize],
    b: &Analysis,
) -> Result<bool, Memory>
    requires { length b.now.value.units ≡ length functions.now.analysis.value.units }
    ensures { IfOk result (λ same. IsTrue same → (n : ℕ) (u v : UnitAnalysis) → slice_get functions.now.analysis.value.units n ≡ Some u
        → slice_get b.now.value.units n ≡ Some v → IsCompared functions.now.members order.now u v) }
{
    for n in 0..b.units() {
        let same = is_compared(alloc, functions, order, b, n + 1)?;
        if !same {
            return Ok(false);
        }
    }
    Ok(true)
}

// Two paths and two texts of pseudo files are one.
fn is_same_file(had: &KeptFile, has: &KeptFile) -> bool
    ensures path { IsTrue result → has.now.path ≡ had.now.path }
    ensures made { IsTrue result → is_pseudo had.now.path ≡ true → has.now.bytes ≡ had.now.bytes }
{
    let path = had.path();
    if has.path() != path {
        return false;
    }
    if !is_pseudo(path) {
        return true;
    }
    let bytes = had.bytes();
    has.bytes() == bytes
}

// The first has a file for the number too, of the same path.
fn is_kept_at(a: &Analysis, number: u32, has: &KeptFile) -> bool
    ensures { IsTrue result → (new : Table) → kept_at new number ≡ Some has.now → AreKept a.now.value.table new number }
{
    match a.file(number) {
        Some(had) => is_same_file(had, has),
        None => false,
    }
}

// .. or no file, and the same path.
fn is_absent_at(a: &Analysis, number: u32, path: &[u8]) -> bool
    ensures { IsTrue result → absent_at a.now.value.table number ≡ Some path.now }
{
    match a.absent(number) {
        Some(other) => other == path,
        None => false,
    }
}

fn is_absent_in(a: &Analysis, b: &Analysis, number: u32) -> bool
    ensures { IsTrue result → AreAbsent a.now.value.table b.now.value.table number }
{
    match b.absent(number) {
        Some(path) => is_absent_at(a, number, path),
        None => false,
    }
}

// A number is that of the pseudo file of lines, or stands for the same in both.
fn are_numbered(a: &Analysis, b: &Analysis, number: u32) -> bool
    ensures { IsTrue result → AreNumbered a.now.value.table b.now.value.table number }
{
    if number == 0 {
        return true;
    }
    match b.file(number) {
        Some(has) => is_kept_at(a, number, has),
        None => is_absent_in(a, b, number),
    }
}

// So it is with each number.
fn are_files(a: &Analysis, b: &Analysis) -> bool
    ensures numbers { IsTrue result → length b.now.value.table ≡ length a.now.value.table }
    ensures files { IsTrue result → (k : ℕ) → k < length a.now.value.table → AreNumbered a.now.value.table b.now.value.table k }
{
    let count = a.files();
    if b.files() != count {
        return false;
    }
    for number in 0..count {
        if !are_numbered(a, b, number) {
            return false;
        }
    }
    true
}

/// Whether an analysis is that of the functions in the new order.
pub(crate) fn are_compared(
    alloc: Global,
    functions: &Functions<'_>,
    order: &[usize],
    b: &Analysis,
) -> Result<bool, Memory>
    ensures { IfOk result (λ same. IsTrue same → AreCompared functions.now.members order.now functions.now.analysis.value b.now.value) }
{
    let a = functions.analysis();
    let count = a.units();
    if b.units() != count {
        return Ok(false);
    }
    if !are_files(a, b) {
        return Ok(false);
    }
    let same = are_units(alloc, functions, order, b)?;
    Ok(same)
}
