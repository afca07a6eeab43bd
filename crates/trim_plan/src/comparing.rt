// Whether an analysis is that of the trimmed files.
ghost use Rattle.std.specs.Prelude.{◌≡◌, ◌≤◌, ◌<◌, ◌-◌, true, false, ℕ, Bool, List, Some, None, IfOk, OnOk, IsTrue, length, slice_get};
ghost use Rattle.std.specs.Option.{option_map};
ghost use Rattle.analysis.specs.Analysis.{UnitAnalysis};
ghost use Rattle.analysis.specs.Below.scope_bind.Names.{entity_at, declares_at, kind_at, linkage_at};
ghost use Rattle.analysis.specs.Below.source_files.Files.{absent_at};
ghost use Rattle.trim_plan.specs.Left.{is_gone, place};
ghost use Rattle.trim_plan.specs.Places.{has_path, AreAbsent, AreCompared, AsksNoMore, IsAlike, IsCompared, IsLeftNameAt, IsLeftOf};
ghost use Rattle.trim_plan.specs.Trimmed.{plain, IsLeftEntity, IsLeftName};

use crate::left::Left;
use crate::trees::is_pruned;
use analysis::{Analysis, Bound, UnitAt};
use cs_base::{Memory, Tok};
use indexmap::IndexSet;
use std::alloc::Global;
use trim_rules::Lines;

fn is_same(x: &Tok, y: &Tok) -> bool
    ensures { IsTrue result → plain x.now ≡ plain y.now }
{
    x.kind() == y.kind() && x.text() == y.text()
}

// A token stands at this place.
fn is_tok_at(toks: &[Tok], place: u32, tok: &Tok) -> bool
    ensures { IsTrue result → option_map plain (slice_get toks.now place) ≡ Some (plain tok.now) }
{
    match toks.get(place as usize) {
        Some(other) => is_same(other, tok),
        None => false,
    }
}

// The token at the place of a token is this one.
fn is_tok_of(left: &Left, new: &[Tok], k: u32, tok: &Tok) -> bool
    ensures { IsTrue result → (gone : ℕ → Bool) (count : ℕ) → IsLeftOf gone count left.now
        → option_map plain (slice_get new.now (place gone k)) ≡ Some (plain tok.now) }
{
    match left.place(k) {
        Some(place) => is_tok_at(new, place, tok),
        None => false,
    }
}

// A token that is left is that of its place.
fn is_left_tok(left: &Left, old: &[Tok], new: &[Tok], k: u32) -> bool
    ensures { IsTrue result → (gone : ℕ → Bool) (count : ℕ) → IsLeftOf gone count left.now
        → option_map plain (slice_get new.now (place gone k)) ≡ option_map plain (slice_get old.now k) }
{
    match old.get(k as usize) {
        Some(tok) => is_tok_of(left, new, k, tok),
        None => false,
    }
}

// Two entities are of one kind and one linkage.
fn is_same_entity(old: &Bound, new: &Bound, e: u32, f: u32) -> bool
    ensures kind { IsTrue result → kind_at new.now.names f ≡ kind_at old.now.names e }
    ensures linkage { IsTrue result → linkage_at new.now.names f ≡ linkage_at old.now.names e }
{
    if old.kind(e) != new.kind(f) {
        return false;
    }
    old.linkage(e) == new.linkage(f)
}

// An entity is left, and this is its place.
fn is_left_entity(left: &Left, old: &Bound, new: &Bound, e: u32, f: u32) -> bool
    ensures { IsTrue result → (gone : ℕ → Bool) (count : ℕ) → IsLeftOf gone count left.now
        → (f ≡ place gone e) × IsLeftEntity gone old.now.names new.now.names e }
{
    if left.is_gone(e) {
        return false;
    }
    if !left.is_at(e, f) {
        return false;
    }
    is_same_entity(old, new, e, f)
}

// Tokens declare alike.
fn is_declaring_alike(old: &Bound, new: &Bound, k: u32, place: u32) -> bool
    ensures { IsTrue result → declares_at new.now.names place ≡ declares_at old.now.names k }
{
    old.declares(k) == new.declares(place)
}

// The token at this place denotes the place of an entity.
fn is_denoting(left: &Left, old: &Bound, new: &Bound, at: u32, e: u32) -> bool
    ensures { IsTrue result → (gone : ℕ → Bool) (count : ℕ) → IsLeftOf gone count left.now
        → (entity_at new.now.names at ≡ Some (place gone e)) × IsLeftEntity gone old.now.names new.now.names e }
{
    match new.entity(at) {
        Some(f) => is_left_entity(left, old, new, e, f),
        None => false,
    }
}

// The token at this place denotes nothing.
fn is_denoting_none(new: &Bound, place: u32) -> bool
    ensures { IsTrue result → entity_at new.now.names place ≡ None }
{
    match new.entity(place) {
        Some(_) => false,
        None => true,
    }
}

// Token `k` and the one at this place declare alike, and denote the same.
fn is_left_at(left: &Left, old: &Bound, new: &Bound, k: u32, place: u32) -> bool
    ensures { IsTrue result → (gone : ℕ → Bool) (count : ℕ) → IsLeftOf gone count left.now
        → IsLeftNameAt gone old.now.names new.now.names k place }
{
    if !is_declaring_alike(old, new, k, place) {
        return false;
    }
    match old.entity(k) {
        Some(e) => is_denoting(left, old, new, place, e),
        None => is_denoting_none(new, place),
    }
}

fn is_left_name(left: &Left, old: &Bound, new: &Bound, k: u32) -> bool
    ensures { IsTrue result → (gone : ℕ → Bool) (count : ℕ) → IsLeftOf gone count left.now
        → IsLeftName gone old.now.names new.now.names k }
{
    match left.place(k) {
        Some(place) => is_left_at(left, old, new, k, place),
        None => false,
    }
}

// Token `k` is gone, or stands at its place and denotes what it denoted.
fn is_alike(left: &Left, u: &UnitAt<'_>, v: &UnitAt<'_>, k: u32) -> bool
    ensures { IsTrue result → (gone : ℕ → Bool) (count : ℕ) → IsLeftOf gone count left.now → IsAlike gone u.now v.now k }
{
    if left.is_gone(k) {
        return true;
    }
    let had = u.text();
    let has = v.text();
    let old = had.toks();
    let new = has.toks();
    if !is_left_tok(left, old, new, k) {
        return false;
    }
    let names = u.bound();
    let others = v.bound();
    is_left_name(left, names, others, k)
}

// So is each of so many tokens.
fn are_alike(left: &Left, u: &UnitAt<'_>, v: &UnitAt<'_>, count: u32) -> bool
    ensures { IsTrue result → (gone : ℕ → Bool) (n k : ℕ) → IsLeftOf gone n left.now → k < count → IsAlike gone u.now v.now k }
{
    for k in 0..count {
        if !is_alike(left, u, v, k) {
            return false;
        }
    }
    true
}

// How many tokens there are: `Memory` from 2^32 - 1 on.
fn count_of(toks: &[Tok]) -> Result<u32, Memory>
    ensures { IfOk result (λ count. count ≡ length toks.now) }
{
    if toks.len() >= u32::MAX as usize {
        return Err(Memory);
    }
    Ok(toks.len() as u32)
}

// So many tokens are left of a unit with `count`.
fn are_left(left: &Left, count: u32, toks: &[Tok]) -> bool
    ensures { IsTrue result → slice_get left.now.places.items count ≡ Some (length toks.now) }
{
    match left.place(count) {
        Some(place) => place as usize == toks.len(),
        None => false,
    }
}

// Units count from 1.
fn is_trimmed_unit(
    alloc: Global,
    lines: &Lines,
    a: &Analysis,
    b: &Analysis,
    unit: u32,
) -> Result<bool, Memory>
    requires first { 1 ≤ unit }
    requires last { unit ≤ length a.now.value.units }
    requires there { unit ≤ length b.now.value.units }
    ensures { IfOk result (λ same. IsTrue same → (u v : UnitAnalysis) → slice_get a.now.value.units (unit - 1) ≡ Some u
        → slice_get b.now.value.units (unit - 1) ≡ Some v → IsCompared (is_gone lines.now u.text) u v) }
{
    let first = a.unit(alloc, unit)?;
    let second = b.unit(alloc, unit)?;
    let had = first.text();
    let toks = had.toks();
    let count = count_of(toks)?;
    let left = Left::of(alloc, lines, had, count)?;
    let has = second.text();
    let others = has.toks();
    if !are_left(&left, count, others) {
        return Ok(false);
    }
    if !are_alike(&left, &first, &second, count) {
        return Ok(false);
    }
    let old = first.tree(alloc)?;
    let new = second.tree(alloc)?;
    Ok(is_pruned(&left, &old, &new))
}

// The paths that were asked for and not there. The keys are lent by the analysis.
#[derive(Drop)]
struct Absent<'a> {
    paths: IndexSet<&'a [u8]>,
}

impl<'a> Absent<'a> {
    // One number more.
    fn add(&mut self, a: &'a Analysis, number: u32) -> Result<(), Memory>
        requires { AreAbsent a.now.value.table (has_path self.old.paths) }
        ensures { OnOk result (AreAbsent a.now.value.table (has_path self.new.paths)) }
    {
        let Some(path) = a.absent(number) else {
            return Ok(());
        };
        self.paths.insert(path)?;
        Ok(())
    }

    // No path.
    fn none(alloc: Global) -> Absent<'a>
        ensures { (path : List ℕ) → has_path result.paths path ≡ false }
    {
        Absent {
            paths: IndexSet::new(alloc),
        }
    }

    // Those of an analysis.
    fn of(alloc: Global, a: &'a Analysis) -> Result<Absent<'a>, Memory>
        ensures { IfOk result (λ absent. AreAbsent a.now.value.table (has_path absent.paths)) }
    {
        let mut absent = Absent::none(alloc);
        for number in 0..a.files() {
            absent.add(a, number)?;
        }
        Ok(absent)
    }

    fn has(&self, path: &'a [u8]) -> bool
        ensures { result ≡ has_path self.now.paths path.now }
    {
        self.paths.contains(&path)
    }

    // The path that has a number is one of them, if no file was there.
    fn knows(&self, b: &'a Analysis, number: u32) -> bool
        ensures { IsTrue result → (path : List ℕ) → absent_at b.now.value.table number ≡ Some path → has_path self.now.paths path ≡ true }
    {
        let Some(path) = b.absent(number) else {
            return true;
        };
        self.has(path)
    }

    // So is each that a second analysis asked for.
    fn knows_all(&self, b: &'a Analysis) -> bool
        ensures { IsTrue result → (k : ℕ) (path : List ℕ) → absent_at b.now.value.table k ≡ Some path → has_path self.now.paths path ≡ true }
    {
        for number in 0..b.files() {
            if !self.knows(b, number) {
                return false;
            }
        }
        true
    }
}

// What was asked for and not there the second time was not the first time.
fn asks_no_more(alloc: Global, a: &Analysis, b: &Analysis) -> Result<bool, Memory>
    ensures { IfOk result (λ same. IsTrue same → AsksNoMore a.now.value.table b.now.value.table) }
{
    let absent = Absent::of(alloc, a)?;
    Ok(absent.knows_all(b))
}

// All units are trimmed.
fn are_trimmed(alloc: Global, lines: &Lines, a: &Analysis, b: &Analysis) -> Result<bool, Memory>
    requires { length b.now.value.units ≡ length a.now.value.units }
    ensures { IfOk result (λ same. IsTrue same → (n : ℕ) (u v : UnitAnalysis) → slice_get a.now.value.units n ≡ Some u
        → slice_get b.now.value.units n ≡ Some v → IsCompared (is_gone lines.now u.text) u v) }
{
    for n in 0..a.units() {
        let same = is_trimmed_unit(alloc, lines, a, b, n + 1)?;
        if !same {
            return Ok(false);
        }
    }
    Ok(true)
}

/// Whether the second analysis is that of the files in which these lines are null directives.
pub(crate) fn is_trimmed(
    alloc: Global,
    lines: &Lines,
    a: &Analysis,
    b: &Analysis,
) -> Result<bool, Memory>
    ensures { IfOk result (λ same. IsTrue same → AreCompared lines.now a.now.value b.now.value) }
{
    let count = a.units();
    let others = b.units();
    if count != others {
        return Ok(false);
    }
    let asked = asks_no_more(alloc, a, b)?;
    if !asked {
        return Ok(false);
    }
    let same = are_trimmed(alloc, lines, a, b)?;
    Ok(same)
}
