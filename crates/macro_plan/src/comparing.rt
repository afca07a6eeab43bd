// The units of the edited files, preprocessed once more, and their tokens beside those of the analysis.
ghost use Rattle.std.specs.Prelude.{◌≡◌, None, IfOk, IsTrue, length, map};
ghost use Rattle.analysis.specs.Below.unit_steps.Texts.{UnitTextValue};
ghost use Rattle.analysis.specs.Analysis.{UnitAnalysis};
ghost use Rattle.macro_plan.specs.Edited.{IsStillAbsent, StaysAbsent, StayAbsent, StayAlike, bytes_for};
ghost use Rattle.macro_plan.specs.Kept.{KeepsTokens, plain, plains};

use crate::edited_sources::{bytes_for, edited_sources};
use analysis::{Analysis, Texts, made_files_are_pseudo, tables_are_found, texts};
use cs_base::{Edits, Kind, Memory, Tok};
use std::alloc::Global;

// Whether two kinds are one.
fn is_kind(kind: Kind, other: Kind) -> bool
    ensures { IsTrue result → kind ≡ other }
{
    kind == other
}

// Whether two tokens are of one kind and one spelling.
fn is_alike(tok: &Tok, other: &Tok) -> bool
    ensures { IsTrue result → plain tok.now ≡ plain other.now }
{
    if !is_kind(tok.kind(), other.kind()) {
        return false;
    }
    tok.text() == other.text()
}

// Whether tokens are so, one by one.
fn are_alike(toks: &[Tok], others: &[Tok]) -> bool
    ensures { IsTrue result → plains toks.now ≡ plains others.now }
{
    if toks.len() != others.len() {
        return false;
    }
    for k in 0..toks.len() {
        if !is_alike(&toks[k], &others[k]) {
            return false;
        }
    }
    true
}

// Whether those of each unit are.
fn units_are_alike(alloc: Global, a: &Analysis, now: &Texts) -> Result<bool, Memory>
    ensures { IfOk result (λ alike. IsTrue alike → map (λ (t : UnitTextValue). plains t.toks) now.now.texts
        ≡ map (λ (u : UnitAnalysis). plains u.text.toks) a.now.value.units) }
{
    if now.units() != a.units() {
        return Ok(false);
    }
    for unit in 0..a.units() {
        let one = a.unit(alloc, unit + 1)?;
        let had = one.text();
        let has = now.text(unit + 1);
        let toks = has.toks();
        let others = had.toks();
        if !are_alike(toks, others) {
            return Ok(false);
        }
    }
    Ok(true)
}

// Whether a path has this number in the analysis as one that was not there, and no edit makes it.
fn is_still_absent(a: &Analysis, edits: &Edits, number: u32, path: &[u8]) -> bool
    ensures { IsTrue result → IsStillAbsent a.now.value.table edits.now number path.now }
{
    match a.absent(number) {
        Some(other) => is_same_absent(edits, path, other),
        None => false,
    }
}

// Whether two paths are one, which no edit makes.
fn is_same_absent(edits: &Edits, path: &[u8], other: &[u8]) -> bool
    ensures { IsTrue result → (other.now ≡ path.now) × (bytes_for path.now edits.now ≡ None) }
{
    if path != other {
        return false;
    }
    bytes_for(edits, path).is_none()
}

// Whether a path that was asked for, and not there, was so in the analysis, and no edit makes it.
fn stays_absent(a: &Analysis, edits: &Edits, now: &Texts, number: u32) -> bool
    ensures { IsTrue result → StaysAbsent a.now.value.table edits.now now.now.table number }
{
    match now.absent(number) {
        Some(path) => is_still_absent(a, edits, number, path),
        None => true,
    }
}

// Whether each is.
fn stay_absent(a: &Analysis, edits: &Edits, now: &Texts) -> bool
    ensures { IsTrue result → StayAbsent a.now.value.table edits.now now.now.table (length now.now.table) }
{
    for number in 0..now.files() {
        if !stays_absent(a, edits, now, number) {
            return false;
        }
    }
    true
}

// Whether what was asked for and not there stays so, and each unit has the tokens that it had.
fn units_stay(alloc: Global, a: &Analysis, edits: &Edits, now: &Texts) -> Result<bool, Memory>
    ensures { IfOk result (λ stay. IsTrue stay → StayAlike a.now.value edits.now now.now) }
{
    if !stay_absent(a, edits, now) {
        return Ok(false);
    }
    let alike = units_are_alike(alloc, a, now)?;
    Ok(alike)
}

/// Whether each unit of the edited files has the tokens that it had. Where a path is asked for that the analysis did not
/// ask for, the answer is that it has not.
pub(crate) fn tokens_stay(alloc: Global, a: &Analysis, edits: &Edits) -> Result<bool, Memory>
    ensures { IfOk result (λ stay. IsTrue stay → KeepsTokens a.now.value.workspace a.now.value edits.now) }
{
    tables_are_found();
    made_files_are_pseudo();
    let mut files = edited_sources(alloc, a, edits)?;
    match texts(alloc, a.workspace(), &mut files) {
        Ok(now) => {
            let stay = units_stay(alloc, a, edits, &now)?;
            Ok(stay)
        }
        Err(_) => Ok(false),
    }
}
