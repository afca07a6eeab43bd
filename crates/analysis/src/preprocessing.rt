// The units of a workspace, preprocessed one after another.
ghost use Rattle.std.specs.Prelude.{◌≡◌, ◌≤◌, ◌+◌, ◌++◌, ◌∷◌, [], IfOk, IfSome, OnOk, length};
ghost use Rattle.cs_base.specs.Answer.{Gives, result_map_err};
ghost use Rattle.cs_base.specs.Outside.{ReadsOnly};
ghost use Rattle.cs_base.specs.Limits.{most_units};
ghost use Rattle.include_tree.specs.Below.source_files.Files.{Source, Table, source_of, nothing_carried};
ghost use Rattle.include_tree.specs.Below.source_files.Tables.{AreFound};
ghost use Rattle.include_tree.specs.Fronts.{AreFronts};
ghost use Rattle.include_tree.specs.Preprocessed.{with_text};
ghost use Rattle.analysis.specs.Texts.{texts_and, unit_with, texts_of, one_text_of};
ghost use Rattle.analysis.specs.Answers.{fault_of, reads_of};
ghost use Rattle.analysis.specs.Carrying.{IsFresh, ReadsMore, IsOver, in_unit};

use crate::all_texts::Texts;
use crate::analyse_fault::AnalyseFault;
use cs_base::{Files, Memory, Unit};
use include_tree::{Cache, Fronts, PreFault, UnitText, preprocess_on};
use std::alloc::Global;
use ws_file::Workspace;

/// Preprocesses all units of a workspace in order. What is read for one unit is kept for the next, so each
/// path is read at most once. Refused: `WorkspaceFault` at the first fault, that of the least unit which has
/// one; `ReadFault` where a read failed, with its path; `Memory` where memory ran out. Nothing is read behind
/// a refusal and no text is handed back; the files hold what they held.
pub fn texts<F: Files>(alloc: Global, ws: &Workspace, files: &mut F) -> Result<Texts, AnalyseFault>
    ensures units { IfOk result (λ t. length t.texts ≡ length ws.now.units) }
    // The texts, or the first fault in order of units, are so over every source that agrees with what was read;
    // behind texts that is what they keep.
    ensures over { (table : Table) × IfOk result (λ t. t.table ≡ table)
        × IsOver (F.told files.old).held table (λ source. Gives (λ t. t) fault_of result (texts_of source ws.now.units)) }
    // So it is over what the files hold, where that is told.
    ensures answer { IfSome (F.told files.old).held (λ held. Gives (λ t. t) fault_of result (texts_of (source_of held) ws.now.units)) }
    ensures faults { ReadsOnly (F.told files.old) (F.told files.new) (reads_of result) }
{
    match Cache::new(alloc) {
        Ok(cache) => texts_over(alloc, cache, files, ws.units()),
        Err(_) => Err(AnalyseFault::Memory),
    }
}

// The texts of these units, where nothing is read yet.
fn texts_over<F: Files>(
    alloc: Global,
    mut cache: Cache,
    files: &mut F,
    units: &[Unit],
) -> Result<Texts, AnalyseFault>
    requires few { length units.now ≤ most_units }
    requires first { cache ≡ nothing_carried }
    ensures units { IfOk result (λ t. length t.texts ≡ length units.now) }
    ensures over { (table : Table) × IfOk result (λ t. t.table ≡ table)
        × IsOver (F.told files.old).held table (λ source. Gives (λ t. t) fault_of result (texts_of source units.now)) }
    ensures faults { ReadsOnly (F.told files.old) (F.told files.new) (reads_of result) }
{
    match unit_texts(alloc, &mut cache, files, units) {
        Ok(all) => Ok(Texts::new(all, cache)),
        Err(fault) => Err(fault),
    }
}

/// Preprocesses one unit of a workspace by itself, with nothing of the units before; units count from 1.
/// Refused as `texts` is, but for the faults of other units.
pub fn one_text<F: Files>(
    alloc: Global,
    ws: &Workspace,
    files: &mut F,
    number: u32,
) -> Result<UnitText, AnalyseFault>
    requires first { 1 ≤ number }
    requires last { number ≤ length ws.now.units }
    // The text, or the fault, is so over every source that agrees with what was read.
    ensures over { (table : Table) × IsOver (F.told files.old).held table (λ source.
        IfSome (one_text_of source ws.now.units number) (λ expected. Gives (λ t. t) fault_of result expected)) }
    // So it is over what the files hold, where that is told.
    ensures answer { IfSome (F.told files.old).held (λ held. IfSome (one_text_of (source_of held) ws.now.units number) (λ expected. Gives (λ t. t) fault_of result expected)) }
    ensures faults { ReadsOnly (F.told files.old) (F.told files.new) (reads_of result) }
{
    let mut cache = match Cache::new(alloc) {
        Ok(cache) => cache,
        Err(_) => return Err(AnalyseFault::Memory),
    };
    let mut fronts = Fronts::new(alloc);
    let units = ws.units();
    next_text(
        alloc,
        &mut cache,
        files,
        &mut fronts,
        &units[number as usize - 1],
        number,
    )
}

// The texts of the units, from the first one on.
fn unit_texts<F: Files>(
    alloc: Global,
    cache: &mut Cache,
    files: &mut F,
    units: &[Unit],
) -> Result<Vec<UnitText>, AnalyseFault>
    requires few { length units.now ≤ most_units }
    requires first { cache.old ≡ nothing_carried }
    ensures each { IfOk result (λ all. length all.items ≡ length units.now) }
    ensures over { IsOver (F.told files.old).held cache.new.table (λ source. Gives (λ all. texts_and all.items cache.new.table) fault_of result (texts_of source units.now)) }
    ensures faults { ReadsOnly (F.told files.old) (F.told files.new) (reads_of result) }
{
    let mut all = Vec::new(alloc);
    let mut fronts = Fronts::new(alloc);
    for i in 0..units.len() {
        match next_text(alloc, cache, files, &mut fronts, &units[i], i as u32 + 1) {
            Ok(text) => add(&mut all, text)?,
            Err(fault) => return Err(fault),
        }
    }
    Ok(all)
}

fn add(all: &mut Vec<UnitText>, text: UnitText) -> Result<(), Memory>
    ensures { OnOk result (all.new.items ≡ all.old.items ++ text ∷ []) }
{
    all.push(text)?;
    Ok(())
}

// The text of a unit, with what is kept from the units before, or its fault. What it begins with as units before did is kept in
// the fronts.
pub(crate) fn next_text<F: Files>(
    alloc: Global,
    cache: &mut Cache,
    files: &mut F,
    fronts: &mut Fronts,
    unit: &Unit,
    number: u32,
) -> Result<UnitText, AnalyseFault>
    requires fronts { AreFronts cache.old.table fronts.old.all.items }
    ensures fronts { OnOk result (AreFronts cache.new.table fronts.new.all.items) }
    ensures reads { ReadsMore (F.told files.old).held cache.old.table cache.new.table }
    ensures fresh { IsFresh number cache.old.table → OnOk result (IsFresh (number + 1) cache.new.table) }
    ensures answer { IsFresh number cache.old.table → (source : Source) → AreFound source cache.new.table →
        Gives (with_text cache.new) fault_of result (unit_with source number unit.now cache.old) }
    ensures faults { ReadsOnly (F.told files.old) (F.told files.new) (reads_of result) }
{
    let _path = unit.path();
    let answered = preprocess_on(alloc, cache, files, fronts, unit, number);
    let _numbers = cache.numbers();
    in_its_unit(number, answered)
}

// The answer of a unit, its refusal with the number of the unit.
fn in_its_unit(unit: u32, answered: Result<UnitText, PreFault>) -> Result<UnitText, AnalyseFault>
    ensures { result ≡ result_map_err (in_unit unit) answered }
{
    match answered {
        Ok(text) => Ok(text),
        Err(PreFault::Fault { place, cause }) => Err(AnalyseFault::WorkspaceFault {
            unit,
            place,
            cause,
        }),
        Err(PreFault::ReadFault { path }) => Err(AnalyseFault::ReadFault { path }),
        Err(PreFault::Memory) => Err(AnalyseFault::Memory),
    }
}
