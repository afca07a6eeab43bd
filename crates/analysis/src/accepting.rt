// The units of a workspace, preprocessed, read and bound one after another.
ghost use Rattle.std.specs.Prelude.{◌≡◌, ◌≤◌, ◌+◌, IfOk, OnOk, length};
ghost use Rattle.cs_base.specs.Answer.{Gives};
ghost use Rattle.cs_base.specs.Outside.{ReadsOnly};
ghost use Rattle.cs_base.specs.Limits.{most_units};
ghost use Rattle.include_tree.specs.Below.source_files.Files.{Source, Table, nothing_carried};
ghost use Rattle.include_tree.specs.Below.source_files.Tables.{AreFound};
ghost use Rattle.include_tree.specs.Fronts.{AreFronts};
ghost use Rattle.analysis.specs.Answers.{fault_of, reads_of};
ghost use Rattle.analysis.specs.Analysis.{units_and, analysis_of};
ghost use Rattle.analysis.specs.Carrying.{IsFresh, ReadsMore, IsOver};
ghost use Rattle.analysis.specs.Accepting.{passed, passed_with, units_of};
ghost use Rattle.analysis.specs.MadeAgain.{AreTaken, all_units};

use crate::accepted::{Accepted, UnitParts};
use crate::analyse_fault::AnalyseFault;
use crate::preprocessing::next_text;
use crate::taking::Taken;
use crate::unit_fronts::UnitFront;
use crate::unit_reading::read_text;
use cs_base::{Files, Unit};
use include_tree::{Cache, Fronts};
use std::alloc::Global;
use ws_file::Workspace;

/// Preprocesses, reads and binds all units of a workspace in order. What is read for one unit is kept for the
/// next. Refused: `WorkspaceFault` at the first fault, that of the least unit which has one, where
/// preprocessing comes before reading and reading before binding; `ReadFault` where a read failed, with its
/// path; `Memory` where memory ran out. Nothing is read behind a refusal; the files hold what they held. Units that have more
/// tokens than find room are not kept.
pub(crate) fn accept<F: Files>(
    alloc: Global,
    ws: &Workspace,
    files: &mut F,
    room: usize,
) -> Result<Accepted, AnalyseFault>
    ensures workspace { IfOk result (λ a. a.workspace ≡ ws.now) }
    // The units, or the first fault, are so over every source that agrees with what was read; that is kept.
    ensures over { (table : Table) × IfOk result (λ a. a.table ≡ table)
        × IsOver (F.told files.old).held table (λ source. Gives (λ a. a) fault_of result (analysis_of source ws.now)) }
    ensures faults { ReadsOnly (F.told files.old) (F.told files.new) (reads_of result) }
{
    let workspace = match ws.copy(alloc) {
        Ok(workspace) => workspace,
        Err(_) => return Err(AnalyseFault::Memory),
    };
    let mut cache = match Cache::new(alloc) {
        Ok(cache) => cache,
        Err(_) => return Err(AnalyseFault::Memory),
    };
    let mut fronts = Vec::new(alloc);
    match accepted_units(alloc, &mut cache, files, &mut fronts, ws.units(), room) {
        Ok(taken) => Ok(Accepted::new(workspace, taken, fronts, cache)),
        Err(fault) => Err(fault),
    }
}

// The units, from the first one on: those that find room are kept.
fn accepted_units<F: Files>(
    alloc: Global,
    cache: &mut Cache,
    files: &mut F,
    fronts: &mut Vec<UnitFront>,
    units: &[Unit],
    room: usize,
) -> Result<Taken, AnalyseFault>
    requires few { length units.now ≤ most_units }
    requires first { cache.old ≡ nothing_carried }
    ensures taken { IfOk result (λ t. AreTaken cache.new.table units.now t.kept.items t.others t.begins.items t.brought.items) }
    ensures over { IsOver (F.told files.old).held cache.new.table (λ source.
        Gives (λ t. units_and (all_units cache.new.table units.now t.kept.items t.others) cache.new.table) fault_of result (units_of source units.now)) }
    ensures faults { ReadsOnly (F.told files.old) (F.told files.new) (reads_of result) }
{
    let mut taken = Taken::new(alloc, room);
    let mut shared = Fronts::new(alloc);
    for i in 0..units.len() {
        match next_unit(
            alloc,
            cache,
            files,
            &mut shared,
            fronts,
            taken.last(),
            &units[i],
            i as u32 + 1,
        ) {
            Ok(unit) => taken.add(alloc, unit)?,
            Err(fault) => return Err(fault),
        }
    }
    Ok(taken)
}

// A unit, with what is kept from the units before, or its fault. What it begins with as the unit before does is kept in the
// fronts.
fn next_unit<F: Files>(
    alloc: Global,
    cache: &mut Cache,
    files: &mut F,
    shared: &mut Fronts,
    fronts: &mut Vec<UnitFront>,
    before: Option<&UnitParts>,
    unit: &Unit,
    number: u32,
) -> Result<UnitParts, AnalyseFault>
    requires shared { AreFronts cache.old.table shared.old.all.items }
    ensures shared { OnOk result (AreFronts cache.new.table shared.new.all.items) }
    ensures reads { ReadsMore (F.told files.old).held cache.old.table cache.new.table }
    ensures fresh { IsFresh number cache.old.table → OnOk result (IsFresh (number + 1) cache.new.table) }
    ensures answer { IsFresh number cache.old.table → (source : Source) → AreFound source cache.new.table →
        Gives (passed cache.new) fault_of result (passed_with source number unit.now cache.old) }
    ensures faults { ReadsOnly (F.told files.old) (F.told files.new) (reads_of result) }
{
    match next_text(alloc, cache, files, shared, unit, number) {
        Ok(text) => read_text(
            alloc,
            cache,
            fronts,
            before,
            number,
            unit.standard(),
            unit.path().bytes(),
            text,
        ),
        Err(fault) => Err(fault),
    }
}
