// Asking for paths: each is read once.
ghost use Rattle.std.specs.Prelude.{◌≡◌, ℕ, List, false, None, IfOk, IfErr, IfSome, OnOk};
ghost use Rattle.std.specs.Str.{bytes_eq};
ghost use Rattle.cs_base.specs.Outside.{bytes_at, ReadsOnly};
ghost use Rattle.source_files.specs.Files.{Source, lines_path, found_in, asked};
ghost use Rattle.source_files.specs.Tables.{AreFound, OnlyAsks};
ghost use Rattle.source_files.specs.Slots.{found_of, IsNumbered, IsRead};
ghost use Rattle.source_files.specs.Answers.{fault_of, reads_of, IsAsked, TellsOfRead};

use crate::pre_fault::PreFault;
use crate::shared_table::SharedTable;
use crate::slot::Slot;
use cs_base::{Files, Got, Text};
use std::alloc::Global;

// A failed read of the path.
fn read_fault(alloc: Global, path: &[u8]) -> PreFault
    ensures told { TellsOfRead path.now result }
    ensures no_fault { fault_of result ≡ None }
{
    match Text::new(alloc, path) {
        Ok(path) => PreFault::ReadFault { path },
        Err(_) => PreFault::Memory,
    }
}

// What a path stands for that was not asked for before.
fn read_slot<F: Files>(alloc: Global, files: &mut F, path: &str) -> Result<Slot, PreFault>
    ensures answer { IfSome (F.told files.old).held (λ held. IfOk result (λ slot. found_of slot ≡ found_in (bytes_at path.now held))) }
    ensures numbered { IfOk result (λ slot. (number : ℕ) (name : List ℕ) → IsNumbered number name slot) }
    ensures read { IfOk result (λ slot. IsRead (found_of slot)) }
    ensures no_fault { IfErr result (λ e. fault_of e ≡ None) }
    ensures faults { ReadsOnly (F.told files.old) (F.told files.new) (reads_of result) }
{
    match files.read(alloc, path) {
        Got::Bytes(bytes) => Ok(Slot::Unopened(bytes)),
        Got::Absent => Ok(Slot::Absent),
        Got::Failed => Err(read_fault(alloc, path.as_bytes())),
        Got::Memory => Err(PreFault::Memory),
    }
}

// Asks for a path, unless it was asked for before.
pub(crate) fn ask<F: Files>(
    alloc: Global,
    table: &mut SharedTable,
    files: &mut F,
    path: &str,
) -> Result<(), PreFault>
    requires { bytes_eq path.now lines_path ≡ false }
    ensures answer { (source : Source) → AreFound source table.new → OnOk result (table.new ≡ asked source path.now table.old) }
    ensures asked { IsAsked path.now table.old table.new result }
    ensures only { OnlyAsks (F.told files.old).held table.old table.new }
    ensures faults { ReadsOnly (F.told files.old) (F.told files.new) (reads_of result) }
{
    if table.find(path.as_bytes()).is_some() {
        return Ok(());
    }
    let slot = match read_slot(alloc, files, path) {
        Ok(slot) => slot,
        Err(fault) => return Err(fault),
    };
    match table.push(path.as_bytes(), slot) {
        Ok(()) => Ok(()),
        Err(_) => Err(PreFault::Memory),
    }
}
