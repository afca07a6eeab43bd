// All units of a workspace, each by itself.
ghost use Rattle.std.specs.Prelude.{◌≡◌, ◌≤◌, ◌++◌, [], if◌then◌else◌, IfOk, OnOk, is_none, length};
ghost use Rattle.std.specs.Option.{option_map_or};
ghost use Rattle.cs_base.specs.Limits.{most_units};
ghost use Rattle.cs_base.specs.Outside.{ReadsOnly};
ghost use Rattle.unit_checks.specs.Answers.{OverHeld, reads_of};
ghost use Rattle.unit_checks.specs.Checked.{check_text, count_from, finding_line, lines_from, some_refused, unit_count, unit_line};

use crate::check_fault::CheckFault;
use crate::finding_lines::{push_accepted, push_finding};
use crate::findings::Finding;
use crate::unit_check::unit_finding;
use cs_base::{Files, Memory, Unit};
use std::alloc::Global;
use ws_file::Workspace;

/// What a check of a workspace tells, and whether some unit is not accepted.
#[derive(Drop)]
pub struct Checked {
    pub text: Vec<u8>,
    pub refused: bool,
}

// Adds the line of what stands against a unit, if anything does, and gives how many accepted units it is: none or one.
fn push_found(
    text: &mut Vec<u8>,
    unit: &Unit,
    number: u32,
    found: &Option<Finding>,
) -> Result<u32, Memory>
    ensures line { OnOk result (text.new.items ≡ text.old.items ++ option_map_or (finding_line number unit.now.path) found.now []) }
    ensures count { IfOk result (λ count. count ≡ (if is_none found.now then 1 else 0)) }
{
    match found {
        Some(finding) => {
            push_finding(text, number, unit.path().bytes(), finding)?;
            Ok(0)
        }
        None => Ok(1),
    }
}

// The same of a unit that is read.
fn push_unit<F: Files>(
    alloc: Global,
    text: &mut Vec<u8>,
    files: &mut F,
    unit: &Unit,
    number: u32,
) -> Result<u32, CheckFault>
    ensures line { OverHeld (F.told files.old).held (λ source.
        IfOk result (λ _. text.new.items ≡ text.old.items ++ unit_line source number unit.now)) }
    ensures count { OverHeld (F.told files.old).held (λ source. IfOk result (λ count. count ≡ unit_count source number unit.now)) }
    ensures one { IfOk result (λ count. count ≤ 1) }
    ensures faults { ReadsOnly (F.told files.old) (F.told files.new) (reads_of result) }
{
    let found = unit_finding(alloc, files, unit, number)?;
    let count = push_found(text, unit, number, &found)?;
    Ok(count)
}

// Adds the lines of units, from the first one on, and gives how many are accepted.
fn push_units<F: Files>(
    alloc: Global,
    text: &mut Vec<u8>,
    files: &mut F,
    units: &[Unit],
) -> Result<u32, CheckFault>
    requires few { length units.now ≤ most_units }
    ensures lines { OverHeld (F.told files.old).held (λ source.
        IfOk result (λ _. text.new.items ≡ text.old.items ++ lines_from source 1 units.now)) }
    ensures count { OverHeld (F.told files.old).held (λ source. IfOk result (λ count. count ≡ count_from source 1 units.now)) }
    ensures faults { ReadsOnly (F.told files.old) (F.told files.new) (reads_of result) }
{
    let mut accepted: u32 = 0;
    for i in 0..units.len() {
        let count = push_unit(alloc, text, files, &units[i], i as u32 + 1)?;
        accepted += count;
    }
    Ok(accepted)
}

/// Checks each unit of a workspace by itself, in order. Refused: `ReadFault` where a read failed, with its path; `Memory` where
/// memory ran out. Nothing is read behind a refusal; the files hold what they held.
pub fn check<F: Files>(alloc: Global, ws: &Workspace, files: &mut F) -> Result<Checked, CheckFault>
    ensures text { OverHeld (F.told files.old).held (λ source. IfOk result (λ c. c.text.items ≡ check_text source ws.now)) }
    ensures refused { OverHeld (F.told files.old).held (λ source. IfOk result (λ c. c.refused ≡ some_refused source ws.now)) }
    ensures faults { ReadsOnly (F.told files.old) (F.told files.new) (reads_of result) }
{
    let units = ws.units();
    let mut text = Vec::new(alloc);
    let accepted = push_units(alloc, &mut text, files, units)?;
    push_accepted(&mut text, accepted, units.len() as u32)?;
    Ok(Checked {
        text,
        refused: (accepted as usize) < units.len(),
    })
}
