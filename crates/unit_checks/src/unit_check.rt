// One unit by itself.
ghost use Rattle.std.specs.Prelude.{◌≡◌, IfOk};
ghost use Rattle.std.specs.Option.{option_map};
ghost use Rattle.cs_base.specs.Outside.{ReadsOnly};
ghost use Rattle.include_tree.specs.Below.source_files.Files.{nothing_carried};
ghost use Rattle.unit_checks.specs.Answers.{OverHeld, reads_of};
ghost use Rattle.unit_checks.specs.Findings.{fault_finding, finding_at, reading_stop, text_of, unit_finding};

use crate::check_fault::CheckFault;
use crate::findings::Finding;
use crate::places::{place_of_index, source_place};
use crate::stops::reading_stop;
use cs_base::{Cause, Files, Memory, Place, Text, Tok, Unit};
use include_tree::{Cache, PreFault, UnitText, preprocess};
use std::alloc::Global;

// The spelling of a token.
fn text_of(alloc: Global, tok: &Tok) -> Result<Text, Memory>
    ensures { IfOk result (λ text. text ≡ text_of tok.now) }
{
    Text::new(alloc, tok.text())
}

// What stands at a token, against the tokens of a unit of this path.
fn finding_at(
    alloc: Global,
    cache: &Cache,
    path: &[u8],
    toks: &[Tok],
    stop: (u32, Cause),
) -> Result<Finding, Memory>
    ensures { IfOk result (λ f. f ≡ finding_at cache.now.table path.now toks.now stop) }
{
    let (index, cause) = stop;
    let place = place_of_index(alloc, cache, path, toks, index)?;
    match toks.get(index as usize) {
        Some(tok) => {
            let token = text_of(alloc, tok)?;
            let from = source_place(alloc, cache, tok)?;
            Ok(Finding {
                place,
                cause,
                token: Some(token),
                from,
            })
        }
        None => Ok(Finding {
            place,
            cause,
            token: None,
            from: None,
        }),
    }
}

// What stands against the text of a unit.
fn text_finding(
    alloc: Global,
    cache: &Cache,
    unit: &Unit,
    text: &UnitText,
) -> Result<Option<Finding>, Memory>
    ensures { IfOk result (λ f. f ≡ option_map (finding_at cache.now.table unit.now.path text.now.toks) (reading_stop unit.now.standard text.now.toks)) }
{
    let toks = text.toks();
    match reading_stop(alloc, toks, unit.standard())? {
        Some(stop) => Ok(Some(finding_at(alloc, cache, unit.path().bytes(), toks, stop)?)),
        None => Ok(None),
    }
}

/// What stands against a unit by itself, if anything does.
pub(crate) fn unit_finding<F: Files>(
    alloc: Global,
    files: &mut F,
    unit: &Unit,
    number: u32,
) -> Result<Option<Finding>, CheckFault>
    ensures answer { OverHeld (F.told files.old).held (λ source. IfOk result (λ f. f ≡ unit_finding source number unit.now)) }
    ensures faults { ReadsOnly (F.told files.old) (F.told files.new) (reads_of result) }
{
    match Cache::new(alloc) {
        Ok(mut cache) => finding_over(alloc, &mut cache, files, unit, number),
        Err(_) => Err(CheckFault::Memory),
    }
}

// The same with a cache that has nothing yet.
fn finding_over<F: Files>(
    alloc: Global,
    cache: &mut Cache,
    files: &mut F,
    unit: &Unit,
    number: u32,
) -> Result<Option<Finding>, CheckFault>
    requires { cache.old ≡ nothing_carried }
    ensures answer { OverHeld (F.told files.old).held (λ source. IfOk result (λ f. f ≡ unit_finding source number unit.now)) }
    ensures faults { ReadsOnly (F.told files.old) (F.told files.new) (reads_of result) }
{
    match preprocess(alloc, cache, files, unit, number) {
        Ok(text) => Ok(text_finding(alloc, cache, unit, &text)?),
        Err(fault) => fault_finding(fault),
    }
}

// What a fault before is against a unit; a failed read and want of memory are none.
fn fault_finding(fault: PreFault) -> Result<Option<Finding>, CheckFault>
    ensures { result ≡ fault_finding fault }
{
    match fault {
        PreFault::Fault { place, cause } => Ok(Some(Finding {
            place,
            cause,
            token: None,
            from: None,
        })),
        PreFault::ReadFault { path } => Err(CheckFault::ReadFault { path }),
        PreFault::Memory => Err(CheckFault::Memory),
    }
}
