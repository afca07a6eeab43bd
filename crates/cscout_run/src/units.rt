// The asks `tokens` and `skipped`: units are preprocessed for them, and not analysed.
ghost use Rattle.std.specs.Prelude.{◌≡◌, ◌≤◌, MatchBool, None, IfSome, length};
ghost use Rattle.analysis.specs.Texts.{unit_at};
ghost use Rattle.cs_base.specs.Outside.{ReadsOnly};
ghost use Rattle.command_words.specs.Request.{skipped_asked, tokens_asked};
ghost use Rattle.cscout_run.specs.Answer.{IsAskAnswer};
ghost use Rattle.cscout_run.specs.Steps.{Answers, reads_of, stop_of};

use crate::preparing::{Ready, to_show};
use crate::stops::{Fault, Stop, Why};
use analysis::{AnalyseFault, one_text, texts};
use cs_base::Files;
use query_report::{print_skipped, print_tokens};
use std::alloc::Global;
use ws_file::Workspace;

/// All of the answer to a report on the tokens of a unit but its output.
pub(crate) fn tokens_over<F: Files>(
    alloc: Global,
    ws: &Workspace,
    unit: u32,
    files: &mut F,
) -> Result<Ready, Stop>
    ensures answer { IfSome (F.told files.old).held (λ fs. Answers (IsAskAnswer fs (tokens_asked unit) ws.now) result) }
    ensures faults { ReadsOnly (F.told files.old) (F.told files.new) (reads_of result) }
{
    if !has_unit(ws, unit) {
        return Err(Stop::Refused(Why::NoUnit));
    }
    match one_text(alloc, ws, files, unit) {
        Ok(text) => Ok(to_show(alloc, print_tokens(alloc, &text)?)),
        Err(fault) => Err(stop_of(fault)),
    }
}

/// All of the answer to a report on skipped groups but its output.
pub(crate) fn skipped_over<F: Files>(
    alloc: Global,
    ws: &Workspace,
    files: &mut F,
) -> Result<Ready, Stop>
    ensures answer { IfSome (F.told files.old).held (λ fs. Answers (IsAskAnswer fs skipped_asked ws.now) result) }
    ensures faults { ReadsOnly (F.told files.old) (F.told files.new) (reads_of result) }
{
    match texts(alloc, ws, files) {
        Ok(all) => Ok(to_show(alloc, print_skipped(alloc, &all)?)),
        Err(fault) => Err(stop_of(fault)),
    }
}

// Whether a unit has the number; units count from 1.
fn has_unit(ws: &Workspace, number: u32) -> bool
    ensures { MatchBool result ((1 ≤ number) × (number ≤ length ws.now.units)) (unit_at ws.now.units number ≡ None) }
{
    1 <= number && number as usize <= ws.units().len()
}

/// Why a workspace has no texts, as an early end of the run.
pub(crate) fn stop_of(fault: AnalyseFault) -> Stop
    ensures { result ≡ stop_of fault }
{
    match fault {
        AnalyseFault::WorkspaceFault { unit, place, cause } => {
            Stop::Workspace(Fault::Unit { unit, place, cause })
        }
        AnalyseFault::ReadFault { path } => Stop::Unread(path),
        AnalyseFault::Memory => Stop::Memory,
    }
}
