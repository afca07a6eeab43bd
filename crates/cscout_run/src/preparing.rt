// All of a run that may want memory: it puts nothing.
ghost use Rattle.std.specs.Prelude.{◌≡◌, false, IfSome, IfOk, []};
ghost use Rattle.cs_base.specs.Outside.{ReadsOnly};
ghost use Rattle.command_words.specs.Asking.{ask_value, request_value, workspace_file};
ghost use Rattle.cscout_run.specs.Answer.{IsAskAnswer, IsRequestAnswer, IsOverWorkspace, workspace_at};
ghost use Rattle.cscout_run.specs.Steps.{Answers, IsPlanned, IsPlannedFor, PlannedOver, Prepares, reads_of};

use crate::analysing::{edit_over, report_over};
use crate::batches::batch_over;
use crate::checks::check_over;
use crate::generating::prepare_generated;
use crate::stops::Stop;
use crate::trims::trim_over;
use crate::units::{skipped_over, tokens_over};
use crate::workspace_files::read_workspace;
use command_words::{Ask, Request, help, version};
use cs_base::{Edits, Files, Memory};
use std::alloc::Global;
use ws_file::Workspace;

/// What is left to do once nothing can want memory: the edits to put, the text to write, and whether the run is refused then,
/// as a batch with a refused line.
#[derive(Drop)]
pub struct Ready {
    pub edits: Edits,
    pub text: Vec<u8>,
    pub refused: bool,
}

/// All of the answer to a request but its puts and its output.
pub fn prepare<F: Files>(alloc: Global, request: &Request<'_>, files: &mut F) -> Result<Ready, Stop>
    ensures answer { IfSome (F.told files.old).held (λ fs.
        Prepares (workspace_file request.now) (IsRequestAnswer fs (request_value request.now)) result) }
    ensures planned { IfSome (F.told files.old).held (λ fs.
        IfOk result (λ ready. IsPlannedFor (request_value request.now) fs ready.edits)) }
    ensures faults { ReadsOnly (F.told files.old) (F.told files.new) (reads_of result) }
{
    match request {
        Request::Help => Ok(shown(alloc, help())?),
        Request::Version => Ok(shown(alloc, version())?),
        Request::Generated(n) => prepare_generated(alloc, *n),
        Request::Over(ws, ask) => prepare_over(alloc, ws, ask, files),
    }
}

// A text for the output alone.
fn shown(alloc: Global, text: &[u8]) -> Result<Ready, Memory>
    ensures edits { IfOk result (λ ready. ready.edits ≡ []) }
    ensures text { IfOk result (λ ready. ready.text.items ≡ text.now) }
    ensures refused { IfOk result (λ ready. ready.refused ≡ false) }
{
    Ok(to_show(alloc, Vec::from_slice(alloc, text)?))
}

/// A text for the output alone.
pub(crate) fn to_show(alloc: Global, text: Vec<u8>) -> Ready
    ensures edits { result.edits ≡ [] }
    ensures text { result.text ≡ text }
    ensures refused { result.refused ≡ false }
{
    Ready {
        edits: Edits::new(alloc),
        text,
        refused: false,
    }
}

// All of the answer to what is asked over the workspace of a workspace file but its puts and its output.
fn prepare_over<F: Files>(
    alloc: Global,
    path: &str,
    ask: &Ask<'_>,
    files: &mut F,
) -> Result<Ready, Stop>
    ensures answer { IfSome (F.told files.old).held (λ fs.
        Prepares path.now (IsOverWorkspace path.now (IsAskAnswer fs (ask_value ask.now)) (workspace_at path.now fs)) result) }
    ensures planned { IfSome (F.told files.old).held (λ fs.
        IfOk result (λ ready. PlannedOver path.now (ask_value ask.now) fs ready.edits)) }
    ensures faults { ReadsOnly (F.told files.old) (F.told files.new) (reads_of result) }
{
    let ws = read_workspace(alloc, path, files)?;
    over_workspace(alloc, &ws, ask, files)
}

// The same once the workspace file is read. Reports, edits and trims want an analysis.
fn over_workspace<F: Files>(
    alloc: Global,
    ws: &Workspace,
    ask: &Ask<'_>,
    files: &mut F,
) -> Result<Ready, Stop>
    ensures answer { IfSome (F.told files.old).held (λ fs. Answers (IsAskAnswer fs (ask_value ask.now) ws.now) result) }
    ensures planned { IfSome (F.told files.old).held (λ fs.
        IfOk result (λ ready. IsPlanned (ask_value ask.now) ws.now fs ready.edits)) }
    ensures faults { ReadsOnly (F.told files.old) (F.told files.new) (reads_of result) }
{
    match ask {
        Ask::Tokens(unit) => tokens_over(alloc, ws, *unit, files),
        Ask::Skipped => skipped_over(alloc, ws, files),
        Ask::Check => check_over(alloc, ws, files),
        Ask::Report(report) => report_over(alloc, ws, report, files),
        Ask::Edit(edit) => edit_over(alloc, ws, edit, files),
        Ask::Trim(stays) => trim_over(alloc, ws, *stays, files),
        Ask::Batch(file) => batch_over(alloc, ws, file, files),
    }
}
