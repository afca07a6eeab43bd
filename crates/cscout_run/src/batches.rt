// Batches: all but their puts and their output.
ghost use Rattle.std.specs.Prelude.{◌≡◌, IfOk, IfSome};
ghost use Rattle.cs_base.specs.Outside.{ReadsOnly};
ghost use Rattle.command_words.specs.Request.{batch_asked};
ghost use Rattle.cscout_run.specs.Answer.{IsAskAnswer};
ghost use Rattle.cscout_run.specs.Steps.{Answers, LinesRun, ReadsLines, reads_of};

use crate::preparing::Ready;
use crate::stops::{Stop, Why};
use crate::units::stop_of;
use batch_run::{BatchLine, BatchRefusal, Batched, read_batch, run_batch};
use cs_base::{Files, Got, Text};
use std::alloc::Global;
use ws_file::Workspace;

/// All of the answer to a batch but its puts and its output.
pub(crate) fn batch_over<F: Files>(
    alloc: Global,
    ws: &Workspace,
    file: &str,
    files: &mut F,
) -> Result<Ready, Stop>
    ensures answer { IfSome (F.told files.old).held (λ fs. Answers (IsAskAnswer fs (batch_asked file.now) ws.now) result) }
    ensures planned { IfSome (F.told files.old).held (λ fs. IfOk result (λ ready. LinesRun file.now ws.now fs ready.edits)) }
    ensures faults { ReadsOnly (F.told files.old) (F.told files.new) (reads_of result) }
{
    let lines = read_lines(alloc, file, files)?;
    match run_batch(alloc, ws, lines.as_slice(), files) {
        Ok(batched) => Ok(to_put(batched)),
        Err(fault) => Err(stop_of(fault)),
    }
}

// What a batch leaves to be done.
fn to_put(batched: Batched) -> Ready
    ensures edits { result.edits ≡ batched.edits }
    ensures text { result.text ≡ batched.text }
    ensures refused { result.refused ≡ batched.refused }
{
    let Batched {
        edits,
        text,
        refused,
    } = batched;
    Ready {
        edits,
        text,
        refused,
    }
}

// The lines of the batch file.
fn read_lines<F: Files>(alloc: Global, file: &str, files: &mut F) -> Result<Vec<BatchLine>, Stop>
    ensures answer { IfSome (F.told files.old).held (λ fs. ReadsLines (λ lines. lines.items) file.now fs result) }
    ensures faults { ReadsOnly (F.told files.old) (F.told files.new) (reads_of result) }
{
    match files.read(alloc, file) {
        Got::Bytes(bytes) => match read_batch(alloc, bytes.as_slice()) {
            Ok(lines) => Ok(lines),
            Err(BatchRefusal::BadLine { line }) => Err(Stop::Refused(Why::BadBatch(line))),
            Err(BatchRefusal::Memory) => Err(Stop::Memory),
        },
        Got::Absent => Err(Stop::Refused(Why::BadBatch(0))),
        Got::Failed => Err(Stop::Unread(Text::new(alloc, file.as_bytes())?)),
        Got::Memory => Err(Stop::Memory),
    }
}
