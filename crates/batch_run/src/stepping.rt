// One line of a batch.
ghost use Rattle.std.specs.Prelude.{◌≡◌, false, Err, IfOk, Ok, Some, IfSome};
ghost use Rattle.rename_rules.specs.Renaming.{IsRenaming};
ghost use Rattle.offences.specs.Refusals.{refusal_of};
ghost use Rattle.renamed.specs.Rename.{RenamesOver};
ghost use Rattle.batch_run.specs.Batch.{Plan};
ghost use Rattle.batch_run.specs.Stepping.{IsAnswered, IsReady, Steps};

use crate::batch_line::BatchLine;
use crate::replies::{push_edits, push_refusal};
use crate::standing::Standing;
use cs_base::{Edits, Memory};
use edited_files::TextEdits;
use offences::{PlanFault, Refusal};
use rename_plan::plan_rename;
use std::alloc::Global;
use ws_file::Workspace;

/// A batch behind some of its lines: the analysis of the files as they left them, the edits, the text that tells the lines,
/// and whether one was refused.
#[derive(Drop)]
pub struct Batching {
    pub analysis: Standing,
    pub edits: TextEdits,
    pub text: Vec<u8>,
    pub refused: bool,
}

/// Runs the line. Behind an accepted one the analysis goes on with the files as it leaves them, once a line asks for it.
pub fn run_line(
    alloc: Global,
    ws: &Workspace,
    line: &BatchLine,
    state: Batching,
) -> Result<Batching, Memory>
    requires { IsReady ws.now state }
    ensures { IfOk result (λ now. (plan : Plan) × Steps ws.now line.now plan state now) }
{
    let Batching {
        analysis,
        edits,
        text,
        refused,
    } = state;
    let analysis = analysis.settled(alloc)?;
    let state = Batching {
        analysis,
        edits,
        text,
        refused,
    };
    answer_line(alloc, ws, line, state)
}

// The same, where the analysis has followed the lines before.
fn answer_line(
    alloc: Global,
    ws: &Workspace,
    line: &BatchLine,
    state: Batching,
) -> Result<Batching, Memory>
    requires ready { IsReady ws.now state }
    requires settled { state.analysis.waits ≡ false }
    ensures { IfOk result (λ now. (plan : Plan) × Steps ws.now line.now plan state now) }
{
    match plan_rename(
        alloc,
        state.analysis.analysis(),
        line.path(),
        line.line(),
        line.column(),
        line.name(),
        line.strings(),
    ) {
        Ok(new) => accept_line(alloc, ws, line, &new, state),
        Err(fault) => refuse_line(ws, line, &fault, state),
    }
}

// A line that these edits answer.
fn accept_line(
    alloc: Global,
    ws: &Workspace,
    line: &BatchLine,
    new: &Edits,
    state: Batching,
) -> Result<Batching, Memory>
    requires ready { IsReady ws.now state }
    requires settled { state.analysis.waits ≡ false }
    requires answered { IsAnswered state line.now (Ok new.now) }
    requires renames { RenamesOver state.analysis.value.workspace state.analysis.value line.now.path line.now.line line.now.column
        line.now.name line.now.strings new.now }
    ensures { IfOk result (λ now. (plan : Plan) × Steps ws.now line.now plan state now) }
{
    let Batching {
        analysis: standing,
        edits,
        text,
        refused,
    } = state;
    let mut edits = edits;
    let mut text = text;
    push_edits(alloc, &mut text, new)?;
    edits.put_each(alloc, new)?;
    match standing
        .analysis()
        .part_at(line.path(), line.line(), line.column())
    {
        Some(part) => {
            let standing = standing.followed(alloc, part, line.name())?;
            Ok(Batching {
                analysis: standing,
                edits,
                text,
                refused,
            })
        }
        // The place of an accepted line names a part.
        None => unreachable!(),
    }
}

// A line that no edits answer.
fn refuse_line(
    ws: &Workspace,
    line: &BatchLine,
    fault: &PlanFault,
    state: Batching,
) -> Result<Batching, Memory>
    requires { IfSome (refusal_of fault.now) (λ r. IsAnswered state line.now (Err r)) }
    ensures { IfOk result (λ now. (plan : Plan) × Steps ws.now line.now plan state now) }
{
    match fault {
        PlanFault::Refused(refusal) => tell_refusal(ws, line, refusal, state),
        PlanFault::Memory => Err(Memory),
    }
}

// A line that is refused.
fn tell_refusal(
    ws: &Workspace,
    line: &BatchLine,
    refusal: &Refusal,
    state: Batching,
) -> Result<Batching, Memory>
    requires { IsAnswered state line.now (Err refusal.now) }
    ensures { IfOk result (λ now. (plan : Plan) × Steps ws.now line.now plan state now) }
{
    let mut state = state;
    push_refusal(&mut state.text, refusal)?;
    state.refused = true;
    Ok(state)
}
