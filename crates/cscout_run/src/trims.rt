// Trims: all but their puts and their output.
ghost use Rattle.std.specs.Prelude.{◌≡◌, ◌++◌, IfOk, IfSome, OnOk, map};
ghost use Rattle.cs_base.specs.Outside.{ReadsOnly};
ghost use Rattle.cs_base.specs.Edit.{IsKept};
ghost use Rattle.trim_plan.specs.Kept.{KeepsRestOver};
ghost use Rattle.trim_plan.specs.Stays.{told_lines};
ghost use Rattle.command_words.specs.Request.{trim_asked};
ghost use Rattle.cscout_run.specs.Answer.{IsAskAnswer};
ghost use Rattle.cscout_run.specs.Steps.{Answers, Tells, ready_answer, reads_of};
ghost use Rattle.cscout_run.specs.Trims.{IsTrimAnswer, TrimPlanned, asked_lines};

use crate::analysing::analysis_over;
use crate::preparing::Ready;
use crate::stops::Stop;
use analysis::Analysis;
use command_words::edited_text;
use cs_base::{Files, Memory};
use std::alloc::Global;
use std::mem;
use trim_plan::{Trim, plan_trim, push_stays};
use ws_file::Workspace;

/// All of the answer to a trim but its puts and its output.
pub(crate) fn trim_over<F: Files>(
    alloc: Global,
    ws: &Workspace,
    stays: bool,
    files: &mut F,
) -> Result<Ready, Stop>
    ensures answer { IfSome (F.told files.old).held (λ fs. Answers (IsAskAnswer fs (trim_asked stays) ws.now) result) }
    ensures planned { IfSome (F.told files.old).held (λ fs. IfOk result (λ ready. TrimPlanned ws.now fs ready.edits)) }
    ensures faults { ReadsOnly (F.told files.old) (F.told files.new) (reads_of result) }
{
    let analysis = analysis_over(alloc, ws, files)?;
    let answer = trimmed(alloc, &analysis, stays);
    mem::forget(analysis);
    answer
}

// The edits of a trim, and the text that tells them.
fn trimmed(alloc: Global, a: &Analysis, stays: bool) -> Result<Ready, Stop>
    ensures answer { Tells ready_answer (IsTrimAnswer stays a.now.value) result }
    ensures keeps { IfOk result (λ ready. KeepsRestOver a.now.value ready.edits) }
    ensures sound { IfOk result (λ ready. IsKept ready.edits) }
{
    let trim = plan_trim(alloc, a)?;
    let mut text = edited_text(alloc, &trim.edits)?;
    push_asked(&mut text, a, &trim, stays)?;
    Ok(Ready {
        edits: trim.edits,
        text,
        refused: false,
    })
}

// Adds the lines of the include lines that stay, where they are asked for.
fn push_asked(text: &mut Vec<u8>, a: &Analysis, trim: &Trim, asked: bool) -> Result<(), Memory>
    ensures { OnOk result (text.new.items ≡ text.old.items ++ asked_lines asked (told_lines a.now.value trim.now)) }
{
    if asked {
        push_stays(text, a, trim)
    } else {
        Ok(())
    }
}
