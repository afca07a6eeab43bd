// Reports and edits: what is asked over the analysis of a workspace.
ghost use Rattle.std.specs.Prelude.{IfOk, IfSome};
ghost use Rattle.cs_base.specs.Outside.{ReadsOnly};
ghost use Rattle.cs_base.specs.Edit.{IsKept};
ghost use Rattle.command_words.specs.Asking.{edit_value, report_value};
ghost use Rattle.command_words.specs.Request.{edit_asked, report_asked};
ghost use Rattle.cscout_run.specs.Answer.{IsAskAnswer};
ghost use Rattle.cscout_run.specs.Asks.{IsEditAnswer, IsReportAnswer, KeepsOver};
ghost use Rattle.cscout_run.specs.Steps.{Analyses, Answers, Planned, Tells, ready_answer, reads_of};

use crate::edits::edits_of;
use crate::leaving::push_left;
use crate::preparing::{Ready, to_show};
use crate::reports::report_of;
use crate::stops::Stop;
use crate::units::stop_of;
use analysis::{Analysis, analyse};
use command_words::{Edit, Report, edited_text};
use cs_base::Files;
use std::alloc::Global;
use std::mem;
use ws_file::Workspace;

/// All of the answer to a report but its output.
pub(crate) fn report_over<F: Files>(
    alloc: Global,
    ws: &Workspace,
    report: &Report<'_>,
    files: &mut F,
) -> Result<Ready, Stop>
    ensures answer { IfSome (F.told files.old).held (λ fs.
        Answers (IsAskAnswer fs (report_asked (report_value report.now)) ws.now) result) }
    ensures faults { ReadsOnly (F.told files.old) (F.told files.new) (reads_of result) }
{
    let analysis = analysis_over(alloc, ws, files)?;
    let answer = told(alloc, &analysis, report);
    mem::forget(analysis);
    answer
}

/// All of the answer to an edit but its puts and its output.
pub(crate) fn edit_over<F: Files>(
    alloc: Global,
    ws: &Workspace,
    edit: &Edit<'_>,
    files: &mut F,
) -> Result<Ready, Stop>
    ensures answer { IfSome (F.told files.old).held (λ fs.
        Answers (IsAskAnswer fs (edit_asked (edit_value edit.now)) ws.now) result) }
    ensures planned { IfSome (F.told files.old).held (λ fs.
        IfOk result (λ ready. Planned (edit_value edit.now) ws.now fs ready.edits)) }
    ensures faults { ReadsOnly (F.told files.old) (F.told files.new) (reads_of result) }
{
    let analysis = analysis_over(alloc, ws, files)?;
    let answer = edited(alloc, &analysis, edit);
    mem::forget(analysis);
    answer
}

/// The analysis of the workspace.
pub(crate) fn analysis_over<F: Files>(
    alloc: Global,
    ws: &Workspace,
    files: &mut F,
) -> Result<Analysis, Stop>
    ensures answer { IfSome (F.told files.old).held (λ fs. Analyses (λ a. a.value) ws.now fs result) }
    ensures faults { ReadsOnly (F.told files.old) (F.told files.new) (reads_of result) }
{
    match analyse(alloc, ws, files) {
        Ok(analysis) => Ok(analysis),
        Err(fault) => Err(stop_of(fault)),
    }
}

// The text of a report.
fn told(alloc: Global, a: &Analysis, report: &Report<'_>) -> Result<Ready, Stop>
    ensures { Tells ready_answer (IsReportAnswer (report_value report.now) a.now.value) result }
{
    let text = report_of(alloc, a, report)?;
    Ok(to_show(alloc, text))
}

// The edits, and the text that tells them and what they leave unseen.
fn edited(alloc: Global, a: &Analysis, edit: &Edit<'_>) -> Result<Ready, Stop>
    ensures answer { Tells ready_answer (IsEditAnswer (edit_value edit.now) a.now.value) result }
    ensures keeps { IfOk result (λ ready. KeepsOver (edit_value edit.now) a.now.value ready.edits) }
    ensures sound { IfOk result (λ ready. IsKept ready.edits) }
{
    let edits = edits_of(alloc, a, edit)?;
    let mut text = edited_text(alloc, &edits)?;
    push_left(alloc, &mut text, a, edit)?;
    Ok(Ready {
        edits,
        text,
        refused: false,
    })
}
