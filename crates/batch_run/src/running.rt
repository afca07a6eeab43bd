// A batch, line by line.
ghost use Rattle.std.specs.Prelude.{◌≡◌, List, Ok, IfErr, IfOk, IfSome};
ghost use Rattle.cs_base.specs.Outside.{FileMap, ReadsOnly};
ghost use Rattle.analysis.specs.Below.source_files.Files.{Source, source_of};
ghost use Rattle.analysis.specs.Below.source_files.Tables.{AreFound};
ghost use Rattle.analysis.specs.Analysis.{analysis_of};
ghost use Rattle.analysis.specs.Answers.{reads_of};
ghost use Rattle.analysis.specs.declared.analyse_fault.AnalyseFault.TheVariants.{Memory as no_memory};
ghost use Rattle.batch_run.specs.Batch.{Plan};
ghost use Rattle.batch_run.specs.Running.{IsRun, Runs, RunsAsRead, RunsOver};
ghost use Rattle.batch_run.specs.Stepping.{IsReady, RunTo};

use crate::batch_line::BatchLine;
use crate::standing::Standing;
use crate::stepping::{Batching, run_line};
use analysis::{AnalyseFault, Analysis, analyse};
use cs_base::{Edits, Files, Memory};
use edited_files::TextEdits;
use std::alloc::Global;
use std::mem;
use ws_file::Workspace;

/// What a batch leaves to be done: the edits to put, the text to write, and whether a line was refused.
#[derive(Drop)]
pub struct Batched {
    pub edits: Edits,
    pub text: Vec<u8>,
    pub refused: bool,
}

/// Runs the lines in order over the workspace, each on the files as those before left them. Puts nothing. Refused as
/// `analyse` is: where a unit is not accepted, where a read failed, or where memory ran out.
pub fn run_batch<F: Files>(
    alloc: Global,
    ws: &Workspace,
    lines: &[BatchLine],
    files: &mut F,
) -> Result<Batched, AnalyseFault>
    ensures answer { IfSome (F.told files.old).held (λ held. Runs ws.now held lines.now result) }
    // Line by line it is so over every source that agrees with what was read, and over each that then holds the edits.
    ensures meaning { IfOk result (RunsAsRead (F.told files.old).held ws.now lines.now) }
    ensures faults { ReadsOnly (F.told files.old) (F.told files.new) (reads_of result) }
{
    match analyse(alloc, ws, files) {
        Ok(analysis) => all_lines(alloc, ws, lines, analysis),
        Err(fault) => Err(fault),
    }
}

// The lines, once the workspace is analysed; refused only where memory ran out.
fn all_lines(
    alloc: Global,
    ws: &Workspace,
    lines: &[BatchLine],
    analysis: Analysis,
) -> Result<Batched, AnalyseFault>
    requires { (source : Source) → AreFound source analysis.value.table → analysis_of source ws.now ≡ Ok analysis.value }
    ensures answer { (files : FileMap) → analysis_of (source_of files) ws.now ≡ Ok analysis.value → Runs ws.now files lines.now result }
    ensures over { IfOk result (RunsOver ws.now lines.now analysis.value) }
    ensures memory { IfErr result (λ e. e ≡ no_memory) }
{
    match run_lines(alloc, ws, lines, analysis) {
        Ok(done) => Ok(done),
        Err(_) => Err(AnalyseFault::Memory),
    }
}

// The same, line by line.
fn run_lines(
    alloc: Global,
    ws: &Workspace,
    lines: &[BatchLine],
    analysis: Analysis,
) -> Result<Batched, Memory>
    requires { (source : Source) → AreFound source analysis.value.table → analysis_of source ws.now ≡ Ok analysis.value }
    ensures files { IfOk result (λ b. (plans : List Plan) × ((files : FileMap) → analysis_of (source_of files) ws.now ≡ Ok analysis.value → IsRun ws.now files lines.now b plans)) }
    ensures over { IfOk result (RunsOver ws.now lines.now analysis.value) }
{
    // Each path of the analysis has one number.
    let _files = analysis.files();
    let state = Batching {
        analysis: Standing::at(analysis),
        edits: TextEdits::new(alloc),
        text: Vec::new(alloc),
        refused: false,
    };
    let state = each_line(alloc, ws, lines, state)?;
    let Batching {
        analysis,
        edits,
        text,
        refused,
    } = state;
    // To free an analysis piece by piece takes time, and no more is asked of it.
    mem::forget(analysis);
    let edits = edits.edits(alloc)?;
    Ok(Batched {
        edits,
        text,
        refused,
    })
}

// Each line, from this beginning.
fn each_line(
    alloc: Global,
    ws: &Workspace,
    lines: &[BatchLine],
    state: Batching,
) -> Result<Batching, Memory>
    requires { IsReady ws.now state }
    ensures { IfOk result (λ behind. RunTo ws.now state lines.now behind) }
{
    let mut state = state;
    for line in lines {
        state = run_line(alloc, ws, line, state)?;
    }
    Ok(state)
}
