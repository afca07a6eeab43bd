// The generated workspace: made, analysed and renamed in memory, and counted. It touches no file.
ghost use Rattle.std.specs.Prelude.{◌≡◌, ◌≤◌, IfErr, IfOk};
ghost use Rattle.cs_base.specs.Limits.{most_tokens_of_all};
ghost use Rattle.analysis.specs.Counts.{tokens_in};
ghost use Rattle.generated.specs.Generated.{workspace_path};
ghost use Rattle.cscout_run.specs.Answer.{IsGenerated, IsSizeAnswer, places_in};
ghost use Rattle.cscout_run.specs.Steps.{IsQuiet, Prepares, Tells, ready_answer};

use crate::preparing::{Ready, to_show};
use crate::stops::Stop;
use crate::units::stop_of;
use crate::workspace_files::read_workspace;
use analysis::{Analysis, analyse};
use command_words::size_text;
use cs_base::{Edits, Memory};
use generated::{Unfailing, generate};
use rename_plan::plan_rename;
use std::alloc::Global;

/// All of the answer to a generated workspace of so many units but its output. No file is read.
pub(crate) fn prepare_generated(alloc: Global, n: u32) -> Result<Ready, Stop>
    ensures answer { Prepares workspace_path (IsGenerated n) result }
    ensures stops { IfErr result IsQuiet }
{
    let mut files = Unfailing::new(generate(alloc, n)?);
    let ws = read_workspace(alloc, "w.cs", &mut files)?;
    match analyse(alloc, &ws, &mut files) {
        Ok(analysis) => size_of(alloc, &analysis, n),
        Err(fault) => Err(stop_of(fault)),
    }
}

// What is told of the generated workspace, once it is analysed.
fn size_of(alloc: Global, a: &Analysis, n: u32) -> Result<Ready, Stop>
    requires { tokens_in a.now.value.units ≤ most_tokens_of_all }
    ensures { Tells ready_answer (IsSizeAnswer n a.now.value) result }
{
    match plan_rename(alloc, a, "h.h", 1, 12, b"sum", false) {
        Ok(edits) => {
            let count = tokens(alloc, a)?;
            let text = size_text(alloc, n, count, places(&edits))?;
            Ok(to_show(alloc, text))
        }
        Err(fault) => Err(Stop::from(fault)),
    }
}

// How many tokens the units have.
fn tokens(alloc: Global, a: &Analysis) -> Result<u32, Memory>
    requires { tokens_in a.now.value.units ≤ most_tokens_of_all }
    ensures { IfOk result (λ count. count ≡ tokens_in a.now.value.units) }
{
    let mut sum = 0;
    for k in 0..a.units() {
        let one = a.unit(alloc, k + 1)?;
        sum += one.text().toks().len() as u32;
    }
    Ok(sum)
}

// How many places the edits change.
fn places(edits: &Edits) -> u64
    ensures { result ≡ places_in edits.now }
{
    let mut sum = 0;
    for k in 0..edits.len() {
        sum += edits.count(k) as u64;
    }
    sum
}
