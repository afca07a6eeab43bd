// The ask `check`: each unit by itself.
ghost use Rattle.std.specs.Prelude.{◌≡◌, [], IfSome};
ghost use Rattle.cs_base.specs.Outside.{ReadsOnly};
ghost use Rattle.command_words.specs.Request.{check_asked};
ghost use Rattle.cscout_run.specs.Answer.{IsAskAnswer};
ghost use Rattle.cscout_run.specs.Steps.{Answers, check_stop, reads_of};

use crate::preparing::Ready;
use crate::stops::Stop;
use cs_base::{Edits, Files};
use std::alloc::Global;
use unit_checks::{CheckFault, Checked, check};
use ws_file::Workspace;

/// All of the answer to a check of the units but its output.
pub(crate) fn check_over<F: Files>(
    alloc: Global,
    ws: &Workspace,
    files: &mut F,
) -> Result<Ready, Stop>
    ensures answer { IfSome (F.told files.old).held (λ fs. Answers (IsAskAnswer fs check_asked ws.now) result) }
    ensures faults { ReadsOnly (F.told files.old) (F.told files.new) (reads_of result) }
{
    match check(alloc, ws, files) {
        Ok(checked) => Ok(to_tell(alloc, checked)),
        Err(fault) => Err(check_stop(fault)),
    }
}

// What a check leaves to be done.
fn to_tell(alloc: Global, checked: Checked) -> Ready
    ensures edits { result.edits ≡ [] }
    ensures text { result.text.items ≡ checked.text.items }
    ensures refused { result.refused ≡ checked.refused }
{
    let Checked { text, refused } = checked;
    Ready {
        edits: Edits::new(alloc),
        text,
        refused,
    }
}

// Why nothing is told, as an early end of the run.
fn check_stop(fault: CheckFault) -> Stop
    ensures { result ≡ check_stop fault }
{
    match fault {
        CheckFault::ReadFault { path } => Stop::Unread(path),
        CheckFault::Memory => Stop::Memory,
    }
}
