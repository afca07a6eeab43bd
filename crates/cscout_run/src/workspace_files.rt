// Reading the workspace file.
ghost use Rattle.std.specs.Prelude.{◌≡◌, IfSome};
ghost use Rattle.cs_base.specs.Outside.{ReadsOnly};
ghost use Rattle.cscout_run.specs.Steps.{ReadsWorkspace, reads_of};

use crate::stops::{Fault, Stop};
use cs_base::{Files, Got, Text};
use std::alloc::Global;
use ws_file::{Workspace, WsRefusal, read_ws};

/// The workspace of the workspace file.
pub(crate) fn read_workspace<F: Files>(
    alloc: Global,
    ws: &str,
    files: &mut F,
) -> Result<Workspace, Stop>
    ensures answer { IfSome (F.told files.old).held (λ fs. ReadsWorkspace ws.now fs result) }
    ensures faults { ReadsOnly (F.told files.old) (F.told files.new) (reads_of result) }
{
    match files.read(alloc, ws) {
        Got::Bytes(bytes) => match read_ws(alloc, bytes.as_slice()) {
            Ok(ws) => Ok(ws),
            Err(WsRefusal::BadLine { line }) => Err(Stop::Workspace(Fault::BadLine { line })),
            Err(WsRefusal::TooManyUnits { line }) => {
                Err(Stop::Workspace(Fault::TooManyUnits { line }))
            }
            Err(WsRefusal::Memory) => Err(Stop::Memory),
        },
        Got::Absent => Err(Stop::Workspace(Fault::Absent)),
        Got::Failed => Err(Stop::Unread(Text::new(alloc, ws.as_bytes())?)),
        Got::Memory => Err(Stop::Memory),
    }
}
