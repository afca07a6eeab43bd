// The early ends of a run: nothing is put.
use cs_base::{Cause, Memory as NoMemory, Place, Text};
use offences::{PlanFault, Refusal};

/// Why a run ends before the first put.
#[derive(Drop)]
pub enum Stop {
    /// There is no workspace, or it is not accepted.
    Workspace(Fault),
    /// The file of this path could not be read.
    Unread(Text),
    /// What is asked for is refused.
    Refused(Why),
    Memory,
}

/// What is wrong with a workspace.
#[derive(Drop)]
pub enum Fault {
    /// The workspace file is not there.
    Absent,
    /// A line of the workspace file is refused.
    BadLine {
        line: u32,
    },
    /// A line of the workspace file is one `file` line too many.
    TooManyUnits {
        line: u32,
    },
    /// A unit is not accepted.
    Unit {
        unit: u32,
        place: Place,
        cause: Cause,
    },
}

/// Why what is asked for is refused.
#[derive(Drop)]
pub enum Why {
    /// There is no unit with the number.
    NoUnit,
    /// The batch file has a bad line of this number, or is not there: then it is 0.
    BadBatch(u32),
    /// No query goes on with that byte of the word.
    BadQuery(u32),
    /// Too many `!` and `(` are open in the query, at that byte.
    DeepQuery(u32),
    /// The place names nothing, or something else stands against the edit.
    Refusal(Refusal),
}

impl From<NoMemory> for Stop {
    ghost use Rattle.std.specs.Prelude.{◌≡◌};
    ghost use Rattle.cscout_run.specs.declared.stops.Stop.TheVariants.{Memory as no_memory};

    ghost from_gives = { λ _ stop. stop ≡ no_memory };

    fn from(_: NoMemory) -> Self {
        Stop::Memory
    }
}

impl From<PlanFault> for Stop {
    ghost use Rattle.std.specs.Prelude.{◌≡◌};
    ghost use Rattle.cscout_run.specs.Stopping.{plan_stop};

    ghost from_gives = { λ fault stop. stop ≡ plan_stop fault };

    fn from(fault: PlanFault) -> Self {
        match fault {
            PlanFault::Refused(refusal) => Stop::Refused(Why::Refusal(refusal)),
            PlanFault::Memory => Stop::Memory,
        }
    }
}
