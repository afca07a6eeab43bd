// Why nothing is told of a workspace.
use cs_base::{Memory as NoMemory, Text};

/// What `check` answers where it tells nothing.
#[derive(Drop)]
pub enum CheckFault {
    /// A read of this path failed.
    ReadFault { path: Text },
    /// Memory ran out.
    Memory,
}

impl From<NoMemory> for CheckFault {
    ghost use Rattle.std.specs.Prelude.{◌≡◌};
    ghost use Rattle.unit_checks.specs.declared.check_fault.CheckFault.TheVariants.{Memory as no_memory};

    ghost from_gives = { λ _ e. e ≡ no_memory };

    fn from(_: NoMemory) -> Self {
        CheckFault::Memory
    }
}
