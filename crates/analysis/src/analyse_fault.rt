// Why a workspace has no texts.
use cs_base::{Cause, Memory as NoMemory, Place, Text};

/// What `texts` and `one_text` answer where they give no text. Units count from 1.
#[derive(Drop)]
pub enum AnalyseFault {
    /// The first fault: that of the least unit which has one.
    WorkspaceFault {
        unit: u32,
        place: Place,
        cause: Cause,
    },
    /// A read of this path failed.
    ReadFault {
        path: Text,
    },
    /// Memory ran out.
    Memory,
}

impl From<NoMemory> for AnalyseFault {
    ghost use Rattle.std.specs.Prelude.{◌≡◌};
    ghost use Rattle.analysis.specs.declared.analyse_fault.AnalyseFault.TheVariants.{Memory as no_memory};

    ghost from_gives = { λ _ e. e ≡ no_memory };

    fn from(_: NoMemory) -> Self {
        AnalyseFault::Memory
    }
}
