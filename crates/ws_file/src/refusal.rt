// Why a workspace file is not read.
ghost use Rattle.std.specs.Prelude.{◌≡◌};

use cs_base::Memory as NoMemory;
use thiserror::Error;

/// The first line that is refused, by its number from 1, or want of memory.
#[derive(Debug, Drop, Error)]
pub enum WsRefusal {
    /// The line is none that a workspace file may have.
    #[error("BadLine")]
    BadLine { line: u32 },
    /// The line is the 8,193rd `file` line.
    #[error("TooManyUnits")]
    TooManyUnits { line: u32 },
    #[error("Memory")]
    Memory,
}

impl From<NoMemory> for WsRefusal {
    ghost use Rattle.ws_file.specs.declared.refusal.WsRefusal.TheVariants.{Memory as no_memory};

    ghost from_gives = { λ _ refusal. refusal ≡ no_memory };

    fn from(_: NoMemory) -> Self {
        WsRefusal::Memory
    }
}
