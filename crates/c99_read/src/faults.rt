// Why a text is no unit of the grammar.
ghost use Rattle.std.specs.Prelude.{◌≡◌};
ghost use Rattle.c99_read.specs.declared.faults.ReadRefusal.TheVariants.{Memory as NoMemory};

use cs_base::Memory;
use thiserror::Error;

#[derive(Clone, Copy, Debug, PartialEq, Eq, Drop, Error)]
pub enum ReadRefusal {
    /// Nothing that may follow starts at the token with the index, or at the end.
    #[error("Syntax")]
    Syntax { index: u32 },
    /// The 257th level would begin at the token with the index.
    #[error("TooDeep")]
    TooDeep { index: u32 },
    #[error("Memory")]
    Memory,
}

impl From<Memory> for ReadRefusal {
    ghost from_gives = { λ _ e. e ≡ NoMemory };

    fn from(_: Memory) -> ReadRefusal {
        ReadRefusal::Memory
    }
}
