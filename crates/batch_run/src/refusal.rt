// Why a batch file is not read.
ghost use Rattle.std.specs.Prelude.{◌≡◌};

use cs_base::Memory as NoMemory;

/// The first line that is bad, by its number from 1, or want of memory.
#[derive(Debug, Drop)]
pub enum BatchRefusal {
    /// The line asks for no rename.
    BadLine { line: u32 },
    Memory,
}

impl From<NoMemory> for BatchRefusal {
    ghost use Rattle.batch_run.specs.declared.refusal.BatchRefusal.TheVariants.{Memory as no_memory};

    ghost from_gives = { λ _ refusal. refusal ≡ no_memory };

    fn from(_: NoMemory) -> Self {
        BatchRefusal::Memory
    }
}
