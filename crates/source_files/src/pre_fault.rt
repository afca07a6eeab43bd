// Why a unit is not preprocessed.
ghost use Rattle.std.specs.Prelude.{◌≡◌, IfSome};
ghost use Rattle.source_files.specs.Faults.{fault, place_of};
ghost use Rattle.source_files.specs.Answers.{fault_of, IsNoReadFault};

use cs_base::{Cause, Memory as NoMemory, Place, Text};
use std::alloc::Global;

/// What `preprocess` answers where it gives no text.
#[derive(Drop)]
pub enum PreFault {
    /// The first fault of the unit.
    Fault { place: Place, cause: Cause },
    /// A read of this path failed.
    ReadFault { path: Text },
    /// Memory ran out.
    Memory,
}

impl From<NoMemory> for PreFault {
    ghost use Rattle.std.specs.Prelude.{◌≡◌};
    ghost use Rattle.source_files.specs.declared.pre_fault.PreFault.TheVariants.{Memory as no_memory};

    ghost from_gives = { λ _ e. e ≡ no_memory };

    fn from(_: NoMemory) -> Self {
        PreFault::Memory
    }
}

// A fault at a line and a column of a file.
pub fn fault_at(alloc: Global, path: &[u8], line: u32, column: u32, cause: Cause) -> PreFault
    ensures answer { IfSome (fault_of result) (λ f. f ≡ fault (place_of path.now (line, column)) cause) }
    ensures no_read { IsNoReadFault result }
{
    match Text::new(alloc, path) {
        Ok(path) => PreFault::Fault {
            place: Place { path, line, column },
            cause,
        },
        Err(_) => PreFault::Memory,
    }
}

// A fault at a place.
pub fn fault_there(alloc: Global, place: &Place, cause: Cause) -> PreFault
    ensures answer { IfSome (fault_of result) (λ f. f ≡ fault place.now cause) }
    ensures no_read { IsNoReadFault result }
{
    fault_at(alloc, place.path.bytes(), place.line, place.column, cause)
}
