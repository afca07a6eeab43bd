// Want of memory, the one answer that no clause ties to a cause.
use std::alloc::{AllocError, AllocFailed};

/// The call wanted memory that it was not given. Each enum of refusals that may say so has a variant
/// of this name.
#[derive(Clone, Copy, Debug, PartialEq, Eq)]
pub struct Memory;

impl From<AllocError> for Memory {
    fn from(_: AllocError) -> Self {
        Memory
    }
}

impl<T: Drop> From<AllocFailed<T>> for Memory {
    fn from(_: AllocFailed<T>) -> Self {
        Memory
    }
}
