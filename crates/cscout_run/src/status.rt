// How a run of the program ends.

/// How a run ended. `main` ends the process with the number.
#[derive(Clone, Copy, Debug, PartialEq, Eq)]
pub enum Status {
    Done = 0,
    Refused = 1,
    Usage = 2,
    Workspace = 3,
    ReadFault = 4,
    WriteFault = 5,
    Memory = 6,
}
