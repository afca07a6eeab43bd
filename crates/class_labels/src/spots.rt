// Where a character stands in its part.

/// The class number of the part that a character lies in, and how far into the part it lies.
#[derive(Clone, Copy, Debug, PartialEq, Eq)]
pub struct Spot {
    pub class: u32,
    pub offset: u32,
}
