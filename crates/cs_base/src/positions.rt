// Where something stands: in the logical text of a file, and in the file as a person reads it.
use crate::texts::Text;

/// Logical character `at` of file number `file`, from 0 (ISO/IEC 9899:1999, 5.1.1.2).
#[derive(Clone, Copy, Debug, PartialEq, Eq)]
pub struct Pos {
    pub file: u32,
    pub at: u32,
}

/// Some characters of one file token that must be spelled alike wherever their class has members:
/// `len` logical characters from `start` on.
#[derive(Clone, Copy, Debug, PartialEq, Eq)]
pub struct Part {
    pub start: Pos,
    pub len: u32,
}

/// A place as messages print it: a path, a line and a column, both from 1. Lines count line feeds of
/// the file, and columns count bytes of the line.
#[derive(Drop)]
pub struct Place {
    pub path: Text,
    pub line: u32,
    pub column: u32,
}
