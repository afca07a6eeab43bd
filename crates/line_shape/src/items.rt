// The items of a source file.
use cs_base::{Cause, Pos};

/// The directives that GNU C has more (of the last two the next edition of the standard has the same).
#[derive(Clone, Copy, Debug, PartialEq, Eq)]
pub enum GnuLine {
    /// `include_next`.
    IncludeNext,
    /// `warning`, `ident` or `sccs`, which say something to whoever reads them.
    Message,
    Elifdef,
    Elifndef,
}

/// What an item is: a run of text lines, or a directive line, by its word.
#[derive(Clone, Copy, Debug, PartialEq, Eq)]
pub enum ItemKind {
    /// The text lines between two directive lines, with one token at least.
    Run,
    Define,
    Undef,
    If,
    Ifdef,
    Ifndef,
    Elif,
    Else,
    Endif,
    Include,
    Line,
    Error,
    Pragma,
    /// A directive that GNU C alone has.
    Gnu(GnuLine),
    /// A `#` alone on its line (6.10.7).
    Empty,
    /// A directive line of no allowed form, whose `#` is at this position. It begins an if-section
    /// where `nests` says so: its word is `ifdef` or `ifndef`.
    Bad { cause: Cause, at: Pos, nests: bool },
}

/// An item: its kind, the position of its first token, the lines of its first and its last token, and
/// its tokens: those from number `from`, from 0, to before number `to`.
#[derive(Clone, Copy, Debug, PartialEq, Eq)]
pub struct Item {
    pub kind: ItemKind,
    pub at: Pos,
    pub first_line: u32,
    pub last_line: u32,
    pub from: u32,
    pub to: u32,
}
