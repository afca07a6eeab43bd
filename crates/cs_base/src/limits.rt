// This project's limits on what is read: the numbers of `specs/Limits.antt`.

/// How many bytes a file may have.
pub const MOST_BYTES: usize = 1 << 22;

/// How many bytes all files may have together.
pub const MOST_BYTES_OF_ALL: usize = 1 << 28;

/// How many files may be read.
pub const MOST_FILES: u32 = 4096;

/// How many units a workspace may have.
pub const MOST_UNITS: usize = 8192;

/// How many tokens a unit may have.
pub const MOST_TOKENS: u32 = 1 << 22;

/// How many tokens all units may have together.
pub const MOST_TOKENS_OF_ALL: u32 = 1 << 27;

/// What the replacements of macros in a unit may cost together.
pub const MOST_WORK: u32 = 1 << 22;
