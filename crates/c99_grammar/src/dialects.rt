// Which grammar reads the C of a standard.
ghost use Rattle.std.specs.Prelude.{◌≡◌};
ghost use Rattle.c99_grammar.specs.Dialects.{dialect};

use cs_base::Standard;

/// An edition of ISO/IEC 9899.
#[derive(Clone, Copy, Debug, PartialEq, Eq)]
pub enum Edition {
    C99,
    C11,
}

/// A grammar of C: that of an edition of ISO/IEC 9899, or that of gcc, which is the same whatever edition it follows.
#[derive(Clone, Copy, Debug, PartialEq, Eq)]
pub enum Dialect {
    Iso(Edition),
    Gnu,
}

impl Dialect {
    /// The one that a standard is read by.
    pub fn of(standard: Standard) -> Dialect
        ensures { result ≡ dialect standard }
    {
        match standard {
            Standard::C99 => Dialect::Iso(Edition::C99),
            Standard::C11 => Dialect::Iso(Edition::C11),
            Standard::Gnu99 | Standard::Gnu11 => Dialect::Gnu,
        }
    }
}
