// Why a word is no query.
ghost use Rattle.std.specs.Prelude.{◌≡◌};

use cs_base::Memory as NoMemory;

/// The first fault of a query, by its byte, from 0.
#[derive(Clone, Copy, Debug, PartialEq, Eq)]
pub enum QueryFault {
    /// No query goes on with the byte, or a word begins there that is no attribute; or the query ends there too early.
    Bad { at: u32 },
    /// A `!` or `(` stands there inside 64 others.
    Deep { at: u32 },
}

/// Why a word is not compiled.
#[derive(Clone, Copy, Debug, PartialEq, Eq)]
pub enum QueryRefusal {
    /// It is no query.
    Fault(QueryFault),
    Memory,
}

impl From<NoMemory> for QueryRefusal {
    ghost use Rattle.std.specs.Prelude.{◌≡◌};
    ghost use Rattle.query_words.specs.declared.faults.QueryRefusal.TheVariants.{Memory as no_memory};

    ghost from_gives = { λ _ e. e ≡ no_memory };

    fn from(_: NoMemory) -> Self {
        QueryRefusal::Memory
    }
}
