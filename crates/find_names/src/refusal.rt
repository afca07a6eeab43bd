// Why no classes are found.
ghost use Rattle.std.specs.Prelude.{◌≡◌};

use cs_base::Memory as NoMemory;
use query_words::{QueryFault, QueryRefusal};

/// Why there is no answer to a query.
#[derive(Clone, Copy, Debug, PartialEq, Eq)]
pub enum FindRefusal {
    /// No query goes on with the byte, or a word begins there that is no attribute; or the query ends there too early.
    BadQuery { at: u32 },
    /// A `!` or `(` stands there inside 64 others.
    TooDeep { at: u32 },
    Memory,
}

impl From<NoMemory> for FindRefusal {
    ghost use Rattle.std.specs.Prelude.{◌≡◌};
    ghost use Rattle.find_names.specs.declared.refusal.FindRefusal.TheVariants.{Memory as no_memory};

    ghost from_gives = { λ _ e. e ≡ no_memory };

    fn from(_: NoMemory) -> Self {
        FindRefusal::Memory
    }
}

impl From<QueryRefusal> for FindRefusal {
    ghost use Rattle.std.specs.Prelude.{◌≡◌};
    ghost use Rattle.find_names.specs.Refusals.{refusal_of};

    ghost from_gives = { λ refusal e. e ≡ refusal_of refusal };

    fn from(refusal: QueryRefusal) -> Self {
        match refusal {
            QueryRefusal::Fault(QueryFault::Bad { at }) => FindRefusal::BadQuery { at },
            QueryRefusal::Fault(QueryFault::Deep { at }) => FindRefusal::TooDeep { at },
            QueryRefusal::Memory => FindRefusal::Memory,
        }
    }
}
