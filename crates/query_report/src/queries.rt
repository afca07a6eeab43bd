// Reports on an analysed workspace: what is asked, and what is refused.
ghost use Rattle.std.specs.Prelude.{◌≡◌, Err, None, Some, IfOk};
ghost use Rattle.query_report.specs.Queries.{IsReport};
ghost use Rattle.query_report.specs.declared.queries.QueryRefusal.TheVariants.{NoName};

use crate::class_lines::class_report;
use crate::list_lines::{includes_report, unused_report};
use analysis::Analysis;
use cs_base::{Memory as NoMemory, Place};
use std::alloc::Global;

/// What a report tells.
#[derive(Drop)]
pub enum Query {
    /// The members of the class of the name at a place, whose path is as files are named.
    Class(Place),
    /// The first member of each class that some name declares and none uses.
    Unused,
    /// The include lines that no inclusion needs.
    Includes,
}

/// Why there is no report.
#[derive(Drop)]
pub enum QueryRefusal {
    /// The place names nothing.
    NoName,
    /// Memory ran out.
    Memory,
}

impl From<NoMemory> for QueryRefusal {
    ghost use Rattle.std.specs.Prelude.{◌≡◌};
    ghost use Rattle.query_report.specs.declared.queries.QueryRefusal.TheVariants.{Memory as no_memory};

    ghost from_gives = { λ _ e. e ≡ no_memory };

    fn from(_: NoMemory) -> Self {
        QueryRefusal::Memory
    }
}

/// The report that is asked for. Refused: `NoName` where the place names nothing, `Memory` where memory ran
/// out.
pub fn report(alloc: Global, a: &Analysis, q: &Query) -> Result<Vec<u8>, QueryRefusal>
    ensures answer { IfOk result (λ text. IsReport a.now.value q.now (Some text.items)) }
    ensures no_name { result ≡ Err NoName → IsReport a.now.value q.now None }
{
    match q {
        Query::Class(place) => class_report(alloc, a, place),
        Query::Unused => Ok(unused_report(alloc, a)?),
        Query::Includes => Ok(includes_report(alloc, a)?),
    }
}
