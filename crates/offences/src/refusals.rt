// Why an edit is refused.
ghost use Rattle.std.specs.Prelude.{◌≡◌, IfOk, IfSome};
ghost use Rattle.analysis.specs.Places.{place_at};
ghost use Rattle.offences.specs.Refusals.{refusal_of, refused_for};

use crate::firsts::Offence;
use analysis::Analysis;
use cs_base::{Cause, Memory as NoMemory, Place, Pos, Text};
use std::alloc::Global;

/// Why an edit is refused. A plan gives some of these, in the order in which it looks.
#[derive(Drop)]
pub enum Refusal {
    /// The new name is no identifier.
    BadName,
    /// The place names no part.
    NoName,
    /// The class of the part names no function.
    NotAFunction,
    /// The class of the part names no macro.
    NotAMacro,
    /// The numbers are not those from 1 to the number of the parameters, each once.
    BadOrder,
    /// The first offence: by path, then by character, then by number.
    Offence { place: Place, cause: Cause },
}

/// Why a plan gives no edits.
#[derive(Drop)]
pub enum PlanFault {
    Refused(Refusal),
    /// Memory ran out.
    Memory,
}

impl From<NoMemory> for PlanFault {
    ghost use Rattle.std.specs.Prelude.{◌≡◌};
    ghost use Rattle.offences.specs.declared.refusals.PlanFault.TheVariants.{Memory as no_memory};

    ghost from_gives = { λ _ e. e ≡ no_memory };

    fn from(_: NoMemory) -> Self {
        PlanFault::Memory
    }
}

// The place of a position.
fn place_at(alloc: Global, a: &Analysis, at: Pos) -> Result<Place, NoMemory>
    ensures { IfOk result (λ p. p ≡ place_at a.now.value.table at) }
{
    let (path, line, column) = a.place(at);
    Ok(Place {
        path: Text::new(alloc, path)?,
        line,
        column,
    })
}

/// The refusal for an offence.
pub fn refused(alloc: Global, a: &Analysis, offence: Offence) -> PlanFault
    ensures { IfSome (refusal_of result) (λ r. r ≡ refused_for a.now.value offence) }
{
    match place_at(alloc, a, offence.at) {
        Ok(place) => PlanFault::Refused(Refusal::Offence {
            place,
            cause: offence.cause,
        }),
        Err(_) => PlanFault::Memory,
    }
}
