// Offences against a renaming, and the first of them.
ghost use Rattle.std.specs.Prelude.{◌≡◌, ◌∷◌, [], MatchBool};
ghost use Rattle.std.specs.declared.cmp.Ordering.TheVariants.{Less};
ghost use Rattle.offences.specs.First.{offence, offence_cmp, path_of, position_cmp, FirstThen};

use analysis::Analysis;
use cs_base::{Cause, Pos};
use std::cmp::Ordering;

/// What stands against a renaming: a cause, at a position in a file.
#[derive(Clone, Copy, Debug, PartialEq, Eq)]
pub struct Offence {
    pub at: Pos,
    pub cause: Cause,
}

// The path of the places in a file.
fn path_of(a: &Analysis, number: u32) -> &[u8]
    ensures { result.now ≡ path_of a.now.value.table number }
{
    match a.file(number) {
        Some(file) => file.path(),
        None => b"<lines>",
    }
}

/// Which of two positions comes first: by the bytes of their paths, and then by their characters.
pub fn compare(a: &Analysis, p: Pos, q: Pos) -> Ordering
    ensures { result ≡ position_cmp a.now.value.table p q }
{
    match path_of(a, p.file).cmp(path_of(a, q.file)) {
        Ordering::Less => Ordering::Less,
        Ordering::Equal => p.at.cmp(&q.at),
        Ordering::Greater => Ordering::Greater,
    }
}

// Whether an offence comes before another.
fn comes_before(a: &Analysis, offence: Offence, other: Offence) -> bool
    ensures { MatchBool result (offence_cmp a.now.value.table offence other ≡ Less) (offence_cmp a.now.value.table offence other ≡ Less → ⊥) }
{
    match compare(a, offence.at, other.at) {
        Ordering::Less => true,
        Ordering::Equal => offence.cause.number() < other.cause.number(),
        Ordering::Greater => false,
    }
}

/// The first of some offences and one more.
pub fn first_with(a: &Analysis, first: Option<Offence>, at: Pos, cause: Cause) -> Option<Offence>
    ensures { FirstThen a.now.value.table (offence cause at ∷ []) first result }
{
    let offence = Offence { at, cause };
    match first {
        None => Some(offence),
        Some(other) => {
            if comes_before(a, offence, other) {
                Some(offence)
            } else {
                first
            }
        }
    }
}
