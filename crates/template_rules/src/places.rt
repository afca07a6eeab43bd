// Where tokens stand, and causes at them.
ghost use Rattle.std.specs.Prelude.{◌≡◌};
ghost use Rattle.offences.specs.First.{standing, FirstThen};
ghost use Rattle.template_rules.specs.Functions.{origin_of, place_of};

use analysis::Analysis;
use cs_base::{Cause, Pos, Tok};
use offences::{Offence, first_with};

/// Where the first character of token `k` comes from.
pub(crate) fn origin_of(toks: &[Tok], k: u32) -> Option<Pos>
    ensures { result ≡ origin_of toks.now k }
{
    if (k as usize) < toks.len() {
        toks[k as usize].origins(0)
    } else {
        None
    }
}

/// A cause that stands where token `k` begins.
pub(crate) fn at_token(
    a: &Analysis,
    toks: &[Tok],
    k: u32,
    cause: Cause,
    first: Option<Offence>,
) -> Option<Offence>
    ensures { FirstThen a.now.value.table (standing cause (place_of toks.now k)) first result }
{
    match origin_of(toks, k) {
        Some(at) => first_with(a, first, at, cause),
        None => first,
    }
}
