// Members behind a backslash in what `#` makes a string of.
ghost use Rattle.std.specs.Prelude.{◌≡◌, ◌&&◌, not, false};
ghost use Rattle.cs_base.specs.declared.causes.Cause.TheVariants as cause;
ghost use Rattle.offences.specs.First.{standing, FirstThen};
ghost use Rattle.rename_rules.specs.Escapes.{escaped_place, escaped_places_of, is_backslash, is_escaped};

use crate::member_offences::in_token;
use analysis::Analysis;
use cs_base::{Cause, Tok};
use offences::{Class, Offence};

fn is_backslash(tok: &Tok) -> bool
    ensures { result ≡ is_backslash tok.now }
{
    tok.text() == b"\\".as_slice()
}

// Whether a token stands directly behind a backslash, which begins an escape sequence.
fn is_escaped(behind: bool, tok: &Tok) -> bool
    ensures { result ≡ is_escaped behind tok.now }
{
    behind && !tok.gap()
}

// Whether a token begins an escape sequence.
fn begins_escape(behind: bool, tok: &Tok) -> bool
    ensures { result ≡ (is_backslash tok.now && not (is_escaped behind tok.now)) }
{
    is_backslash(tok) && !is_escaped(behind, tok)
}

// `Stringized` in a token that is part of an escape sequence.
fn escaped_at(
    a: &Analysis,
    class: &Class<'_>,
    behind: bool,
    tok: &Tok,
    first: Option<Offence>,
) -> Option<Offence>
    ensures { FirstThen a.now.value.table (standing cause.Stringized (escaped_place class.now.members behind tok.now)) first result }
{
    if is_escaped(behind, tok) {
        in_token(a, class, tok, Cause::Stringized, first)
    } else {
        first
    }
}

/// The same in the tokens of strings, one behind another.
pub(crate) fn escaped_in(
    a: &Analysis,
    class: &Class<'_>,
    toks: &[Tok],
    first: Option<Offence>,
) -> Option<Offence>
    ensures { FirstThen a.now.value.table (standing cause.Stringized
        (escaped_places_of class.now.members false toks.now)) first result }
{
    let mut now = first;
    let mut behind = false;
    for tok in toks {
        now = escaped_at(a, class, behind, tok, now);
        behind = begins_escape(behind, tok);
    }
    now
}
