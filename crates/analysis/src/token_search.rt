// Which token of a list holds a character, by halving.
ghost use Rattle.std.specs.Prelude.{◌≡◌, ◌≤◌, ◌<◌, ℕ, Some, true, false, length, slice_get};
ghost use Rattle.cs_base.specs.Token.{Token};
ghost use Rattle.eclass_map.specs.Positions.{holds};
ghost use Rattle.analysis.specs.FileTokens.{span_of};
ghost use Rattle.analysis.specs.TokenSearch.{AreInLine, IsOver, begins_by};

use crate::adding::span;
use cs_base::{Pos, Tok};
use eclass_map::part_holds;

// Whether a token begins at the character or before it.
fn begins_by(tok: &Tok, at: u32) -> bool
    ensures { result ≡ begins_by at tok.now }
{
    span(tok).start.at <= at
}

// Whether a token holds the character.
fn holds(tok: &Tok, pos: Pos) -> bool
    ensures { result ≡ holds (span_of tok.now) pos }
{
    part_holds(span(tok), pos)
}

// How many tokens begin at the character or before it.
fn count_begun(toks: &[Tok], pos: Pos) -> usize
    requires { AreInLine pos.file toks.now }
    ensures within { result ≤ length toks.now }
    ensures before { (k : ℕ) (t : Token) → k < result → slice_get toks.now k ≡ Some t → begins_by pos.at t ≡ true }
    ensures behind { (k : ℕ) (t : Token) → result ≤ k → slice_get toks.now k ≡ Some t → begins_by pos.at t ≡ false }
{
    let mut low = 0;
    let mut high = toks.len();
    while low < high {
        let middle = low + (high - low) / 2;
        if begins_by(&toks[middle], pos.at) {
            low = middle + 1;
        } else {
            high = middle;
        }
    }
    low
}

/// The number of the token that holds a character.
pub(crate) fn token_over(toks: &[Tok], pos: Pos) -> Option<usize>
    requires { AreInLine pos.file toks.now }
    ensures { IsOver toks.now pos result }
{
    let count = count_begun(toks, pos);
    if count == 0 {
        return None;
    }
    if holds(&toks[count - 1], pos) {
        Some(count - 1)
    } else {
        None
    }
}
