// How a part is spelled.
ghost use Rattle.std.specs.Prelude.{◌≡◌, ℕ, Some, None, true, slice_get};
ghost use Rattle.cs_base.specs.Token.{Token};
ghost use Rattle.eclass_map.specs.Positions.{holds};
ghost use Rattle.include_tree.specs.Below.source_files.KeptFiles.{kept_at};
ghost use Rattle.analysis.specs.BroughtNumbers.{AreNumbers, all_brought};
ghost use Rattle.analysis.specs.FileTokens.{span_of};
ghost use Rattle.analysis.specs.Parts.{IsCharacter};
ghost use Rattle.analysis.specs.Spellings.{spelling_in, spelling_of};
ghost use Rattle.analysis.specs.TokenSearch.{AreInLine};

use crate::accepted::Accepted;
use crate::adding::span;
use crate::token_search::token_over;
use cs_base::{Part, Tok};

// The characters of a part among those of its token.
fn slice_of(tok: &Tok, part: Part) -> &[u8]
    ensures { result.now ≡ spelling_in part tok.now }
{
    let text = tok.text();
    let start = span(tok).start.at;
    let before = part.start.at.saturating_sub(start) as usize;
    let from = before.min(text.len());
    let to = (from + part.len as usize).min(text.len());
    &text[from..to]
}

// The same, where some of these tokens is its token.
fn slice_in(toks: &[Tok], part: Part) -> &[u8]
    requires { AreInLine part.start.file toks.now }
    ensures { (k : ℕ) (t : Token) → slice_get toks.now k ≡ Some t → holds (span_of t) part.start ≡ true → result.now ≡ spelling_in part t }
{
    match token_over(toks, part.start) {
        Some(k) => slice_of(&toks[k], part),
        None => &[],
    }
}

/// The characters of a part. Only the tokens of its file are looked at, by halving; the numbers that units
/// brought stand in none.
pub(crate) fn spelling<'a>(a: &'a Accepted, numbers: &'a [Tok], part: Part) -> &'a [u8]
    requires lines { kept_at a.now.table 0 ≡ None }
    requires numbers { AreNumbers (all_brought a.now.units) numbers.now }
    requires held { IsCharacter a.now part.start }
    ensures { result.now ≡ spelling_of a.now part }
{
    match a.file(part.start.file) {
        Some(file) => slice_in(file.text().toks(), part),
        None => slice_in(numbers, part),
    }
}
