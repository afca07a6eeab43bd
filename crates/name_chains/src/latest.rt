// What is asked of a declaration that a name may denote.
ghost use Rattle.std.specs.Prelude.{◌≡◌, ◌&&◌, slice_get};
ghost use Rattle.std.specs.Option.{option_map};
ghost use Rattle.std.specs.Str.{bytes_eq};
ghost use Rattle.c_types.specs.Declarations.{is_live, is_space, has_linkage, spelling_at, alike, is_named};
ghost use Rattle.name_chains.specs.Latest.{passes, tested};
ghost use Rattle.name_chains.specs.Spellings.{AreNumbers};

use crate::spellings::number_at;
use c_types::{Declaration, Linkage, Space};
use cs_base::Tok;

/// What is asked of a declaration: that its range holds the token; that it does, in the scope of the depth;
/// the same of a tag, where it is declared anew; and nothing.
#[derive(Clone, Copy)]
pub enum Asked {
    Live(u32),
    Within(u32, u32),
    Tag(u32, bool, u32),
    Anywhere,
}

fn spelling(toks: &[Tok], k: u32) -> &[u8]
    ensures { result.now ≡ spelling_at toks.now k }
{
    match toks.get(k as usize) {
        Some(tok) => tok.text(),
        None => &[],
    }
}

/// The token is spelled so.
pub fn is_spelled(toks: &[Tok], k: u32, word: &[u8]) -> bool
    ensures { result ≡ bytes_eq (spelling_at toks.now k) word.now }
{
    spelling(toks, k) == word
}

// The two tokens are spelled alike. Their numbers say it; the tokens are read by the clauses alone.
fn alike(_toks: &[Tok], numbers: &[u32], i: u32, j: u32) -> bool
    requires numbered { AreNumbers _toks.now numbers.now }
    ensures { result ≡ alike _toks.now i j }
{
    number_at(numbers, i) == number_at(numbers, j)
}

/// They are one name space, or names in the first are found where the second is asked for.
pub(crate) fn is_space(space: Space, other: Space) -> bool
    ensures { result ≡ is_space space other }
{
    match (space, other) {
        (Space::Ordinary, Space::Ordinary) => true,
        (Space::Tags, Space::Tags) => true,
        (Space::Members(n), Space::Members(m)) => n == m,
        (Space::Inner(n), Space::Members(m)) => n == m,
        (Space::Labels(n), Space::Labels(m)) => n == m,
        _ => false,
    }
}

fn is_named(toks: &[Tok], numbers: &[u32], space: Space, i: u32, d: &Declaration) -> bool
    requires numbered { AreNumbers toks.now numbers.now }
    ensures { result ≡ is_named toks.now space i d.now }
{
    is_space(d.space, space) && alike(toks, numbers, i, d.name_at)
}

fn is_live(k: u32, d: &Declaration) -> bool
    ensures { result ≡ is_live k d.now }
{
    d.from <= k && k < d.to
}

pub fn has_linkage(linkage: Linkage) -> bool
    ensures { result ≡ has_linkage linkage }
{
    !matches!(linkage, Linkage::Absent)
}

fn passes(asked: Asked, d: &Declaration) -> bool
    ensures { result ≡ passes asked d.now }
{
    match asked {
        Asked::Live(at) => is_live(at, d),
        Asked::Within(at, depth) => is_live(at, d) && d.depth == depth,
        Asked::Tag(at, anew, depth) => is_live(at, d) && (!anew || d.depth == depth),
        Asked::Anywhere => true,
    }
}

/// Declaration `n`, where it passes.
pub(crate) fn tested<'a>(
    declared: &'a [Declaration],
    toks: &[Tok],
    numbers: &[u32],
    space: Space,
    i: u32,
    asked: Asked,
    n: usize,
) -> Option<&'a Declaration>
    requires numbered { AreNumbers toks.now numbers.now }
    ensures { option_map (λ d. d.now) result ≡ tested (λ d. is_named toks.now space i d && passes asked d) (slice_get declared.now n) }
{
    match declared.get(n) {
        Some(d) => {
            if is_named(toks, numbers, space, i, d) && passes(asked, d) {
                Some(d)
            } else {
                None
            }
        }
        None => None,
    }
}
