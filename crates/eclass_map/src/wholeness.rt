// Whether the origins of a token are whole added tokens, one after another.
ghost use Rattle.std.specs.Prelude.{◌≡◌, ◌+◌, ◌^◌, ◌<◌, IsTrue, MatchBool, Some, length, slice_get};
ghost use Rattle.eclass_map.specs.ClassTable.{AreWhole};
ghost use Rattle.eclass_map.specs.Positions.{AreTokens};
ghost use Rattle.eclass_map.specs.Settled.{Fits};
ghost use Rattle.eclass_map.specs.Wholeness.{of_tokens, LiesAt, TellsBeginning, TellsToken};

use crate::token_list::{Added, count_begun};
use cs_base::{Part, Pos, Tok};

/// Whether the origins of a token are whole tokens of the list, one after another. The token with the index is
/// tried first wherever one is sought.
pub fn are_whole(tokens: &[Added], files: &[usize], tok: &Tok, guess: usize) -> bool
    requires tokens { AreTokens tokens.now }
    requires fits { Fits tokens.now }
    ensures { MatchBool result (AreWhole (of_tokens tokens.now) tok.now.origins) (AreWhole (of_tokens tokens.now) tok.now.origins → ⊥) }
{
    let count = tok.text().len() as u32;
    let mut at = 0;
    while at < count {
        match token_at(tokens, files, tok, at, guess) {
            Some(token) => at += token.len,
            None => return false,
        }
    }
    true
}

// The token of the list whose characters the origins from number `at` on are.
fn token_at(tokens: &[Added], files: &[usize], tok: &Tok, at: u32, guess: usize) -> Option<Part>
    requires tokens { AreTokens tokens.now }
    requires fits { Fits tokens.now }
    requires within { at < length tok.now.origins }
    requires short { length tok.now.origins < 2 ^ 32 }
    ensures { TellsToken tokens.now tok.now.origins at result }
{
    match tok.origins(at) {
        Some(start) => token_from(tokens, files, tok, at, start, guess),
        None => None,
    }
}

// The same, where the first of these origins is the character `start`.
fn token_from(
    tokens: &[Added],
    files: &[usize],
    tok: &Tok,
    at: u32,
    start: Pos,
    guess: usize,
) -> Option<Part>
    requires tokens { AreTokens tokens.now }
    requires fits { Fits tokens.now }
    requires short { length tok.now.origins < 2 ^ 32 }
    requires start { slice_get tok.now.origins at ≡ Some (Some start) }
    ensures { TellsToken tokens.now tok.now.origins at result }
{
    match beginning_near(tokens, files, start, guess) {
        Some(token) => {
            if goes_on(tok, at, token) {
                Some(token)
            } else {
                None
            }
        }
        None => None,
    }
}

// The same as `beginning_at`, where the token with the index is tried first.
fn beginning_near(tokens: &[Added], files: &[usize], pos: Pos, guess: usize) -> Option<Part>
    requires { AreTokens tokens.now }
    ensures { TellsBeginning tokens.now pos result }
{
    if guess < tokens.len() {
        let token = tokens[guess].place;
        if is_same(token.start, pos) {
            return Some(token);
        }
    }
    beginning_at(tokens, files, pos)
}

// The token of the list that begins at the character.
fn beginning_at(tokens: &[Added], files: &[usize], pos: Pos) -> Option<Part>
    requires { AreTokens tokens.now }
    ensures { TellsBeginning tokens.now pos result }
{
    let count = count_begun(tokens, files, pos);
    if count == 0 {
        return None;
    }
    let token = tokens[count - 1].place;
    if is_same(token.start, pos) {
        Some(token)
    } else {
        None
    }
}

fn is_same(first: Pos, second: Pos) -> bool
    ensures { MatchBool result (first ≡ second) (first ≡ second → ⊥) }
{
    first.file == second.file && first.at == second.at
}

// The origins from number `at` on are the characters of the part, as the token tells of all its characters at once.
fn runs_on(tok: &Tok, at: u32, part: Part) -> bool
    requires within { at < length tok.now.origins }
    ensures { IsTrue result → LiesAt tok.now.origins at part }
{
    match tok.start() {
        Some(first) => {
            let left = tok.text().len() as u32 - at;
            first.file == part.start.file
                && first.at <= part.start.at
                && part.start.at - first.at == at
                && part.len <= left
        }
        None => false,
    }
}

// Whether the origins from number `at` on are the characters of the part.
fn goes_on(tok: &Tok, at: u32, part: Part) -> bool
    requires within { at < length tok.now.origins }
    requires short { length tok.now.origins < 2 ^ 32 }
    requires fits { part.start.at + part.len < 2 ^ 32 }
    ensures { MatchBool result (LiesAt tok.now.origins at part) (LiesAt tok.now.origins at part → ⊥) }
{
    if runs_on(tok, at, part) {
        return true;
    }
    for offset in 0..part.len {
        let pos = Pos {
            file: part.start.file,
            at: part.start.at + offset,
        };
        if !comes_from(tok, at + offset, pos) {
            return false;
        }
    }
    true
}

// Whether the character is the origin with this number.
fn comes_from(tok: &Tok, number: u32, pos: Pos) -> bool
    ensures { MatchBool result (slice_get tok.now.origins number ≡ Some (Some pos)) (slice_get tok.now.origins number ≡ Some (Some pos) → ⊥) }
{
    match tok.origins(number) {
        Some(origin) => is_same(origin, pos),
        None => false,
    }
}
