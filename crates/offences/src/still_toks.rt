// Tokens whose characters stay behind a renaming.
ghost use Rattle.std.specs.Prelude.{◌≡◌, ◌<◌, ◌≤◌, ◌+◌, ℕ, [], IsTrue, Some, true};
ghost use Rattle.analysis.specs.Below.lexer.Places.{pos};
ghost use Rattle.cs_base.specs.Token.{IsToken};
ghost use Rattle.offences.specs.Still.{AreStill, IsStill};

use crate::moves::{FileMove, Moves};
use crate::puts::Put;
use cs_base::{Pos, Tok};

// No character of a file stands elsewhere, if no member stands in it: so none of those on from this one, so many.
fn is_calm(moves: &Moves, start: Pos, len: usize) -> bool
    ensures { IsTrue result → (k : ℕ) → k < len → IsStill moves.now (Some (pos start.file (start.at + k))) }
{
    if !moves.others.is_empty() {
        return false;
    }
    match moves.file(start.file) {
        Some(file) => has_end_alone(file) && is_before(start.at, len, file.end),
        None => true,
    }
}

// Whether the tables of a file tell its end alone.
fn has_end_alone(file: &FileMove) -> bool
    ensures still { IsTrue result → file.now.still ≡ true }
    ensures puts { IsTrue result → file.now.puts.items ≡ [] }
{
    file.still && file.puts.is_empty()
}

// Whether so many characters from one on stand before the end.
fn is_before(at: u32, len: usize, end: u32) -> bool
    ensures { IsTrue result → at + len ≤ end }
{
    at <= end && len <= (end - at) as usize
}

// The same of a token whose characters come from one file, one behind the other.
fn is_calm_tok(moves: &Moves, tok: &Tok, chars: &[u8]) -> bool
    requires same { chars.now ≡ tok.now.text }
    requires sound { IsToken tok.now }
    ensures { IsTrue result → AreStill moves.now tok.now.origins tok.now.text }
{
    match tok.start() {
        Some(first) => is_calm(moves, first, chars.len()),
        None => false,
    }
}

/// Whether each character of a token stays, and stands where it stood.
pub(crate) fn are_still(moves: &Moves, tok: &Tok, chars: &[u8]) -> bool
    requires same { chars.now ≡ tok.now.text }
    requires sound { IsToken tok.now }
    ensures { IsTrue result → AreStill moves.now tok.now.origins tok.now.text }
{
    is_calm_tok(moves, tok, chars) || is_each_still(moves, tok, chars)
}

// The same, where each is looked at.
fn is_each_still(moves: &Moves, tok: &Tok, chars: &[u8]) -> bool
    requires same { chars.now ≡ tok.now.text }
    requires sound { IsToken tok.now }
    ensures { IsTrue result → AreStill moves.now tok.now.origins tok.now.text }
{
    for k in 0..chars.len() {
        if !is_still(moves, tok.origins(k as u32)) {
            return false;
        }
    }
    true
}

// Whether a character with this origin does. One that comes from no file always does.
fn is_still(moves: &Moves, origin: Option<Pos>) -> bool
    ensures { IsTrue result → IsStill moves.now origin }
{
    match origin {
        Some(p) => stands(moves, p),
        None => true,
    }
}

fn stands(moves: &Moves, p: Pos) -> bool
    ensures { IsTrue result → IsStill moves.now (Some p) }
{
    match moves.put(p) {
        Put::Character => moves.moved(p).at == p.at,
        Put::Name => false,
        Put::Nothing => false,
    }
}
