// Logical characters: the bytes that translation phase 2 leaves (ISO/IEC 9899:1999, 5.1.1.2).
ghost use Rattle.std.specs.Prelude.{◌≡◌, ◌≤◌, ◌<◌, ◌+◌, ◌∷◌, [], ℕ, MatchOption, IfOk, IfSome, length, take};
ghost use Rattle.std.specs.List.{list_all};
ghost use Rattle.lexer.specs.Characters.{begins as begins_so, cannot_go};
ghost use Rattle.lexer.specs.Logical.{logical_from, new_line_length as new_line, gone_length as gone};
ghost use Rattle.lexer.specs.Walk.{spelled, Passes, IsFirst};
ghost use Rattle.lexer.specs.Front.{begins_with as begins_with_word};

use crate::characters::cannot_go;
use cs_base::Memory;
use std::alloc::Global;

// Whether a text begins with this character.
fn begins(c: u8, text: &[u8]) -> bool
    ensures { result ≡ begins_so c text.now }
{
    match text {
        [d, ..] => *d == c,
        [] => false,
    }
}

// How many bytes the new-line has that stands in front.
fn new_line_length(bytes: &[u8]) -> usize
    ensures { result ≡ new_line bytes.now }
{
    match bytes {
        [c, after @ ..] => {
            if *c == b'\n' {
                1
            } else if *c == b'\r' && begins(b'\n', after) {
                2
            } else {
                0
            }
        }
        [] => 0,
    }
}

#[tactic(auto, unfolding(crate::specs::Logical::gone_length))]
/// How many bytes go, from `first` on: a splice, or the carriage return of a new-line.
pub(crate) fn gone_length(first: u8, after: &[u8]) -> usize
    ensures answer { result ≡ gone first after.now }
    ensures bound { result ≤ length after.now + 1 }
{
    if first == b'\\' {
        let line_end = new_line_length(after);
        if line_end == 0 { 0 } else { line_end + 1 }
    } else if first == b'\r' && begins(b'\n', after) {
        1
    } else {
        0
    }
}

/// The first logical character of these bytes: the bytes from it on, its byte, and the bytes behind it.
pub(crate) fn first_character(bytes: &[u8]) -> Option<(&[u8], u8, &[u8])>
    ensures here { IfSome result (λ r. Passes 0 bytes.now r.0.now) }
    ensures first { IfSome result (λ r. IsFirst r.0.now r.1 r.2.now) }
    ensures none { MatchOption result (Passes 0 bytes.now []) (λ r. 1 ≤ length bytes.now) }
{
    let mut rest = bytes;
    while let [c, after @ ..] = rest {
        let gone = gone_length(*c, after);
        if gone == 0 {
            return Some((rest, *c, after));
        }
        let (_, left) = rest.split_at(gone);
        rest = left;
    }
    None
}

/// The byte of the first logical character, and the bytes behind it.
pub(crate) fn next(bytes: &[u8]) -> Option<(u8, &[u8])>
    ensures spelling { MatchOption result (spelled bytes.now ≡ []) (λ r. spelled bytes.now ≡ r.0 ∷ spelled r.1.now) }
    ensures behind { MatchOption result (Passes 0 bytes.now []) (λ r. Passes 1 bytes.now r.1.now) }
    ensures shorter { IfSome result (λ r. length r.1.now < length bytes.now) }
{
    let (_, first, after) = first_character(bytes)?;
    Some((first, after))
}

/// The bytes behind n logical characters.
pub(crate) fn behind(bytes: &[u8], n: usize) -> &[u8]
    ensures { Passes n bytes.now result.now }
{
    let mut rest = bytes;
    for k in 0..n {
        match next(rest) {
            Some((_, after)) => rest = after,
            None => return rest,
        }
    }
    rest
}

/// The first n bytes, where none of them can go: so they are the first n logical characters.
pub(crate) fn plain(bytes: &[u8], n: usize) -> Option<&[u8]>
    ensures { IfSome result (λ text. text.now ≡ take n (spelled bytes.now)) }
{
    if n > bytes.len() {
        return None;
    }
    let (text, _) = bytes.split_at(n);
    if all_stay(text) { Some(text) } else { None }
}

fn all_stay(text: &[u8]) -> bool
    ensures { result ≡ list_all cannot_go text.now }
{
    text.iter().all(|c| cannot_go(*c))
}

/// The first n logical characters, without offsets.
pub(crate) fn spelling(alloc: Global, bytes: &[u8], n: usize) -> Result<Vec<u8>, Memory>
    ensures { IfOk result (λ text. text.items ≡ take n (spelled bytes.now)) }
{
    let mut text = Vec::new(alloc);
    let mut rest = bytes;
    for k in 0..n {
        match next(rest) {
            Some((c, after)) => {
                text.push(c)?;
                rest = after;
            }
            None => return Ok(text),
        }
    }
    Ok(text)
}

/// Whether the logical text begins with this word.
pub(crate) fn begins_with(word: &[u8], bytes: &[u8]) -> bool
    ensures { result ≡ begins_with_word word.now (spelled bytes.now) }
{
    let mut letters = word;
    let mut rest = bytes;
    while let [w, more @ ..] = letters {
        match next(rest) {
            Some((c, after)) => {
                if c != *w {
                    return false;
                }
                rest = after;
            }
            None => return false,
        }
        letters = more;
    }
    true
}
