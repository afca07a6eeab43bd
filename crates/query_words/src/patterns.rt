// Whether a pattern matches a spelling.
//
// The spelling is gone through from its end: marked are the places of the pattern from which it matches what was gone
// through. So a `*` is never tried twice at one byte, whatever follows it.
ghost use Rattle.std.specs.Prelude.{ℕ, List, [], ◌∷◌, ◌≡◌, ◌==◌, ◌<◌, ◌+◌, ◌&&◌, IfOk, filter, length};
ghost use Rattle.query_words.specs.Patterns.{matches, star};
ghost use Rattle.query_words.specs.Reading.{is_byte};
ghost use Rattle.query_words.specs.PlaceMarks.{AreAtEnd, MatchAlike, is_kept, with_byte, without_bytes};

use crate::atoms::is_byte;
use cs_base::Memory;
use std::alloc::Global;

// Whether a pattern that begins with a byte matches no byte at all, by whether what follows does.
fn without_bytes(c: u8, next: bool) -> bool
    ensures { result ≡ without_bytes c next }
{
    c == b'*' && next
}

// Whether it matches a byte and what follows that: by whether it matches what follows, whether its rest does, and
// whether its rest matches all.
fn with_byte(c: u8, byte: u8, here: bool, behind: bool, next: bool) -> bool
    ensures { result ≡ with_byte c byte here behind next }
{
    if c == b'*' {
        next || here
    } else {
        byte == c && behind
    }
}

// Marks the places from which the pattern matches no byte at all.
fn mark_none(pattern: &[u8], places: &mut [bool])
    requires { length pattern.now < length places.old }
    ensures { AreAtEnd pattern.now [] places.new }
{
    places[pattern.len()] = true;
    for k in (0..pattern.len()).rev() {
        places[k] = without_bytes(pattern[k], places[k + 1]);
    }
}

// Marks the places from which it matches one byte more, and what follows.
fn mark_byte(pattern: &[u8], byte: u8, places: &mut [bool])
    requires { length pattern.now < length places.old }
    ensures { (text : List ℕ) → AreAtEnd pattern.now text places.old → AreAtEnd pattern.now (byte ∷ text) places.new }
{
    // What stood at the place behind, before the byte.
    let mut behind = places[pattern.len()];
    places[pattern.len()] = false;
    for k in (0..pattern.len()).rev() {
        let here = places[k];
        places[k] = with_byte(pattern[k], byte, here, behind, places[k + 1]);
        behind = here;
    }
}

/// How many bytes of a pattern stand for themselves: what it matches has as many.
pub fn count_kept(pattern: &[u8]) -> usize
    ensures { result ≡ length (filter is_kept pattern.now) }
{
    pattern.iter().filter(|c| **c != b'*').count()
}

// Whether the pattern matches the whole text, by its places.
fn matches(pattern: &[u8], text: &[u8], places: &mut [bool]) -> bool
    requires { length pattern.now < length places.old }
    ensures { result ≡ matches pattern.now text.now }
{
    mark_none(pattern, places);
    for k in (0..text.len()).rev() {
        mark_byte(pattern, text[k], places);
    }
    places[0]
}

fn is_star(byte: u8) -> bool
    ensures { result ≡ (byte == star) }
{
    byte == b'*'
}

/// Whether the pattern matches the whole text: byte by byte up to the first `*`, and from there by places.
pub fn is_match(pattern: &[u8], text: &[u8], places: &mut [bool]) -> bool
    requires { length pattern.now < length places.old }
    ensures { result ≡ matches pattern.now text.now }
{
    for k in 0..pattern.len() {
        if is_star(pattern[k]) {
            return matches(&pattern[k..], &text[k..], places);
        }
        if !is_byte(text, k, pattern[k]) {
            return false;
        }
    }
    text.len() == pattern.len()
}

// Whether two `*` stand side by side at a place.
fn is_doubled(pattern: &[u8], at: usize) -> bool
    requires { at < length pattern.now }
    ensures { result ≡ (is_byte pattern.now at star && is_byte pattern.now (at + 1) star) }
{
    is_byte(pattern, at, b'*') && is_byte(pattern, at + 1, b'*')
}

/// The pattern without each `*` in front of another: it matches the same texts.
pub fn without_doubles(alloc: Global, pattern: &[u8]) -> Result<Vec<u8>, Memory>
    ensures { IfOk result (λ found. MatchAlike found.items pattern.now) }
{
    let mut found = Vec::new(alloc);
    for k in 0..pattern.len() {
        if !is_doubled(pattern, k) {
            found.push(pattern[k])?;
        }
    }
    Ok(found)
}
