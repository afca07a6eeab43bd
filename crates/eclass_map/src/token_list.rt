// The added tokens in the order of their places, and which of them holds a character.
ghost use Rattle.std.specs.Prelude.{ℕ, ◌≡◌, ◌+◌, ◌^◌, ◌<◌, ◌⊎◌, ◌≤◌, length, Some, true, false, slice_get, slice_index_or, IfOk};
ghost use Rattle.eclass_map.specs.Positions.{along, holds, index_at, number_of, begins_by, AreTokens};
ghost use Rattle.eclass_map.specs.Settled.{no_text, settled, settled_token, AreNumbered, AreApart, ArePlaced, Fits};

use crate::file_hints::hint;
use cs_base::{Memory, Part, Pos};
use std::alloc::Global;

/// An added token: its characters in the file, and the number of the first of them.
#[derive(Clone, Copy, Drop)]
pub struct Added {
    pub place: Part,
    pub first: u32,
}

/// The number of a character, by halving the tokens of its file: none where no token holds it.
pub fn find(tokens: &[Added], files: &[usize], pos: Pos) -> Option<u32>
    requires { AreTokens tokens.now }
    ensures { result ≡ index_at tokens.now pos }
{
    let count = count_begun(tokens, files, pos);
    if count == 0 {
        return None;
    }
    let token = tokens[count - 1];
    if part_holds(token.place, pos) {
        Some(token.first + (pos.at - token.place.start.at))
    } else {
        None
    }
}

/// The number of the origin of a character, 0 where it has none; the token with the index is tried first.
pub fn number(tokens: &[Added], files: &[usize], origin: Option<Pos>, guess: usize) -> u32
    requires { AreTokens tokens.now }
    ensures { result ≡ number_of tokens.now origin }
{
    match origin {
        Some(pos) => find_near(tokens, files, pos, guess).unwrap_or(0),
        None => 0,
    }
}

/// The same, where the token with the index is tried first.
pub fn find_near(tokens: &[Added], files: &[usize], pos: Pos, guess: usize) -> Option<u32>
    requires { AreTokens tokens.now }
    ensures { result ≡ index_at tokens.now pos }
{
    if guess < tokens.len() {
        let token = tokens[guess];
        if part_holds(token.place, pos) {
            return Some(token.first + (pos.at - token.place.start.at));
        }
    }
    find(tokens, files, pos)
}

/// How many tokens begin at the character or before it. Only those of its file are halved, if the hints are right.
pub fn count_begun(tokens: &[Added], files: &[usize], pos: Pos) -> usize
    requires { AreTokens tokens.now }
    ensures within { result ≤ length tokens.now }
    ensures before { (k : ℕ) (r : Added) → k < result → slice_get tokens.now k ≡ Some r → begins_by r pos ≡ true }
    ensures behind { (k : ℕ) (r : Added) → result ≤ k → slice_get tokens.now k ≡ Some r → begins_by r pos ≡ false }
{
    let mut low = first_to_halve(tokens, files, pos);
    let mut high = end_to_halve(tokens, files, pos);
    while low < high {
        let middle = low + (high - low) / 2;
        if has_begun(tokens[middle], pos) {
            low = middle + 1;
        } else {
            high = middle;
        }
    }
    low
}

// Where halving begins: behind all, if the last has begun, else where the file's tokens are thought to begin, if those
// in front have begun.
fn first_to_halve(tokens: &[Added], files: &[usize], pos: Pos) -> usize
    requires { AreTokens tokens.now }
    ensures within { result ≤ length tokens.now }
    ensures before { (k : ℕ) (r : Added) → k < result → slice_get tokens.now k ≡ Some r → begins_by r pos ≡ true }
{
    let count = tokens.len();
    if 0 < count && has_begun(tokens[count - 1], pos) {
        return count;
    }
    let low = hint(files, pos.file as usize, tokens.len());
    if 0 < low && low <= tokens.len() && has_begun(tokens[low - 1], pos) {
        low
    } else {
        0
    }
}

// Where halving ends: where the next file's tokens are thought to begin, if they have not begun.
fn end_to_halve(tokens: &[Added], files: &[usize], pos: Pos) -> usize
    requires { AreTokens tokens.now }
    ensures within { result ≤ length tokens.now }
    ensures behind { (k : ℕ) (r : Added) → result ≤ k → slice_get tokens.now k ≡ Some r → begins_by r pos ≡ false }
{
    let high = hint(files, pos.file as usize + 1, tokens.len());
    if high < tokens.len() && !has_begun(tokens[high], pos) {
        high
    } else {
        tokens.len()
    }
}

fn has_begun(token: Added, pos: Pos) -> bool
    ensures { result ≡ begins_by token pos }
{
    let start = token.place.start;
    start.file < pos.file || (start.file == pos.file && start.at <= pos.at)
}

/// Whether the part holds the character.
pub fn part_holds(part: Part, pos: Pos) -> bool
    ensures { result ≡ holds part pos }
{
    part.start.file == pos.file && (part.start.at <= pos.at && pos.at - part.start.at < part.len)
}

/// The tokens once their characters have other numbers: the gaps between them stay.
pub fn settle(alloc: Global, tokens: &[Added], numbers: &[u32]) -> Result<Vec<Added>, Memory>
    requires tokens { AreTokens tokens.now }
    requires numbers { AreNumbered tokens.now numbers.now }
    requires within { Fits tokens.now }
    requires fits { Fits (settled numbers.now no_text 0 tokens.now) }
    ensures { IfOk result (λ all. all.items ≡ settled numbers.now no_text 0 tokens.now) }
{
    let mut all = Vec::with_capacity(alloc, tokens.len())?;
    let mut from = Pos { file: 0, at: 0 };
    let mut to = 0;
    for index in 0..tokens.len() {
        let token = settled_one(tokens[index], numbers, from, to);
        all.push(token).unwrap();
        from = end_of(tokens[index].place);
        to = token.place.start.at + token.place.len;
    }
    Ok(all)
}

// A token, where the one before it ended at `from` and now ends at `to`.
fn settled_one(token: Added, numbers: &[u32], from: Pos, to: u32) -> Added
    requires first { (x : ℕ) × (slice_get numbers.now token.first ≡ Some x) }
    requires ends { (y : ℕ) × (slice_get numbers.now (token.first + token.place.len) ≡ Some y) }
    requires grows { slice_index_or numbers.now token.first 0 ≤ slice_index_or numbers.now (token.first + token.place.len) 0 }
    requires numbered { token.first + token.place.len < 2 ^ 32 }
    requires behind { from.file ≡ token.place.start.file → from.at ≤ token.place.start.at }
    requires fits { (settled_token numbers.now from to token).place.start.at < 2 ^ 32 }
    ensures { result ≡ settled_token numbers.now from to token }
{
    let place = token.place;
    let at = if place.start.file == from.file {
        to + (place.start.at - from.at)
    } else {
        place.start.at
    };
    let first = numbers[token.first as usize];
    let behind = numbers[(token.first + place.len) as usize];
    Added {
        place: Part {
            start: Pos {
                file: place.start.file,
                at,
            },
            len: behind - first,
        },
        first,
    }
}

// The character behind a part.
fn end_of(part: Part) -> Pos
    requires { part.start.at + part.len < 2 ^ 32 }
    ensures { result ≡ along part.start part.len }
{
    Pos {
        file: part.start.file,
        at: part.start.at + part.len,
    }
}

/// The positions of the characters of the tokens, by their numbers; `count` is how many there are.
pub fn place_tokens(alloc: Global, tokens: &[Added], count: u32) -> Result<Vec<Pos>, Memory>
    requires within { (k : ℕ) (r : Added) → slice_get tokens.now k ≡ Some r → r.first + r.place.len ≤ count }
    requires fits { Fits tokens.now }
    requires apart { AreApart tokens.now }
    ensures long { IfOk result (λ places. length places.items ≡ count) }
    ensures placed { IfOk result (λ places. ArePlaced tokens.now places.items) }
{
    let mut places = vec![in alloc; Pos { file: 0, at: 0 }; count as usize]?;
    for index in 0..tokens.len() {
        write_places(&mut places, tokens[index]);
    }
    Ok(places)
}

// The positions of the characters of a token.
fn write_places(places: &mut [Pos], token: Added)
    requires within { token.first + token.place.len ≤ length places.old }
    requires fits { token.place.start.at + token.place.len < 2 ^ 32 }
    ensures long { length places.new ≡ length places.old }
    ensures placed { (o : ℕ) → o < token.place.len → slice_get places.new (token.first + o) ≡ Some (along token.place.start o) }
    ensures others { (i : ℕ) → (i < token.first) ⊎ (token.first + token.place.len ≤ i) → slice_get places.new i ≡ slice_get places.old i }
{
    let start = token.place.start;
    for offset in 0..token.place.len {
        places[token.first as usize + offset as usize] = Pos {
            file: start.file,
            at: start.at + offset,
        };
    }
}

/// Which token holds the origin of a character, by a search: any number where none does.
pub fn near(tokens: &[Added], files: &[usize], origin: Option<Pos>) -> usize
    requires { AreTokens tokens.now }
{
    match origin {
        Some(pos) => count_begun(tokens, files, pos).saturating_sub(1),
        None => 0,
    }
}

/// The same; so many tokens from the guess on are tried first.
pub fn near_from(tokens: &[Added], files: &[usize], origin: Option<Pos>, guess: usize) -> usize
    requires { AreTokens tokens.now }
{
    match origin {
        Some(pos) => match tried(tokens, pos, guess) {
            Some(index) => index,
            None => near(tokens, files, origin),
        },
        None => 0,
    }
}

// The first of eight tokens from the guess on that holds the character.
fn tried(tokens: &[Added], pos: Pos, guess: usize) -> Option<usize> {
    for more in 0..8 {
        let index = guess.saturating_add(more);
        if index < tokens.len() && part_holds(tokens[index].place, pos) {
            return Some(index);
        }
    }
    None
}
