// The bytes and the atoms of a query.
ghost use Rattle.std.specs.Prelude.{◌≡◌, ◌<◌, ◌≤◌, ◌+◌, ◌^◌, IfErr, IfOk, IsTrue, codes, length};
ghost use Rattle.std.specs.List.{prefix_len, take_while};
ghost use Rattle.std.specs.Str.{bytes_eq};
ghost use Rattle.query_words.specs.Reading.{atom, attribute_read, begins_name, is_byte, is_of_pattern, is_small, pattern_read, word_of};
ghost use Rattle.query_words.specs.Steps.{IsCompiled, IsFault};

use crate::attributes::{Attribute, attribute_of};
use crate::faults::{QueryFault, QueryRefusal};
use crate::steps::{Step, push_step, spelled};
use std::alloc::Global;

/// Whether this byte stands at a place.
pub fn is_byte(text: &[u8], at: usize, byte: u8) -> bool
    ensures answer { result ≡ is_byte text.now at byte }
    ensures within { IsTrue result → at < length text.now }
{
    at < text.len() && text[at] == byte
}

fn is_small(byte: u8) -> bool
    ensures { result ≡ is_small byte }
{
    b'a' <= byte && byte <= b'z'
}

fn is_of_pattern(byte: u8) -> bool
    ensures { result ≡ is_of_pattern byte }
{
    is_small(byte)
        || b'A' <= byte && byte <= b'Z'
        || b'0' <= byte && byte <= b'9'
        || byte == b'_'
        || byte == b'*'
}

fn word_len(rest: &[u8]) -> usize
    ensures { result ≡ prefix_len is_small rest.now }
{
    rest.iter().take_while(|b| is_small(**b)).count()
}

// The letters at the front.
fn word_of(rest: &[u8]) -> &[u8]
    ensures { result.now ≡ word_of rest.now }
{
    let (word, _) = rest.split_at(word_len(rest));
    word
}

fn pattern_len(rest: &[u8]) -> usize
    ensures { result ≡ prefix_len is_of_pattern rest.now }
{
    rest.iter().take_while(|b| is_of_pattern(**b)).count()
}

// The pattern at the front.
fn pattern_of(rest: &[u8]) -> &[u8]
    ensures { result.now ≡ take_while is_of_pattern rest.now }
{
    let (pattern, _) = rest.split_at(pattern_len(rest));
    pattern
}

fn is_name(word: &[u8]) -> bool
    ensures { result ≡ bytes_eq word.now (codes "name") }
{
    word == b"name".as_slice()
}

// Whether `name=` stands at the front.
fn begins_name(rest: &[u8]) -> bool
    ensures answer { result ≡ begins_name rest.now }
    ensures within { IsTrue result → 5 ≤ length rest.now }
{
    is_name(word_of(rest)) && is_byte(rest, 4, b'=')
}

// What a spelling is held against, at the place of its first byte.
fn pattern_read(
    alloc: Global,
    at: usize,
    pattern: &[u8],
    steps: &mut Vec<Step>,
) -> Result<usize, QueryRefusal>
    requires few { at + length pattern.now < 2 ^ 32 }
    ensures answer { IfOk result (IsCompiled (pattern_read at pattern.now) steps.old.items steps.new.items) }
    ensures refused { IfErr result (IsFault (pattern_read at pattern.now)) }
    ensures within { IfOk result (λ next. next ≡ at + length pattern.now) }
{
    if pattern.is_empty() {
        return Err(QueryRefusal::Fault(QueryFault::Bad { at: at as u32 }));
    }
    push_step(steps, spelled(alloc, pattern)?)?;
    Ok(at + pattern.len())
}

// What an attribute says, at the place of its first letter.
fn attribute_read(
    at: usize,
    word: &[u8],
    found: Option<Attribute>,
    steps: &mut Vec<Step>,
) -> Result<usize, QueryRefusal>
    requires few { at + length word.now < 2 ^ 32 }
    ensures answer { IfOk result (IsCompiled (attribute_read at word.now found) steps.old.items steps.new.items) }
    ensures refused { IfErr result (IsFault (attribute_read at word.now found)) }
    ensures within { IfOk result (λ next. next ≡ at + length word.now) }
{
    match found {
        Some(attribute) => {
            push_step(steps, Step::Has(attribute))?;
            Ok(at + word.len())
        }
        None => Err(QueryRefusal::Fault(QueryFault::Bad { at: at as u32 })),
    }
}

/// The step of the atom that begins at a place, where this rest of the query begins; and the place behind it.
pub fn atom(
    alloc: Global,
    at: usize,
    rest: &[u8],
    steps: &mut Vec<Step>,
) -> Result<usize, QueryRefusal>
    requires few { at + length rest.now < 2 ^ 32 }
    ensures answer { IfOk result (IsCompiled (atom at rest.now) steps.old.items steps.new.items) }
    ensures refused { IfErr result (IsFault (atom at rest.now)) }
    ensures within { IfOk result (λ next. next ≤ at + length rest.now) }
{
    if begins_name(rest) {
        return pattern_read(alloc, at + 5, pattern_of(&rest[5..]), steps);
    }
    let word = word_of(rest);
    attribute_read(at, word, attribute_of(word), steps)
}
