// Integer character constants (6.4.4.4).
ghost use Rattle.std.specs.Prelude.{◌≡◌, ◌<◌, ◌≤◌, ◌+◌, length, IfSome};
ghost use Rattle.cond_eval.specs.IntegerConstant.{digits_onto};
ghost use Rattle.cond_eval.specs.CharConstant.{simple_escapes, character_in, byte_of, digits_escape, escape, element, is_closing, elements_onto, in_quotes, behind_prefix, char_constant, room_of};

use crate::integer_constant::{digit_of, digits_len, digits_value};
use crate::integers::Integer;

#[tactic(auto, unfolding(crate::specs::CharConstant::char_constant))]
/// The character constant with this spelling, if it has one to four elements.
pub fn char_constant(text: &[u8]) -> Option<Integer>
    ensures { result ≡ char_constant text.now }
{
    match behind_prefix(text) {
        Some(value) => Some(Integer::Signed(i64::from(value))),
        None => None,
    }
}

fn behind_prefix(text: &[u8]) -> Option<u32>
    ensures { result ≡ behind_prefix text.now }
{
    match text {
        [b'L', quoted @ ..] => in_quotes(quoted),
        _ => in_quotes(text),
    }
}

fn in_quotes(text: &[u8]) -> Option<u32>
    ensures { result ≡ in_quotes text.now }
{
    match text {
        [b'\'', elements @ ..] if !is_closing(elements) => elements_onto(4, 0, elements),
        _ => None,
    }
}

fn is_closing(text: &[u8]) -> bool
    ensures { result ≡ is_closing text.now }
{
    text == b"'".as_slice()
}

// The value of the elements up to the closing quote, at most `left`.
fn elements_onto(left: u8, sofar: u32, text: &[u8]) -> Option<u32>
    requires few { left ≤ 4 }
    requires room { sofar < room_of left }
    ensures { result ≡ elements_onto left sofar text.now }
{
    if is_closing(text) {
        return Some(sofar);
    }
    if left == 0 {
        return None;
    }
    let (value, len) = element(text)?;
    elements_onto(left - 1, sofar * 256 + u32::from(value), &text[len..])
}

#[tactic(auto, unfolding(crate::specs::CharConstant::element))]
// The value of the first element, and how many bytes it has.
fn element(text: &[u8]) -> Option<(u8, usize)>
    ensures answer { result ≡ element text.now }
    ensures within { IfSome result (λ e. e.1 ≤ length text.now) }
{
    match text {
        [b'\\', behind @ ..] => escape(behind),
        [b'\'', ..] | [] => None,
        [c, ..] => Some((*c, 1)),
    }
}

fn escape(text: &[u8]) -> Option<(u8, usize)>
    ensures answer { result ≡ escape text.now }
    ensures within { IfSome result (λ e. e.1 ≤ 1 + length text.now) }
{
    match text {
        [] => None,
        [b'x', digits @ ..] => digits_escape(2, 16, &digits[..digits_len(16, digits)]),
        [c, ..] if digit_of(*c) < 8 => {
            let len = digits_len(8, text).min(3);
            digits_escape(1, 8, &text[..len])
        }
        [c, ..] => match character(*c) {
            Some(value) => Some((value, 2)),
            None => None,
        },
    }
}

fn digits_escape(head: usize, base: u8, digits: &[u8]) -> Option<(u8, usize)>
    requires short { head < 3 }
    requires positive { 0 < base }
    ensures { result ≡ digits_escape head base digits.now }
{
    if digits.is_empty() {
        return None;
    }
    match byte_value(base, digits) {
        Some(value) => Some((value, head + digits.len())),
        None => None,
    }
}

fn byte_value(base: u8, digits: &[u8]) -> Option<u8>
    requires { 0 < base }
    ensures { result ≡ byte_of (digits_onto base 0 digits.now) }
{
    match digits_value(base, digits) {
        Some(value) if value < 256 => Some(value as u8),
        _ => None,
    }
}

fn character(c: u8) -> Option<u8>
    ensures { result ≡ character_in simple_escapes c }
{
    match c {
        b'\'' | b'"' | b'?' | b'\\' => Some(c),
        b'a' => Some(7),
        b'b' => Some(8),
        b'f' => Some(12),
        b'n' => Some(10),
        b'r' => Some(13),
        b't' => Some(9),
        b'v' => Some(11),
        _ => None,
    }
}
