// Integer constants (6.4.4.1).
ghost use Rattle.std.specs.Prelude.{◌≡◌, ◌<◌, ◌≤◌, ◌+◌, ◌*◌, IsTrue, length};
ghost use Rattle.std.specs.List.{list_any, prefix_len};
ghost use Rattle.std.specs.Str.{bytes_eq};
ghost use Rattle.cond_eval.specs.IntegerConstant.{digit_of, is_digit, digits_onto, word_of, long_suffixes, unsigned_suffixes, long_unsigned_suffixes, suffixed, constant_in, is_hexadecimal, integer_constant};

use crate::integers::Integer;

#[tactic(auto, unfolding(crate::specs::IntegerConstant::integer_constant))]
/// The integer constant with this spelling, if it is one and some type holds it.
pub fn integer_constant(text: &[u8]) -> Option<Integer>
    ensures { result ≡ integer_constant text.now }
{
    if is_hexadecimal(text) {
        constant_in(16, &text[2..])
    } else if text.starts_with(b"0") {
        constant_in(8, text)
    } else {
        constant_in(10, text)
    }
}

/// The value of a digit of a base up to 16, or 16 for another character.
pub fn digit_of(c: u8) -> u8
    ensures { result ≡ digit_of c }
{
    match c {
        b'0'..=b'9' => c - b'0',
        b'a'..=b'f' => c - b'a' + 10,
        b'A'..=b'F' => c - b'A' + 10,
        _ => 16,
    }
}

/// How many digits of the base the text begins with.
pub fn digits_len(base: u8, text: &[u8]) -> usize
    ensures { result ≡ prefix_len (is_digit base) text.now }
{
    text.iter().take_while(|c| digit_of(**c) < base).count()
}

/// The number that the digits stand for, if it is below 2^64.
pub fn digits_value(base: u8, digits: &[u8]) -> Option<u64>
    requires { 0 < base }
    ensures { result ≡ word_of (digits_onto base 0 digits.now) }
{
    let mut value = 0;
    for digit in digits {
        value = with_digit(base, value, *digit)?;
    }
    Some(value)
}

fn with_digit(base: u8, value: u64, digit: u8) -> Option<u64>
    ensures { result ≡ word_of (value * base + digit_of digit) }
{
    value
        .checked_mul(u64::from(base))?
        .checked_add(u64::from(digit_of(digit)))
}

fn is_hexadecimal(text: &[u8]) -> bool
    ensures prefix { result ≡ is_hexadecimal text.now }
    ensures room { IsTrue result → 2 ≤ length text.now }
{
    text.starts_with(b"0x") || text.starts_with(b"0X")
}

fn constant_in(base: u8, text: &[u8]) -> Option<Integer>
    requires { 0 < base }
    ensures { result ≡ constant_in base text.now }
{
    let len = digits_len(base, text);
    if len == 0 {
        return None;
    }
    match digits_value(base, &text[..len]) {
        Some(value) => suffixed(&text[len..], value),
        None => None,
    }
}

fn suffixed(suffix: &[u8], value: u64) -> Option<Integer>
    ensures { result ≡ suffixed suffix.now value }
{
    if is_long(suffix) {
        if value <= i64::MAX as u64 {
            Some(Integer::Signed(value as i64))
        } else {
            Some(Integer::Unsigned(value))
        }
    } else if is_unsigned(suffix) || is_long_unsigned(suffix) {
        Some(Integer::Unsigned(value))
    } else {
        None
    }
}

fn is_one_of(text: &[u8], words: &[&[u8]]) -> bool
    ensures { result ≡ list_any (λ word. bytes_eq text.now word.now) words.now }
{
    words.iter().any(|word| text == *word)
}

fn is_long(suffix: &[u8]) -> bool
    ensures { result ≡ list_any (bytes_eq suffix.now) long_suffixes }
{
    is_one_of(suffix, &[b"", b"l", b"L", b"ll", b"LL"])
}

fn is_unsigned(suffix: &[u8]) -> bool
    ensures { result ≡ list_any (bytes_eq suffix.now) unsigned_suffixes }
{
    is_one_of(
        suffix,
        &[
            b"u", b"ul", b"uL", b"ull", b"uLL", b"U", b"Ul", b"UL", b"Ull", b"ULL",
        ],
    )
}

fn is_long_unsigned(suffix: &[u8]) -> bool
    ensures { result ≡ list_any (bytes_eq suffix.now) long_unsigned_suffixes }
{
    is_one_of(
        suffix,
        &[b"lu", b"Lu", b"llu", b"LLu", b"lU", b"LU", b"llU", b"LLU"],
    )
}
