// Tests of texts.
ghost use Rattle.std.specs.Prelude.{◌≡◌, ◌==◌, ◌-◌, ◌≤◌, ◌||◌, not, nat_le};
ghost use Rattle.std.specs.Option.{SomeIff};
ghost use Rattle.std.specs.List.{list_all};
ghost use Rattle.std.specs.Char.{is_ascii_digit};
ghost use Rattle.std.specs.Str.{bytes_eq, is_utf8};
ghost use Rattle.cs_base.specs.Limits.{most_defines};
ghost use Rattle.cs_base.specs.Units.{backslash, quote, less_sign, begins_with, ends_with, has_bad_ends, is_blank, is_nondigit, is_identifier, defines_fit};
ghost use Rattle.ws_file.specs.Reading.{number_sign, is_bad_path, is_bad_include, is_comment};
ghost use Rattle.ws_file.specs.Taking.{setting_len, include_len, lengths, fixed_len};

use cs_base::{Setting, Standard, Text};
use std::str;

/// A space, a tab or a carriage return.
pub fn is_blank(byte: u8) -> bool
    ensures { result ≡ is_blank byte }
{
    byte == b' ' || byte == b'\t' || byte == b'\r'
}

/// A text that begins with a blank.
fn begins_with_blank(text: &[u8]) -> bool
    ensures { result ≡ begins_with is_blank text.now }
{
    match text.split_first() {
        Some((first, _)) => is_blank(*first),
        None => false,
    }
}

/// A text that ends with a blank.
fn ends_with_blank(text: &[u8]) -> bool
    ensures { result ≡ ends_with is_blank text.now }
{
    match text.split_last() {
        Some((last, _)) => is_blank(*last),
        None => false,
    }
}

/// A text that ends with a backslash.
pub fn ends_with_backslash(text: &[u8]) -> bool
    ensures { result ≡ ends_with (λ b. b == backslash) text.now }
{
    match text.split_last() {
        Some((last, _)) => *last == b'\\',
        None => false,
    }
}

/// Has a blank at its first or last byte, or a backslash at its last.
pub fn has_bad_ends(text: &[u8]) -> bool
    ensures { result ≡ has_bad_ends text.now }
{
    begins_with_blank(text) || ends_with_blank(text) || ends_with_backslash(text)
}

/// A text that begins with this byte.
fn begins_with_byte(text: &[u8], byte: u8) -> bool
    ensures { result ≡ begins_with (λ b. b == byte) text.now }
{
    match text.split_first() {
        Some((first, _)) => *first == byte,
        None => false,
    }
}

/// A path that no unit may have: empty, like that of a pseudo file, or with bad ends.
pub fn is_bad_path(path: &[u8]) -> bool
    ensures { result ≡ is_bad_path path.now }
{
    is_text(path, b"") || begins_with_byte(path, b'<') || has_bad_ends(path)
}

/// A path that no include line can name.
pub fn is_bad_include(path: &[u8]) -> bool
    ensures { result ≡ is_bad_include path.now }
{
    is_bad_path(path) || !has_no_quote(path)
}

fn has_no_quote(path: &[u8]) -> bool
    ensures { result ≡ list_all (λ b. not (b == quote)) path.now }
{
    path.iter().all(|b| *b != b'"')
}

/// A line that says nothing.
pub fn is_comment(text: &[u8]) -> bool
    ensures { result ≡ is_comment text.now }
{
    is_text(text, b"") || begins_with_byte(text, b'#')
}

/// One word.
pub fn is_one_word(text: &[u8]) -> bool
    ensures { result ≡ list_all (λ b. not (is_blank b)) text.now }
{
    text.iter().all(|b| !is_blank(*b))
}

fn is_nondigit(byte: u8) -> bool
    ensures { result ≡ is_nondigit byte }
{
    byte.is_ascii_alphabetic() || byte == b'_'
}

/// A text that begins with a letter or `_`.
pub fn begins_with_nondigit(text: &[u8]) -> bool
    ensures { result ≡ begins_with is_nondigit text.now }
{
    match text.split_first() {
        Some((first, _)) => is_nondigit(*first),
        None => false,
    }
}

/// An identifier (ISO/IEC 9899:1999, 6.4.2.1).
pub fn is_identifier(name: &[u8]) -> bool
    ensures { result ≡ is_identifier name.now }
{
    begins_with_nondigit(name) && has_only_word_bytes(name)
}

fn has_only_word_bytes(name: &[u8]) -> bool
    ensures { result ≡ list_all (λ c. is_nondigit c || is_ascii_digit c) name.now }
{
    name.iter().all(|c| is_nondigit(*c) || c.is_ascii_digit())
}

/// UTF-8.
pub fn is_utf8(text: &[u8]) -> bool
    ensures { result ≡ is_utf8 text.now }
{
    match str::from_utf8(text) {
        Ok(_) => true,
        Err(_) => false,
    }
}

/// The same bytes.
pub fn is_text(text: &[u8], other: &[u8]) -> bool
    ensures { result ≡ bytes_eq text.now other.now }
{
    text == other
}

// What 2^16 bytes leave to a unit of this standard behind the fixed lines of its pseudo file.
fn room_of(standard: Standard) -> usize
    ensures { result ≡ most_defines - fixed_len standard }
{
    if standard.is_gnu() {
        65536 - 243
    } else {
        65536 - 137
    }
}

/// The pseudo file of the settings and first includes has no more than 2^16 bytes.
pub fn defines_fit(standard: Standard, settings: &[Setting], includes: &[Text]) -> bool
    ensures { result ≡ defines_fit standard settings.now includes.now }
{
    match room_after_settings(room_of(standard), settings) {
        Some(room) => includes_fit(room, includes),
        None => false,
    }
}

// The include lines of these files fit into the room.
fn includes_fit(room: usize, includes: &[Text]) -> bool
    ensures { result ≡ nat_le (lengths include_len includes.now) room }
{
    match room_after_includes(room, includes) {
        Some(_) => true,
        None => false,
    }
}

// The room that is left behind the settings' lines.
fn room_after_settings(room: usize, settings: &[Setting]) -> Option<usize>
    ensures { SomeIff result (lengths setting_len settings.now ≤ room) (room - lengths setting_len settings.now) }
{
    let mut left = room;
    for setting in settings {
        left = room_after(left, setting)?;
    }
    Some(left)
}

// The room that is left behind the setting's line.
fn room_after(room: usize, setting: &Setting) -> Option<usize>
    ensures { SomeIff result (setting_len setting.now ≤ room) (room - setting_len setting.now) }
{
    let left = match setting {
        Setting::Define(rest) => room.checked_sub(9)?.checked_sub(rest.bytes().len())?,
        Setting::Undefine(name) => room.checked_sub(8)?.checked_sub(name.bytes().len())?,
    };
    Some(left)
}

// The room that is left behind the include lines of these files.
fn room_after_includes(room: usize, includes: &[Text]) -> Option<usize>
    ensures { SomeIff result (lengths include_len includes.now ≤ room) (room - lengths include_len includes.now) }
{
    let mut left = room;
    for path in includes {
        left = room_after_include(left, path.bytes())?;
    }
    Some(left)
}

// The room that is left behind the include line of a file.
fn room_after_include(room: usize, path: &[u8]) -> Option<usize>
    ensures { SomeIff result (include_len path.now ≤ room) (room - include_len path.now) }
{
    room.checked_sub(12)?.checked_sub(path.len())
}
