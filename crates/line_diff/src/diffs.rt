// The diff of a file.
ghost use Rattle.std.specs.Prelude.{◌≡◌, ◌++◌, ◌==◌, OnOk};
ghost use Rattle.std.specs.List.{flat_map, list_any};
ghost use Rattle.cs_base.specs.Units.{begins_with, quote, space};
ghost use Rattle.line_diff.specs.FileText.{file_text, is_odd, name_text, names_text, quoted_byte, quoted_text, wants_quotes};

use crate::hunks::push_hunks;
use crate::lines::{is_same, lines};
use cs_base::Memory;
use std::alloc::Global;

/// Adds the diff of a file of this path, whose text `old` becomes `new`: nothing where it stays.
pub fn push_diff(
    alloc: Global,
    text: &mut Vec<u8>,
    path: &[u8],
    old: &[u8],
    new: &[u8],
) -> Result<(), Memory>
    ensures { OnOk result (text.new.items ≡ text.old.items ++ file_text path.now old.now new.now) }
{
    if is_same(old, new) {
        return Ok(());
    }
    let olds = lines(alloc, old)?;
    let news = lines(alloc, new)?;
    push_names(text, path)?;
    push_hunks(text, olds.as_slice(), news.as_slice())?;
    Ok(())
}

// Adds the two lines that name the file.
fn push_names(text: &mut Vec<u8>, path: &[u8]) -> Result<(), Memory>
    ensures { OnOk result (text.new.items ≡ text.old.items ++ names_text path.now) }
{
    text.extend_from_slice(b"--- ")?;
    push_name(text, path)?;
    text.extend_from_slice(b"\n+++ ")?;
    push_name(text, path)?;
    text.extend_from_slice(b"\n")?;
    Ok(())
}

// Adds the name of the file.
fn push_name(text: &mut Vec<u8>, path: &[u8]) -> Result<(), Memory>
    ensures { OnOk result (text.new.items ≡ text.old.items ++ name_text path.now) }
{
    if wants_quotes(path) {
        return push_quoted(text, path);
    }
    text.extend_from_slice(path)?;
    if has_blank(path) {
        text.push(b'\t')?;
    }
    Ok(())
}

// Whether the name stands between quotes.
fn wants_quotes(path: &[u8]) -> bool
    ensures { result ≡ wants_quotes path.now }
{
    begins_with_quote(path) || has_odd(path)
}

// Whether the name begins with a quote.
fn begins_with_quote(path: &[u8]) -> bool
    ensures { result ≡ begins_with (λ b. b == quote) path.now }
{
    match path.split_first() {
        Some((first, _)) => *first == b'"',
        None => false,
    }
}

// Whether the name has an odd byte.
fn has_odd(path: &[u8]) -> bool
    ensures { result ≡ list_any is_odd path.now }
{
    path.iter().any(|b| is_odd(*b))
}

// Whether the name has a blank.
fn has_blank(path: &[u8]) -> bool
    ensures { result ≡ list_any (λ b. b == space) path.now }
{
    path.iter().any(|b| *b == b' ')
}

// A byte that no line of a diff can have in a plain name.
fn is_odd(byte: u8) -> bool
    ensures { result ≡ is_odd byte }
{
    byte < 32 || byte == 127
}

// Adds the name between quotes.
fn push_quoted(text: &mut Vec<u8>, path: &[u8]) -> Result<(), Memory>
    ensures { OnOk result (text.new.items ≡ text.old.items ++ quoted_text path.now) }
{
    text.push(b'"')?;
    push_quoted_bytes(text, path)?;
    text.push(b'"')?;
    Ok(())
}

// Adds the bytes of a name between quotes.
fn push_quoted_bytes(text: &mut Vec<u8>, path: &[u8]) -> Result<(), Memory>
    ensures { OnOk result (text.new.items ≡ text.old.items ++ flat_map quoted_byte path.now) }
{
    for byte in path {
        push_quoted_byte(text, *byte)?;
    }
    Ok(())
}

// Adds a byte of a name between quotes: in three octal digits where it is not plain.
fn push_quoted_byte(text: &mut Vec<u8>, byte: u8) -> Result<(), Memory>
    ensures { OnOk result (text.new.items ≡ text.old.items ++ quoted_byte byte) }
{
    if is_odd(byte) || byte > 127 || byte == b'"' || byte == b'\\' {
        let digits = [
            b'\\',
            b'0' + byte / 64,
            b'0' + byte / 8 % 8,
            b'0' + byte % 8,
        ];
        text.extend_from_slice(&digits)?;
    } else {
        text.push(byte)?;
    }
    Ok(())
}
