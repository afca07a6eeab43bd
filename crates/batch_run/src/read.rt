// The lines of a file.
ghost use Rattle.std.specs.Prelude.{◌≡◌, ◌≤◌, ◌+◌, ◌++◌, ◌∷◌, [], IfOk, OnOk, OnSome, IsTrue, IsUtf8, length};
ghost use Rattle.std.specs.List.{list_all};
ghost use Rattle.std.specs.Str.{bytes_eq, is_utf8};
ghost use Rattle.cs_base.specs.Answer.{Gives};
ghost use Rattle.cs_base.specs.Limits.{most_bytes};
ghost use Rattle.batch_run.specs.Reading.{asked_by, batch_of, line_at, renaming_of, taken_with};
ghost use Rattle.batch_run.specs.Refusal.{bad_line_of};
ghost use Rattle.batch_run.specs.Taking.{texts_of};

use crate::batch_line::BatchLine;
use crate::line_parts::{first_line, without_return, words};
use crate::refusal::BatchRefusal;
use command_words::{is_number, number};
use cs_base::{MOST_BYTES, Memory, Text, normal_path};
use std::alloc::Global;
use std::str;

/// The lines of the batch file, or the number of the first bad one.
pub fn read_batch(alloc: Global, bytes: &[u8]) -> Result<Vec<BatchLine>, BatchRefusal>
    ensures answer { Gives (λ lines. lines.items) bad_line_of result (batch_of bytes.now) }
{
    let mut taken = Vec::new(alloc);
    let mut rest = bytes;
    let mut number: u32 = 1;
    let mut start: usize = 0;
    'lines: while !rest.is_empty() {
        let (line, more) = first_line(rest);
        take_line(alloc, &mut taken, bytes.len(), number, start, line)?;
        start = start + line.len() + 1;
        number += 1;
        rest = more;
    }
    Ok(taken)
}

// Takes the line of this number, or refuses it.
fn take_line(
    alloc: Global,
    taken: &mut Vec<BatchLine>,
    size: usize,
    number: u32,
    start: usize,
    line: &[u8],
) -> Result<(), BatchRefusal>
    ensures answer { Gives (λ _. taken.new.items) bad_line_of result (taken_with number taken.old.items (line_at size start line.now)) }
    ensures within { OnOk result (start + length line.now ≤ most_bytes) }
{
    match line_at(alloc, size, start, line)? {
        Some(value) => Ok(add(taken, value)?),
        None => Err(BatchRefusal::BadLine { line: number }),
    }
}

fn add(taken: &mut Vec<BatchLine>, value: BatchLine) -> Result<(), Memory>
    ensures { OnOk result (taken.new.items ≡ taken.old.items ++ value ∷ []) }
{
    taken.push(value)?;
    Ok(())
}

#[tactic(auto, unfolding(crate::specs::Reading::line_at))]
// The line that begins at this byte of a file of this size; none where it is bad.
fn line_at(
    alloc: Global,
    size: usize,
    start: usize,
    line: &[u8],
) -> Result<Option<BatchLine>, Memory>
    ensures answer { IfOk result (λ value. value ≡ line_at size start line.now) }
    ensures within { IfOk result (λ value. OnSome value (start + length line.now ≤ most_bytes)) }
{
    if start > MOST_BYTES || line.len() > MOST_BYTES - start {
        return Ok(None);
    }
    if !is_utf8(line) {
        return Ok(None);
    }
    let ended = start + line.len() < size;
    let words = words(alloc, without_return(line, ended))?;
    asked_by(alloc, words.as_slice())
}

// The rename that these words ask for, if they do.
fn asked_by(alloc: Global, words: &[&[u8]]) -> Result<Option<BatchLine>, Memory>
    requires { IsTrue (list_all is_utf8 (texts_of words.now)) }
    ensures { IfOk result (λ value. value ≡ asked_by (texts_of words.now)) }
{
    if words.len() == 6 {
        return asked_with_strings(alloc, words);
    }
    if words.len() != 5 {
        return Ok(None);
    }
    if !is_text(words[0], b"rename") {
        return Ok(None);
    }
    renaming_of(alloc, words[1], words[2], words[3], words[4], false)
}

// The same of six words.
fn asked_with_strings(alloc: Global, words: &[&[u8]]) -> Result<Option<BatchLine>, Memory>
    requires six { length words.now ≡ 6 }
    requires text { IsTrue (list_all is_utf8 (texts_of words.now)) }
    ensures { IfOk result (λ value. value ≡ asked_by (texts_of words.now)) }
{
    let asks = is_text(words[0], b"rename");
    let follows = is_text(words[5], b"strings");
    if !asks {
        return Ok(None);
    }
    if !follows {
        return Ok(None);
    }
    renaming_of(alloc, words[1], words[2], words[3], words[4], true)
}

// The rename of these words, if its path and its name are there and its numbers are numbers.
fn renaming_of(
    alloc: Global,
    path: &[u8],
    line: &[u8],
    column: &[u8],
    name: &[u8],
    strings: bool,
) -> Result<Option<BatchLine>, Memory>
    requires { IsUtf8 path.now }
    ensures { IfOk result (λ value. value ≡ renaming_of path.now line.now column.now name.now strings) }
{
    if path.is_empty() || !is_number(line) || !is_number(column) || name.is_empty() {
        return Ok(None);
    }
    let path = normal_path(alloc, path)?;
    let name = Text::new(alloc, name)?;
    Ok(Some(BatchLine::new(path, number(line), number(column), name, strings)))
}

// UTF-8.
fn is_utf8(text: &[u8]) -> bool
    ensures { result ≡ is_utf8 text.now }
{
    match str::from_utf8(text) {
        Ok(_) => true,
        Err(_) => false,
    }
}

// The same bytes.
fn is_text(text: &[u8], other: &[u8]) -> bool
    ensures { result ≡ bytes_eq text.now other.now }
{
    text == other
}
