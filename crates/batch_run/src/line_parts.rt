// The lines of a batch file and the words in them.
ghost use Rattle.std.specs.Prelude.{◌≡◌, ◌<◌, ◌∷◌, ◌==◌, IfOk, length};
ghost use Rattle.std.specs.List.{prefix_len};
ghost use Rattle.ws_file.specs.Lines.{lines_of};
ghost use Rattle.batch_run.specs.Reading.{words_of, without_return};
ghost use Rattle.batch_run.specs.Taking.{is_no_feed, texts_of};

use cs_base::Memory;
use std::alloc::Global;

/// The first line, and what follows its line feed.
pub fn first_line(bytes: &[u8]) -> (&[u8], &[u8])
    requires { 0 < length bytes.now }
    ensures lines { lines_of bytes.now ≡ result.0.now ∷ lines_of result.1.now }
    ensures shorter { length result.1.now < length bytes.now }
{
    let (line, after) = bytes.split_at(line_len(bytes));
    match after.split_first() {
        Some((_, more)) => (line, more),
        None => (line, after),
    }
}

fn line_len(bytes: &[u8]) -> usize
    ensures { result ≡ prefix_len is_no_feed bytes.now }
{
    bytes.iter().take_while(|b| **b != b'\n').count()
}

/// The line without the carriage return at its end, where a line feed ended it.
pub fn without_return(line: &[u8], ended: bool) -> &[u8]
    ensures { result.now ≡ without_return ended line.now }
{
    if !ended {
        return line;
    }
    match line.split_last() {
        Some((last, front)) if *last == b'\r' => front,
        _ => line,
    }
}

/// The words of a line.
pub fn words(alloc: Global, line: &[u8]) -> Result<Vec<&[u8]>, Memory>
    ensures { IfOk result (λ words. texts_of words.items ≡ words_of line.now) }
{
    let mut words = Vec::new(alloc);
    for word in line.split(|b| *b == b' ') {
        words.push(word)?;
    }
    Ok(words)
}
