// The lines of a text.
ghost use Rattle.std.specs.Prelude.{◌≡◌, ◌<◌, ◌≤◌, ◌∷◌, IfOk, length, take, drop};
ghost use Rattle.std.specs.List.{prefix_len};
ghost use Rattle.std.specs.Str.{bytes_eq};
ghost use Rattle.line_diff.specs.Lines.{is_no_feed, lines_of};
ghost use Rattle.line_diff.specs.Pairs.{texts_of};

use cs_base::Memory;
use std::alloc::Global;

/// The lines of a text, each with its line feed.
pub(crate) fn lines(alloc: Global, text: &[u8]) -> Result<Vec<&[u8]>, Memory>
    ensures { IfOk result (λ lines. texts_of lines.items ≡ lines_of text.now) }
{
    let mut lines = Vec::new(alloc);
    let mut rest = text;
    while !rest.is_empty() {
        let (line, more) = rest.split_at(line_len(rest));
        lines.push(line)?;
        rest = more;
    }
    Ok(lines)
}

// How many bytes the first line has, its line feed among them.
fn line_len(text: &[u8]) -> usize
    requires { 0 < length text.now }
    ensures within { result ≤ length text.now }
    ensures some { 0 < result }
    ensures first { lines_of text.now ≡ take result text.now ∷ lines_of (drop result text.now) }
{
    let before = feed_at(text);
    if before < text.len() {
        before + 1
    } else {
        before
    }
}

// How many bytes stand before the first line feed.
fn feed_at(text: &[u8]) -> usize
    ensures { result ≡ prefix_len is_no_feed text.now }
{
    text.iter().take_while(|b| **b != b'\n').count()
}

/// Whether two texts are the same.
pub(crate) fn is_same(old: &[u8], new: &[u8]) -> bool
    ensures { result ≡ bytes_eq old.now new.now }
{
    old == new
}
