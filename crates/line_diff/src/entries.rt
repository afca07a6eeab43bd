// The entries of a hunk, line by line.
ghost use Rattle.std.specs.Prelude.{◌≡◌, ◌+◌, ◌<◌, ◌≤◌, ◌++◌, [], map, length, slice_range, IfOk, OnOk};
ghost use Rattle.std.specs.List.{flat_map};
ghost use Rattle.line_diff.specs.FileText.{entry_text, has_feed, note_text, signed};
ghost use Rattle.line_diff.specs.Hunks.{entries_of, gets};
ghost use Rattle.line_diff.specs.Pairs.{IsRowTold, gain_at, kept_at, loss_at, rows_in, texts_of};

use crate::rows::is_changed;
use cs_base::Memory;

/// Adds the entries of the rows from `k` to before `end`.
pub(crate) fn push_entries(
    text: &mut Vec<u8>,
    olds: &[&[u8]],
    news: &[&[u8]],
    k: usize,
    end: usize,
) -> Result<(), Memory>
    requires in_order { k ≤ end }
    requires within { end ≤ length (rows_in olds.now news.now) }
    ensures { OnOk result (text.new.items ≡ text.old.items ++ flat_map entry_text (entries_of [] (slice_range (rows_in olds.now news.now) k end))) }
{
    // From this row on the lines of the new text are not told yet.
    let mut told = k;
    for j in k..end {
        told = push_row(text, olds, news, told, j, j + 1)?;
    }
    push_gains(text, news, told, end)?;
    Ok(())
}

// Adds the entries of row `j`, with `next` behind it, where the lines of the new text from the row `told` on are not told; gives the
// row from which on they are not told then. Where the texts differ, the line of the new one waits.
fn push_row(
    text: &mut Vec<u8>,
    olds: &[&[u8]],
    news: &[&[u8]],
    told: usize,
    j: usize,
    next: usize,
) -> Result<usize, Memory>
    requires in_order { told ≤ j }
    requires follows { next ≡ j + 1 }
    requires within { j < length (rows_in olds.now news.now) }
    ensures { IfOk result (λ from. IsRowTold olds.now news.now told j from text.old.items text.new.items) }
{
    if is_changed(olds, news, j) {
        push_loss(text, olds, j)?;
        return Ok(told);
    }
    push_gains(text, news, told, j)?;
    push_kept(text, olds, j)?;
    Ok(next)
}

// Adds the line that the old text has in row `j`, which is kept.
fn push_kept(text: &mut Vec<u8>, olds: &[&[u8]], j: usize) -> Result<(), Memory>
    ensures { OnOk result (text.new.items ≡ text.old.items ++ flat_map entry_text (kept_at olds.now j)) }
{
    match olds.get(j) {
        Some(line) => push_signed(text, b" ", line),
        None => Ok(()),
    }
}

// Adds the line that the old text has in row `j`, which is lost.
fn push_loss(text: &mut Vec<u8>, olds: &[&[u8]], j: usize) -> Result<(), Memory>
    ensures { OnOk result (text.new.items ≡ text.old.items ++ flat_map entry_text (loss_at olds.now j)) }
{
    match olds.get(j) {
        Some(line) => push_signed(text, b"-", line),
        None => Ok(()),
    }
}

// Adds the lines that the new text has in the rows from `from` to before `to`.
fn push_gains(text: &mut Vec<u8>, news: &[&[u8]], from: usize, to: usize) -> Result<(), Memory>
    requires { from ≤ to }
    ensures { OnOk result (text.new.items ≡ text.old.items ++ flat_map entry_text (map gets (slice_range (texts_of news.now) from to))) }
{
    for j in from..to {
        push_gain(text, news, j)?;
    }
    Ok(())
}

// Adds the line that the new text has in row `j`.
fn push_gain(text: &mut Vec<u8>, news: &[&[u8]], j: usize) -> Result<(), Memory>
    ensures { OnOk result (text.new.items ≡ text.old.items ++ flat_map entry_text (gain_at news.now j)) }
{
    match news.get(j) {
        Some(line) => push_signed(text, b"+", line),
        None => Ok(()),
    }
}

// Adds a line behind its sign.
fn push_signed(text: &mut Vec<u8>, sign: &[u8], line: &[u8]) -> Result<(), Memory>
    ensures { OnOk result (text.new.items ≡ text.old.items ++ signed sign.now line.now) }
{
    text.extend_from_slice(sign)?;
    text.extend_from_slice(line)?;
    push_note(text, line)?;
    Ok(())
}

// Says where the line lacks its line feed.
fn push_note(text: &mut Vec<u8>, line: &[u8]) -> Result<(), Memory>
    ensures { OnOk result (text.new.items ≡ text.old.items ++ note_text line.now) }
{
    if ends_with_feed(line) {
        return Ok(());
    }
    text.extend_from_slice(b"\n\\ No newline at end of file\n")?;
    Ok(())
}

// Whether the last byte is a line feed.
fn ends_with_feed(line: &[u8]) -> bool
    ensures { result ≡ has_feed line.now }
{
    match line.split_last() {
        Some((last, _)) => *last == b'\n',
        None => false,
    }
}
