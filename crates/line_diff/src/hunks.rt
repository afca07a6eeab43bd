// The hunks between the lines of two texts.
ghost use Rattle.std.specs.Prelude.{◌≡◌, ◌≤◌, ◌++◌, ◌-◌, [], codes, if◌then◌else◌, min, length, slice_range, OnOk};
ghost use Rattle.std.specs.List.{flat_map};
ghost use Rattle.line_diff.specs.FileText.{hunk_text, range_text};
ghost use Rattle.line_diff.specs.Hunks.{hunks_of_rows};
ghost use Rattle.line_diff.specs.Pairs.{hunk_at, rows_in};

use crate::entries::push_entries;
use crate::rows::{is_near, row_count, stretch_end};
use cs_base::Memory;
use itoa::Buffer;

/// Adds the hunks between the lines of two texts.
pub(crate) fn push_hunks(text: &mut Vec<u8>, olds: &[&[u8]], news: &[&[u8]]) -> Result<(), Memory>
    ensures { OnOk result (text.new.items ≡ text.old.items ++ flat_map hunk_text (hunks_of_rows (rows_in olds.now news.now))) }
{
    let count = row_count(olds, news);
    let mut k = 0;
    while k < count {
        let near = is_near(olds, news, k);
        let end = stretch_end(olds, news, k, near);
        push_stretch(text, olds, news, k, end, near)?;
        k = end;
    }
    Ok(())
}

// Adds the hunk of the rows from `k` to before `end`, if they are near a change.
fn push_stretch(
    text: &mut Vec<u8>,
    olds: &[&[u8]],
    news: &[&[u8]],
    k: usize,
    end: usize,
    near: bool,
) -> Result<(), Memory>
    requires in_order { k ≤ end }
    requires within { end ≤ length (rows_in olds.now news.now) }
    ensures { OnOk result (text.new.items ≡ text.old.items ++ (if near then hunk_text (hunk_at olds.now news.now k end) else [])) }
{
    if near {
        push_hunk(text, olds, news, k, end)?;
    }
    Ok(())
}

// Adds the hunk of the rows from `k` to before `end`.
fn push_hunk(
    text: &mut Vec<u8>,
    olds: &[&[u8]],
    news: &[&[u8]],
    k: usize,
    end: usize,
) -> Result<(), Memory>
    requires in_order { k ≤ end }
    requires within { end ≤ length (rows_in olds.now news.now) }
    ensures { OnOk result (text.new.items ≡ text.old.items ++ hunk_text (hunk_at olds.now news.now k end)) }
{
    push_ranges(text, olds, news, k, end)?;
    push_entries(text, olds, news, k, end)?;
    Ok(())
}

// Adds the first line of a hunk: where it stands in both texts.
fn push_ranges(
    text: &mut Vec<u8>,
    olds: &[&[u8]],
    news: &[&[u8]],
    k: usize,
    end: usize,
) -> Result<(), Memory>
    requires { k ≤ end }
    ensures { OnOk result (text.new.items ≡ text.old.items
        ++ (codes "@@ -" ++ range_text (min k (length olds.now)) (min end (length olds.now) - min k (length olds.now))
        ++ codes " +" ++ range_text (min k (length news.now)) (min end (length news.now) - min k (length news.now)) ++ codes " @@\n")) }
{
    text.extend_from_slice(b"@@ -")?;
    push_range(text, k.min(olds.len()), end.min(olds.len()))?;
    text.extend_from_slice(b" +")?;
    push_range(text, k.min(news.len()), end.min(news.len()))?;
    text.extend_from_slice(b" @@\n")?;
    Ok(())
}

// Adds `START,COUNT` of the lines from the one behind `before` of them to `end`.
fn push_range(text: &mut Vec<u8>, before: usize, end: usize) -> Result<(), Memory>
    requires in_order { before ≤ end }
    ensures { OnOk result (text.new.items ≡ text.old.items ++ range_text before (end - before)) }
{
    let mut digits = Buffer::new();
    let count = end - before;
    let start = if count == 0 { before } else { before + 1 };
    text.extend_from_slice(digits.format(start).as_bytes())?;
    text.extend_from_slice(b",")?;
    text.extend_from_slice(digits.format(count).as_bytes())?;
    Ok(())
}
