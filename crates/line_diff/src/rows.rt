// The rows of two texts, by their numbers.
ghost use Rattle.std.specs.Prelude.{◌≡◌, ◌<◌, ◌≤◌, ◌-◌, ◌∷◌, drop, length, slice_range};
ghost use Rattle.std.specs.List.{list_any, range_with_len};
ghost use Rattle.line_diff.specs.Rows.{context, is_near};
ghost use Rattle.line_diff.specs.Hunks.{are_alike, stretch, stretches_of};
ghost use Rattle.line_diff.specs.Pairs.{is_changed_at, rows_in};

use crate::lines::is_same;

// So many rows before a change and behind it are told with it.
const CONTEXT: usize = 3;

/// How many rows there are.
pub(crate) fn row_count(olds: &[&[u8]], news: &[&[u8]]) -> usize
    ensures { result ≡ length (rows_in olds.now news.now) }
{
    if olds.len() < news.len() {
        news.len()
    } else {
        olds.len()
    }
}

/// Whether the texts differ in row `k`.
pub(crate) fn is_changed(olds: &[&[u8]], news: &[&[u8]], k: usize) -> bool
    ensures { result ≡ is_changed_at (rows_in olds.now news.now) k }
{
    match (olds.get(k), news.get(k)) {
        (Some(old), Some(new)) => !is_same(old, new),
        (Some(_), None) => true,
        (None, Some(_)) => true,
        (None, None) => false,
    }
}

/// Whether the texts differ in row `k`, or in one of the rows told with it.
pub(crate) fn is_near(olds: &[&[u8]], news: &[&[u8]], k: usize) -> bool
    requires { k < length (rows_in olds.now news.now) }
    ensures { result ≡ is_near (rows_in olds.now news.now) k }
{
    let count = row_count(olds, news);
    let left = count - k;
    if left <= CONTEXT {
        return is_changed_within(olds, news, first_near(k), count);
    }
    is_changed_within(olds, news, first_near(k), k + CONTEXT + 1)
}

// The first of the rows around row `k`.
fn first_near(k: usize) -> usize
    ensures { result ≡ k - context }
{
    if k < CONTEXT { 0 } else { k - CONTEXT }
}

// Whether the texts differ in one of the rows from `from` to before `end`.
fn is_changed_within(olds: &[&[u8]], news: &[&[u8]], from: usize, end: usize) -> bool
    ensures { result ≡ list_any (is_changed_at (rows_in olds.now news.now)) (range_with_len from (end - from)) }
{
    (from..end).any(|j| is_changed(olds, news, j))
}

/// Where the stretch of rows ends that begins with row `k`: all of them are near a change, or none is.
pub(crate) fn stretch_end(olds: &[&[u8]], news: &[&[u8]], k: usize, near: bool) -> usize
    requires within { k < length (rows_in olds.now news.now) }
    requires same { near ≡ is_near (rows_in olds.now news.now) k }
    ensures later { k < result }
    ensures within { result ≤ length (rows_in olds.now news.now) }
    ensures cut { let rows = rows_in olds.now news.now in
        stretches_of (is_near rows) k (drop k rows)
        ≡ stretch near (slice_range rows k result) ∷ stretches_of (is_near rows) result (drop result rows) }
{
    let count = row_count(olds, news);
    let mut end = k + 1;
    while end < count {
        if !goes_on(olds, news, end, near) {
            return end;
        }
        end += 1;
    }
    end
}

// Whether row `k` is near a change as well, or is not near one either.
fn goes_on(olds: &[&[u8]], news: &[&[u8]], k: usize, near: bool) -> bool
    requires { k < length (rows_in olds.now news.now) }
    ensures { result ≡ are_alike near (is_near (rows_in olds.now news.now) k) }
{
    if near {
        is_near(olds, news, k)
    } else {
        !is_near(olds, news, k)
    }
}
