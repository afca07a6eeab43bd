// Rows that are texts. `%` stands between two rows of a text, and `$` before each field of a row. What stands before
// the first field says what the row is about.

/// The first field of what is left of a row, and what is left behind it.
pub fn cut(row: &str) -> (&str, &str) {
    row.split_once('$').unwrap_or((row, ""))
}

/// The number on a line; 0 where there is none.
pub fn number(line: &str) -> u32 {
    let (digits, _) = line.split_once('\n').unwrap_or((line, ""));
    digits.parse::<u32>().unwrap_or(0)
}
