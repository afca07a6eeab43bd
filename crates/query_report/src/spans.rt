// The lines of sequences of items that are not reached.
ghost use Rattle.std.specs.Prelude.{◌≡◌, ◌++◌, ℕ, OnOk, codes, decimal};
ghost use Rattle.std.specs.List.{flat_map};
ghost use Rattle.std.specs.Option.{option_to_list};
ghost use Rattle.query_report.specs.Skipped.{joined, ended, going_on, span_line, file_lines};
ghost use Rattle.query_report.specs.Marks.{is_marked};

use crate::marks::{Marks, is_marked};
use cs_base::Memory;
use itoa::Buffer;
use line_shape::Item;

/// The lines of the first and of the last token of a sequence of items.
#[derive(Clone, Copy)]
pub(crate) struct Span {
    pub(crate) first: u32,
    pub(crate) last: u32,
}

// The lines of a sequence that goes on with the item, or begins with it.
fn joined(before: Option<Span>, item: &Item) -> Span
    ensures { result ≡ joined before item.now }
{
    match before {
        None => Span {
            first: item.first_line,
            last: item.last_line,
        },
        Some(span) => Span {
            first: span.first,
            last: item.last_line,
        },
    }
}

// The sequence that has not ended behind the item.
fn going_on(reached: bool, before: Option<Span>, item: &Item) -> Option<Span>
    ensures { result ≡ going_on reached before item.now }
{
    if reached {
        None
    } else {
        Some(joined(before, item))
    }
}

// Adds a sign, a number and another sign.
fn push_number(text: &mut Vec<u8>, sign: &[u8], number: u32) -> Result<(), Memory>
    ensures { OnOk result (text.new.items ≡ text.old.items ++ (sign.now ++ decimal number)) }
{
    let mut digits = Buffer::new();
    text.extend_from_slice(sign)?;
    text.extend_from_slice(digits.format(number).as_bytes())?;
    Ok(())
}

// Adds the line of a sequence.
fn push_span(text: &mut Vec<u8>, path: &[u8], span: Span) -> Result<(), Memory>
    ensures { OnOk result (text.new.items ≡ text.old.items ++ span_line path.now span) }
{
    text.extend_from_slice(path)?;
    push_number(text, b":", span.first)?;
    push_number(text, b"-", span.last)?;
    text.extend_from_slice(b"\n")?;
    Ok(())
}

// Adds the line of a sequence, if there is one.
fn push_sequence(text: &mut Vec<u8>, path: &[u8], sequence: Option<Span>) -> Result<(), Memory>
    ensures { OnOk result (text.new.items ≡ text.old.items ++ flat_map (span_line path.now) (option_to_list sequence)) }
{
    match sequence {
        Some(span) => push_span(text, path, span),
        None => Ok(()),
    }
}

// Adds the line of the sequence that ends before an item, which is reached or not.
fn push_ended(
    text: &mut Vec<u8>,
    path: &[u8],
    reached: bool,
    before: Option<Span>,
) -> Result<(), Memory>
    ensures { OnOk result (text.new.items ≡ text.old.items ++ flat_map (span_line path.now) (ended reached before)) }
{
    if reached {
        push_sequence(text, path, before)
    } else {
        Ok(())
    }
}

/// Adds the lines of a file with these items.
pub(crate) fn push_file(
    text: &mut Vec<u8>,
    path: &[u8],
    items: &[Item],
    marks: &[Marks],
    file: u32,
) -> Result<(), Memory>
    ensures { OnOk result (text.new.items ≡ text.old.items ++ file_lines path.now (is_marked marks.now file) items.now) }
{
    let mut before = None;
    for k in 0..items.len() {
        let reached = is_marked(marks, file, k);
        push_ended(text, path, reached, before)?;
        before = going_on(reached, before, &items[k]);
    }
    push_sequence(text, path, before)
}
