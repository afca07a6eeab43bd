// Notes on words behind a command that takes a place, and the lines of notes.
ghost use Rattle.std.specs.Prelude.{◌≡◌};
ghost use Rattle.command_words.specs.Telling.{Told};
ghost use Rattle.usage_notes.specs.Notes.{at_place, behind_name, behind_one, behind_place, behind_word, no_number, no_stays, no_strings, note, note_line, takes};

use crate::forms::is_edit;
use command_words::{is_number, tell};
use cs_base::Sink;

/// Tells the line of a note of these pieces.
pub(crate) fn tell_note<E: Sink>(err: &mut E, first: &[u8], middle: &[u8], last: &[u8])
    ensures { Told (note_line (note first.now middle.now last.now))
        (E.bytes err.old) (E.bytes err.new) (E.failed_writes err.old) (E.failed_writes err.new) }
{
    tell(err, &[b"note: ", first, middle, last]);
}

/// What a command takes.
pub(crate) fn tell_takes<E: Sink>(err: &mut E, command: &str, form: &[u8])
    ensures { Told (note_line (takes command.now form.now))
        (E.bytes err.old) (E.bytes err.new) (E.failed_writes err.old) (E.failed_writes err.new) }
{
    tell_note(err, command.as_bytes(), b" takes ", form);
}

// A word that has to be a number.
fn tell_number<E: Sink>(err: &mut E, name: &[u8], word: &str)
    ensures { Told (note_line (no_number name.now word.now))
        (E.bytes err.old) (E.bytes err.new) (E.failed_writes err.old) (E.failed_writes err.new) }
{
    tell_note(
        err,
        name,
        b" is a number from 1 to 999999999, and not ",
        word.as_bytes(),
    );
}

// What a command takes, where the line and the column of its place are numbers.
fn tell_place_takes<E: Sink>(err: &mut E, line: &str, column: &str, command: &str, form: &[u8])
    ensures { Told (note_line (at_place line.now column.now (takes command.now form.now)))
        (E.bytes err.old) (E.bytes err.new) (E.failed_writes err.old) (E.failed_writes err.new) }
{
    tell_place(err, line, column, command.as_bytes(), b" takes ", form);
}

// A word behind a place and a name that is another than `strings`.
fn tell_no_strings<E: Sink>(err: &mut E, line: &str, column: &str, word: &str)
    ensures { Told (note_line (at_place line.now column.now (no_strings word.now)))
        (E.bytes err.old) (E.bytes err.new) (E.failed_writes err.old) (E.failed_writes err.new) }
{
    tell_place(
        err,
        line,
        column,
        b"the word behind NAME is strings",
        b", and not ",
        word.as_bytes(),
    );
}

// A word behind `trim` that is another than `stays`.
fn tell_no_stays<E: Sink>(err: &mut E, word: &str)
    ensures { Told (note_line (no_stays word.now))
        (E.bytes err.old) (E.bytes err.new) (E.failed_writes err.old) (E.failed_writes err.new) }
{
    tell_note(
        err,
        b"the word behind trim is stays",
        b", and not ",
        word.as_bytes(),
    );
}

// The line and the column of a place, or these pieces where both are numbers.
fn tell_place<E: Sink>(
    err: &mut E,
    line: &str,
    column: &str,
    first: &[u8],
    middle: &[u8],
    last: &[u8],
)
    ensures { Told (note_line (at_place line.now column.now (note first.now middle.now last.now)))
        (E.bytes err.old) (E.bytes err.new) (E.failed_writes err.old) (E.failed_writes err.new) }
{
    if !is_number(line.as_bytes()) {
        tell_number(err, b"LINE", line);
    } else if !is_number(column.as_bytes()) {
        tell_number(err, b"COL", column);
    } else {
        tell_note(err, first, middle, last);
    }
}

/// One word behind a command.
pub(crate) fn tell_one<E: Sink>(err: &mut E, command: &str, form: &[u8], word: &str)
    ensures { Told (note_line (behind_one command.now form.now word.now))
        (E.bytes err.old) (E.bytes err.new) (E.failed_writes err.old) (E.failed_writes err.new) }
{
    if command == "tokens" {
        tell_number(err, b"UNIT", word);
    } else if command == "trim" {
        tell_no_stays(err, word);
    } else {
        tell_takes(err, command, form);
    }
}

/// A place.
pub(crate) fn tell_three<E: Sink>(err: &mut E, command: &str, form: &[u8], line: &str, column: &str)
    ensures { Told (note_line (behind_place command.now form.now line.now column.now))
        (E.bytes err.old) (E.bytes err.new) (E.failed_writes err.old) (E.failed_writes err.new) }
{
    if command == "class" {
        tell_place_takes(err, line, column, command, form);
    } else {
        tell_takes(err, command, form);
    }
}

/// A place, and a name or an order.
pub(crate) fn tell_four<E: Sink>(err: &mut E, command: &str, form: &[u8], line: &str, column: &str)
    ensures { Told (note_line (behind_name command.now form.now line.now column.now))
        (E.bytes err.old) (E.bytes err.new) (E.failed_writes err.old) (E.failed_writes err.new) }
{
    if is_edit(command) {
        tell_place_takes(err, line, column, command, form);
    } else {
        tell_takes(err, command, form);
    }
}

/// A place, a name and a word.
pub(crate) fn tell_five<E: Sink>(
    err: &mut E,
    command: &str,
    form: &[u8],
    line: &str,
    column: &str,
    word: &str,
)
    ensures { Told (note_line (behind_word command.now form.now line.now column.now word.now))
        (E.bytes err.old) (E.bytes err.new) (E.failed_writes err.old) (E.failed_writes err.new) }
{
    if command == "rename" {
        tell_no_strings(err, line, column, word);
    } else {
        tell_takes(err, command, form);
    }
}
