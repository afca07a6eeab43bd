// The note on words of no form, by how many they are.
ghost use Rattle.std.specs.Prelude.{◌≡◌, map, string_bytes};
ghost use Rattle.command_words.specs.Telling.{Told};
ghost use Rattle.usage_notes.specs.Notes.{alone, behind, no_command, no_form, no_size, no_words, note_line, second, unknown, usage_note};

use crate::forms::form_of;
use crate::places::{tell_five, tell_four, tell_note, tell_one, tell_takes, tell_three};
use cs_base::Sink;

// By how many words stand behind a command.
fn tell_behind<E: Sink>(err: &mut E, command: &str, form: &[u8], words: &[String])
    ensures { Told (note_line (behind command.now form.now (map string_bytes words.now)))
        (E.bytes err.old) (E.bytes err.new) (E.failed_writes err.old) (E.failed_writes err.new) }
{
    match words {
        [] => tell_takes(err, command, form),
        [word] => tell_one(err, command, form, word.as_str()),
        [_path, _line] => tell_takes(err, command, form),
        [_path, line, column] => tell_three(err, command, form, line.as_str(), column.as_str()),
        [_path, line, column, _name] => {
            tell_four(err, command, form, line.as_str(), column.as_str())
        }
        [_path, line, column, _name, word] => tell_five(
            err,
            command,
            form,
            line.as_str(),
            column.as_str(),
            word.as_str(),
        ),
        [_path, _line, _column, _name, _word, _more, ..] => tell_takes(err, command, form),
    }
}

// A word that is no command.
fn tell_no_command<E: Sink>(err: &mut E, command: &str)
    ensures { Told (note_line (unknown command.now))
        (E.bytes err.old) (E.bytes err.new) (E.failed_writes err.old) (E.failed_writes err.new) }
{
    tell_note(err, b"there is no command ", command.as_bytes(), b"");
}

// A word behind `generate`.
fn tell_size<E: Sink>(err: &mut E, word: &str)
    ensures { Told (note_line (no_size word.now))
        (E.bytes err.old) (E.bytes err.new) (E.failed_writes err.old) (E.failed_writes err.new) }
{
    tell_note(
        err,
        b"N is a number from 1 to 1024, and not ",
        word.as_bytes(),
        b"",
    );
}

// One that stands alone in the place of a command.
fn tell_second<E: Sink>(err: &mut E, ws: &str, command: &str)
    ensures { Told (note_line (second ws.now command.now))
        (E.bytes err.old) (E.bytes err.new) (E.failed_writes err.old) (E.failed_writes err.new) }
{
    if ws == "generate" {
        tell_size(err, command);
    } else {
        tell_no_command(err, command);
    }
}

// A word in the place of a command that is none.
fn tell_unknown<E: Sink>(err: &mut E, ws: &str, command: &str, words: &[String])
    ensures { Told (note_line (no_form ws.now command.now (map string_bytes words.now)))
        (E.bytes err.old) (E.bytes err.new) (E.failed_writes err.old) (E.failed_writes err.new) }
{
    match words {
        [] => tell_second(err, ws, command),
        [_word, ..] => tell_no_command(err, command),
    }
}

// A word alone that is no command of its own.
fn tell_nothing<E: Sink>(err: &mut E, ws: &str)
    ensures { Told (note_line (no_command ws.now))
        (E.bytes err.old) (E.bytes err.new) (E.failed_writes err.old) (E.failed_writes err.new) }
{
    tell_note(err, b"no command follows ", ws.as_bytes(), b"");
}

// One word.
fn tell_alone<E: Sink>(err: &mut E, ws: &str)
    ensures { Told (note_line (alone ws.now))
        (E.bytes err.old) (E.bytes err.new) (E.failed_writes err.old) (E.failed_writes err.new) }
{
    if ws == "generate" {
        tell_takes(err, ws, b"N");
    } else {
        tell_nothing(err, ws);
    }
}

// No word.
fn tell_no_words<E: Sink>(err: &mut E)
    ensures { Told (note_line no_words)
        (E.bytes err.old) (E.bytes err.new) (E.failed_writes err.old) (E.failed_writes err.new) }
{
    tell_note(err, b"no word is given", b"", b"");
}

/// Tells what is wrong with words that are of no form. Stops at the first write that fails.
pub fn tell_usage<E: Sink>(err: &mut E, words: &[String])
    ensures { Told (usage_note (map string_bytes words.now))
        (E.bytes err.old) (E.bytes err.new) (E.failed_writes err.old) (E.failed_writes err.new) }
{
    match words {
        [] => tell_no_words(err),
        [ws] => tell_alone(err, ws.as_str()),
        [ws, command, rest @ ..] => {
            let command = command.as_str();
            match form_of(command) {
                Some(form) => tell_behind(err, command, form, rest),
                None => tell_unknown(err, ws.as_str(), command, rest),
            }
        }
    }
}
