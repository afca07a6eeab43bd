// The line that says why a place names nothing.
ghost use Rattle.std.specs.Prelude.{◌≡◌};
ghost use Rattle.command_words.specs.Message.{message};
ghost use Rattle.command_words.specs.Telling.{Told};
ghost use Rattle.unnamed_places.specs.Lines.{why_line, why_pieces};

use crate::steps::FailedStep;
use command_words::tell;
use cs_base::Sink;
use itoa::Buffer;

/// Tells why a place names nothing. Stops at the first write that fails.
pub fn tell_unnamed<E: Sink>(err: &mut E, path: &[u8], line: u32, column: u32, why: FailedStep)
    ensures { Told (why_line path.now line column why)
        (E.bytes err.old) (E.bytes err.new) (E.failed_writes err.old) (E.failed_writes err.new) }
{
    let mut line_digits = Buffer::new();
    let mut column_digits = Buffer::new();
    tell_why(
        err,
        path,
        line_digits.format(line).as_bytes(),
        column_digits.format(column).as_bytes(),
        why,
    );
}

// The same of numbers that are digits.
fn tell_why<E: Sink>(err: &mut E, path: &[u8], line: &[u8], column: &[u8], why: FailedStep)
    ensures { Told (message (why_pieces path.now line.now column.now why))
        (E.bytes err.old) (E.bytes err.new) (E.failed_writes err.old) (E.failed_writes err.new) }
{
    match why {
        FailedStep::NoFile => tell(
            err,
            &[
                b"note: no unit reads ",
                path,
                b"; paths are those of the workspace file",
            ],
        ),
        FailedStep::NoCharacter => tell(
            err,
            &[
                b"note: ",
                path,
                b" has no byte at line ",
                line,
                b", column ",
                column,
            ],
        ),
        FailedStep::NoIdentifier => tell(err, &[b"note: no identifier stands there"]),
        FailedStep::Unprocessed => tell(err, &[b"note: no unit processes what stands there"]),
    }
}
