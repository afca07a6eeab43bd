// Messages, told in pieces: they want no memory.
ghost use Rattle.std.specs.Prelude.{◌≡◌, map, flat_map};
ghost use Rattle.cs_base.specs.Outside.{Writes, Faults, write_failed};
ghost use Rattle.command_words.specs.Message.{message, place_pieces, unit_pieces, refused_pieces, ws_line, unit_line, offence_line, query_line, batch_line};
ghost use Rattle.command_words.specs.Telling.{Told};

use cs_base::{Cause, Place, Sink, Wrote};
use itoa::Buffer;

/// Tells one line of these pieces, and stops at the first write that fails.
pub fn tell<E: Sink>(err: &mut E, pieces: &[&[u8]])
    ensures { Told (message (map (λ piece. piece.now) pieces.now))
        (E.bytes err.old) (E.bytes err.new) (E.failed_writes err.old) (E.failed_writes err.new) }
{
    if let Wrote::Failed = err.write(b"cscout: ") {
        return;
    }
    if let Wrote::Failed = write_pieces(err, pieces) {
        return;
    }
    err.write(b"\n");
}

// Writes the pieces, and stops at the first write that fails.
fn write_pieces<E: Sink>(err: &mut E, pieces: &[&[u8]]) -> Wrote
    ensures bytes { Writes (flat_map (λ piece. piece.now) pieces.now)
        (E.bytes err.old) (E.bytes err.new) result }
    ensures faults { Faults (write_failed result) (E.failed_writes err.old) (E.failed_writes err.new) }
{
    for piece in pieces {
        if let Wrote::Failed = err.write(piece) {
            return Wrote::Failed;
        }
    }
    Wrote::Done
}

/// A line of the workspace file that is refused.
pub fn tell_line<E: Sink>(err: &mut E, ws: &[u8], line: u32, words: &[u8])
    ensures { Told (ws_line ws.now line words.now)
        (E.bytes err.old) (E.bytes err.new) (E.failed_writes err.old) (E.failed_writes err.new) }
{
    let mut digits = Buffer::new();
    tell(
        err,
        &[ws, b":", digits.format(line).as_bytes(), b": ", words],
    );
}

/// A unit's fault.
pub fn tell_unit<E: Sink>(err: &mut E, unit: u32, place: &Place, cause: Cause)
    ensures { Told (unit_line unit place.now cause)
        (E.bytes err.old) (E.bytes err.new) (E.failed_writes err.old) (E.failed_writes err.new) }
{
    let mut number = Buffer::new();
    let mut line = Buffer::new();
    let mut column = Buffer::new();
    tell_unit_pieces(
        err,
        number.format(unit).as_bytes(),
        place.path.bytes(),
        line.format(place.line).as_bytes(),
        column.format(place.column).as_bytes(),
        cause.words(),
    );
}

fn tell_unit_pieces<E: Sink>(
    err: &mut E,
    unit: &[u8],
    path: &[u8],
    line: &[u8],
    column: &[u8],
    words: &[u8],
)
    ensures { Told (message (unit_pieces unit.now
        (place_pieces path.now line.now column.now words.now)))
        (E.bytes err.old) (E.bytes err.new) (E.failed_writes err.old) (E.failed_writes err.new) }
{
    tell(
        err,
        &[
            b"unit ", unit, b": ", path, b":", line, b":", column, b": ", words,
        ],
    );
}

/// A refusal of a query, at a byte of it.
pub fn tell_query<E: Sink>(err: &mut E, words: &[u8], at: u32)
    ensures { Told (query_line words.now at)
        (E.bytes err.old) (E.bytes err.new) (E.failed_writes err.old) (E.failed_writes err.new) }
{
    let mut digits = Buffer::new();
    tell(
        err,
        &[b"refused: ", words, b" at ", digits.format(at).as_bytes()],
    );
}

/// A batch file that has a bad line of this number, or is not there: then it is 0.
pub fn tell_batch<E: Sink>(err: &mut E, line: u32)
    ensures { Told (batch_line line)
        (E.bytes err.old) (E.bytes err.new) (E.failed_writes err.old) (E.failed_writes err.new) }
{
    let mut digits = Buffer::new();
    tell(
        err,
        &[
            b"refused: ",
            b"bad batch line ",
            digits.format(line).as_bytes(),
        ],
    );
}

/// A refusal with a place.
pub fn tell_offence<E: Sink>(err: &mut E, place: &Place, cause: Cause)
    ensures { Told (offence_line place.now cause)
        (E.bytes err.old) (E.bytes err.new) (E.failed_writes err.old) (E.failed_writes err.new) }
{
    let mut line = Buffer::new();
    let mut column = Buffer::new();
    tell_offence_pieces(
        err,
        place.path.bytes(),
        line.format(place.line).as_bytes(),
        column.format(place.column).as_bytes(),
        cause.words(),
    );
}

fn tell_offence_pieces<E: Sink>(err: &mut E, path: &[u8], line: &[u8], column: &[u8], words: &[u8])
    ensures { Told (message (refused_pieces
        (place_pieces path.now line.now column.now words.now)))
        (E.bytes err.old) (E.bytes err.new) (E.failed_writes err.old) (E.failed_writes err.new) }
{
    tell(
        err,
        &[b"refused: ", path, b":", line, b":", column, b": ", words],
    );
}
