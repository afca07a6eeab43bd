// What is written of the lines of a batch.
ghost use Rattle.std.specs.Prelude.{◌≡◌, ◌++◌, Err, Ok, OnOk, map, flat_map};
ghost use Rattle.cs_base.specs.Edit.{IsKept};
ghost use Rattle.command_words.specs.Message.{message, offence_line, place_pieces, refused_pieces};
ghost use Rattle.batch_run.specs.Batch.{plan_text};

use command_words::edited_text;
use cs_base::{Cause, Edits, Memory, Place};
use itoa::Buffer;
use offences::Refusal;
use std::alloc::Global;

/// Adds the lines of an accepted rename, one for each file.
pub fn push_edits(alloc: Global, text: &mut Vec<u8>, edits: &Edits) -> Result<(), Memory>
    ensures lines { OnOk result (text.new.items ≡ text.old.items ++ plan_text (Ok edits.now)) }
    ensures sound { OnOk result (IsKept edits.now) }
{
    let lines = edited_text(alloc, edits)?;
    text.extend_from_slice(lines.as_slice())?;
    Ok(())
}

/// Adds the message of a refused one.
pub fn push_refusal(text: &mut Vec<u8>, refusal: &Refusal) -> Result<(), Memory>
    ensures { OnOk result (text.new.items ≡ text.old.items ++ plan_text (Err refusal.now)) }
{
    match refusal {
        Refusal::BadName => push_message(text, &[b"refused: ", b"bad name"]),
        Refusal::NoName => push_message(text, &[b"refused: ", b"no name"]),
        Refusal::NotAFunction => push_message(text, &[b"refused: ", b"not a function"]),
        Refusal::NotAMacro => push_message(text, &[b"refused: ", b"not a macro"]),
        Refusal::BadOrder => push_message(text, &[b"refused: ", b"bad order"]),
        Refusal::Offence { place, cause } => push_offence(text, place, *cause),
    }
}

// Adds the message of a refusal with a place.
fn push_offence(text: &mut Vec<u8>, place: &Place, cause: Cause) -> Result<(), Memory>
    ensures { OnOk result (text.new.items ≡ text.old.items ++ offence_line place.now cause) }
{
    let mut line = Buffer::new();
    let mut column = Buffer::new();
    push_offence_pieces(
        text,
        place.path.bytes(),
        line.format(place.line).as_bytes(),
        column.format(place.column).as_bytes(),
        cause.words(),
    )
}

fn push_offence_pieces(
    text: &mut Vec<u8>,
    path: &[u8],
    line: &[u8],
    column: &[u8],
    words: &[u8],
) -> Result<(), Memory>
    ensures { OnOk result (text.new.items ≡ text.old.items ++ message (refused_pieces (place_pieces path.now line.now column.now words.now))) }
{
    push_message(
        text,
        &[b"refused: ", path, b":", line, b":", column, b": ", words],
    )
}

// Adds one line of a message of these pieces.
fn push_message(text: &mut Vec<u8>, pieces: &[&[u8]]) -> Result<(), Memory>
    ensures { OnOk result (text.new.items ≡ text.old.items ++ message (map (λ piece. piece.now) pieces.now)) }
{
    text.extend_from_slice(b"cscout: ")?;
    push_pieces(text, pieces)?;
    text.push(b'\n')?;
    Ok(())
}

fn push_pieces(text: &mut Vec<u8>, pieces: &[&[u8]]) -> Result<(), Memory>
    ensures { OnOk result (text.new.items ≡ text.old.items ++ flat_map (λ piece. piece.now) pieces.now) }
{
    for piece in pieces {
        text.extend_from_slice(piece)?;
    }
    Ok(())
}
