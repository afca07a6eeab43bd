// The lines of the output that name edits and sizes.
ghost use Rattle.std.specs.Prelude.{◌≡◌, ◌++◌, IfOk, OnOk, []};
ghost use Rattle.cs_base.specs.Edit.{edit, IsKept};
ghost use Rattle.command_words.specs.Message.{edited_line, edited_lines, size_line};

use cs_base::{Edits, Memory};
use itoa::Buffer;
use std::alloc::Global;
use std::format;

/// One line for each edit.
pub fn edited_text(alloc: Global, edits: &Edits) -> Result<Vec<u8>, Memory>
    ensures lines { IfOk result (λ text. text.items ≡ edited_lines edits.now) }
    ensures sound { IfOk result (λ _. IsKept edits.now) }
{
    let mut text = Vec::new(alloc);
    for k in 0..edits.len() {
        push_line(&mut text, edits.path(k), edits.count(k))?;
    }
    Ok(text)
}

// Adds the line of an edit of this path with so many places.
fn push_line(text: &mut Vec<u8>, path: &[u8], count: u32) -> Result<(), Memory>
    ensures { OnOk result (text.new.items ≡ text.old.items ++ edited_line (edit path.now [] count)) }
{
    let mut digits = Buffer::new();
    text.extend_from_slice(b"edited ")?;
    text.extend_from_slice(path)?;
    text.extend_from_slice(b" ")?;
    text.extend_from_slice(digits.format(count).as_bytes())?;
    text.extend_from_slice(b"\n")?;
    Ok(())
}

/// The line that tells the size.
pub fn size_text(alloc: Global, n: u32, tokens: u32, places: u64) -> Result<Vec<u8>, Memory>
    ensures { IfOk result (λ text. text.items ≡ size_line n tokens places) }
{
    let line = format!(in alloc; "units {n} tokens {tokens} members {places}\n")?;
    Ok(Vec::from_slice(alloc, line.as_bytes())?)
}
