// The place of a position as reports have it.
ghost use Rattle.std.specs.Prelude.{◌≡◌, ◌++◌, OnOk};
ghost use Rattle.include_tree.specs.Below.source_files.Faults.{place_of};
ghost use Rattle.analysis.specs.ClassReport.{place_text};
ghost use Rattle.analysis.specs.Places.{place_at};

use crate::analysing::Analysis;
use cs_base::{Memory, Pos};
use itoa::Buffer;

/// Adds the place of a position, as `PATH:LINE:COL`.
pub fn push_place(text: &mut Vec<u8>, a: &Analysis, at: Pos) -> Result<(), Memory>
    ensures { OnOk result (text.new.items ≡ text.old.items ++ place_text (place_at a.now.value.table at)) }
{
    let (path, line, column) = a.place(at);
    push_path_place(text, path, (line, column))
}

// Adds a place of this path.
fn push_path_place(text: &mut Vec<u8>, path: &[u8], place: (u32, u32)) -> Result<(), Memory>
    ensures { OnOk result (text.new.items ≡ text.old.items ++ place_text (place_of path.now place)) }
{
    let mut line = Buffer::new();
    let mut column = Buffer::new();
    text.extend_from_slice(path)?;
    text.extend_from_slice(b":")?;
    text.extend_from_slice(line.format(place.0).as_bytes())?;
    text.extend_from_slice(b":")?;
    text.extend_from_slice(column.format(place.1).as_bytes())?;
    Ok(())
}
