// What an edit leaves behind in code that no unit processes, by what is asked.
ghost use Rattle.std.specs.Prelude.{◌≡◌, ◌++◌, ℕ, List, OnOk};
ghost use Rattle.cs_base.specs.Paths.{normal_path_of};
ghost use Rattle.command_words.specs.Asking.{edit_value};
ghost use Rattle.cscout_run.specs.Asks.{LeavesAt, LeavesUnseen};

use crate::edits::path_text;
use analysis::Analysis;
use command_words::Edit;
use cs_base::{Memory, normal_path};
use std::alloc::Global;
use unseen_names::push_unseen;

/// Adds a line for each place where the name of the class that the edit names stands unseen.
pub(crate) fn push_left(
    alloc: Global,
    text: &mut Vec<u8>,
    a: &Analysis,
    edit: &Edit<'_>,
) -> Result<(), Memory>
    ensures { OnOk result ((lines : List ℕ) × LeavesUnseen (edit_value edit.now) a.now.value lines × (text.new.items ≡ text.old.items ++ lines)) }
{
    match edit {
        Edit::Renaming(q) => push_at(alloc, text, a, q.path, q.line, q.column),
        Edit::Template(q) => push_at(alloc, text, a, q.path, q.line, q.column),
        Edit::Macro(q) => push_at(alloc, text, a, q.path, q.line, q.column),
    }
}

// The same by a place.
fn push_at(
    alloc: Global,
    text: &mut Vec<u8>,
    a: &Analysis,
    path: &str,
    line: u32,
    column: u32,
) -> Result<(), Memory>
    ensures { OnOk result ((lines : List ℕ) × LeavesAt (normal_path_of path.now) line column a.now.value lines
        × (text.new.items ≡ text.old.items ++ lines)) }
{
    let path = normal_path(alloc, path.as_bytes())?;
    match a.part_at(path_text(&path), line, column) {
        Some(part) => push_unseen(alloc, text, a, part),
        None => Ok(()),
    }
}
