// The edits of the files that hold lists of functions.
ghost use Rattle.std.specs.Prelude.{◌≡◌, [], length, IfOk, IsUtf8, OnOk};
ghost use Rattle.std.specs.Option.{option_map_or};
ghost use Rattle.edited_files.specs.Edited.{with_each};
ghost use Rattle.list_cuts.specs.Cuts.{IsOrder};
ghost use Rattle.analysis.specs.Below.source_files.KeptFiles.{kept_at};
ghost use Rattle.analysis.specs.Below.source_files.Tables.{AreText};
ghost use Rattle.template_rules.specs.FileLists.{new_bytes, edit_for, edit_in, edits_of};

use crate::file_lists::{FoundList, found_lists, lists_in, spans_of};
use crate::functions::Functions;
use analysis::{Analysis, KeptFile};
use c_types::Indices;
use cs_base::{Edits, Memory};
use edited_files::TextEdits;
use list_cuts::arrange;
use std::alloc::Global;

// The bytes of a file with the items of these lists in the new order.
fn new_bytes(
    alloc: Global,
    file: &KeptFile,
    lists: &[Indices],
    order: &[usize],
) -> Result<Vec<u8>, Memory>
    requires { IsOrder (length order.now) order.now }
    ensures { IfOk result (λ bytes. bytes.items ≡ new_bytes order.now lists.now file.now) }
{
    let spans = spans_of(alloc, file, lists)?;
    arrange(alloc, file.bytes(), &spans, order)
}

// The edit of a file that has these lists.
fn put_file(
    alloc: Global,
    edits: &mut TextEdits,
    file: &KeptFile,
    lists: &[Indices],
    order: &[usize],
) -> Result<(), Memory>
    requires order { IsOrder (length order.now) order.now }
    requires text { IsUtf8 file.now.path }
    ensures { OnOk result (edits.new ≡ with_each (edit_for order.now file.now lists.now) edits.old) }
{
    if lists.is_empty() {
        return Ok(());
    }
    if lists.len() > u32::MAX as usize {
        return Err(Memory);
    }
    let bytes = new_bytes(alloc, file, lists, order)?;
    edits.put(alloc, file.path(), &bytes, lists.len() as u32)
}

// The same for the file with a number, if it is kept.
fn put_numbered(
    alloc: Global,
    edits: &mut TextEdits,
    a: &Analysis,
    found: &[FoundList],
    order: &[usize],
    number: u32,
) -> Result<(), Memory>
    requires order { IsOrder (length order.now) order.now }
    requires text { AreText a.now.value.table }
    ensures { OnOk result (edits.new ≡ with_each (option_map_or (edit_in found.now order.now) (kept_at a.now.value.table number) []) edits.old) }
{
    match a.file(number) {
        Some(file) => {
            let lists = lists_in(alloc, found, file.number())?;
            put_file(alloc, edits, file, &lists, order)
        }
        None => Ok(()),
    }
}

/// The edits of all files that hold a list.
pub fn edit_files(
    alloc: Global,
    functions: &Functions<'_>,
    order: &[usize],
) -> Result<Edits, Memory>
    requires { IsOrder (length order.now) order.now }
    ensures { IfOk result (λ edits. edits ≡ edits_of functions.now.members functions.now.analysis.value order.now) }
{
    let a = functions.analysis();
    let found = found_lists(alloc, functions)?;
    let mut edits = TextEdits::new(alloc);
    for number in 0..a.files() {
        put_numbered(alloc, &mut edits, a, &found, order, number)?;
    }
    edits.edits(alloc)
}
