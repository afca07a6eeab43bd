// Which identifiers some unit processes: a mark for each token of each kept file.
ghost use Rattle.std.specs.Prelude.{◌≡◌, ℕ, false, Some, IfOk, OnOk, length};
ghost use Rattle.std.specs.Option.{option_map_or};
ghost use Rattle.std.specs.List.{flat_map};
ghost use Rattle.lexer.specs.Tokens.{tokens_of, firsts_of};
ghost use Rattle.include_tree.specs.Below.line_shape.Items.{items_of};
ghost use Rattle.include_tree.specs.Below.source_files.Files.{Table};
ghost use Rattle.include_tree.specs.Below.source_files.KeptFiles.{kept_at};
ghost use Rattle.analysis.specs.Marking.{is_marked, AreMarked, MarksItem, MarksTokens};
ghost use Rattle.analysis.specs.Naming.{names_processed, names_reached};

use crate::accepted::Accepted;
use crate::marks::{Marks, mark_names};
use crate::nameable::nameable_range;
use cs_base::Memory;
use include_tree::{Item, KeptFile, Reached};
use std::alloc::Global;

// How many tokens the kept file with a number has.
fn token_count(a: &Accepted, number: u32) -> usize
    ensures { result ≡ option_map_or (λ file. length (tokens_of file.number file.bytes)) (kept_at a.now.table number) 0 }
{
    match a.file(number) {
        Some(file) => file.text().toks().len(),
        None => 0,
    }
}

/// No marks for the tokens of each file.
pub(crate) fn blank(alloc: Global, a: &Accepted) -> Result<Vec<Marks>, Memory>
    ensures { IfOk result (λ marks. (n k : ℕ) → is_marked marks.items n k ≡ false) }
{
    let mut marks = Vec::new(alloc);
    for number in 0..a.files() {
        marks.push(Marks::new(alloc, token_count(a, number))?)?;
    }
    Ok(marks)
}

// The items of a file.
fn items_in(file: &KeptFile) -> &[Item]
    ensures { result.now ≡ items_of (tokens_of file.now.number file.now.bytes) (firsts_of file.now.bytes) }
{
    let _text = file.text();
    file.items()
}

// Marks the identifiers of an item of a file that a place may name.
fn mark_item(
    marks: &mut Vec<Marks>,
    file: &KeptFile,
    item: &Item,
    reached: &Reached,
) -> Result<(), Memory>
    ensures { OnOk result (MarksItem reached.now item.now (tokens_of file.now.number file.now.bytes) marks.old.items marks.new.items) }
{
    let toks = file.text().toks();
    if item.to as usize > toks.len() {
        return Err(Memory);
    }
    let (from, to) = nameable_range(toks, item, reached.evaluated);
    mark_names(marks, reached.file, toks, from, to)
}

// The same for the item with the number that was reached, if the file has it.
fn mark_numbered(marks: &mut Vec<Marks>, file: &KeptFile, reached: &Reached) -> Result<(), Memory>
    ensures { OnOk result ((table : Table) → kept_at table reached.now.file ≡ Some file.now → MarksTokens table (names_reached table reached.now) marks.old.items marks.new.items) }
{
    let items = items_in(file);
    let k = reached.item as usize;
    if k < items.len() {
        mark_item(marks, file, &items[k], reached)
    } else {
        Ok(())
    }
}

// Marks the identifiers of an item that was reached.
fn mark_one(a: &Accepted, marks: &mut Vec<Marks>, reached: &Reached) -> Result<(), Memory>
    ensures { OnOk result (MarksTokens a.now.table (names_reached a.now.table reached.now) marks.old.items marks.new.items) }
{
    match a.file(reached.file) {
        Some(file) => mark_numbered(marks, file, reached),
        None => Ok(()),
    }
}

/// Marks the identifiers of the items that a unit reached.
pub(crate) fn mark_reached(
    a: &Accepted,
    marks: &mut Vec<Marks>,
    reached: &[Reached],
) -> Result<(), Memory>
    ensures { OnOk result (MarksTokens a.now.table (flat_map (names_reached a.now.table) reached.now) marks.old.items marks.new.items) }
{
    for i in 0..reached.len() {
        match mark_one(a, marks, &reached[i]) {
            Ok(()) => (),
            Err(refusal) => return Err(refusal),
        }
    }
    Ok(())
}

// Marks the identifiers that the units reached.
fn mark_units(alloc: Global, a: &Accepted, marks: &mut Vec<Marks>) -> Result<(), Memory>
    ensures { OnOk result (MarksTokens a.now.table (names_processed a.now) marks.old.items marks.new.items) }
{
    for k in 0..a.count() {
        let unit = a.unit(alloc, k)?;
        mark_reached(a, marks, unit.text().reached())?;
    }
    Ok(())
}

/// Marks on the tokens of all files: those of the identifiers that some unit processes.
pub(crate) fn processed(alloc: Global, a: &Accepted) -> Result<Vec<Marks>, Memory>
    ensures { IfOk result (λ marks. AreMarked a.now.table (names_processed a.now) marks.items) }
{
    let mut marks = blank(alloc, a)?;
    mark_units(alloc, a, &mut marks)?;
    Ok(marks)
}
