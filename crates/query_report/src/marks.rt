// Marks on the items of files, set where an item is reached: one walk over what the units reached.
ghost use Rattle.std.specs.Prelude.{◌≡◌, ◌<◌, IfOk, false, true, length, replicate, slice_set, slice_index_or};
ghost use Rattle.std.specs.List.{fold};
ghost use Rattle.query_report.specs.Skipped.{items_in};
ghost use Rattle.query_report.specs.Marks.{count_at, is_marked, marked, marked_by, AreBlank, AreMarked};

use analysis::{KeptFile, Reached, Texts};
use cs_base::Memory;
use line_shape::Item;
use std::alloc::Global;
use std::marker::Model;

/// A mark for each item of a file. Contracts see the list of them.
#[derive(Drop)]
pub(crate) struct Marks {
    of_items: Vec<bool>,
}

impl Model for Marks {
    ghost use Rattle.std.specs.Prelude.{List, Bool};

    ghost Value = { List Bool };

    ghost view = { λ m. m.of_items.items };
}

impl Marks {
    // No mark for so many items.
    fn new(alloc: Global, items: usize) -> Result<Marks, Memory>
        ensures { IfOk result (λ m. m ≡ replicate items false) }
    {
        Ok(Marks {
            of_items: vec![in alloc; false; items]?,
        })
    }

    // Marks an item, if there is one with this number.
    fn set(&mut self, item: usize)
        ensures { self.new ≡ slice_set self.old item true }
    {
        if item < self.of_items.len() {
            self.of_items[item] = true;
        }
    }

    fn is_set(&self, item: usize) -> bool
        ensures { result ≡ slice_index_or self.now item false }
    {
        if item < self.of_items.len() {
            self.of_items[item]
        } else {
            false
        }
    }
}

/// Whether an item of a file is marked.
pub(crate) fn is_marked(marks: &[Marks], file: u32, item: usize) -> bool
    ensures { result ≡ is_marked marks.now file item }
{
    if (file as usize) < marks.len() {
        marks[file as usize].is_set(item)
    } else {
        false
    }
}

/// The items of a kept file.
pub(crate) fn items_in(file: &KeptFile) -> &[Item]
    ensures { result.now ≡ items_in file.now }
{
    let _text = file.text();
    file.items()
}

// How many items the kept file with a number has.
fn count_at(t: &Texts, number: u32) -> usize
    ensures { result ≡ count_at t.now.table number }
{
    match t.file(number) {
        Some(file) => items_in(file).len(),
        None => 0,
    }
}

// No marks for the items of each file.
fn blank(alloc: Global, t: &Texts) -> Result<Vec<Marks>, Memory>
    ensures each { IfOk result (λ m. length m.items ≡ length t.now.table) }
    ensures blank { IfOk result (λ m. AreBlank t.now.table m.items) }
{
    let mut marks = Vec::new(alloc);
    for number in 0..t.files() {
        marks.push(Marks::new(alloc, count_at(t, number))?)?;
    }
    Ok(marks)
}

// Marks an item that is reached.
fn mark(marks: &mut Vec<Marks>, r: &Reached)
    ensures { marks.new.items ≡ marked marks.old.items r.now }
{
    let file = r.file as usize;
    if file < marks.len() {
        marks[file].set(r.item as usize);
    }
}

// Marks the items that a unit reaches.
fn mark_unit(marks: &mut Vec<Marks>, reached: &[Reached])
    ensures { marks.new.items ≡ fold marked marks.old.items reached.now }
{
    for r in reached {
        mark(marks, r);
    }
}

// Marks the items that units reach.
fn mark_units(marks: &mut Vec<Marks>, t: &Texts)
    ensures { marks.new.items ≡ fold marked_by marks.old.items t.now.texts }
{
    for before in 0..t.units() {
        mark_unit(marks, t.text(before + 1).reached());
    }
}

/// Marks on the items of all files: those that some unit reaches.
pub(crate) fn marks_of(alloc: Global, t: &Texts) -> Result<Vec<Marks>, Memory>
    ensures { IfOk result (λ m. AreMarked t.now m.items) }
{
    let mut marks = blank(alloc, t)?;
    mark_units(&mut marks, t);
    Ok(marks)
}
