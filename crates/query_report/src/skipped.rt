// The report `skipped`.
ghost use Rattle.std.specs.Prelude.{◌≡◌, ◌++◌, IfOk, OnOk};
ghost use Rattle.query_report.specs.Skipped.{lines_at, skipped_text};
ghost use Rattle.query_report.specs.Marks.{AreMarked};

use crate::file_order::ordered_numbers;
use crate::marks::{Marks, items_in, marks_of};
use crate::spans::push_file;
use analysis::Texts;
use cs_base::Memory;
use std::alloc::Global;

#[tactic(auto, unfolding(crate::specs::Skipped::skipped_text))]
/// The sequences of directive lines and runs that no unit processes, each as `PATH:FIRST-LAST` on a line, in
/// the order of the bytes of the paths and then of the lines.
pub fn print_skipped(alloc: Global, t: &Texts) -> Result<Vec<u8>, Memory>
    ensures { IfOk result (λ text. text.items ≡ skipped_text t.now) }
{
    let marks = marks_of(alloc, t)?;
    let numbers = ordered_numbers(alloc, t)?;
    let mut text = Vec::new(alloc);
    for number in &numbers {
        push_lines(&mut text, t, marks.as_slice(), *number)?;
    }
    Ok(text)
}

// Adds the lines of the kept file with a number.
fn push_lines(text: &mut Vec<u8>, t: &Texts, marks: &[Marks], number: u32) -> Result<(), Memory>
    requires { AreMarked t.now marks.now }
    ensures { OnOk result (text.new.items ≡ text.old.items ++ lines_at t.now number) }
{
    match t.file(number) {
        Some(file) => push_file(text, file.path(), items_in(file), marks, number),
        None => Ok(()),
    }
}
