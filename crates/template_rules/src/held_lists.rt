// Where the lists of the functions begin, and the files in which they stand.
ghost use Rattle.std.specs.Prelude.{◌≡◌, ◌==◌, ◌-◌, ◌≤◌, ℕ, Some, IfOk, IsTrue, length, slice_get};
ghost use Rattle.std.specs.List.{list_any};
ghost use Rattle.analysis.specs.Analysis.{UnitAnalysis};
ghost use Rattle.analysis.specs.Below.include_tree.PseudoFiles.{is_pseudo};
ghost use Rattle.template_rules.specs.Held.{begins_at, IsHeld, ListsAreHeld};

use crate::file_lists::found_lists;
use crate::functions::Functions;
use analysis::Analysis;
use cs_base::Memory;
use std::alloc::Global;

/// The tokens with which the lists of the functions begin in a unit; units count from 1.
pub fn list_begins(alloc: Global, functions: &Functions<'_>, unit: u32) -> Result<Vec<u32>, Memory>
    requires first { 1 ≤ unit }
    requires last { unit ≤ length functions.now.analysis.value.units }
    ensures { IfOk result (λ begins. (u : UnitAnalysis) → slice_get functions.now.analysis.value.units (unit - 1) ≡ Some u
        → (k : ℕ) → list_any (λ b. b == k) begins.items ≡ begins_at functions.now.members u k) }
{
    let units = functions.units();
    let k = unit as usize - 1;
    let found = units[k].found.as_slice();
    let mut begins = Vec::new(alloc);
    for list in found {
        begins.push(list.begin)?;
    }
    Ok(begins)
}

fn is_pseudo(path: &[u8]) -> bool
    ensures { result ≡ is_pseudo path.now }
{
    match path {
        [first, ..] => *first == b'<',
        [] => false,
    }
}

// Whether a number is that of a file that was read, and is no pseudo file.
fn is_held(a: &Analysis, number: u32) -> bool
    ensures { IsTrue result → IsHeld a.now.value.table number }
{
    match a.file(number) {
        Some(file) => !is_pseudo(file.path()),
        None => false,
    }
}

/// Whether each list of the functions stands in a file that was read, and is no pseudo file.
pub fn lists_are_held(alloc: Global, functions: &Functions<'_>) -> Result<bool, Memory>
    ensures { IfOk result (λ held. IsTrue held → ListsAreHeld functions.now.members functions.now.analysis.value) }
{
    let a = functions.analysis();
    let found = found_lists(alloc, functions)?;
    for k in 0..found.len() {
        if !is_held(a, found[k].file) {
            return Ok(false);
        }
    }
    Ok(true)
}
