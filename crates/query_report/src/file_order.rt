// Source files in the order of their paths.
ghost use Rattle.std.specs.Prelude.{◌≡◌, ◌++◌, ◌∷◌, [], IfOk, OnOk, if◌then◌else◌};
ghost use Rattle.analysis.specs.Below.source_files.KeptFiles.{kept_at};
ghost use Rattle.query_report.specs.Order.{is_pseudo, is_source, numbers_from, path_at, file_cmp, in_order};

use analysis::Texts;
use cs_base::Memory;
use std::alloc::Global;
use std::cmp::Ordering;

// A path is that of a pseudo file.
fn is_pseudo(path: &[u8]) -> bool
    ensures { result ≡ is_pseudo path.now }
{
    match path {
        [] => false,
        [first, ..] => *first == b'<',
    }
}

// A number is that of a source file.
fn is_source(t: &Texts, number: u32) -> bool
    ensures { result ≡ is_source (kept_at t.now.table number) }
{
    match t.file(number) {
        Some(file) => !is_pseudo(file.path()),
        None => false,
    }
}

// The path of the kept file with a number.
fn path_at(t: &Texts, number: u32) -> &[u8]
    ensures { result.now ≡ path_at t.now.table number }
{
    match t.file(number) {
        Some(file) => file.path(),
        None => &[],
    }
}

// Which of two files comes first.
fn compare(t: &Texts, m: u32, n: u32) -> Ordering
    ensures { result ≡ file_cmp t.now.table m n }
{
    match path_at(t, m).cmp(path_at(t, n)) {
        Ordering::Less => Ordering::Less,
        Ordering::Equal => m.cmp(&n),
        Ordering::Greater => Ordering::Greater,
    }
}

// Adds a number, if it is that of a source file.
fn push_source(numbers: &mut Vec<u32>, t: &Texts, number: u32) -> Result<(), Memory>
    ensures { OnOk result (numbers.new.items ≡ numbers.old.items
        ++ (if is_source (kept_at t.now.table number) then number ∷ [] else [])) }
{
    if is_source(t, number) {
        numbers.push(number)?;
    }
    Ok(())
}

// The numbers of source files.
fn source_numbers(alloc: Global, t: &Texts) -> Result<Vec<u32>, Memory>
    ensures { IfOk result (λ numbers. numbers.items ≡ numbers_from 0 t.now.table) }
{
    let mut numbers = Vec::new(alloc);
    for number in 0..t.files() {
        push_source(&mut numbers, t, number)?;
    }
    Ok(numbers)
}

/// The numbers of source files, in the order of their paths.
pub(crate) fn ordered_numbers(alloc: Global, t: &Texts) -> Result<Vec<u32>, Memory>
    ensures { IfOk result (λ numbers. numbers.items ≡ in_order (file_cmp t.now.table) (numbers_from 0 t.now.table)) }
{
    let mut numbers = source_numbers(alloc, t)?;
    numbers.sort_by(|m, n| compare(t, *m, *n))?;
    Ok(numbers)
}
