// Files that would grow past the limits.
ghost use Rattle.std.specs.Prelude.{◌≡◌, ◌≤◌, ◌<◌, ◌+◌, ◌==◌, ◌||◌, min, ℕ, IfOk, Ok, Some, length, slice_get, List};
ghost use Rattle.std.specs.List.{flat_map, prefix_len};
ghost use Rattle.std.specs.Option.{option_map_or};
ghost use Rattle.cs_base.specs.declared.causes.Cause.TheVariants as cause;
ghost use Rattle.analysis.specs.Below.source_files.KeptFiles.{kept_at};
ghost use Rattle.analysis.specs.Below.include_tree.PseudoFiles.{is_pseudo};
ghost use Rattle.part_respell.specs.Order.{AreInOrder};
ghost use Rattle.offences.specs.First.{standing, FirstThen};
ghost use Rattle.rename_rules.specs.Offences.{full_place, large_place, too_large_places};
ghost use Rattle.rename_rules.specs.Runs.{is_edited, is_in, kept_size, kept_sizes, most_size, new_bytes, new_size, new_size_of_all, new_sizes, run_length, runs, size_of, AreApart};

use crate::renamings::Renaming;
use analysis::{Analysis, KeptFile};
use cs_base::{Cause, MOST_BYTES, MOST_BYTES_OF_ALL, Memory, Part};
use offences::{Offence, first_with};
use part_respell::respell;
use std::alloc::Global;

// Whether this is the name of a pseudo file.
fn is_pseudo(path: &[u8]) -> bool
    ensures { result ≡ is_pseudo path.now }
{
    match path {
        [first, ..] => *first == b'<',
        [] => false,
    }
}

// How many of these members stand in a file, from the front on.
fn count_in(file: u32, members: &[Part]) -> usize
    ensures answer { result ≡ prefix_len (is_in file) members.now }
    ensures within { result ≤ length members.now }
{
    members
        .iter()
        .take_while(|part| part.start.file == file)
        .count()
}

/// How many of these members stand in the file of the first one, one behind the other.
pub fn run_length(members: &[Part]) -> usize
    ensures answer { result ≡ run_length members.now }
    ensures within { result ≤ length members.now }
{
    match members {
        [first, more @ ..] => count_in(first.start.file, more) + 1,
        [] => 0,
    }
}

// The sum of two sizes, as far as the limits ask for it.
fn sum(size: usize, more: usize) -> usize
    requires size { size ≤ most_size }
    requires more { more ≤ most_size }
    ensures { result ≡ min (size + more) most_size }
{
    let sum = size + more;
    if sum > MOST_BYTES_OF_ALL {
        MOST_BYTES_OF_ALL + 1
    } else {
        sum
    }
}

// A size, as far as the limits ask for it.
fn capped(size: usize) -> usize
    ensures { result ≡ min size most_size }
{
    if size > MOST_BYTES_OF_ALL {
        MOST_BYTES_OF_ALL + 1
    } else {
        size
    }
}

// How many bytes a file has with the new name for these members.
fn size_in(alloc: Global, file: &KeptFile, run: &[Part], name: &[u8]) -> Result<usize, Memory>
    requires { AreInOrder file.now.number 0 run.now }
    ensures { IfOk result (λ size. size ≡ min (size_of file.now (new_bytes name.now run.now file.now)) most_size) }
{
    if is_pseudo(file.path()) {
        return Ok(0);
    }
    let number = file.number();
    match respell(
        alloc,
        number,
        file.bytes(),
        file.text(),
        run,
        name,
        MOST_BYTES_OF_ALL,
    )? {
        Some(bytes) => Ok(bytes.len()),
        None => Ok(MOST_BYTES_OF_ALL + 1),
    }
}

// The same for the file in which they stand.
fn size(alloc: Global, a: &Analysis, run: &[Part], name: &[u8]) -> Result<usize, Memory>
    requires { (m : Part) → slice_get run.now 0 ≡ Some m → AreInOrder m.start.file 0 run.now }
    ensures { IfOk result (λ size. size ≡ min (new_size a.now.value name.now run.now) most_size) }
{
    match run {
        [first, ..] => match a.file(first.start.file) {
            Some(file) => size_in(alloc, file, run, name),
            None => Ok(0),
        },
        [] => Ok(0),
    }
}

// `TooLarge` at the first of these members, if so many bytes of their file are too many.
fn large_at(a: &Analysis, run: &[Part], size: usize, first: Option<Offence>) -> Option<Offence>
    requires { size ≤ most_size }
    ensures { (name : List ℕ) → size ≡ min (new_size a.now.value name run.now) most_size → FirstThen a.now.value.table (standing cause.TooLarge (large_place a.now.value name run.now)) first result }
{
    match run {
        [part, ..] => {
            if size > MOST_BYTES {
                first_with(a, first, part.start, Cause::TooLarge)
            } else {
                first
            }
        }
        [] => first,
    }
}

// Whether a member stands in the file with this number.
fn is_edited(members: &[Part], number: u32) -> bool
    ensures { result ≡ is_edited members.now number }
{
    members.iter().any(|part| part.start.file == number)
}

// How many bytes a file has that is not edited.
fn kept_size(members: &[Part], number: u32, file: &KeptFile) -> usize
    ensures { result ≡ min (kept_size members.now number file.now) most_size }
{
    if is_edited(members, number) || is_pseudo(file.path()) {
        0
    } else {
        capped(file.bytes().len())
    }
}

// The same of the kept file with this number, if there is one.
fn kept_size_of(a: &Analysis, members: &[Part], number: u32) -> usize
    ensures { result ≡ min (option_map_or (kept_size members.now number) (kept_at a.now.value.table number) 0) most_size }
{
    match a.file(number) {
        Some(file) => kept_size(members, number, file),
        None => 0,
    }
}

// How many all these files have.
fn kept_sizes(a: &Analysis, members: &[Part]) -> usize
    ensures { result ≡ min (kept_sizes members.now 0 a.now.value.table) most_size }
{
    let mut total = 0;
    for number in 0..a.files() {
        total = sum(total, kept_size_of(a, members, number));
    }
    total
}

// The first offence, and how many bytes the files have so far.
#[derive(Clone, Copy)]
struct Grown {
    first: Option<Offence>,
    total: usize,
}

// The same with one file more, in which these members stand.
fn with_run(
    alloc: Global,
    a: &Analysis,
    run: &[Part],
    name: &[u8],
    grown: Grown,
) -> Result<Grown, Memory>
    requires order { (m : Part) → slice_get run.now 0 ≡ Some m → AreInOrder m.start.file 0 run.now }
    requires total { grown.total ≤ most_size }
    ensures total { IfOk result (λ g. g.total ≡ min (grown.total + new_size a.now.value name.now run.now) most_size) }
    ensures first { IfOk result (λ g. FirstThen a.now.value.table (standing cause.TooLarge (large_place a.now.value name.now run.now)) grown.first g.first) }
{
    let size = size(alloc, a, run, name)?;
    Ok(Grown {
        first: large_at(a, run, size, grown.first),
        total: sum(grown.total, size),
    })
}

// The same with all files, in which these members stand.
fn with_runs(
    alloc: Global,
    a: &Analysis,
    members: &[Part],
    name: &[u8],
    grown: Grown,
) -> Result<Grown, Memory>
    requires apart { AreApart members.now }
    requires total { grown.total ≤ most_size }
    ensures total { IfOk result (λ g. g.total ≡ min (grown.total + new_sizes a.now.value name.now (runs members.now)) most_size) }
    ensures first { IfOk result (λ g. FirstThen a.now.value.table (standing cause.TooLarge (flat_map (large_place a.now.value name.now) (runs members.now))) grown.first g.first) }
{
    let mut now = grown;
    let mut rest = members;
    'files: while rest.len() > 0 {
        let (run, others) = rest.split_at(run_length(rest));
        now = with_run(alloc, a, run, name, now)?;
        rest = others;
    }
    Ok(Grown {
        first: now.first,
        total: now.total,
    })
}

// `TooLarge` at the first of all members, if so many bytes of all files are too many.
fn full_at(a: &Analysis, members: &[Part], total: usize, first: Option<Offence>) -> Option<Offence>
    ensures { (name : List ℕ) → total ≡ min (new_size_of_all a.now.value name members.now) most_size → FirstThen a.now.value.table (standing cause.TooLarge (full_place a.now.value name members.now)) first result }
{
    match members {
        [part, ..] => {
            if total > MOST_BYTES_OF_ALL {
                first_with(a, first, part.start, Cause::TooLarge)
            } else {
                first
            }
        }
        [] => first,
    }
}

// The same for these members, each file made once, and given up where it is larger than all may be.
fn too_large_in(
    alloc: Global,
    a: &Analysis,
    members: &[Part],
    name: &[u8],
    first: Option<Offence>,
) -> Result<Option<Offence>, Memory>
    requires { AreApart members.now }
    ensures { IfOk result (FirstThen a.now.value.table (standing cause.TooLarge (too_large_places a.now.value members.now name.now)) first) }
{
    let total = kept_sizes(a, members);
    let grown = with_runs(alloc, a, members, name, Grown { first, total })?;
    Ok(full_at(a, members, grown.total, grown.first))
}

/// `TooLarge`: at the first member of each file that would grow past 2^22 bytes, and at the first of all where the
/// files together would pass 2^28.
pub fn too_large(
    alloc: Global,
    renaming: &Renaming<'_>,
    first: Option<Offence>,
) -> Result<Option<Offence>, Memory>
    ensures { IfOk result (FirstThen renaming.now.class.analysis.value.table (standing cause.TooLarge
        (too_large_places renaming.now.class.analysis.value renaming.now.class.members renaming.now.name)) first) }
{
    let class = renaming.class();
    too_large_in(
        alloc,
        class.analysis(),
        class.members(),
        renaming.name(),
        first,
    )
}
