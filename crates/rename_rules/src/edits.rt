// The edits of the files that hold members of a class.
ghost use Rattle.std.specs.Prelude.{◌≡◌, ◌++◌, ◌∷◌, [], IfOk, IsTrue, IsUtf8, Some, length, slice_get};
ghost use Rattle.cs_base.specs.Edit.{edit, comes_last};
ghost use Rattle.analysis.specs.Below.source_files.Tables.{AreText};
ghost use Rattle.part_respell.specs.Order.{AreInOrder};
ghost use Rattle.rename_rules.specs.FileOrder.{AreByPath, IsNext};
ghost use Rattle.rename_rules.specs.Runs.{edit_of, edits_of, new_bytes, AreApart};
ghost use Rattle.cs_base.specs.declared.positions.Part.{Part as APart};

use crate::sizes::run_length;
use analysis::{Analysis, KeptFile};
use cs_base::{Edits, MOST_BYTES_OF_ALL, Memory, Part, Text};
use part_respell::respell;
use std::alloc::Global;

// One edit more.
fn pushed(
    alloc: Global,
    edits: Edits,
    path: &[u8],
    bytes: Vec<u8>,
    count: u32,
) -> Result<Edits, Memory>
    requires last { IsTrue (comes_last path.now edits) }
    requires text { IsUtf8 path.now }
    ensures { IfOk result (λ e. e ≡ edits ++ edit path.now bytes.items count ∷ []) }
{
    if edits.len() == u32::MAX {
        return Err(Memory);
    }
    let mut edits = edits;
    edits.push(Text::new(alloc, path)?, bytes, count)?;
    Ok(edits)
}

// The edits with that of one more file, whose members these are.
fn with_file(
    alloc: Global,
    file: &KeptFile,
    run: &[Part],
    name: &[u8],
    edits: Edits,
) -> Result<Edits, Memory>
    requires order { AreInOrder file.now.number 0 run.now }
    requires last { IsTrue (comes_last file.now.path edits) }
    requires text { IsUtf8 file.now.path }
    ensures { IfOk result (λ e. e ≡ edits ++ edit file.now.path (new_bytes name.now run.now file.now) (length run.now) ∷ []) }
{
    let number = file.number();
    let made = respell(
        alloc,
        number,
        file.bytes(),
        file.text(),
        run,
        name,
        MOST_BYTES_OF_ALL,
    )?;
    let count = run.len();
    if count > u32::MAX as usize {
        return Err(Memory);
    }
    match made {
        Some(bytes) => pushed(alloc, edits, file.path(), bytes, count as u32),
        None => Err(Memory),
    }
}

// The same for the file in which these members stand.
fn with_run(
    alloc: Global,
    a: &Analysis,
    run: &[Part],
    name: &[u8],
    edits: Edits,
) -> Result<Edits, Memory>
    requires order { (m : APart) → slice_get run.now 0 ≡ Some m → AreInOrder m.start.file 0 run.now }
    requires next { IsNext a.now.value.table edits run.now }
    ensures { IfOk result (λ e. e ≡ edits ++ edit_of a.now.value name.now run.now) }
{
    match run {
        [first, ..] => match a.file(first.start.file) {
            Some(file) => with_file(alloc, file, run, name, edits),
            None => Ok(edits),
        },
        [] => Ok(edits),
    }
}

#[tactic(auto, unfolding(crate::specs::Runs::edits_of))]
/// The edits of all files that hold a member.
pub fn edit_files(
    alloc: Global,
    a: &Analysis,
    members: &[Part],
    name: &[u8],
) -> Result<Edits, Memory>
    requires apart { AreApart members.now }
    requires by_path { AreByPath a.now.value.table members.now }
    requires text { AreText a.now.value.table }
    ensures { IfOk result (λ e. e ≡ edits_of a.now.value members.now name.now) }
{
    let mut edits = Edits::new(alloc);
    let mut rest = members;
    'files: while rest.len() > 0 {
        let (run, others) = rest.split_at(run_length(rest));
        edits = with_run(alloc, a, run, name, edits)?;
        rest = others;
    }
    Ok(edits)
}
