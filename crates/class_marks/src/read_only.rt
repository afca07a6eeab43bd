// Classes with members in files that are not edited.
ghost use Rattle.std.specs.Prelude.{◌≡◌, IfOk, MatchBool};
ghost use Rattle.cs_base.specs.declared.positions.Part.{Part as APart};
ghost use Rattle.analysis.specs.Parts.{AreMembers, IsPart};
ghost use Rattle.analysis.specs.Places.{is_read_only};
ghost use Rattle.class_marks.specs.Touching.{AreReadOnly, IsReadOnlyClass};

use analysis::Analysis;
use cs_base::{Memory, Part};
use std::alloc::Global;

/// Of each file, by its number, whether it is read-only.
pub fn read_only_files(alloc: Global, a: &Analysis) -> Result<Vec<bool>, Memory>
    ensures { IfOk result (λ files. AreReadOnly a.now.value files.items) }
{
    let mut files = Vec::new(alloc);
    for number in 0..a.files() {
        files.push(a.read_only(number))?;
    }
    Ok(files)
}

// Whether the file with a number is.
fn is_read_only(a: &Analysis, files: &[bool], number: u32) -> bool
    requires { AreReadOnly a.now.value files.now }
    ensures { result ≡ is_read_only a.now.value.table a.now.value.workspace.readonly number }
{
    if (number as usize) < files.len() {
        files[number as usize]
    } else {
        a.read_only(number)
    }
}

/// Whether some member of a class with these members lies in a read-only file.
pub fn any_read_only(a: &Analysis, files: &[bool], members: &[Part]) -> bool
    requires { AreReadOnly a.now.value files.now }
    ensures { (part : APart) → AreMembers a.now.value part members.now
        → MatchBool result (IsReadOnlyClass a.now.value part) (IsReadOnlyClass a.now.value part → ⊥) }
{
    for member in members {
        if is_read_only(a, files, member.start.file) {
            return true;
        }
    }
    false
}

/// The same, where its members are not known.
pub fn has_read_only(a: &Analysis, files: &[bool], part: Part) -> bool
    requires part { IsPart a.now.value part }
    requires files { AreReadOnly a.now.value files.now }
    ensures { MatchBool result (IsReadOnlyClass a.now.value part) (IsReadOnlyClass a.now.value part → ⊥) }
{
    any_read_only(a, files, a.members(part))
}
