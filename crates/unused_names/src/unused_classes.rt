// Names that are declared and not used.
ghost use Rattle.std.specs.Prelude.{◌≡◌, IfOk, MatchBool, codes};
ghost use Rattle.std.specs.Str.{bytes_eq};
ghost use Rattle.analysis.specs.Parts.{IsFirst, IsPart};
ghost use Rattle.class_marks.specs.Marks.{AreMarked};
ghost use Rattle.class_marks.specs.Roles.{names_with};
ghost use Rattle.class_marks.specs.Touching.{AreReadOnly, HasRole, IsReadOnlyClass};
ghost use Rattle.unused_names.specs.Unused.{AreUnused, IsDeclaredAlone, IsUnused};
ghost use Rattle.class_marks.specs.declared.roles.Role.TheVariants as role;

use analysis::Analysis;
use class_marks::{Role, class_number, has_read_only, is_class_marked, marks_of, read_only_files};
use cs_base::{Memory, Part};
use std::alloc::Global;

// Whether the class of a part has a name that declares, and none that uses.
fn is_declared_alone(a: &Analysis, declared: &[bool], used: &[bool], part: Part) -> bool
    requires part { IsPart a.now.value part }
    requires declared { AreMarked a.now.classes (names_with role.Declares a.now.value) declared.now }
    requires used { AreMarked a.now.classes (names_with role.Uses a.now.value) used.now }
    ensures { MatchBool result (IsDeclaredAlone a.now.value part) (IsDeclaredAlone a.now.value part → ⊥) }
{
    let class = class_number(a, part);
    if !is_class_marked(a, declared, part, class) {
        return false;
    }
    let is_used = is_class_marked(a, used, part, class);
    !is_used
}

// Whether this is the name of the function that a program begins with.
fn is_main(name: &[u8]) -> bool
    ensures { result ≡ bytes_eq name.now (codes "main") }
{
    name == b"main".as_slice()
}

/// Whether the first member of a class is one that is unused, where it is known of the class whether some name declares it, whether
/// one uses it, and whether a member lies in a read-only file.
pub fn is_unused_class(
    a: &Analysis,
    declared: bool,
    used: bool,
    read_only: bool,
    part: Part,
) -> bool
    requires first { IsFirst a.now.value part }
    requires declared { MatchBool declared (HasRole a.now.value role.Declares part) (HasRole a.now.value role.Declares part → ⊥) }
    requires used { MatchBool used (HasRole a.now.value role.Uses part) (HasRole a.now.value role.Uses part → ⊥) }
    requires read_only { MatchBool read_only (IsReadOnlyClass a.now.value part) (IsReadOnlyClass a.now.value part → ⊥) }
    ensures { MatchBool result (IsUnused a.now.value part) (IsUnused a.now.value part → ⊥) }
{
    if !declared {
        return false;
    }
    if used {
        return false;
    }
    if read_only {
        return false;
    }
    let is_main = is_main(a.spelling(part));
    !is_main
}

// Whether the first member of a class is one that is declared and not used, by the marks of both roles and the files that are
// read-only.
fn is_unused(a: &Analysis, declared: &[bool], used: &[bool], files: &[bool], part: Part) -> bool
    requires first { IsFirst a.now.value part }
    requires declared { AreMarked a.now.classes (names_with role.Declares a.now.value) declared.now }
    requires used { AreMarked a.now.classes (names_with role.Uses a.now.value) used.now }
    requires files { AreReadOnly a.now.value files.now }
    ensures { MatchBool result (IsUnused a.now.value part) (IsUnused a.now.value part → ⊥) }
{
    if !is_declared_alone(a, declared, used, part) {
        return false;
    }
    if has_read_only(a, files, part) {
        return false;
    }
    let is_main = is_main(a.spelling(part));
    !is_main
}

// Those of the first members of classes.
fn chosen(
    alloc: Global,
    a: &Analysis,
    declared: &[bool],
    used: &[bool],
    files: &[bool],
) -> Result<Vec<Part>, Memory>
    requires declared { AreMarked a.now.classes (names_with role.Declares a.now.value) declared.now }
    requires used { AreMarked a.now.classes (names_with role.Uses a.now.value) used.now }
    requires files { AreReadOnly a.now.value files.now }
    ensures { IfOk result (λ parts. AreUnused a.now.value parts.items) }
{
    let firsts = a.firsts();
    let mut parts = Vec::new(alloc);
    for part in firsts {
        if is_unused(a, declared, used, files, *part) {
            parts.push(*part)?;
        }
    }
    Ok(parts)
}

/// The first member of each class that is unused, in the order of their places.
pub fn unused(alloc: Global, a: &Analysis) -> Result<Vec<Part>, Memory>
    ensures { IfOk result (λ parts. AreUnused a.now.value parts.items) }
{
    let declared = marks_of(alloc, a, Role::Declares)?;
    let used = marks_of(alloc, a, Role::Uses)?;
    let files = read_only_files(alloc, a)?;
    chosen(alloc, a, &declared, &used, &files)
}
