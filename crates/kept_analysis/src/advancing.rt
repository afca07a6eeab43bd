// An analysis that goes on with the files behind a renaming.
ghost use Rattle.std.specs.Prelude.{ℕ, ◌≡◌, ◌<◌, IfOk, Some, length, slice_get};
ghost use Rattle.eclass_map.specs.ClassTable.{HasParts, Table, class_in, members_of};
ghost use Rattle.eclass_map.specs.Resized.{Resizes};
ghost use Rattle.analysis.specs.Analysis.{UnitAnalysis};
ghost use Rattle.analysis.specs.Classes.{AreItsClasses};
ghost use Rattle.kept_analysis.specs.Following.{IsAnalysedAnew, IsFollowed, IsReadAsBefore, IsRenamedIn, renamed_by};
ghost use Rattle.offences.specs.Moves.{renaming_by};

use crate::renamed_files::edited_files;
use crate::renamed_texts::renamed_units;
use analysis::{Analysis, AnalysisParts};
use cs_base::{Memory, Part};
use eclass_map::Classes;
use offences::{Moves, class_moves};
use std::alloc::Global;

/// The analysis of the files behind a renaming of the class of a part: of those that have this analysis, with the new name for
/// each member. Trees and bindings stay, and class numbers too: each part moves, in its file, by the growth of the members
/// before it. Refused where memory runs out, and where the files or the tables come to their limits.
pub fn advance(alloc: Global, a: Analysis, part: Part, name: &[u8]) -> Result<Analysis, Memory>
    requires { IsFollowed a.value part name.now }
    ensures answer { IfOk result (λ b. IsRenamedIn a.value part name.now b.value) }
    // It is the analysis of the files with the members respelled, over each source that holds them.
    ensures anew { IfOk result (λ b. IsAnalysedAnew a.value part name.now b.value) }
    ensures own { IfOk result (λ b. AreItsClasses b.value b.classes) }
    // The table of classes is the old one, in which the members have the new length.
    ensures moved { IfOk result (λ b. (c : ℕ) → class_in a.classes part ≡ Some c → Resizes c (length name.now) a.classes b.classes) }
{
    match a.classes().class_of(part) {
        Some(class) => {
            let moves = class_moves(alloc, &a, a.members(part), name)?;
            followed(alloc, a, &moves, class, name.len())
        }
        // Each part has a class.
        None => Err(Memory),
    }
}

// The same by the tables of the members.
fn followed(
    alloc: Global,
    a: Analysis,
    moves: &Moves,
    class: u32,
    len: usize,
) -> Result<Analysis, Memory>
    requires own { (t : Table) → Resizes class len a.classes t → HasParts t → AreItsClasses (renamed_by moves.now a.value) t }
    requires read { (k : ℕ) (u : UnitAnalysis) → slice_get a.value.units k ≡ Some u → IsReadAsBefore (renaming_by moves.now) u }
    requires held { 0 < length (members_of a.classes class) }
    requires some { 0 < len }
    ensures answer { IfOk result (λ b. b.value ≡ renamed_by moves.now a.value) }
    ensures own { IfOk result (λ b. AreItsClasses b.value b.classes) }
    ensures moved { IfOk result (λ b. Resizes class len a.classes b.classes) }
{
    let AnalysisParts {
        workspace,
        units,
        cache,
        classes,
    } = a.into_parts(alloc)?;
    let classes = resized(classes, class, len)?;
    let units = renamed_units(alloc, moves, units)?;
    let cache = edited_files(alloc, moves, cache)?;
    Analysis::of_parts(
        alloc,
        AnalysisParts {
            workspace,
            units,
            cache,
            classes,
        },
    )
}

// The table in which the members of a class have so many characters.
fn resized(classes: Classes, class: u32, len: usize) -> Result<Classes, Memory>
    requires held { 0 < length (members_of classes class) }
    requires some { 0 < len }
    ensures moved { IfOk result (λ t. Resizes class len classes t) }
    ensures parts { IfOk result (λ t. HasParts t) }
{
    let mut classes = classes;
    if len > u32::MAX as usize {
        return Err(Memory);
    }
    if !classes.can_resize(class, len as u32) {
        return Err(Memory);
    }
    classes.resize(class, len as u32)?;
    Ok(classes)
}
