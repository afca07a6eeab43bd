// Classes that no name declares or uses, where no unit has the token.
ghost use Rattle.std.specs.Prelude.{◌≡◌, ℕ, Some, IfOk, MatchBool, slice_get};
ghost use Rattle.cs_base.specs.declared.positions.Part.{Part};
ghost use Rattle.cs_base.specs.declared.positions.Pos.{Pos};
ghost use Rattle.analysis.specs.Parts.{IsPart};
ghost use Rattle.class_marks.specs.Keeping.{Keeps};
ghost use Rattle.unseen_names.specs.Characters.{is_marked};
ghost use Rattle.unseen_names.specs.Groups.{is_in_group, HasGroup};
ghost use Rattle.unseen_names.specs.declared.names.Group.TheVariants as group;
ghost use Rattle.unseen_names.specs.Unseen.{IsIdle, IsUnstated};

use crate::characters::{Marks, any_marked};
use crate::names::{Group, marks_of};
use crate::processed::unprocessed;
use analysis::Analysis;
use cs_base::{Memory, Part};
use std::alloc::Global;
use std::mem;

// Whether no name declares or uses the class of a part, by the marks of those that do.
fn is_unstated(a: &Analysis, marks: &[Marks], place: Part) -> bool
    requires place { IsPart a.now.value place }
    requires marks { (p : Pos) → is_marked marks.now p ≡ is_in_group group.Stated a.now.value p }
    ensures { MatchBool result (IsUnstated a.now.value place) (IsUnstated a.now.value place → ⊥) }
{
    !any_marked(marks, a.members(place))
}

// Those of these parts.
fn unstated_by(
    alloc: Global,
    a: &Analysis,
    marks: &[Marks],
    places: &[Part],
) -> Result<Vec<Part>, Memory>
    requires places { (k : ℕ) (place : Part) → slice_get places.now k ≡ Some place → IsPart a.now.value place }
    requires marks { (p : Pos) → is_marked marks.now p ≡ is_in_group group.Stated a.now.value p }
    ensures { IfOk result (λ out. Keeps (IsUnstated a.now.value) places.now out.items) }
{
    let mut out = Vec::new(alloc);
    for place in places {
        if is_unstated(a, marks, *place) {
            out.push(*place)?;
        }
    }
    Ok(out)
}

// Those of these parts whose classes no name declares or uses.
fn unstated(alloc: Global, a: &Analysis, places: Vec<Part>) -> Result<Vec<Part>, Memory>
    requires { (k : ℕ) (place : Part) → slice_get places.items k ≡ Some place → IsPart a.now.value place }
    ensures { IfOk result (λ out. Keeps (IsUnstated a.now.value) places.items out.items) }
{
    if places.is_empty() {
        return Ok(places);
    }
    let marks = marks_of(alloc, a, Group::Stated)?;
    let left = unstated_by(alloc, a, &marks, &places);
    mem::forget(marks);
    left
}

/// Those of these parts whose classes no name declares or uses, and which no unit has. What a unit has is found first, since
/// most of these parts are there.
pub(crate) fn idle(alloc: Global, a: &Analysis, places: Vec<Part>) -> Result<Vec<Part>, Memory>
    requires { (k : ℕ) (place : Part) → slice_get places.items k ≡ Some place → IsPart a.now.value place }
    ensures { IfOk result (λ out. Keeps (IsIdle a.now.value) places.items out.items) }
{
    if places.is_empty() {
        return Ok(places);
    }
    let apart = unprocessed(alloc, a, &places)?;
    unstated(alloc, a, apart)
}
