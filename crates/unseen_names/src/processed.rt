// Characters that tokens of units come from.
ghost use Rattle.std.specs.Prelude.{◌≡◌, IfOk, MatchBool};
ghost use Rattle.std.specs.List.{list_any};
ghost use Rattle.cs_base.specs.declared.positions.Pos.{Pos};
ghost use Rattle.class_marks.specs.Keeping.{Keeps};
ghost use Rattle.unseen_names.specs.Characters.{is_marked};
ghost use Rattle.unseen_names.specs.Unseen.{is_in_unit, IsUnprocessed};

use crate::characters::{Marks, is_marked, mark_tokens};
use analysis::Analysis;
use cs_base::{Memory, Part};
use std::alloc::Global;
use std::mem;

// Marks on those of all units.
fn processed(alloc: Global, a: &Analysis) -> Result<Vec<Marks>, Memory>
    ensures { IfOk result (λ marks. (p : Pos) → is_marked marks.items p ≡ list_any (is_in_unit p) a.now.value.units) }
{
    let mut marks = Vec::new(alloc);
    for unit in 0..a.units() {
        let one = a.unit(alloc, unit + 1)?;
        mark_tokens(alloc, &mut marks, one.text().toks())?;
    }
    Ok(marks)
}

// Whether no unit has a part, by these marks.
fn is_unprocessed(a: &Analysis, marks: &[Marks], place: Part) -> bool
    requires { (p : Pos) → is_marked marks.now p ≡ list_any (is_in_unit p) a.now.value.units }
    ensures { MatchBool result (IsUnprocessed a.now.value place) (IsUnprocessed a.now.value place → ⊥) }
{
    !is_marked(marks, place.start)
}

// Those of these parts.
fn unprocessed_by(
    alloc: Global,
    a: &Analysis,
    marks: &[Marks],
    places: &[Part],
) -> Result<Vec<Part>, Memory>
    requires { (p : Pos) → is_marked marks.now p ≡ list_any (is_in_unit p) a.now.value.units }
    ensures { IfOk result (λ out. Keeps (IsUnprocessed a.now.value) places.now out.items) }
{
    let mut out = Vec::new(alloc);
    for place in places {
        if is_unprocessed(a, marks, *place) {
            out.push(*place)?;
        }
    }
    Ok(out)
}

/// Those of these parts which no unit has.
pub(crate) fn unprocessed(alloc: Global, a: &Analysis, places: &[Part]) -> Result<Vec<Part>, Memory>
    ensures { IfOk result (λ out. Keeps (IsUnprocessed a.now.value) places.now out.items) }
{
    let marks = processed(alloc, a)?;
    let left = unprocessed_by(alloc, a, &marks, places);
    mem::forget(marks);
    left
}
