// Whole tokens of other classes.
ghost use Rattle.std.specs.Prelude.{◌≡◌, Some, IfOk, MatchBool};
ghost use Rattle.eclass_map.specs.ClassTable.{class_in};
ghost use Rattle.analysis.specs.Classes.{AreItsClasses};
ghost use Rattle.analysis.specs.Parts.{IsMember, IsPart};
ghost use Rattle.class_marks.specs.Keeping.{Keeps};
ghost use Rattle.unseen_names.specs.Unseen.{is_same, IsOther};

use analysis::Analysis;
use cs_base::{Memory, Part};
use std::alloc::Global;

// Whether two places are one.
fn is_same(p: Part, q: Part) -> bool
    ensures { result ≡ is_same p q }
{
    (p.start.file == q.start.file && p.start.at == q.start.at) && p.len == q.len
}

// Whether a place is that of a part.
fn is_part(a: &Analysis, place: Part) -> bool
    ensures { MatchBool result (IsPart a.now.value place) (IsPart a.now.value place → ⊥) }
{
    match a.part_of(place.start) {
        Some(part) => is_same(part, place),
        None => false,
    }
}

// The number of the class of a part.
fn class_of(a: &Analysis, part: Part) -> u32
    requires { IsPart a.now.value part }
    ensures answer { class_in a.now.classes part ≡ Some result }
    ensures own { AreItsClasses a.now.value a.now.classes }
{
    match a.classes().class_of(part) {
        Some(class) => class,
        None => unreachable!(),
    }
}

// Whether a part is a member of the class of another.
fn is_member(a: &Analysis, part: Part, other: Part) -> bool
    requires part { IsPart a.now.value part }
    requires other { IsPart a.now.value other }
    ensures { MatchBool result (IsMember a.now.value part other) (IsMember a.now.value part other → ⊥) }
{
    class_of(a, part) == class_of(a, other)
}

// Whether a place is that of a part of another class.
fn is_other(a: &Analysis, part: Part, place: Part) -> bool
    requires { IsPart a.now.value part }
    ensures { MatchBool result (IsOther a.now.value part place) (IsOther a.now.value part place → ⊥) }
{
    if !is_part(a, place) {
        return false;
    }
    let member = is_member(a, part, place);
    !member
}

/// Those of these places that are parts of other classes.
pub(crate) fn others(
    alloc: Global,
    a: &Analysis,
    part: Part,
    places: &[Part],
) -> Result<Vec<Part>, Memory>
    requires { IsPart a.now.value part }
    ensures { IfOk result (λ others. Keeps (IsOther a.now.value part) places.now others.items) }
{
    let mut out = Vec::new(alloc);
    for place in places {
        if is_other(a, part, *place) {
            out.push(*place)?;
        }
    }
    Ok(out)
}
