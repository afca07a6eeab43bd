// Which places a class reaches.
ghost use Rattle.std.specs.Prelude.{◌≡◌, IfOk, MatchBool};
ghost use Rattle.std.specs.List.{list_any};
ghost use Rattle.analysis.specs.Parts.{IsPart};
ghost use Rattle.class_marks.specs.Keeping.{Keeps};
ghost use Rattle.unseen_names.specs.Reach.{are_around, begins_before, begins_behind, is_elsewhere, IsBetween, IsWide, Reaches, ReachesStart};

use crate::characters::any_marked;
use crate::names::{Group, marks_of};
use analysis::Analysis;
use cs_base::{Memory, Part, Pos};
use std::alloc::Global;
use std::mem;

// ---- names that reach past a function

// Whether the class has a name that reaches past a function.
fn is_wide(alloc: Global, a: &Analysis, part: Part) -> Result<bool, Memory>
    requires { IsPart a.now.value part }
    ensures { IfOk result (λ b. MatchBool b (IsWide a.now.value part) (IsWide a.now.value part → ⊥)) }
{
    let marks = marks_of(alloc, a, Group::Wide)?;
    let wide = any_marked(&marks, a.members(part));
    mem::forget(marks);
    Ok(wide)
}

// ---- between members

// Whether some member stands in another file.
fn any_elsewhere(members: &[Part], file: u32) -> bool
    ensures { result ≡ list_any (is_elsewhere file) members.now }
{
    members.iter().any(|m| m.start.file != file)
}

// Whether some member begins before a character.
fn any_before(members: &[Part], at: u32) -> bool
    ensures { result ≡ list_any (begins_before at) members.now }
{
    members.iter().any(|m| m.start.at < at)
}

// Whether some member begins behind it.
fn any_behind(members: &[Part], at: u32) -> bool
    ensures { result ≡ list_any (begins_behind at) members.now }
{
    members.iter().any(|m| at < m.start.at)
}

// Whether all members stand in the file of a position, before it and behind it.
fn are_around(members: &[Part], p: Pos) -> bool
    ensures { result ≡ are_around members.now p }
{
    !any_elsewhere(members, p.file) && (any_before(members, p.at) && any_behind(members, p.at))
}

// Whether a position stands between the members of the class.
fn is_between(a: &Analysis, part: Part, p: Pos) -> bool
    requires { IsPart a.now.value part }
    ensures { MatchBool result (IsBetween a.now.value part p) (IsBetween a.now.value part p → ⊥) }
{
    are_around(a.members(part), p)
}

// ---- both

// Whether the class reaches the start of a place; `wide` says that it reaches past a function.
fn does_reach(a: &Analysis, part: Part, wide: bool, place: Part) -> bool
    requires part { IsPart a.now.value part }
    requires wide { MatchBool wide (IsWide a.now.value part) (IsWide a.now.value part → ⊥) }
    ensures { MatchBool result (Reaches a.now.value part place.start) (Reaches a.now.value part place.start → ⊥) }
{
    wide || is_between(a, part, place.start)
}

// Those of these places that the class reaches.
fn reached_by(
    alloc: Global,
    a: &Analysis,
    part: Part,
    wide: bool,
    places: &[Part],
) -> Result<Vec<Part>, Memory>
    requires part { IsPart a.now.value part }
    requires wide { MatchBool wide (IsWide a.now.value part) (IsWide a.now.value part → ⊥) }
    ensures { IfOk result (λ out. Keeps (ReachesStart a.now.value part) places.now out.items) }
{
    let mut out = Vec::new(alloc);
    for place in places {
        if does_reach(a, part, wide, *place) {
            out.push(*place)?;
        }
    }
    Ok(out)
}

/// Those of these places that the class of a part reaches.
pub(crate) fn reached(
    alloc: Global,
    a: &Analysis,
    part: Part,
    places: Vec<Part>,
) -> Result<Vec<Part>, Memory>
    requires { IsPart a.now.value part }
    ensures { IfOk result (λ out. Keeps (ReachesStart a.now.value part) places.items out.items) }
{
    if places.is_empty() {
        return Ok(places);
    }
    let wide = is_wide(alloc, a, part)?;
    reached_by(alloc, a, part, wide, &places)
}
