// Include lines that bring nothing which is used.
ghost use Rattle.std.specs.Prelude.{◌≡◌, ◌++◌, ◌∷◌, [], filter, IfOk, OnOk};
ghost use Rattle.std.specs.List.Sorted.{IsStrictlySortedBy};
ghost use Rattle.unused_names.specs.Lines.{HaveSame, has_position, is_chosen};
ghost use Rattle.unused_names.specs.Order.{position_cmp};
ghost use Rattle.unused_names.specs.Unneeded.{AreUnneeded};

use crate::lines::Lines;
use crate::order::compare;
use analysis::Analysis;
use cs_base::{Memory, Pos};
use std::alloc::Global;

/// The `#` of each include line that is unneeded in every inclusion, in the order of their places; lines in
/// read-only files are left out.
pub fn unneeded(alloc: Global, a: &Analysis) -> Result<Vec<Pos>, Memory>
    ensures { IfOk result (λ lines. AreUnneeded a.now.value lines.items) }
{
    let lines = Lines::of(alloc, a)?;
    let places = in_order(alloc, a, lines.all())?;
    chosen(alloc, a, &lines, &places)
}

// Positions in their order, each once.
fn in_order(alloc: Global, a: &Analysis, all: &[Pos]) -> Result<Vec<Pos>, Memory>
    ensures same { IfOk result (λ places. HaveSame all.now places.items) }
    ensures sorted { IfOk result (λ places. IsStrictlySortedBy (position_cmp a.now.value.table) places.items) }
{
    let mut places = Vec::from_slice(alloc, all)?;
    places.sort_by(|p, q| compare(a, *p, *q))?;
    places.dedup();
    Ok(places)
}

// Whether a line is unneeded and stands in no read-only file.
fn is_chosen(a: &Analysis, lines: &Lines, p: Pos) -> bool
    ensures { result ≡ is_chosen a.now.value (has_position lines.now.needed) p }
{
    !lines.needs(p) && !a.read_only(p.file)
}

// Adds a line, if it is chosen.
fn push_chosen(out: &mut Vec<Pos>, a: &Analysis, lines: &Lines, p: Pos) -> Result<(), Memory>
    ensures { OnOk result (out.new.items ≡ out.old.items ++ filter (is_chosen a.now.value (has_position lines.now.needed)) (p ∷ [])) }
{
    if is_chosen(a, lines, p) {
        out.push(p)?;
    }
    Ok(())
}

// Those of these lines.
fn chosen(alloc: Global, a: &Analysis, lines: &Lines, places: &[Pos]) -> Result<Vec<Pos>, Memory>
    ensures { IfOk result (λ out. out.items ≡ filter (is_chosen a.now.value (has_position lines.now.needed)) places.now) }
{
    let mut out = Vec::new(alloc);
    for p in places {
        push_chosen(&mut out, a, lines, *p)?;
    }
    Ok(out)
}
