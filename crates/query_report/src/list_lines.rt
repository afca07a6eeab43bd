// The reports `unused` and `includes`: lists that the whole analysis makes.
ghost use Rattle.std.specs.Prelude.{◌≡◌, ◌++◌, IfOk, OnOk};
ghost use Rattle.query_report.specs.Queries.{line_of, lines_of, PrintsUnneeded, PrintsUnused};

use crate::class_lines::part_lines;
use analysis::{Analysis, push_place};
use cs_base::{Memory, Pos};
use std::alloc::Global;
use unused_names::{unneeded, unused};

/// The first member of each class that is declared and not used, each as `PATH:LINE:COL NAME` on a line.
pub(crate) fn unused_report(alloc: Global, a: &Analysis) -> Result<Vec<u8>, Memory>
    ensures { IfOk result (λ text. PrintsUnused a.now.value text.items) }
{
    let parts = unused(alloc, a)?;
    part_lines(alloc, a, &parts)
}

/// The `#` of each include line that no inclusion needs, each as `PATH:LINE:COL` on a line.
pub(crate) fn includes_report(alloc: Global, a: &Analysis) -> Result<Vec<u8>, Memory>
    ensures { IfOk result (λ text. PrintsUnneeded a.now.value text.items) }
{
    let places = unneeded(alloc, a)?;
    place_lines(alloc, a, &places)
}

#[tactic(auto, unfolding(crate::specs::Queries::lines_of))]
// The lines of positions, in order.
fn place_lines(alloc: Global, a: &Analysis, places: &[Pos]) -> Result<Vec<u8>, Memory>
    ensures { IfOk result (λ text. text.items ≡ lines_of a.now.value places.now) }
{
    let mut text = Vec::new(alloc);
    for at in places {
        push_line(&mut text, a, *at)?;
    }
    Ok(text)
}

// Adds the line of a position.
fn push_line(text: &mut Vec<u8>, a: &Analysis, at: Pos) -> Result<(), Memory>
    ensures { OnOk result (text.new.items ≡ text.old.items ++ line_of a.now.value at) }
{
    push_place(text, a, at)?;
    text.extend_from_slice(b"\n")?;
    Ok(())
}
