// The lines that tell these places.
ghost use Rattle.std.specs.Prelude.{◌≡◌, ◌++◌, OnOk, ℕ, List};
ghost use Rattle.cs_base.specs.declared.positions.Part.{Part};
ghost use Rattle.analysis.specs.Parts.{IsPart};
ghost use Rattle.unseen_names.specs.Unseen.{unseen_line, unseen_lines, PrintsUnseen};

use crate::unseen_places::unseen;
use analysis::{Analysis, push_place};
use cs_base::{Memory, Part};
use std::alloc::Global;

// Adds the line of a place.
fn push_line(text: &mut Vec<u8>, a: &Analysis, part: Part, place: Part) -> Result<(), Memory>
    requires { IsPart a.now.value part }
    ensures { OnOk result (text.new.items ≡ text.old.items ++ unseen_line a.now.value part place) }
{
    text.extend_from_slice(b"unseen ")?;
    push_place(text, a, place.start)?;
    text.extend_from_slice(b" ")?;
    text.extend_from_slice(a.spelling(part))?;
    text.extend_from_slice(b"\n")?;
    Ok(())
}

#[tactic(auto, unfolding(crate::specs::Unseen::unseen_lines))]
// Adds those of places.
fn push_lines(text: &mut Vec<u8>, a: &Analysis, part: Part, places: &[Part]) -> Result<(), Memory>
    requires { IsPart a.now.value part }
    ensures { OnOk result (text.new.items ≡ text.old.items ++ unseen_lines a.now.value part places.now) }
{
    for place in places {
        push_line(text, a, part, *place)?;
    }
    Ok(())
}

/// Adds a line for each place where the name of the class of a part stands unseen, in their order:
/// `unseen PATH:LINE:COL NAME`.
pub fn push_unseen(
    alloc: Global,
    text: &mut Vec<u8>,
    a: &Analysis,
    part: Part,
) -> Result<(), Memory>
    requires { IsPart a.now.value part }
    ensures { OnOk result ((lines : List ℕ) × PrintsUnseen a.now.value part lines × (text.new.items ≡ text.old.items ++ lines)) }
{
    let places = unseen(alloc, a, part)?;
    push_lines(text, a, part, &places)
}
