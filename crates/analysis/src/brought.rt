// The numbers that units bring: those of lines, and those that stand for operands of `defined`.
ghost use Rattle.std.specs.Prelude.{◌≡◌, ◌++◌, ◌∷◌, [], IfOk, OnOk, option_copied};
ghost use Rattle.std.specs.Option.{option_map_or};
ghost use Rattle.macro_expand.specs.Below.macro_body.Substitution.{line_number};
ghost use Rattle.analysis.specs.BroughtNumbers.{all_brought};
ghost use Rattle.analysis.specs.FileTokens.{number_of_event, numbers_brought};

use crate::accepted::UnitParts;
use cs_base::{MOST_BYTES, Memory, Tok};
use include_tree::{Event, EventKind, UnitText};
use macro_expand::{line_number, push_shared};
use std::alloc::Global;

/// The numbers that the units bring, each for each time that it is brought.
pub(crate) fn all_brought(alloc: Global, units: &[UnitParts]) -> Result<Vec<Tok>, Memory>
    ensures { IfOk result (λ all. all.items ≡ all_brought units.now) }
{
    let mut all = Vec::new(alloc);
    for unit in units {
        push_brought(alloc, &mut all, unit.text())?;
    }
    Ok(all)
}

/// Adds the numbers that a unit brings.
pub(crate) fn push_brought(alloc: Global, all: &mut Vec<Tok>, text: &UnitText) -> Result<(), Memory>
    ensures { OnOk result (all.new.items ≡ all.old.items ++ numbers_brought text.now) }
{
    let events = text.events();
    for event in events {
        push_line(alloc, all, event)?;
    }
    push_shared(all, text.answers())
}

// Adds the number of the line, where an event replaces `__LINE__` by its first definition.
fn push_line(alloc: Global, all: &mut Vec<Tok>, event: &Event) -> Result<(), Memory>
    ensures { OnOk result (all.new.items ≡ all.old.items ++ number_of_event event.now) }
{
    if let Some(name) = line_name(event) {
        all.push(number_of(alloc, name)?)?;
    }
    Ok(())
}

// The name, where an event replaces `__LINE__` by its first definition.
fn line_name(event: &Event) -> Option<&Tok>
    ensures { number_of_event event.now ≡ option_map_or (λ name. line_number name ∷ []) (option_copied result) [] }
{
    match event.kind {
        EventKind::Replaced => {}
        _ => return None,
    }
    if event.def.is_some() {
        return None;
    }
    match &event.name {
        Some(name) => {
            if name.text() == b"__LINE__".as_slice() {
                Some(name)
            } else {
                None
            }
        }
        None => None,
    }
}

// The number of the line of a name. A line that no file has is answered by `Memory`.
fn number_of(alloc: Global, name: &Tok) -> Result<Tok, Memory>
    ensures { IfOk result (λ t. t ≡ line_number name.now) }
{
    if name.line() as usize > MOST_BYTES {
        return Err(Memory);
    }
    line_number(alloc, name)
}
