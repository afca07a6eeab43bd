// The texts of units as they stand behind a renaming.
ghost use Rattle.std.specs.Prelude.{ℕ, ◌≡◌, Some, IfOk, map, option_copied, slice_get};
ghost use Rattle.std.specs.Option.{option_map};
ghost use Rattle.include_tree.specs.Below.unit_steps.Texts.{text_of};
ghost use Rattle.analysis.specs.Analysis.{UnitAnalysis};
ghost use Rattle.analysis.specs.Changed.{renamed_event, renamed_text, renamed_token, renamed_unit_analysis};
ghost use Rattle.kept_analysis.specs.Following.{IsReadAsBefore};
ghost use Rattle.offences.specs.Moves.{move_by, renaming_by};

use crate::still_texts::text_stays;
use analysis::{Event, UnitParts, UnitText};
use cs_base::{Link, Memory, Pos, Tok};
use offences::{Moves, renamed_links, renamed_tok, renamed_toks};
use std::alloc::Global;

/// Units, each with its text as it stands then; their trees and bindings stay.
pub(crate) fn renamed_units(
    alloc: Global,
    moves: &Moves,
    units: Vec<UnitParts>,
) -> Result<Vec<UnitParts>, Memory>
    requires { (k : ℕ) (u : UnitAnalysis) → slice_get units.items k ≡ Some u → IsReadAsBefore (renaming_by moves.now) u }
    ensures { IfOk result (λ us. us.items ≡ map (renamed_unit_analysis (renaming_by moves.now)) units.items) }
{
    let mut renamed = Vec::new(alloc);
    for unit in units {
        renamed.push(renamed_unit(alloc, moves, unit)?)?;
    }
    Ok(renamed)
}

#[tactic(auto, using(crate::proofs::TextLemmas::unit_same))]
fn renamed_unit(alloc: Global, moves: &Moves, unit: UnitParts) -> Result<UnitParts, Memory>
    requires { IsReadAsBefore (renaming_by moves.now) unit }
    ensures { IfOk result (λ u. u ≡ renamed_unit_analysis (renaming_by moves.now) unit) }
{
    if text_stays(moves, unit.text()) {
        return Ok(unit);
    }
    let text = renamed_text(alloc, moves, unit.text())?;
    Ok(unit.with_text(text))
}

fn renamed_text(alloc: Global, moves: &Moves, text: &UnitText) -> Result<UnitText, Memory>
    ensures { IfOk result (λ t. t ≡ renamed_text (renaming_by moves.now) text.now) }
{
    let toks = renamed_toks(alloc, moves, text.toks())?;
    let links = renamed_links(alloc, moves, text.links())?;
    let pasted = renamed_toks(alloc, moves, text.pasted())?;
    let stringized = renamed_toks(alloc, moves, text.stringized())?;
    with_rest(alloc, moves, text, toks, links, pasted, stringized)
}

// The same with the other lists.
fn with_rest(
    alloc: Global,
    moves: &Moves,
    text: &UnitText,
    toks: Vec<Tok>,
    links: Vec<Link>,
    pasted: Vec<Tok>,
    stringized: Vec<Tok>,
) -> Result<UnitText, Memory>
    ensures { IfOk result (λ t. t ≡ text_of toks.items links.items pasted.items stringized.items
        (map (renamed_token (renaming_by moves.now)) text.now.header) (map (renamed_token (renaming_by moves.now)) text.now.answers)
        text.now.reached (map (renamed_event (renaming_by moves.now)) text.now.events)) }
{
    let header = renamed_toks(alloc, moves, text.header())?;
    let answers = renamed_toks(alloc, moves, text.answers())?;
    let reached = Vec::from_slice(alloc, text.reached())?;
    let events = renamed_events(alloc, moves, text.events())?;
    Ok(UnitText::of(
        toks, links, pasted, stringized, header, answers, reached, events,
    ))
}

fn renamed_events(alloc: Global, moves: &Moves, events: &[Event]) -> Result<Vec<Event>, Memory>
    ensures { IfOk result (λ r. r.items ≡ map (renamed_event (renaming_by moves.now)) events.now) }
{
    let mut renamed = Vec::with_capacity(alloc, events.len())?;
    for event in events {
        renamed.push(renamed_one(alloc, moves, event)?)?;
    }
    Ok(renamed)
}

fn renamed_one(alloc: Global, moves: &Moves, event: &Event) -> Result<Event, Memory>
    ensures { IfOk result (λ e. e ≡ renamed_event (renaming_by moves.now) event.now) }
{
    Ok(Event {
        kind: event.kind,
        name: renamed_name(alloc, moves, &event.name)?,
        at: moves.moved(event.at),
        def: moved_def(moves, event.def),
        file: event.file,
        before: event.before,
    })
}

fn renamed_name(alloc: Global, moves: &Moves, name: &Option<Tok>) -> Result<Option<Tok>, Memory>
    ensures { IfOk result (λ n. n ≡ option_map (renamed_token (renaming_by moves.now)) name.now) }
{
    match name {
        Some(tok) => Ok(Some(renamed_tok(alloc, moves, tok)?)),
        None => Ok(None),
    }
}

fn moved_def(moves: &Moves, def: Option<Pos>) -> Option<Pos>
    ensures { result ≡ option_map (move_by moves.now) def }
{
    match def {
        Some(p) => Some(moves.moved(p)),
        None => None,
    }
}
