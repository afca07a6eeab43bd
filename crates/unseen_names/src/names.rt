// Characters that names come from, by what the names do or are names of.
ghost use Rattle.std.specs.Prelude.{◌≡◌, ◌||◌, ◌∷◌, [], IfOk, OnOk, length, option_copied};
ghost use Rattle.std.specs.List.{list_any};
ghost use Rattle.std.specs.Option.{option_map_or};
ghost use Rattle.cs_base.specs.declared.positions.Pos.{Pos};
ghost use Rattle.analysis.specs.Below.scope_bind.Names.{kind_at, linkage_at};
ghost use Rattle.class_marks.specs.Roles.{is_external};
ghost use Rattle.unseen_names.specs.Characters.{is_marked, Adds};
ghost use Rattle.unseen_names.specs.Groups.{event_names, event_wanted, in_event, in_names, in_tokens, is_in_group, is_wide_found, occurrence_wanted, token_wanted, wanted_token};
ghost use Rattle.unseen_names.specs.Unseen.{comes_from};

use crate::characters::{Marks, mark_token};
use analysis::{Analysis, Bound, EntityKind, Event, EventKind, Linkage, UnitText};
use cs_base::{Memory, Span, Tok};
use std::alloc::Global;

/// What names do, or are names of.
#[derive(Clone, Copy, Debug, PartialEq, Eq)]
pub enum Group {
    /// They declare or use something.
    Stated,
    /// They are names of what reaches past a function.
    Wide,
}

// ---- names of a group

// Whether the name of an event is one.
fn event_wanted(group: Group, kind: EventKind) -> bool
    ensures { result ≡ event_wanted group kind }
{
    match (group, kind) {
        (Group::Stated, EventKind::Defined | EventKind::Replaced) => true,
        (Group::Stated, EventKind::Tested | EventKind::Left) => true,
        (Group::Wide, EventKind::Defined) => true,
        _ => false,
    }
}

fn is_wide_found(found: Option<EntityKind>) -> bool
    ensures { result ≡ is_wide_found found }
{
    match found {
        Some(EntityKind::Function | EntityKind::Typedef | EntityKind::Enumerator) => true,
        Some(EntityKind::Tag | EntityKind::Member) => true,
        _ => false,
    }
}

fn is_external(linkage: Linkage) -> bool
    ensures { result ≡ is_external linkage }
{
    match linkage {
        Linkage::External => true,
        _ => false,
    }
}

// Whether an entity reaches past a function.
fn is_wide(bound: &Bound, entity: u32) -> bool
    ensures { result ≡ (is_external (linkage_at bound.now.names entity) || is_wide_found (kind_at bound.now.names entity)) }
{
    is_external(bound.linkage(entity)) || is_wide_found(bound.kind(entity))
}

// Whether a token that is bound to an entity is one.
fn occurrence_wanted(group: Group, bound: &Bound, k: u32, entity: u32) -> bool
    ensures { result ≡ occurrence_wanted group bound.now.names k entity }
{
    match group {
        Group::Stated => true,
        Group::Wide => is_wide(bound, entity),
    }
}

// Whether a token is one.
fn token_wanted(group: Group, bound: &Bound, k: u32) -> bool
    ensures { result ≡ token_wanted group bound.now.names k }
{
    match bound.entity(k) {
        Some(entity) => occurrence_wanted(group, bound, k, entity),
        None => false,
    }
}

// The name of an event, if it is one.
fn named(group: Group, event: &Event) -> Option<&Tok>
    ensures { event_names group event.now ≡ option_map_or (λ name. name ∷ []) (option_copied result) [] }
{
    if !event_wanted(group, event.kind) {
        return None;
    }
    match &event.name {
        Some(name) => Some(name),
        None => None,
    }
}

// ---- their characters

// Marks those of the name of an event, if it is one.
fn mark_event(
    alloc: Global,
    marks: &mut Vec<Marks>,
    spans: &mut Vec<Span>,
    group: Group,
    event: &Event,
) -> Result<(), Memory>
    ensures { OnOk result (Adds (λ p. in_event group p event.now) marks.old.items marks.new.items) }
{
    match named(group, event) {
        Some(name) => mark_token(alloc, marks, spans, name),
        None => Ok(()),
    }
}

// Marks those of the names of events.
fn mark_events(
    alloc: Global,
    marks: &mut Vec<Marks>,
    group: Group,
    events: &[Event],
) -> Result<(), Memory>
    ensures { OnOk result (Adds (λ p. list_any (in_event group p) events.now) marks.old.items marks.new.items) }
{
    let mut spans = Vec::new(alloc);
    for event in events {
        mark_event(alloc, marks, &mut spans, group, event)?;
    }
    Ok(())
}

// Marks those of a token, where it is wanted.
fn mark_wanted(
    alloc: Global,
    marks: &mut Vec<Marks>,
    spans: &mut Vec<Span>,
    wanted: bool,
    tok: &Tok,
) -> Result<(), Memory>
    ensures { OnOk result (Adds (λ p. list_any (comes_from p) (wanted_token wanted tok.now)) marks.old.items marks.new.items) }
{
    if wanted {
        mark_token(alloc, marks, spans, tok)
    } else {
        Ok(())
    }
}

// How many tokens there are: `Memory` from 2^32 on.
fn count_of(toks: &[Tok]) -> Result<u32, Memory>
    ensures { IfOk result (λ count. count ≡ length toks.now) }
{
    if toks.len() > u32::MAX as usize {
        return Err(Memory);
    }
    Ok(toks.len() as u32)
}

// Marks those of the tokens of the group.
fn mark_bound(
    alloc: Global,
    marks: &mut Vec<Marks>,
    group: Group,
    bound: &Bound,
    toks: &[Tok],
) -> Result<(), Memory>
    ensures { OnOk result (Adds (λ p. in_tokens group p bound.now.names 0 toks.now) marks.old.items marks.new.items) }
{
    let count = count_of(toks)?;
    let mut spans = Vec::new(alloc);
    for k in 0..count {
        let wanted = token_wanted(group, bound, k);
        mark_wanted(alloc, marks, &mut spans, wanted, &toks[k as usize])?;
    }
    Ok(())
}

// Marks those of the names of a unit.
fn mark_unit(
    alloc: Global,
    marks: &mut Vec<Marks>,
    group: Group,
    text: &UnitText,
    bound: &Bound,
) -> Result<(), Memory>
    ensures { OnOk result (Adds (λ p. in_names group p text.now bound.now.names) marks.old.items marks.new.items) }
{
    mark_events(alloc, marks, group, text.events())?;
    mark_bound(alloc, marks, group, bound, text.toks())
}

/// Marks on the characters that names of a group come from.
pub(crate) fn marks_of(alloc: Global, a: &Analysis, group: Group) -> Result<Vec<Marks>, Memory>
    ensures { IfOk result (λ marks. (p : Pos) → is_marked marks.items p ≡ is_in_group group a.now.value p) }
{
    let mut marks = Vec::new(alloc);
    for unit in 0..a.units() {
        let one = a.unit(alloc, unit + 1)?;
        mark_unit(alloc, &mut marks, group, one.text(), one.bound())?;
    }
    Ok(marks)
}
