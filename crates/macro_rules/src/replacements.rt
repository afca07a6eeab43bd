// Names that lines define, and names that macros replace, in all units.
ghost use Rattle.std.specs.Prelude.{◌≡◌, ◌++◌, false, IfOk, OnOk};
ghost use Rattle.std.specs.List.{flat_map};
ghost use Rattle.std.specs.Option.{option_map_or};
ghost use Rattle.macro_rules.specs.Macros.{is_all, is_whole, is_predefined, names_macro, is_defining, defined_place, macro_places, in_events, is_replacing, replaces, is_direct, called_place, replaced_place, is_line_number, number_place, number_places};
ghost use Rattle.macro_rules.specs.Positions.{has};

use crate::positions::{Positions, is_pos};
use analysis::{Analysis, Event, EventKind};
use cs_base::{Memory, Part, Tok};
use offences::{Class, member_at};
use std::alloc::Global;

// Whether a part is the whole token.
fn is_all(tok: &Tok, part: Part) -> bool
    ensures { result ≡ is_all tok.now part }
{
    match tok.origins(0) {
        Some(at) => is_pos(part.start, at) && part.len as usize == tok.text().len(),
        None => false,
    }
}

// Whether the whole token is one member.
fn is_whole(class: &Class<'_>, tok: &Tok) -> bool
    ensures { result ≡ is_whole class.now.members tok.now }
{
    match member_at(class, tok, 0) {
        Some(part) => is_all(tok, part),
        None => false,
    }
}

fn is_predefined(tok: &Tok) -> bool
    ensures { result ≡ is_predefined tok.now }
{
    tok.text() == b"__LINE__".as_slice()
        || tok.text() == b"__FILE__".as_slice()
        || tok.text() == b"__COUNTER__".as_slice()
}

fn is_defining(kind: EventKind) -> bool
    ensures { result ≡ is_defining kind }
{
    match kind {
        EventKind::Defined => true,
        _ => false,
    }
}

fn is_replacing(kind: EventKind) -> bool
    ensures { result ≡ is_replacing kind }
{
    match kind {
        EventKind::Replaced => true,
        _ => false,
    }
}

fn names_macro(class: &Class<'_>, event: &Event) -> bool
    ensures { result ≡ option_map_or (names_macro class.now.members) event.now.name false }
{
    match &event.name {
        Some(name) => is_whole(class, name) && !is_predefined(name),
        None => false,
    }
}

// Adds the place of an event, if that defines a macro of the class.
fn push_defined(out: &mut Positions, class: &Class<'_>, event: &Event) -> Result<(), Memory>
    ensures { OnOk result (out.new ≡ out.old ++ defined_place class.now.members event.now) }
{
    if is_defining(event.kind) && names_macro(class, event) {
        out.push(event.at)?;
    }
    Ok(())
}

fn push_all_defined(out: &mut Positions, class: &Class<'_>, events: &[Event]) -> Result<(), Memory>
    ensures { OnOk result (out.new ≡ out.old ++ flat_map (defined_place class.now.members) events.now) }
{
    for event in events {
        push_defined(out, class, event)?;
    }
    Ok(())
}

/// Whether an event replaces a name by one of the macros whose names stand here.
pub(crate) fn replaces(macros: &Positions, event: &Event) -> bool
    ensures { result ≡ replaces macros.now event.now }
{
    if !is_replacing(event.kind) {
        return false;
    }
    match event.def {
        Some(def) => macros.has(def),
        None => false,
    }
}

/// Whether the name stands in a file, and comes from no macro.
pub(crate) fn is_direct(event: &Event) -> bool
    ensures { result ≡ is_direct event.now }
{
    match &event.name {
        Some(name) => name.direct(),
        None => false,
    }
}

// Adds the place of such an event.
fn push_called(out: &mut Positions, macros: &Positions, event: &Event) -> Result<(), Memory>
    ensures { OnOk result (out.new ≡ out.old ++ called_place macros.now event.now) }
{
    if replaces(macros, event) && is_direct(event) {
        out.push(event.at)?;
    }
    Ok(())
}

fn push_all_called(out: &mut Positions, macros: &Positions, events: &[Event]) -> Result<(), Memory>
    ensures { OnOk result (out.new ≡ out.old ++ flat_map (called_place macros.now) events.now) }
{
    for event in events {
        push_called(out, macros, event)?;
    }
    Ok(())
}

/// Where names stand that come from no macro, and that the macros replace whose names stand here.
pub(crate) fn called_places(
    alloc: Global,
    a: &Analysis,
    macros: &Positions,
) -> Result<Positions, Memory>
    ensures { IfOk result (λ places. places ≡ in_events (called_place macros.now) a.now.value) }
{
    let mut out = Positions::new(alloc)?;
    for unit in 0..a.units() {
        let one = a.unit(alloc, unit + 1)?;
        push_all_called(&mut out, macros, one.text().events())?;
    }
    Ok(out)
}

// Adds the place of an event, if that replaces a name by one of the macros.
fn push_replaced(out: &mut Positions, macros: &Positions, event: &Event) -> Result<(), Memory>
    ensures { OnOk result (out.new ≡ out.old ++ replaced_place macros.now event.now) }
{
    if replaces(macros, event) {
        out.push(event.at)?;
    }
    Ok(())
}

fn push_all_replaced(
    out: &mut Positions,
    macros: &Positions,
    events: &[Event],
) -> Result<(), Memory>
    ensures { OnOk result (out.new ≡ out.old ++ flat_map (replaced_place macros.now) events.now) }
{
    for event in events {
        push_replaced(out, macros, event)?;
    }
    Ok(())
}

// Whether an event replaces `__LINE__` by the number of its line, or `__COUNTER__` by the next number of the unit.
fn is_line_number(event: &Event) -> bool
    ensures { result ≡ is_line_number event.now.kind event.now.def event.now.name }
{
    if !is_replacing(event.kind) {
        return false;
    }
    if event.def.is_some() {
        return false;
    }
    match &event.name {
        Some(name) => {
            name.text() == b"__LINE__".as_slice() || name.text() == b"__COUNTER__".as_slice()
        }
        None => false,
    }
}

fn push_number(out: &mut Positions, event: &Event) -> Result<(), Memory>
    ensures { OnOk result (out.new ≡ out.old ++ number_place event.now) }
{
    if is_line_number(event) {
        out.push(event.at)?;
    }
    Ok(())
}

fn push_all_numbers(out: &mut Positions, events: &[Event]) -> Result<(), Memory>
    ensures { OnOk result (out.new ≡ out.old ++ flat_map number_place events.now) }
{
    for event in events {
        push_number(out, event)?;
    }
    Ok(())
}

/// What is found in all units at once: the names of the macros of a class, where lines define them; where names stand that some
/// macros replace; and where numbers of lines are put in.
#[derive(Drop)]
pub(crate) struct Found {
    pub(crate) macros: Positions,
    pub(crate) replaced: Positions,
    pub(crate) lines: Positions,
}

/// All of them; those macros have their names here by which names are replaced.
pub(crate) fn found_places(
    alloc: Global,
    a: &Analysis,
    class: &Class<'_>,
    replacing: &Positions,
) -> Result<Found, Memory>
    ensures macros { IfOk result (λ f. f.macros ≡ macro_places class.now.members a.now.value) }
    ensures replaced { IfOk result (λ f. f.replaced ≡ in_events (replaced_place replacing.now) a.now.value) }
    ensures lines { IfOk result (λ f. f.lines ≡ number_places a.now.value) }
{
    let mut macros = Positions::new(alloc)?;
    let mut replaced = Positions::new(alloc)?;
    let mut lines = Positions::new(alloc)?;
    for unit in 0..a.units() {
        let one = a.unit(alloc, unit + 1)?;
        let events = one.text().events();
        push_all_defined(&mut macros, class, events)?;
        push_all_replaced(&mut replaced, replacing, events)?;
        push_all_numbers(&mut lines, events)?;
    }
    Ok(Found {
        macros,
        replaced,
        lines,
    })
}
