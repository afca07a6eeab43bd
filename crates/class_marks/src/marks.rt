// Marks on classes, set where a name touches them.
ghost use Rattle.std.specs.Prelude.{◌≡◌, ◌<◌, ◌∷◌, [], ℕ, Some, IfOk, IfSome, OnOk, MatchBool, length, false, slice_index_or, option_copied, if◌then◌else◌};
ghost use Rattle.std.specs.List.{flat_map};
ghost use Rattle.std.specs.Option.{option_map, option_map_or};
ghost use Rattle.cs_base.specs.declared.positions.Part.{Part};
ghost use Rattle.eclass_map.specs.ClassTable.{HasParts, class_in};
ghost use Rattle.eclass_map.specs.Positions.{holds};
ghost use Rattle.analysis.specs.Parts.{IsPart};
ghost use Rattle.class_marks.specs.declared.roles.Role.{Role};
ghost use Rattle.class_marks.specs.Touching.{HasRole};
ghost use Rattle.class_marks.specs.Marks.{AreMarked, IsMarkedPart, class_at, is_within, mark_class, with_character, with_token, with_tokens};
ghost use Rattle.class_marks.specs.Roles.{event_name, names_in, names_with, tokens_with};

use crate::roles::{Role, event_has, token_has};
use analysis::{Analysis, Bound, Event, UnitText};
use cs_base::{Memory, Part, Pos, Tok};
use eclass_map::{Classes, FoundPart};
use std::alloc::Global;

// Marks a class.
pub(crate) fn mark_class(marks: &mut Vec<bool>, class: u32)
    ensures { marks.new.items ≡ mark_class marks.old.items class }
{
    if (class as usize) < marks.len() {
        marks[class as usize] = true;
    }
}

// The part that a character comes from, and its class. What was found last is tried first.
pub(crate) fn found_at(
    classes: &Classes,
    origin: Option<Pos>,
    guess: &mut usize,
) -> Option<FoundPart>
    ensures class { option_map (λ f. f.class) result ≡ class_at classes.now origin }
    ensures part { IfSome result (λ f. HasParts classes.now × (class_in classes.now f.part ≡ Some f.class)) }
{
    match origin {
        Some(pos) => classes.found(pos, guess),
        None => None,
    }
}

// Marks the class of a character; and gives the part that it comes from.
fn mark_character(
    marks: &mut Vec<bool>,
    classes: &Classes,
    origin: Option<Pos>,
    guess: &mut usize,
) -> Option<Part>
    ensures answer { marks.new.items ≡ with_character classes.now marks.old.items origin }
    ensures part { IfSome result (IsMarkedPart classes.now marks.new.items) }
{
    match found_at(classes, origin, guess) {
        Some(found) => {
            mark_class(marks, found.class);
            Some(found.part)
        }
        None => None,
    }
}

// The part holds the position.
fn holds(part: Part, pos: Pos) -> bool
    ensures { result ≡ holds part pos }
{
    part.start.file == pos.file && part.start.at <= pos.at && pos.at - part.start.at < part.len
}

// The character comes from the part.
pub(crate) fn is_within(part: Option<Part>, origin: Option<Pos>) -> bool
    ensures { result ≡ is_within part origin }
{
    match (part, origin) {
        (Some(part), Some(pos)) => holds(part, pos),
        _ => false,
    }
}

// Marks the class of the next character, which is marked already where it comes from this part.
fn mark_next(
    marks: &mut Vec<bool>,
    classes: &Classes,
    part: Option<Part>,
    origin: Option<Pos>,
    guess: &mut usize,
) -> Option<Part>
    requires { IfSome part (IsMarkedPart classes.now marks.old.items) }
    ensures answer { marks.new.items ≡ with_character classes.now marks.old.items origin }
    ensures part { IfSome result (IsMarkedPart classes.now marks.new.items) }
{
    if is_within(part, origin) {
        part
    } else {
        mark_character(marks, classes, origin, guess)
    }
}

// How many characters a token has.
pub(crate) fn length(tok: &Tok) -> u32
    ensures { result ≡ length tok.now.origins }
{
    tok.text().len() as u32
}

// Marks the classes of a token.
fn mark_token(marks: &mut Vec<bool>, classes: &Classes, tok: &Tok, guess: &mut usize)
    ensures { marks.new.items ≡ with_token classes.now marks.old.items tok.now }
{
    let count = length(tok);
    let mut part = None;
    for k in 0..count {
        part = mark_next(marks, classes, part, tok.origins(k), guess);
    }
}

// The name of an event, if it has the role.
fn named(role: Role, event: &Event) -> Option<&Tok>
    ensures { event_name role event.now ≡ option_map_or (λ name. name ∷ []) (option_copied result) [] }
{
    if !event_has(role, event.kind) {
        return None;
    }
    match &event.name {
        Some(name) => Some(name),
        None => None,
    }
}

// Marks those of the name of an event, if it has the role.
fn mark_event(
    marks: &mut Vec<bool>,
    classes: &Classes,
    role: Role,
    event: &Event,
    guess: &mut usize,
)
    ensures { marks.new.items ≡ with_tokens classes.now marks.old.items (event_name role event.now) }
{
    match named(role, event) {
        Some(name) => mark_token(marks, classes, name, guess),
        None => {}
    }
}

// Marks those of the names of events that have the role.
fn mark_events(marks: &mut Vec<bool>, classes: &Classes, role: Role, events: &[Event])
    ensures { marks.new.items ≡ with_tokens classes.now marks.old.items (flat_map (event_name role) events.now) }
{
    let mut guess = 0;
    for event in events {
        mark_event(marks, classes, role, event, &mut guess);
    }
}

// Marks those of a token, where it is wanted.
fn mark_wanted(marks: &mut Vec<bool>, classes: &Classes, wanted: bool, tok: &Tok, guess: &mut usize)
    ensures { marks.new.items ≡ with_tokens classes.now marks.old.items (if wanted then tok.now ∷ [] else []) }
{
    if wanted {
        mark_token(marks, classes, tok, guess);
    }
}

// How many tokens there are: `Memory` from 2^32 on.
pub(crate) fn count_of(toks: &[Tok]) -> Result<u32, Memory>
    ensures { IfOk result (λ count. count ≡ length toks.now) }
{
    if toks.len() > u32::MAX as usize {
        return Err(Memory);
    }
    Ok(toks.len() as u32)
}

// Marks those of the tokens that have the role. `Memory` where there are 2^32 or more.
fn mark_tokens(
    marks: &mut Vec<bool>,
    classes: &Classes,
    role: Role,
    bound: &Bound,
    toks: &[Tok],
) -> Result<(), Memory>
    ensures { OnOk result (marks.new.items ≡ with_tokens classes.now marks.old.items (tokens_with role bound.now.names 0 toks.now)) }
{
    let count = count_of(toks)?;
    let mut guess = 0;
    for k in 0..count {
        let wanted = token_has(role, bound, k);
        mark_wanted(marks, classes, wanted, &toks[k as usize], &mut guess);
    }
    Ok(())
}

// Marks those of the names of a unit that have the role.
fn mark_unit(
    marks: &mut Vec<bool>,
    classes: &Classes,
    role: Role,
    text: &UnitText,
    bound: &Bound,
) -> Result<(), Memory>
    ensures { OnOk result (marks.new.items ≡ with_tokens classes.now marks.old.items (names_in role text.now bound.now.names)) }
{
    mark_events(marks, classes, role, text.events());
    mark_tokens(marks, classes, role, bound, text.toks())?;
    Ok(())
}

#[tactic(auto, using(crate::proofs::MarkLemmas::blank_at))]
// No marks.
pub(crate) fn blank(alloc: Global, classes: &Classes) -> Result<Vec<bool>, Memory>
    ensures none { IfOk result (λ marks. (c : ℕ) → slice_index_or marks.items c false ≡ false) }
    ensures enough { IfOk result (λ marks. (part : Part) (c : ℕ) → class_in classes.now part ≡ Some c → c < length marks.items) }
{
    Ok(vec![in alloc; false; classes.class_numbers() as usize]?)
}

/// Marks on the classes that some name with the role touches.
pub fn marks_of(alloc: Global, a: &Analysis, role: Role) -> Result<Vec<bool>, Memory>
    ensures { IfOk result (λ marks. AreMarked a.now.classes (names_with role a.now.value) marks.items) }
{
    let classes = a.classes();
    let mut marks = blank(alloc, classes)?;
    for unit in 0..a.units() {
        let one = a.unit(alloc, unit + 1)?;
        mark_unit(&mut marks, classes, role, one.text(), one.bound())?;
    }
    Ok(marks)
}

// Whether the class with a number is marked.
fn is_set(marks: &[bool], class: u32) -> bool
    ensures { result ≡ slice_index_or marks.now class false }
{
    if (class as usize) < marks.len() {
        marks[class as usize]
    } else {
        false
    }
}

/// The number of the class of a part.
pub fn class_number(a: &Analysis, part: Part) -> Option<u32>
    ensures { result ≡ class_in a.now.classes part }
{
    a.classes().class_of(part)
}

/// The same, where what was found last is tried first.
pub fn class_number_near(a: &Analysis, part: Part, guess: &mut usize) -> Option<u32>
    requires { IsPart a.now.value part }
    ensures { result ≡ class_in a.now.classes part }
{
    match found_at(a.classes(), Some(part.start), guess) {
        Some(found) => Some(found.class),
        None => None,
    }
}

/// Whether the class of a part, which has this number, is marked: whether some name with the role of the marks touches it.
pub fn is_class_marked(a: &Analysis, marks: &[bool], part: Part, class: Option<u32>) -> bool
    requires part { IsPart a.now.value part }
    requires class { class ≡ class_in a.now.classes part }
    ensures { (role : Role) → AreMarked a.now.classes (names_with role a.now.value) marks.now
        → MatchBool result (HasRole a.now.value role part) (HasRole a.now.value role part → ⊥) }
{
    let _classes = a.classes();
    match class {
        Some(class) => is_set(marks, class),
        None => false,
    }
}

/// The same, where its number is not known.
pub fn is_marked(a: &Analysis, marks: &[bool], part: Part) -> bool
    requires { IsPart a.now.value part }
    ensures { (role : Role) → AreMarked a.now.classes (names_with role a.now.value) marks.now
        → MatchBool result (HasRole a.now.value role part) (HasRole a.now.value role part → ⊥) }
{
    is_class_marked(a, marks, part, class_number(a, part))
}
