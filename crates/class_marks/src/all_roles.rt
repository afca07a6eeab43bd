// The roles of the names that touch each class, which is found once for all roles of a name.
ghost use Rattle.std.specs.Prelude.{◌≡◌, ◌||◌, ◌<◌, ◌∷◌, [], ℕ, Some, IfOk, IfSome, MatchBool, OnOk, false, true, length, slice_index_or, if◌then◌else◌};
ghost use Rattle.std.specs.List.{flat_map};
ghost use Rattle.cs_base.specs.declared.positions.Part.{Part};
ghost use Rattle.cs_base.specs.Token.{origin_at};
ghost use Rattle.eclass_map.specs.ClassTable.{HasParts, class_in};
ghost use Rattle.eclass_map.specs.Positions.{along, holds};
ghost use Rattle.analysis.specs.Parts.{IsPart};
ghost use Rattle.class_marks.specs.declared.roles.Role.{Role};
ghost use Rattle.class_marks.specs.ClassRoles.{Adds, AreRoles, IsAddedPart, has_role, of_role};
ghost use Rattle.class_marks.specs.Marks.{is_within, mark_class, with_character, with_token, with_tokens};
ghost use Rattle.class_marks.specs.Roles.{event_has, event_name, names_in, names_with, occurrence_has, token_has, tokens_with};
ghost use Rattle.class_marks.specs.Touching.{HasRole};

use crate::marks::{count_of, found_at, is_within, length};
use crate::roles::{Role, does_declare, event_has, is_external, is_kind};
use analysis::{Analysis, Bound, EntityKind, Event, EventKind, UnitText};
use cs_base::{Memory, Part, Pos, Tok};
use eclass_map::{Classes, FoundPart};
use std::alloc::Global;

/// Which roles there are, of those that some name has: of one kind each is bound to an entity of this kind.
#[derive(Clone, Copy)]
pub struct Roles {
    pub declares: bool,
    pub uses: bool,
    pub defines: bool,
    pub external: bool,
    pub object: bool,
    pub function: bool,
    pub typedef: bool,
    pub parameter: bool,
    pub enumerator: bool,
    pub tag: bool,
    pub member: bool,
    pub label: bool,
}

fn no_roles() -> Roles
    ensures { (role : Role) → has_role role result ≡ false }
{
    Roles {
        declares: false,
        uses: false,
        defines: false,
        external: false,
        object: false,
        function: false,
        typedef: false,
        parameter: false,
        enumerator: false,
        tag: false,
        member: false,
        label: false,
    }
}

fn either(one: bool, other: bool) -> bool
    ensures { result ≡ (one || other) }
{
    one || other
}

// The roles of both.
fn joined(one: Roles, other: Roles) -> Roles
    ensures { (role : Role) → has_role role result ≡ (has_role role one || has_role role other) }
{
    Roles {
        declares: either(one.declares, other.declares),
        uses: either(one.uses, other.uses),
        defines: either(one.defines, other.defines),
        external: either(one.external, other.external),
        object: either(one.object, other.object),
        function: either(one.function, other.function),
        typedef: either(one.typedef, other.typedef),
        parameter: either(one.parameter, other.parameter),
        enumerator: either(one.enumerator, other.enumerator),
        tag: either(one.tag, other.tag),
        member: either(one.member, other.member),
        label: either(one.label, other.label),
    }
}

// Those of the name of an event.
fn event_roles(kind: EventKind) -> Roles
    ensures { (role : Role) → has_role role result ≡ event_has role kind }
{
    let declares = event_has(Role::Declares, kind);
    let uses = event_has(Role::Uses, kind);
    let defines = event_has(Role::Defines, kind);
    Roles {
        declares,
        uses,
        defines,
        external: false,
        object: false,
        function: false,
        typedef: false,
        parameter: false,
        enumerator: false,
        tag: false,
        member: false,
        label: false,
    }
}

// Those of token `k`, which is bound to an entity.
fn token_roles(bound: &Bound, k: u32, entity: u32) -> Roles
    ensures { (role : Role) → has_role role result ≡ occurrence_has role bound.now.names k entity }
{
    let declares = does_declare(bound, k, entity);
    let external = is_external(bound.linkage(entity));
    let kind = bound.kind(entity);
    Roles {
        declares,
        uses: !declares,
        defines: false,
        external,
        object: is_kind(EntityKind::Object, kind),
        function: is_kind(EntityKind::Function, kind),
        typedef: is_kind(EntityKind::Typedef, kind),
        parameter: is_kind(EntityKind::Parameter, kind),
        enumerator: is_kind(EntityKind::Enumerator, kind),
        tag: is_kind(EntityKind::Tag, kind),
        member: is_kind(EntityKind::Member, kind),
        label: is_kind(EntityKind::Label, kind),
    }
}

// Adds roles to a class.
fn add_class(all: &mut Vec<Roles>, class: u32, roles: Roles)
    ensures { Adds roles (λ marks. mark_class marks class) all.old.items all.new.items }
{
    if (class as usize) < all.len() {
        all[class as usize] = joined(all[class as usize], roles);
    }
}

// Adds roles to the class of a character; and gives the part that it comes from.
fn add_character(
    all: &mut Vec<Roles>,
    classes: &Classes,
    roles: Roles,
    origin: Option<Pos>,
    guess: &mut usize,
) -> Option<Part>
    ensures answer { Adds roles (λ marks. with_character classes.now marks origin) all.old.items all.new.items }
    ensures part { IfSome result (IsAddedPart classes.now roles all.new.items) }
{
    match found_at(classes, origin, guess) {
        Some(found) => {
            add_class(all, found.class, roles);
            Some(found.part)
        }
        None => None,
    }
}

// The same of the next character, whose class has the roles already where it comes from this part.
fn add_next(
    all: &mut Vec<Roles>,
    classes: &Classes,
    roles: Roles,
    part: Option<Part>,
    origin: Option<Pos>,
    guess: &mut usize,
) -> Option<Part>
    requires { IfSome part (IsAddedPart classes.now roles all.old.items) }
    ensures answer { Adds roles (λ marks. with_character classes.now marks origin) all.old.items all.new.items }
    ensures part { IfSome result (IsAddedPart classes.now roles all.new.items) }
{
    if is_within(part, origin) {
        part
    } else {
        add_character(all, classes, roles, origin, guess)
    }
}

// Adds roles to the classes of the characters of a token.
fn add_characters(
    all: &mut Vec<Roles>,
    classes: &Classes,
    roles: Roles,
    tok: &Tok,
    guess: &mut usize,
)
    ensures { Adds roles (λ marks. with_token classes.now marks tok.now) all.old.items all.new.items }
{
    let count = length(tok);
    let mut part = None;
    for k in 0..count {
        part = add_next(all, classes, roles, part, tok.origins(k), guess);
    }
}

// Whether a part holds so many characters of a file, from this one on.
fn holds_row(part: Part, start: Pos, count: u32) -> bool
    ensures { result ≡ true → (k : ℕ) → k < count → holds part (along start k) ≡ true }
{
    if part.start.file != start.file || start.at < part.start.at {
        return false;
    }
    (start.at - part.start.at) as u64 + count as u64 <= part.len as u64
}

// Whether each character of a token is known to come from a part.
fn is_in_part(part: Part, tok: &Tok) -> bool
    ensures { result ≡ true → (k : ℕ) → k < length tok.now.origins → is_within (Some part) (origin_at tok.now k) ≡ true }
{
    let count = length(tok);
    let _text = tok.text();
    match tok.start() {
        Some(start) => holds_row(part, start, count),
        None => false,
    }
}

// The same as `add_characters`, where the first character comes from this part.
fn add_found(
    all: &mut Vec<Roles>,
    classes: &Classes,
    roles: Roles,
    tok: &Tok,
    found: FoundPart,
    guess: &mut usize,
)
    requires some { 0 < length tok.now.origins }
    requires parts { HasParts classes.now }
    requires class { class_in classes.now found.part ≡ Some found.class }
    ensures { Adds roles (λ marks. with_token classes.now marks tok.now) all.old.items all.new.items }
{
    if is_in_part(found.part, tok) {
        add_class(all, found.class, roles);
    } else {
        add_characters(all, classes, roles, tok, guess);
    }
}

// The same: a part that has the first character mostly has all.
fn add_token(all: &mut Vec<Roles>, classes: &Classes, roles: Roles, tok: &Tok, guess: &mut usize)
    ensures { Adds roles (λ marks. with_token classes.now marks tok.now) all.old.items all.new.items }
{
    match found_at(classes, tok.origins(0), guess) {
        Some(found) => add_found(all, classes, roles, tok, found, guess),
        None => add_characters(all, classes, roles, tok, guess),
    }
}

// Adds those of the name of an event to the classes that it touches.
fn add_event(all: &mut Vec<Roles>, classes: &Classes, event: &Event, guess: &mut usize)
    ensures { (role : Role) → of_role role all.new.items ≡ with_tokens classes.now (of_role role all.old.items) (event_name role event.now) }
{
    match &event.name {
        Some(name) => add_token(all, classes, event_roles(event.kind), name, guess),
        None => {}
    }
}

// The same of events.
fn add_events(all: &mut Vec<Roles>, classes: &Classes, events: &[Event])
    ensures { (role : Role) → of_role role all.new.items
        ≡ with_tokens classes.now (of_role role all.old.items) (flat_map (event_name role) events.now) }
{
    let mut guess = 0;
    for event in events {
        add_event(all, classes, event, &mut guess);
    }
}

// The same of token `k`, where it is bound to an entity.
fn add_bound(
    all: &mut Vec<Roles>,
    classes: &Classes,
    bound: &Bound,
    k: u32,
    tok: &Tok,
    guess: &mut usize,
)
    ensures { (role : Role) → of_role role all.new.items
        ≡ with_tokens classes.now (of_role role all.old.items) (if token_has role bound.now.names k then tok.now ∷ [] else []) }
{
    match bound.entity(k) {
        Some(entity) => add_token(all, classes, token_roles(bound, k, entity), tok, guess),
        None => {}
    }
}

// The same of tokens. `Memory` where there are 2^32 or more.
fn add_tokens(
    all: &mut Vec<Roles>,
    classes: &Classes,
    bound: &Bound,
    toks: &[Tok],
) -> Result<(), Memory>
    ensures { OnOk result ((role : Role) → of_role role all.new.items
        ≡ with_tokens classes.now (of_role role all.old.items) (tokens_with role bound.now.names 0 toks.now)) }
{
    let count = count_of(toks)?;
    let mut guess = 0;
    for k in 0..count {
        add_bound(all, classes, bound, k, &toks[k as usize], &mut guess);
    }
    Ok(())
}

// The same of all names of a unit.
fn add_unit(
    all: &mut Vec<Roles>,
    classes: &Classes,
    text: &UnitText,
    bound: &Bound,
) -> Result<(), Memory>
    ensures { OnOk result ((role : Role) → of_role role all.new.items
        ≡ with_tokens classes.now (of_role role all.old.items) (names_in role text.now bound.now.names)) }
{
    add_events(all, classes, text.events());
    add_tokens(all, classes, bound, text.toks())?;
    Ok(())
}

#[tactic(auto, using(crate::proofs::ClassRoleLemmas::blank_roles))]
// No roles of any class.
fn blank(alloc: Global, classes: &Classes) -> Result<Vec<Roles>, Memory>
    ensures none { IfOk result (λ all. (role : Role) (c : ℕ) → slice_index_or (of_role role all.items) c false ≡ false) }
    ensures enough { IfOk result (λ all. (part : Part) (c : ℕ) → class_in classes.now part ≡ Some c → c < length all.items) }
{
    let none = no_roles();
    Ok(vec![in alloc; none; classes.class_numbers() as usize]?)
}

/// Of each class, by its number, the roles of the names that touch it.
pub fn roles_of(alloc: Global, a: &Analysis) -> Result<Vec<Roles>, Memory>
    ensures { IfOk result (λ all. AreRoles a.now all.items) }
{
    let classes = a.classes();
    let mut all = blank(alloc, classes)?;
    for unit in 0..a.units() {
        let one = a.unit(alloc, unit + 1)?;
        add_unit(&mut all, classes, one.text(), one.bound())?;
    }
    Ok(all)
}

// Those of the class with a number.
fn roles_at(all: &[Roles], class: u32) -> Roles
    ensures { (role : Role) → has_role role result ≡ slice_index_or (of_role role all.now) class false }
{
    if (class as usize) < all.len() {
        all[class as usize]
    } else {
        no_roles()
    }
}

/// The roles that the class of a part has, which has this number: those of the names that touch it.
pub fn class_roles(a: &Analysis, all: &[Roles], part: Part, class: Option<u32>) -> Roles
    requires part { IsPart a.now.value part }
    requires class { class ≡ class_in a.now.classes part }
    requires roles { AreRoles a.now all.now }
    ensures { (role : Role) → MatchBool (has_role role result) (HasRole a.now.value role part) (HasRole a.now.value role part → ⊥) }
{
    let _classes = a.classes();
    match class {
        Some(class) => roles_at(all, class),
        None => no_roles(),
    }
}
