// What a name does where it stands, and what it is a name of.
ghost use Rattle.std.specs.Prelude.{◌≡◌};
ghost use Rattle.class_marks.specs.Roles.{does_declare, event_has, is_external, is_kind, is_parameter, occurrence_has, token_has};

use analysis::{Bound, EntityKind, EventKind, Linkage};

/// What is asked of the name of an event, or of a token of a unit.
#[derive(Clone, Copy, Debug, PartialEq, Eq)]
pub enum Role {
    /// It declares something: a macro, or what no parameter is.
    Declares,
    /// It uses something.
    Uses,
    /// It is defined as a macro.
    Defines,
    /// It is bound to an entity of this kind.
    OfKind(EntityKind),
    /// It is bound to an entity with external linkage.
    External,
}

/// Whether the name of an event has the role.
pub(crate) fn event_has(role: Role, kind: EventKind) -> bool
    ensures { result ≡ event_has role kind }
{
    match (role, kind) {
        (Role::Declares | Role::Defines, EventKind::Defined) => true,
        (Role::Uses, EventKind::Replaced | EventKind::Tested | EventKind::Left) => true,
        _ => false,
    }
}

pub(crate) fn is_parameter(kind: Option<EntityKind>) -> bool
    ensures { result ≡ is_parameter kind }
{
    match kind {
        Some(EntityKind::Parameter) => true,
        _ => false,
    }
}

// Whether a token that is bound to an entity declares it, where it is no parameter.
pub(crate) fn does_declare(bound: &Bound, k: u32, entity: u32) -> bool
    ensures { result ≡ does_declare bound.now.names k entity }
{
    bound.declares(k) && !is_parameter(bound.kind(entity))
}

pub(crate) fn is_kind(kind: EntityKind, found: Option<EntityKind>) -> bool
    ensures { result ≡ is_kind kind found }
{
    match (kind, found) {
        (EntityKind::Object, Some(EntityKind::Object)) => true,
        (EntityKind::Function, Some(EntityKind::Function)) => true,
        (EntityKind::Typedef, Some(EntityKind::Typedef)) => true,
        (EntityKind::Parameter, Some(EntityKind::Parameter)) => true,
        (EntityKind::Enumerator, Some(EntityKind::Enumerator)) => true,
        (EntityKind::Tag, Some(EntityKind::Tag)) => true,
        (EntityKind::Member, Some(EntityKind::Member)) => true,
        (EntityKind::Label, Some(EntityKind::Label)) => true,
        _ => false,
    }
}

pub(crate) fn is_external(linkage: Linkage) -> bool
    ensures { result ≡ is_external linkage }
{
    match linkage {
        Linkage::External => true,
        _ => false,
    }
}

// Whether a token that is bound to an entity has the role.
fn occurrence_has(role: Role, bound: &Bound, k: u32, entity: u32) -> bool
    ensures { result ≡ occurrence_has role bound.now.names k entity }
{
    match role {
        Role::Declares => does_declare(bound, k, entity),
        Role::Uses => !does_declare(bound, k, entity),
        Role::Defines => false,
        Role::OfKind(kind) => is_kind(kind, bound.kind(entity)),
        Role::External => is_external(bound.linkage(entity)),
    }
}

/// Whether a token has it.
pub(crate) fn token_has(role: Role, bound: &Bound, k: u32) -> bool
    ensures { result ≡ token_has role bound.now.names k }
{
    match bound.entity(k) {
        Some(entity) => occurrence_has(role, bound, k, entity),
        None => false,
    }
}
