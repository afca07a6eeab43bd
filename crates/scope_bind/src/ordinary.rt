// Ordinary identifiers (ISO/IEC 9899:1999, 6.2.1, 6.2.2, 6.7 paragraph 3).
ghost use Rattle.std.specs.Prelude.{◌≡◌, ◌&&◌, ◌||◌, not, false, IfOk, OnOk};
ghost use Rattle.std.specs.Option.{option_map, option_map_or};
ghost use Rattle.c_types.specs.Declarations.{has_linkage, is_typedef_name, in_scope, linked, is_mixed, visible};
ghost use Rattle.scope_bind.specs.Known.{known};
ghost use Rattle.scope_bind.specs.Ordinary.{is_again, linked_entity, entity_of, is_listed, declaration_of, declared, used, used_type};
ghost use Rattle.c_types.specs.declared.declarations.Space.TheVariants.{Ordinary};

use crate::facts::Facts;
use c_types::{Base, CType, Cause, Declaration, EntityKind, Linkage, Scope, Space};
use cs_base::Memory;
use name_chains::has_linkage;
use std::alloc::Global;

/// What is declared: its name, the last token before its range, its kind, type and linkage, whether it
/// stands between an identifier list and the body, and whether in the list.
#[derive(Drop)]
pub struct Declared {
    pub name_at: u32,
    pub last: u32,
    pub kind: EntityKind,
    pub ctype: CType,
    pub linkage: Linkage,
    pub listing: bool,
    pub listed: bool,
}

fn is_typedef_name(kind: EntityKind) -> bool
    ensures { result ≡ is_typedef_name kind }
{
    matches!(kind, EntityKind::Typedef)
}

fn is_again(n: &Declared, d: &Declaration) -> bool
    ensures { result ≡ is_again n.now d.now }
{
    if has_linkage(n.linkage) {
        has_linkage(d.linkage)
    } else {
        (n.listing && d.listed) || (is_typedef_name(n.kind) && is_typedef_name(d.kind))
    }
}

fn linked_entity(n: &Declared, link: Option<&Declaration>) -> u32
    ensures { result ≡ linked_entity n.now (option_map (λ d. d.now) link.entry) }
{
    match link {
        None => n.name_at,
        Some(d) => {
            if has_linkage(n.linkage) {
                d.entity
            } else {
                n.name_at
            }
        }
    }
}

fn entity_of(n: &Declared, prior: Option<&Declaration>, link: Option<&Declaration>) -> u32
    ensures { result ≡ entity_of n.now (option_map (λ d. d.now) prior.entry) (option_map (λ d. d.now) link.entry) }
{
    match prior {
        None => linked_entity(n, link),
        Some(d) => {
            if is_again(n, d) {
                d.entity
            } else {
                linked_entity(n, link)
            }
        }
    }
}

fn is_listed(n: &Declared, prior: Option<&Declaration>) -> bool
    ensures { result ≡ is_listed n.now (option_map (λ d. d.now) prior.entry) }
{
    match prior {
        None => false,
        Some(d) => n.listing && d.listed,
    }
}

// The declaration in the scope is of another entity.
fn is_another(n: &Declared, prior: Option<&Declaration>) -> bool
    ensures { result ≡ option_map_or (λ d. not (is_again n.now d)) (option_map (λ d. d.now) prior.entry) false }
{
    match prior {
        None => false,
        Some(d) => !is_again(n, d),
    }
}

fn declaration_of(
    scope: Scope,
    n: Declared,
    entity: u32,
    listed: bool,
) -> Result<Declaration, Memory>
    ensures { IfOk result (λ d. d ≡ declaration_of scope n entity listed) }
{
    let from = match n.last.checked_add(1) {
        Some(from) => from,
        None => return Err(Memory),
    };
    Ok(Declaration {
        space: Space::Ordinary,
        name_at: n.name_at,
        entity,
        kind: n.kind,
        linkage: n.linkage,
        ctype: n.ctype,
        depth: scope.depth,
        from,
        to: scope.to,
        listed,
    })
}

// What is found out of a new declaration: its entity, whether an identifier list names it, and whether it is
// of another entity than the one that stands in the scope.
#[derive(Clone, Copy)]
struct Verdict {
    entity: u32,
    listed: bool,
    another: bool,
}

impl Facts<'_> {
    fn verdict(&self, scope: Scope, n: &Declared) -> Verdict
        ensures entity { result.entity ≡ entity_of n.now (in_scope self.now.toks Ordinary scope.depth n.now.name_at n.now.last self.now.facts) (linked self.now.toks n.now.name_at self.now.facts) }
        ensures listed { result.listed ≡ is_listed n.now (in_scope self.now.toks Ordinary scope.depth n.now.name_at n.now.last self.now.facts) }
        ensures another { result.another ≡ option_map_or (λ d. not (is_again n.now d)) (in_scope self.now.toks Ordinary scope.depth n.now.name_at n.now.last self.now.facts) false }
    {
        let prior = self.in_scope(Space::Ordinary, scope.depth, n.name_at, n.last);
        let link = self.linked(n.name_at);
        Verdict {
            entity: entity_of(n, prior, link),
            listed: is_listed(n, prior),
            another: is_another(n, prior),
        }
    }

    fn is_mixed_with(&self, n: &Declared) -> bool
        ensures { result ≡ (has_linkage n.now.linkage && is_mixed self.now.toks n.now.linkage n.now.name_at self.now.facts) }
    {
        has_linkage(n.linkage) && self.is_mixed(n.linkage, n.name_at)
    }

    /// The name is declared in the scope.
    pub fn declare_name(&mut self, scope: Scope, n: Declared) -> Result<(), Memory>
        ensures { OnOk result (self.new ≡ known self.old.toks (declared self.old.toks scope n self.old.facts)) }
    {
        let v = self.verdict(scope, &n);
        let mixed = self.is_mixed_with(&n);
        let at = n.name_at;
        self.note(mixed, Cause::MixedLinkage, at);
        self.note(v.another, Cause::Redeclared, at);
        self.note(n.listing && !v.listed, Cause::Undeclared, at);
        let listed = n.listed || v.listed;
        let d = declaration_of(scope, n, v.entity, listed)?;
        self.declare(d)
    }

    fn entity_visible(&self, i: u32) -> Option<u32>
        ensures { result ≡ option_map (λ d. d.entity) (visible self.now.toks Ordinary i i self.now.facts) }
    {
        self.visible(Space::Ordinary, i, i).map(|d| d.entity)
    }

    /// The identifier is used.
    pub(crate) fn use_name(&mut self, i: u32) -> Result<(), Memory>
        ensures { OnOk result (self.new ≡ known self.old.toks (used self.old.toks i self.old.facts)) }
    {
        match self.entity_visible(i) {
            None => {
                self.note(true, Cause::Undeclared, i);
                Ok(())
            }
            Some(entity) => self.occur(i, entity, false),
        }
    }

    /// The type of the identifier.
    pub(crate) fn type_of(&self, alloc: Global, i: u32) -> Result<CType, Memory>
        ensures { IfOk result (λ t. t ≡ used_type self.now.toks i self.now.facts) }
    {
        match self.visible(Space::Ordinary, i, i) {
            None => Ok(CType::plain(alloc, Base::Arithmetic)),
            Some(d) => d.ctype.copied(),
        }
    }
}
