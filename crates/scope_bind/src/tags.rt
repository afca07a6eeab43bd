// Tags (ISO/IEC 9899:1999, 6.2.3 and 6.7.2.3).
ghost use Rattle.std.specs.Prelude.{◌≡◌, ◌||◌, not, false, if◌then◌else◌, IfOk, OnOk};
ghost use Rattle.std.specs.Option.{option_map, option_map_or};
ghost use Rattle.c_types.specs.Declarations.{with_begun, with_declaration, with_use, visible};
ghost use Rattle.scope_bind.specs.Known.{known};
ghost use Rattle.c_types.specs.Tags.{number_in, renumbered, is_sort, is_same_tag, tag_entity, is_declaring, tag_declaration, prior_tag, with_tag, tag_type, is_complete, enumeration_used, with_enumeration, new_record};
ghost use Rattle.c_types.specs.declared.declarations.Space.TheVariants.{Tags};

use crate::facts::Facts;
use c_types::{Base, CType, Cause, Declaration, EntityKind, Frame, Linkage, Scope, Space};
use cs_base::{Memory, Tok};
use name_chains::is_spelled;
use std::alloc::Global;

/// The number of a structure, union or enumeration.
pub(crate) fn number_in(t: &CType) -> u32
    ensures { result ≡ number_in t.now }
{
    match t.base() {
        Base::Structure(n) => n,
        Base::Union(n) => n,
        Base::Enumeration(n) => n,
        _ => 0,
    }
}

fn is_sort(s: &CType, t: &CType) -> bool
    ensures { result ≡ is_sort s.now t.now }
{
    match (s.base(), t.base()) {
        (Base::Structure(_), Base::Structure(_)) => true,
        (Base::Union(_), Base::Union(_)) => true,
        (Base::Enumeration(_), Base::Enumeration(_)) => true,
        _ => false,
    }
}

/// A structure or a union, as the word says.
pub(crate) fn new_record(alloc: Global, toks: &[Tok], word: u32) -> CType
    ensures { result ≡ new_record toks.now word }
{
    if is_spelled(toks, word, b"union") {
        CType::plain(alloc, Base::Union(word))
    } else {
        CType::plain(alloc, Base::Structure(word))
    }
}

fn tag_declaration(scope: Scope, i: u32, entity: u32, t: CType) -> Result<Declaration, Memory>
    ensures { IfOk result (λ d. d ≡ tag_declaration scope i entity t) }
{
    let from = match i.checked_add(1) {
        Some(from) => from,
        None => return Err(Memory),
    };
    Ok(Declaration {
        space: Space::Tags,
        name_at: i,
        entity,
        kind: EntityKind::Tag,
        linkage: Linkage::Absent,
        ctype: t,
        depth: scope.depth,
        from,
        to: scope.to,
        listed: false,
    })
}

// It declares the tag, whatever is visible.
fn is_anew(f: &Frame) -> bool
    ensures { result ≡ (f.now.has_body || f.now.alone) }
{
    f.has_body || f.alone
}

fn is_declaring(f: &Frame, prior: Option<&Declaration>) -> bool
    ensures { result ≡ is_declaring f.now (option_map (λ d. d.now) prior.entry) }
{
    match prior {
        None => true,
        Some(_) => f.has_body || f.alone,
    }
}

fn entity_or(prior: Option<&Declaration>, other: u32) -> u32
    ensures { result ≡ option_map_or (λ d. d.entity) (option_map (λ d. d.now) prior.entry) other }
{
    match prior {
        None => other,
        Some(d) => d.entity,
    }
}

// What is found out of a tag: its entity, whether it is declared here, the entity of the earlier one, and
// whether that is of another type.
#[derive(Clone, Copy)]
struct TagVerdict {
    entity: u32,
    declares: bool,
    used: u32,
    another: bool,
}

// .. and of the tag of an enumeration that is used: its entity, whether its list is not complete, and whether
// it is of another type.
#[derive(Clone, Copy)]
struct EnumerationVerdict {
    entity: u32,
    incomplete: bool,
    another: bool,
}

impl Facts<'_> {
    fn is_same_tag(&self, f: &Frame, d: &Declaration) -> bool
        ensures { result ≡ is_same_tag f.now self.now.facts d.now }
    {
        is_sort(&d.ctype, &f.found) && !(f.has_body && self.has_begun(d.entity))
    }

    fn earlier_tag(&self, f: &Frame, i: u32) -> Option<&Declaration>
        ensures { option_map (λ d. d.now) result ≡ prior_tag self.now.toks f.now i self.now.facts }
    {
        self.prior_tag(is_anew(f), f.scope.depth, i)
    }

    fn tag_entity(&self, f: &Frame, i: u32, prior: Option<&Declaration>) -> u32
        ensures { result ≡ tag_entity f.now i self.now.facts (option_map (λ d. d.now) prior.entry) }
    {
        match prior {
            None => i,
            Some(d) => { if self.is_same_tag(f, d) { d.entity } else { i } }
        }
    }

    fn is_another_tag(&self, f: &Frame, prior: Option<&Declaration>) -> bool
        ensures { result ≡ option_map_or (λ d. not (is_same_tag f.now self.now.facts d)) (option_map (λ d. d.now) prior.entry) false }
    {
        match prior {
            None => false,
            Some(d) => !self.is_same_tag(f, d),
        }
    }

    fn tag_verdict(&self, f: &Frame, i: u32) -> TagVerdict
        ensures entity { result.entity ≡ tag_entity f.now i self.now.facts (prior_tag self.now.toks f.now i self.now.facts) }
        ensures declares { result.declares ≡ is_declaring f.now (prior_tag self.now.toks f.now i self.now.facts) }
        ensures used { result.used ≡ option_map_or (λ d. d.entity) (prior_tag self.now.toks f.now i self.now.facts) i }
        ensures another { result.another ≡ option_map_or (λ d. not (is_same_tag f.now self.now.facts d)) (prior_tag self.now.toks f.now i self.now.facts) false }
    {
        let prior = self.earlier_tag(f, i);
        TagVerdict {
            entity: self.tag_entity(f, i, prior),
            declares: is_declaring(f, prior),
            used: entity_or(prior, i),
            another: self.is_another_tag(f, prior),
        }
    }

    fn declare_tag(&mut self, f: &Frame, i: u32, entity: u32) -> Result<(), Memory>
        ensures { OnOk result (self.new ≡ known self.old.toks (with_begun f.now.has_body entity (with_declaration (tag_declaration f.now.scope i entity (renumbered f.now.found entity)) self.old.facts))) }
    {
        let t = f.found.copied()?.renumbered(entity);
        let d = tag_declaration(f.scope, i, entity, t)?;
        self.declare(d)?;
        self.begin(f.has_body, entity)
    }

    fn name_tag(&mut self, f: &Frame, i: u32, v: TagVerdict) -> Result<(), Memory>
        ensures { OnOk result (self.new ≡ known self.old.toks (if v.declares then with_begun f.now.has_body v.entity (with_declaration (tag_declaration f.now.scope i v.entity (renumbered f.now.found v.entity)) self.old.facts) else with_use i v.used self.old.facts)) }
    {
        if v.declares {
            self.declare_tag(f, i, v.entity)
        } else {
            self.occur(i, v.used, false)
        }
    }

    /// A tag is declared or used.
    pub(crate) fn tag(&mut self, f: &Frame, i: u32) -> Result<(), Memory>
        ensures { OnOk result (self.new ≡ known self.old.toks (with_tag self.old.toks f.now i self.old.facts)) }
    {
        let v = self.tag_verdict(f, i);
        self.name_tag(f, i, v)?;
        self.note(v.another, Cause::TagRedefined, i);
        Ok(())
    }

    /// The type that the tag stands for, before it is declared or used.
    pub(crate) fn tag_type(&self, f: &Frame, i: u32) -> Result<CType, Memory>
        ensures { IfOk result (λ t. t ≡ tag_type self.now.toks f.now i self.now.facts) }
    {
        let v = self.tag_verdict(f, i);
        Ok(f.found.copied()?.renumbered(v.entity))
    }

    fn is_complete_tag(&self, d: &Declaration) -> bool
        ensures { result ≡ is_complete self.now.facts d.now }
    {
        self.is_complete(number_in(&d.ctype))
    }

    fn enumeration_verdict(
        &self,
        f: &Frame,
        prior: Option<&Declaration>,
    ) -> Option<EnumerationVerdict>
        ensures { result ≡ option_map (λ d. record { entity = d.entity; incomplete = not (is_complete self.now.facts d); another = not (is_sort d.ctype f.now.found) }) (option_map (λ d. d.now) prior.entry) }
    {
        match prior {
            None => None,
            Some(d) => Some(EnumerationVerdict {
                entity: d.entity,
                incomplete: !self.is_complete_tag(d),
                another: !is_sort(&d.ctype, &f.found),
            }),
        }
    }

    fn use_enumeration(&mut self, f: &Frame, i: u32) -> Result<(), Memory>
        ensures { OnOk result (self.new ≡ known self.old.toks (enumeration_used f.now i (visible self.old.toks Tags i i self.old.facts) self.old.facts)) }
    {
        match self.enumeration_verdict(f, self.visible(Space::Tags, i, i)) {
            None => {
                self.note(true, Cause::Undeclared, i);
                Ok(())
            }
            Some(v) => {
                self.note(v.another, Cause::TagRedefined, i);
                self.note(v.incomplete, Cause::Undeclared, i);
                self.occur(i, v.entity, false)
            }
        }
    }

    /// The tag of an enumeration is declared with its list, or used.
    pub(crate) fn enumeration(&mut self, f: &Frame, i: u32) -> Result<(), Memory>
        ensures { OnOk result (self.new ≡ known self.old.toks (with_enumeration self.old.toks f.now i self.old.facts)) }
    {
        if f.has_body {
            self.tag(f, i)
        } else {
            self.use_enumeration(f, i)
        }
    }
}
