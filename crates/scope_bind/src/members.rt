// Members and labels (ISO/IEC 9899:1999, 6.2.3, 6.5.2.3, 6.7.2.1 and 6.8.1).
ghost use Rattle.std.specs.Prelude.{◌≡◌, is_some, IfOk, OnOk};
ghost use Rattle.std.specs.Option.{option_map};
ghost use Rattle.c_types.specs.Declarations.{with_fault, with_declaration, anywhere};
ghost use Rattle.scope_bind.specs.Known.{known};
ghost use Rattle.name_chains.specs.Members.{member_declaration, unnamed_declaration, found_of, with_silent, with_lifted, with_anonymous, is_known, member_at, member_used, member_type};
ghost use Rattle.scope_bind.specs.Labels.{label_declaration, with_label};
ghost use Rattle.c_types.specs.declared.declarations.Cause.TheVariants.{Redeclared};
ghost use Rattle.c_types.specs.declared.declarations.Space.TheVariants.{Members, Labels};

use crate::facts::Facts;
use crate::tags::number_in;
use c_types::{Base, Body, CType, Cause, Declaration, EntityKind, Frame, Linkage, Space};
use cs_base::Memory;
use std::alloc::Global;

fn member_declaration(f: &Frame, i: u32, last: u32, t: CType) -> Result<Declaration, Memory>
    ensures { IfOk result (λ d. d ≡ member_declaration f.now i last t) }
{
    let from = match last.checked_add(1) {
        Some(from) => from,
        None => return Err(Memory),
    };
    Ok(Declaration {
        space: Space::Members(f.owner),
        name_at: i,
        entity: i,
        kind: EntityKind::Member,
        linkage: Linkage::Absent,
        ctype: t,
        depth: f.scope.depth,
        from,
        to: f.scope.to,
        listed: false,
    })
}

// The place of a structure or union without a name.
fn unnamed_declaration(f: &Frame, i: u32) -> Result<Declaration, Memory>
    ensures { IfOk result (λ d. d ≡ unnamed_declaration f.now i) }
{
    let from = match i.checked_add(1) {
        Some(from) => from,
        None => return Err(Memory),
    };
    Ok(Declaration {
        space: Space::Unnamed(f.owner),
        name_at: i,
        entity: i,
        kind: EntityKind::Member,
        linkage: Linkage::Absent,
        ctype: f.base.copied()?,
        depth: f.scope.depth,
        from,
        to: f.scope.to,
        listed: false,
    })
}

fn label_declaration(alloc: Global, b: Body, i: u32) -> Declaration
    ensures { result ≡ label_declaration b i }
{
    Declaration {
        space: Space::Labels(b.from),
        name_at: i,
        entity: i,
        kind: EntityKind::Label,
        linkage: Linkage::Absent,
        ctype: CType::plain(alloc, Base::Arithmetic),
        depth: 1,
        from: b.from,
        to: b.to,
        listed: false,
    }
}

impl Facts<'_> {
    // A name that may be declared once in its name space.
    fn declare_once(&mut self, space: Space, i: u32, d: Declaration) -> Result<(), Memory>
        ensures { OnOk result (self.new ≡ known self.old.toks (with_declaration d (with_fault (is_some (anywhere self.old.toks space i self.old.facts)) Redeclared i self.old.facts))) }
    {
        let twice = self.anywhere(space, i).is_some();
        self.note(twice, Cause::Redeclared, i);
        self.declare(d)
    }

    /// A member at the end of its declarator.
    pub(crate) fn declare_member(
        &mut self,
        f: &Frame,
        i: u32,
        last: u32,
        t: CType,
    ) -> Result<(), Memory>
        ensures { OnOk result (self.new ≡ known self.old.toks (with_declaration (member_declaration f.now i last t) (with_fault (is_some (anywhere self.old.toks (Members f.now.owner) i self.old.facts)) Redeclared i self.old.facts))) }
    {
        let d = member_declaration(f, i, last, t)?;
        self.declare_once(Space::Members(f.owner), i, d)
    }

    // A name of an anonymous member, which the structure or union around it has at most once.
    fn lift(&mut self, owner: u32, d: Declaration) -> Result<(), Memory>
        ensures { OnOk result (self.new ≡ known self.old.toks (with_silent d (with_fault (is_some (anywhere self.old.toks (Members owner) d.name_at self.old.facts)) Redeclared d.name_at self.old.facts))) }
    {
        let twice = self.anywhere(Space::Members(owner), d.name_at).is_some();
        self.note(twice, Cause::Redeclared, d.name_at);
        self.add(d)
    }

    fn lift_all(&mut self, alloc: Global, owner: u32, number: u32) -> Result<(), Memory>
        ensures { OnOk result (self.new ≡ known self.old.toks (with_lifted self.old.toks owner (found_of number self.old.facts) self.old.facts)) }
    {
        let mut rest = self.lifted(alloc, owner, number)?;
        'names: while let Some(d) = rest.pop() {
            self.lift(owner, d)?;
        }
        Ok(())
    }

    /// A semicolon behind the specifiers of a member.
    pub(crate) fn declare_anonymous(
        &mut self,
        alloc: Global,
        f: &Frame,
        i: u32,
    ) -> Result<(), Memory>
        ensures { OnOk result (self.new ≡ known self.old.toks (with_anonymous self.old.toks f.now i self.old.facts)) }
    {
        if f.words.anonymous {
            self.lift_all(alloc, f.owner, number_in(&f.base))?;
            let d = unnamed_declaration(f, i)?;
            self.add(d)
        } else {
            Ok(())
        }
    }

    /// A labeled statement.
    pub fn label(&mut self, alloc: Global, body: Option<Body>, i: u32) -> Result<(), Memory>
        ensures { OnOk result (self.new ≡ known self.old.toks (with_label self.old.toks body i self.old.facts)) }
    {
        match body {
            None => Ok(()),
            Some(b) => {
                let d = label_declaration(alloc, b, i);
                self.declare_once(Space::Labels(b.from), i, d)
            }
        }
    }

    /// A structure or union that is complete.
    pub(crate) fn is_known(&self, t: &CType) -> bool
        ensures { result ≡ is_known t.now self.now.facts }
    {
        t.is_record() && self.is_complete(number_in(t))
    }

    /// The member that token `i` names in a structure or union.
    pub(crate) fn member_at(&self, t: &CType, i: u32) -> Option<&Declaration>
        ensures { option_map (λ d. d.now) result ≡ member_at self.now.toks t.now i self.now.facts }
    {
        if self.is_known(t) {
            self.anywhere(Space::Members(number_in(t)), i)
        } else {
            None
        }
    }

    fn member_entity(&self, t: &CType, i: u32) -> Option<u32>
        ensures { result ≡ option_map (λ d. d.entity) (member_at self.now.toks t.now i self.now.facts) }
    {
        self.member_at(t, i).map(|d| d.entity)
    }

    /// The member is used.
    pub fn use_member(&mut self, t: &CType, i: u32) -> Result<(), Memory>
        ensures { OnOk result (self.new ≡ known self.old.toks (member_used self.old.toks t.now i self.old.facts)) }
    {
        match self.member_entity(t, i) {
            None => {
                self.note(true, Cause::NoMember, i);
                Ok(())
            }
            Some(entity) => self.occur(i, entity, false),
        }
    }

    /// Its type, or the one given where it is not there.
    pub fn member_type(&self, t: &CType, i: u32, other: CType) -> Result<CType, Memory>
        ensures { IfOk result (λ r. r ≡ member_type self.now.toks t.now i other self.now.facts) }
    {
        match self.member_at(t, i) {
            None => Ok(other),
            Some(d) => d.ctype.copied(),
        }
    }
}
