// What a token does where it stands, by its role.
ghost use Rattle.std.specs.Prelude.{◌≡◌, IfOk, OnOk};
ghost use Rattle.scope_bind.specs.Known.{known};
ghost use Rattle.scope_bind.specs.declared.roles.Role.TheVariants.{PointedMember, EnumerationTag};
ghost use Rattle.scope_bind.specs.Walk.{facts_at, found_at, position_at};

use crate::facts::Facts;
use crate::roles::Role;
use c_types::{Base, CType, Frame, Position};
use cs_base::Memory;
use std::alloc::Global;

impl Facts<'_> {
    fn use_pointed(&mut self, f: &Frame, i: u32) -> Result<(), Memory>
        ensures { OnOk result (self.new ≡ known self.old.toks (facts_at self.old.toks PointedMember i f.now self.old.facts)) }
    {
        let target = f.given.copied()?.target();
        self.use_member(&target, i)
    }

    /// What a token of the role does.
    pub fn read(&mut self, alloc: Global, role: Role, i: u32, f: &Frame) -> Result<(), Memory>
        ensures { OnOk result (self.new ≡ known self.old.toks (facts_at self.old.toks role i f.now self.old.facts)) }
    {
        match role {
            Role::Plain => Ok(()),
            Role::Primary => self.name(f, i),
            Role::TypeName => self.use_name(i),
            Role::Tag => self.tag(f, i),
            Role::EnumerationTag => self.enumeration(f, i),
            Role::Listed => self.list_name(alloc, f, i),
            Role::Member => self.use_member(&f.given, i),
            Role::PointedMember => self.use_pointed(f, i),
            Role::Designated => self.designate(&f.given, i),
            Role::Label => self.label(alloc, f.body, i),
            Role::Jump => self.jump(i),
        }
    }

    fn enumeration_type(&self, i: u32, f: &Frame) -> Result<CType, Memory>
        ensures { IfOk result (λ t. t ≡ found_at self.now.toks EnumerationTag i f.now self.now.facts) }
    {
        if f.has_body {
            self.tag_type(f, i)
        } else {
            f.found.copied()
        }
    }

    fn pointed_type(&self, alloc: Global, i: u32, f: &Frame) -> Result<CType, Memory>
        ensures { IfOk result (λ t. t ≡ found_at self.now.toks PointedMember i f.now self.now.facts) }
    {
        let target = f.given.copied()?.target();
        self.member_type(&target, i, CType::plain(alloc, Base::Arithmetic))
    }

    /// The type of the node, once such a token is read.
    pub fn found_at(&self, alloc: Global, role: Role, i: u32, f: &Frame) -> Result<CType, Memory>
        ensures { IfOk result (λ t. t ≡ found_at self.now.toks role i f.now self.now.facts) }
    {
        match role {
            Role::Primary => self.named_type(alloc, f, i),
            Role::TypeName => self.type_of(alloc, i),
            Role::Tag => self.tag_type(f, i),
            Role::EnumerationTag => self.enumeration_type(i, f),
            Role::Member => { self.member_type(&f.given, i, CType::plain(alloc, Base::Arithmetic)) }
            Role::PointedMember => self.pointed_type(alloc, i, f),
            Role::Designated => self.designated_type(alloc, &f.given, i),
            Role::Plain => f.found.copied(),
            Role::Listed => f.found.copied(),
            Role::Label => f.found.copied(),
            Role::Jump => f.found.copied(),
        }
    }

    /// The next place in a brace list, once such a token is read.
    pub fn position_at(&self, role: Role, i: u32, f: &Frame) -> Result<Position, Memory>
        ensures { IfOk result (λ p. p ≡ position_at self.now.toks role i f.now self.now.facts) }
    {
        match role {
            Role::Designated => self.designated_position(&f.given, i, f.position),
            _ => Ok(f.position),
        }
    }
}
