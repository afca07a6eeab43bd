// Names that declarators, parameters and enumerators declare, and identifiers in expressions.
ghost use Rattle.std.specs.Prelude.{◌≡◌, ◌||◌, [], true, false, if◌then◌else◌, IfOk, OnOk};
ghost use Rattle.std.specs.Option.{option_map_or};
ghost use Rattle.c_types.specs.declared.entity.Linkage.TheVariants.{Absent as NoLinkage};
ghost use Rattle.c_types.specs.declared.declarations.Space.TheVariants.{Ordinary};
ghost use Rattle.c_types.specs.Declarations.{visible};
ghost use Rattle.scope_bind.specs.Known.{known};
ghost use Rattle.scope_bind.specs.Linkage.{linkage_of};
ghost use Rattle.name_chains.specs.Members.{with_member};
ghost use Rattle.scope_bind.specs.Ordinary.{is_func, named_facts, named_type, new_kind, new_type, new_object, with_object, plain_name, new_parameter, with_parameter, with_listed, with_enumerator};

use crate::facts::Facts;
use crate::linkage::linkage_of;
use crate::ordinary::Declared;
use c_types::{Base, Body, CType, EntityKind, Frame, Linkage, Space, declarator_type, last_token};
use c99_tree::Tree;
use cs_base::{Memory, Tok};
use name_chains::is_spelled;
use std::alloc::Global;

fn is_inside(body: Option<Body>) -> bool
    ensures { result ≡ option_map_or (λ b. true) body false }
{
    match body {
        Some(_) => true,
        None => false,
    }
}

fn is_func(toks: &[Tok], f: &Frame, i: u32) -> bool
    ensures { result ≡ is_func toks.now f.now i }
{
    (is_inside(f.body) && !f.listing) && is_spelled(toks, i, b"__func__")
}

fn new_kind(f: &Frame, t: &CType) -> EntityKind
    ensures { result ≡ new_kind [] f.now t.now }
{
    if f.words.has_typedef {
        EntityKind::Typedef
    } else if f.listing {
        EntityKind::Parameter
    } else if t.is_function() {
        EntityKind::Function
    } else {
        EntityKind::Object
    }
}

fn new_type(f: &Frame, t: CType) -> Result<CType, Memory>
    ensures { IfOk result (λ r. r ≡ new_type [] f.now t) }
{
    if f.listing && !f.words.has_typedef {
        t.adjusted()
    } else {
        Ok(t)
    }
}

fn plain_name(i: u32, last: u32, kind: EntityKind, t: CType, listed: bool) -> Declared
    ensures { result ≡ plain_name [] i last kind t listed }
{
    Declared {
        name_at: i,
        last,
        kind,
        ctype: t,
        linkage: Linkage::Absent,
        listing: false,
        listed,
    }
}

fn new_parameter(f: &Frame, i: u32, last: u32, t: CType) -> Result<Declared, Memory>
    ensures { IfOk result (λ n. n ≡ new_parameter [] f.now i last t) }
{
    if f.words.has_typedef {
        Ok(plain_name(i, last, EntityKind::Typedef, t, false))
    } else {
        Ok(plain_name(i, last, EntityKind::Parameter, t.adjusted()?, false))
    }
}

impl Facts<'_> {
    /// An identifier in an expression.
    pub fn name(&mut self, f: &Frame, i: u32) -> Result<(), Memory>
        ensures { OnOk result (self.new ≡ known self.old.toks (named_facts self.old.toks f.now i self.old.facts)) }
    {
        if is_func(self.toks(), f, i) {
            Ok(())
        } else {
            self.use_name(i)
        }
    }

    /// Its type.
    pub fn named_type(&self, alloc: Global, f: &Frame, i: u32) -> Result<CType, Memory>
        ensures { IfOk result (λ t. t ≡ named_type self.now.toks f.now i self.now.facts) }
    {
        if is_func(self.toks(), f, i) {
            CType::plain(alloc, Base::Arithmetic).array()
        } else {
            self.type_of(alloc, i)
        }
    }

    fn new_linkage(&self, f: &Frame, i: u32, last: u32, of_function: bool) -> Linkage
        ensures { result ≡ (if f.now.words.has_typedef || f.now.listing then NoLinkage else linkage_of f.now.scope.depth of_function f.now.words (visible self.now.toks Ordinary i last self.now.facts)) }
    {
        if f.words.has_typedef || f.listing {
            Linkage::Absent
        } else {
            linkage_of(
                f.scope.depth,
                of_function,
                f.words,
                self.visible(Space::Ordinary, i, last),
            )
        }
    }

    fn new_object(&self, f: &Frame, i: u32, last: u32, t: CType) -> Result<Declared, Memory>
        ensures { IfOk result (λ n. n ≡ new_object self.now.toks f.now i last t self.now.facts) }
    {
        let kind = new_kind(f, &t);
        let linkage = self.new_linkage(f, i, last, t.is_function());
        Ok(Declared {
            name_at: i,
            last,
            kind,
            ctype: new_type(f, t)?,
            linkage,
            listing: f.listing,
            listed: false,
        })
    }

    /// The name of a declarator, behind it.
    pub(crate) fn declare_object(
        &mut self,
        f: &Frame,
        tree: &Tree,
        name: Option<u32>,
    ) -> Result<(), Memory>
        ensures { OnOk result (self.new ≡ known self.old.toks (with_object self.old.toks f.now tree.now.under name self.old.facts)) }
    {
        match name {
            None => Ok(()),
            Some(i) => {
                let t = declarator_type(f.base.copied()?, tree)?;
                let n = self.new_object(f, i, last_token(tree, i), t)?;
                self.declare_name(f.scope, n)
            }
        }
    }

    /// The name of a member, behind its declarator.
    pub(crate) fn declare_member_name(
        &mut self,
        f: &Frame,
        tree: &Tree,
        name: Option<u32>,
    ) -> Result<(), Memory>
        ensures { OnOk result (self.new ≡ known self.old.toks (with_member self.old.toks f.now tree.now.under name self.old.facts)) }
    {
        match name {
            None => Ok(()),
            Some(i) => {
                let t = declarator_type(f.base.copied()?, tree)?;
                self.declare_member(f, i, last_token(tree, i), t)
            }
        }
    }

    /// A parameter of a prototype, behind its declarator.
    pub(crate) fn declare_parameter(
        &mut self,
        f: &Frame,
        tree: &Tree,
        name: Option<u32>,
    ) -> Result<(), Memory>
        ensures { OnOk result (self.new ≡ known self.old.toks (with_parameter self.old.toks f.now tree.now.under name self.old.facts)) }
    {
        match name {
            None => Ok(()),
            Some(i) => {
                let t = declarator_type(f.base.copied()?, tree)?;
                let n = new_parameter(f, i, last_token(tree, i), t)?;
                self.declare_name(f.scope, n)
            }
        }
    }

    /// A name in an identifier list.
    pub(crate) fn list_name(&mut self, alloc: Global, f: &Frame, i: u32) -> Result<(), Memory>
        ensures { OnOk result (self.new ≡ known self.old.toks (with_listed self.old.toks f.now i self.old.facts)) }
    {
        let t = CType::plain(alloc, Base::Arithmetic);
        let n = plain_name(i, i, EntityKind::Parameter, t, true);
        self.declare_name(f.scope, n)
    }

    /// An enumeration constant, behind its enumerator.
    pub(crate) fn declare_enumerator(
        &mut self,
        alloc: Global,
        f: &Frame,
        i: u32,
        last: u32,
    ) -> Result<(), Memory>
        ensures { OnOk result (self.new ≡ known self.old.toks (with_enumerator self.old.toks f.now i last self.old.facts)) }
    {
        let t = CType::plain(alloc, Base::Arithmetic);
        let n = plain_name(i, last, EntityKind::Enumerator, t, false);
        self.declare_name(f.scope, n)
    }
}
