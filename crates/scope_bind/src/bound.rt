// The binding of a translation unit.
ghost use Rattle.std.specs.Prelude.{◌≡◌, IfOk};
ghost use Rattle.std.specs.Option.{option_map};
ghost use Rattle.scope_bind.specs.Names.{name_at, entity_at, declares_at, kind_at, linkage_at};

use crate::name_table::NameTable;
use c_types::{EntityKind, Linkage, List, Range};
use cs_base::Memory;
use std::alloc::Global;
use std::marker::Model;

/// An identifier that is bound: its token, its entity by the first token that declares it, whether it
/// declares it, and the entity's kind and linkage.
#[derive(Clone, Copy, Debug, PartialEq, Eq)]
pub struct Name {
    pub index: u32,
    pub entity: u32,
    pub declares: bool,
    pub kind: EntityKind,
    pub linkage: Linkage,
}

/// What is bound. Contracts see the names in the order in which they were bound, and lists.
#[derive(Drop)]
pub struct Bound {
    names: NameTable,
    declarators: Vec<List>,
    calls: Vec<List>,
    functions: Vec<Range>,
    bare: Vec<u32>,
    typedefs: Vec<Range>,
}

/// What is told beside the names.
#[derive(Drop)]
pub(crate) struct Told {
    pub declarators: Vec<List>,
    pub calls: Vec<List>,
    pub functions: Vec<Range>,
    pub bare: Vec<u32>,
    pub typedefs: Vec<Range>,
}

impl Model for Bound {
    ghost use Rattle.scope_bind.specs.Bound.{Bound};

    ghost Value = { Bound };

    ghost view = { λ b. record { names = b.names; declarators = b.declarators.items; calls = b.calls.items; functions = b.functions.items; bare = b.bare.items; typedefs = b.typedefs.items } };
}

impl Bound {
    /// What is bound in so many tokens.
    pub(crate) fn new(
        alloc: Global,
        count: usize,
        names: Vec<Name>,
        told: Told,
    ) -> Result<Bound, Memory>
        ensures { IfOk result (λ b. b ≡ record { names = names.items; declarators = told.declarators.items; calls = told.calls.items; functions = told.functions.items; bare = told.bare.items; typedefs = told.typedefs.items }) }
    {
        Ok(Bound {
            names: NameTable::new(alloc, count, names)?,
            declarators: told.declarators,
            calls: told.calls,
            functions: told.functions,
            bare: told.bare,
            typedefs: told.typedefs,
        })
    }

    // The name of a token.
    fn name_at(&self, index: u32) -> Option<&Name>
        ensures { option_map (λ n. n.now) result ≡ name_at self.now.names index }
    {
        self.names.at(index)
    }

    /// The entity that the token is bound to, by the first token that declares it.
    pub fn entity(&self, index: u32) -> Option<u32>
        ensures { result ≡ entity_at self.now.names index }
    {
        self.name_at(index).map(|name| name.entity)
    }

    /// Whether the token declares what it is bound to.
    pub fn declares(&self, index: u32) -> bool
        ensures { result ≡ declares_at self.now.names index }
    {
        match self.name_at(index) {
            Some(name) => name.declares,
            None => false,
        }
    }

    /// The kind of an entity.
    pub fn kind(&self, entity: u32) -> Option<EntityKind>
        ensures { result ≡ kind_at self.now.names entity }
    {
        let name = self.name_at(entity)?;
        if name.entity == entity {
            Some(name.kind)
        } else {
            None
        }
    }

    /// The linkage of an entity.
    pub fn linkage(&self, entity: u32) -> Linkage
        ensures { result ≡ linkage_at self.now.names entity }
    {
        match self.name_at(entity) {
            Some(name) if name.entity == entity => name.linkage,
            _ => Linkage::Absent,
        }
    }

    /// All identifiers that are bound: a declared name stands at the end of its declarator, and a name
    /// after `goto` at the end of its function.
    pub fn names(&self) -> &[Name]
        ensures { result.now ≡ self.now.names }
    {
        self.names.as_slice()
    }

    /// The parameter lists of functions, in order of the declared names.
    pub fn declarators(&self) -> &[List]
        ensures { result.now ≡ self.now.declarators }
    {
        self.declarators.as_slice()
    }

    /// The argument lists of calls whose callee is a name, in order of these names.
    pub fn calls(&self) -> &[List]
        ensures { result.now ≡ self.now.calls }
    {
        self.calls.as_slice()
    }

    /// The bodies of functions, in order of their names.
    pub fn functions(&self) -> &[Range]
        ensures { result.now ≡ self.now.functions }
    {
        self.functions.as_slice()
    }

    /// Names that are parameters only since they are no typedef names where they stand (6.7.5.3
    /// paragraph 11).
    pub fn bare(&self) -> &[u32]
        ensures { result.now ≡ self.now.bare }
    {
        self.bare.as_slice()
    }

    /// Where typedef names are visible, hidden or not.
    pub fn typedefs(&self) -> &[Range]
        ensures { result.now ≡ self.now.typedefs }
    {
        self.typedefs.as_slice()
    }
}
