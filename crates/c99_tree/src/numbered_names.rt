// The names that were ever declared, each with a number and whether it is a typedef name now.
ghost use Rattle.std.specs.Prelude.{◌≡◌, ◌<◌, ◌++◌, [], ◌∷◌, false, length, get_or, slice_set, position, Option, None, IfOk, OnOk, OnErr};
ghost use Rattle.std.specs.Str.{bytes_eq};
ghost use Rattle.c99_tree.specs.NumberedNames.{marks_of, IsNumbered, IsNumberOf};

use cs_base::Memory;
use indexmap::IndexSet;
use std::alloc::Global;
use std::marker::Model;

#[derive(Drop)]
pub(crate) struct NumberedNames {
    names: IndexSet<Vec<u8>>,
    typedefs: Vec<bool>,
}

impl Model for NumberedNames {
    ghost use Rattle.c99_tree.specs.NumberedNames.{Marks, IsNumbered};

    ghost Value = { Marks };

    ghost use Rattle.c99_tree.specs.KeptNames.{marks_in};

    ghost view = { marks_in };

    ghost invariant = { λ a. IsNumbered (marks_in a) };
}

impl NumberedNames {
    pub(crate) fn new(alloc: Global) -> NumberedNames
        ensures { result ≡ marks_of [] [] }
    {
        NumberedNames {
            names: IndexSet::new(alloc),
            typedefs: Vec::new(alloc),
        }
    }

    pub(crate) fn number_of(&self, name: &[u8]) -> Option<usize>
        ensures answer { result ≡ position (bytes_eq name.now) self.now.names }
        ensures sound { IsNumbered self.now }
    {
        self.names.get_index_of(name)
    }

    pub(crate) fn is_typedef(&self, number: usize) -> bool
        requires { number < length self.now.names }
        ensures { result ≡ get_or self.now.typedefs number false }
    {
        self.typedefs[number]
    }

    pub(crate) fn mark(&mut self, number: usize, typedef: bool)
        requires { number < length self.old.names }
        ensures answer { self.new ≡ record self.old { typedefs = slice_set self.old.typedefs number typedef } }
        ensures each { length self.old.typedefs ≡ length self.old.names }
    {
        self.typedefs[number] = typedef;
    }

    // The name's number, which is a new one where the name is new.
    pub(crate) fn numbered(&mut self, name: &[u8]) -> Result<usize, Memory>
        ensures ok { IfOk result (λ number. IsNumberOf self.old self.new name.now number) }
        ensures unchanged { OnErr result (self.new ≡ self.old) }
    {
        match self.number_of(name) {
            Some(number) => Ok(number),
            None => self.add(name),
        }
    }

    fn add(&mut self, name: &[u8]) -> Result<usize, Memory>
        requires { position (bytes_eq name.now) self.old.names ≡ None }
        ensures ok { IfOk result (λ number. IsNumberOf self.old self.new name.now number) }
        ensures unchanged { OnErr result (self.new ≡ self.old) }
    {
        let spelling = Vec::from_slice(*self.typedefs.allocator(), name)?;
        self.typedefs.reserve(1)?;
        let number = self.names.len();
        self.names.insert(spelling)?;
        self.typedefs.push(false).unwrap();
        Ok(number)
    }
}
