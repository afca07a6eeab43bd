// Which names are typedef names: a table with what to undo at the end of each scope.
ghost use Rattle.std.specs.Prelude.{◌≡◌, [], ◌∷◌, OnOk, OnErr};
ghost use Rattle.c99_tree.specs.Names.{outermost, declared, ended, is_typedef};

use crate::numbered_names::NumberedNames;
use cs_base::Memory;
use std::alloc::Global;
use std::marker::Model;

// What was done: a scope begun, or a name declared, with the mark that it had before.
#[derive(Clone, Copy)]
enum Step {
    Scope,
    Declared(usize, bool, bool),
}

/// The visible ordinary names. Contracts see the list of open scopes, the innermost first.
#[derive(Drop)]
pub struct Visible {
    names: NumberedNames,
    steps: Vec<Step>,
    open_count: usize,
}

impl Model for Visible {
    ghost use Rattle.std.specs.Prelude.{reverse};
    ghost use Rattle.c99_tree.specs.Names.{Scopes};

    ghost Value = { Scopes };

    ghost use Rattle.c99_tree.specs.Marks.{scopes_of, IsKept};

    ghost view = { λ v. scopes_of v.names.names (reverse v.steps.items) };

    ghost invariant = { λ v. IsKept v.names (reverse v.steps.items) v.open_count };
}

impl Visible {
    /// No name is visible, and the outermost scope alone is open.
    pub fn new(alloc: Global) -> Visible
        ensures { result ≡ outermost }
    {
        Visible {
            names: NumberedNames::new(alloc),
            steps: Vec::new(alloc),
            open_count: 0,
        }
    }

    /// A scope begins.
    pub fn push_scope(&mut self) -> Result<(), Memory>
        ensures ok { OnOk result (self.new ≡ [] ∷ self.old) }
        ensures unchanged { OnErr result (self.new ≡ self.old) }
    {
        self.steps.push(Step::Scope)?;
        self.open_count += 1;
        Ok(())
    }

    /// The innermost scope ends, and what it hid is visible again. Where none was pushed nothing changes.
    pub fn pop_scope(&mut self)
        ensures { self.new ≡ ended self.old }
    {
        if self.open_count == 0 {
            return;
        }
        self.open_count -= 1;
        'steps: while let Some(step) = self.steps.pop() {
            match step {
                Step::Scope => return,
                Step::Declared(number, before, _) => self.names.mark(number, before),
            }
        }
    }

    /// The name is declared in the innermost scope, as a typedef name or as another.
    pub fn declare(&mut self, name: &[u8], typedef: bool) -> Result<(), Memory>
        ensures ok { OnOk result (self.new ≡ declared self.old name.now typedef) }
        ensures unchanged { OnErr result (self.new ≡ self.old) }
    {
        let number = self.names.numbered(name)?;
        let before = self.names.is_typedef(number);
        self.steps.push(Step::Declared(number, before, typedef))?;
        self.names.mark(number, typedef);
        Ok(())
    }

    /// Whether the innermost declaration of the name is one of a typedef name.
    pub fn is_typedef(&self, name: &[u8]) -> bool
        ensures { result ≡ is_typedef self.now name.now }
    {
        match self.names.number_of(name) {
            Some(number) => self.names.is_typedef(number),
            None => false,
        }
    }
}
