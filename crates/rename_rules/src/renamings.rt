// A new name for a class over an analysis.
ghost use Rattle.std.specs.Prelude.{◌≡◌, IfOk};
ghost use Rattle.offences.specs.Class.{class_over, IsClass};
ghost use Rattle.rename_rules.specs.RenamingValue.{held, renaming};
ghost use Rattle.rename_rules.specs.Respellings.{AreRespellings};

use crate::held_tokens::holders;
use crate::respelling_table::{Respelling, respellings};
use analysis::Analysis;
use cs_base::{Memory, Part, Tok};
use offences::Class;
use std::alloc::Global;
use std::marker::Model;

/// A class over an analysis and the name that it is to have, with the tokens that hold its members and with their old
/// and new spellings. Contracts see the class and the name.
#[derive(Drop)]
pub struct Renaming<'a> {
    class: Class<'a>,
    name: &'a [u8],
    toks: Vec<Tok>,
    table: Vec<Respelling>,
}

impl<'a> Model for Renaming<'a> {
    ghost use Rattle.std.specs.Coded.{codes};
    ghost use Rattle.analysis.specs.Below.c99_tree.TreeCode.{node_code};
    ghost use Rattle.rename_rules.specs.RenamingValue.{AreHeld, RenamingValue, renaming};

    ghost Value = { RenamingValue };

    ghost coded = { Prim.hlevel (codes, node_code) };

    ghost view = { λ r. renaming r.class r.name.now };

    ghost invariant = { λ r. AreHeld r.class r.name.now r.toks.items r.table.items };
}

impl<'a> Renaming<'a> {
    /// The class with these members and this number is to have this name.
    pub fn new(
        alloc: Global,
        a: &'a Analysis,
        members: &'a [Part],
        number: u32,
        name: &'a [u8],
    ) -> Result<Renaming<'a>, Memory>
        requires { IsClass a.now members.now number }
        ensures { IfOk result (λ r. r ≡ renaming (class_over a.now members.now) name.now) }
    {
        let class = Class::new(a, members, number);
        let toks = holders(alloc, &class)?;
        let table = respellings(alloc, &class, name, &toks)?;
        Ok(Renaming {
            class,
            name,
            toks,
            table,
        })
    }

    pub fn class(&self) -> &Class<'a>
        ensures { result.now ≡ self.now.class }
    {
        &self.class
    }

    pub fn name(&self) -> &'a [u8]
        ensures { result.now ≡ self.now.name }
    {
        self.name
    }

    /// The tokens that hold members: those of files, the numbers that units brought, and pasted tokens.
    pub(crate) fn toks(&self) -> &[Tok]
        ensures { result.now ≡ held self.now.class }
    {
        self.toks.as_slice()
    }

    /// Their old and new spellings.
    pub(crate) fn table(&self) -> &[Respelling]
        ensures { AreRespellings self.now.class.members self.now.name (held self.now.class) result.now }
    {
        self.table.as_slice()
    }
}
