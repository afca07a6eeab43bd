// The first names of each spelling.
ghost use Rattle.std.specs.Prelude.{◌≡◌, [], ℕ, List, is_some, IfOk, option_copied};
ghost use Rattle.unit_steps.specs.Names.{spelled_in};
ghost use Rattle.unit_steps.specs.FirstNames.{names_with, rows_of};

use cs_base::{Memory, Tok};
use indexmap::IndexMap;
use macro_expand::shared;
use std::alloc::Global;
use std::marker::Model;

/// Names, one of each spelling, that are found by its hash. Contracts see their list.
#[derive(Drop)]
pub struct FirstNames {
    alloc: Global,
    names: IndexMap<Vec<u8>, Tok>,
}

impl Model for FirstNames {
    ghost use Rattle.std.specs.Prelude.{List, map};
    ghost use Rattle.cs_base.specs.Token.{Token};
    ghost use Rattle.unit_steps.specs.FirstNames.{names_of, AreSpelled};

    ghost Value = { List Token };

    ghost view = { λ n. names_of (map (λ e. (e.0.items, e.1)) n.names.entries) };

    ghost invariant = { λ n. AreSpelled (map (λ e. (e.0.items, e.1)) n.names.entries) };
}

impl FirstNames {
    pub fn new(alloc: Global) -> FirstNames
        ensures { result ≡ [] }
    {
        FirstNames {
            alloc,
            names: IndexMap::new(alloc),
        }
    }

    /// The name of this spelling.
    pub fn find(&self, text: &[u8]) -> Option<&Tok>
        ensures { option_copied result ≡ spelled_in self.now text.now }
    {
        self.names.get(text)
    }

    fn has(&self, text: &[u8]) -> bool
        ensures { result ≡ is_some (spelled_in self.now text.now) }
    {
        self.find(text).is_some()
    }

    /// Adds a name, unless there is one of its spelling.
    pub fn add(&mut self, name: &Tok) -> Result<(), Memory>
        ensures { IfOk result (λ _. self.new ≡ names_with name.now self.old) }
    {
        if self.has(name.text()) {
            return Ok(());
        }
        let key = Vec::from_slice(self.alloc, name.text())?;
        self.names.insert(key, shared(name)?)?;
        Ok(())
    }

    /// The first names of each spelling among tokens.
    pub fn of(alloc: Global, toks: &[Tok]) -> Result<FirstNames, Memory>
        ensures { IfOk result (λ names. (text : List ℕ) → spelled_in names text ≡ spelled_in toks.now text) }
    {
        let mut names = FirstNames::new(alloc);
        for tok in toks {
            names.add(tok)?;
        }
        Ok(names)
    }

    /// The same names. Texts and origins are shared.
    pub fn copied(&self) -> Result<FirstNames, Memory>
        ensures { IfOk result (λ names. names ≡ self.now) }
    {
        let names = same_entries(self.alloc, &self.names)?;
        Ok(FirstNames {
            alloc: self.alloc,
            names,
        })
    }
}

// A map with the same names under the same spellings, in the same order.
fn same_entries(
    alloc: Global,
    names: &IndexMap<Vec<u8>, Tok>,
) -> Result<IndexMap<Vec<u8>, Tok>, Memory>
    ensures { IfOk result (λ all. rows_of (λ k. k.items) all.entries ≡ rows_of (λ k. k.items) names.now.entries) }
{
    let mut all = IndexMap::with_capacity(alloc, names.len())?;
    for (text, name) in names {
        let key = Vec::from_slice(alloc, text.as_slice())?;
        let same = shared(name)?;
        all.insert(key, same)?;
    }
    Ok(all)
}
