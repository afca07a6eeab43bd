// The macros that are defined (6.10.3.5).
ghost use Rattle.std.specs.Prelude.{◌≡◌, map, IfOk, OnOk, OnErr, option_copied};
ghost use Rattle.macro_body.specs.Live.{table_of, no_macro, with_macro, without_macro};

use crate::definitions::Definition;
use cs_base::Memory;
use std::alloc::Global;
use std::collections::HashMap;
use std::marker::Model;

/// The macros that are defined, found by the hash of their names. Contracts see a list of names with
/// their definitions, whose order means nothing: `table_of` is what each spelling stands for.
#[derive(Drop)]
pub struct Macros {
    alloc: Global,
    live: HashMap<Vec<u8>, Definition>,
}

impl Model for Macros {
    ghost use Rattle.std.specs.Prelude.{map};
    ghost use Rattle.macro_body.specs.Live.{Entries};

    ghost Value = { Entries };

    ghost view = { λ m. map (λ e. (e.0.items, e.1)) m.live.entries };
}

impl Macros {
    /// No macro.
    pub fn new(alloc: Global) -> Macros
        ensures { table_of result ≡ no_macro }
    {
        Macros {
            alloc,
            live: HashMap::new(alloc),
        }
    }

    /// Defines a macro; its definition takes the place of an earlier one of its name, without a
    /// comparison. On `Memory` the definition is dropped.
    pub fn define(&mut self, definition: Definition) -> Result<(), Memory>
        ensures answer { OnOk result (table_of self.new ≡ with_macro definition (table_of self.old)) }
        ensures unchanged { OnErr result (self.new ≡ self.old) }
    {
        let name = Vec::from_slice(self.alloc, definition.name.text())?;
        self.live.insert(name, definition)?;
        Ok(())
    }

    /// Takes a macro away, if there is one of this name (6.10.3.5 paragraph 2).
    pub fn undef(&mut self, name: &[u8])
        ensures { table_of self.new ≡ without_macro name.now (table_of self.old) }
    {
        self.live.remove(name);
    }

    /// The definition of this name: none exactly where no macro of this name is defined.
    pub fn find(&self, name: &[u8]) -> Option<&Definition>
        ensures { option_copied result ≡ table_of self.now name.now }
    {
        self.live.get(name)
    }

    /// The same macros. Texts and origins of their tokens are shared.
    pub fn copied(&self) -> Result<Macros, Memory>
        ensures { IfOk result (λ macros. table_of macros ≡ table_of self.now) }
    {
        let live = same_entries(self.alloc, &self.live)?;
        Ok(Macros {
            alloc: self.alloc,
            live,
        })
    }
}

// A map with the same definitions under the same names.
fn same_entries(
    alloc: Global,
    live: &HashMap<Vec<u8>, Definition>,
) -> Result<HashMap<Vec<u8>, Definition>, Memory>
    ensures { IfOk result (λ all. table_of (map (λ e. (e.0.items, e.1)) all.entries)
        ≡ table_of (map (λ e. (e.0.items, e.1)) live.now.entries)) }
{
    let mut all = HashMap::with_capacity(alloc, live.len())?;
    for (name, m) in live {
        let key = Vec::from_slice(alloc, name.as_slice())?;
        let same = m.copied(alloc)?;
        all.insert(key, same)?;
    }
    Ok(all)
}
