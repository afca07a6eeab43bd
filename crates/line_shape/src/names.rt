// The names of a macro's parameters.
ghost use Rattle.std.specs.Prelude.{◌≡◌, [], IfOk};
ghost use Rattle.std.specs.List.{list_any};
ghost use Rattle.std.specs.Str.{bytes_eq};
ghost use Rattle.line_shape.specs.Walk.{Adds};

use cs_base::Memory;
use indexmap::IndexSet;
use std::alloc::Global;
use std::marker::Model;

/// Names, each once, that are found by their hash. Contracts see their list.
#[derive(Drop)]
pub struct Names {
    alloc: Global,
    names: IndexSet<Vec<u8>>,
}

impl Model for Names {
    ghost use Rattle.std.specs.Prelude.{List, ℕ, map};

    ghost Value = { List (List ℕ) };

    ghost view = { λ n. map (λ k. k.items) n.names.keys };
}

impl Names {
    pub fn new(alloc: Global) -> Names
        ensures { result ≡ [] }
    {
        Names {
            alloc,
            names: IndexSet::new(alloc),
        }
    }

    pub fn contains(&self, name: &[u8]) -> bool
        ensures { result ≡ list_any (bytes_eq name.now) self.now }
    {
        self.names.contains(name)
    }

    /// Adds the name, if it is new, and says whether it was.
    pub fn add(&mut self, name: &[u8]) -> Result<bool, Memory>
        ensures { IfOk result (λ added. Adds name.now self.old added self.new) }
    {
        if self.contains(name) {
            return Ok(false);
        }
        self.names.insert(Vec::from_slice(self.alloc, name)?)?;
        Ok(true)
    }
}
