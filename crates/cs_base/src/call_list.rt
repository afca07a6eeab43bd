// The calls that were made of a world in memory, and those that are to fail.
ghost use Rattle.std.specs.Prelude.{◌≡◌, [], ◌∷◌, ◌++◌, OnOk, OnErr};
ghost use Rattle.cs_base.specs.Calls.{raised, is_listed};

use crate::no_memory::Memory;
use std::alloc::Global;

// Calls are numbered from 1. A number has 32 bits, so no call fails from number 2^32 on.
#[derive(Drop)]
pub struct CallList {
    pub made: u64,
    pub fails: Vec<u32>,
}

impl CallList {
    pub fn new(alloc: Global) -> CallList
        ensures made { result.made ≡ 0 }
        ensures fails { result.fails.items ≡ [] }
    {
        CallList {
            made: 0,
            fails: Vec::new(alloc),
        }
    }

    pub fn fail_at(&mut self, call: u32) -> Result<(), Memory>
        ensures made { self.new.made ≡ self.old.made }
        ensures ok { OnOk result (self.new.fails.items ≡ self.old.fails.items ++ call ∷ []) }
        ensures unchanged { OnErr result (self.new.fails.items ≡ self.old.fails.items) }
    {
        self.fails.push(call)?;
        Ok(())
    }

    // Counts a call, and says whether it is to fail.
    pub fn begin(&mut self) -> bool
        ensures fails { self.new.fails.items ≡ self.old.fails.items }
        ensures made { self.new.made ≡ raised self.old.made }
        ensures answer { result ≡ is_listed self.old.fails.items self.old.made }
    {
        let call = self.made.saturating_add(1);
        self.made = call;
        self.fails.iter().any(|listed| u64::from(*listed) == call)
    }
}
