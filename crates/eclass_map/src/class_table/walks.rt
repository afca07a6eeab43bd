// The parts of a class as a list.
ghost use Rattle.std.specs.Prelude.{◌≡◌, IfOk};
ghost use Rattle.eclass_map.specs.ClassTable.{members_of};

use super::Classes;
use cs_base::{Memory, Part};
use std::alloc::Global;

impl Classes {
    /// The parts of a class in the order of its walk. It goes from one to the next by the numbers of their first
    /// characters, and seeks none of them.
    pub fn members(&self, alloc: Global, class: u32) -> Result<Vec<Part>, Memory>
        ensures { IfOk result (λ parts. parts.items ≡ members_of self.now class) }
    {
        let mut parts = Vec::new(alloc);
        let mut next = self.labels.first(class);
        while let Some(x) = next {
            parts.push(self.member(class, x))?;
            next = self.labels.next(x);
        }
        Ok(parts)
    }
}
