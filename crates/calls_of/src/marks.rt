// Marks on the nodes of a graph.
ghost use Rattle.std.specs.Prelude.{◌≡◌, ◌≤◌, ◌^◌, length, replicate, false, true, not, slice_set, slice_index_or, IfOk};
ghost use Rattle.calls_of.specs.Walking.{marked_numbers};

use cs_base::Memory;
use std::alloc::Global;
use std::marker::Model;

/// A mark for each node. Contracts see the list of them.
#[derive(Drop)]
pub(crate) struct Marks {
    of_nodes: Vec<bool>,
}

impl Model for Marks {
    ghost use Rattle.std.specs.Prelude.{List, Bool, ◌<◌, ◌^◌, length};

    ghost Value = { List Bool };

    ghost view = { λ m. m.of_nodes.items };
}

impl Marks {
    // No mark for so many nodes.
    pub(crate) fn new(alloc: Global, nodes: usize) -> Result<Marks, Memory>
        ensures { IfOk result (λ m. m ≡ replicate nodes false) }
    {
        Ok(Marks {
            of_nodes: vec![in alloc; false; nodes]?,
        })
    }

    // Marks a node, where there is one with this number.
    pub(crate) fn set(&mut self, node: u32)
        ensures { self.new ≡ slice_set self.old node true }
    {
        if (node as usize) < self.of_nodes.len() {
            self.of_nodes[node as usize] = true;
        }
    }

    // A node has no mark yet, and is there.
    pub(crate) fn is_open(&self, node: u32) -> bool
        ensures { result ≡ not (slice_index_or self.now node true) }
    {
        if (node as usize) < self.of_nodes.len() {
            !self.of_nodes[node as usize]
        } else {
            false
        }
    }

    // The numbers of the nodes that are marked, in order.
    pub(crate) fn numbers(&self, alloc: Global) -> Result<Vec<u32>, Memory>
        requires { length self.now ≤ 2 ^ 32 }
        ensures { IfOk result (λ ns. ns.items ≡ marked_numbers self.now) }
    {
        let mut numbers = Vec::new(alloc);
        for (node, mark) in self.of_nodes.iter().enumerate() {
            if *mark {
                numbers.push(node as u32)?;
            }
        }
        Ok(numbers)
    }
}
