// A walk along the edges of a graph, without recursion.
ghost use Rattle.std.specs.Prelude.{◌≡◌, ◌≤◌, ◌^◌, ◌++◌, ◌∷◌, [], length, replicate, false, IfOk, OnOk, MatchOption};
ghost use Rattle.std.specs.List.{fold};
ghost use Rattle.calls_of.specs.Walking.{marked_numbers, walk, met, followed};

use crate::marks::Marks;
use crate::nodes::Edge;
use cs_base::Memory;
use std::alloc::Global;
use std::marker::Model;

/// The nodes that a walk has met, and those that it still has to go on from.
#[derive(Drop)]
pub(crate) struct Walk {
    marks: Marks,
    work: Vec<u32>,
}

impl Model for Walk {
    ghost use Rattle.calls_of.specs.Walking.{WalkValue, walk};

    ghost Value = { WalkValue };

    ghost view = { λ w. walk w.marks w.work.items };
}

impl Walk {
    ghost use Rattle.calls_of.specs.Walking.{walk, met, followed};

    // A walk over so many nodes that begins at one and has met none.
    pub(crate) fn new(alloc: Global, nodes: usize, node: u32) -> Result<Walk, Memory>
        ensures { IfOk result (λ w. w ≡ walk (replicate nodes false) (node ∷ [])) }
    {
        let marks = Marks::new(alloc, nodes)?;
        let mut work = Vec::new(alloc);
        work.push(node)?;
        Ok(Walk { marks, work })
    }

    // A node to go on from, if one is left.
    pub(crate) fn next(&mut self) -> Option<u32>
        ensures work { MatchOption result (self.old.work ≡ []) (λ node. self.old.work ≡ self.new.work ++ node ∷ []) }
        ensures marks { self.new.marks ≡ self.old.marks }
    {
        self.work.pop()
    }

    // Meets a node: the first time it is marked, and is to be gone on from.
    fn meet(&mut self, node: u32) -> Result<(), Memory>
        ensures { OnOk result (self.new ≡ met node self.old) }
    {
        if self.marks.is_open(node) {
            self.marks.set(node);
            self.work.push(node)?;
        }
        Ok(())
    }

    // Meets each node to which an edge leads from this one.
    pub(crate) fn follow(&mut self, caller: u32, edges: &[Edge]) -> Result<(), Memory>
        ensures { OnOk result (self.new ≡ fold (followed caller) self.old edges.now) }
    {
        for edge in edges {
            if edge.caller == caller {
                self.meet(edge.callee)?;
            }
        }
        Ok(())
    }

    // The numbers of the nodes that were met, in order.
    pub(crate) fn met(&self, alloc: Global) -> Result<Vec<u32>, Memory>
        requires { length self.now.marks ≤ 2 ^ 32 }
        ensures { IfOk result (λ ns. ns.items ≡ marked_numbers self.now.marks) }
    {
        self.marks.numbers(alloc)
    }
}
