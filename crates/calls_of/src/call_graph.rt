// A graph of calls, and the questions that are asked of it.
ghost use Rattle.std.specs.Prelude.{◌≡◌, ◌<◌, ◌^◌, length, All, IsTrue, IfOk, slice_get};
ghost use Rattle.std.specs.Option.{option_copied};
ghost use Rattle.calls_of.specs.Graph.{graph, is_edge, IsWithin, are_in_order, edges_of, callers_of, callees_of};
ghost use Rattle.calls_of.specs.Reaching.{Lists, Reaches};

use crate::marks::Marks;
use crate::nodes::{Edge, Node};
use crate::walk::Walk;
use cs_base::Memory;
use std::alloc::Global;
use std::marker::Model;

/// Nodes, which are known by their numbers from 0, and the edges between them in order of the caller and then
/// of the callee, each once.
#[derive(Drop)]
pub struct Graph {
    nodes: Vec<Node>,
    edges: Vec<Edge>,
}

impl Model for Graph {
    ghost use Rattle.calls_of.specs.Graph.{GraphValue, IsGraph, graph};

    ghost Value = { GraphValue };

    ghost view = { λ g. graph g.nodes.items g.edges.items };

    ghost invariant = { λ g. IsGraph (graph g.nodes.items g.edges.items) };
}

impl Graph {
    ghost use Rattle.calls_of.specs.Graph.{graph, is_edge, IsWithin, are_in_order, edges_of, callers_of, callees_of};
    ghost use Rattle.calls_of.specs.Reaching.{Lists, Reaches};

    /// A graph of these nodes and edges.
    pub fn new(nodes: Vec<Node>, edges: Vec<Edge>) -> Graph
        requires few { length nodes.items < 2 ^ 32 }
        requires within { All (IsWithin (length nodes.items)) edges.items }
        requires ordered { IsTrue (are_in_order edges.items) }
        ensures { result ≡ graph nodes.items edges.items }
    {
        Graph { nodes, edges }
    }

    /// How many nodes there are.
    pub fn len(&self) -> u32
        ensures { result ≡ length self.now.nodes }
    {
        self.nodes.len() as u32
    }

    /// The node with a number, from 0; none from `len` on.
    pub fn node(&self, k: u32) -> Option<&Node>
        ensures { option_copied result ≡ slice_get self.now.nodes k }
    {
        self.nodes.get(k as usize)
    }

    /// The edges, in order of the caller and then of the callee, each once. Takes no memory.
    pub fn edges(&self) -> &[Edge]
        ensures { result.now ≡ self.now.edges }
    {
        self.edges.as_slice()
    }

    // The edges that lead from a node: they stand together.
    fn edges_from(&self, node: u32) -> &[Edge]
        ensures { result.now ≡ edges_of node self.now.edges }
    {
        let edges = self.edges.as_slice();
        let start = edges.partition_point(|e| e.caller < node);
        let rest = &edges[start..];
        let count = rest.partition_point(|e| e.caller <= node);
        &rest[..count]
    }

    /// The nodes that call this one, in order and each once.
    pub fn callers(&self, alloc: Global, node: u32) -> Result<Vec<u32>, Memory>
        requires { node < length self.now.nodes }
        ensures { IfOk result (λ ns. ns.items ≡ callers_of self.now node) }
    {
        let mut marks = Marks::new(alloc, self.nodes.len())?;
        for edge in &self.edges {
            if edge.callee == node {
                marks.set(edge.caller);
            }
        }
        marks.numbers(alloc)
    }

    /// The nodes that this one calls, in order and each once.
    pub fn callees(&self, alloc: Global, node: u32) -> Result<Vec<u32>, Memory>
        requires { node < length self.now.nodes }
        ensures { IfOk result (λ ns. ns.items ≡ callees_of self.now node) }
    {
        let mut marks = Marks::new(alloc, self.nodes.len())?;
        for edge in self.edges_from(node) {
            marks.set(edge.callee);
        }
        marks.numbers(alloc)
    }

    /// The nodes that a chain of one or more edges reaches from this one, in order and each once. The node itself
    /// is one of them only where a chain leads back to it.
    pub fn reachable(&self, alloc: Global, node: u32) -> Result<Vec<u32>, Memory>
        requires { node < length self.now.nodes }
        ensures { IfOk result (λ ns. Lists (Reaches self.now.edges node) ns.items) }
    {
        let mut walk = Walk::new(alloc, self.nodes.len(), node)?;
        while let Some(from) = walk.next() {
            walk.follow(from, self.edges_from(from))?;
        }
        walk.met(alloc)
    }
}
