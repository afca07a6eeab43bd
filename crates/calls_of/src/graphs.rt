// The graph of the calls of an analysis.
ghost use Rattle.std.specs.Prelude.{◌≡◌, ◌<◌, ◌^◌, length, IfOk, IsTrue};
ghost use Rattle.calls_of.specs.Graph.{are_in_order};
ghost use Rattle.calls_of.specs.Graphs.{IsGraphOf};
ghost use Rattle.calls_of.specs.Numbers.{AreCalls};

use crate::call::NamedCall;
use crate::call_graph::Graph;
use crate::found::all_found;
use crate::known::Known;
use crate::named::Named;
use crate::nodes::Edge;
use crate::numbering::{edges_of, kept};
use crate::ordering::{order_edges, order_nodes};
use analysis::{AllUnits, Analysis};
use cs_base::{Memory, Unit};
use std::alloc::Global;

/// The graph of the calls of an analysis. Its nodes are the macros that units define, the functions, and the ends of
/// calls, in the order of their places and then of their names, each once.
pub fn graph(alloc: Global, a: &Analysis) -> Result<Graph, Memory>
    ensures { IfOk result (λ g. IsGraphOf a.now.value g) }
{
    graph_of(alloc, a.workspace().units(), a)
}

// That of an analysis, the units of whose workspace are these.
fn graph_of(alloc: Global, units: &[Unit], a: &Analysis) -> Result<Graph, Memory>
    requires { a.now.value.workspace.units ≡ units.now }
    ensures { IfOk result (λ g. IsGraphOf a.now.value g) }
{
    let all = AllUnits::of(alloc, a)?;
    let graph = graph_over(alloc, units, a, &all)?;
    Ok(graph)
}

// The same, where all of its units are at hand.
fn graph_over(
    alloc: Global,
    units: &[Unit],
    a: &Analysis,
    all: &AllUnits<'_>,
) -> Result<Graph, Memory>
    requires units { a.now.value.workspace.units ≡ units.now }
    requires all { all.now ≡ a.now }
    ensures { IfOk result (λ g. IsGraphOf a.now.value g) }
{
    let known = Known::of(alloc, units, all)?;
    let found = all_found(alloc, units, all, &known)?;
    let calls = found.calls;
    let mut nodes = found.nodes;
    order_nodes(a, &mut nodes);
    let edges = ordered_edges(alloc, a, &nodes, &calls)?;
    let own = kept(alloc, &nodes)?;
    Ok(Graph::new(own, edges))
}

// The edges of calls among nodes, in order.
fn ordered_edges(
    alloc: Global,
    a: &Analysis,
    nodes: &[Named<'_>],
    calls: &[NamedCall<'_>],
) -> Result<Vec<Edge>, Memory>
    ensures few { IfOk result (λ _. length nodes.now < 2 ^ 32) }
    ensures calls { IfOk result (λ edges. AreCalls nodes.now calls.now edges.items) }
    ensures ordered { IfOk result (λ edges. IsTrue (are_in_order edges.items)) }
{
    if nodes.len() > u32::MAX as usize {
        return Err(Memory);
    }
    let mut edges = edges_of(alloc, a, nodes, calls)?;
    order_edges(&mut edges);
    Ok(edges)
}
