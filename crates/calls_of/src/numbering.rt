// Calls by the numbers of their nodes.
ghost use Rattle.std.specs.Prelude.{◌≡◌, ◌<◌, ◌^◌, length, IfOk, IfSome, OnOk, slice_get};
ghost use Rattle.calls_of.specs.Numbers.{AddsEdge, AreCalls};

use crate::call::NamedCall;
use crate::named::Named;
use crate::nodes::{Edge, Node};
use crate::ordering::compare;
use analysis::Analysis;
use cs_base::Memory;
use std::alloc::Global;
use std::cmp::Ordering;

// A node comes before another.
fn comes_before(a: &Analysis, m: &Named<'_>, n: &Named<'_>) -> bool {
    match compare(a, m, n) {
        Ordering::Less => true,
        _ => false,
    }
}

// The number of a node among these, which are in order. Where they are not, it may be missed.
fn number_of(a: &Analysis, nodes: &[Named<'_>], n: &Named<'_>) -> Option<usize>
    ensures { IfSome result (λ k. slice_get nodes.now k ≡ Some n.now) }
{
    let k = nodes.partition_point(|m| comes_before(a, m, n));
    let found = nodes.get(k)?;
    if found.equals(n) { Some(k) } else { None }
}

// The edge of a call, if both its nodes are found.
fn edge_of(a: &Analysis, nodes: &[Named<'_>], call: &NamedCall<'_>) -> Option<Edge>
    requires { length nodes.now < 2 ^ 32 }
    ensures caller { IfSome result (λ e. slice_get nodes.now e.caller ≡ Some call.now.caller) }
    ensures callee { IfSome result (λ e. slice_get nodes.now e.callee ≡ Some call.now.callee) }
{
    let caller = number_of(a, nodes, call.caller())?;
    let callee = number_of(a, nodes, call.callee())?;
    Some(Edge {
        caller: caller as u32,
        callee: callee as u32,
    })
}

// Adds the edge of a call.
fn add_edge(
    edges: &mut Vec<Edge>,
    a: &Analysis,
    nodes: &[Named<'_>],
    call: &NamedCall<'_>,
) -> Result<(), Memory>
    requires { length nodes.now < 2 ^ 32 }
    ensures { OnOk result (AddsEdge nodes.now call.now edges.old.items edges.new.items) }
{
    let Some(edge) = edge_of(a, nodes, call) else {
        return Err(Memory);
    };
    edges.push(edge)?;
    Ok(())
}

/// The edge of each call. The nodes are in order, and the ends of each call are among them.
pub(crate) fn edges_of(
    alloc: Global,
    a: &Analysis,
    nodes: &[Named<'_>],
    calls: &[NamedCall<'_>],
) -> Result<Vec<Edge>, Memory>
    requires { length nodes.now < 2 ^ 32 }
    ensures { IfOk result (λ edges. AreCalls nodes.now calls.now edges.items) }
{
    let mut edges = Vec::new(alloc);
    for call in calls {
        add_edge(&mut edges, a, nodes, call)?;
    }
    Ok(edges)
}

/// The nodes with names of their own.
pub(crate) fn kept(alloc: Global, nodes: &[Named<'_>]) -> Result<Vec<Node>, Memory>
    ensures { IfOk result (λ kept. kept.items ≡ nodes.now) }
{
    let mut all = Vec::new(alloc);
    for node in nodes {
        all.push(node.kept(alloc)?)?;
    }
    Ok(all)
}
