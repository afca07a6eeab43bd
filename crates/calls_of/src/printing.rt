// The report on calls.
ghost use Rattle.std.specs.Prelude.{◌≡◌, ◌++◌, IfOk, OnOk};
ghost use Rattle.calls_of.specs.Graphs.{calls_text, edge_line, node_text, numbered_text};

use crate::call_graph::Graph;
use crate::nodes::{Edge, Node};
use analysis::{Analysis, push_place};
use cs_base::Memory;
use std::alloc::Global;

/// The report `calls`: a line `PATH:LINE:COL NAME -> PATH:LINE:COL NAME` for each edge of a graph, whose nodes stand in
/// the files of the analysis.
#[tactic(auto, unfolding(crate::specs::Graphs::calls_text))]
pub fn print_calls(alloc: Global, a: &Analysis, g: &Graph) -> Result<Vec<u8>, Memory>
    ensures { IfOk result (λ text. text.items ≡ calls_text a.now.value.table g.now) }
{
    let mut text = Vec::new(alloc);
    for edge in g.edges() {
        push_edge(&mut text, a, g, *edge)?;
    }
    Ok(text)
}

// Adds the line of an edge.
fn push_edge(text: &mut Vec<u8>, a: &Analysis, g: &Graph, edge: Edge) -> Result<(), Memory>
    ensures { OnOk result (text.new.items ≡ text.old.items ++ edge_line a.now.value.table g.now.nodes edge) }
{
    push_numbered(text, a, g, edge.caller)?;
    text.extend_from_slice(b" -> ")?;
    push_numbered(text, a, g, edge.callee)?;
    text.extend_from_slice(b"\n")?;
    Ok(())
}

// Adds the node with a number, if there is one.
fn push_numbered(text: &mut Vec<u8>, a: &Analysis, g: &Graph, number: u32) -> Result<(), Memory>
    ensures { OnOk result (text.new.items ≡ text.old.items ++ numbered_text a.now.value.table g.now.nodes number) }
{
    match g.node(number) {
        Some(node) => push_node(text, a, node),
        None => Ok(()),
    }
}

// Adds a node by its place and its name.
fn push_node(text: &mut Vec<u8>, a: &Analysis, node: &Node) -> Result<(), Memory>
    ensures { OnOk result (text.new.items ≡ text.old.items ++ node_text a.now.value.table node.now) }
{
    push_place(text, a, node.at)?;
    text.extend_from_slice(b" ")?;
    text.extend_from_slice(node.name.bytes())?;
    Ok(())
}
