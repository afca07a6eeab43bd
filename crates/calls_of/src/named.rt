// Macros and functions by tokens that name them.
ghost use Rattle.std.specs.Prelude.{◌≡◌, ◌++◌, IfOk, OnOk, IsTrue};
ghost use Rattle.std.specs.Option.{option_to_list};
ghost use Rattle.calls_of.specs.Calls.{node, node_of};
ghost use Rattle.analysis.specs.Below.unit_steps.declared.events.EventKind.TheVariants.{Defined};
ghost use Rattle.calls_of.specs.Graphs.{defined_node, event_node};

use crate::nodes::{Node, NodeKind};
use analysis::{Event, EventKind};
use cs_base::{Memory, Pos, Text, Tok};
use std::alloc::Global;
use std::marker::Model;

/// A macro or a function at its place. Its name is lent by the analysis. Contracts see the node.
#[derive(Drop)]
pub(crate) struct Named<'a> {
    kind: NodeKind,
    at: Pos,
    name: &'a [u8],
}

impl<'a> Model for Named<'a> {
    ghost use Rattle.calls_of.specs.declared.nodes.Node.{Node};
    ghost use Rattle.calls_of.specs.Calls.{node};

    ghost Value = { Node };

    ghost view = { λ n. node n.kind n.name.now n.at };
}

impl<'a> Named<'a> {
    /// The node of this name that stands at a position.
    pub(crate) fn new(kind: NodeKind, name: &'a [u8], at: Pos) -> Named<'a>
        ensures { result ≡ node kind name.now at }
    {
        Named { kind, at, name }
    }

    /// The same once more.
    pub(crate) fn again(&self) -> Named<'a>
        ensures { result ≡ self.now }
    {
        Named {
            kind: self.kind,
            at: self.at,
            name: self.name,
        }
    }

    pub(crate) fn kind(&self) -> NodeKind
        ensures { result ≡ self.now.kind }
    {
        self.kind
    }

    pub(crate) fn at(&self) -> Pos
        ensures { result ≡ self.now.at }
    {
        self.at
    }

    pub(crate) fn name(&self) -> &'a [u8]
        ensures { result.now ≡ self.now.name }
    {
        self.name
    }

    /// Whether the other is this one.
    pub(crate) fn equals(&self, other: &Named<'_>) -> bool
        ensures { IsTrue result → self.now ≡ other.now }
    {
        self.kind == other.kind && self.at == other.at && self.name == other.name
    }

    /// The node with a name of its own.
    pub(crate) fn kept(&self, alloc: Global) -> Result<Node, Memory>
        ensures { IfOk result (λ n. n ≡ self.now) }
    {
        Ok(Node {
            kind: self.kind,
            at: self.at,
            name: Text::new(alloc, self.name)?,
        })
    }
}

/// The node that a token names.
pub(crate) fn node_named<'a>(kind: NodeKind, tok: &'a Tok) -> Option<Named<'a>>
    ensures { result ≡ node_of kind tok.now }
{
    match tok.origins(0) {
        Some(at) => Some(Named::new(kind, tok.text(), at)),
        None => None,
    }
}

// The macro that the event of a `define` line defines.
fn defined_node<'a>(event: &'a Event) -> Option<Named<'a>>
    ensures { option_to_list result ≡ defined_node Defined event.now.name }
{
    match &event.name {
        Some(name) => node_named(NodeKind::Macro, name),
        None => None,
    }
}

/// The macro that an event defines, if it is that of a `define` line.
pub(crate) fn event_node<'a>(event: &'a Event) -> Option<Named<'a>>
    ensures { option_to_list result ≡ event_node event.now }
{
    match event.kind {
        EventKind::Defined => defined_node(event),
        _ => None,
    }
}

/// Adds a node, if there is one.
pub(crate) fn push_node<'a>(
    nodes: &mut Vec<Named<'a>>,
    node: Option<Named<'a>>,
) -> Result<(), Memory>
    ensures { OnOk result (nodes.new.items ≡ nodes.old.items ++ option_to_list node.entry) }
{
    if let Some(node) = node {
        nodes.push(node)?;
    }
    Ok(())
}
