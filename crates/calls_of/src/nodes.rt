// What a graph of calls is made of.
use cs_base::{Pos, Text};

/// What a node stands for.
#[derive(Clone, Copy, Debug, PartialEq, Eq)]
pub enum NodeKind {
    /// A macro (ISO/IEC 9899:1999, 6.10.3).
    Macro,
    /// A function (6.9.1).
    Function,
}

/// A macro or a function, with its place and its name.
#[derive(Drop)]
pub struct Node {
    pub kind: NodeKind,
    pub at: Pos,
    pub name: Text,
}

/// A call: the numbers of the node that calls and of the node that is called.
#[derive(Clone, Copy, Debug, PartialEq, Eq)]
pub struct Edge {
    pub caller: u32,
    pub callee: u32,
}
