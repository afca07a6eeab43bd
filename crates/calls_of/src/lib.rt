//! The calls of an analysis: who calls whom, among macros (ISO/IEC 9899:1999, 6.10.3) and functions (6.5.2.2, 6.9.1),
//! and the graph of them.
//!
//! `specs/Calls.antt` says which calls there are, over the plain values of an analysis, `specs/Bodies.antt` in whose
//! replacement list a name stands, and `specs/Graphs.antt` what their graph and its report are. `graph` makes the graph
//! by three tables, each in time in proportion to the files or the units: `Owners` gives for the first character of a
//! token in a replacement list the name of its macro, `Firsts` for a spelling in a project the first token of that
//! external name, and `open_bodies` for a number of tokens of a unit the function whose body is open behind them. Nodes
//! and edges are sorted. `print_calls` prints the report.
//!
//! A `Graph` has nodes, each a macro or a function at its place, and edges from caller to callee, which name nodes by
//! their numbers; of itself it knows no tokens and no units. `Graph::callers` and `Graph::callees` give the nodes one
//! edge away, `Graph::reachable` those that a chain of one or more edges reaches, each in order and once; they equal
//! `callers_of` and `callees_of` of `specs/Graph.antt`, and list what `Reaches` of `specs/Reaching.antt` tells. The
//! edges of a caller are found by two searches in their order, so `reachable` looks at each edge at most twice;
//! `callers` looks at each edge once.
//!
//! Nothing is refused; what wants memory answers `Memory`. Read `specs/Graph.antt` and `specs/Reaching.antt`, then
//! `call_graph.rt`; `specs/Bodies.antt`, `specs/Calls.antt` and `specs/Graphs.antt`, then `unit_calls.rt` and
//! `graphs.rt`.
#![tactic(auto)]

mod bodies;
mod call;
mod call_graph;
mod firsts;
mod found;
mod graphs;
mod known;
mod marks;
mod named;
mod nodes;
mod numbering;
mod one_unit;
mod open_bodies;
mod ordering;
mod owners;
mod printing;
mod unit_calls;
mod walk;

pub use call_graph::Graph;
pub use graphs::graph;
pub use nodes::{Edge, Node, NodeKind};
pub use printing::print_calls;
