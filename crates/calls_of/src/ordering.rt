// The order of nodes and of edges.
ghost use Rattle.std.specs.Prelude.{◌≡◌};
ghost use Rattle.std.specs.Cmp.Lexicographic.{slice_cmp};
ghost use Rattle.std.specs.Ordering.{eq_by_cmp, nat_cmp, ordering_then};
ghost use Rattle.calls_of.specs.Graphs.{kind_number, path_of, pos_cmp, kind_cmp, node_cmp};
ghost use Rattle.calls_of.specs.Numbers.{edge_cmp};
ghost use Rattle.calls_of.specs.Orders.{Orders};

use crate::named::Named;
use crate::nodes::{Edge, NodeKind};
use analysis::Analysis;
use cs_base::Pos;
use std::cmp::Ordering;

const LINES_PATH: &[u8] = b"<lines>";

// The path of a position.
fn path_of(a: &Analysis, number: u32) -> &[u8]
    ensures { result.now ≡ path_of a.now.value.table number }
{
    match a.file(number) {
        Some(file) => file.path(),
        None => LINES_PATH,
    }
}

// Which of two positions comes first.
fn compare_positions(a: &Analysis, p: Pos, q: Pos) -> Ordering
    ensures { result ≡ pos_cmp a.now.value.table p q }
{
    // In one file no path is looked at.
    if p.file == q.file {
        return p.at.cmp(&q.at);
    }
    match path_of(a, p.file).cmp(path_of(a, q.file)) {
        Ordering::Less => Ordering::Less,
        Ordering::Equal => p.at.cmp(&q.at),
        Ordering::Greater => Ordering::Greater,
    }
}

fn kind_number(kind: NodeKind) -> u8
    ensures { result ≡ kind_number kind }
{
    match kind {
        NodeKind::Macro => 0,
        NodeKind::Function => 1,
    }
}

// Which of two nodes of one place and name comes first.
fn compare_kinds(m: &Named<'_>, n: &Named<'_>) -> Ordering
    ensures { result ≡ kind_cmp m.now n.now }
{
    let (k, l) = (kind_number(m.kind()), kind_number(n.kind()));
    let (p, q) = (m.at(), n.at());
    match k.cmp(&l) {
        Ordering::Less => Ordering::Less,
        Ordering::Equal => p.file.cmp(&q.file),
        Ordering::Greater => Ordering::Greater,
    }
}

// Which of two nodes of one place comes first.
fn compare_names(m: &Named<'_>, n: &Named<'_>) -> Ordering
    ensures { result ≡ ordering_then (slice_cmp nat_cmp m.now.name n.now.name) (kind_cmp m.now n.now) }
{
    match m.name().cmp(n.name()) {
        Ordering::Less => Ordering::Less,
        Ordering::Equal => compare_kinds(m, n),
        Ordering::Greater => Ordering::Greater,
    }
}

/// Which of two nodes comes first.
pub(crate) fn compare(a: &Analysis, m: &Named<'_>, n: &Named<'_>) -> Ordering
    ensures { result ≡ node_cmp a.now.value.table m.now n.now }
{
    match compare_positions(a, m.at(), n.at()) {
        Ordering::Less => Ordering::Less,
        Ordering::Equal => compare_names(m, n),
        Ordering::Greater => Ordering::Greater,
    }
}

// Two nodes are one.
fn are_one(a: &Analysis, m: &Named<'_>, n: &Named<'_>) -> bool
    ensures { result ≡ eq_by_cmp (node_cmp a.now.value.table) m.now n.now }
{
    match compare(a, m, n) {
        Ordering::Equal => true,
        _ => false,
    }
}

/// Puts nodes into order, each once.
pub(crate) fn order_nodes<'a>(a: &Analysis, nodes: &mut Vec<Named<'a>>)
    ensures { Orders (node_cmp a.now.value.table) nodes.old.items nodes.new.items }
{
    nodes.sort_unstable_by(|m, n| compare(a, m, n));
    nodes.dedup_by(|m, n| are_one(a, m, n));
}

// Which of two edges comes first.
fn compare_edges(e: Edge, f: Edge) -> Ordering
    ensures { result ≡ edge_cmp e f }
{
    match e.caller.cmp(&f.caller) {
        Ordering::Less => Ordering::Less,
        Ordering::Equal => e.callee.cmp(&f.callee),
        Ordering::Greater => Ordering::Greater,
    }
}

fn is_one_edge(e: Edge, f: Edge) -> bool
    ensures { result ≡ eq_by_cmp edge_cmp e f }
{
    match compare_edges(e, f) {
        Ordering::Equal => true,
        _ => false,
    }
}

/// Puts edges into order, each once.
pub(crate) fn order_edges(edges: &mut Vec<Edge>)
    ensures { Orders edge_cmp edges.old.items edges.new.items }
{
    edges.sort_unstable_by(|e, f| compare_edges(*e, *f));
    edges.dedup_by(|e, f| is_one_edge(*e, *f));
}
