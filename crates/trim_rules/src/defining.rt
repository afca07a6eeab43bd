// Where the external declarations of a unit begin, and which tokens name what other units may use.
ghost use Rattle.std.specs.Prelude.{◌≡◌, ◌≤◌, ◌<◌, ◌^◌, ◌+◌, ◌||◌, ℕ, IfOk, MatchBool, false, not, replicate, slice_set, true, unwrap_or};
ghost use Rattle.c_types.specs.Children.{from_child};
ghost use Rattle.trim_rules.specs.Defining.{begins_node, declares_external, declares_object, goes_behind, has_below, has_body, has_extern, is_external, is_object, names_for_others, only_declared, only_declares};
ghost use Rattle.trim_rules.specs.Walks.{AreDefining, AreEdges, AreSoFar, IsBefore, IsOver, IsPast, Marks, front_declares, is_first};

use analysis::{Bound, EntityKind, Linkage, Range, UnitText};
use c_types::{Part, child_at, is_node, words_of};
use c99_tree::{Production, Tree};
use cs_base::Memory;
use std::alloc::Global;

// ---- where declarations begin

// Where child `k` begins, if it is a node.
fn first_of(tree: &Tree, k: u32) -> Option<u32>
    ensures { (j : ℕ) → begins_node j (from_child k tree.now.under) ≡ (is_first j result || begins_node j (from_child (k + 1) tree.now.under)) }
{
    match child_at(tree, k) {
        Part::End => None,
        Part::Token(_) => None,
        Part::Node(inner) => Some(inner.first()),
    }
}

// So many tokens, none of which is marked.
fn blank(alloc: Global, count: usize) -> Result<Vec<bool>, Memory>
    ensures { IfOk result (λ marks. marks.items ≡ replicate count false) }
{
    Ok(vec![in alloc; false; count]?)
}

// Marks token `k`, if there is one.
fn set(marks: &mut Vec<bool>, k: u32)
    ensures { marks.new.items ≡ slice_set marks.old.items k true }
{
    if (k as usize) < marks.len() {
        marks[k as usize] = true;
    }
}

// Marks a token, if there is such a mark.
fn mark(marks: &mut Vec<bool>, first: Option<u32>)
    ensures { Marks first marks.old.items marks.new.items }
{
    match first {
        Some(k) => set(marks, k),
        None => (),
    }
}

/// For each of so many tokens, and for the end of their text, whether an external declaration begins there, or
/// the text ends.
pub(crate) fn edges(alloc: Global, tree: &Tree, count: u32) -> Result<Vec<bool>, Memory>
    ensures { IfOk result (λ marks. AreEdges tree.now.under count marks.items) }
{
    let mut marks = blank(alloc, count as usize + 1)?;
    mark(&mut marks, Some(count));
    mark_all(&mut marks, tree, count);
    Ok(marks)
}

// Marks where the children of a node begin.
fn mark_all(marks: &mut Vec<bool>, tree: &Tree, _count: u32)
    requires { AreSoFar tree.now.under tree.now.under _count marks.old.items }
    ensures { AreEdges tree.now.under _count marks.new.items }
{
    let children = tree.len();
    'children: for k in 0..children {
        mark(marks, first_of(tree, k));
    }
}

// ---- declarations that define nothing

// A node of the production stands below.
#[cycle(below)]
fn has_below(tree: &Tree, production: Production) -> bool
    ensures { result ≡ has_below production tree.now.under }
{
    let count = tree.len();
    'children: for k in 0..count {
        if has_at(tree, k, production) {
            return true;
        }
    }
    false
}

// Child `k` is one, or has one below.
#[cycle(below)]
fn has_at(tree: &Tree, k: u32, production: Production) -> bool
    ensures { has_below production (from_child k tree.now.under) ≡ (result || has_below production (from_child (k + 1) tree.now.under)) }
{
    match child_at(tree, k) {
        Part::End => false,
        Part::Token(_) => false,
        Part::Node(inner) => is_node(inner.label(), production) || has_below(inner, production),
    }
}

// Child `k` is specifiers with `extern` among them.
fn is_extern_at(tree: &Tree, k: u32) -> bool
    ensures { has_extern (from_child k tree.now.under) ≡ (result || has_extern (from_child (k + 1) tree.now.under)) }
{
    match child_at(tree, k) {
        Part::End => false,
        Part::Token(_) => false,
        Part::Node(inner) => {
            is_node(inner.label(), Production::Specs) && words_of(inner).has_extern
        }
    }
}

// `extern` is among the specifiers of an external declaration.
fn has_extern(tree: &Tree) -> bool
    ensures { result ≡ has_extern tree.now.under }
{
    let count = tree.len();
    'children: for k in 0..count {
        if is_extern_at(tree, k) {
            return true;
        }
    }
    false
}

fn only_declares(tree: &Tree) -> bool
    ensures { result ≡ only_declares tree.now.under }
{
    has_extern(tree) && !has_below(tree, Production::Init)
}

// What child `n` tells: whether it begins behind token `j`; none where it is a token.
fn behind_at(tree: &Tree, n: u32, j: u32) -> Option<bool>
    ensures { goes_behind j (from_child n tree.now.under) ≡ unwrap_or result (goes_behind j (from_child (n + 1) tree.now.under)) }
{
    match child_at(tree, n) {
        Part::End => Some(true),
        Part::Token(_) => None,
        Part::Node(inner) => Some(inner.first() > j),
    }
}

// The next node from child `k` on begins behind token `j`, or there is none.
fn goes_behind(tree: &Tree, k: u32, j: u32) -> bool
    ensures { result ≡ goes_behind j (from_child k tree.now.under) }
{
    let count = tree.len();
    'children: for n in k..count {
        if let Some(told) = behind_at(tree, n, j) {
            return told;
        }
    }
    true
}

// Child number `child` is a node, behind which the next one begins behind token `k`.
fn is_over(tree: &Tree, child: u32, k: u32) -> bool
    ensures { MatchBool result (IsOver tree.now.under child k) (IsBefore tree.now.under child k) }
{
    match child_at(tree, child) {
        Part::End => false,
        Part::Token(_) => false,
        Part::Node(_) => goes_behind(tree, child + 1, k),
    }
}

// The first such child from number `from` on.
fn child_over(tree: &Tree, from: u32, k: u32) -> u32
    requires { IsPast tree.now.under from k }
    ensures past { IsPast tree.now.under result k }
    ensures over { IsOver tree.now.under result k }
{
    let count = tree.len();
    let mut child = from;
    'children: while child < count {
        if is_over(tree, child, k) {
            return child;
        }
        child += 1;
    }
    child
}

// Child number `child` only declares.
fn front_declares(tree: &Tree, child: u32) -> bool
    ensures { result ≡ front_declares (from_child child tree.now.under) }
{
    match child_at(tree, child) {
        Part::End => false,
        Part::Token(_) => false,
        Part::Node(inner) => only_declares(inner),
    }
}

// ---- names that other units may use

fn is_external(linkage: Linkage) -> bool
    ensures { result ≡ is_external linkage }
{
    match linkage {
        Linkage::External => true,
        _ => false,
    }
}

fn is_object(kind: Option<EntityKind>) -> bool
    ensures { result ≡ is_object kind }
{
    match kind {
        Some(EntityKind::Object) => true,
        _ => false,
    }
}

// Token `k` declares what has external linkage.
fn declares_external(bound: &Bound, k: u32) -> bool
    ensures { result ≡ declares_external bound.now.names k }
{
    if !bound.declares(k) {
        return false;
    }
    match bound.entity(k) {
        Some(entity) => is_external(bound.linkage(entity)),
        None => false,
    }
}

fn declares_object(bound: &Bound, k: u32) -> bool
    ensures { result ≡ declares_object bound.now.names k }
{
    match bound.entity(k) {
        Some(entity) => is_object(bound.kind(entity)),
        None => false,
    }
}

// Token `k` is the name of a function whose body follows.
fn has_body(functions: &[Range], k: u32) -> bool
    ensures { result ≡ has_body functions.now k }
{
    functions.iter().any(|r| r.name == k)
}

// Token `k` is that of an object which is not declared alone; `child` is past for it, and stays so.
fn defines_object(tree: &Tree, child: &mut u32, k: u32) -> bool
    requires { IsPast tree.now.under child.old k }
    ensures answer { result ≡ not (only_declared k tree.now.under) }
    ensures past { IsPast tree.now.under child.new k }
{
    *child = child_over(tree, *child, k);
    !front_declares(tree, *child)
}

// Token `k` names what other units may use.
fn names_for_others(tree: &Tree, bound: &Bound, child: &mut u32, k: u32) -> bool
    requires { IsPast tree.now.under child.old k }
    ensures answer { result ≡ names_for_others tree.now.under bound.now.names bound.now.functions k }
    ensures past { IsPast tree.now.under child.new k }
{
    if !declares_external(bound, k) {
        return false;
    }
    if has_body(bound.functions(), k) {
        return true;
    }
    if !declares_object(bound, k) {
        return false;
    }
    defines_object(tree, child, k)
}

/// For each of so many tokens of a unit, whether it names what other units may use.
pub(crate) fn defining(
    alloc: Global,
    tree: &Tree,
    bound: &Bound,
    count: u32,
) -> Result<Vec<bool>, Memory>
    ensures { IfOk result (λ marks. AreDefining tree.now.under bound.now.names bound.now.functions count marks.items) }
{
    let mut marks = Vec::with_capacity(alloc, count as usize)?;
    let mut child = 0;
    for k in 0..count {
        marks.push(names_for_others(tree, bound, &mut child, k))?;
    }
    Ok(marks)
}
