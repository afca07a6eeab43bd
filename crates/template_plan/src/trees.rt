// Whether a tree is another one with the items of lists in a new order.
ghost use Rattle.std.specs.Prelude.{◌≡◌, ◌+◌, ◌<◌, ◌≤◌, ◌++◌, ◌∷◌, [], length, false, IfOk, IfSome, IsTrue};
ghost use Rattle.c99_tree.specs.Tree.{Node, size_of};
ghost use Rattle.c_types.specs.Children.{from_child};
ghost use Rattle.template_meaning.specs.Matched.{inside, is_listed, items_on, node_count, turned, ends_so, EachHas, HaveItems, IsChildPut, IsItemPut, IsNodeNumber, IsNodePut, IsTokenPut, IsTurnedTree, ItemsAre, Matches, MatchesOn};

use crate::begins::Begins;
use c_types::{Part, child_at, first_token, is_at, is_list};
use c99_tree::{Label, Production, Tree};
use cs_base::Memory;
use same_readings::{is_same_tree, same_trees_are_one};
use std::alloc::Global;

fn is_same_label(alloc: Global, one: Label, other: Label) -> bool
    ensures { IsTrue result → one ≡ other }
{
    same_trees_are_one();
    let left = Tree::new(alloc, one, 0);
    let right = Tree::new(alloc, other, 0);
    is_same_tree(&left, &right)
}

// Whether the last child of a node is a token.
fn ends_in_token(tree: &Tree) -> bool
    ensures { result ≡ ends_so tree.now.under }
{
    let count = tree.len();
    if count == 0 {
        return false;
    }
    match child_at(tree, count - 1) {
        Part::Token(_) => true,
        Part::Node(_) => false,
        Part::End => false,
    }
}

// Whether a node is a list that begins with one of these tokens.
fn is_among(begins: &Begins, tree: &Tree) -> bool
    ensures { result ≡ is_listed begins.now tree.now.label tree.now.under }
{
    let label = tree.label();
    (is_at(label, Production::Post, 2) || is_list(label))
        && (begins.has(first_token(tree, 0)) && ends_in_token(tree))
}

// Token `i` is passed, if child `k` is the next token.
fn is_token_put(new: &Tree, k: u32, i: u32, perm: &mut Vec<u32>) -> Result<bool, Memory>
    ensures { IfOk result (λ same. IsTrue same → IsTokenPut new.now.under k i perm.old.items perm.new.items) }
{
    match child_at(new, k) {
        Part::End => Ok(false),
        Part::Token(j) => put(i, j, perm),
        Part::Node(_) => Ok(false),
    }
}

fn put(i: u32, j: u32, perm: &mut Vec<u32>) -> Result<bool, Memory>
    ensures { IfOk result (λ same. IsTrue same → (j ≡ length perm.old.items) × (perm.new.items ≡ perm.old.items ++ i ∷ [])) }
{
    if j as usize != perm.len() {
        return Ok(false);
    }
    perm.push(i)?;
    Ok(true)
}

// Child `k`, if it is the node with this number, from 1, among the children from there on.
fn node_taken(tree: &Tree, k: u32, left: usize) -> Option<&Tree>
    ensures number { IfSome result (λ n. IsNodeNumber (from_child k tree.now.under) left n.now) }
    ensures below { IfSome result (λ n. size_of n.now.under < size_of tree.now.under) }
{
    match child_at(tree, k) {
        Part::End => None,
        Part::Token(_) => None,
        Part::Node(inner) => {
            if left <= 1 {
                return Some(inner);
            }
            None
        }
    }
}

// The number that it has among those behind child `k`.
fn number_behind(tree: &Tree, k: u32, left: usize) -> Option<usize>
    ensures { IfSome result (λ next. (n : Node) → IsNodeNumber (from_child (k + 1) tree.now.under) next n → IsNodeNumber (from_child k tree.now.under) left n) }
{
    match child_at(tree, k) {
        Part::End => None,
        Part::Token(_) => Some(left),
        Part::Node(_) => {
            if left <= 1 {
                return None;
            }
            Some(left - 1)
        }
    }
}

// So many tokens are passed.
fn is_next(perm: &Vec<u32>, first: u32) -> bool
    ensures { IsTrue result → first ≡ length perm.now.items }
{
    if first as usize != perm.len() {
        return false;
    }
    true
}

// The node with this number, from 1, among the children.
fn node_number(tree: &Tree, number: usize) -> Option<&Tree>
    ensures number { IfSome result (λ n. IsNodeNumber tree.now.under number n.now) }
    ensures below { IfSome result (λ n. size_of n.now.under < size_of tree.now.under) }
{
    let count = tree.len();
    let mut left = number;
    'children: for k in 0..count {
        if let Some(inner) = node_taken(tree, k, left) {
            return Some(inner);
        }
        match number_behind(tree, k, left) {
            Some(next) => left = next,
            None => return None,
        }
    }
    None
}

// The children of the second are those of the first in the new order, which may themselves stand in the parentheses of a list.
#[cycle(turned)]
fn is_turned(
    alloc: Global,
    order: &[usize],
    begins: &Begins,
    listed: bool,
    old: &Tree,
    new: &Tree,
    perm: &mut Vec<u32>,
) -> Result<bool, Memory>
    ensures { IfOk result (λ same. IsTrue same
        → Matches (turned order.now begins.now listed old.now.under) new.now.under perm.old.items perm.new.items) }
{
    let count = old.len();
    let others = new.len();
    if others != count {
        return Ok(false);
    }
    'children: for k in 0..count {
        let same = is_turned_at(alloc, order, begins, listed, old, new, k, perm)?;
        if !same {
            return Ok(false);
        }
    }
    Ok(true)
}

// So it is with child `k`, if it is so with those behind.
#[cycle(turned)]
fn is_turned_at(
    alloc: Global,
    order: &[usize],
    begins: &Begins,
    listed: bool,
    old: &Tree,
    new: &Tree,
    k: u32,
    perm: &mut Vec<u32>,
) -> Result<bool, Memory>
    ensures { IfOk result (λ same. IsTrue same
        → MatchesOn (turned order.now begins.now listed (from_child k old.now.under)) (turned order.now begins.now listed (from_child (k + 1) old.now.under))
        (from_child k new.now.under) (from_child (k + 1) new.now.under) perm.old.items perm.new.items) }
{
    match child_at(old, k) {
        Part::End => Ok(false),
        Part::Token(i) => is_token_put(new, k, i, perm),
        Part::Node(inner) => is_child_put(alloc, order, begins, listed, inner, new, k, perm),
    }
}

// Child `k` of the second is this node with its children in the new order.
#[cycle(turned)]
fn is_child_put(
    alloc: Global,
    order: &[usize],
    begins: &Begins,
    listed: bool,
    inner: &Tree,
    new: &Tree,
    k: u32,
    perm: &mut Vec<u32>,
) -> Result<bool, Memory>
    ensures { IfOk result (λ same. IsTrue same
        → IsChildPut new.now.under k inner.now.label (inside order.now begins.now listed inner.now.label inner.now.under) perm.old.items perm.new.items) }
{
    match child_at(new, k) {
        Part::End => Ok(false),
        Part::Token(_) => Ok(false),
        Part::Node(other) => is_put(alloc, order, begins, listed, inner, other, perm),
    }
}

// The second node is the first with its children in the new order.
#[cycle(turned)]
fn is_put(
    alloc: Global,
    order: &[usize],
    begins: &Begins,
    listed: bool,
    old: &Tree,
    new: &Tree,
    perm: &mut Vec<u32>,
) -> Result<bool, Memory>
    ensures { IfOk result (λ same. IsTrue same
        → IsNodePut new.now old.now.label (inside order.now begins.now listed old.now.label old.now.under) perm.old.items perm.new.items) }
{
    let label = old.label();
    let other = new.label();
    if !is_same_label(alloc, other, label) {
        return Ok(false);
    }
    let first = new.first();
    if !is_next(perm, first) {
        return Ok(false);
    }
    if listed {
        is_shuffled(alloc, order, begins, old, new, perm)
    } else {
        let among = is_among(begins, old);
        is_turned(alloc, order, begins, among, old, new, perm)
    }
}

// The children of the second are those of the first, where these are the items of a list and the commas between them.
#[cycle(turned)]
fn is_shuffled(
    alloc: Global,
    order: &[usize],
    begins: &Begins,
    old: &Tree,
    new: &Tree,
    perm: &mut Vec<u32>,
) -> Result<bool, Memory>
    ensures { IfOk result (λ same. IsTrue same
        → Matches (items_on order.now begins.now old.now.under 0 0) new.now.under perm.old.items perm.new.items) }
{
    let count = old.len();
    let others = new.len();
    if others != count {
        return Ok(false);
    }
    let mut j = 0;
    'children: for k in 0..count {
        let now = passed(alloc, order, begins, old, new, k, j, perm)?;
        match now {
            Some(i) => j = i,
            None => return Ok(false),
        }
    }
    Ok(true)
}

// How many items are passed with child `k`: none where it is another one.
#[cycle(turned)]
fn passed(
    alloc: Global,
    order: &[usize],
    begins: &Begins,
    old: &Tree,
    new: &Tree,
    k: u32,
    j: usize,
    perm: &mut Vec<u32>,
) -> Result<Option<usize>, Memory>
    ensures { IfOk result (λ passed. IfSome passed (λ i.
        MatchesOn (items_on order.now begins.now old.now.under j k) (items_on order.now begins.now old.now.under i (k + 1))
        (from_child k new.now.under) (from_child (k + 1) new.now.under) perm.old.items perm.new.items)) }
{
    match child_at(old, k) {
        Part::End => Ok(None),
        Part::Token(i) => {
            let same = is_token_put(new, k, i, perm)?;
            if !same {
                return Ok(None);
            }
            Ok(Some(j))
        }
        Part::Node(_) => {
            let put = is_item_put(alloc, order, begins, old, new, k, j, perm)?;
            if !put {
                return Ok(None);
            }
            Ok(Some(j + 1))
        }
    }
}

// Child `k` of the second is the item for place `j`.
#[cycle(turned)]
fn is_item_put(
    alloc: Global,
    order: &[usize],
    begins: &Begins,
    old: &Tree,
    new: &Tree,
    k: u32,
    j: usize,
    perm: &mut Vec<u32>,
) -> Result<bool, Memory>
    ensures within { IfOk result (λ same. IsTrue same → j < length order.now) }
    ensures put { IfOk result (λ same. IsTrue same → IsItemPut order.now begins.now old.now.under new.now.under k j perm.old.items perm.new.items) }
{
    match order.get(j) {
        Some(number) => is_number_put(alloc, order, begins, old, new, k, *number, perm),
        None => Ok(false),
    }
}

// Child `k` of the second is the node with this number.
#[cycle(turned)]
fn is_number_put(
    alloc: Global,
    order: &[usize],
    begins: &Begins,
    old: &Tree,
    new: &Tree,
    k: u32,
    number: usize,
    perm: &mut Vec<u32>,
) -> Result<bool, Memory>
    ensures { IfOk result (λ same. IsTrue same → (n : Node) × IsNodeNumber old.now.under number n
        × IsChildPut new.now.under k n.label (inside order.now begins.now false n.label n.under) perm.old.items perm.new.items) }
{
    match node_number(old, number) {
        Some(inner) => is_child_put(alloc, order, begins, false, inner, new, k, perm),
        None => Ok(false),
    }
}

// How many children are nodes.
fn node_count(tree: &Tree) -> usize
    ensures { result ≡ node_count tree.now.under }
{
    let count = tree.len();
    let mut nodes = 0;
    'children: for k in 0..count {
        let more = nodes_at(tree, k);
        nodes += more;
    }
    nodes
}

// How many nodes child `k` is.
fn nodes_at(tree: &Tree, k: u32) -> usize
    ensures nodes { node_count (from_child k tree.now.under) ≡ result + node_count (from_child (k + 1) tree.now.under) }
    ensures few { result ≤ 1 }
{
    match child_at(tree, k) {
        Part::End => 0,
        Part::Token(_) => 0,
        Part::Node(_) => 1,
    }
}

// Each node among the children has so many nodes among its own.
fn items_are(n: usize, tree: &Tree) -> bool
    ensures { IsTrue result → ItemsAre n tree.now.under }
{
    let count = tree.len();
    'children: for k in 0..count {
        if !has_count_at(n, tree, k) {
            return false;
        }
    }
    true
}

// So it is with child `k`, if it is so with those behind.
fn has_count_at(n: usize, tree: &Tree, k: u32) -> bool
    ensures { IsTrue result → ItemsAre n (from_child (k + 1) tree.now.under) → ItemsAre n (from_child k tree.now.under) }
{
    match child_at(tree, k) {
        Part::End => true,
        Part::Token(_) => true,
        Part::Node(inner) => node_count(inner) == n,
    }
}

/// Each list below that begins with one of these tokens has so many items.
#[cycle(items)]
pub(crate) fn have_items(n: usize, begins: &Begins, tree: &Tree) -> bool
    ensures { IsTrue result → EachHas n begins.now tree.now.under }
{
    let count = tree.len();
    'children: for k in 0..count {
        if !have_items_at(n, begins, tree, k) {
            return false;
        }
    }
    true
}

#[cycle(items)]
fn have_items_at(n: usize, begins: &Begins, tree: &Tree, k: u32) -> bool
    ensures { IsTrue result → EachHas n begins.now (from_child (k + 1) tree.now.under) → EachHas n begins.now (from_child k tree.now.under) }
{
    match child_at(tree, k) {
        Part::End => true,
        Part::Token(_) => true,
        Part::Node(inner) => {
            if !has_items(n, begins, inner) {
                return false;
            }
            have_items(n, begins, inner)
        }
    }
}

// A node has so many items, if it is a list that begins with one of these tokens.
fn has_items(n: usize, begins: &Begins, tree: &Tree) -> bool
    ensures { IsTrue result → HaveItems n begins.now tree.now.label tree.now.under }
{
    if is_among(begins, tree) {
        items_are(n, tree)
    } else {
        true
    }
}

/// The second tree is the first in the new order; the numbers are those of its tokens in the first.
pub(crate) fn turned_tokens(
    alloc: Global,
    order: &[usize],
    begins: &Begins,
    old: &Tree,
    new: &Tree,
) -> Result<Option<Vec<u32>>, Memory>
    ensures { IfOk result (λ found. IfSome found (λ perm. IsTurnedTree order.now begins.now old.now new.now perm.items)) }
{
    let mut perm = Vec::new(alloc);
    let label = old.label();
    let other = new.label();
    if !is_same_label(alloc, other, label) {
        return Ok(None);
    }
    let first = new.first();
    if first != 0 {
        return Ok(None);
    }
    let same = is_turned(alloc, order, begins, false, old, new, &mut perm)?;
    if !same {
        return Ok(None);
    }
    Ok(Some(perm))
}
