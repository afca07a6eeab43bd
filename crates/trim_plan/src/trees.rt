// Trees without the declarations of tokens that are gone.
ghost use Rattle.std.specs.Prelude.{◌≡◌, Some, IfSome, IsTrue, slice_get};
ghost use Rattle.c_types.specs.Children.{from_child};
ghost use Rattle.trim_plan.specs.Children.{front_marked, AreMovedBy, IsMovedBy, IsNodeBy, IsPassedBy, IsPrunedBy, IsTokenBy};

use crate::left::Left;
use c_types::{Part, child_at};
use c99_tree::{Label, Tree};

fn is_same_label(one: Label, other: Label) -> bool
    ensures production { IsTrue result → one.production ≡ other.production }
    ensures alternative { IsTrue result → one.alternative ≡ other.alternative }
{
    one.production == other.production && one.alternative == other.alternative
}

// The labels and first tokens of two trees are those of one, its tokens at their places.
fn is_root(left: &Left, old: &Tree, new: &Tree) -> bool
    ensures label { IsTrue result → new.now.label ≡ old.now.label }
    ensures first { IsTrue result → slice_get left.now.places.items old.now.first ≡ Some new.now.first }
{
    if !is_same_label(old.label(), new.label()) {
        return false;
    }
    left.is_at(old.first(), new.first())
}

// The second tree is the first, its tokens at their places.
#[cycle(moved)]
fn is_moved(left: &Left, old: &Tree, new: &Tree) -> bool
    ensures { IsTrue result → IsMovedBy left.now old.now new.now }
{
    if !is_root(left, old, new) {
        return false;
    }
    let count = old.len();
    let others = new.len();
    if count != others {
        return false;
    }
    'children: for k in 0..count {
        if !is_moved_at(left, old, new, k, k) {
            return false;
        }
    }
    true
}

// Child `j` of the second is child `k` of the first, its tokens at their places.
#[cycle(moved)]
fn is_moved_at(left: &Left, old: &Tree, new: &Tree, k: u32, j: u32) -> bool
    ensures { IsTrue result → AreMovedBy left.now old.now.under new.now.under k j }
{
    match child_at(old, k) {
        Part::End => false,
        Part::Token(i) => is_token_at(left, new, i, j),
        Part::Node(inner) => is_moved_node(left, inner, new, j),
    }
}

// Child `j` is a node, its tokens at their places.
#[cycle(moved)]
fn is_moved_node(left: &Left, inner: &Tree, new: &Tree, j: u32) -> bool
    ensures { IsTrue result → IsNodeBy left.now inner.now new.now.under j }
{
    match child_at(new, j) {
        Part::End => false,
        Part::Token(_) => false,
        Part::Node(other) => is_moved(left, inner, other),
    }
}

// Child `j` is a token, at the place of this one.
fn is_token_at(left: &Left, new: &Tree, i: u32, j: u32) -> bool
    ensures { IsTrue result → IsTokenBy left.now new.now.under i j }
{
    match child_at(new, j) {
        Part::End => false,
        Part::Token(place) => left.is_at(i, place),
        Part::Node(_) => false,
    }
}

// Child `k` begins at a token that is gone.
fn is_gone_at(left: &Left, tree: &Tree, k: u32) -> bool
    ensures { result ≡ front_marked left.now (from_child k tree.now.under) }
{
    match child_at(tree, k) {
        Part::End => false,
        Part::Token(i) => left.is_gone(i),
        Part::Node(inner) => left.is_gone(inner.first()),
    }
}

// How many children of the second are passed, with one more of the first: none where they differ.
fn passed(left: &Left, old: &Tree, new: &Tree, k: u32, j: u32) -> Option<u32>
    ensures { IfSome result (λ i. IsPassedBy left.now old.now.under new.now.under k j i) }
{
    if is_gone_at(left, old, k) {
        return Some(j);
    }
    if j >= new.len() {
        return None;
    }
    if !is_moved_at(left, old, new, k, j) {
        return None;
    }
    Some(j + 1)
}

/// The second tree is the first without the children that begin at tokens that are gone.
pub(crate) fn is_pruned(left: &Left, old: &Tree, new: &Tree) -> bool
    ensures { IsTrue result → IsPrunedBy left.now old.now new.now }
{
    if !is_root(left, old, new) {
        return false;
    }
    let count = old.len();
    let mut j = 0;
    'children: for k in 0..count {
        match passed(left, old, new, k, j) {
            Some(i) => j = i,
            None => return false,
        }
    }
    let others = new.len();
    j == others
}
