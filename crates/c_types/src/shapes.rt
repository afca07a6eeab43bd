// Which children a node begins with.
ghost use Rattle.std.specs.Prelude.{◌≡◌, ◌&&◌, ◌==◌};
ghost use Rattle.std.specs.Option.{option_map};
ghost use Rattle.c_types.specs.Trees.{is_bare};
ghost use Rattle.c_types.specs.Children.{from_child};
ghost use Rattle.c_types.specs.Shapes.{first_node, inner_in, second_node, behind_token, lone_token, leading_token, is_end, token_if, is_last_node, are_two, is_bare_of};

use crate::trees::{Part, child_at, is_lone_main};
use c99_tree::Tree;

/// The first child, where it is a node.
pub fn first_node(tree: &Tree) -> Option<&Tree>
    ensures { option_map (λ t. t.now) result ≡ first_node tree.now.under }
{
    match child_at(tree, 0) {
        Part::Node(inner) => Some(inner),
        Part::Token(_) => None,
        Part::End => None,
    }
}

// Child `k`, where it is a node.
fn node_at(tree: &Tree, k: u32) -> Option<&Tree>
    ensures { option_map (λ t. t.now) result ≡ first_node (from_child k tree.now.under) }
{
    match child_at(tree, k) {
        Part::Node(inner) => Some(inner),
        Part::Token(_) => None,
        Part::End => None,
    }
}

/// The first of the children that are nodes.
pub(crate) fn inner_in(tree: &Tree) -> Option<&Tree>
    ensures { option_map (λ t. t.now) result ≡ inner_in tree.now.under }
{
    let count = tree.len();
    'children: for k in 0..count {
        if let Some(inner) = node_at(tree, k) {
            return Some(inner);
        }
    }
    None
}

/// The second child, where the first one and it are nodes.
pub fn second_node(tree: &Tree) -> Option<&Tree>
    ensures { option_map (λ t. t.now) result ≡ second_node tree.now.under }
{
    match child_at(tree, 0) {
        Part::Node(_) => node_at(tree, 1),
        Part::Token(_) => None,
        Part::End => None,
    }
}

/// The second child, where it is a node and the first one a token.
pub(crate) fn behind_token(tree: &Tree) -> Option<&Tree>
    ensures { option_map (λ t. t.now) result ≡ behind_token tree.now.under }
{
    match child_at(tree, 0) {
        Part::Token(_) => node_at(tree, 1),
        Part::Node(_) => None,
        Part::End => None,
    }
}

// No child has the number.
fn ends_at(tree: &Tree, k: u32) -> bool
    ensures { result ≡ is_end (from_child k tree.now.under) }
{
    match child_at(tree, k) {
        Part::End => true,
        Part::Token(_) => false,
        Part::Node(_) => false,
    }
}

fn token_if(index: u32, behind: Part<'_>) -> Option<u32>
    ensures { result ≡ token_if index behind.entry }
{
    match behind {
        Part::End => Some(index),
        Part::Token(_) => None,
        Part::Node(_) => None,
    }
}

/// The only child, where it is a token.
pub fn lone_token(tree: &Tree) -> Option<u32>
    ensures { result ≡ lone_token tree.now.under }
{
    match child_at(tree, 0) {
        Part::Token(index) => token_if(index, child_at(tree, 1)),
        Part::Node(_) => None,
        Part::End => None,
    }
}

/// The first child, where it is a token.
pub(crate) fn leading_token(tree: &Tree) -> Option<u32>
    ensures { result ≡ leading_token tree.now.under }
{
    match child_at(tree, 0) {
        Part::Token(index) => Some(index),
        Part::Node(_) => None,
        Part::End => None,
    }
}

fn is_last_node(part: Part<'_>, ends: bool) -> bool
    ensures { result ≡ is_last_node part.entry ends }
{
    match part {
        Part::Node(_) => ends,
        Part::Token(_) => false,
        Part::End => false,
    }
}

// The children are two nodes.
fn are_two(tree: &Tree) -> bool
    ensures { result ≡ are_two tree.now.under }
{
    match child_at(tree, 0) {
        Part::Node(_) => is_last_node(child_at(tree, 1), ends_at(tree, 2)),
        Part::Token(_) => false,
        Part::End => false,
    }
}

fn is_bare_of(specs: Option<&Tree>, rest: Option<&Tree>) -> bool
    ensures { result ≡ is_bare_of (option_map (λ t. t.now) specs.entry) (option_map (λ t. t.now) rest.entry) }
{
    match specs {
        Some(words) => match rest {
            Some(end) => end.label().alternative == 1 && is_lone_main(words),
            None => false,
        },
        None => false,
    }
}

/// A structure or union specifier and a semicolon, and no other word (6.7.2.3 paragraph 7).
#[tactic(auto, using(crate::proofs::ShapeLemmas::bare_shape))]
pub fn is_bare(tree: &Tree) -> bool
    ensures { result ≡ is_bare tree.now.under }
{
    are_two(tree) && is_bare_of(first_node(tree), second_node(tree))
}
