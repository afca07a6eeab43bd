// A declaration that is a structure or union specifier and a semicolon, and no other word (ISO/IEC 9899:1999, 6.7.2.3
// paragraph 7), in GNU C.
ghost use Rattle.std.specs.Prelude.{◌≡◌, ◌+◌, ◌||◌, not, unwrap_or};
ghost use Rattle.c_types.specs.Children.{from_child};
ghost use Rattle.c_types.specs.Shapes.{is_end};
ghost use Rattle.scope_bind.specs.Below.name_chains.Entering.{alone_in};
ghost use Rattle.gnu_bind.specs.Alone.{is_attribute, has_other, is_one_specifier, is_lone_specifier, ends_in, is_lone, stands_alone};

use c_types::{Frame, Part, child_at, has_node, is_node};
use c99_tree::{Production, Tree};

// Attributes among specifiers.
fn is_attribute(tree: &Tree) -> bool
    ensures { result ≡ is_attribute tree.now.label tree.now.under }
{
    is_node(tree.label(), Production::Mod) && has_node(tree, Production::Attr)
}

// Child `k` is something else than attributes.
fn is_other_at(tree: &Tree, k: u32) -> bool
    ensures { has_other (from_child k tree.now.under) ≡ (result || has_other (from_child (k + 1) tree.now.under)) }
{
    match child_at(tree, k) {
        Part::End => false,
        Part::Token(_) => true,
        Part::Node(inner) => !is_attribute(inner),
    }
}

// Something else than attributes stands behind the first child.
fn has_other_behind(tree: &Tree) -> bool
    ensures { result ≡ has_other (from_child 1 tree.now.under) }
{
    let count = tree.len();
    'children: for k in 1..count {
        if is_other_at(tree, k) {
            return true;
        }
    }
    false
}

// The node has one specifier, with attributes behind it.
fn is_one_specifier(tree: &Tree) -> bool
    ensures { result ≡ is_one_specifier tree.now.under }
{
    match child_at(tree, 0) {
        Part::Node(_) => !has_other_behind(tree),
        Part::Token(_) => false,
        Part::End => false,
    }
}

// No child has the number.
fn ends_at(tree: &Tree, k: u32) -> bool
    ensures { result ≡ is_end (from_child k tree.now.under) }
{
    match child_at(tree, k) {
        Part::End => true,
        Part::Token(_) => false,
        Part::Node(_) => false,
    }
}

// What child `k` tells of the specifiers from it on; nothing where it is attributes.
fn lone_at(tree: &Tree, k: u32) -> Option<bool>
    ensures { is_lone_specifier (from_child k tree.now.under) ≡ unwrap_or result (is_lone_specifier (from_child (k + 1) tree.now.under)) }
{
    match child_at(tree, k) {
        Part::End => Some(false),
        Part::Token(_) => Some(false),
        Part::Node(inner) => {
            if is_attribute(inner) {
                None
            } else {
                Some(ends_at(tree, k + 1) && is_one_specifier(inner))
            }
        }
    }
}

// The specifiers are one specifier and attributes.
fn is_lone_specifier(tree: &Tree) -> bool
    ensures { result ≡ is_lone_specifier tree.now.under }
{
    let count = tree.len();
    'children: for k in 0..count {
        if let Some(is) = lone_at(tree, k) {
            return is;
        }
    }
    false
}

// Child `k` is the last one, and the semicolon alone.
fn ends_in(tree: &Tree, k: u32) -> bool
    ensures { result ≡ ends_in (from_child k tree.now.under) }
{
    match child_at(tree, k) {
        Part::Node(inner) => ends_at(tree, k + 1) && inner.label().alternative == 1,
        Part::Token(_) => false,
        Part::End => false,
    }
}

// What child `k` tells of a declaration from it on; nothing where it is a token.
fn specified_at(tree: &Tree, k: u32) -> Option<bool>
    ensures { is_lone (from_child k tree.now.under) ≡ unwrap_or result (is_lone (from_child (k + 1) tree.now.under)) }
{
    match child_at(tree, k) {
        Part::End => Some(false),
        Part::Token(_) => None,
        Part::Node(inner) => Some(ends_in(tree, k + 1) && is_lone_specifier(inner)),
    }
}

// The declaration is one specifier, attributes and a semicolon.
fn is_lone(tree: &Tree) -> bool
    ensures { result ≡ is_lone tree.now.under }
{
    let count = tree.len();
    'children: for k in 0..count {
        if let Some(is) = specified_at(tree, k) {
            return is;
        }
    }
    false
}

/// Whether the specifiers of a node stand alone, given what the standards say of it.
pub(crate) fn stands_alone(tree: &Tree, _f: &Frame, standard: bool) -> bool
    requires standard { standard ≡ alone_in tree.now.label.production tree.now.under _f.now }
    ensures { result ≡ stands_alone tree.now.label.production tree.now.under _f.now }
{
    match tree.label().production {
        Production::External => is_lone(tree),
        Production::Declaration => is_lone(tree),
        _ => standard,
    }
}
