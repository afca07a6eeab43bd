// The walk over the tree of a unit, in the order of its tokens.
ghost use Rattle.std.specs.Prelude.{◌≡◌, ◌+◌, ◌++◌, OnOk};
ghost use Rattle.c_types.specs.Children.{from_child};
ghost use Rattle.name_chains.specs.Frames.{state};
ghost use Rattle.c_types.specs.Lists.{calls_in, lists_in, bare_in};
ghost use Rattle.scope_bind.specs.Walk.{passed, left, walked};
ghost use Rattle.name_chains.specs.Entering.{entered};

use crate::facts::Facts;
use crate::leaving::go_on;
use crate::roles::role_of;
use c_types::{Frame, Part, Shown, child_at};
use c99_tree::Tree;
use cs_base::Memory;
use std::alloc::Global;

// A token is read.
#[inline(never)]
fn pass(facts: &mut Facts<'_>, alloc: Global, i: u32, f: &mut Frame) -> Result<(), Memory>
    ensures toks { OnOk result (facts.new.toks ≡ facts.old.toks) }
    ensures passed { OnOk result (state facts.new.facts f.new ≡ passed facts.old.toks i (state facts.old.facts f.old)) }
{
    let role = role_of(f.label.production, f.label.alternative, f.nth);
    let nth = match f.nth.checked_add(1) {
        Some(nth) => nth,
        None => return Err(Memory),
    };
    let found = facts.found_at(alloc, role, i, f)?;
    let position = facts.position_at(role, i, f)?;
    facts.read(alloc, role, i, f)?;
    f.nth = nth;
    f.token = i;
    f.found = found;
    f.position = position;
    Ok(())
}

/// The children of a node, one after another. What is open takes little stack: a node has its frame here, and all else
/// stands in functions that have returned before the walk goes down. What the tree tells by itself is told on the way,
/// since a large tree costs mostly the time in which its memory comes.
#[cycle(walk)]
pub fn walk(
    facts: &mut Facts<'_>,
    alloc: Global,
    tree: &Tree,
    f: &mut Frame,
    shown: &mut Shown,
) -> Result<(), Memory>
    ensures toks { OnOk result (facts.new.toks ≡ facts.old.toks) }
    ensures walked { OnOk result (state facts.new.facts f.new ≡ walked facts.old.toks tree.now.under (state facts.old.facts f.old)) }
    ensures lists { OnOk result (shown.new.lists.items ≡ shown.old.lists.items ++ lists_in tree.now.under) }
    ensures calls { OnOk result (shown.new.calls.items ≡ shown.old.calls.items ++ calls_in tree.now.under) }
    ensures bare { OnOk result (shown.new.bare.items ≡ shown.old.bare.items ++ bare_in tree.now.under) }
{
    let count = tree.len();
    'children: for k in 0..count {
        walk_at(facts, alloc, tree, k, f, shown)?;
    }
    Ok(())
}

// Child `k`.
#[cycle(walk)]
fn walk_at(
    facts: &mut Facts<'_>,
    alloc: Global,
    tree: &Tree,
    k: u32,
    f: &mut Frame,
    shown: &mut Shown,
) -> Result<(), Memory>
    ensures toks { OnOk result (facts.new.toks ≡ facts.old.toks) }
    ensures walked { OnOk result (walked facts.old.toks (from_child (k + 1) tree.now.under) (state facts.new.facts f.new) ≡ walked facts.old.toks (from_child k tree.now.under) (state facts.old.facts f.old)) }
    ensures lists { OnOk result (shown.new.lists.items ++ lists_in (from_child (k + 1) tree.now.under) ≡ shown.old.lists.items ++ lists_in (from_child k tree.now.under)) }
    ensures calls { OnOk result (shown.new.calls.items ++ calls_in (from_child (k + 1) tree.now.under) ≡ shown.old.calls.items ++ calls_in (from_child k tree.now.under)) }
    ensures bare { OnOk result (shown.new.bare.items ++ bare_in (from_child (k + 1) tree.now.under) ≡ shown.old.bare.items ++ bare_in (from_child k tree.now.under)) }
{
    match child_at(tree, k) {
        Part::End => Ok(()),
        Part::Token(i) => pass(facts, alloc, i, f),
        Part::Node(inner) => {
            shown.add(alloc, inner)?;
            walk_node(facts, alloc, inner, f, shown)
        }
    }
}

// A node is entered, its children are read, and it is left.
#[cycle(walk)]
fn walk_node(
    facts: &mut Facts<'_>,
    alloc: Global,
    inner: &Tree,
    f: &mut Frame,
    shown: &mut Shown,
) -> Result<(), Memory>
    ensures toks { OnOk result (facts.new.toks ≡ facts.old.toks) }
    ensures walked { OnOk result (state facts.new.facts f.new ≡ left facts.old.toks inner.now.label inner.now.first inner.now.under (state facts.old.facts f.old) (walked facts.old.toks inner.now.under (entered facts.old.toks inner.now.label inner.now.first inner.now.under (state facts.old.facts f.old)))) }
    ensures lists { OnOk result (shown.new.lists.items ≡ shown.old.lists.items ++ lists_in inner.now.under) }
    ensures calls { OnOk result (shown.new.calls.items ≡ shown.old.calls.items ++ calls_in inner.now.under) }
    ensures bare { OnOk result (shown.new.bare.items ≡ shown.old.bare.items ++ bare_in inner.now.under) }
{
    let mut child = facts.frame_in(alloc, inner, f)?;
    facts.enter(inner, f)?;
    walk(facts, alloc, inner, &mut child, shown)?;
    facts.leave(alloc, f, inner, child.body)?;
    go_on(alloc, facts.toks(), f, inner, &child)
}
