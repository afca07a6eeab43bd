// The walk over the tree of a unit of GNU C, in the order of its tokens.
ghost use Rattle.std.specs.Prelude.{◌≡◌, ◌+◌, ◌++◌, OnOk};
ghost use Rattle.c_types.specs.Children.{from_child};
ghost use Rattle.scope_bind.specs.Below.name_chains.Frames.{state};
ghost use Rattle.c_types.specs.Lists.{calls_in, lists_in, bare_in};
ghost use Rattle.gnu_bind.specs.Senses.{sense_in};
ghost use Rattle.gnu_bind.specs.Walk.{read, begun, ended, walked};

use crate::entering::frame_begun;
use crate::leaving::{go_on, leave};
use crate::reading::read;
use crate::senses::{Sense, sense_in};
use c_types::{Frame, Part, Shown, child_at};
use c99_tree::Tree;
use cs_base::Memory;
use scope_bind::Facts;
use std::alloc::Global;

/// The children of a node of this sense, one after another. What is open takes little stack: a node has its frame here,
/// and all else stands in functions that have returned before the walk goes down.
#[cycle(walk)]
pub(crate) fn walk(
    facts: &mut Facts<'_>,
    alloc: Global,
    sense: Sense,
    tree: &Tree,
    f: &mut Frame,
    shown: &mut Shown,
) -> Result<(), Memory>
    ensures toks { OnOk result (facts.new.toks ≡ facts.old.toks) }
    ensures walked { OnOk result (state facts.new.facts f.new ≡ walked facts.old.toks sense tree.now.under (state facts.old.facts f.old)) }
    ensures lists { OnOk result (shown.new.lists.items ≡ shown.old.lists.items ++ lists_in tree.now.under) }
    ensures calls { OnOk result (shown.new.calls.items ≡ shown.old.calls.items ++ calls_in tree.now.under) }
    ensures bare { OnOk result (shown.new.bare.items ≡ shown.old.bare.items ++ bare_in tree.now.under) }
{
    let count = tree.len();
    'children: for k in 0..count {
        walk_at(facts, alloc, sense, tree, k, f, shown)?;
    }
    Ok(())
}

// Child `k`.
#[cycle(walk)]
fn walk_at(
    facts: &mut Facts<'_>,
    alloc: Global,
    sense: Sense,
    tree: &Tree,
    k: u32,
    f: &mut Frame,
    shown: &mut Shown,
) -> Result<(), Memory>
    ensures toks { OnOk result (facts.new.toks ≡ facts.old.toks) }
    ensures walked { OnOk result (walked facts.old.toks sense (from_child (k + 1) tree.now.under) (state facts.new.facts f.new) ≡ walked facts.old.toks sense (from_child k tree.now.under) (state facts.old.facts f.old)) }
    ensures lists { OnOk result (shown.new.lists.items ++ lists_in (from_child (k + 1) tree.now.under) ≡ shown.old.lists.items ++ lists_in (from_child k tree.now.under)) }
    ensures calls { OnOk result (shown.new.calls.items ++ calls_in (from_child (k + 1) tree.now.under) ≡ shown.old.calls.items ++ calls_in (from_child k tree.now.under)) }
    ensures bare { OnOk result (shown.new.bare.items ++ bare_in (from_child (k + 1) tree.now.under) ≡ shown.old.bare.items ++ bare_in (from_child k tree.now.under)) }
{
    match child_at(tree, k) {
        Part::End => Ok(()),
        Part::Token(i) => read(facts, alloc, sense, i, f),
        Part::Node(inner) => {
            shown.add(alloc, inner)?;
            walk_node(facts, alloc, sense, inner, f, shown)
        }
    }
}

// A node is entered, its children are read, and it is left.
#[cycle(walk)]
fn walk_node(
    facts: &mut Facts<'_>,
    alloc: Global,
    sense: Sense,
    inner: &Tree,
    f: &mut Frame,
    shown: &mut Shown,
) -> Result<(), Memory>
    ensures toks { OnOk result (facts.new.toks ≡ facts.old.toks) }
    ensures walked { OnOk result (state facts.new.facts f.new ≡ ended facts.old.toks sense inner.now.label inner.now.first inner.now.under (state facts.old.facts f.old) (walked facts.old.toks (sense_in facts.old.toks inner.now.label.production inner.now.under f.old sense) inner.now.under (begun facts.old.toks inner.now.label inner.now.first inner.now.under (sense_in facts.old.toks inner.now.label.production inner.now.under f.old sense) (state facts.old.facts f.old)))) }
    ensures lists { OnOk result (shown.new.lists.items ≡ shown.old.lists.items ++ lists_in inner.now.under) }
    ensures calls { OnOk result (shown.new.calls.items ≡ shown.old.calls.items ++ calls_in inner.now.under) }
    ensures bare { OnOk result (shown.new.bare.items ≡ shown.old.bare.items ++ bare_in inner.now.under) }
{
    let below = sense_in(facts.toks(), inner, f, sense);
    let mut child = frame_begun(facts, alloc, inner, below.special, f)?;
    facts.enter(inner, f)?;
    walk(facts, alloc, below, inner, &mut child, shown)?;
    leave(facts, alloc, f, inner, &child)?;
    go_on(alloc, facts.toks(), sense.special, f, inner, &child)
}
