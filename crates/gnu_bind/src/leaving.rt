// What is known once a node of GNU C is left.
ghost use Rattle.std.specs.Prelude.{◌≡◌, ◌==◌, [], if◌then◌else◌, IfOk, OnOk};
ghost use Rattle.c_types.specs.Children.{from_child};
ghost use Rattle.c_types.specs.Trees.{first_token};
ghost use Rattle.c_types.specs.Shapes.{leading_token};
ghost use Rattle.c_types.specs.declared.entity.Linkage.TheVariants.{External as AnExternal, Absent as NoLinkage};
ghost use Rattle.scope_bind.specs.Known.{known};
ghost use Rattle.gnu_bind.specs.Walk.{auto_name, auto_declared, with_auto, facts_ended, frame_ended};

use crate::open_lists::open_after;
use crate::senses::Special;
use crate::types::type_after;
use c_types::{CType, EntityKind, Frame, Linkage, Part, child_at, is_node, last_token, words_of};
use c99_tree::{Production, Tree};
use cs_base::{Memory, Tok};
use scope_bind::{Declared, Facts, position_after};
use std::alloc::Global;

// Child `k`, where it is a token.
fn token_at(tree: &Tree, k: u32) -> Option<u32>
    ensures { result ≡ leading_token (from_child k tree.now.under) }
{
    match child_at(tree, k) {
        Part::Token(index) => Some(index),
        Part::Node(_) => None,
        Part::End => None,
    }
}

// The first token behind the first child, or 0.
fn second_token(tree: &Tree) -> u32
    ensures { result ≡ first_token (from_child 1 tree.now.under) 0 }
{
    let count = tree.len();
    'children: for k in 1..count {
        if let Some(index) = token_at(tree, k) {
            return index;
        }
    }
    0
}

// The name that `__auto_type` declares.
fn auto_name(tree: &Tree) -> u32
    ensures { result ≡ auto_name tree.now.under }
{
    match child_at(tree, 0) {
        Part::Token(_) => second_token(tree),
        Part::Node(_) => 0,
        Part::End => 0,
    }
}

fn auto_linkage(f: &Frame) -> Linkage
    ensures { result ≡ (if f.now.scope.depth == 0 then AnExternal else NoLinkage) }
{
    if f.scope.depth == 0 {
        Linkage::External
    } else {
        Linkage::Absent
    }
}

fn auto_declared(f: &Frame, i: u32, last: u32, t: CType) -> Result<Declared, Memory>
    ensures { IfOk result (λ n. n ≡ auto_declared f.now i last t) }
{
    Ok(Declared {
        name_at: i,
        last,
        kind: EntityKind::Object,
        ctype: t.adjusted()?,
        linkage: auto_linkage(f),
        listing: false,
        listed: false,
    })
}

// A declaration with `__auto_type` ends.
fn declare_auto(facts: &mut Facts<'_>, f: &Frame, tree: &Tree, t: CType) -> Result<(), Memory>
    ensures { OnOk result (facts.new ≡ known facts.old.toks (with_auto facts.old.toks f.now tree.now.under t facts.old.facts)) }
{
    let n = auto_declared(f, auto_name(tree), last_token(tree, 0), t)?;
    facts.declare_name(f.scope, n)
}

/// A node is left.
#[inline(never)]
pub(crate) fn leave(
    facts: &mut Facts<'_>,
    alloc: Global,
    f: &Frame,
    tree: &Tree,
    child: &Frame,
) -> Result<(), Memory>
    ensures { OnOk result (facts.new ≡ known facts.old.toks (facts_ended facts.old.toks tree.now.label.production tree.now.first f.now tree.now.label tree.now.under child.now facts.old.facts)) }
{
    match tree.label().production {
        Production::AutoDecl => declare_auto(facts, f, tree, child.found.copied()?),
        _ => facts.leave(alloc, f, tree, child.body),
    }
}

/// A child is left, in a node of this sense: the frame around goes on with what it has found.
#[inline(never)]
pub(crate) fn go_on(
    alloc: Global,
    toks: &[Tok],
    special: Special,
    f: &mut Frame,
    tree: &Tree,
    child: &Frame,
) -> Result<(), Memory>
    ensures { OnOk result (f.new ≡ frame_ended toks.now special f.old tree.now.label tree.now.under child.now) }
{
    let nth = match f.nth.checked_add(1) {
        Some(nth) => nth,
        None => return Err(Memory),
    };
    let found = type_after(alloc, toks, special, f, tree, child)?;
    let position = position_after(f, tree, child)?;
    let kept = open_after(f, tree);
    if is_node(tree.label(), Production::Specs) {
        f.base = child.found.copied()?;
        f.words = words_of(tree);
    }
    f.nth = nth;
    f.kept = kept;
    f.found = found;
    f.position = position;
    Ok(())
}
