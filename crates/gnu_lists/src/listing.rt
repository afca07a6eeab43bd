// The walk over the tree of a unit.
ghost use Rattle.std.specs.Prelude.{◌≡◌, ◌+◌, ◌++◌, ◌||◌, [], IfOk, OnOk};
ghost use Rattle.c_types.specs.Children.{from_child};
ghost use Rattle.gnu_lists.specs.declared.tokens.Mark.TheVariants.{Text as AText, Count as ACount};
ghost use Rattle.gnu_lists.specs.Counted.{is_symbol, told_at};
ghost use Rattle.gnu_lists.specs.Lists.{is_worded, is_assembling, last_of, text_of, begun_at, begins_in, blocks_at, blocks_in, places_at, places_in, text_at, texts_in, told_below, listed_in};

use crate::counted::{is_symbol, push_told};
use crate::lists::{Adjacent, Listing, Lists};
use crate::tokens::{Mark, push_among};
use c_types::{Part, child_at, first_token, is_at, is_node};
use c99_tree::{Label, Production, Tree};
use cs_base::{Memory, Tok};
use std::alloc::Global;

// Expressions, names of attributes, and names of operands of `asm`.
fn is_worded(label: Label) -> bool
    ensures { result ≡ is_worded label }
{
    is_at(label, Production::Primary, 1)
        || (is_node(label, Production::AttrWord)
            || (is_node(label, Production::AttrItem) || is_node(label, Production::AsmOperand)))
}

fn push_places(toks: &[Tok], tree: &Tree, out: &mut Vec<u32>) -> Result<(), Memory>
    ensures { OnOk result (out.new.items ≡ out.old.items ++ places_at toks.now tree.now.label tree.now.under) }
{
    if is_worded(tree.label()) {
        push_among(toks, Mark::Name, tree, out)
    } else {
        Ok(())
    }
}

// An `asm` declaration or statement, and the name of a declaration.
fn is_assembling(label: Label) -> bool
    ensures { result ≡ is_assembling label }
{
    is_at(label, Production::External, 4)
        || (is_at(label, Production::Statement, 17) || is_node(label, Production::AsmName))
}

// The last of some tokens, or the one given.
fn last_of(k: u32, ks: &[u32]) -> u32
    ensures { result ≡ last_of k ks.now }
{
    match ks.last() {
        Some(last) => *last,
        None => k,
    }
}

// Strings that stand side by side are one text.
fn push_text(ks: &[u32], out: &mut Vec<Adjacent>) -> Result<(), Memory>
    ensures { OnOk result (out.new.items ≡ out.old.items ++ text_of ks.now) }
{
    match ks.split_first() {
        Some((first, rest)) => match last_of(*first, rest).checked_add(1) {
            Some(to) => {
                out.push(Adjacent { from: *first, to })?;
                Ok(())
            }
            None => Err(Memory),
        },
        None => Ok(()),
    }
}

fn push_text_at(
    alloc: Global,
    toks: &[Tok],
    inside: bool,
    tree: &Tree,
    out: &mut Vec<Adjacent>,
) -> Result<(), Memory>
    ensures { OnOk result (out.new.items ≡ out.old.items ++ text_at toks.now inside tree.now.label tree.now.under) }
{
    if is_assembling(tree.label()) || (inside && is_at(tree.label(), Production::Primary, 4)) {
        let mut strings = Vec::new(alloc);
        push_among(toks, Mark::Text, tree, &mut strings)?;
        push_text(&strings, out)
    } else {
        Ok(())
    }
}

// Child `k`, where it is a block.
fn push_begin_at(tree: &Tree, k: u32, out: &mut Vec<u32>) -> Result<(), Memory>
    ensures { OnOk result (out.new.items ++ begins_in (from_child (k + 1) tree.now.under) ≡ out.old.items ++ begins_in (from_child k tree.now.under)) }
{
    match child_at(tree, k) {
        Part::End => Ok(()),
        Part::Token(_) => Ok(()),
        Part::Node(inner) => {
            if is_node(inner.label(), Production::Block) {
                out.push(first_token(inner, 0))?;
            }
            Ok(())
        }
    }
}

fn push_begins(tree: &Tree, out: &mut Vec<u32>) -> Result<(), Memory>
    ensures { OnOk result (out.new.items ≡ out.old.items ++ begins_in tree.now.under) }
{
    let count = tree.len();
    'children: for k in 0..count {
        push_begin_at(tree, k, out)?;
    }
    Ok(())
}

// The `{` of blocks that are operands.
fn push_blocks(tree: &Tree, out: &mut Vec<u32>) -> Result<(), Memory>
    ensures { OnOk result (out.new.items ≡ out.old.items ++ blocks_at tree.now.label tree.now.under) }
{
    if is_node(tree.label(), Production::Primary) {
        push_begins(tree, out)
    } else {
        Ok(())
    }
}

// What a node tells by itself.
#[inline(never)]
fn add(
    alloc: Global,
    toks: &[Tok],
    inside: bool,
    tree: &Tree,
    all: &mut Listing,
) -> Result<(), Memory>
    ensures places { OnOk result (all.new.places.items ≡ all.old.places.items ++ places_at toks.now tree.now.label tree.now.under) }
    ensures texts { OnOk result (all.new.texts.items ≡ all.old.texts.items ++ text_at toks.now inside tree.now.label tree.now.under) }
    ensures counts { OnOk result (all.new.counts.items ≡ all.old.counts.items ++ told_at toks.now ACount tree.now.label tree.now.under) }
    ensures symbols { OnOk result (all.new.symbols.items ≡ all.old.symbols.items ++ told_at toks.now AText tree.now.label tree.now.under) }
    ensures begins { OnOk result (all.new.begins.items ≡ all.old.begins.items ++ blocks_at tree.now.label tree.now.under) }
{
    push_places(toks, tree, &mut all.places)?;
    push_text_at(alloc, toks, inside, tree, &mut all.texts)?;
    push_told(alloc, toks, Mark::Count, tree, &mut all.counts)?;
    push_told(alloc, toks, Mark::Text, tree, &mut all.symbols)?;
    push_blocks(tree, &mut all.begins)
}

// What all nodes below tell, where it is said whether they stand in an attribute that names a symbol.
#[cycle(list)]
fn list(
    alloc: Global,
    toks: &[Tok],
    inside: bool,
    tree: &Tree,
    all: &mut Listing,
) -> Result<(), Memory>
    ensures places { OnOk result (all.new.places.items ≡ all.old.places.items ++ places_in toks.now tree.now.under) }
    ensures texts { OnOk result (all.new.texts.items ≡ all.old.texts.items ++ texts_in toks.now inside tree.now.under) }
    ensures counts { OnOk result (all.new.counts.items ≡ all.old.counts.items ++ told_below toks.now ACount tree.now.under) }
    ensures symbols { OnOk result (all.new.symbols.items ≡ all.old.symbols.items ++ told_below toks.now AText tree.now.under) }
    ensures begins { OnOk result (all.new.begins.items ≡ all.old.begins.items ++ blocks_in tree.now.under) }
{
    let count = tree.len();
    'children: for k in 0..count {
        list_at(alloc, toks, inside, tree, k, all)?;
    }
    Ok(())
}

#[cycle(list)]
fn list_at(
    alloc: Global,
    toks: &[Tok],
    inside: bool,
    tree: &Tree,
    k: u32,
    all: &mut Listing,
) -> Result<(), Memory>
    ensures places { OnOk result (all.new.places.items ++ places_in toks.now (from_child (k + 1) tree.now.under) ≡ all.old.places.items ++ places_in toks.now (from_child k tree.now.under)) }
    ensures texts { OnOk result (all.new.texts.items ++ texts_in toks.now inside (from_child (k + 1) tree.now.under) ≡ all.old.texts.items ++ texts_in toks.now inside (from_child k tree.now.under)) }
    ensures counts { OnOk result (all.new.counts.items ++ told_below toks.now ACount (from_child (k + 1) tree.now.under) ≡ all.old.counts.items ++ told_below toks.now ACount (from_child k tree.now.under)) }
    ensures symbols { OnOk result (all.new.symbols.items ++ told_below toks.now AText (from_child (k + 1) tree.now.under) ≡ all.old.symbols.items ++ told_below toks.now AText (from_child k tree.now.under)) }
    ensures begins { OnOk result (all.new.begins.items ++ blocks_in (from_child (k + 1) tree.now.under) ≡ all.old.begins.items ++ blocks_in (from_child k tree.now.under)) }
{
    match child_at(tree, k) {
        Part::End => Ok(()),
        Part::Token(_) => Ok(()),
        Part::Node(inner) => {
            add(alloc, toks, inside, inner, all)?;
            list(alloc, toks, inside || is_symbol(toks, inner), inner, all)
        }
    }
}

/// What a unit of GNU C tells by itself of names that have another use than the standards', given the tree of its tokens.
pub fn lists_of(alloc: Global, toks: &[Tok], tree: &Tree) -> Result<Lists, Memory>
    ensures { IfOk result (λ l. l ≡ listed_in toks.now tree.now.under) }
{
    let mut all = Listing {
        places: Vec::new(alloc),
        texts: Vec::new(alloc),
        counts: Vec::new(alloc),
        symbols: Vec::new(alloc),
        begins: Vec::new(alloc),
    };
    list(alloc, toks, false, tree, &mut all)?;
    Ok(Lists::new(all))
}
