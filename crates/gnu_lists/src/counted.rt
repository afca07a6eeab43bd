// What stands in the attributes of a declared name.
ghost use Rattle.std.specs.Prelude.{◌≡◌, ◌+◌, ◌++◌, [], if◌then◌else◌, OnOk};
ghost use Rattle.std.specs.Option.{option_map};
ghost use Rattle.c_types.specs.Children.{from_child};
ghost use Rattle.c_types.specs.Shapes.{first_node, second_node};
ghost use Rattle.gnu_lists.specs.Counted.{is_inner, counted, counted_by, is_symbol, is_marking, marks_in, told_of, told_first, told_each, told_tail, told_rest, told_rests, marks_of_specs, told_at};

use crate::tokens::{Mark, attribute_name, push_below, spelling};
use crate::words::is_symbol_word;
use c_types::{Part, child_at, first_node, is_node, name_below, second_node};
use c99_tree::{Production, Tree};
use cs_base::{Memory, Tok};
use std::alloc::Global;

/// A token that is said of a declared name.
#[derive(Clone, Copy, Debug, PartialEq, Eq)]
pub struct Counted {
    pub name: u32,
    pub index: u32,
}

fn is_inner(production: Production) -> bool
    ensures { result ≡ is_inner production }
{
    match production {
        Production::Params => true,
        Production::Members => true,
        Production::Enumerators => true,
        Production::FunBody => true,
        _ => false,
    }
}

/// An attribute whose strings name a symbol.
pub(crate) fn is_symbol(toks: &[Tok], tree: &Tree) -> bool
    ensures { result ≡ is_symbol toks.now tree.now.label tree.now.under }
{
    is_node(tree.label(), Production::AttrItem)
        && is_symbol_word(spelling(toks, attribute_name(tree)))
}

fn is_marking(toks: &[Tok], mark: Mark, tree: &Tree) -> bool
    ensures { result ≡ is_marking toks.now mark tree.now.label tree.now.under }
{
    match mark {
        Mark::Name => false,
        Mark::Text => is_node(tree.label(), Production::AsmName) || is_symbol(toks, tree),
        Mark::Count => is_node(tree.label(), Production::AttrItem),
    }
}

// The marked tokens that are said of a name, in a part of its declaration.
#[cycle(marks)]
fn push_marks(toks: &[Tok], mark: Mark, tree: &Tree, out: &mut Vec<u32>) -> Result<(), Memory>
    ensures { OnOk result (out.new.items ≡ out.old.items ++ marks_in toks.now mark tree.now.under) }
{
    let count = tree.len();
    'children: for k in 0..count {
        push_marks_at(toks, mark, tree, k, out)?;
    }
    Ok(())
}

#[cycle(marks)]
fn push_marks_at(
    toks: &[Tok],
    mark: Mark,
    tree: &Tree,
    k: u32,
    out: &mut Vec<u32>,
) -> Result<(), Memory>
    ensures { OnOk result (out.new.items ++ marks_in toks.now mark (from_child (k + 1) tree.now.under) ≡ out.old.items ++ marks_in toks.now mark (from_child k tree.now.under)) }
{
    match child_at(tree, k) {
        Part::End => Ok(()),
        Part::Token(_) => Ok(()),
        Part::Node(inner) => {
            if is_marking(toks, mark, inner) {
                push_below(toks, mark, inner, out)
            } else if is_inner(inner.label().production) {
                Ok(())
            } else {
                push_marks(toks, mark, inner, out)
            }
        }
    }
}

// Each token is said of the name.
fn push_each(name: u32, ks: &[u32], out: &mut Vec<Counted>) -> Result<(), Memory>
    ensures { OnOk result (out.new.items ≡ out.old.items ++ counted_by (Some name) ks.now) }
{
    'tokens: for k in ks {
        out.push(Counted { name, index: *k })?;
    }
    Ok(())
}

fn push_by(name: Option<u32>, ks: &[u32], out: &mut Vec<Counted>) -> Result<(), Memory>
    ensures { OnOk result (out.new.items ≡ out.old.items ++ counted_by name ks.now) }
{
    match name {
        Some(index) => push_each(index, ks, out),
        None => Ok(()),
    }
}

// What is said of the name of a declarator, where some of it stands before.
fn push_of(
    alloc: Global,
    toks: &[Tok],
    mark: Mark,
    before: &[u32],
    declarator: Option<&Tree>,
    out: &mut Vec<Counted>,
) -> Result<(), Memory>
    ensures { OnOk result (out.new.items ≡ out.old.items ++ told_of toks.now mark before.now (option_map (λ t. t.now) declarator.entry)) }
{
    match declarator {
        Some(named) => {
            let mut all = Vec::new(alloc);
            all.extend_from_slice(before)?;
            push_marks(toks, mark, named, &mut all)?;
            push_by(name_below(named), &all, out)
        }
        None => Ok(()),
    }
}

// .. where the declarator stands first.
fn push_first(
    alloc: Global,
    toks: &[Tok],
    mark: Mark,
    before: &[u32],
    tree: &Tree,
    out: &mut Vec<Counted>,
) -> Result<(), Memory>
    ensures { OnOk result (out.new.items ≡ out.old.items ++ told_first toks.now mark before.now tree.now.under) }
{
    push_of(alloc, toks, mark, before, first_node(tree), out)
}

// A declarator with its initializer, where some stands before all of its list and some directly in front of it.
fn push_declared(
    alloc: Global,
    toks: &[Tok],
    mark: Mark,
    before: &[u32],
    front: &[u32],
    tree: &Tree,
    out: &mut Vec<Counted>,
) -> Result<(), Memory>
    ensures { OnOk result (out.new.items ≡ out.old.items ++ told_first toks.now mark (before.now ++ front.now) tree.now.under) }
{
    let mut both = Vec::new(alloc);
    both.extend_from_slice(before)?;
    both.extend_from_slice(front)?;
    push_first(alloc, toks, mark, &both, tree, out)
}

// Child `k` of a list of declarators.
fn push_each_at(
    alloc: Global,
    toks: &[Tok],
    mark: Mark,
    before: &[u32],
    front: &mut Vec<u32>,
    tree: &Tree,
    k: u32,
    out: &mut Vec<Counted>,
) -> Result<(), Memory>
    ensures { OnOk result (out.new.items ++ told_each toks.now mark before.now front.new.items (from_child (k + 1) tree.now.under) ≡ out.old.items ++ told_each toks.now mark before.now front.old.items (from_child k tree.now.under)) }
{
    match child_at(tree, k) {
        Part::End => Ok(()),
        Part::Token(_) => Ok(()),
        Part::Node(inner) => {
            if is_node(inner.label(), Production::InitDecl) {
                push_declared(alloc, toks, mark, before, front, inner, out)?;
                front.clear();
                Ok(())
            } else if is_node(inner.label(), Production::Attr) {
                push_marks(toks, mark, inner, front)
            } else {
                Ok(())
            }
        }
    }
}

fn push_list(
    alloc: Global,
    toks: &[Tok],
    mark: Mark,
    before: &[u32],
    tree: &Tree,
    out: &mut Vec<Counted>,
) -> Result<(), Memory>
    ensures { OnOk result (out.new.items ≡ out.old.items ++ told_each toks.now mark before.now [] tree.now.under) }
{
    let mut front = Vec::new(alloc);
    let count = tree.len();
    'children: for k in 0..count {
        push_each_at(alloc, toks, mark, before, &mut front, tree, k, out)?;
    }
    Ok(())
}

fn push_tail(
    alloc: Global,
    toks: &[Tok],
    mark: Mark,
    before: &[u32],
    tail: Option<&Tree>,
    out: &mut Vec<Counted>,
) -> Result<(), Memory>
    ensures { OnOk result (out.new.items ≡ out.old.items ++ told_tail toks.now mark before.now (option_map (λ t. t.now) tail.entry)) }
{
    match tail {
        Some(rest) => push_list(alloc, toks, mark, before, rest, out),
        None => Ok(()),
    }
}

// What is said of the declarators of a declaration, whose specifiers stand before them.
fn push_rest(
    alloc: Global,
    toks: &[Tok],
    mark: Mark,
    before: &[u32],
    tree: &Tree,
    out: &mut Vec<Counted>,
) -> Result<(), Memory>
    ensures { OnOk result (out.new.items ≡ out.old.items ++ told_rest toks.now mark before.now tree.now.label tree.now.under) }
{
    if is_node(tree.label(), Production::ExtRest) {
        push_first(alloc, toks, mark, before, tree, out)?;
        push_tail(alloc, toks, mark, before, second_node(tree), out)
    } else if is_node(tree.label(), Production::DeclRest) {
        push_list(alloc, toks, mark, before, tree, out)
    } else {
        Ok(())
    }
}

fn push_rests_at(
    alloc: Global,
    toks: &[Tok],
    mark: Mark,
    before: &[u32],
    tree: &Tree,
    k: u32,
    out: &mut Vec<Counted>,
) -> Result<(), Memory>
    ensures { OnOk result (out.new.items ++ told_rests toks.now mark before.now (from_child (k + 1) tree.now.under) ≡ out.old.items ++ told_rests toks.now mark before.now (from_child k tree.now.under)) }
{
    match child_at(tree, k) {
        Part::End => Ok(()),
        Part::Token(_) => Ok(()),
        Part::Node(inner) => push_rest(alloc, toks, mark, before, inner, out),
    }
}

fn push_rests(
    alloc: Global,
    toks: &[Tok],
    mark: Mark,
    before: &[u32],
    tree: &Tree,
    out: &mut Vec<Counted>,
) -> Result<(), Memory>
    ensures { OnOk result (out.new.items ≡ out.old.items ++ told_rests toks.now mark before.now tree.now.under) }
{
    let count = tree.len();
    'children: for k in 0..count {
        push_rests_at(alloc, toks, mark, before, tree, k, out)?;
    }
    Ok(())
}

fn push_specs_at(
    toks: &[Tok],
    mark: Mark,
    tree: &Tree,
    k: u32,
    out: &mut Vec<u32>,
) -> Result<(), Memory>
    ensures { OnOk result (out.new.items ++ marks_of_specs toks.now mark (from_child (k + 1) tree.now.under) ≡ out.old.items ++ marks_of_specs toks.now mark (from_child k tree.now.under)) }
{
    match child_at(tree, k) {
        Part::End => Ok(()),
        Part::Token(_) => Ok(()),
        Part::Node(inner) => {
            if is_node(inner.label(), Production::Specs) {
                push_marks(toks, mark, inner, out)
            } else {
                Ok(())
            }
        }
    }
}

// What stands in the specifiers of a declaration.
fn push_specs(toks: &[Tok], mark: Mark, tree: &Tree, out: &mut Vec<u32>) -> Result<(), Memory>
    ensures { OnOk result (out.new.items ≡ out.old.items ++ marks_of_specs toks.now mark tree.now.under) }
{
    let count = tree.len();
    'children: for k in 0..count {
        push_specs_at(toks, mark, tree, k, out)?;
    }
    Ok(())
}

/// What a node says of the names that it declares.
pub(crate) fn push_told(
    alloc: Global,
    toks: &[Tok],
    mark: Mark,
    tree: &Tree,
    out: &mut Vec<Counted>,
) -> Result<(), Memory>
    ensures { OnOk result (out.new.items ≡ out.old.items ++ told_at toks.now mark tree.now.label tree.now.under) }
{
    if is_node(tree.label(), Production::External)
        || is_node(tree.label(), Production::Declaration)
    {
        let mut before = Vec::new(alloc);
        push_specs(toks, mark, tree, &mut before)?;
        push_rests(alloc, toks, mark, &before, tree, out)
    } else {
        Ok(())
    }
}
