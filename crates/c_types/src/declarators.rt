// Declarators (ISO/IEC 9899:1999, 6.7.5): their names, their types and their parameter lists.
// A declarator may have any number of pointers and suffixes: only what is nested is read by a call.
ghost use Rattle.std.specs.Prelude.{◌≡◌, ◌+◌, ◌||◌, if◌then◌else◌, ◌==◌, unwrap_or, Some, None, IfOk};
ghost use Rattle.std.specs.Option.{option_map, option_or};
ghost use Rattle.c99_tree.specs.declared.production.Production.TheVariants.{Suffix as a_suffix};
ghost use Rattle.c_types.specs.Children.{from_child};
ghost use Rattle.c_types.specs.Types.{array, function};
ghost use Rattle.c_types.specs.Trees.{is_node, is_list, holds_name, has_name, name_below, suffixed, declarator_type, first_list};
ghost use Rattle.c_types.specs.Lists.{nearest_of};
ghost use Rattle.c_types.specs.Fronts.{front_suffixed, is_front_pointer, front_nearest};

use crate::trees::{Part, child_at, is_aside, is_at, is_list, is_node, last_token};
use crate::types::CType;
use c99_tree::{Label, Production, Tree};
use cs_base::Memory;

fn holds_name(production: Production) -> bool
    ensures { result ≡ holds_name production }
{
    matches!(
        production,
        Production::Declarator | Production::Direct | Production::Pdecl | Production::Pdirect
    )
}

fn has_name(label: Label) -> bool
    ensures { result ≡ has_name label }
{
    is_at(label, Production::Direct, 1) || is_at(label, Production::Pdirect, 1)
}

fn named_by(label: Label, index: u32) -> Option<Option<u32>>
    ensures { result ≡ (if has_name label then Some (Some index) else None) }
{
    if has_name(label) {
        Some(Some(index))
    } else {
        None
    }
}

/// The name of a declarator, given a part of it.
#[cycle(name)]
pub fn name_below(part: &Tree) -> Option<u32>
    ensures { result ≡ name_below part.now.label part.now.under }
{
    let count = part.len();
    'children: for k in 0..count {
        if let Some(name) = name_at(part, k) {
            return name;
        }
    }
    None
}

// What child `k` says of the name: nothing, or what the name is.
#[cycle(name)]
fn name_at(part: &Tree, k: u32) -> Option<Option<u32>>
    ensures { name_below part.now.label (from_child k part.now.under) ≡ unwrap_or result (name_below part.now.label (from_child (k + 1) part.now.under)) }
{
    match child_at(part, k) {
        Part::End => None,
        Part::Token(index) => named_by(part.label(), index),
        Part::Node(inner) => {
            if holds_name(inner.label().production) {
                Some(name_below(inner))
            } else {
                None
            }
        }
    }
}

fn suffix(t: CType, label: Label) -> Result<CType, Memory>
    ensures { IfOk result (λ r. r ≡ (if is_node label a_suffix then (if label.alternative == 1 then array t else function t) else t)) }
{
    if is_node(label, Production::Suffix) {
        if label.alternative == 1 {
            t.array()
        } else {
            t.function()
        }
    } else {
        Ok(t)
    }
}

// .. with child `k` in front of it, where that is a suffix.
fn suffixed_at(t: CType, tree: &Tree, k: u32) -> Result<CType, Memory>
    ensures { IfOk result (λ r. r ≡ front_suffixed t (from_child k tree.now.under)) }
{
    match child_at(tree, k) {
        Part::End => Ok(t),
        Part::Token(_) => Ok(t),
        Part::Node(inner) => suffix(t, inner.label()),
    }
}

// The type in front of the suffixes from number `from` on: the last suffix is the innermost.
fn suffixed_from(t: CType, tree: &Tree, from: u32) -> Result<CType, Memory>
    ensures { IfOk result (λ r. r ≡ suffixed t (from_child from tree.now.under)) }
{
    let mut typed = t;
    let mut k = tree.len();
    if k < from {
        return Ok(typed);
    }
    'suffixes: while k > from {
        k -= 1;
        typed = suffixed_at(typed, tree, k)?;
    }
    Ok(typed)
}

/// The type that a declarator gives to its name, where `t` stands in front.
#[cycle(typed)]
pub fn declarator_type(t: CType, declarator: &Tree) -> Result<CType, Memory>
    ensures { IfOk result (λ r. r ≡ declarator_type t declarator.now.under) }
{
    let mut typed = t;
    let count = declarator.len();
    'parts: for k in 0..count {
        let (next, ends) = typed_at(typed, declarator, k)?;
        typed = next;
        if ends {
            return Ok(typed);
        }
    }
    Ok(typed)
}

// Once part `k` is read: the type that the parts behind it go on from, or, at the end, the name's.
#[cycle(typed)]
fn typed_at(t: CType, tree: &Tree, k: u32) -> Result<(CType, bool), Memory>
    ensures { IfOk result (λ r. declarator_type t (from_child k tree.now.under) ≡ (if r.1 then r.0 else declarator_type r.0 (from_child (k + 1) tree.now.under))) }
{
    match child_at(tree, k) {
        Part::End => Ok((t, true)),
        Part::Token(_) => Ok((t, false)),
        Part::Node(inner) => {
            if is_node(inner.label(), Production::Pointer) {
                Ok((t.pointer()?, false))
            } else if is_node(inner.label(), Production::Suffix) {
                Ok((suffixed_from(t, tree, k)?, true))
            } else if is_aside(inner.label()) {
                Ok((t, false))
            } else {
                let outside = suffixed_from(t, tree, k + 1)?;
                Ok((declarator_type(outside, inner)?, true))
            }
        }
    }
}

/// Where the first parameter list of a declarator ends that stands in no other list.
#[cycle(list)]
pub fn first_list(declarator: &Tree) -> Option<u32>
    ensures { result ≡ first_list declarator.now.under }
{
    let count = declarator.len();
    'parts: for k in 0..count {
        if let Some(close) = list_at(declarator, k) {
            return Some(close);
        }
    }
    None
}

// .. where it is child `k` or stands in it.
#[cycle(list)]
fn list_at(tree: &Tree, k: u32) -> Option<u32>
    ensures { first_list (from_child k tree.now.under) ≡ option_or result (first_list (from_child (k + 1) tree.now.under)) }
{
    match child_at(tree, k) {
        Part::End => None,
        Part::Token(_) => None,
        Part::Node(inner) => {
            if is_list(inner.label()) {
                Some(last_token(inner, 0))
            } else {
                first_list(inner)
            }
        }
    }
}

// A suffix as the part nearest to the name.
fn as_nearest(suffix: &Tree) -> Option<&Tree>
    ensures { option_map (λ t. t.now.under) result ≡ (if is_list suffix.now.label then Some suffix.now.under else None) }
{
    if is_list(suffix.label()) {
        Some(suffix)
    } else {
        None
    }
}

// A pointer was read before, or is child `k`.
fn is_pointed(before: bool, tree: &Tree, k: u32) -> bool
    ensures { result ≡ (before || is_front_pointer (from_child k tree.now.under)) }
{
    match child_at(tree, k) {
        Part::End => before,
        Part::Token(_) => before,
        Part::Node(inner) => before || is_node(inner.label(), Production::Pointer),
    }
}

/// Which part of a declarator stands nearest to its name: a parameter list, or another one.
#[cycle(nearest)]
pub(crate) fn nearest(declarator: &Tree) -> Option<Option<&Tree>>
    ensures { option_map (λ o. option_map (λ t. t.now.under) o) result ≡ nearest_of declarator.now.under }
{
    let mut pointed = false;
    let count = declarator.len();
    'parts: for k in 0..count {
        if let Some(part) = nearest_at(declarator, k) {
            return Some(part);
        }
        pointed = is_pointed(pointed, declarator, k);
    }
    if pointed { Some(None) } else { None }
}

// .. where it is child `k` and no pointer, or stands in it.
#[cycle(nearest)]
fn nearest_at(tree: &Tree, k: u32) -> Option<Option<&Tree>>
    ensures { option_map (λ o. option_map (λ t. t.now.under) o) result ≡ front_nearest (from_child k tree.now.under) }
{
    match child_at(tree, k) {
        Part::End => None,
        Part::Token(_) => None,
        Part::Node(inner) => {
            if is_node(inner.label(), Production::Suffix) {
                Some(as_nearest(inner))
            } else if is_node(inner.label(), Production::Pointer) {
                None
            } else if is_aside(inner.label()) {
                None
            } else {
                nearest(inner)
            }
        }
    }
}
