// What a tree says by itself, without the spelling of a token.
ghost use Rattle.std.specs.Prelude.{◌≡◌, ◌+◌, ◌||◌, ℕ, unwrap_or};
ghost use Rattle.std.specs.Option.{option_map};
ghost use Rattle.c_types.specs.Children.{from_child, with_part, HasRoom, IsBelow, only_node, only_if};
ghost use Rattle.c_types.specs.Shapes.{leading_token};
ghost use Rattle.c_types.specs.Trees.{is_node, is_at, last_token, first_token, has_node, has_mod, has_at, has_untagged, is_anonymous, words_of, is_one, is_lone_main, is_text, is_list, is_aside};

use crate::frames::Words;
use c99_tree::{Child, Label, Production, Tree};

/// A child of a node, or the end of its children.
#[derive(Clone, Copy)]
pub enum Part<'a> {
    End,
    Token(u32),
    Node(&'a Tree),
}

/// Child number `k` from 0.
pub fn child_at(tree: &Tree, k: u32) -> Part<'_>
    ensures here { from_child k tree.now.under ≡ with_part result (from_child (k + 1) tree.now.under) }
    ensures room { HasRoom result k }
    ensures below { IsBelow result (from_child k tree.now.under) tree.now.under }
{
    let count = tree.len();
    if k >= count {
        return Part::End;
    }
    match tree.child(k) {
        Some(Child::Token(index)) => Part::Token(index),
        Some(Child::Node(inner)) => Part::Node(inner),
        None => Part::End,
    }
}

/// The node is one of the production.
pub fn is_node(label: Label, production: Production) -> bool
    ensures { result ≡ is_node label production }
{
    label.production == production
}

/// .. and of the alternative.
pub fn is_at(label: Label, production: Production, alternative: u8) -> bool
    ensures { result ≡ is_at label production alternative }
{
    is_node(label, production) && label.alternative == alternative
}

/// A parameter list in parentheses.
pub fn is_list(label: Label) -> bool
    ensures { result ≡ is_list label }
{
    is_at(label, Production::Suffix, 2)
}

/// Attributes, and the name for the assembler.
pub(crate) fn is_aside(label: Label) -> bool
    ensures { result ≡ is_aside label }
{
    is_node(label, Production::Attr) || is_node(label, Production::AsmName)
}

/// The last token below the node, or the index given where there is none.
pub fn last_token(tree: &Tree, before: u32) -> u32
    ensures { result ≡ last_token tree.now.under before }
{
    match last_below(tree) {
        Some(index) => index,
        None => before,
    }
}

// The last token below the node: that of its last child with one.
#[cycle(last)]
fn last_below(tree: &Tree) -> Option<u32>
    ensures { (before : ℕ) → last_token tree.now.under before ≡ unwrap_or result before }
{
    let mut k = tree.len();
    'children: while k > 0 {
        k -= 1;
        if let Some(index) = last_at(tree, k) {
            return Some(index);
        }
    }
    None
}

// That of child `k`.
#[cycle(last)]
fn last_at(tree: &Tree, k: u32) -> Option<u32>
    ensures { (before : ℕ) → last_token (from_child k tree.now.under) before ≡ last_token (from_child (k + 1) tree.now.under) (unwrap_or result before) }
{
    match child_at(tree, k) {
        Part::End => None,
        Part::Token(index) => Some(index),
        Part::Node(inner) => last_below(inner),
    }
}

// Child `k`, where it is a token.
fn token_at(tree: &Tree, k: u32) -> Option<u32>
    ensures { result ≡ leading_token (from_child k tree.now.under) }
{
    match child_at(tree, k) {
        Part::End => None,
        Part::Token(index) => Some(index),
        Part::Node(_) => None,
    }
}

/// The first token among the children of the node, or the index given where there is none.
pub fn first_token(tree: &Tree, other: u32) -> u32
    ensures { result ≡ first_token tree.now.under other }
{
    let count = tree.len();
    'children: for k in 0..count {
        if let Some(index) = token_at(tree, k) {
            return index;
        }
    }
    other
}

/// A child of the node is a node of the production.
pub fn has_node(tree: &Tree, production: Production) -> bool
    ensures { result ≡ has_node production tree.now.under }
{
    let count = tree.len();
    'children: for k in 0..count {
        if is_node_at(tree, k, production) {
            return true;
        }
    }
    false
}

// Child `k` is one.
fn is_node_at(tree: &Tree, k: u32, production: Production) -> bool
    ensures { has_node production (from_child k tree.now.under) ≡ (result || has_node production (from_child (k + 1) tree.now.under)) }
{
    match child_at(tree, k) {
        Part::End => false,
        Part::Token(_) => false,
        Part::Node(inner) => is_node(inner.label(), production),
    }
}

// A `mod` of the alternative stands among the specifiers.
#[cycle(mods)]
fn has_mod(tree: &Tree, alternative: u8) -> bool
    ensures { result ≡ has_mod alternative tree.now.under }
{
    let count = tree.len();
    'specifiers: for k in 0..count {
        if is_mod_at(tree, k, alternative) {
            return true;
        }
    }
    false
}

// Child `k` is one, or has one among its own words.
#[cycle(mods)]
fn is_mod_at(tree: &Tree, k: u32, alternative: u8) -> bool
    ensures { has_mod alternative (from_child k tree.now.under) ≡ (result || has_mod alternative (from_child (k + 1) tree.now.under)) }
{
    match child_at(tree, k) {
        Part::End => false,
        Part::Token(_) => false,
        Part::Node(inner) => {
            is_at(inner.label(), Production::Mod, alternative)
                || (is_node(inner.label(), Production::Main) && has_mod(inner, alternative))
        }
    }
}

// A child of the node is a node of the production and the alternative.
fn has_part(tree: &Tree, production: Production, alternative: u8) -> bool
    ensures { result ≡ has_at production alternative tree.now.under }
{
    let count = tree.len();
    'children: for k in 0..count {
        if has_part_at(tree, k, production, alternative) {
            return true;
        }
    }
    false
}

// Child `k` is one.
fn has_part_at(tree: &Tree, k: u32, production: Production, alternative: u8) -> bool
    ensures { has_at production alternative (from_child k tree.now.under) ≡ (result || has_at production alternative (from_child (k + 1) tree.now.under)) }
{
    match child_at(tree, k) {
        Part::End => false,
        Part::Token(_) => false,
        Part::Node(inner) => is_at(inner.label(), production, alternative),
    }
}

// A child of the node is a structure or union specifier with a list and without a tag.
fn has_untagged(tree: &Tree) -> bool
    ensures { result ≡ has_untagged tree.now.under }
{
    let count = tree.len();
    'children: for k in 0..count {
        if has_untagged_at(tree, k) {
            return true;
        }
    }
    false
}

// Child `k` is one.
fn has_untagged_at(tree: &Tree, k: u32) -> bool
    ensures { has_untagged (from_child k tree.now.under) ≡ (result || has_untagged (from_child (k + 1) tree.now.under)) }
{
    match child_at(tree, k) {
        Part::End => false,
        Part::Token(_) => false,
        Part::Node(inner) => {
            is_node(inner.label(), Production::StructSpec) && has_part(inner, Production::SuRest, 2)
        }
    }
}

// Such a specifier stands among the specifiers.
fn is_anonymous(tree: &Tree) -> bool
    ensures { result ≡ is_anonymous tree.now.under }
{
    let count = tree.len();
    'children: for k in 0..count {
        if is_anonymous_at(tree, k) {
            return true;
        }
    }
    false
}

// Child `k` is one.
fn is_anonymous_at(tree: &Tree, k: u32) -> bool
    ensures { is_anonymous (from_child k tree.now.under) ≡ (result || is_anonymous (from_child (k + 1) tree.now.under)) }
{
    match child_at(tree, k) {
        Part::End => false,
        Part::Token(_) => false,
        Part::Node(inner) => { is_node(inner.label(), Production::Main) && has_untagged(inner) }
    }
}

/// The storage-class specifiers among some specifiers.
pub fn words_of(specs: &Tree) -> Words
    ensures { result ≡ words_of specs.now.under }
{
    let has_typedef = has_mod(specs, 1);
    let has_extern = has_mod(specs, 2);
    let has_static = has_mod(specs, 3);
    Words {
        has_typedef,
        has_extern,
        has_static,
        has_any: has_typedef
            || (has_extern || (has_static || (has_mod(specs, 4) || has_mod(specs, 5)))),
        anonymous: is_anonymous(specs),
    }
}

// The only child, where it is a node.
fn only_node(tree: &Tree) -> Option<&Tree>
    ensures { option_map (λ t. t.now) result ≡ only_node tree.now.under }
{
    match child_at(tree, 0) {
        Part::Node(inner) => only_if(inner, child_at(tree, 1)),
        Part::Token(_) => None,
        Part::End => None,
    }
}

// It, where nothing stands behind it.
fn only_if<'a>(inner: &'a Tree, behind: Part<'_>) -> Option<&'a Tree>
    ensures { option_map (λ t. t.now) result ≡ only_if inner.now behind.entry }
{
    match behind {
        Part::End => Some(inner),
        Part::Token(_) => None,
        Part::Node(_) => None,
    }
}

fn is_one(tree: &Tree) -> bool
    ensures { result ≡ is_one tree.now.under }
{
    only_node(tree).is_some()
}

/// The specifiers are one word or specifier.
pub(crate) fn is_lone_main(tree: &Tree) -> bool
    ensures { result ≡ is_lone_main tree.now.under }
{
    match only_node(tree) {
        Some(main) => is_one(main),
        None => false,
    }
}

/// The expression is string literals alone.
pub fn is_text(tree: &Tree) -> bool
    ensures { result ≡ is_text tree.now.under }
{
    match only_node(tree) {
        Some(inner) => is_at(inner.label(), Production::Primary, 4),
        None => false,
    }
}
