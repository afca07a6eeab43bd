// What is marked among the tokens of attributes and of names for the assembler.
ghost use Rattle.std.specs.Prelude.{◌≡◌, ◌+◌, ◌++◌, ◌∷◌, [], if◌then◌else◌, OnOk};
ghost use Rattle.c_types.specs.Children.{from_child};
ghost use Rattle.c_types.specs.Declarations.{spelling_at};
ghost use Rattle.gnu_lists.specs.Tokens.{third_or, second_or, name_behind, attribute_name, is_identifier_kind, is_number_kind, is_string_kind, is_identifier, is_number, is_string, is_marked, marked, marks_among, marks_below};

use crate::words::is_naked;
use c_types::{Part, child_at, first_token};
use c99_tree::Tree;
use cs_base::{Kind, Memory, Tok};

/// Which tokens are asked for: identifiers, strings, or what may count parameters.
#[derive(Clone, Copy, Debug, PartialEq, Eq)]
pub(crate) enum Mark {
    Name,
    Text,
    Count,
}

/// How the token is spelled.
pub(crate) fn spelling(toks: &[Tok], k: u32) -> &[u8]
    ensures { result.now ≡ spelling_at toks.now k }
{
    match toks.get(k as usize) {
        Some(tok) => tok.text(),
        None => &[],
    }
}

// Child 3, where it is a token, or the one given.
fn third_or(tree: &Tree, name: u32) -> u32
    ensures { result ≡ third_or (from_child 3 tree.now.under) name }
{
    match child_at(tree, 3) {
        Part::Token(index) => index,
        Part::Node(_) => name,
        Part::End => name,
    }
}

fn second_or(tree: &Tree, name: u32) -> u32
    ensures { result ≡ second_or (from_child 2 tree.now.under) name }
{
    match child_at(tree, 2) {
        Part::Token(_) => third_or(tree, name),
        Part::Node(_) => name,
        Part::End => name,
    }
}

fn name_behind(tree: &Tree, name: u32) -> u32
    ensures { result ≡ name_behind (from_child 1 tree.now.under) name }
{
    match child_at(tree, 1) {
        Part::Token(_) => second_or(tree, name),
        Part::Node(_) => name,
        Part::End => name,
    }
}

/// The token that names an attribute: behind its colons, where it has some.
pub fn attribute_name(tree: &Tree) -> u32
    ensures { result ≡ attribute_name tree.now.under }
{
    match child_at(tree, 0) {
        Part::Node(word) => name_behind(tree, first_token(word, 0)),
        Part::Token(_) => 0,
        Part::End => 0,
    }
}

fn is_identifier(toks: &[Tok], k: u32) -> bool
    ensures { result ≡ is_identifier toks.now k }
{
    match toks.get(k as usize) {
        Some(tok) => matches!(tok.kind(), Kind::Ident),
        None => false,
    }
}

fn is_number(toks: &[Tok], k: u32) -> bool
    ensures { result ≡ is_number toks.now k }
{
    match toks.get(k as usize) {
        Some(tok) => matches!(tok.kind(), Kind::Number),
        None => false,
    }
}

fn is_string(toks: &[Tok], k: u32) -> bool
    ensures { result ≡ is_string toks.now k }
{
    match toks.get(k as usize) {
        Some(tok) => matches!(tok.kind(), Kind::Str),
        None => false,
    }
}

fn is_marked(toks: &[Tok], mark: Mark, k: u32) -> bool
    ensures { result ≡ is_marked toks.now mark k }
{
    match mark {
        Mark::Name => is_identifier(toks, k),
        Mark::Text => is_string(toks, k),
        Mark::Count => is_number(toks, k) || is_naked(spelling(toks, k)),
    }
}

fn push_marked(toks: &[Tok], mark: Mark, k: u32, out: &mut Vec<u32>) -> Result<(), Memory>
    ensures { OnOk result (out.new.items ≡ out.old.items ++ marked toks.now mark k) }
{
    if is_marked(toks, mark, k) {
        out.push(k)?;
    }
    Ok(())
}

// Child `k`, where it is a marked token.
fn push_among_at(
    toks: &[Tok],
    mark: Mark,
    tree: &Tree,
    k: u32,
    out: &mut Vec<u32>,
) -> Result<(), Memory>
    ensures { OnOk result (out.new.items ++ marks_among toks.now mark (from_child (k + 1) tree.now.under) ≡ out.old.items ++ marks_among toks.now mark (from_child k tree.now.under)) }
{
    match child_at(tree, k) {
        Part::End => Ok(()),
        Part::Token(index) => push_marked(toks, mark, index, out),
        Part::Node(_) => Ok(()),
    }
}

/// The marked tokens among the children.
pub(crate) fn push_among(
    toks: &[Tok],
    mark: Mark,
    tree: &Tree,
    out: &mut Vec<u32>,
) -> Result<(), Memory>
    ensures { OnOk result (out.new.items ≡ out.old.items ++ marks_among toks.now mark tree.now.under) }
{
    let count = tree.len();
    'children: for k in 0..count {
        push_among_at(toks, mark, tree, k, out)?;
    }
    Ok(())
}

/// The marked tokens below the node, in order.
#[cycle(below)]
pub(crate) fn push_below(
    toks: &[Tok],
    mark: Mark,
    tree: &Tree,
    out: &mut Vec<u32>,
) -> Result<(), Memory>
    ensures { OnOk result (out.new.items ≡ out.old.items ++ marks_below toks.now mark tree.now.under) }
{
    let count = tree.len();
    'children: for k in 0..count {
        push_below_at(toks, mark, tree, k, out)?;
    }
    Ok(())
}

#[cycle(below)]
fn push_below_at(
    toks: &[Tok],
    mark: Mark,
    tree: &Tree,
    k: u32,
    out: &mut Vec<u32>,
) -> Result<(), Memory>
    ensures { OnOk result (out.new.items ++ marks_below toks.now mark (from_child (k + 1) tree.now.under) ≡ out.old.items ++ marks_below toks.now mark (from_child k tree.now.under)) }
{
    match child_at(tree, k) {
        Part::End => Ok(()),
        Part::Token(index) => push_marked(toks, mark, index, out),
        Part::Node(inner) => push_below(toks, mark, inner, out),
    }
}
