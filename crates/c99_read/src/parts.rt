// What actions and closed nodes read off the tree.
ghost use Rattle.std.specs.Prelude.{◌≡◌, Some};
ghost use Rattle.c99_tree.specs.Tree.{part_at, leaf};
ghost use Rattle.c99_read.specs.Children.{declared_by, name_found, is_word_found, is_part_found};
ghost use Rattle.c99_read.specs.State.{is_declaring, has_name, name_below, last_declared, is_mod, is_main, is_typedef_word, typedef_word_in, is_typedef_part, has_typedef, collapses, is_declarator, is_specs};

use c99_tree::{Child, Label, Production, Tree};

fn is_declaring(production: Production) -> bool
    ensures { result ≡ is_declaring production }
{
    matches!(
        production,
        Production::Declarator | Production::Direct | Production::Pdecl | Production::Pdirect
    )
}

fn has_name(label: Label) -> bool
    ensures { result ≡ has_name label }
{
    matches!(label.production, Production::Direct | Production::Pdirect) && label.alternative == 1
}

#[cycle(name)]
/// The index of the name of a declarator, given a part of it.
pub(crate) fn name_below(part: &Tree) -> Option<u32>
    ensures { result ≡ name_below part.now.label part.now.under }
{
    let count = part.len();
    'children: for k in 0..count {
        if let Some(name) = name_at(part, k) {
            return name;
        }
    }
    None
}

#[cycle(name)]
// What child `k` says of the name: nothing, or what the name is.
fn name_at(part: &Tree, k: u32) -> Option<Option<u32>>
    ensures { result ≡ name_found part.now.label (part_at part.now.under k) }
{
    match part.child(k) {
        Some(Child::Token(index)) => named_by(part.label(), index),
        Some(Child::Node(inner)) => {
            if is_declaring(inner.label().production) {
                Some(name_below(inner))
            } else {
                None
            }
        }
        None => None,
    }
}

fn named_by(label: Label, index: u32) -> Option<Option<u32>>
    ensures { result ≡ name_found label (Some (leaf index)) }
{
    if has_name(label) {
        Some(Some(index))
    } else {
        None
    }
}

/// The index of the name of the declarator that stands last in the node.
pub(crate) fn last_declared(node: &Tree) -> Option<u32>
    ensures { result ≡ last_declared node.now.under }
{
    let count = node.len();
    if count == 0 {
        return None;
    }
    declared_by(node, count - 1)
}

// The index of the name of child `k`, where it is a declarator.
fn declared_by(node: &Tree, k: u32) -> Option<u32>
    ensures { result ≡ declared_by (part_at node.now.under k) }
{
    match node.child(k) {
        Some(Child::Node(last)) => name_below(last),
        Some(Child::Token(_)) => None,
        None => None,
    }
}

fn is_typedef_word(label: Label) -> bool
    ensures { result ≡ is_typedef_word label }
{
    matches!(label.production, Production::Mod) && label.alternative == 1
}

fn is_main(production: Production) -> bool
    ensures { result ≡ is_main production }
{
    matches!(production, Production::Main)
}

fn typedef_word_in(node: &Tree) -> bool
    ensures { result ≡ typedef_word_in node.now.under }
{
    let count = node.len();
    'children: for k in 0..count {
        if is_typedef_word_at(node, k) {
            return true;
        }
    }
    false
}

fn is_typedef_word_at(node: &Tree, k: u32) -> bool
    ensures { result ≡ is_word_found (part_at node.now.under k) }
{
    match node.child(k) {
        Some(Child::Node(part)) => is_typedef_word(part.label()),
        Some(Child::Token(_)) => false,
        None => false,
    }
}

/// The specifiers have the word `typedef` among their own words.
pub(crate) fn has_typedef(specs: &Tree) -> bool
    ensures { result ≡ has_typedef specs.now.under }
{
    let count = specs.len();
    'children: for k in 0..count {
        if is_typedef_part_at(specs, k) {
            return true;
        }
    }
    false
}

fn is_typedef_part_at(specs: &Tree, k: u32) -> bool
    ensures { result ≡ is_part_found (part_at specs.now.under k) }
{
    match specs.child(k) {
        Some(Child::Node(part)) => is_typedef_part(part),
        Some(Child::Token(_)) => false,
        None => false,
    }
}

/// The part of some specifiers is the word `typedef`, or has it.
pub(crate) fn is_typedef_part(part: &Tree) -> bool
    ensures { result ≡ is_typedef_part part.now.label part.now.under }
{
    is_typedef_word(part.label()) || (is_main(part.label().production) && typedef_word_in(part))
}

/// A node of the production is replaced by its only child, where that is a node.
pub(crate) fn collapses(production: Production) -> bool
    ensures { result ≡ collapses production }
{
    matches!(
        production,
        Production::Expr
            | Production::Assign
            | Production::Cond
            | Production::Lor
            | Production::Land
            | Production::Bor
            | Production::Bxor
            | Production::Band
            | Production::Equal
            | Production::Relate
            | Production::Shift
            | Production::Add
            | Production::Mul
            | Production::Cast
            | Production::Unary
    )
}

pub(crate) fn is_declarator(production: Production) -> bool
    ensures { result ≡ is_declarator production }
{
    matches!(production, Production::Declarator)
}

pub(crate) fn is_specs(production: Production) -> bool
    ensures { result ≡ is_specs production }
{
    matches!(production, Production::Specs)
}
