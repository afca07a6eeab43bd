// What is known where a node begins: its scope, what is given to it, and the type that it starts with.
ghost use Rattle.std.specs.Prelude.{◌≡◌, ◌+◌, ◌||◌, ◌==◌, [], if◌then◌else◌, IfOk, OnOk};
ghost use Rattle.c99_tree.specs.declared.production.Production.TheVariants.{Members as MembersNode, Enumerators as EnumeratorsNode, InitItem as InitItemNode};
ghost use Rattle.scope_bind.specs.Known.{known};
ghost use Rattle.name_chains.specs.Entering.{inner, is_scoped, scope_in, body_in, listing_in, alone_in, owner_in, given_in, position_in, with_kept, facts_in, found_in, frame_in};
ghost use Rattle.c_types.specs.Children.{from_child};
ghost use Rattle.c_types.specs.Trees.{is_node, last_token};
ghost use Rattle.scope_bind.specs.Braced.{has_list};
ghost use Rattle.c_types.specs.Types.{called, array, arithmetic};

use crate::facts::Facts;
use crate::initializers::element_of;
use crate::tags::{new_record, number_in};
use c_types::{
    Base, Body, CType, Frame, Part, Position, Scope, child_at, first_token, is_bare, is_list,
    is_node, last_token,
};
use c99_tree::{Label, Production, Tree};
use cs_base::Memory;
use std::alloc::Global;

fn inner(around: Scope, to: u32) -> Result<Scope, Memory>
    ensures { IfOk result (λ s. s ≡ inner around to) }
{
    match around.depth.checked_add(1) {
        Some(depth) => Ok(Scope { depth, to }),
        None => Err(Memory),
    }
}

// The scope that ends with the last token of the node.
fn inner_past(around: Scope, tree: &Tree) -> Result<Scope, Memory>
    ensures { IfOk result (λ s. s ≡ inner around (last_token tree.now.under 0 + 1)) }
{
    match last_token(tree, 0).checked_add(1) {
        Some(to) => inner(around, to),
        None => Err(Memory),
    }
}

fn is_scoped(alternative: u8) -> bool
    ensures { result ≡ is_scoped alternative }
{
    4 < alternative && alternative < 10
}

fn scope_in(tree: &Tree, around: Scope) -> Result<Scope, Memory>
    ensures { IfOk result (λ s. s ≡ scope_in tree.now.label.production tree.now.label tree.now.under around) }
{
    let label = tree.label();
    match label.production {
        Production::Block => inner(around, last_token(tree, 0)),
        Production::FunBody => inner(around, last_token(tree, 0)),
        Production::Suffix => {
            if is_list(label) {
                inner(around, last_token(tree, 0))
            } else {
                Ok(around)
            }
        }
        Production::Sub => inner_past(around, tree),
        Production::Statement => {
            if is_scoped(label.alternative) {
                inner_past(around, tree)
            } else {
                Ok(around)
            }
        }
        _ => Ok(around),
    }
}

fn body_in(tree: &Tree, around: Option<Body>) -> Option<Body>
    ensures { result ≡ body_in tree.now.label.production tree.now.under around }
{
    match tree.label().production {
        Production::FunBody => Some(Body {
            from: first_token(tree, 0),
            to: last_token(tree, 0),
        }),
        _ => around,
    }
}

fn listing_in(production: Production, f: &Frame) -> bool
    ensures { result ≡ listing_in production f.now }
{
    match production {
        Production::Declaration => is_node(f.label, Production::FunBody),
        _ => f.listing,
    }
}

fn alone_in(tree: &Tree, f: &Frame) -> bool
    ensures { result ≡ alone_in tree.now.label.production tree.now.under f.now }
{
    match tree.label().production {
        Production::External => is_bare(tree),
        Production::Declaration => is_bare(tree),
        Production::Specs => f.alone,
        Production::Main => f.alone,
        Production::StructSpec => f.alone,
        Production::SuRest => f.alone,
        _ => false,
    }
}

fn owner_in(production: Production, f: &Frame) -> u32
    ensures { result ≡ owner_in production f.now }
{
    match production {
        Production::Members => number_in(&f.found),
        _ => f.owner,
    }
}

fn given_in(production: Production, f: &Frame) -> Result<CType, Memory>
    ensures { IfOk result (λ t. t ≡ given_in production f.now) }
{
    match production {
        Production::ExtTail => f.found.copied(),
        Production::Init => f.found.copied(),
        Production::Designator => f.found.copied(),
        Production::CastRest => f.found.copied(),
        Production::SizeLit => f.found.copied(),
        Production::Post => f.found.copied(),
        _ => f.given.copied(),
    }
}

fn position_in(label: Label, f: &Frame) -> Position
    ensures { result ≡ position_in label.production label f.now }
{
    match label.production {
        Production::InitList => Position::Numbered(0),
        Production::InitItem => {
            if label.alternative == 1 {
                Position::Beyond
            } else {
                f.position
            }
        }
        _ => f.position,
    }
}

// A list in braces behind a tag: members, or enumerators.
fn is_braced(label: Label) -> bool
    ensures { result ≡ (is_node label MembersNode || is_node label EnumeratorsNode) }
{
    is_node(label, Production::Members) || is_node(label, Production::Enumerators)
}

// Child `k` is one.
fn is_braced_at(tree: &Tree, k: u32) -> bool
    ensures { has_list (from_child k tree.now.under) ≡ (result || has_list (from_child (k + 1) tree.now.under)) }
{
    match child_at(tree, k) {
        Part::End => false,
        Part::Token(_) => false,
        Part::Node(inner) => is_braced(inner.label()),
    }
}

// A child of the node is one.
fn has_list(tree: &Tree) -> bool
    ensures { result ≡ has_list tree.now.under }
{
    let count = tree.len();
    'children: for k in 0..count {
        if is_braced_at(tree, k) {
            return true;
        }
    }
    false
}

impl Facts<'_> {
    // The type of an item of an initializer: its place.
    fn item_type(&self, alloc: Global, label: Label, f: &Frame) -> Result<CType, Memory>
        ensures { IfOk result (λ t. t ≡ found_in [] InitItemNode label f.now self.now.facts) }
    {
        if label.alternative == 1 {
            f.given.copied()
        } else {
            self.next_place(alloc, &f.given, f.position)
        }
    }

    // The type that a node begins with.
    fn found_in(&self, alloc: Global, label: Label, f: &Frame) -> Result<CType, Memory>
        ensures { IfOk result (λ t. t ≡ found_in self.now.toks label.production label f.now self.now.facts) }
    {
        match label.production {
            Production::ExtTail => f.found.copied(),
            Production::CastRest => f.found.copied(),
            Production::SizeLit => f.found.copied(),
            Production::Post => post_type(label, f),
            Production::InitItem => self.item_type(alloc, label, f),
            Production::Designator => element_of(alloc, &f.found),
            Production::SuRest => Ok(new_record(alloc, self.toks(), f.token)),
            Production::EnRest => Ok(CType::plain(alloc, Base::Enumeration(f.token))),
            Production::Primary => primary_type(alloc, label),
            _ => Ok(CType::plain(alloc, Base::Arithmetic)),
        }
    }

    /// The frame of a node.
    #[inline(never)]
    pub fn frame_in(&self, alloc: Global, tree: &Tree, f: &Frame) -> Result<Frame, Memory>
        ensures { IfOk result (λ child. child ≡ frame_in self.now.toks tree.now.label tree.now.under f.now self.now.facts) }
    {
        let label = tree.label();
        Ok(Frame {
            label,
            nth: 0,
            token: f.token,
            scope: scope_in(tree, f.scope)?,
            body: body_in(tree, f.body),
            listing: listing_in(label.production, f),
            alone: alone_in(tree, f),
            has_body: has_list(tree),
            base: f.base.copied()?,
            words: f.words,
            kept: f.kept,
            owner: owner_in(label.production, f),
            given: given_in(label.production, f)?,
            found: self.found_in(alloc, label, f)?,
            position: position_in(label, f),
        })
    }

    // A function's body begins.
    fn begin_function(&mut self, tree: &Tree, f: &Frame) -> Result<(), Memory>
        ensures { OnOk result (self.new ≡ known self.old.toks (with_kept f.now.kept (f.now.scope.depth + 1) tree.now.first (last_token tree.now.under 0) (record self.old.facts { jumps = [] }))) }
    {
        let depth = match f.scope.depth.checked_add(1) {
            Some(depth) => depth,
            None => return Err(Memory),
        };
        self.forget_jumps();
        self.keep(f.kept, depth, tree.first(), last_token(tree, 0))
    }

    /// A node begins.
    #[inline(never)]
    pub fn enter(&mut self, tree: &Tree, f: &Frame) -> Result<(), Memory>
        ensures { OnOk result (self.new ≡ known self.old.toks (facts_in tree.now.label.production tree.now.first tree.now.under f.now self.old.facts)) }
    {
        match tree.label().production {
            Production::FunBody => self.begin_function(tree, f),
            _ => Ok(()),
        }
    }
}

// The type in front of a postfix operator, or what the call in front gave.
fn post_type(label: Label, f: &Frame) -> Result<CType, Memory>
    ensures { IfOk result (λ t. t ≡ (if label.alternative == 2 then called f.now.found else f.now.found)) }
{
    let found = f.found.copied()?;
    if label.alternative == 2 {
        Ok(found.called())
    } else {
        Ok(found)
    }
}

fn primary_type(alloc: Global, label: Label) -> Result<CType, Memory>
    ensures { IfOk result (λ t. t ≡ (if label.alternative == 4 then array arithmetic else arithmetic)) }
{
    let arithmetic = CType::plain(alloc, Base::Arithmetic);
    if label.alternative == 4 {
        arithmetic.array()
    } else {
        Ok(arithmetic)
    }
}
