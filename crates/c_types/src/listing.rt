// Calls and parameter lists, as the tree shows them (ISO/IEC 9899:1999, 6.5.2.2 and 6.7.5.3).
ghost use Rattle.std.specs.Prelude.{◌≡◌, ◌+◌, ◌++◌, ◌&&◌, [], ◌∷◌, if◌then◌else◌, IfOk, OnOk};
ghost use Rattle.std.specs.Option.{option_map};
ghost use Rattle.c99_tree.specs.declared.production.Production.TheVariants.{Unary as AUnary, Primary as APrimary, Post as APost};
ghost use Rattle.c_types.specs.Children.{from_child};
ghost use Rattle.c_types.specs.Trees.{is_node, is_at};
ghost use Rattle.c_types.specs.Lists.{odd_tokens, commas_in, list_of, own_list, call_in, declarator_in, is_declaring, bare_at};
ghost use Rattle.c_types.specs.Shapes.{call_by, call_of, declarator_of};

use crate::bare_names::push_bare;
use crate::declarators::{name_below, nearest};
use crate::lists::{Indices, List};
use crate::shapes::{first_node, inner_in, lone_token, second_node};
use crate::trees::{Part, child_at, first_token, is_at, is_node, last_token};
use c99_tree::{Label, Production, Tree};
use cs_base::Memory;
use std::alloc::Global;

fn push_if(out: &mut Vec<u32>, wanted: bool, index: u32) -> Result<(), Memory>
    ensures { OnOk result (out.new.items ≡ (if wanted then out.old.items ++ index ∷ [] else out.old.items)) }
{
    if wanted {
        out.push(index)?;
    }
    Ok(())
}

// Child `n`, where it is a token and an odd number `k` of children are counted before it; and the next number.
fn push_odd_at(tree: &Tree, n: u32, k: u32, out: &mut Vec<u32>) -> Result<u32, Memory>
    ensures next { IfOk result (λ next. next ≡ k + 1) }
    ensures pushed { OnOk result (out.new.items ++ odd_tokens (k + 1) (from_child (n + 1) tree.now.under) ≡ out.old.items ++ odd_tokens k (from_child n tree.now.under)) }
{
    let next = match k.checked_add(1) {
        Some(next) => next,
        None => return Err(Memory),
    };
    match child_at(tree, n) {
        Part::End => {}
        Part::Token(index) => push_if(out, k % 2 == 1, index)?,
        Part::Node(_) => {}
    }
    Ok(next)
}

/// The tokens among the children with an odd number of children before them, where `k` are counted.
pub(crate) fn push_odd(tree: &Tree, k: u32, out: &mut Vec<u32>) -> Result<(), Memory>
    ensures { OnOk result (out.new.items ≡ out.old.items ++ odd_tokens k tree.now.under) }
{
    let mut number = k;
    let count = tree.len();
    'children: for n in 0..count {
        number = push_odd_at(tree, n, number, out)?;
    }
    Ok(())
}

fn odd_tokens(alloc: Global, list: &Tree) -> Result<Indices, Memory>
    ensures { IfOk result (λ tokens. tokens ≡ odd_tokens 0 list.now.under) }
{
    let mut tokens = Vec::new(alloc);
    push_odd(list, 0, &mut tokens)?;
    Ok(Indices::new(tokens))
}

// The tokens between the items of the list that stands in parentheses.
#[tactic(auto, using(crate::proofs::ShapeLemmas::commas_shape))]
fn commas_in(alloc: Global, tree: &Tree) -> Result<Indices, Memory>
    ensures { IfOk result (λ tokens. tokens ≡ commas_in tree.now.under) }
{
    match inner_in(tree) {
        Some(list) => odd_tokens(alloc, list),
        None => Ok(Indices::new(Vec::new(alloc))),
    }
}

fn list_of(alloc: Global, name: u32, list: &Tree) -> Result<List, Memory>
    ensures { IfOk result (λ l. l ≡ list_of name list.now.under) }
{
    Ok(List {
        name,
        begin: first_token(list, 0),
        close: last_token(list, 0),
        commas: commas_in(alloc, list)?,
    })
}

fn push_list(alloc: Global, name: u32, list: &Tree, out: &mut Vec<List>) -> Result<(), Memory>
    ensures { OnOk result (out.new.items ≡ out.old.items ++ list_of name list.now.under ∷ []) }
{
    let pushed = list_of(alloc, name, list)?;
    out.push(pushed)?;
    Ok(())
}

fn is_call(callee: Label, arguments: Label) -> bool
    ensures { result ≡ (is_at callee APrimary 1 && is_at arguments APost 2) }
{
    is_at(callee, Production::Primary, 1) && is_at(arguments, Production::Post, 2)
}

fn push_call_by(
    alloc: Global,
    callee: Label,
    name: Option<u32>,
    list: &Tree,
    out: &mut Vec<List>,
) -> Result<(), Memory>
    ensures { OnOk result (out.new.items ≡ out.old.items ++ call_by callee name list.now) }
{
    match name {
        Some(index) => {
            if is_call(callee, list.label()) {
                push_list(alloc, index, list, out)
            } else {
                Ok(())
            }
        }
        None => Ok(()),
    }
}

fn push_call_of(
    alloc: Global,
    callee: Option<&Tree>,
    list: Option<&Tree>,
    out: &mut Vec<List>,
) -> Result<(), Memory>
    ensures { OnOk result (out.new.items ≡ out.old.items ++ call_of (option_map (λ t. t.now) callee.entry) (option_map (λ t. t.now) list.entry)) }
{
    match callee {
        Some(primary) => match list {
            Some(arguments) => {
                push_call_by(alloc, primary.label(), lone_token(primary), arguments, out)
            }
            None => Ok(()),
        },
        None => Ok(()),
    }
}

#[tactic(auto, using(crate::proofs::ShapeLemmas::call_shape))]
fn push_call(alloc: Global, tree: &Tree, out: &mut Vec<List>) -> Result<(), Memory>
    ensures { OnOk result (out.new.items ≡ out.old.items ++ (if is_node tree.now.label AUnary then call_in tree.now.under else [])) }
{
    if is_node(tree.label(), Production::Unary) {
        push_call_of(alloc, first_node(tree), second_node(tree), out)
    } else {
        Ok(())
    }
}

fn push_own(
    alloc: Global,
    name: Option<u32>,
    nearest: Option<Option<&Tree>>,
    out: &mut Vec<List>,
) -> Result<(), Memory>
    ensures { OnOk result (out.new.items ≡ out.old.items ++ own_list name (option_map (λ o. option_map (λ t. t.now.under) o) nearest.entry)) }
{
    match name {
        Some(index) => match nearest {
            Some(Some(list)) => push_list(alloc, index, list, out),
            Some(None) => Ok(()),
            None => Ok(()),
        },
        None => Ok(()),
    }
}

fn push_declarator_of(
    alloc: Global,
    first: Option<&Tree>,
    out: &mut Vec<List>,
) -> Result<(), Memory>
    ensures { OnOk result (out.new.items ≡ out.old.items ++ declarator_of (option_map (λ t. t.now) first.entry)) }
{
    match first {
        Some(declarator) => {
            if is_node(declarator.label(), Production::Declarator) {
                push_own(alloc, name_below(declarator), nearest(declarator), out)
            } else {
                Ok(())
            }
        }
        None => Ok(()),
    }
}

/// The node begins with a declarator.
pub(crate) fn is_declaring(label: Label) -> bool
    ensures { result ≡ is_declaring label }
{
    is_node(label, Production::ExtRest) || is_node(label, Production::InitDecl)
}

#[tactic(auto, using(crate::proofs::ShapeLemmas::declarator_shape))]
fn push_declarator(alloc: Global, tree: &Tree, out: &mut Vec<List>) -> Result<(), Memory>
    ensures { OnOk result (out.new.items ≡ out.old.items ++ (if is_declaring tree.now.label then declarator_in tree.now.under else [])) }
{
    if is_declaring(tree.label()) {
        push_declarator_of(alloc, first_node(tree), out)
    } else {
        Ok(())
    }
}

/// What the tree of a unit tells by itself, but for the bodies of functions: the parameter lists of the names of
/// declarators, in order of the names; the calls whose callee is a name, in order; and the names that are parameters
/// only since they are no typedef names where they stand.
#[derive(Drop)]
pub struct Shown {
    pub lists: Vec<List>,
    pub calls: Vec<List>,
    pub bare: Vec<u32>,
}

impl Shown {
    pub fn new(alloc: Global) -> Shown
        ensures lists { result.lists.items ≡ [] }
        ensures calls { result.calls.items ≡ [] }
        ensures bare { result.bare.items ≡ [] }
    {
        Shown {
            lists: Vec::new(alloc),
            calls: Vec::new(alloc),
            bare: Vec::new(alloc),
        }
    }

    /// What a node tells by itself.
    #[inline(never)]
    pub fn add(&mut self, alloc: Global, tree: &Tree) -> Result<(), Memory>
        ensures lists { OnOk result (self.new.lists.items ≡ self.old.lists.items ++ (if is_declaring tree.now.label then declarator_in tree.now.under else [])) }
        ensures calls { OnOk result (self.new.calls.items ≡ self.old.calls.items ++ (if is_node tree.now.label AUnary then call_in tree.now.under else [])) }
        ensures bare { OnOk result (self.new.bare.items ≡ self.old.bare.items ++ bare_at tree.now.label tree.now.under) }
    {
        push_declarator(alloc, tree, &mut self.lists)?;
        push_call(alloc, tree, &mut self.calls)?;
        push_bare(tree, &mut self.bare)
    }
}
