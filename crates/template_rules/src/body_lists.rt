// The parameter lists that bodies begin with (ISO/IEC 9899:1999, 6.9.1).
ghost use Rattle.std.specs.Prelude.{◌≡◌, ◌+◌, ◌++◌, ◌∷◌, if◌then◌else◌, [], IfOk, OnOk};
ghost use Rattle.std.specs.List.{list_any};
ghost use Rattle.std.specs.Option.{option_map, option_map_or};
ghost use Rattle.cs_base.specs.declared.causes.Cause.TheVariants as cause;
ghost use Rattle.c_types.specs.Children.{from_child};
ghost use Rattle.c_types.specs.Trees.{first_list};
ghost use Rattle.offences.specs.First.{standing, FirstThen};
ghost use Rattle.template_rules.specs.ScopeOffences.{begins_body, body_list, body_lists_in, body_place, is_inside};

use crate::places::at_token;
use analysis::Analysis;
use c_types::{List, Part as Child, child_at, first_list, is_node};
use c99_tree::{Production, Tree};
use cs_base::{Cause, Memory, Tok};
use offences::Offence;
use std::alloc::Global;

// Whether what follows a declarator begins with a body.
fn begins_body(tail: &Tree) -> bool
    ensures { result ≡ begins_body tail.now.under }
{
    match child_at(tail, 0) {
        Child::Node(inner) => is_node(inner.label(), Production::FunBody),
        Child::Token(_) => false,
        Child::End => false,
    }
}

// Where the first list of a declarator ends.
fn push_first_list(declarator: &Tree, out: &mut Vec<u32>) -> Result<(), Memory>
    ensures { OnOk result (out.new.items ≡ out.old.items ++ option_map_or (λ k. k ∷ []) (first_list declarator.now.under) []) }
{
    if let Some(close) = first_list(declarator) {
        out.push(close)?;
    }
    Ok(())
}

// The same, if a body follows it.
fn push_list_before(declarator: &Tree, tail: &Tree, out: &mut Vec<u32>) -> Result<(), Memory>
    ensures { OnOk result (out.new.items ≡ out.old.items ++ (if begins_body tail.now.under then option_map_or (λ k. k ∷ []) (first_list declarator.now.under) [] else [])) }
{
    if begins_body(tail) {
        push_first_list(declarator, out)
    } else {
        Ok(())
    }
}

// The same for a declarator and what follows it.
fn push_body_list(tree: &Tree, out: &mut Vec<u32>) -> Result<(), Memory>
    ensures { OnOk result (out.new.items ≡ out.old.items ++ body_list tree.now.under) }
{
    match child_at(tree, 0) {
        Child::Node(declarator) => match child_at(tree, 1) {
            Child::Node(tail) => push_list_before(declarator, tail, out),
            Child::Token(_) => Ok(()),
            Child::End => Ok(()),
        },
        Child::Token(_) => Ok(()),
        Child::End => Ok(()),
    }
}

// The same for all definitions below a node.
#[cycle(lists)]
fn push_body_lists(tree: &Tree, out: &mut Vec<u32>) -> Result<(), Memory>
    ensures { OnOk result (out.new.items ≡ out.old.items ++ body_lists_in tree.now.under) }
{
    let count = tree.len();
    'children: for k in 0..count {
        push_body_lists_at(tree, k, out)?;
    }
    Ok(())
}

#[cycle(lists)]
fn push_body_lists_at(tree: &Tree, k: u32, out: &mut Vec<u32>) -> Result<(), Memory>
    ensures { OnOk result (out.new.items ++ body_lists_in (from_child (k + 1) tree.now.under) ≡ out.old.items ++ body_lists_in (from_child k tree.now.under)) }
{
    match child_at(tree, k) {
        Child::End => Ok(()),
        Child::Token(_) => Ok(()),
        Child::Node(inner) => {
            if is_node(inner.label(), Production::ExtRest) {
                push_body_list(inner, out)
            } else {
                push_body_lists(inner, out)
            }
        }
    }
}

/// Where the lists of a unit end whose names bodies begin with.
pub(crate) fn body_lists(alloc: Global, tree: &Tree) -> Result<Vec<u32>, Memory>
    ensures { IfOk result (λ ends. ends.items ≡ body_lists_in tree.now.under) }
{
    let mut out = Vec::new(alloc);
    push_body_lists(tree, &mut out)?;
    Ok(out)
}

fn holds_one(list: &List, ends: &[u32]) -> bool
    ensures { result ≡ list_any (is_inside list.now) ends.now }
{
    ends.iter().any(|k| list.begin < *k && *k < list.close)
}

/// `DeclarationInArgument` at an argument list, if such a list ends inside it.
pub(crate) fn body_at(
    a: &Analysis,
    toks: &[Tok],
    ends: &[u32],
    list: &List,
    first: Option<Offence>,
) -> Option<Offence>
    ensures { FirstThen a.now.value.table (standing cause.DeclarationInArgument (body_place toks.now ends.now list.now)) first result }
{
    if holds_one(list, ends) {
        at_token(a, toks, list.name, Cause::DeclarationInArgument, first)
    } else {
        first
    }
}
