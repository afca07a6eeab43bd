// Function definitions, as the tree shows them (ISO/IEC 9899:1999, 6.9.1).
ghost use Rattle.std.specs.Prelude.{◌≡◌, ◌+◌, ◌++◌, Some, OnOk};
ghost use Rattle.std.specs.Option.{option_map};
ghost use Rattle.c_types.specs.Children.{from_child};
ghost use Rattle.c_types.specs.Lists.{definition_in, bodies_in};
ghost use Rattle.c_types.specs.Shapes.{definition_by, definition_of};

use crate::declarators::name_below;
use crate::lists::Range;
use crate::shapes::{first_node, second_node};
use crate::trees::{Part, child_at, first_token, is_node, last_token};
use c99_tree::{Production, Tree};
use cs_base::Memory;

fn push_body(name: Option<u32>, first: Option<&Tree>, out: &mut Vec<Range>) -> Result<(), Memory>
    ensures { OnOk result (out.new.items ≡ out.old.items ++ definition_by name (option_map (λ t. t.now) first.entry)) }
{
    match name {
        Some(index) => match first {
            Some(body) => push_braces(index, body, out),
            None => Ok(()),
        },
        None => Ok(()),
    }
}

fn push_braces(name: u32, body: &Tree, out: &mut Vec<Range>) -> Result<(), Memory>
    ensures { OnOk result (out.new.items ≡ out.old.items ++ definition_by (Some name) (Some body.now)) }
{
    if is_node(body.label(), Production::FunBody) {
        out.push(Range {
            name,
            from: first_token(body, 0),
            to: last_token(body, 0),
        })?;
    }
    Ok(())
}

fn push_definition_of(
    declarator: Option<&Tree>,
    tail: Option<&Tree>,
    out: &mut Vec<Range>,
) -> Result<(), Memory>
    ensures { OnOk result (out.new.items ≡ out.old.items ++ definition_of (option_map (λ t. t.now) declarator.entry) (option_map (λ t. t.now) tail.entry)) }
{
    match declarator {
        Some(named) => match tail {
            Some(rest) => push_body(name_below(named), first_node(rest), out),
            None => Ok(()),
        },
        None => Ok(()),
    }
}

#[tactic(auto, using(crate::proofs::ShapeLemmas::definition_shape))]
fn push_definition(tree: &Tree, out: &mut Vec<Range>) -> Result<(), Memory>
    ensures { OnOk result (out.new.items ≡ out.old.items ++ definition_in tree.now.under) }
{
    push_definition_of(first_node(tree), second_node(tree), out)
}

/// The bodies of functions, in order of their names.
#[cycle(bodies)]
pub fn push_bodies(tree: &Tree, out: &mut Vec<Range>) -> Result<(), Memory>
    ensures { OnOk result (out.new.items ≡ out.old.items ++ bodies_in tree.now.under) }
{
    let count = tree.len();
    'children: for k in 0..count {
        push_bodies_at(tree, k, out)?;
    }
    Ok(())
}

#[cycle(bodies)]
fn push_bodies_at(tree: &Tree, k: u32, out: &mut Vec<Range>) -> Result<(), Memory>
    ensures { OnOk result (out.new.items ++ bodies_in (from_child (k + 1) tree.now.under) ≡ out.old.items ++ bodies_in (from_child k tree.now.under)) }
{
    match child_at(tree, k) {
        Part::End => Ok(()),
        Part::Token(_) => Ok(()),
        Part::Node(inner) => {
            if is_node(inner.label(), Production::ExtRest) {
                push_definition(inner, out)
            } else {
                push_bodies(inner, out)
            }
        }
    }
}
