// What is known where a node of GNU C begins.
ghost use Rattle.std.specs.Prelude.{◌≡◌, ◌==◌, if◌then◌else◌, IfOk};
ghost use Rattle.c_types.specs.Types.{arithmetic, nothing, pointer};
ghost use Rattle.gnu_bind.specs.Walk.{has_braces, value_type, type_in, frame_begun};
ghost use Rattle.scope_bind.specs.Below.name_chains.Entering.{found_in};

use crate::alone::stands_alone;
use crate::senses::{Special, begins_with_two, is_value};
use c_types::{Base, CType, Frame, is_node};
use c99_tree::{Label, Production, Tree};
use cs_base::Memory;
use scope_bind::Facts;
use std::alloc::Global;

// Braces follow `struct` or `union`, perhaps with nothing in them.
fn has_braces(tree: &Tree) -> bool
    ensures { result ≡ has_braces tree.now.label tree.now.under }
{
    is_node(tree.label(), Production::SuRest)
        && (tree.label().alternative == 2 || begins_with_two(tree))
}

fn unary_type(alloc: Global, label: Label) -> Result<CType, Memory>
    ensures { IfOk result (λ t. t ≡ (if label.alternative == 4 then pointer nothing else arithmetic)) }
{
    if label.alternative == 4 {
        CType::plain(alloc, Base::Nothing).pointer()
    } else {
        Ok(CType::plain(alloc, Base::Arithmetic))
    }
}

fn value_type(alloc: Global, special: Special) -> CType
    ensures { result ≡ value_type special }
{
    if is_value(special) {
        CType::plain(alloc, Base::Nothing)
    } else {
        CType::plain(alloc, Base::Arithmetic)
    }
}

// The type that a node begins with, where this is what the standards give it. The facts are read by the clauses alone.
fn type_in(
    _facts: &Facts<'_>,
    alloc: Global,
    label: Label,
    special: Special,
    f: &Frame,
    standard: CType,
) -> Result<CType, Memory>
    requires standard { standard ≡ found_in _facts.now.toks label.production label f.now _facts.now.facts }
    ensures { IfOk result (λ t. t ≡ type_in _facts.now.toks label.production label special f.now _facts.now.facts) }
{
    match label.production {
        Production::Primary => {
            if label.alternative == 6 {
                Ok(CType::plain(alloc, Base::Unknown))
            } else {
                Ok(standard)
            }
        }
        Production::Unary => unary_type(alloc, label),
        Production::MemberPath => f.found.copied(),
        Production::AutoDecl => Ok(CType::plain(alloc, Base::Unknown)),
        Production::Block => Ok(value_type(alloc, special)),
        Production::BlockItem => Ok(value_type(alloc, special)),
        Production::Statement => Ok(value_type(alloc, special)),
        _ => Ok(standard),
    }
}

/// The frame of a node of this sense.
#[inline(never)]
pub(crate) fn frame_begun(
    facts: &Facts<'_>,
    alloc: Global,
    tree: &Tree,
    special: Special,
    f: &Frame,
) -> Result<Frame, Memory>
    ensures { IfOk result (λ child. child ≡ frame_begun facts.now.toks tree.now.label tree.now.under special f.now facts.now.facts) }
{
    let mut child = facts.frame_in(alloc, tree, f)?;
    let found = type_in(
        facts,
        alloc,
        tree.label(),
        special,
        f,
        child.found.copied()?,
    )?;
    child.found = found;
    child.alone = stands_alone(tree, f, child.alone);
    child.has_body = child.has_body || has_braces(tree);
    Ok(child)
}
