// Names that are parameters only since they are no typedef names (ISO/IEC 9899:1999, 6.7.5.3 paragraph 11).
ghost use Rattle.std.specs.Prelude.{◌≡◌, ◌++◌, OnOk};
ghost use Rattle.std.specs.Option.{option_map};
ghost use Rattle.c_types.specs.Lists.{name_in, bare_at};
ghost use Rattle.c_types.specs.Shapes.{name_by, name_in_direct, name_of_inner};

use crate::listing::push_odd;
use crate::shapes::{behind_token, first_node, leading_token};
use crate::trees::is_at;
use c99_tree::{Label, Production, Tree};
use cs_base::Memory;

fn push_name_by(direct: Label, index: Option<u32>, out: &mut Vec<u32>) -> Result<(), Memory>
    ensures { OnOk result (out.new.items ≡ out.old.items ++ name_by direct index) }
{
    match index {
        Some(name) => {
            if is_at(direct, Production::Pdirect, 1) {
                out.push(name)?;
            }
            Ok(())
        }
        None => Ok(()),
    }
}

fn push_name_direct(first: Option<&Tree>, out: &mut Vec<u32>) -> Result<(), Memory>
    ensures { OnOk result (out.new.items ≡ out.old.items ++ name_in_direct (option_map (λ t. t.now) first.entry)) }
{
    match first {
        Some(direct) => push_name_by(direct.label(), leading_token(direct), out),
        None => Ok(()),
    }
}

fn push_name_inner(behind: Option<&Tree>, out: &mut Vec<u32>) -> Result<(), Memory>
    ensures { OnOk result (out.new.items ≡ out.old.items ++ name_of_inner (option_map (λ t. t.now) behind.entry)) }
{
    match behind {
        Some(inner) => push_name_direct(first_node(inner), out),
        None => Ok(()),
    }
}

#[tactic(auto, using(crate::proofs::ShapeLemmas::name_shape))]
fn push_name(tree: &Tree, out: &mut Vec<u32>) -> Result<(), Memory>
    ensures { OnOk result (out.new.items ≡ out.old.items ++ name_in tree.now.under) }
{
    push_name_inner(behind_token(tree), out)
}

/// What a node tells of the names that are parameters only since they are no typedef names where they stand.
pub(crate) fn push_bare(tree: &Tree, out: &mut Vec<u32>) -> Result<(), Memory>
    ensures { OnOk result (out.new.items ≡ out.old.items ++ bare_at tree.now.label tree.now.under) }
{
    if is_at(tree.label(), Production::Params, 1) {
        push_odd(tree, 1, out)
    } else if is_at(tree.label(), Production::Pdirect, 2) {
        push_name(tree, out)
    } else {
        Ok(())
    }
}
