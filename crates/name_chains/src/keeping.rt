// Names of a parameter list that a body begins with (6.2.1 paragraph 4).
ghost use Rattle.std.specs.Prelude.{◌≡◌, ◌&&◌, ◌==◌, not, slice_get, IfOk};
ghost use Rattle.std.specs.Option.{option_and_then};
ghost use Rattle.name_chains.specs.Entering.{is_member, kept_here};
ghost use Rattle.name_chains.specs.Members.{lifted};

use c_types::{Declaration, Space};
use cs_base::Memory;
use std::alloc::Global;

fn is_member(space: Space) -> bool
    ensures { result ≡ is_member space }
{
    match space {
        Space::Members(_) => true,
        Space::Inner(_) => true,
        Space::Unnamed(_) => true,
        _ => false,
    }
}

// The declaration again, from one token to another.
fn moved(d: &Declaration, from: u32, to: u32) -> Result<Declaration, Memory>
    ensures { IfOk result (λ e. e ≡ record d.now { from = from; to = to }) }
{
    Ok(Declaration {
        space: d.space,
        name_at: d.name_at,
        entity: d.entity,
        kind: d.kind,
        linkage: d.linkage,
        ctype: d.ctype.copied()?,
        depth: d.depth,
        from,
        to,
        listed: d.listed,
    })
}

/// A name of an anonymous member, found among the members of the structure or union around it as well.
pub(crate) fn lifted(d: &Declaration, owner: u32) -> Result<Declaration, Memory>
    ensures { IfOk result (λ e. e ≡ lifted owner d.now) }
{
    Ok(Declaration {
        space: Space::Inner(owner),
        name_at: d.name_at,
        entity: d.entity,
        kind: d.kind,
        linkage: d.linkage,
        ctype: d.ctype.copied()?,
        depth: d.depth,
        from: d.from,
        to: d.to,
        listed: d.listed,
    })
}

fn is_kept(d: &Declaration, list: u32, depth: u32) -> bool
    ensures { result ≡ ((d.now.to == list) && ((d.now.depth == depth) && not (is_member d.now.space))) }
{
    d.to == list && (d.depth == depth && !is_member(d.space))
}

fn kept_here(
    d: &Declaration,
    list: u32,
    depth: u32,
    from: u32,
    to: u32,
) -> Result<Option<Declaration>, Memory>
    ensures { IfOk result (λ o. o ≡ kept_here list depth from to d.now) }
{
    if is_kept(d, list, depth) {
        Ok(Some(moved(d, from, to)?))
    } else {
        Ok(None)
    }
}

/// Declaration `k`, from one token to another, where it is one of the list.
pub(crate) fn kept_at(
    declared: &[Declaration],
    k: usize,
    list: u32,
    depth: u32,
    from: u32,
    to: u32,
) -> Result<Option<Declaration>, Memory>
    ensures { IfOk result (λ o. o ≡ option_and_then (kept_here list depth from to) (slice_get declared.now k)) }
{
    match declared.get(k) {
        Some(d) => kept_here(d, list, depth, from, to),
        None => Ok(None),
    }
}
