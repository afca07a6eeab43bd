// Whether tokens are read to a tree by GNU C, and bound so.
ghost use Rattle.std.specs.Prelude.{◌≡◌, IfOk, Ok};
ghost use Rattle.c99_read.specs.Answer.{stop_of};
ghost use Rattle.c_types.specs.Faults.{fault_of};
ghost use Rattle.same_readings.specs.Readings.{is_read_so, reads_so, IsRefused};

use crate::names::is_same_bound;
use crate::trees::is_same_tree;
use c99_read::{Dialect, ReadRefusal, read};
use c99_tree::Tree;
use cs_base::{Memory, Tok};
use gnu_bind::{BindRefusal, Bound, bind};
use std::alloc::Global;

/// Whether these tokens are read by GNU C to this tree, and bound so; 2^32 of them and more want too much memory.
pub fn reads_so(alloc: Global, toks: &[Tok], tree: &Tree, bound: &Bound) -> Result<bool, Memory>
    ensures { IfOk result (λ b. b ≡ reads_so toks.now tree.now bound.now) }
{
    if toks.len() > u32::MAX as usize {
        return Err(Memory);
    }
    match read(alloc, toks, Dialect::Gnu) {
        Ok(again) => binds_so(alloc, toks, &again, tree, bound),
        Err(refusal) => is_unread(refusal),
    }
}

// The same for tokens of which this tree was read.
fn binds_so(
    alloc: Global,
    toks: &[Tok],
    again: &Tree,
    tree: &Tree,
    bound: &Bound,
) -> Result<bool, Memory>
    ensures { IfOk result (λ b. b ≡ is_read_so toks.now tree.now bound.now (Ok again.now)) }
{
    if !is_same_tree(again, tree) {
        return Ok(false);
    }
    match bind(alloc, toks, again) {
        Ok(other) => Ok(is_same_bound(&other, bound)),
        Err(refusal) => is_unbound(refusal),
    }
}

// Nothing was read, or memory ran out.
fn is_unread(refusal: ReadRefusal) -> Result<bool, Memory>
    ensures { IfOk result (IsRefused (stop_of refusal)) }
{
    match refusal {
        ReadRefusal::Syntax { .. } | ReadRefusal::TooDeep { .. } => Ok(false),
        ReadRefusal::Memory => Err(Memory),
    }
}

// Nothing was bound, or memory ran out.
fn is_unbound(refusal: BindRefusal) -> Result<bool, Memory>
    ensures { IfOk result (IsRefused (fault_of refusal)) }
{
    match refusal {
        BindRefusal::Undeclared { .. }
        | BindRefusal::NoMember { .. }
        | BindRefusal::NoLabel { .. }
        | BindRefusal::Redeclared { .. }
        | BindRefusal::TagRedefined { .. }
        | BindRefusal::MixedLinkage { .. }
        | BindRefusal::DesignatorAfterElision { .. } => Ok(false),
        BindRefusal::Memory => Err(Memory),
    }
}
