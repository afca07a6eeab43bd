// The binding of a translation unit of GNU C, and that of one by its standard.
ghost use Rattle.std.specs.Prelude.{◌≡◌, IfOk, OnOk, ◌++◌};
ghost use Rattle.cs_base.specs.Answer.{Gives};
ghost use Rattle.c_types.specs.Lists.{lists_in, calls_in, bare_in};
ghost use Rattle.c_types.specs.Faults.{fault_of};
ghost use Rattle.scope_bind.specs.Known.{known};
ghost use Rattle.gnu_bind.specs.Bound.{facts_of, gnu_binding_of, binding_by};

use crate::senses::usual_sense;
use crate::walking::walk;
use c_types::{BindRefusal, Shown};
use c99_tree::Tree;
use cs_base::{Memory, Standard, Tok};
use scope_bind::{Bound, Facts, bound_unless, count_of, outermost};
use std::alloc::Global;

// What is known at the end of the unit. What its tree tells by itself is told as well.
fn facts_of<'a>(
    alloc: Global,
    toks: &'a [Tok],
    tree: &Tree,
    shown: &mut Shown,
) -> Result<Facts<'a>, Memory>
    ensures facts { IfOk result (λ f. f ≡ known toks.now (facts_of toks.now tree.now.under)) }
    ensures lists { OnOk result (shown.new.lists.items ≡ shown.old.lists.items ++ lists_in tree.now.under) }
    ensures calls { OnOk result (shown.new.calls.items ≡ shown.old.calls.items ++ calls_in tree.now.under) }
    ensures bare { OnOk result (shown.new.bare.items ≡ shown.old.bare.items ++ bare_in tree.now.under) }
{
    let mut frame = outermost(alloc, count_of(toks)?);
    let mut facts = Facts::new(alloc, toks)?;
    walk(&mut facts, alloc, usual_sense(), tree, &mut frame, shown)?;
    Ok(facts)
}

/// What each identifier of a translation unit of GNU C denotes, given the tree of its tokens, or the first fault: as
/// `bind` of `scope_bind` tells it, but for what GNU C adds.
///
/// Words, as the name of an attribute or of a function that is built in, are bound to nothing. A label is the innermost
/// block's that declares it, or the function's; outside a body it is `NoLabel`, and one that two statements have is
/// `Redeclared`. What a built-in function gives has an unknown type, which has no member: `NoMember`.
pub fn bind(alloc: Global, toks: &[Tok], tree: &Tree) -> Result<Bound, BindRefusal>
    ensures answer { Gives (λ b. b) fault_of result (gnu_binding_of toks.now tree.now) }
{
    let mut shown = Shown::new(alloc);
    let facts = facts_of(alloc, toks, tree, &mut shown)?;
    bound_unless(alloc, tree, &facts, shown)
}

/// What each identifier of a translation unit denotes by its standard, given the tree of its tokens, or the first fault.
pub fn bind_by(
    alloc: Global,
    toks: &[Tok],
    tree: &Tree,
    standard: Standard,
) -> Result<Bound, BindRefusal>
    ensures answer { Gives (λ b. b) fault_of result (binding_by standard toks.now tree.now) }
{
    match standard {
        Standard::C99 | Standard::C11 => scope_bind::bind(alloc, toks, tree),
        Standard::Gnu99 | Standard::Gnu11 => bind(alloc, toks, tree),
    }
}
