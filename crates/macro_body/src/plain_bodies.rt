// Replacement lists of which nothing is made a string and nothing is pasted, as most are: what stands for their
// parts is put one behind the other.
ghost use Rattle.std.specs.Prelude.{◌≡◌, ◌++◌, ◌∷◌, [], true, IfOk};
ghost use Rattle.std.specs.List.{flat_map, list_all};
ghost use Rattle.macro_body.specs.Costs.{arguments};
ghost use Rattle.macro_body.specs.Hides.{hidden};
ghost use Rattle.macro_body.specs.PlainBodies.{is_kept as kept_part, is_plain as plain_chain, plain_for};
ghost use Rattle.macro_body.specs.Substitution.{tokens_for};

use crate::chains::{BodyPart, Chain, PartRole};
use crate::costs::argument;
use crate::hidden::{HiddenTok, HiddenToks, push_argument, put_in};
use crate::hide_set::HideSet;
use cs_base::{Memory, Tok};
use std::alloc::Global;

/// Whether nothing of these chains is made a string or pasted.
pub fn are_plain(chains: &[Chain]) -> bool
    ensures { result ≡ list_all plain_chain chains.now }
{
    chains.iter().all(|c| is_plain(c))
}

fn is_plain(chain: &Chain) -> bool
    ensures { result ≡ plain_chain chain.now }
{
    match chain.parts() {
        [part] => is_kept(part),
        _ => false,
    }
}

// Whether no string is made of a part.
fn is_kept(part: &BodyPart) -> bool
    ensures { result ≡ kept_part part.now }
{
    match part.role {
        PartRole::Quote(_) | PartRole::Rest(_) => false,
        _ => true,
    }
}

/// What stands for the parts of such chains, one behind the other.
pub fn plain_tokens(
    alloc: Global,
    name: &Tok,
    full: &[HiddenToks],
    chains: &[Chain],
) -> Result<Vec<HiddenTok>, Memory>
    ensures { IfOk result (λ v. v.items ≡ flat_map (plain_for name.now full.now) chains.now) }
{
    let mut all = Vec::with_capacity(alloc, chains.len())?;
    for chain in chains {
        push_chain(&mut all, alloc, name, full, chain)?;
    }
    Ok(all)
}

// Adds what stands for the part of a chain.
fn push_chain(
    all: &mut Vec<HiddenTok>,
    alloc: Global,
    name: &Tok,
    full: &[HiddenToks],
    chain: &Chain,
) -> Result<(), Memory>
    ensures { IfOk result (λ _. all.new.items ≡ all.old.items ++ plain_for name.now full.now chain.now) }
{
    match chain.parts() {
        [part] => push_part(all, alloc, name, full, part),
        _ => Ok(()),
    }
}

// Adds what stands for a part.
fn push_part(
    all: &mut Vec<HiddenTok>,
    alloc: Global,
    name: &Tok,
    full: &[HiddenToks],
    part: &BodyPart,
) -> Result<(), Memory>
    ensures { IfOk result (λ _. all.new.items ≡ all.old.items ++ tokens_for name.now (arguments [] full.now) true part.now) }
{
    match part.role {
        PartRole::Param(number) => push_argument(all, alloc, &part.tok, argument(full, number)),
        PartRole::Quote(_) | PartRole::Rest(_) => Ok(()),
        _ => push_alone(all, alloc, put_in(name, part.tok.gap(), &part.tok)?),
    }
}

// Adds a token with an empty hide set.
fn push_alone(all: &mut Vec<HiddenTok>, alloc: Global, tok: Tok) -> Result<(), Memory>
    ensures { IfOk result (λ _. all.new.items ≡ all.old.items ++ hidden tok [] ∷ []) }
{
    all.push(HiddenTok::new(tok, HideSet::new(alloc)))?;
    Ok(())
}
