// A token of GNU C is read.
ghost use Rattle.std.specs.Prelude.{◌≡◌, IfOk, OnOk};
ghost use Rattle.c_types.specs.Tags.{number_in};
ghost use Rattle.scope_bind.specs.Known.{known};
ghost use Rattle.scope_bind.specs.Below.name_chains.Frames.{state};
ghost use Rattle.gnu_bind.specs.Walk.{facts_by, type_by, place_by, read};

use crate::block_labels::{declare_block_label, jump, label};
use crate::names::{name_type, path_type, read_name, read_path};
use crate::roles::{GnuRole, role_in};
use crate::senses::{Sense, away};
use c_types::{Base, CType, Frame, Position};
use cs_base::Memory;
use scope_bind::Facts;
use std::alloc::Global;

// The number of a structure, union or enumeration.
fn number_in(t: &CType) -> u32
    ensures { result ≡ number_in t.now }
{
    match t.base() {
        Base::Structure(n) => n,
        Base::Union(n) => n,
        Base::Enumeration(n) => n,
        _ => 0,
    }
}

// What a token of the role does.
fn facts_by(
    facts: &mut Facts<'_>,
    alloc: Global,
    role: GnuRole,
    sense: Sense,
    i: u32,
    f: &Frame,
) -> Result<(), Memory>
    ensures { OnOk result (facts.new ≡ known facts.old.toks (facts_by facts.old.toks role sense i f.now facts.old.facts)) }
{
    match role {
        GnuRole::Standard(standard) => facts.read(alloc, standard, i, f),
        GnuRole::Name => read_name(facts, alloc, sense.special, f, i),
        GnuRole::BlockLabel => declare_block_label(facts, alloc, f.scope, i),
        GnuRole::Label => label(facts, alloc, sense, f, i),
        GnuRole::Jump => jump(facts, sense, i),
        GnuRole::Address => jump(facts, away(sense, f), i),
        GnuRole::Path => read_path(facts, f, i),
        GnuRole::Brace => facts.complete(number_in(&f.found)),
    }
}

// The type of the node, once such a token is read.
fn type_by(
    facts: &Facts<'_>,
    alloc: Global,
    role: GnuRole,
    sense: Sense,
    i: u32,
    f: &Frame,
) -> Result<CType, Memory>
    ensures { IfOk result (λ t. t ≡ type_by facts.now.toks role sense i f.now facts.now.facts) }
{
    match role {
        GnuRole::Standard(standard) => facts.found_at(alloc, standard, i, f),
        GnuRole::Name => name_type(alloc, facts, sense.special, f, i),
        GnuRole::Path => path_type(alloc, facts, f, i),
        GnuRole::BlockLabel => f.found.copied(),
        GnuRole::Label => f.found.copied(),
        GnuRole::Jump => f.found.copied(),
        GnuRole::Address => f.found.copied(),
        GnuRole::Brace => f.found.copied(),
    }
}

// The next place in a brace list, once such a token is read.
fn place_by(facts: &Facts<'_>, role: GnuRole, i: u32, f: &Frame) -> Result<Position, Memory>
    ensures { IfOk result (λ p. p ≡ place_by facts.now.toks role i f.now facts.now.facts) }
{
    match role {
        GnuRole::Standard(standard) => facts.position_at(standard, i, f),
        _ => Ok(f.position),
    }
}

/// A token is read, in a node of this sense.
#[inline(never)]
pub(crate) fn read(
    facts: &mut Facts<'_>,
    alloc: Global,
    sense: Sense,
    i: u32,
    f: &mut Frame,
) -> Result<(), Memory>
    ensures toks { OnOk result (facts.new.toks ≡ facts.old.toks) }
    ensures read { OnOk result (state facts.new.facts f.new ≡ read facts.old.toks sense i (state facts.old.facts f.old)) }
{
    let role = role_in(f.label.production, f.label.alternative, f.nth);
    let nth = match f.nth.checked_add(1) {
        Some(nth) => nth,
        None => return Err(Memory),
    };
    let found = type_by(facts, alloc, role, sense, i, f)?;
    let position = place_by(facts, role, i, f)?;
    facts_by(facts, alloc, role, sense, i, f)?;
    f.nth = nth;
    f.token = i;
    f.found = found;
    f.position = position;
    Ok(())
}
