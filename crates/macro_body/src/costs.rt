// What a replacement costs of the work that is left.
ghost use Rattle.std.specs.Prelude.{◌≡◌, [], get_or, length};
ghost use Rattle.cs_base.specs.Token.{Token};
ghost use Rattle.macro_body.specs.Substitution.{part_cost, chain_cost, cost_of, rest_for};
ghost use Rattle.macro_body.specs.Costs.{left_of, arguments};

use crate::chains::{BodyPart, Chain, PartRole};
use crate::hidden::{HiddenTok, HiddenToks};
use cs_base::Tok;

/// The work that is left behind a replacement, or none where it costs more than there is.
pub fn work_left(
    work: u32,
    name: &Tok,
    raw: &[HiddenToks],
    full: &[HiddenToks],
    chains: &[Chain],
) -> Option<u32>
    ensures { result ≡ left_of work (cost_of name.now (arguments raw.now full.now) chains.now) }
{
    let mut left = left_behind(work, 1)?;
    for chain in chains {
        left = left_behind_chain(left, name, raw, full, chain)?;
    }
    Some(left)
}

/// The argument with this number: no tokens where there is none.
pub fn argument(arguments: &[HiddenToks], number: usize) -> &[HiddenTok]
    ensures { result.now ≡ get_or arguments.now number [] }
{
    match arguments.get(number) {
        Some(argument) => argument.as_slice(),
        None => &[],
    }
}

// The work that is left behind a cost.
fn left_behind(work: u32, cost: usize) -> Option<u32>
    ensures { result ≡ left_of work cost }
{
    if (work as usize) < cost {
        None
    } else {
        Some(work - cost as u32)
    }
}

// The work that is left behind a chain.
fn left_behind_chain(
    work: u32,
    name: &Tok,
    raw: &[HiddenToks],
    full: &[HiddenToks],
    chain: &Chain,
) -> Option<u32>
    ensures { result ≡ left_of work (chain_cost name.now (arguments raw.now full.now) chain.now) }
{
    let lone = chain.is_alone();
    let parts = chain.parts();
    let mut left = left_behind(work, parts.len().saturating_sub(1))?;
    for part in parts {
        left = left_behind(left, part_cost(name, raw, full, lone, part))?;
    }
    Some(left)
}

// How many tokens stand for a part.
fn part_cost(
    name: &Tok,
    raw: &[HiddenToks],
    full: &[HiddenToks],
    lone: bool,
    part: &BodyPart,
) -> usize
    ensures { result ≡ part_cost name.now (arguments raw.now full.now) lone part.now }
{
    match part.role {
        PartRole::Param(number) => {
            if lone {
                argument(full, number).len()
            } else {
                argument(raw, number).len()
            }
        }
        PartRole::Rest(number) => rest_cost(raw, number),
        _ => 1,
    }
}

// How many tokens stand for a comma and the variable arguments behind it.
fn rest_cost(raw: &[HiddenToks], number: usize) -> usize
    ensures { (name comma : Token) → result ≡ length (rest_for name comma raw.now number) }
{
    if number < raw.len() {
        argument(raw, number).len() + 1
    } else {
        0
    }
}
