// The operands of a replacement list, strings made (6.10.3.1, 6.10.3.2).
ghost use Rattle.std.specs.Prelude.{◌≡◌, ◌<◌, ◌^◌, ◌++◌, ◌∷◌, [], length, IfOk, IsTrue};
ghost use Rattle.std.specs.List.{list_all};
ghost use Rattle.cs_base.specs.Answer.{Gives, result_map_err};
ghost use Rattle.paste_origin.specs.Strings.{stringize_of};
ghost use Rattle.macro_body.specs.Hides.{hidden, toks_of};
ghost use Rattle.macro_body.specs.Notes.{NotAString};
ghost use Rattle.macro_body.specs.Substitution.{put_in, is_alone, rest_for, tokens_for, string_made, operand_made, operands_made, chains_made};
ghost use Rattle.macro_body.specs.Kept.{made_kept};
ghost use Rattle.macro_body.specs.Faults.{fault_of};
ghost use Rattle.macro_body.specs.Sound.{is_argument};
ghost use Rattle.macro_body.specs.Costs.{arguments};

use crate::chains::{BodyPart, Chain, PartRole};
use crate::costs::argument;
use crate::fault::ExpandFault;
use crate::hidden::{HiddenTok, HiddenToks, argument_for, only, push_moved, put_in};
use crate::hide_set::HideSet;
use crate::notes::Notes;
use crate::shared_tokens::shared;
use cs_base::{Memory, Tok};
use paste_origin::{StrRefusal, stringize};
use std::alloc::Global;
use std::marker::Model;

/// The operands of a chain, strings made. Contracts see the list of their tokens.
#[derive(Drop)]
pub struct Operands {
    operands: Vec<HiddenToks>,
}

impl Model for Operands {
    ghost use Rattle.std.specs.Prelude.{List};
    ghost use Rattle.macro_body.specs.Hides.{Hidden};

    ghost Value = { List (List Hidden) };

    ghost view = { λ o. o.operands.items };
}

impl Operands {
    pub fn into_operands(self) -> Vec<HiddenToks>
        ensures { result.items ≡ self }
    {
        self.operands
    }
}

/// The operands of each chain.
pub fn chains_made(
    alloc: Global,
    name: &Tok,
    raw: &[HiddenToks],
    full: &[HiddenToks],
    chains: &[Chain],
    notes: &mut Notes,
) -> Result<Vec<Operands>, ExpandFault>
    requires raw_sound { IsTrue (list_all is_argument raw.now) }
    ensures answer { Gives (λ v. (v.items, notes.new)) fault_of result (made_kept notes.old (chains_made name.now (arguments raw.now full.now) chains.now)) }
{
    let mut made = Vec::new(alloc);
    for chain in chains {
        add(
            &mut made,
            operands_made(alloc, name, raw, full, chain, notes)?,
        )?;
    }
    Ok(made)
}

// The operands of a chain.
fn operands_made(
    alloc: Global,
    name: &Tok,
    raw: &[HiddenToks],
    full: &[HiddenToks],
    chain: &Chain,
    notes: &mut Notes,
) -> Result<Operands, ExpandFault>
    requires raw_sound { IsTrue (list_all is_argument raw.now) }
    ensures answer { Gives (λ v. (v, notes.new)) fault_of result (made_kept notes.old (operands_made name.now (arguments raw.now full.now) (is_alone chain.now) chain.now)) }
{
    let lone = chain.is_alone();
    let mut operands = Vec::new(alloc);
    for part in chain.parts() {
        add(
            &mut operands,
            operand_made(alloc, name, raw, full, lone, part, notes)?,
        )?;
    }
    Ok(Operands { operands })
}

// The tokens for an operand, strings made.
fn operand_made(
    alloc: Global,
    name: &Tok,
    raw: &[HiddenToks],
    full: &[HiddenToks],
    lone: bool,
    part: &BodyPart,
    notes: &mut Notes,
) -> Result<HiddenToks, ExpandFault>
    requires raw_sound { IsTrue (list_all is_argument raw.now) }
    ensures answer { Gives (λ v. (v, notes.new)) fault_of result (made_kept notes.old (operand_made name.now (arguments raw.now full.now) lone part.now)) }
{
    match part.role {
        PartRole::Quote(number) => {
            string_made(alloc, name, &part.tok, argument(raw, number), notes)
        }
        _ => Ok(HiddenToks::new(tokens_for(alloc, name, raw, full, lone, part)?)),
    }
}

// The tokens that stand for a part, a string being made later.
fn tokens_for(
    alloc: Global,
    name: &Tok,
    raw: &[HiddenToks],
    full: &[HiddenToks],
    lone: bool,
    part: &BodyPart,
) -> Result<Vec<HiddenTok>, Memory>
    ensures { IfOk result (λ toks. toks.items ≡ tokens_for name.now (arguments raw.now full.now) lone part.now) }
{
    match part.role {
        PartRole::Param(number) => {
            if lone {
                argument_for(alloc, &part.tok, argument(full, number))
            } else {
                argument_for(alloc, &part.tok, argument(raw, number))
            }
        }
        PartRole::Quote(_) => Ok(Vec::new(alloc)),
        PartRole::Rest(number) => rest_for(alloc, name, &part.tok, raw, number),
        _ => alone(alloc, put_in(name, part.tok.gap(), &part.tok)?),
    }
}

// The comma, and the variable arguments as they stand; nothing where a call has none of these.
fn rest_for(
    alloc: Global,
    name: &Tok,
    comma: &Tok,
    raw: &[HiddenToks],
    number: usize,
) -> Result<Vec<HiddenTok>, Memory>
    ensures { IfOk result (λ toks. toks.items ≡ rest_for name.now comma.now raw.now number) }
{
    if number >= raw.len() {
        return Ok(Vec::new(alloc));
    }
    let mut toks = alone(alloc, put_in(name, comma.gap(), comma)?)?;
    push_moved(&mut toks, alloc, argument(raw, number))?;
    Ok(toks)
}

// A token with an empty hide set.
fn alone(alloc: Global, tok: Tok) -> Result<Vec<HiddenTok>, Memory>
    ensures { IfOk result (λ toks. toks.items ≡ hidden tok [] ∷ []) }
{
    only(alloc, HiddenTok::new(tok, HideSet::new(alloc)))
}

// The string that a `#` makes of an argument.
fn string_made(
    alloc: Global,
    name: &Tok,
    sign: &Tok,
    argument: &[HiddenTok],
    notes: &mut Notes,
) -> Result<HiddenToks, ExpandFault>
    requires few { length argument.now < 2 ^ 32 }
    ensures answer { Gives (λ v. (v, notes.new)) fault_of result (made_kept notes.old (string_made name.now sign.now (toks_of argument.now) (stringize_of (toks_of argument.now)))) }
{
    let toks = toks_of(alloc, argument)?;
    let string = string_of(alloc, name, toks.as_slice())?;
    notes.note_stringized(toks.as_slice())?;
    Ok(HiddenToks::new(alone(alloc, put_in(name, sign.gap(), &string)?)?))
}

// The string of tokens, or the fault at the name.
fn string_of(alloc: Global, name: &Tok, toks: &[Tok]) -> Result<Tok, ExpandFault>
    requires few { length toks.now < 2 ^ 32 }
    ensures answer { Gives (λ t. t) fault_of result (result_map_err (λ _. NotAString name.now.at) (stringize_of toks.now)) }
{
    match stringize(alloc, toks) {
        Ok(string) => Ok(string),
        Err(StrRefusal::NotAString) => Err(ExpandFault::NotAString { at: name.at() }),
        Err(StrRefusal::Memory) => Err(ExpandFault::Memory),
    }
}

// The tokens alone.
fn toks_of(alloc: Global, argument: &[HiddenTok]) -> Result<Vec<Tok>, Memory>
    ensures { IfOk result (λ toks. toks.items ≡ toks_of argument.now) }
{
    let mut toks = Vec::new(alloc);
    for h in argument {
        toks.push(shared(h.tok())?)?;
    }
    Ok(toks)
}

// Adds a value to a list.
fn add<T: Drop>(list: &mut Vec<T>, value: T) -> Result<(), Memory>
    ensures { IfOk result (λ _. list.new.items ≡ list.old.items ++ value ∷ []) }
{
    list.push(value)?;
    Ok(())
}
