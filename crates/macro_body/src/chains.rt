// Replacement lists as chains of operands (6.10.3, 6.10.3.2 and 6.10.3.3).
ghost use Rattle.std.specs.Prelude.{◌≡◌, ◌++◌, ◌∷◌, [], List, Some, IfOk, IsTrue, map, false};
ghost use Rattle.std.specs.List.{list_all};
ghost use Rattle.macro_body.specs.Bodies.{Part, is_operator as operator_part, lone_part, quote_or, parts_from, chains_in, is_number, is_plain_comma, rest_param, rest_of, rest_or, rest_or_chain, chains_of, is_lone as lone_parameter, occurs_alone};
ghost use Rattle.macro_body.specs.Substitution.{is_alone as alone_chain};
ghost use Rattle.macro_body.specs.BodyParts.{part_as, onto_last, behind_operand, with_parts};
ghost use Rattle.macro_body.specs.ChainParts.{parts_in};
ghost use Rattle.macro_body.specs.Sound.{is_traced, chains_traced};

use crate::definitions::Definition;
use crate::parameters::{parameter_at, quoted_parameter, rest_number};
use crate::shared_tokens::shared;
use cs_base::{Memory, Tok};
use line_shape::{is_comma, is_paste};
use std::alloc::Global;
use std::marker::Model;
use std::slice;

/// What a token of a replacement list is: a token that stays, a parameter with its number, a `#` with
/// the number of the parameter behind it, a `##`, or in GNU C a comma with the variable arguments behind it
/// and `##` between them.
#[derive(Clone, Copy, Debug, PartialEq, Eq)]
pub enum PartRole {
    Plain,
    Param(usize),
    Quote(usize),
    Paste,
    Rest(usize),
}

/// A part of a replacement list.
#[derive(Drop)]
pub struct BodyPart {
    pub tok: Tok,
    pub role: PartRole,
}

impl Model for BodyPart {
    ghost use Rattle.macro_body.specs.Bodies.{Part};
    ghost use Rattle.macro_body.specs.BodyParts.{part_as};

    ghost Value = { Part };

    ghost view = { λ p. part_as p.tok p.role };
}

/// The parts of a chain: most have one, which then takes no memory of its own.
#[derive(Drop)]
enum Parts {
    Lone(BodyPart),
    Joined(Vec<BodyPart>),
}

/// Operands with `##` between them, or one alone.
#[derive(Drop)]
pub struct Chain {
    parts: Parts,
}

impl Model for Chain {
    ghost use Rattle.std.specs.Prelude.{List};
    ghost use Rattle.macro_body.specs.Bodies.{Part};
    ghost use Rattle.macro_body.specs.ChainParts.{parts_in};

    ghost Value = { List Part };

    ghost view = { λ c. parts_in c.parts };
}

impl Chain {
    pub fn parts(&self) -> &[BodyPart]
        ensures { result.now ≡ self.now }
    {
        match &self.parts {
            Parts::Lone(part) => slice::from_ref(part),
            Parts::Joined(parts) => parts.as_slice(),
        }
    }

    /// Whether the chain has one operand.
    pub fn is_alone(&self) -> bool
        ensures { result ≡ alone_chain self.now }
    {
        is_alone(self.parts())
    }
}

fn is_alone(parts: &[BodyPart]) -> bool
    ensures { result ≡ alone_chain parts.now }
{
    match parts {
        [_] => true,
        _ => false,
    }
}

/// The chains of a macro's replacement list.
pub fn chains_of(alloc: Global, m: &Definition) -> Result<Vec<Chain>, Memory>
    ensures answer { IfOk result (λ chains. chains.items ≡ chains_of m.now) }
    ensures traced { IfOk result (λ chains. IsTrue (list_all is_traced m.now.body) → IsTrue (chains_traced chains.items)) }
{
    let chains = read_chains(alloc, m)?;
    if m.gnu {
        with_rests(alloc, m, chains)
    } else {
        Ok(chains)
    }
}

// Chains, each of which is one part where it is a comma and the variable arguments.
fn with_rests(alloc: Global, m: &Definition, chains: Vec<Chain>) -> Result<Vec<Chain>, Memory>
    ensures { IfOk result (λ all. all.items ≡ map (rest_or_chain m.now) chains.items) }
{
    let mut all = Vec::with_capacity(alloc, chains.len())?;
    for chain in chains {
        all.push(rest_or_chain(alloc, m, chain)?)?;
    }
    Ok(all)
}

fn rest_or_chain(alloc: Global, m: &Definition, chain: Chain) -> Result<Chain, Memory>
    ensures { IfOk result (λ c. c ≡ rest_or_chain m.now chain) }
{
    match rest_of(m, chain.parts()) {
        Some(number) => rest_chain(alloc, chain.parts(), number),
        None => Ok(chain),
    }
}

// The part that a comma and the variable arguments with this number are.
fn rest_chain(alloc: Global, parts: &[BodyPart], number: usize) -> Result<Chain, Memory>
    ensures { IfOk result (λ c. c ≡ rest_or parts.now (Some number)) }
{
    match parts {
        [] => Ok(Chain {
            parts: Parts::Joined(Vec::new(alloc)),
        }),
        [comma, ..] => Ok(Chain {
            parts: Parts::Lone(BodyPart {
                tok: shared(&comma.tok)?,
                role: PartRole::Rest(number),
            }),
        }),
    }
}

// The number of the variable arguments, where these parts are a comma and these.
fn rest_of(m: &Definition, parts: &[BodyPart]) -> Option<usize>
    ensures { result ≡ rest_of m.now parts.now }
{
    match parts {
        [comma, last] => {
            if m.gnu && is_plain_comma(comma) {
                rest_param(m, last)
            } else {
                None
            }
        }
        _ => None,
    }
}

// The same, if a part is these.
fn rest_param(m: &Definition, part: &BodyPart) -> Option<usize>
    ensures { result ≡ rest_param m.now part.now }
{
    match part.role {
        PartRole::Param(number) => {
            if is_number(number, rest_number(m)) {
                Some(number)
            } else {
                None
            }
        }
        _ => None,
    }
}

fn is_number(number: usize, other: Option<usize>) -> bool
    ensures { result ≡ is_number number other }
{
    match other {
        None => false,
        Some(other) => number == other,
    }
}

fn is_plain_comma(part: &BodyPart) -> bool
    ensures { result ≡ is_plain_comma part.now }
{
    match part.role {
        PartRole::Plain => is_comma(&part.tok),
        _ => false,
    }
}

// The chains of a replacement list as the standard has them.
fn read_chains(alloc: Global, m: &Definition) -> Result<Vec<Chain>, Memory>
    ensures { IfOk result (λ chains. chains.items ≡ chains_in (parts_from m.now false m.now.body)) }
{
    let body = m.body.as_slice();
    let mut reading = Reading {
        chains: Vec::with_capacity(alloc, body.len())?,
        taken: false,
        operand: true,
    };
    for k in 0..body.len() {
        reading.read(alloc, m, &body[k], &body[k + 1..])?;
    }
    Ok(reading.chains)
}

/// Whether a parameter occurs other than as an operand of `#` or `##` (6.10.3.1).
pub fn occurs_alone(number: usize, chains: &[Chain]) -> bool
    ensures { result ≡ occurs_alone number chains.now }
{
    chains.iter().any(|c| is_lone(number, c))
}

// Whether a chain is this parameter alone.
fn is_lone(number: usize, chain: &Chain) -> bool
    ensures { result ≡ lone_parameter number chain.now }
{
    match chain.parts() {
        [part] => is_parameter(number, part),
        _ => false,
    }
}

// Whether a part is this parameter.
fn is_parameter(number: usize, part: &BodyPart) -> bool
    ensures { result ≡ lone_parameter number (part.now ∷ []) }
{
    match part.role {
        PartRole::Param(other) => number == other,
        _ => false,
    }
}

// How far a replacement list is read: the chains so far, whether the next token belongs to the part
// before, and whether the next part is an operand whatever it is: the first one, and one behind a `##`.
#[derive(Drop)]
struct Reading {
    chains: Vec<Chain>,
    taken: bool,
    operand: bool,
}

impl Reading {
    // Reads a token, these standing behind it.
    fn read(
        &mut self,
        alloc: Global,
        m: &Definition,
        tok: &Tok,
        behind: &[Tok],
    ) -> Result<(), Memory>
        ensures { IfOk result (λ _. with_parts self.new.operand self.new.chains.items (parts_from m.now self.new.taken behind.now) ≡ with_parts self.old.operand self.old.chains.items (parts_from m.now self.old.taken (tok.now ∷ behind.now))) }
    {
        if self.taken {
            self.taken = false;
            return Ok(());
        }
        let quoted = quoted_parameter(m, tok, behind);
        self.taken = quoted.is_some();
        let part = BodyPart {
            tok: shared(tok)?,
            role: role_of(m, tok, quoted),
        };
        self.operand = add_part(alloc, &mut self.chains, self.operand, part)?;
        Ok(())
    }
}

// Adds a part to the chains, and says whether the next one is an operand whatever it is.
fn add_part(
    alloc: Global,
    chains: &mut Vec<Chain>,
    operand: bool,
    part: BodyPart,
) -> Result<bool, Memory>
    ensures { IfOk result (λ next. (ps : List Part) → with_parts next chains.new.items ps ≡ with_parts operand chains.old.items (part ∷ ps)) }
{
    if operand {
        add_operand(alloc, chains, part)?;
        return Ok(false);
    }
    if is_operator(&part) {
        return Ok(true);
    }
    begin_chain(chains, part)?;
    Ok(false)
}

// The operand goes on with the last chain, or is the first one.
fn add_operand(alloc: Global, chains: &mut Vec<Chain>, part: BodyPart) -> Result<(), Memory>
    ensures { IfOk result (λ _. (ps : List Part) → behind_operand chains.new.items ps ≡ onto_last chains.old.items (chains_in (part ∷ ps))) }
{
    match chains.pop() {
        None => begin_chain(chains, part),
        Some(last) => {
            chains.push(last.with(alloc, part)?)?;
            Ok(())
        }
    }
}

// Begins a chain with an operand.
fn begin_chain(chains: &mut Vec<Chain>, part: BodyPart) -> Result<(), Memory>
    ensures { IfOk result (λ _. chains.new.items ≡ chains.old.items ++ (part ∷ []) ∷ []) }
{
    let chain = Chain {
        parts: Parts::Lone(part),
    };
    chains.push(chain)?;
    Ok(())
}

// The parts in a list.
fn joined(alloc: Global, parts: Parts) -> Result<Vec<BodyPart>, Memory>
    ensures { IfOk result (λ all. all.items ≡ parts_in parts) }
{
    match parts {
        Parts::Joined(all) => Ok(all),
        Parts::Lone(part) => {
            let mut all = Vec::new(alloc);
            all.push(part)?;
            Ok(all)
        }
    }
}

impl Chain {
    // The chain with an operand behind it.
    fn with(self, alloc: Global, part: BodyPart) -> Result<Chain, Memory>
        ensures { IfOk result (λ c. c ≡ self ++ part ∷ []) }
    {
        let Chain { parts } = self;
        let mut all = joined(alloc, parts)?;
        all.push(part)?;
        Ok(Chain {
            parts: Parts::Joined(all),
        })
    }
}

fn is_operator(part: &BodyPart) -> bool
    ensures { result ≡ operator_part part.now }
{
    match part.role {
        PartRole::Paste => true,
        _ => false,
    }
}

// What a token is, with the number of the parameter that it makes a string of.
fn role_of(m: &Definition, tok: &Tok, quoted: Option<usize>) -> PartRole
    ensures { part_as tok.now result ≡ quote_or tok.now (lone_part m.now tok.now) quoted }
{
    match quoted {
        Some(number) => PartRole::Quote(number),
        None => lone_role(m, tok),
    }
}

// What a token is that is no `#` in front of a parameter.
fn lone_role(m: &Definition, tok: &Tok) -> PartRole
    ensures { part_as tok.now result ≡ lone_part m.now tok.now }
{
    if is_paste(tok) {
        return PartRole::Paste;
    }
    match parameter_at(m, tok) {
        Some(number) => PartRole::Param(number),
        None => PartRole::Plain,
    }
}
