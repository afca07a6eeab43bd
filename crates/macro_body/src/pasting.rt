// The operator ## in a replacement list (6.10.3.3).
ghost use Rattle.std.specs.Prelude.{◌≡◌, ◌++◌, [], IfOk};
ghost use Rattle.cs_base.specs.Answer.{Gives, result_map_err};
ghost use Rattle.paste_origin.specs.Pasting.{glue_of};
ghost use Rattle.macro_body.specs.Notes.{NotOneToken};
ghost use Rattle.macro_body.specs.Substitution.{token_pasted, pasted_behind, two_pasted, chain_pasted, chains_pasted};
ghost use Rattle.macro_body.specs.Kept.{made_kept};
ghost use Rattle.macro_body.specs.Faults.{fault_of};
ghost use Rattle.macro_body.specs.Pastable.{is_wholly_traced as wholly_traced, must_be_traced as traced_kind, is_pastable as pastable};

use crate::fault::ExpandFault;
use crate::hidden::{HiddenTok, only, put_in};
use crate::notes::Notes;
use crate::operands::Operands;
use cs_base::{Kind, Memory, Tok};
use lexer::one_token;
use paste_origin::{GlueRefusal, glue};
use std::alloc::Global;

/// Each chain pasted, and all one behind the other.
pub fn chains_pasted(
    alloc: Global,
    name: &Tok,
    chains: Vec<Operands>,
    notes: &mut Notes,
) -> Result<Vec<HiddenTok>, ExpandFault>
    ensures answer { Gives (λ v. (v.items, notes.new)) fault_of result (made_kept notes.old (chains_pasted name.now chains.items)) }
{
    let mut all = Vec::new(alloc);
    for chain in chains {
        append(&mut all, chain_pasted(alloc, name, chain, notes)?)?;
    }
    Ok(all)
}

// A chain, pasted from left to right.
fn chain_pasted(
    alloc: Global,
    name: &Tok,
    chain: Operands,
    notes: &mut Notes,
) -> Result<Vec<HiddenTok>, ExpandFault>
    ensures answer { Gives (λ v. (v.items, notes.new)) fault_of result (made_kept notes.old (chain_pasted name.now [] chain)) }
{
    let mut left = Vec::new(alloc);
    for operand in chain.into_operands() {
        left = two_pasted(alloc, name, left, operand.into_toks(), notes)?;
    }
    Ok(left)
}

// Two operands of `##`: the last token of the left one and the first of the right one become one.
fn two_pasted(
    alloc: Global,
    name: &Tok,
    left: Vec<HiddenTok>,
    right: Vec<HiddenTok>,
    notes: &mut Notes,
) -> Result<Vec<HiddenTok>, ExpandFault>
    ensures answer { Gives (λ v. (v.items, notes.new)) fault_of result (made_kept notes.old (two_pasted name.now left.items right.items)) }
{
    let mut left = left;
    match left.pop() {
        None => Ok(right),
        Some(last) => {
            append(&mut left, pasted_behind(alloc, name, last, right, notes)?)?;
            Ok(left)
        }
    }
}

// A token and an operand behind it: an empty one leaves the token as it is.
fn pasted_behind(
    alloc: Global,
    name: &Tok,
    last: HiddenTok,
    right: Vec<HiddenTok>,
    notes: &mut Notes,
) -> Result<Vec<HiddenTok>, ExpandFault>
    ensures answer { Gives (λ v. (v.items, notes.new)) fault_of result (made_kept notes.old (pasted_behind name.now last [] right.items)) }
{
    let mut right = right;
    if right.is_empty() {
        return Ok(only(alloc, last)?);
    }
    let made = token_pasted(alloc, name, &last, &right[0], notes)?;
    right[0] = made;
    Ok(right)
}

// Adds tokens.
fn append(toks: &mut Vec<HiddenTok>, more: Vec<HiddenTok>) -> Result<(), Memory>
    ensures { IfOk result (λ _. toks.new.items ≡ toks.old.items ++ more.items) }
{
    let mut more = more;
    toks.append(&mut more)?;
    Ok(())
}

// The token that a `##` makes of two.
fn token_pasted(
    alloc: Global,
    name: &Tok,
    x: &HiddenTok,
    y: &HiddenTok,
    notes: &mut Notes,
) -> Result<HiddenTok, ExpandFault>
    ensures answer { Gives (λ z. (z, notes.new)) fault_of result (made_kept notes.old (token_pasted name.now x.now y.now (glue_of x.now.tok y.now.tok))) }
{
    let glued = glued(alloc, name, x.tok(), y.tok())?;
    let made = put_in(name, x.tok().gap(), &glued)?;
    notes.note_pasted(&made)?;
    Ok(HiddenTok::new(made, x.hides().common(alloc, y.hides())?))
}

// The token that two make, or the fault at the name. No `Tok` can be an identifier or a pp-number with a
// character that has no origin, and no tokens of source files make one: it is answered by `Memory`.
fn glued(alloc: Global, name: &Tok, x: &Tok, y: &Tok) -> Result<Tok, ExpandFault>
    ensures answer { Gives (λ t. t) fault_of result (result_map_err (λ _. NotOneToken name.now.at) (glue_of x.now y.now)) }
{
    if !is_pastable(alloc, x, y)? {
        return Err(ExpandFault::Memory);
    }
    match glue(alloc, x, y) {
        Ok(made) => Ok(made),
        Err(GlueRefusal::NotOneToken) => Err(ExpandFault::NotOneToken { at: name.at() }),
        Err(GlueRefusal::Memory) => Err(ExpandFault::Memory),
    }
}

// Whether each character of both tokens has an origin, or what they make together needs none.
fn is_pastable(alloc: Global, x: &Tok, y: &Tok) -> Result<bool, Memory>
    ensures { IfOk result (λ is. is ≡ pastable x.now y.now) }
{
    if is_wholly_traced(x) && is_wholly_traced(y) {
        return Ok(true);
    }
    let mut text = Vec::from_slice(alloc, x.text())?;
    text.extend_from_slice(y.text())?;
    Ok(!must_be_traced(one_token(text.as_slice())))
}

// Whether each character of a token has an origin.
fn is_wholly_traced(tok: &Tok) -> bool
    ensures { result ≡ wholly_traced tok.now }
{
    for k in 0..tok.text().len() as u32 {
        if tok.origins(k).is_none() {
            return false;
        }
    }
    true
}

// Whether each character of a token of this kind must have an origin.
fn must_be_traced(kind: Option<Kind>) -> bool
    ensures { result ≡ traced_kind kind }
{
    match kind {
        Some(Kind::Ident | Kind::Number) => true,
        _ => false,
    }
}
