// What stands at a place of a list of tokens.
ghost use Rattle.std.specs.Prelude.{◌≡◌, ◌<◌, length, IsTrue, IsSome};
ghost use Rattle.std.specs.Option.{option_copied};
ghost use Rattle.cond_eval.specs.Reading.{is_punct, operator_at, beginning_at, beginning_of, whole_or_nothing, punctuator_at};
ghost use Rattle.cond_eval.specs.Walk.{BeginsInside};

use crate::char_constant::char_constant;
use crate::integer_constant::integer_constant;
use crate::integers::Integer;
use crate::operators::{Operator, Sign, level_of, operator_of, sign_of};
use cs_base::{Kind, Tok};

/// How an operand begins, if it does.
#[derive(Clone, Copy)]
pub enum Beginning {
    /// It is a constant, or an identifier, which counts as 0.
    Whole(Integer),
    Unary(Sign),
    Open,
    Nothing,
}

// The spelling of the punctuator at a place.
fn punctuator_at(toks: &[Tok], at: usize) -> Option<&[u8]>
    ensures answer { option_copied result ≡ punctuator_at toks.now at }
    ensures inside { IsSome result → at < length toks.now }
{
    let tok = toks.get(at)?;
    match tok.kind() {
        Kind::Punct => Some(tok.text()),
        _ => None,
    }
}

#[tactic(auto, unfolding(crate::specs::Reading::is_punct))]
/// Whether this punctuator stands at a place.
pub fn is_punct(toks: &[Tok], at: usize, text: &[u8]) -> bool
    ensures answer { result ≡ is_punct toks.now at text.now }
    ensures inside { IsTrue result → at < length toks.now }
{
    match punctuator_at(toks, at) {
        Some(spelling) => spelling == text,
        None => false,
    }
}

#[tactic(auto, unfolding(crate::specs::Reading::operator_at))]
/// The binary operator of a level that stands at a place.
pub fn operator_at(toks: &[Tok], level: usize, at: usize) -> Option<Operator>
    ensures answer { result ≡ operator_at toks.now level at }
    ensures inside { IsSome result → at < length toks.now }
{
    match operator_of(punctuator_at(toks, at)?) {
        Some(operator) if level_of(operator) == level => Some(operator),
        _ => None,
    }
}

#[tactic(auto, unfolding(crate::specs::Reading::beginning_at))]
/// How an operand begins at a place.
pub fn beginning_at(toks: &[Tok], at: usize) -> Beginning
    ensures answer { result ≡ beginning_at toks.now at }
    ensures inside { BeginsInside result (at < length toks.now) }
{
    match toks.get(at) {
        Some(tok) => beginning_of(tok.kind(), tok.text()),
        None => Beginning::Nothing,
    }
}

fn beginning_of(kind: Kind, text: &[u8]) -> Beginning
    ensures { result ≡ beginning_of kind text.now }
{
    match kind {
        Kind::Ident => Beginning::Whole(Integer::Signed(0)),
        Kind::Number => whole_or_nothing(integer_constant(text)),
        Kind::Char => whole_or_nothing(char_constant(text)),
        Kind::Punct => punctuator_beginning(text),
        _ => Beginning::Nothing,
    }
}

fn punctuator_beginning(text: &[u8]) -> Beginning
    ensures { result ≡ beginning_of Kind.Punct text.now }
{
    if text == b"(".as_slice() {
        return Beginning::Open;
    }
    match sign_of(text) {
        Some(sign) => Beginning::Unary(sign),
        None => Beginning::Nothing,
    }
}

fn whole_or_nothing(constant: Option<Integer>) -> Beginning
    ensures { result ≡ whole_or_nothing constant }
{
    match constant {
        Some(number) => Beginning::Whole(number),
        None => Beginning::Nothing,
    }
}
