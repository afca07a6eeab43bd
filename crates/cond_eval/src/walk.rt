// Reading and evaluating at once, by recursion over the slice (6.5.1 to 6.5.15, 6.6).
//
// A part that is not live is read and not evaluated: it has no faults but those of syntax, and its
// number is the zero of its type. So a first walk that is not live finds the first fault of syntax,
// and a second one the value.
ghost use Rattle.std.specs.Prelude.{◌≡◌, ◌≤◌, ◌<◌, ◌^◌, length, IfOk};
ghost use Rattle.cond_eval.specs.Reading.{Expression, Operand};
ghost use Rattle.cond_eval.specs.Evaluation.{is_decided};
ghost use Rattle.cond_eval.specs.Walk.{prefix_number, infix_number, choice_number, kept, IsAfter, walk_closed, walk_from, walk_operand, walk_joined, walk_binary, walk_branches, walk_conditional, walk_enclosed};

use crate::arithmetic::{combined, prefixed};
use crate::faults::CondFault;
use crate::integers::Integer;
use crate::operators::{Operator, Sign};
use crate::places::{Beginning, beginning_at, is_punct, operator_at};
use cs_base::Tok;

/// The number of a part of the expression, and the place behind the part.
#[derive(Clone, Copy)]
pub struct Walked {
    pub number: Integer,
    pub next: usize,
}

#[tactic(auto, unfolding(crate::specs::Walk::walk_conditional))]
#[cycle(walk)]
/// A conditional-expression, in which so many openers more may enclose one another.
pub fn conditional(toks: &[Tok], room: usize, live: bool, at: usize) -> Result<Walked, CondFault>
    requires few { length toks.now < 2 ^ 32 }
    requires inside { at ≤ length toks.now }
    ensures answer { result ≡ walk_conditional (walk_enclosed toks.now room) toks.now live at }
    ensures after { IfOk result (IsAfter toks.now at) }
{
    let condition = binary(toks, room, 10, live, at)?;
    if is_punct(toks, condition.next, b"?") {
        branches(toks, room, live, condition)
    } else {
        Ok(condition)
    }
}

#[cycle(walk)]
// The second and third operands of a `?`, of which one at most is live.
fn branches(toks: &[Tok], room: usize, live: bool, condition: Walked) -> Result<Walked, CondFault>
    requires few { length toks.now < 2 ^ 32 }
    requires inside { condition.next < length toks.now }
    ensures answer { result ≡ walk_branches (walk_enclosed toks.now room) toks.now live condition }
    ensures after { IfOk result (IsAfter toks.now condition.next) }
{
    let holds = condition.number.is_nonzero();
    let second = enclosed_expression(toks, room, live && holds, condition.next)?;
    if !is_punct(toks, second.next, b":") {
        return Err(CondFault::Syntax {
            index: second.next as u32,
        });
    }
    let third = enclosed_expression(toks, room, live && !holds, second.next)?;
    Ok(Walked {
        number: choice_number(condition.number, second.number, third.number),
        next: third.next,
    })
}

#[cycle(walk)]
// Operands of a level and the operators of that level between them; level 0 is a unary-expression.
fn binary(
    toks: &[Tok],
    room: usize,
    level: usize,
    live: bool,
    at: usize,
) -> Result<Walked, CondFault>
    requires few { length toks.now < 2 ^ 32 }
    requires inside { at ≤ length toks.now }
    ensures answer { result ≡ walk_binary (walk_enclosed toks.now room) toks.now level live at }
    ensures after { IfOk result (IsAfter toks.now at) }
{
    if level == 0 {
        return operand(toks, room, live, at);
    }
    let mut left = binary(toks, room, level - 1, live, at)?;
    'operands: while let Some(operator) = operator_at(toks, level, left.next) {
        left = joined(toks, room, level - 1, live, left, operator)?;
    }
    Ok(left)
}

#[cycle(walk)]
// An operator behind a left operand, and a right operand of the level below.
fn joined(
    toks: &[Tok],
    room: usize,
    level: usize,
    live: bool,
    left: Walked,
    operator: Operator,
) -> Result<Walked, CondFault>
    requires few { length toks.now < 2 ^ 32 }
    requires inside { left.next < length toks.now }
    ensures answer { result ≡ walk_joined (walk_binary (walk_enclosed toks.now room) toks.now level) live left operator }
    ensures after { IfOk result (IsAfter toks.now left.next) }
{
    let right_live = live && !is_decided(operator, left.number);
    let right = binary(toks, room, level, right_live, left.next + 1)?;
    let number = infix_number(live, operator, left.next as u32, left.number, right.number)?;
    Ok(Walked {
        number,
        next: right.next,
    })
}

#[tactic(auto, unfolding(crate::specs::Walk::walk_operand))]
#[cycle(walk)]
// A unary-expression.
fn operand(toks: &[Tok], room: usize, live: bool, at: usize) -> Result<Walked, CondFault>
    requires few { length toks.now < 2 ^ 32 }
    requires inside { at ≤ length toks.now }
    ensures answer { result ≡ walk_operand (walk_enclosed toks.now room) toks.now live at }
    ensures after { IfOk result (IsAfter toks.now at) }
{
    match beginning_at(toks, at) {
        Beginning::Whole(number) => Ok(Walked {
            number: kept(live, number),
            next: at + 1,
        }),
        Beginning::Unary(sign) => signed_operand(toks, room, live, at, sign),
        Beginning::Open => {
            let inside = enclosed_expression(toks, room, live, at)?;
            closed(toks, inside)
        }
        Beginning::Nothing => Err(CondFault::Syntax { index: at as u32 }),
    }
}

#[cycle(walk)]
fn signed_operand(
    toks: &[Tok],
    room: usize,
    live: bool,
    at: usize,
    sign: Sign,
) -> Result<Walked, CondFault>
    requires few { length toks.now < 2 ^ 32 }
    requires inside { at < length toks.now }
    ensures answer { result ≡ walk_from (walk_enclosed toks.now room) toks.now live at (Beginning.Unary sign) }
    ensures after { IfOk result (IsAfter toks.now at) }
{
    let operand = enclosed_operand(toks, room, live, at)?;
    let number = prefix_number(live, sign, at as u32, operand.number)?;
    Ok(Walked {
        number,
        next: operand.next,
    })
}

fn closed(toks: &[Tok], inside: Walked) -> Result<Walked, CondFault>
    requires few { length toks.now < 2 ^ 32 }
    requires inside { inside.next ≤ length toks.now }
    ensures answer { result ≡ walk_closed toks.now inside }
    ensures after { IfOk result (IsAfter toks.now inside.next) }
{
    if is_punct(toks, inside.next, b")") {
        Ok(Walked {
            number: inside.number,
            next: inside.next + 1,
        })
    } else {
        Err(CondFault::Syntax {
            index: inside.next as u32,
        })
    }
}

#[cycle(walk)]
// What stands behind the parenthesis, the `?` or the `:` at a place.
fn enclosed_expression(
    toks: &[Tok],
    room: usize,
    live: bool,
    at: usize,
) -> Result<Walked, CondFault>
    requires few { length toks.now < 2 ^ 32 }
    requires inside { at < length toks.now }
    ensures answer { result ≡ walk_enclosed toks.now room live Expression at }
    ensures after { IfOk result (IsAfter toks.now at) }
{
    if room == 0 {
        Err(CondFault::TooDeep { index: at as u32 })
    } else {
        conditional(toks, room - 1, live, at + 1)
    }
}

#[cycle(walk)]
// What stands behind the unary operator at a place.
fn enclosed_operand(toks: &[Tok], room: usize, live: bool, at: usize) -> Result<Walked, CondFault>
    requires few { length toks.now < 2 ^ 32 }
    requires inside { at < length toks.now }
    ensures answer { result ≡ walk_enclosed toks.now room live Operand at }
    ensures after { IfOk result (IsAfter toks.now at) }
{
    if room == 0 {
        Err(CondFault::TooDeep { index: at as u32 })
    } else {
        operand(toks, room - 1, live, at + 1)
    }
}

// ---- numbers of live parts and of others

fn kept(live: bool, number: Integer) -> Integer
    ensures { result ≡ kept live number }
{
    if live {
        number
    } else {
        Integer::zero_of(number.is_unsigned())
    }
}

fn prefix_number(live: bool, sign: Sign, index: u32, x: Integer) -> Result<Integer, CondFault>
    ensures { result ≡ prefix_number live sign index x }
{
    if live {
        return prefixed(sign, index, x);
    }
    Ok(Integer::zero_of(match sign {
        Sign::Not => false,
        _ => x.is_unsigned(),
    }))
}

fn infix_number(
    live: bool,
    operator: Operator,
    index: u32,
    x: Integer,
    y: Integer,
) -> Result<Integer, CondFault>
    ensures { result ≡ infix_number live operator index x y }
{
    if live {
        return combined(operator, index, x, y);
    }
    Ok(Integer::zero_of(match operator {
        Operator::Compute(_) => x.is_unsigned() || y.is_unsigned(),
        Operator::ShiftLeft | Operator::ShiftRight => x.is_unsigned(),
        _ => false,
    }))
}

// The type of the operand that is not chosen counts too (6.5.15 paragraph 5).
fn choice_number(condition: Integer, second: Integer, third: Integer) -> Integer
    ensures { result ≡ choice_number condition second third }
{
    if condition.is_nonzero() {
        second.converted(third.is_unsigned())
    } else {
        third.converted(second.is_unsigned())
    }
}

// Whether the left operand alone decides (6.5.13 paragraph 4, 6.5.14 paragraph 4).
fn is_decided(operator: Operator, left: Integer) -> bool
    ensures { result ≡ is_decided operator left }
{
    match operator {
        Operator::And => !left.is_nonzero(),
        Operator::Or => left.is_nonzero(),
        _ => false,
    }
}
