// What the operators of a controlling expression compute (6.5.3.3, 6.5.5 to 6.5.14).
ghost use Rattle.std.specs.Prelude.{◌≡◌, ◌<◌, ◌^◌, true, false, pos, ◌*ℤ◌, SomeIff, FitsSigned};
ghost use Rattle.std.specs.Int.{w64};
ghost use Rattle.cond_eval.specs.Integers.{whole};
ghost use Rattle.cond_eval.specs.Arithmetic.{computed, fitted, places_of, shifted_left, shifted_right, related, combined, prefixed};

use crate::faults::CondFault;
use crate::integers::Integer;
use crate::operators::{Arithmetic, Operator, Relation, Sign};

/// The value of a unary operator at `index`.
pub fn prefixed(sign: Sign, index: u32, operand: Integer) -> Result<Integer, CondFault>
    ensures { result ≡ prefixed sign index operand }
{
    match sign {
        Sign::Plus => Ok(operand),
        Sign::Minus => match operand {
            Integer::Signed(value) => fitted(index, value.checked_neg()),
            Integer::Unsigned(value) => Ok(Integer::Unsigned(0u64.wrapping_sub(value))),
        },
        Sign::Complement => Ok(match operand {
            Integer::Signed(value) => Integer::Signed(!value),
            Integer::Unsigned(value) => Integer::Unsigned(!value),
        }),
        Sign::Not => Ok(Integer::truth(!operand.is_nonzero())),
    }
}

/// The value of a binary operator at `index`, both operands of which are evaluated.
pub fn combined(
    operator: Operator,
    index: u32,
    left: Integer,
    right: Integer,
) -> Result<Integer, CondFault>
    ensures { result ≡ combined operator index left right }
{
    match operator {
        Operator::Compute(arithmetic) => match (left, right) {
            (Integer::Signed(x), Integer::Signed(y)) => signed(arithmetic, index, x, y),
            _ => unsigned(arithmetic, index, left.as_unsigned(), right.as_unsigned()),
        },
        Operator::ShiftLeft => shifted_left(index, left, right),
        Operator::ShiftRight => shifted_right(index, left, right),
        Operator::Compare(relation) => Ok(Integer::truth(match (left, right) {
            (Integer::Signed(x), Integer::Signed(y)) => related_signed(relation, x, y),
            _ => related_unsigned(relation, left.as_unsigned(), right.as_unsigned()),
        })),
        Operator::And => Ok(Integer::truth(left.is_nonzero() && right.is_nonzero())),
        Operator::Or => Ok(Integer::truth(left.is_nonzero() || right.is_nonzero())),
    }
}

// A signed result, or that it is out of range.
fn fitted(index: u32, value: Option<i64>) -> Result<Integer, CondFault>
    ensures { result ≡ fitted index value }
{
    match value {
        Some(value) => Ok(Integer::Signed(value)),
        None => Err(CondFault::Overflow { index }),
    }
}

fn signed(arithmetic: Arithmetic, index: u32, x: i64, y: i64) -> Result<Integer, CondFault>
    ensures { result ≡ computed arithmetic index false x y }
{
    match arithmetic {
        Arithmetic::Product => fitted(index, x.checked_mul(y)),
        Arithmetic::Quotient => {
            if y == 0 {
                Err(CondFault::DivideByZero { index })
            } else {
                fitted(index, x.checked_div(y))
            }
        }
        Arithmetic::Remainder => {
            if y == 0 {
                Err(CondFault::DivideByZero { index })
            } else {
                // The remainder by -1 is 0, also where the quotient is out of range.
                Ok(Integer::Signed(x.wrapping_rem(y)))
            }
        }
        Arithmetic::Sum => fitted(index, x.checked_add(y)),
        Arithmetic::Difference => fitted(index, x.checked_sub(y)),
        Arithmetic::BitAnd => Ok(Integer::Signed(x & y)),
        Arithmetic::BitXor => Ok(Integer::Signed(x ^ y)),
        Arithmetic::BitOr => Ok(Integer::Signed(x | y)),
    }
}

fn unsigned(arithmetic: Arithmetic, index: u32, x: u64, y: u64) -> Result<Integer, CondFault>
    ensures { result ≡ computed arithmetic index true (pos x) (pos y) }
{
    if y == 0 {
        if let Arithmetic::Quotient | Arithmetic::Remainder = arithmetic {
            return Err(CondFault::DivideByZero { index });
        }
    }
    Ok(Integer::Unsigned(match arithmetic {
        Arithmetic::Product => x.wrapping_mul(y),
        Arithmetic::Quotient => x.wrapping_div(y),
        Arithmetic::Remainder => x.wrapping_rem(y),
        Arithmetic::Sum => x.wrapping_add(y),
        Arithmetic::Difference => x.wrapping_sub(y),
        Arithmetic::BitAnd => x & y,
        Arithmetic::BitXor => x ^ y,
        Arithmetic::BitOr => x | y,
    }))
}

fn related_signed(relation: Relation, x: i64, y: i64) -> bool
    ensures { result ≡ related relation x y }
{
    match relation {
        Relation::Equal => x == y,
        Relation::Unequal => x != y,
        Relation::Less => x < y,
        Relation::Greater => x > y,
        Relation::AtMost => x <= y,
        Relation::AtLeast => x >= y,
    }
}

fn related_unsigned(relation: Relation, x: u64, y: u64) -> bool
    ensures { result ≡ related relation (pos x) (pos y) }
{
    match relation {
        Relation::Equal => x == y,
        Relation::Unequal => x != y,
        Relation::Less => x < y,
        Relation::Greater => x > y,
        Relation::AtMost => x <= y,
        Relation::AtLeast => x >= y,
    }
}

// By how many places an operand shifts, if by none that is negative or 64 and more.
fn places_of(operand: Integer) -> Option<u32>
    ensures { result ≡ places_of (whole operand) }
{
    match operand {
        Integer::Signed(value) if 0 <= value && value < 64 => Some(value as u32),
        Integer::Unsigned(value) if value < 64 => Some(value as u32),
        _ => None,
    }
}

fn shifted_left(index: u32, left: Integer, right: Integer) -> Result<Integer, CondFault>
    ensures { result ≡ shifted_left index left right }
{
    match places_of(right) {
        Some(places) => match left {
            Integer::Signed(value) => fitted(index, multiplied(value, places)),
            Integer::Unsigned(value) => Ok(Integer::Unsigned(value.wrapping_shl(places))),
        },
        None => Err(CondFault::Overflow { index }),
    }
}

fn shifted_right(index: u32, left: Integer, right: Integer) -> Result<Integer, CondFault>
    ensures { result ≡ shifted_right index left right }
{
    match places_of(right) {
        Some(places) => Ok(match left {
            Integer::Signed(value) => Integer::Signed(value.wrapping_shr(places)),
            Integer::Unsigned(value) => Integer::Unsigned(value.wrapping_shr(places)),
        }),
        None => Err(CondFault::Overflow { index }),
    }
}

// The product with a power of two, if it is in range.
fn multiplied(value: i64, places: u32) -> Option<i64>
    requires { places < 64 }
    ensures { SomeIff result (FitsSigned w64 (value *ℤ pos (2 ^ places))) (value *ℤ pos (2 ^ places)) }
{
    let product = i128::from(value) * i128::from(1u64 << places);
    i64::try_from(product).ok()
}
