// The productions of expressions that are an operand and what an operator joins to it.
ghost use Rattle.std.specs.Prelude.{◌≡◌, true};
ghost use Rattle.c99_grammar.specs.Classes.{among};
ghost use Rattle.c99_grammar.specs.ItemsOf.{item_of};
ghost use Rattle.c99_read.specs.Operators.{is_assign, is_binary, over, rest_of, rung, rungs, signs};
ghost use Rattle.c99_tree.specs.declared.production.Production.TheVariants.{Expr, Cond, Lor, Land, Bor, Bxor, Band, Equal, Relate, Shift, Add, Mul};

use c99_grammar::{Class, Dialect, Item, alternatives};
use c99_tree::Production;

pub(crate) fn is_binary(production: Production) -> bool
    ensures { result ≡ is_binary production }
{
    matches!(
        production,
        Production::Expr
            | Production::Assign
            | Production::Cond
            | Production::Lor
            | Production::Land
            | Production::Bor
            | Production::Bxor
            | Production::Band
            | Production::Equal
            | Production::Relate
            | Production::Shift
            | Production::Add
            | Production::Mul
    )
}

/// The production whose first operand this is.
pub(crate) fn over(production: Production) -> Production
    ensures { result ≡ over production }
{
    match production {
        Production::Cast => Production::Mul,
        Production::Mul => Production::Add,
        Production::Add => Production::Shift,
        Production::Shift => Production::Relate,
        Production::Relate => Production::Equal,
        Production::Equal => Production::Band,
        Production::Band => Production::Bxor,
        Production::Bxor => Production::Bor,
        Production::Bor => Production::Land,
        Production::Land => Production::Lor,
        Production::Lor => Production::Cond,
        Production::Cond => Production::Assign,
        _ => Production::Expr,
    }
}

/// How many productions stand over the innermost operand, up to this one.
pub(crate) fn rungs(production: Production) -> u32
    ensures { result ≡ rungs production }
{
    match production {
        Production::Expr => 13,
        Production::Assign => 12,
        Production::Cond => 11,
        Production::Lor => 10,
        Production::Land => 9,
        Production::Bor => 8,
        Production::Bxor => 7,
        Production::Band => 6,
        Production::Equal => 5,
        Production::Relate => 4,
        Production::Shift => 3,
        Production::Add => 2,
        Production::Mul => 1,
        _ => 0,
    }
}

/// Over how many productions the one stands whose operator this is; over more than all where it is none.
pub(crate) fn rung_of(class: Class) -> u32
    ensures { result ≡ rung class }
{
    match class {
        Class::Star | Class::Slash | Class::Percent => 1,
        Class::Plus | Class::Minus => 2,
        Class::ShiftLeft | Class::ShiftRight => 3,
        Class::Less | Class::Greater | Class::LessEq | Class::GreaterEq => 4,
        Class::EqEq | Class::BangEq => 5,
        Class::Amp => 6,
        Class::Caret => 7,
        Class::Bar => 8,
        Class::AmpAmp => 9,
        Class::BarBar => 10,
        Class::Question => 11,
        Class::Eq | Class::StarEq | Class::SlashEq | Class::PercentEq => 12,
        Class::PlusEq | Class::MinusEq | Class::ShiftLeftEq | Class::ShiftRightEq => 12,
        Class::AmpEq | Class::CaretEq | Class::BarEq => 12,
        Class::Comma => 13,
        _ => 14,
    }
}

fn is_equality(class: Class) -> bool
    ensures { result ≡ among (signs Equal) class }
{
    matches!(class, Class::EqEq | Class::BangEq)
}

fn is_relation(class: Class) -> bool
    ensures { result ≡ among (signs Relate) class }
{
    matches!(
        class,
        Class::Less | Class::Greater | Class::LessEq | Class::GreaterEq
    )
}

fn is_shift(class: Class) -> bool
    ensures { result ≡ among (signs Shift) class }
{
    matches!(class, Class::ShiftLeft | Class::ShiftRight)
}

fn is_sum(class: Class) -> bool
    ensures { result ≡ among (signs Add) class }
{
    matches!(class, Class::Plus | Class::Minus)
}

fn is_product(class: Class) -> bool
    ensures { result ≡ among (signs Mul) class }
{
    matches!(class, Class::Star | Class::Slash | Class::Percent)
}

fn is_comma(class: Class) -> bool
    ensures { result ≡ among (signs Expr) class }
{
    matches!(class, Class::Comma)
}

fn is_question(class: Class) -> bool
    ensures { result ≡ among (signs Cond) class }
{
    matches!(class, Class::Question)
}

fn is_or(class: Class) -> bool
    ensures { result ≡ among (signs Lor) class }
{
    matches!(class, Class::BarBar)
}

fn is_and(class: Class) -> bool
    ensures { result ≡ among (signs Land) class }
{
    matches!(class, Class::AmpAmp)
}

fn is_bit_or(class: Class) -> bool
    ensures { result ≡ among (signs Bor) class }
{
    matches!(class, Class::Bar)
}

fn is_bit_xor(class: Class) -> bool
    ensures { result ≡ among (signs Bxor) class }
{
    matches!(class, Class::Caret)
}

fn is_bit_and(class: Class) -> bool
    ensures { result ≡ among (signs Band) class }
{
    matches!(class, Class::Amp)
}

/// The class is one of the operators of the production, but those of an assignment.
pub(crate) fn is_sign(production: Production, class: Class) -> bool
    ensures { result ≡ among (signs production) class }
{
    match production {
        Production::Expr => is_comma(class),
        Production::Cond => is_question(class),
        Production::Lor => is_or(class),
        Production::Land => is_and(class),
        Production::Bor => is_bit_or(class),
        Production::Bxor => is_bit_xor(class),
        Production::Band => is_bit_and(class),
        Production::Equal => is_equality(class),
        Production::Relate => is_relation(class),
        Production::Shift => is_shift(class),
        Production::Add => is_sum(class),
        Production::Mul => is_product(class),
        _ => false,
    }
}

pub(crate) fn is_assign(production: Production) -> bool
    ensures { result ≡ is_assign production }
{
    matches!(production, Production::Assign)
}

#[tactic(auto, using(crate::proofs::OperatorLemmas::only_row))]
/// What may follow the first operand, as the table has it.
pub(crate) fn rest_of(production: Production, dialect: Dialect) -> &'static Item
    requires { is_binary production ≡ true }
    ensures { item_of result.now ≡ rest_of production dialect }
{
    let rows = alternatives(production, dialect);
    match &rows[0].body {
        Item::Then(_, rest) => *rest,
        _ => unreachable!(),
    }
}
