// The operators of a controlling expression (6.5.3.3, 6.5.5 to 6.5.14).
ghost use Rattle.std.specs.Prelude.{◌≡◌, codes};
ghost use Rattle.std.specs.Str.{bytes_eq};
ghost use Rattle.cond_eval.specs.Operators.{level_of, operator_of, sign_of};

/// A unary operator.
#[derive(Clone, Copy)]
pub enum Sign {
    Plus,
    Minus,
    Complement,
    Not,
}

/// What a relational or equality operator asks.
#[derive(Clone, Copy)]
pub enum Relation {
    Equal,
    Unequal,
    Less,
    Greater,
    AtMost,
    AtLeast,
}

/// What a binary operator computes of operands of one type.
#[derive(Clone, Copy)]
pub enum Arithmetic {
    Product,
    Quotient,
    Remainder,
    Sum,
    Difference,
    BitAnd,
    BitXor,
    BitOr,
}

/// A binary operator.
#[derive(Clone, Copy)]
pub enum Operator {
    Compute(Arithmetic),
    ShiftLeft,
    ShiftRight,
    Compare(Relation),
    And,
    Or,
}

/// How tightly a binary operator binds: from 1, the tightest, to 10.
pub fn level_of(operator: Operator) -> usize
    ensures { result ≡ level_of operator }
{
    match operator {
        Operator::Compute(Arithmetic::Product) => 1,
        Operator::Compute(Arithmetic::Quotient) => 1,
        Operator::Compute(Arithmetic::Remainder) => 1,
        Operator::Compute(Arithmetic::Sum) => 2,
        Operator::Compute(Arithmetic::Difference) => 2,
        Operator::ShiftLeft => 3,
        Operator::ShiftRight => 3,
        Operator::Compare(Relation::Less) => 4,
        Operator::Compare(Relation::Greater) => 4,
        Operator::Compare(Relation::AtMost) => 4,
        Operator::Compare(Relation::AtLeast) => 4,
        Operator::Compare(Relation::Equal) => 5,
        Operator::Compare(Relation::Unequal) => 5,
        Operator::Compute(Arithmetic::BitAnd) => 6,
        Operator::Compute(Arithmetic::BitXor) => 7,
        Operator::Compute(Arithmetic::BitOr) => 8,
        Operator::And => 9,
        Operator::Or => 10,
    }
}

fn is_spelled(text: &[u8], spelling: &[u8]) -> bool
    ensures { result ≡ bytes_eq text.now spelling.now }
{
    text == spelling
}

fn is_close(text: &[u8]) -> bool
    ensures { result ≡ bytes_eq text.now (codes ")") }
{
    is_spelled(text, b")")
}

fn is_and(text: &[u8]) -> bool
    ensures { result ≡ bytes_eq text.now (codes "&&") }
{
    is_spelled(text, b"&&")
}

fn is_or(text: &[u8]) -> bool
    ensures { result ≡ bytes_eq text.now (codes "||") }
{
    is_spelled(text, b"||")
}

/// The binary operator with this spelling. What mostly stands behind an operand is looked for first.
pub fn operator_of(text: &[u8]) -> Option<Operator>
    ensures { result ≡ operator_of text.now }
{
    if is_close(text) {
        return None;
    }
    if is_and(text) {
        return Some(Operator::And);
    }
    if is_or(text) {
        return Some(Operator::Or);
    }
    sought_operator(text)
}

#[tactic(auto, unfolding(crate::specs::Operators::operator_of))]
// The same, by a search among all.
fn sought_operator(text: &[u8]) -> Option<Operator>
    ensures { result ≡ operator_of text.now }
{
    if is_spelled(text, b"*") {
        return Some(Operator::Compute(Arithmetic::Product));
    }
    if is_spelled(text, b"/") {
        return Some(Operator::Compute(Arithmetic::Quotient));
    }
    if is_spelled(text, b"%") {
        return Some(Operator::Compute(Arithmetic::Remainder));
    }
    if is_spelled(text, b"+") {
        return Some(Operator::Compute(Arithmetic::Sum));
    }
    if is_spelled(text, b"-") {
        return Some(Operator::Compute(Arithmetic::Difference));
    }
    if is_spelled(text, b"<<") {
        return Some(Operator::ShiftLeft);
    }
    if is_spelled(text, b">>") {
        return Some(Operator::ShiftRight);
    }
    if is_spelled(text, b"<") {
        return Some(Operator::Compare(Relation::Less));
    }
    if is_spelled(text, b">") {
        return Some(Operator::Compare(Relation::Greater));
    }
    if is_spelled(text, b"<=") {
        return Some(Operator::Compare(Relation::AtMost));
    }
    if is_spelled(text, b">=") {
        return Some(Operator::Compare(Relation::AtLeast));
    }
    if is_spelled(text, b"==") {
        return Some(Operator::Compare(Relation::Equal));
    }
    if is_spelled(text, b"!=") {
        return Some(Operator::Compare(Relation::Unequal));
    }
    if is_spelled(text, b"&") {
        return Some(Operator::Compute(Arithmetic::BitAnd));
    }
    if is_spelled(text, b"^") {
        return Some(Operator::Compute(Arithmetic::BitXor));
    }
    if is_spelled(text, b"|") {
        return Some(Operator::Compute(Arithmetic::BitOr));
    }
    if is_spelled(text, b"&&") {
        return Some(Operator::And);
    }
    if is_spelled(text, b"||") {
        return Some(Operator::Or);
    }
    None
}

#[tactic(auto, unfolding(crate::specs::Operators::sign_of))]
/// The unary operator with this spelling.
pub fn sign_of(text: &[u8]) -> Option<Sign>
    ensures { result ≡ sign_of text.now }
{
    if is_spelled(text, b"+") {
        return Some(Sign::Plus);
    }
    if is_spelled(text, b"-") {
        return Some(Sign::Minus);
    }
    if is_spelled(text, b"~") {
        return Some(Sign::Complement);
    }
    if is_spelled(text, b"!") {
        return Some(Sign::Not);
    }
    None
}
