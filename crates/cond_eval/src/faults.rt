// Why a controlling expression has no value.
use thiserror::Error;

/// The first fault of a controlling expression. `index` is the place of the operator, or of the
/// first token that cannot follow; it is the number of tokens where that is the end.
#[derive(Clone, Copy, Debug, PartialEq, Eq, Error)]
pub enum CondFault {
    /// The tokens are no conditional-expression on integers (6.6), or a constant is none (6.4.4).
    #[error("Syntax")]
    Syntax { index: u32 },
    /// The second operand of an evaluated `/` or `%` is zero (6.5.5 paragraph 5).
    #[error("DivideByZero")]
    DivideByZero { index: u32 },
    /// A signed result is out of range (6.5 paragraph 5), or a shift is by no number below 64
    /// (6.5.7 paragraph 3).
    #[error("Overflow")]
    Overflow { index: u32 },
    /// More than 256 parentheses, unary operators and `?` enclose one another.
    #[error("TooDeep")]
    TooDeep { index: u32 },
}
