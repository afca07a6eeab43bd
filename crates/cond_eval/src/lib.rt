//! Controlling expressions: the value of what stands behind `#if` and `#elif` (ISO/IEC 9899:1999,
//! 6.10.1), once macros are expanded.
//!
//! `eval` takes the tokens and answers whether the expression compares unequal to 0, or its first
//! fault. It equals `condition` of `specs/Evaluation.antt`: the whole list is read into a tree by the
//! grammar of conditional expressions on integers (6.5, 6.6; `specs/Reading.antt`), and the tree is
//! evaluated on whole numbers with a mark for unsigned (`specs/Arithmetic.antt`). So a fault of syntax
//! comes before one of evaluation, and what is not evaluated has no fault, though its type counts.
//! The code makes no tree and takes no memory: it walks over the slice twice, first for the syntax and
//! then for the value, by recursion that the limit on nesting bounds. Macros, `defined` and directives
//! belong to the crates above: an identifier counts as 0 here. Read `specs/Reading.antt` and
//! `specs/Evaluation.antt`, then `walk.rt`.
#![tactic(auto)]

ghost use Rattle.std.specs.Prelude.{◌≡◌, ◌<◌, ◌^◌, length};
ghost use Rattle.cond_eval.specs.Evaluation.{condition};

mod arithmetic;
mod char_constant;
mod faults;
mod integer_constant;
mod integers;
mod operators;
mod places;
mod walk;

use cs_base::Tok;
pub use faults::CondFault;

/// How many parentheses, unary operators and `?` may enclose one another.
const DEPTH_LIMIT: usize = 256;

/// Whether the controlling expression of these tokens compares unequal to 0, or its first fault.
/// Takes no memory.
pub fn eval(toks: &[Tok]) -> Result<bool, CondFault>
    requires few { length toks.now < 2 ^ 32 }
    ensures answer { result ≡ condition toks.now }
{
    let read = walk::conditional(toks, DEPTH_LIMIT, false, 0)?;
    if read.next < toks.len() {
        return Err(CondFault::Syntax {
            index: read.next as u32,
        });
    }
    let value = walk::conditional(toks, DEPTH_LIMIT, true, 0)?;
    Ok(value.number.is_nonzero())
}
