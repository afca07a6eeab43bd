// Steps that work on a row of values: what a query is compiled to.
ghost use Rattle.std.specs.Prelude.{ℕ, List, Bool, [], ◌∷◌, ◌≡◌, ◌++◌, IfOk, OnOk};
ghost use Rattle.query_words.specs.Patterns.{matches};
ghost use Rattle.query_words.specs.Steps.{IsSpelled};

use crate::attributes::Attribute;
use crate::patterns::{count_kept, without_doubles};
use cs_base::Memory;
use std::alloc::Global;

/// A pattern in which no two `*` stand side by side, and how many bytes a spelling has at least that it matches.
#[derive(Drop)]
pub struct Pattern {
    pub(crate) bytes: Vec<u8>,
    pub(crate) least: usize,
}

/// What is done to a row of values: one is put behind the others, or made of the last one or two.
#[derive(Drop)]
pub enum Step {
    Has(Attribute),
    Spelled(Pattern),
    Negate,
    And,
    Or,
}

/// The step that a pattern is.
pub(crate) fn spelled(alloc: Global, pattern: &[u8]) -> Result<Step, Memory>
    ensures { IfOk result (IsSpelled pattern.now) }
{
    let bytes = without_doubles(alloc, pattern)?;
    let least = count_kept(&bytes);
    Ok(Step::Spelled(Pattern { bytes, least }))
}

/// Puts a step behind the others.
pub(crate) fn push_step(steps: &mut Vec<Step>, step: Step) -> Result<(), Memory>
    ensures { OnOk result (steps.new.items ≡ steps.old.items ++ step ∷ []) }
{
    steps.push(step)?;
    Ok(())
}
