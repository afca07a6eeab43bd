// What is read and bound of the beginning of a unit, from which units that begin so go on (ISO/IEC 9899:1999, 5.1.1.2
// phase 7).
ghost use Rattle.std.specs.Prelude.{◌≡◌, ◌<◌, ◌^◌, length, IfOk, IfSome};
ghost use Rattle.cs_base.specs.Answer.{Gives};
ghost use Rattle.c99_tree.specs.Joined.{followed};
ghost use Rattle.c99_read.specs.Fronts.{BeginsWith};
ghost use Rattle.c99_read.specs.Below.c99_grammar.Dialects.{dialect};
ghost use Rattle.gnu_bind.specs.Bound.{binding_by};
ghost use Rattle.gnu_bind.specs.Below.c_types.Faults.{fault_of};
ghost use Rattle.analysis.specs.UnitFronts.{UnitFrontValue};

use c99_read::{Dialect, Front};
use c99_tree::Tree;
use cs_base::{Memory, Standard, Tok};
use gnu_bind::{BindRefusal, Bound, BoundFront, bind_from};
use std::alloc::Global;
use std::marker::Model;

/// The beginning of a unit by a standard.
#[derive(Drop)]
pub(crate) struct UnitFront {
    reading: Front,
    known: BoundFront,
}

impl Model for UnitFront {
    ghost use Rattle.std.specs.Coded.{codes};
    ghost use Rattle.c99_tree.specs.TreeCode.{node_code};
    ghost use Rattle.analysis.specs.UnitFronts.{UnitFrontValue, IsUnitFront, unit_front};

    ghost Value = { UnitFrontValue };

    ghost coded = { Prim.hlevel (codes, node_code) };

    ghost view = { λ f. unit_front f.known.standard f.reading };

    ghost invariant = { λ f. IsUnitFront f.reading f.known };
}

impl UnitFront {
    /// What is read and bound of these tokens up to token `end`, or to the end of the external declaration that has it; none
    /// where that is none, fewer than two tokens follow, or something is wrong with them.
    pub(crate) fn of(
        alloc: Global,
        toks: Vec<Tok>,
        end: usize,
        standard: Standard,
    ) -> Result<Option<UnitFront>, Memory>
        requires few { length toks.items < 2 ^ 32 }
        ensures { IfOk result (λ o. IfSome o (λ f. (f.reading.toks ≡ toks.items) × (f.standard ≡ standard))) }
    {
        match Front::of(alloc, toks, end, Dialect::of(standard))? {
            Some(reading) => UnitFront::over(alloc, reading, standard),
            None => Ok(None),
        }
    }

    fn over(alloc: Global, reading: Front, standard: Standard) -> Result<Option<UnitFront>, Memory>
        requires by { reading.dialect ≡ dialect standard }
        ensures { IfOk result (λ o. IfSome o (λ f. (f.reading ≡ reading) × (f.standard ≡ standard))) }
    {
        match BoundFront::of(alloc, reading.toks(), reading.tree(), standard)? {
            Some(known) => Ok(Some(UnitFront { reading, known })),
            None => Ok(None),
        }
    }

    /// What has been read, by the grammar of the standard.
    pub(crate) fn reading(&self) -> &Front
        ensures front { result.now ≡ self.now.reading }
        ensures by { result.now.dialect ≡ dialect self.now.standard }
    {
        &self.reading
    }

    pub(crate) fn standard(&self) -> Standard
        ensures { result ≡ self.now.standard }
    {
        self.known.standard()
    }
    /// What each identifier of a unit denotes that begins so, given the tree of what stands behind it, or the first fault.
    pub(crate) fn bind(
        &self,
        alloc: Global,
        toks: &[Tok],
        rest: &Tree,
    ) -> Result<Bound, BindRefusal>
        requires begins { BeginsWith toks.now self.now.reading }
        ensures answer { Gives (λ b. b) fault_of result (binding_by self.now.standard toks.now (followed self.now.reading.tree rest.now)) }
    {
        let reading = &self.reading;
        bind_from(
            alloc,
            &self.known,
            reading.toks(),
            reading.tree(),
            toks,
            rest,
        )
    }
}
