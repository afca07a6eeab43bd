// A unit that is not kept, made again from the files that were read.
ghost use Rattle.std.specs.Prelude.{◌≡◌, ◌-◌, ◌^◌, Ok, IfOk, OnOk};
ghost use Rattle.include_tree.specs.Fronts.{AreFronts};
ghost use Rattle.analysis.specs.Analysis.{UnitAnalysis};
ghost use Rattle.analysis.specs.Carrying.{IsFresh};
ghost use Rattle.analysis.specs.MadeAgain.{IsMadeAgain, made_again};

use crate::accepted::UnitParts;
use crate::unit_fronts::UnitFront;
use crate::unit_reading::read_known;
use cs_base::{MemFiles, Memory, Unit};
use include_tree::{Cache, Fronts, UnitText, preprocess_on};
use std::alloc::Global;

/// The number of no unit.
const NO_UNIT: u32 = u32::MAX;

// The text of the unit. What it begins with as the units before do is kept in the fronts.
fn text_again(
    alloc: Global,
    cache: &Cache,
    shared: &mut Fronts,
    unit: &Unit,
) -> Result<UnitText, Memory>
    requires fresh { IsFresh (2 ^ 32 - 1) cache.now.table }
    requires shared { AreFronts cache.now.table shared.old.all.items }
    ensures text { IfOk result (λ text. (u : UnitAnalysis) → IsMadeAgain cache.now.table unit.now u → text ≡ u.text) }
    ensures shared { OnOk result ((u : UnitAnalysis) → IsMadeAgain cache.now.table unit.now u → AreFronts cache.now.table shared.new.all.items) }
{
    let mut lent = cache.shared()?;
    // All that the unit asks for is known.
    let mut none = MemFiles::new(alloc);
    match preprocess_on(alloc, &mut lent, &mut none, shared, unit, NO_UNIT) {
        Ok(text) => {
            // Each path has one number there.
            let _numbers = lent.numbers();
            Ok(text)
        }
        Err(_) => Err(Memory),
    }
}

/// The unit once more: it is preprocessed, read and bound as it was before.
pub(crate) fn unit_again(
    alloc: Global,
    cache: &Cache,
    shared: &mut Fronts,
    fronts: &[UnitFront],
    unit: &Unit,
) -> Result<UnitParts, Memory>
    requires fresh { IsFresh (2 ^ 32 - 1) cache.now.table }
    requires shared { AreFronts cache.now.table shared.old.all.items }
    ensures made { IfOk result (λ made. (u : UnitAnalysis) → IsMadeAgain cache.now.table unit.now u → made ≡ u) }
    ensures shared { OnOk result ((u : UnitAnalysis) → IsMadeAgain cache.now.table unit.now u → AreFronts cache.now.table shared.new.all.items) }
{
    let text = text_again(alloc, cache, shared, unit)?;
    let path = unit.path().bytes();
    match read_known(alloc, cache, fronts, NO_UNIT, unit.standard(), path, text) {
        Ok(made) => Ok(made),
        Err(_) => Err(Memory),
    }
}
