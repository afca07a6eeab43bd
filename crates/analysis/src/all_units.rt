// An analysis with all of its units at once.
ghost use Rattle.std.specs.Prelude.{◌≡◌, IfOk};

use crate::analysing::Analysis;
use crate::unit_at::UnitAt;
use cs_base::Memory;
use std::alloc::Global;
use std::marker::Model;

/// An analysis and all of its units, for who holds on to parts of many of them. It takes as much memory as they have.
/// Contracts see the analysis.
#[derive(Drop)]
pub struct AllUnits<'a> {
    a: &'a Analysis,
    units: Vec<UnitAt<'a>>,
}

impl<'a> Model for AllUnits<'a> {
    ghost use Rattle.std.specs.Prelude.{◌≡◌};
    ghost use Rattle.std.specs.Coded.{codes};
    ghost use Rattle.c99_tree.specs.TreeCode.{node_code};
    ghost use Rattle.analysis.specs.Analysed.{Analysed};

    ghost Value = { Analysed };

    ghost coded = { Prim.hlevel (codes, node_code) };

    ghost view = { λ all. all.a.now };

    ghost invariant = { λ all. all.units.items ≡ all.a.now.value.units };
}

impl<'a> AllUnits<'a> {
    /// Those of an analysis.
    pub fn of(alloc: Global, a: &'a Analysis) -> Result<AllUnits<'a>, Memory>
        ensures { IfOk result (λ all. all ≡ a.now) }
    {
        let mut units = Vec::new(alloc);
        for unit in 0..a.units() {
            let one = a.unit(alloc, unit + 1)?;
            units.push(one)?;
        }
        Ok(AllUnits { a, units })
    }

    /// The analysis.
    pub fn analysis(&self) -> &'a Analysis
        ensures { result.now ≡ self.now }
    {
        self.a
    }

    /// The units, in order.
    pub fn units(&self) -> &[UnitAt<'a>]
        ensures { result.now ≡ self.now.value.units }
    {
        self.units.as_slice()
    }
}
