// The analysis of the files as the lines so far leave them, which is made once the next line asks for it.
ghost use Rattle.std.specs.Prelude.{◌≡◌, false, IfOk};
ghost use Rattle.analysis.specs.Parts.{IsPart};
ghost use Rattle.batch_run.specs.Standing.{settled_value};
ghost use Rattle.kept_analysis.specs.Following.{IsFollowed, IsRenamedIn};

use analysis::Analysis;
use cs_base::{Memory, Part};
use kept_analysis::advance;
use std::alloc::Global;
use std::marker::Model;

/// A renaming that the analysis is still to follow: of the class of the part, which has these members.
#[derive(Drop)]
struct Ahead {
    part: Part,
    members: Vec<Part>,
    name: Vec<u8>,
}

/// An analysis, and the renaming behind it where it has not followed that yet. Contracts see the analysis behind both,
/// and whether it waits.
#[derive(Drop)]
pub struct Standing {
    analysis: Analysis,
    ahead: Option<Ahead>,
}

impl Model for Standing {
    ghost use Rattle.std.specs.Coded.{codes};
    ghost use Rattle.analysis.specs.Below.c99_tree.TreeCode.{node_code};
    ghost use Rattle.batch_run.specs.Standing.{StandingValue, standing_value, IsAhead};

    ghost Value = { StandingValue };

    ghost coded = { Prim.hlevel (codes, node_code) };

    ghost view = { λ s. standing_value s.analysis.value s.ahead };

    ghost invariant = { λ s. IsAhead s.analysis.value s.ahead };
}

impl Standing {
    pub(crate) fn at(analysis: Analysis) -> Standing
        ensures { result ≡ settled_value analysis.value }
    {
        Standing {
            analysis,
            ahead: None,
        }
    }

    /// The analysis follows the renaming that waits.
    pub(crate) fn settled(self, alloc: Global) -> Result<Standing, Memory>
        ensures { IfOk result (λ s. s ≡ settled_value self.value) }
    {
        let Standing { analysis, ahead } = self;
        match ahead {
            None => Ok(Standing::at(analysis)),
            Some(ahead) => {
                let analysis = advance(alloc, analysis, ahead.part, ahead.name.as_slice())?;
                Ok(Standing::at(analysis))
            }
        }
    }

    /// The analysis, where nothing waits.
    pub(crate) fn analysis(&self) -> &Analysis
        requires settled { self.now.waits ≡ false }
        ensures { result.now.value ≡ self.now.value }
    {
        &self.analysis
    }

    /// The renaming of the class of a part waits behind the analysis.
    pub(crate) fn followed(self, alloc: Global, part: Part, name: &[u8]) -> Result<Standing, Memory>
        requires settled { self.waits ≡ false }
        requires part { IsPart self.value part }
        requires follows { IsFollowed self.value part name.now }
        ensures { IfOk result (λ s. IsRenamedIn self.value part name.now s.value) }
    {
        let Standing { analysis, .. } = self;
        let members = Vec::from_slice(alloc, analysis.members(part))?;
        let name = Vec::from_slice(alloc, name)?;
        let ahead = Some(Ahead {
            part,
            members,
            name,
        });
        Ok(Standing { analysis, ahead })
    }
}
