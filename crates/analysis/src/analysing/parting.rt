// An analysis in its parts, and an analysis of parts.
ghost use Rattle.std.specs.Prelude.{◌≡◌, ◌≤◌, IfOk, length};
ghost use Rattle.cs_base.specs.Limits.{most_units};
ghost use Rattle.analysis.specs.Analysed.{analysed};
ghost use Rattle.analysis.specs.Analysis.{analysis_and};
ghost use Rattle.analysis.specs.Classes.{AreItsClasses};

use super::{Analysis, with_lists};
use crate::accepted::{Accepted, UnitParts};
use crate::file_tokens::numbers;
use crate::processed::processed;
use cs_base::Memory;
use eclass_map::Classes;
use include_tree::Cache;
use std::alloc::Global;
use ws_file::Workspace;

/// What an analysis is made of: the workspace, its units in order, the files that were read for them, and the table of
/// the classes of their tokens.
#[derive(Drop)]
pub struct AnalysisParts {
    pub workspace: Workspace,
    pub units: Vec<UnitParts>,
    pub cache: Cache,
    pub classes: Classes,
}

impl Analysis {
    /// The parts of the analysis, each as it is: units that are not kept are made again.
    pub fn into_parts(self, alloc: Global) -> Result<AnalysisParts, Memory>
        ensures answer { IfOk result (λ p. analysed (analysis_and p.workspace p.units.items p.cache.table) p.classes ≡ self) }
        ensures few { IfOk result (λ p. length p.units.items ≤ most_units) }
        ensures own { AreItsClasses self.value self.classes }
    {
        let Analysis {
            accepted,
            classes,
            ..
        } = self;
        let (workspace, units, cache) = accepted.into_parts(alloc)?;
        Ok(AnalysisParts {
            workspace,
            units,
            cache,
            classes,
        })
    }

    /// The analysis of these parts, where the table has the classes of their links. The lists of the members of
    /// classes, of the identifiers that units process and of the numbers that they bring are made anew.
    pub fn of_parts(alloc: Global, parts: AnalysisParts) -> Result<Analysis, Memory>
        requires few { length parts.units.items ≤ most_units }
        requires own { AreItsClasses (analysis_and parts.workspace parts.units.items parts.cache.table) parts.classes }
        ensures { IfOk result (λ a. a ≡ analysed (analysis_and parts.workspace parts.units.items parts.cache.table) parts.classes) }
    {
        let AnalysisParts {
            workspace,
            units,
            cache,
            classes,
        } = parts;
        let accepted = Accepted::of_kept(alloc, workspace, units, cache)?;
        let numbers = numbers(alloc, accepted.brought())?;
        let marks = processed(alloc, &accepted)?;
        with_lists(alloc, accepted, classes, marks, numbers)
    }
}
