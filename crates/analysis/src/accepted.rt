// A workspace whose units are accepted: preprocessed, read and bound.
ghost use Rattle.std.specs.Prelude.{◌≡◌, ◌≤◌, ◌<◌, ◌-◌, ◌^◌, Some, IfOk, OnOk, length, map, option_copied, slice_get};
ghost use Rattle.std.specs.Option.{option_map};
ghost use Rattle.cs_base.specs.Limits.{most_units};
ghost use Rattle.analysis.specs.BroughtNumbers.{all_brought};
ghost use Rattle.analysis.specs.Carrying.{IsFresh};
ghost use Rattle.analysis.specs.GnuUnits.{begin_of, gnu_begin};
ghost use Rattle.analysis.specs.MadeAgain.{AreMadeAgain, AreTaken, all_units, others_of, units_again};
ghost use Rattle.include_tree.specs.Below.source_files.Files.{absent_at};
ghost use Rattle.include_tree.specs.Fronts.{AreFronts};
ghost use Rattle.include_tree.specs.Below.source_files.KeptFiles.{kept_at};
ghost use Rattle.include_tree.specs.Below.source_files.Tables.{AreText, BeginsWithLines, HasEachOnce};

use crate::brought::all_brought;
use crate::making_again::unit_again;
use crate::reading::read_toks;
use crate::taking::Taken;
use crate::unit_at::UnitAt;
use crate::unit_fronts::UnitFront;
use c99_tree::Tree;
use cs_base::{Memory, Pos, Standard, Tok, Unit};
use gnu_bind::Bound;
use include_tree::{Cache, Fronts, KeptFile, UnitText};
use std::alloc::Global;
use std::marker::Model;
use ws_file::Workspace;

/// A unit that is accepted: its standard, its text, and what its identifiers denote. Its tree is not kept: contracts see
/// the one that its tokens have, and who wants it reads it again.
#[derive(Drop)]
pub struct UnitParts {
    standard: Standard,
    text: UnitText,
    bound: Bound,
}

impl Model for UnitParts {
    ghost use Rattle.std.specs.Coded.{codes};
    ghost use Rattle.c99_tree.specs.TreeCode.{node_code};
    ghost use Rattle.analysis.specs.Analysis.{UnitAnalysis, unit_analysis};
    ghost use Rattle.analysis.specs.Trees.{HasTree, tree_of};

    ghost Value = { UnitAnalysis };

    ghost coded = { Prim.hlevel (codes, node_code) };

    ghost view = { λ u. unit_analysis u.standard u.text (tree_of u.standard u.text.toks) u.bound };

    ghost invariant = { λ u. HasTree u.standard u.text.toks (tree_of u.standard u.text.toks) };
}

// Where the first of some tokens was brought.
fn begin_of(toks: &[Tok]) -> Pos
    ensures { result ≡ begin_of toks.now }
{
    match toks.get(0) {
        Some(tok) => tok.at(),
        None => Pos { file: 0, at: 0 },
    }
}

impl UnitParts {
    ghost use Rattle.analysis.specs.Analysis.{unit_analysis};
    ghost use Rattle.analysis.specs.Trees.{HasTree};
    ghost use Rattle.c99_tree.specs.Joined.{followed};

    pub(crate) fn new(standard: Standard, text: UnitText, tree: &Tree, bound: Bound) -> UnitParts
        requires read { HasTree standard text.toks tree.now }
        ensures { result ≡ unit_analysis standard text tree.now bound }
    {
        UnitParts {
            standard,
            text,
            bound,
        }
    }

    /// The same, where the tree is told in two parts.
    pub(crate) fn behind(
        standard: Standard,
        text: UnitText,
        front: &Tree,
        rest: &Tree,
        bound: Bound,
    ) -> UnitParts
        requires read { HasTree standard text.toks (followed front.now rest.now) }
        ensures { result ≡ unit_analysis standard text (followed front.now rest.now) bound }
    {
        UnitParts {
            standard,
            text,
            bound,
        }
    }

    /// The standard by which the unit is read.
    pub(crate) fn standard(&self) -> Standard
        ensures { result ≡ self.now.standard }
    {
        self.standard
    }

    /// The text of the unit.
    pub fn text(&self) -> &UnitText
        ensures { result.now ≡ self.now.text }
    {
        &self.text
    }

    /// The same unit with another text that has its tree: its standard, its tree, and what its identifiers denote, stay.
    pub fn with_text(self, text: UnitText) -> UnitParts
        requires read { HasTree self.standard text.toks self.tree }
        ensures { result ≡ unit_analysis self.standard text self.tree self.bound }
    {
        let UnitParts {
            standard,
            bound,
            ..
        } = self;
        UnitParts {
            standard,
            text,
            bound,
        }
    }

    /// The tree of the unit, read again.
    pub(crate) fn tree(&self, alloc: Global) -> Result<Tree, Memory>
        ensures { IfOk result (λ tree. tree ≡ self.now.tree) }
    {
        match read_toks(alloc, self.text.toks(), self.standard) {
            Ok(tree) => Ok(tree),
            // It was read before, so memory alone is wanting.
            Err(_) => Err(Memory),
        }
    }

    /// Where the unit begins, if it is one of GNU C.
    pub(crate) fn gnu_begin(&self) -> Option<Pos>
        ensures { result ≡ gnu_begin self.now }
    {
        if self.standard.is_gnu() {
            Some(begin_of(self.text.toks()))
        } else {
            None
        }
    }

    pub(crate) fn bound(&self) -> &Bound
        ensures { result.now ≡ self.now.bound }
    {
        &self.bound
    }
}

/// A workspace, its units in order, and the files that were read for them. The first units are kept, and others made again
/// when someone asks for them.
#[derive(Drop)]
pub(crate) struct Accepted {
    workspace: Workspace,
    kept: Vec<UnitParts>,
    // So many units behind those that are kept.
    others: usize,
    // Where each unit of GNU C begins.
    begins: Vec<Option<Pos>>,
    brought: Vec<Tok>,
    fronts: Vec<UnitFront>,
    cache: Cache,
}

impl Model for Accepted {
    ghost use Rattle.std.specs.Coded.{codes};
    ghost use Rattle.c99_tree.specs.TreeCode.{node_code};
    ghost use Rattle.analysis.specs.Analysis.{AnalysisValue, analysis_and};
    ghost use Rattle.analysis.specs.MadeAgain.{AreTaken, all_units};

    ghost Value = { AnalysisValue };

    ghost coded = { Prim.hlevel (codes, node_code) };

    ghost view = { λ a. analysis_and a.workspace (all_units a.cache.table a.workspace.units a.kept.items a.others) a.cache.table };

    ghost invariant = { λ a. AreTaken a.cache.table a.workspace.units a.kept.items a.others a.begins.items a.brought.items };
}

// Where each of these units begins, if it is one of GNU C.
fn begins_of(alloc: Global, units: &[UnitParts]) -> Result<Vec<Option<Pos>>, Memory>
    ensures { IfOk result (λ begins. begins.items ≡ map gnu_begin units.now) }
{
    let mut begins = Vec::new(alloc);
    for unit in units {
        begins.push(unit.gnu_begin())?;
    }
    Ok(begins)
}

// The fronts, where there are units to be made again.
fn fronts_for(others: usize, mut fronts: Vec<UnitFront>) -> Vec<UnitFront> {
    if others == 0 {
        fronts.clear();
    }
    fronts
}

// So many units from a place on.
fn others_of(units: &[Unit], from: usize, others: usize) -> &[Unit]
    requires { others ≤ length units.now - from }
    ensures { result.now ≡ others_of units.now from others }
{
    if others == 0 {
        return &[];
    }
    &units[from..from + others]
}

// Each of these units made again.
fn made_each(
    alloc: Global,
    cache: &Cache,
    fronts: &[UnitFront],
    units: &[Unit],
) -> Result<Vec<UnitParts>, Memory>
    requires fresh { 0 < length units.now → IsFresh (2 ^ 32 - 1) cache.now.table }
    requires again { AreMadeAgain cache.now.table units.now (units_again cache.now.table units.now) }
    ensures { IfOk result (λ all. all.items ≡ units_again cache.now.table units.now) }
{
    let mut all = Vec::new(alloc);
    let mut shared = Fronts::new(alloc);
    for i in 0..units.len() {
        all.push(unit_again(alloc, cache, &mut shared, fronts, &units[i])?)?;
    }
    Ok(all)
}

impl Accepted {
    ghost use Rattle.analysis.specs.Analysis.{analysis_and};

    pub(crate) fn new(
        workspace: Workspace,
        taken: Taken,
        fronts: Vec<UnitFront>,
        cache: Cache,
    ) -> Accepted
        requires { AreTaken cache.table workspace.units taken.kept.items taken.others taken.begins.items taken.brought.items }
        ensures { result ≡ analysis_and workspace (all_units cache.table workspace.units taken.kept.items taken.others) cache.table }
    {
        let Taken {
            kept,
            others,
            begins,
            brought,
            ..
        } = taken;
        Accepted {
            workspace,
            kept,
            others,
            begins,
            brought,
            fronts: fronts_for(others, fronts),
            cache,
        }
    }

    /// A workspace all of whose units are kept.
    pub(crate) fn of_kept(
        alloc: Global,
        workspace: Workspace,
        units: Vec<UnitParts>,
        cache: Cache,
    ) -> Result<Accepted, Memory>
        requires few { length units.items ≤ most_units }
        ensures { IfOk result (λ a. a ≡ analysis_and workspace units.items cache.table) }
    {
        let begins = begins_of(alloc, &units)?;
        let brought = all_brought(alloc, &units)?;
        Ok(Accepted {
            workspace,
            kept: units,
            others: 0,
            begins,
            brought,
            fronts: Vec::new(alloc),
            cache,
        })
    }

    /// The workspace, all units and the files, each as it is: units that are not kept are made again.
    pub(crate) fn into_parts(
        self,
        alloc: Global,
    ) -> Result<(Workspace, Vec<UnitParts>, Cache), Memory>
        ensures answer { IfOk result (λ r. analysis_and r.0 r.1.items r.2.table ≡ self) }
        ensures few { IfOk result (λ r. length r.1.items ≤ most_units) }
    {
        let Accepted {
            workspace,
            kept,
            others,
            fronts,
            cache,
            ..
        } = self;
        let units = others_of(workspace.units(), kept.len(), others);
        let mut again = made_each(alloc, &cache, &fronts, units)?;
        let mut all = kept;
        all.append(&mut again)?;
        Ok((workspace, all, cache))
    }

    pub(crate) fn workspace(&self) -> &Workspace
        ensures { result.now ≡ self.now.workspace }
    {
        &self.workspace
    }

    /// How many units there are.
    pub(crate) fn count(&self) -> usize
        ensures answer { result ≡ length self.now.units }
        ensures few { length self.now.units ≤ most_units }
    {
        self.kept.len() + self.others
    }

    /// A unit, counted from 0: as it is kept, or made again.
    pub(crate) fn unit<'a>(&'a self, alloc: Global, k: usize) -> Result<UnitAt<'a>, Memory>
        requires { k < length self.now.units }
        ensures { IfOk result (λ u. slice_get self.now.units k ≡ Some u) }
    {
        let mut shared = Fronts::new(alloc);
        self.unit_over(alloc, &mut shared, k)
    }

    /// The same, where the units that were asked for before left fronts.
    pub(crate) fn unit_over<'a>(
        &'a self,
        alloc: Global,
        shared: &mut Fronts,
        k: usize,
    ) -> Result<UnitAt<'a>, Memory>
        requires within { k < length self.now.units }
        requires shared { AreFronts self.now.table shared.old.all.items }
        ensures unit { IfOk result (λ u. slice_get self.now.units k ≡ Some u) }
        ensures shared { OnOk result (AreFronts self.now.table shared.new.all.items) }
    {
        let kept = self.kept.as_slice();
        if k < kept.len() {
            return Ok(UnitAt::kept(&kept[k]));
        }
        let units = self.workspace.units();
        if k < units.len() {
            let again = unit_again(alloc, &self.cache, shared, &self.fronts, &units[k])?;
            return Ok(UnitAt::made(again));
        }
        // Each unit that is not kept is one of the workspace.
        Err(Memory)
    }

    /// Where a unit begins, if it is one of GNU C; units are counted from 0.
    pub(crate) fn gnu_begin(&self, k: usize) -> Option<Pos>
        requires { k < length self.now.units }
        ensures { option_map gnu_begin (slice_get self.now.units k) ≡ Some result }
    {
        let begins = self.begins.as_slice();
        match begins.get(k) {
            Some(begin) => *begin,
            None => None,
        }
    }

    /// The numbers that the units bring, each for each time that it is brought.
    pub(crate) fn brought(&self) -> &[Tok]
        ensures { result.now ≡ all_brought self.now.units }
    {
        &self.brought
    }

    /// How many numbers of files are given: those from 0 to before this one. Each is that of a path of its own,
    /// which is text, and the first that of the pseudo file of lines.
    pub(crate) fn files(&self) -> u32
        ensures answer { result ≡ length self.now.table }
        ensures once { HasEachOnce self.now.table }
        ensures text { AreText self.now.table }
        ensures lines { BeginsWithLines self.now.table }
    {
        self.cache.numbers()
    }

    /// The kept file with this number.
    pub(crate) fn file(&self, number: u32) -> Option<&KeptFile>
        ensures { option_copied result ≡ kept_at self.now.table number }
    {
        self.cache.file(number)
    }

    /// The path that has this number, also one without a kept file.
    pub(crate) fn path(&self, number: u32) -> Option<&[u8]>
        ensures { option_copied result ≡ option_map (λ e. e.path) (slice_get self.now.table number) }
    {
        self.cache.path(number)
    }

    /// The path that has this number, if no file was there when it was asked for.
    pub(crate) fn absent(&self, number: u32) -> Option<&[u8]>
        ensures { option_copied result ≡ absent_at self.now.table number }
    {
        self.cache.absent(number)
    }
}
