// The analysis of a workspace: its units, the files read, and the classes of the parts of tokens.
ghost use Rattle.std.specs.Prelude.{◌≡◌, ◌≤◌, ◌-◌, Some, IfOk, IfSome, length, slice_get, option_copied};
ghost use Rattle.std.specs.Option.{option_map};
ghost use Rattle.cs_base.specs.Answer.{Gives};
ghost use Rattle.cs_base.specs.Outside.{ReadsOnly};
ghost use Rattle.include_tree.specs.Below.source_files.Faults.{place_of};
ghost use Rattle.include_tree.specs.Below.source_files.Files.{Table, absent_at, source_of};
ghost use Rattle.include_tree.specs.Below.source_files.KeptFiles.{kept_at};
ghost use Rattle.include_tree.specs.Below.source_files.Tables.{AreText, HasEachOnce};
ghost use Rattle.analysis.specs.Analysis.{analysis_of};
ghost use Rattle.analysis.specs.AnalysisAnswers.{IsAnalysedOr};
ghost use Rattle.analysis.specs.Answers.{fault_of, reads_of};
ghost use Rattle.analysis.specs.BroughtNumbers.{AreNumbers, all_brought};
ghost use Rattle.analysis.specs.Carrying.{IsOver};
ghost use Rattle.analysis.specs.Classes.{AreItsClasses};
ghost use Rattle.analysis.specs.GnuUnits.{gnu_begin};
ghost use Rattle.analysis.specs.Marking.{AreMarked};
ghost use Rattle.analysis.specs.Naming.{Names, names_processed};
ghost use Rattle.analysis.specs.Parts.{AreFirsts, AreMembers, Holds, IsPart, StandInFiles};
ghost use Rattle.analysis.specs.Places.{is_read_only, place_at};
ghost use Rattle.analysis.specs.Placing.{byte_at, IsPositionAt};
ghost use Rattle.analysis.specs.Spellings.{spelling_of};

mod parting;

use crate::accepted::Accepted;
use crate::accepting::accept;
use crate::analyse_fault::AnalyseFault;
use crate::class_lists::lists;
use crate::file_tokens::{file_classes, numbers};
use crate::linking::join_links;
use crate::listed::Lists;
use crate::marks::Marks;
use crate::naming::part_named;
use crate::placing::{byte, place_in_one, position};
use crate::read_only::is_read_only_path;
use crate::spelling::spelling;
use crate::unit_at::UnitAt;
use cs_base::{Files, Memory, Part, Pos, Tok};
use eclass_map::Classes;
use include_tree::KeptFile;
pub use parting::AnalysisParts;
use std::alloc::Global;
use std::marker::Model;
use ws_file::Workspace;

/// How many tokens the units of an analysis may have together that are kept.
const MOST_KEPT: usize = 1 << 22;

/// A workspace all of whose units are accepted, and the classes of the parts of its tokens. Contracts see
/// the units with the files read, and the table of classes.
#[derive(Drop)]
pub struct Analysis {
    accepted: Accepted,
    classes: Classes,
    lists: Lists,
    marks: Vec<Marks>,
    numbers: Vec<Tok>,
}

impl Model for Analysis {
    ghost use Rattle.std.specs.Coded.{codes};
    ghost use Rattle.c99_tree.specs.TreeCode.{node_code};
    ghost use Rattle.analysis.specs.Analysed.{Analysed, analysed};
    ghost use Rattle.analysis.specs.AnalysisFields.{IsAnalysed};

    ghost Value = { Analysed };

    ghost coded = { Prim.hlevel (codes, node_code) };

    ghost view = { λ a. analysed a.accepted a.classes };

    ghost invariant = { λ a. IsAnalysed a.accepted a.classes a.lists a.marks.items a.numbers.items };
}

/// Preprocesses, reads and binds all units of a workspace in order, and joins what must be spelled alike.
/// Refused: `WorkspaceFault` at the first fault, that of the least unit which has one, where preprocessing
/// comes before reading and reading before binding; `ReadFault` where a read failed, with its path; `Memory`
/// where memory ran out. The files hold what they held.
pub fn analyse<F: Files>(
    alloc: Global,
    ws: &Workspace,
    files: &mut F,
) -> Result<Analysis, AnalyseFault>
    // The workspace is kept, and the classes are those of the links of its units.
    ensures whole { IfOk result (λ a. (a.value.workspace ≡ ws.now) × AreItsClasses a.value a.classes) }
    // The analysis, or the first fault, is so over every source that agrees with what was read; that is kept.
    ensures over { (table : Table) × IfOk result (λ a. a.value.table ≡ table)
        × IsOver (F.told files.old).held table (λ source. Gives (λ a. a.value) fault_of result (analysis_of source ws.now)) }
    // So it is over what the files hold, where that is told.
    ensures answer { IfSome (F.told files.old).held (λ held. Gives (λ a. a.value) fault_of result (analysis_of (source_of held) ws.now)) }
    ensures faults { ReadsOnly (F.told files.old) (F.told files.new) (reads_of result) }
{
    analyse_within(alloc, ws, files, MOST_KEPT)
}

/// The same, where the units that are kept have at most so many tokens together: the others are made again when they are
/// asked for.
pub fn analyse_within<F: Files>(
    alloc: Global,
    ws: &Workspace,
    files: &mut F,
    room: usize,
) -> Result<Analysis, AnalyseFault>
    // The workspace is kept, and the classes are those of the links of its units.
    ensures whole { IfOk result (λ a. (a.value.workspace ≡ ws.now) × AreItsClasses a.value a.classes) }
    // The analysis, or the first fault, is so over every source that agrees with what was read; that is kept.
    ensures over { (table : Table) × IfOk result (λ a. a.value.table ≡ table)
        × IsOver (F.told files.old).held table (λ source. Gives (λ a. a.value) fault_of result (analysis_of source ws.now)) }
    // So it is over what the files hold, where that is told.
    ensures answer { IfSome (F.told files.old).held (λ held. Gives (λ a. a.value) fault_of result (analysis_of (source_of held) ws.now)) }
    ensures faults { ReadsOnly (F.told files.old) (F.told files.new) (reads_of result) }
{
    match accept(alloc, ws, files, room) {
        Ok(accepted) => analysed(alloc, accepted),
        Err(fault) => Err(fault),
    }
}

// The analysis of units that are accepted; refused only where memory ran out.
fn analysed(alloc: Global, accepted: Accepted) -> Result<Analysis, AnalyseFault>
    ensures { IsAnalysedOr accepted result }
{
    match with_classes(alloc, accepted) {
        Ok(analysis) => Ok(analysis),
        Err(_) => Err(AnalyseFault::Memory),
    }
}

fn with_classes(alloc: Global, accepted: Accepted) -> Result<Analysis, Memory>
    ensures { IfOk result (λ a. (a.value ≡ accepted) × AreItsClasses a.value a.classes) }
{
    let numbers = numbers(alloc, accepted.brought())?;
    let (classes, marks) = joined_classes(alloc, &accepted, &numbers)?;
    with_lists(alloc, accepted, classes, marks, numbers)
}

#[tactic(auto, using(crate::proofs::PositionLemmas::lines_not_kept))]
// The same with its table of classes, the marks on what units process, and the numbers that they bring.
fn with_lists(
    alloc: Global,
    accepted: Accepted,
    classes: Classes,
    marks: Vec<Marks>,
    numbers: Vec<Tok>,
) -> Result<Analysis, Memory>
    requires own { AreItsClasses accepted classes }
    requires marked { AreMarked accepted.table (names_processed accepted) marks.items }
    requires numbered { AreNumbers (all_brought accepted.units) numbers.items }
    ensures { IfOk result (λ a. (a.value ≡ accepted) × (a.classes ≡ classes)) }
{
    // The first number is that of the pseudo file of lines, which is not kept.
    let _files = accepted.files();
    let lists = lists(alloc, &accepted, &classes)?;
    Ok(Analysis {
        accepted,
        classes,
        lists,
        marks,
        numbers,
    })
}

// The table of classes: the file tokens, with the links joined; and the marks on what units process.
fn joined_classes(
    alloc: Global,
    accepted: &Accepted,
    numbers: &[Tok],
) -> Result<(Classes, Vec<Marks>), Memory>
    requires { AreNumbers (all_brought accepted.now.units) numbers.now }
    ensures own { IfOk result (λ r. AreItsClasses accepted.now r.0) }
    ensures marked { IfOk result (λ r. AreMarked accepted.now.table (names_processed accepted.now) r.1.items) }
{
    let mut classes = file_classes(alloc, accepted, numbers)?;
    let marks = join_links(alloc, accepted, &mut classes)?;
    Ok((classes, marks))
}

impl Analysis {
    /// The workspace that was analysed.
    pub fn workspace(&self) -> &Workspace
        ensures { result.now ≡ self.now.value.workspace }
    {
        self.accepted.workspace()
    }

    /// How many units there are.
    pub fn units(&self) -> u32
        ensures { result ≡ length self.now.value.units }
    {
        self.accepted.count() as u32
    }

    /// A unit; units count from 1. Whoever asks drops it before the next one: a unit that is not kept is made again.
    pub fn unit<'a>(&'a self, alloc: Global, unit: u32) -> Result<UnitAt<'a>, Memory>
        requires first { 1 ≤ unit }
        requires last { unit ≤ length self.now.value.units }
        ensures { IfOk result (λ u. slice_get self.now.value.units (unit - 1) ≡ Some u) }
    {
        self.accepted.unit(alloc, unit as usize - 1)
    }

    /// Where a unit begins, if it is one of GNU C.
    pub fn gnu_begin(&self, unit: u32) -> Option<Pos>
        requires first { 1 ≤ unit }
        requires last { unit ≤ length self.now.value.units }
        ensures { option_map gnu_begin (slice_get self.now.value.units (unit - 1)) ≡ Some result }
    {
        self.accepted.gnu_begin(unit as usize - 1)
    }

    /// How many numbers of files are given: those from 0 to before this one. Each is that of a path of its own,
    /// which is text; a character of a file token that stands in no kept file stands in the pseudo file of lines.
    /// Takes no memory.
    pub fn files(&self) -> u32
        ensures answer { result ≡ length self.now.value.table }
        ensures once { HasEachOnce self.now.value.table }
        ensures text { AreText self.now.value.table }
        ensures lines { StandInFiles self.now.value }
    {
        self.accepted.files()
    }

    /// The kept file with this number: none exactly where the number is 0, is past the table, or is that of
    /// a path without a kept file. Takes no memory.
    pub fn file(&self, number: u32) -> Option<&KeptFile>
        ensures { option_copied result ≡ kept_at self.now.value.table number }
    {
        self.accepted.file(number)
    }

    /// The path that has this number, if no file was there when it was asked for. Takes no memory.
    pub fn absent(&self, number: u32) -> Option<&[u8]>
        ensures { option_copied result ≡ absent_at self.now.value.table number }
    {
        self.accepted.absent(number)
    }

    /// The path, the line and the column of a position. Those of a position in the pseudo file of lines are in
    /// `<lines>`, as are those of a number without a kept file. Takes no memory.
    pub fn place(&self, at: Pos) -> (&[u8], u32, u32)
        ensures { place_of result.0.now (result.1, result.2) ≡ place_at self.now.value.table at }
    {
        place_in_one(self.accepted.file(at.file), at)
    }

    /// The byte of its file at which the character of a position begins: none in the pseudo file of lines, for a
    /// number without a kept file, and past the last character. Takes no memory.
    pub fn byte(&self, at: Pos) -> Option<u32>
        ensures { result ≡ byte_at self.now.value.table at }
    {
        byte(&self.accepted, at)
    }

    /// The position whose place this is: a character of a kept file, or one of the pseudo file of lines. Lines and
    /// columns count from 1. Takes no memory.
    pub fn position(&self, path: &str, line: u32, column: u32) -> Option<Pos>
        ensures { IsPositionAt self.now.value.table (place_of path.now (line, column)) result }
    {
        position(&self.accepted, path.as_bytes(), line, column)
    }

    /// Whether the number is that of a pseudo file, or of a file whose path begins with a read-only prefix.
    pub fn read_only(&self, number: u32) -> bool
        ensures { result ≡ is_read_only self.now.value.table self.now.value.workspace.readonly number }
    {
        if number == 0 {
            return true;
        }
        let prefixes = self.accepted.workspace().readonly();
        match self.accepted.file(number) {
            Some(file) => is_read_only_path(prefixes, file.path()),
            None => false,
        }
    }

    /// The part that a place names: the one that holds its character, where that lies in an identifier which
    /// some unit processes. Lines and columns count from 1. Takes no memory.
    pub fn part_at(&self, path: &str, line: u32, column: u32) -> Option<Part>
        ensures { Names self.now.value path.now line column result }
    {
        part_named(
            &self.accepted,
            &self.classes,
            &self.marks,
            path.as_bytes(),
            line,
            column,
        )
    }

    /// The part that holds a character of an identifier or pp-number of a kept file, or of a number that a
    /// unit brought: none for every other position. Takes no memory.
    pub fn part_of(&self, pos: Pos) -> Option<Part>
        ensures { Holds self.now.value pos result }
    {
        self.classes.part_at(pos)
    }

    /// The class of a part: its members in the order of their places. Takes no memory.
    pub fn members(&self, part: Part) -> &[Part]
        requires { IsPart self.now.value part }
        ensures { AreMembers self.now.value part result.now }
    {
        match self.classes.class_of(part) {
            Some(class) => self.lists.members(class),
            None => &[],
        }
    }

    /// The characters of a part. Takes no memory.
    pub fn spelling(&self, part: Part) -> &[u8]
        requires { IsPart self.now.value part }
        ensures { result.now ≡ spelling_of self.now.value part }
    {
        spelling(&self.accepted, &self.numbers, part)
    }

    /// The numbers that the units bring, each for each time that it is brought. Takes no memory.
    pub fn numbers_brought(&self) -> &[Tok]
        ensures { result.now ≡ all_brought self.now.value.units }
    {
        self.accepted.brought()
    }

    /// The first member of each class, in the order of their places. Takes no memory.
    pub fn firsts(&self) -> &[Part]
        ensures { AreFirsts self.now.value result.now }
    {
        self.lists.firsts()
    }

    /// The table of classes; its added tokens are the file tokens.
    pub fn classes(&self) -> &Classes
        ensures answer { result.now ≡ self.now.classes }
        ensures own { AreItsClasses self.now.value self.now.classes }
    {
        &self.classes
    }
}
