// The walk over the items of a file and of those that it includes (6.10).
ghost use Rattle.std.specs.Prelude.{◌≡◌, ◌-◌, IfOk, IfErr, IfSome, IsSome, length, slice_get};
ghost use Rattle.cs_base.specs.Answer.{Gives};
ghost use Rattle.cs_base.specs.Outside.{ReadsOnly};
ghost use Rattle.source_files.specs.Files.{Source};
ghost use Rattle.source_files.specs.Faults.{fault_at};
ghost use Rattle.unit_steps.specs.State.{Context, State};
ghost use Rattle.unit_steps.specs.Expanding.{most_toks};
ghost use Rattle.include_tree.specs.Including.{Inner, entered, included, unless_once};
ghost use Rattle.include_tree.specs.Walk.{items_in, item_step, file_end, file_items};
ghost use Rattle.unit_steps.specs.Texts.{UnitTextValue};
ghost use Rattle.source_files.specs.Answers.{fault_of, IsNoReadFault, reads_of, ReadsOn};
ghost use Rattle.source_files.specs.Tables.{AreFound};
ghost use Rattle.unit_steps.specs.Keeping.{put_after};
ghost use Rattle.unit_steps.specs.Moments.{state_in, IsAble, GoesOn, IsReady};
ghost use Rattle.source_files.specs.Sources.{source_kept, source_at, unit_most};
ghost use Rattle.include_tree.specs.GivenFiles.{unit_context};
ghost use Rattle.include_tree.specs.Walking.{stepped_after, inner_in, given_line, GivesItem, IsSoundLine};

use crate::asking::ask_section;
use crate::including::{behind_found, open_header};
use crate::item_steps::{FileLine, item_step};
use crate::item_toks::{item_at, source_of};
use crate::sections::Sections;
use cs_base::{Cause, Files, Memory, Pos, Standard, Unit};
use source_files::{Cache, Header, KeptFile, PreFault};
use std::alloc::Global;
use unit_steps::Progress;

// The kept file with this number.
pub(crate) fn kept_file(cache: &Cache, number: u32) -> &KeptFile
    requires { IsSome (source_at cache.now.table number) }
    ensures { source_kept result.now ≡ source_at cache.now.table number }
{
    match cache.file(number) {
        Some(file) => file,
        None => unreachable!(),
    }
}

// A fault at a position in it.
fn fault_in(alloc: Global, cache: &Cache, number: u32, at: Pos, cause: Cause) -> PreFault
    requires { IsSome (source_at cache.now.table number) }
    ensures answer { IfSome (source_at cache.now.table number) (λ file. IfSome (fault_of result) (λ f. f ≡ fault_at file at cause)) }
    ensures no_read { IsNoReadFault result }
{
    source_of(kept_file(cache, number)).fault(alloc, at, cause)
}

// How many items it has. More than 2^32, which no file has, are answered by `Memory`.
pub(crate) fn item_count(cache: &Cache, number: u32) -> Result<u32, Memory>
    requires { IsSome (source_at cache.now.table number) }
    ensures { IfOk result (λ n. IfSome (source_at cache.now.table number) (λ file. n ≡ length (items_in file))) }
{
    let count = kept_file(cache, number).items().len();
    if count > u32::MAX as usize {
        return Err(Memory);
    }
    Ok(count as u32)
}

// The end of it: no section may be open.
pub(crate) fn file_end(
    alloc: Global,
    cache: &Cache,
    number: u32,
    sections: &Sections,
) -> Result<(), PreFault>
    requires { IsSome (source_at cache.now.table number) }
    ensures answer { IfSome (source_at cache.now.table number) (λ file. (s : State) (k : UnitTextValue) → Gives (λ _. (s, k)) fault_of result (put_after k (file_end file sections.now s))) }
    ensures no_read { IfErr result IsNoReadFault }
{
    match sections.innermost() {
        Some(open) => Err(fault_in(alloc, cache, number, open.opening(), Cause::UnbalancedIf)),
        None => Ok(()),
    }
}

// Its item number `k`, if there is one.
fn next_item(
    cache: &Cache,
    p: &mut Progress,
    standard: Standard,
    number: u32,
    k: u32,
    sections: &mut Sections,
) -> Result<Option<FileLine>, PreFault>
    requires kept { IsSome (source_at cache.now.table number) }
    requires able { IsAble p.old }
    ensures goes_on { GoesOn p.old p.new result }
    ensures no_read { IfErr result IsNoReadFault }
    ensures sound { IfOk result (λ l. IfSome l IsSoundLine) }
    ensures answer { (ctx : Context) (inner : Inner) → most_toks ctx ≡ p.old.most → ctx.unit.standard ≡ standard → IfSome (source_at cache.now.table number) (λ file. IfSome (slice_get (items_in file) k) (λ i. GivesItem ctx inner file result sections.new (state_in cache.now.table p.new) p.new.text (stepped_after p.old.text (item_step ctx inner file k i sections.old (state_in cache.now.table p.old))))) }
{
    let file = kept_file(cache, number);
    match item_at(file, k) {
        Some(item) => item_step(p, standard, &source_of(file), k, &item, sections),
        None => Ok(None),
    }
}

/// The items of the kept file with this number, where `room` more files may be open inside it.
#[cycle(walk)]
pub(crate) fn walk_file<F: Files>(
    alloc: Global,
    cache: &mut Cache,
    files: &mut F,
    p: &mut Progress,
    unit: &Unit,
    number: u32,
    room: u32,
) -> Result<(), PreFault>
    requires kept { IsSome (source_at cache.old.table number) }
    requires ready { IsReady p.old (unit_most cache.old.toks) }
    ensures answer { (source : Source) → AreFound source cache.new.table → IfSome (source_at cache.old.table number) (λ file.
        Gives (λ _. (state_in cache.new.table p.new, p.new.text)) fault_of result
        (put_after p.old.text (file_items (unit_context source unit.now cache.old.toks) room file (state_in cache.old.table p.old)))) }
    ensures goes_on { GoesOn p.old p.new result }
    ensures reads { ReadsOn (F.told files.old).held cache.old cache.new }
    ensures faults { ReadsOnly (F.told files.old) (F.told files.new) (reads_of result) }
{
    let mut sections = Sections::new(alloc);
    let count = item_count(cache, number)?;
    for k in 0..count {
        match walk_item(alloc, cache, files, p, unit, number, room, k, &mut sections) {
            Ok(()) => {}
            Err(fault) => return Err(fault),
        }
    }
    file_end(alloc, cache, number, &sections)
}

#[cycle(walk)]
// Its item number `k`, if there is one.
pub(crate) fn walk_item<F: Files>(
    alloc: Global,
    cache: &mut Cache,
    files: &mut F,
    p: &mut Progress,
    unit: &Unit,
    number: u32,
    room: u32,
    k: u32,
    sections: &mut Sections,
) -> Result<(), PreFault>
    requires kept { IsSome (source_at cache.old.table number) }
    requires ready { IsReady p.old (unit_most cache.old.toks) }
    ensures answer { (source : Source) → AreFound source cache.new.table → IfSome (source_at cache.old.table number) (λ file. IfSome (slice_get (items_in file) k) (λ i.
        Gives (λ _. (sections.new, state_in cache.new.table p.new, p.new.text)) fault_of result
        (stepped_after p.old.text (item_step (unit_context source unit.now cache.old.toks) (inner_in (unit_context source unit.now cache.old.toks) room) file k i sections.old (state_in cache.old.table p.old))))) }
    ensures goes_on { GoesOn p.old p.new result }
    ensures reads { ReadsOn (F.told files.old).held cache.old cache.new }
    ensures faults { ReadsOnly (F.told files.old) (F.told files.new) (reads_of result) }
{
    match next_item(cache, p, unit.standard(), number, k, sections) {
        Ok(Some(line)) => walk_line(alloc, cache, files, p, unit, number, room, &line, sections),
        Ok(None) => Ok(()),
        Err(fault) => Err(fault),
    }
}

#[cycle(walk)]
// A line of it for which files are asked.
fn walk_line<F: Files>(
    alloc: Global,
    cache: &mut Cache,
    files: &mut F,
    p: &mut Progress,
    unit: &Unit,
    number: u32,
    room: u32,
    line: &FileLine,
    sections: &mut Sections,
) -> Result<(), PreFault>
    requires kept { IsSome (source_at cache.old.table number) }
    requires ready { IsReady p.old (unit_most cache.old.toks) }
    requires sound { IsSoundLine line.now }
    ensures answer { (source : Source) → AreFound source cache.new.table → IfSome (source_at cache.old.table number) (λ file.
        Gives (λ _. (sections.new, state_in cache.new.table p.new, p.new.text)) fault_of result
        (given_line (unit_context source unit.now cache.old.toks) (inner_in (unit_context source unit.now cache.old.toks) room) file line.now sections.old (state_in cache.old.table p.old) p.old.text)) }
    ensures goes_on { GoesOn p.old p.new result }
    ensures reads { ReadsOn (F.told files.old).held cache.old cache.new }
    ensures faults { ReadsOnly (F.told files.old) (F.told files.new) (reads_of result) }
{
    match line {
        FileLine::Include(line) => include_file(
            alloc,
            cache,
            files,
            p,
            unit,
            number,
            room,
            line.at,
            line.next,
            &line.header,
        ),
        FileLine::Condition(line) => {
            ask_section(alloc, cache, files, p, unit, number, line, sections)
        }
    }
}

#[cycle(walk)]
// The file of a header takes the place of an include line of this file, whose `#` is there.
fn include_file<F: Files>(
    alloc: Global,
    cache: &mut Cache,
    files: &mut F,
    p: &mut Progress,
    unit: &Unit,
    number: u32,
    room: u32,
    at: Pos,
    next: bool,
    header: &Header,
) -> Result<(), PreFault>
    requires kept { IsSome (source_at cache.old.table number) }
    requires ready { IsReady p.old (unit_most cache.old.toks) }
    ensures answer { (source : Source) → AreFound source cache.new.table → IfSome (source_at cache.old.table number) (λ file.
        Gives (λ _. (state_in cache.new.table p.new, p.new.text)) fault_of result
        (put_after p.old.text (included (unit_context source unit.now cache.old.toks) (inner_in (unit_context source unit.now cache.old.toks) room) file at next header.now (state_in cache.old.table p.old)))) }
    ensures goes_on { GoesOn p.old p.new result }
    ensures reads { ReadsOn (F.told files.old).held cache.old cache.new }
    ensures faults { ReadsOnly (F.told files.old) (F.told files.new) (reads_of result) }
{
    if room == 0 {
        return Err(fault_in(alloc, cache, number, at, Cause::IncludeDepth));
    }
    match open_header(
        alloc, cache, files, unit, number, at, next, header, p.behind,
    ) {
        Ok(inner) => {
            let behind = behind_found(alloc, cache, unit, number, next, header, p.behind, inner)?;
            enter_file(alloc, cache, files, p, unit, inner, room - 1, at, behind)
        }
        Err(fault) => Err(fault),
    }
}

#[cycle(walk)]
// The items of the kept file with this number, which an include line whose `#` is there passes over where the file is read once.
fn read_file<F: Files>(
    alloc: Global,
    cache: &mut Cache,
    files: &mut F,
    p: &mut Progress,
    unit: &Unit,
    number: u32,
    room: u32,
    at: Pos,
) -> Result<(), PreFault>
    requires kept { IsSome (source_at cache.old.table number) }
    requires ready { IsReady p.old (unit_most cache.old.toks) }
    ensures answer { (source : Source) → AreFound source cache.new.table → IfSome (source_at cache.old.table number) (λ file.
        Gives (λ _. (state_in cache.new.table p.new, p.new.text)) fault_of result
        (put_after p.old.text (unless_once at (file_items (unit_context source unit.now cache.old.toks) room) file (state_in cache.old.table p.old)))) }
    ensures goes_on { GoesOn p.old p.new result }
    ensures reads { ReadsOn (F.told files.old).held cache.old cache.new }
    ensures faults { ReadsOnly (F.told files.old) (F.told files.new) (reads_of result) }
{
    if p.is_read_once(number) {
        p.pass(at, number)?;
        return Ok(());
    }
    walk_file(alloc, cache, files, p, unit, number, room)
}

#[cycle(walk)]
// The items of the kept file with this number, entered and left by an include line whose `#` is there.
fn enter_file<F: Files>(
    alloc: Global,
    cache: &mut Cache,
    files: &mut F,
    p: &mut Progress,
    unit: &Unit,
    number: u32,
    room: u32,
    at: Pos,
    behind: Option<u32>,
) -> Result<(), PreFault>
    requires kept { IsSome (source_at cache.old.table number) }
    requires ready { IsReady p.old (unit_most cache.old.toks) }
    ensures answer { (source : Source) → AreFound source cache.new.table → IfSome (source_at cache.old.table number) (λ file.
        Gives (λ _. (state_in cache.new.table p.new, p.new.text)) fault_of result
        (put_after p.old.text (entered (unless_once at (file_items (unit_context source unit.now cache.old.toks) room)) at behind file (state_in cache.old.table p.old)))) }
    ensures goes_on { GoesOn p.old p.new result }
    ensures reads { ReadsOn (F.told files.old).held cache.old cache.new }
    ensures faults { ReadsOnly (F.told files.old) (F.told files.new) (reads_of result) }
{
    p.enter(at, number)?;
    let outer = p.behind;
    p.behind = behind;
    match read_file(alloc, cache, files, p, unit, number, room, at) {
        Ok(()) => {}
        Err(fault) => return Err(fault),
    }
    p.behind = outer;
    p.leave(at, number)?;
    Ok(())
}
