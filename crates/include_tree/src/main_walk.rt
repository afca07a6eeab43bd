// The file of a unit, which may begin as units before did.
ghost use Rattle.std.specs.Prelude.{◌≡◌, ◌≤◌, ◌+◌, None, Some, IfOk, IfErr, IfSome, IsSome, OnOk, length, false, ℕ};
ghost use Rattle.cs_base.specs.Answer.{Gives};
ghost use Rattle.cs_base.specs.Outside.{ReadsOnly};
ghost use Rattle.source_files.specs.Answers.{fault_of, reads_of, ReadsOn};
ghost use Rattle.source_files.specs.Files.{Source, Table};
ghost use Rattle.source_files.specs.Sources.{source_at, unit_most};
ghost use Rattle.source_files.specs.Tables.{AreFound};
ghost use Rattle.unit_steps.specs.Directives.{is_read_once};
ghost use Rattle.unit_steps.specs.Keeping.{put_after};
ghost use Rattle.unit_steps.specs.Moments.{state_in, IsAble, GoesOn, IsReady};
ghost use Rattle.include_tree.specs.Fronts.{HasBegun, IsAlong, HasPiece, AreFronts, trail_texts};
ghost use Rattle.include_tree.specs.GivenFiles.{unit_context};
ghost use Rattle.include_tree.specs.Leads.{IsLead, rest_at, LeavesRest, goes_past};
ghost use Rattle.include_tree.specs.Walk.{items_in, file_items};

use crate::fronts::{Fronts, Line, Trail, put_front};
use crate::leads::{Lead, lead_at, leads_of};
use crate::sections::Sections;
use crate::walking::{file_end, item_count, walk_file, walk_item};
use cs_base::{Files, Memory, Unit};
use source_files::{Cache, PreFault};
use std::alloc::Global;
use unit_steps::{Progress, UnitText};

// So many more files may be open inside the file of the unit, and inside one that it includes.
const MOST_INSIDE: u32 = 199;

const MOST_DEEPER: u32 = 198;

// The unit before had this line there.
fn is_line_before(line: Option<&Line>, lead: Lead) -> bool {
    match line {
        Some(line) => line.number == lead.number && line.behind == lead.behind,
        None => false,
    }
}

// The line of a lead.
fn line_of(lead: Lead) -> Line
    ensures number { result.number ≡ lead.number }
    ensures behind { result.behind ≡ lead.behind }
{
    Line {
        number: lead.number,
        behind: lead.behind,
    }
}

// Where its file is not read once, or was not yet.
fn unless_passed(p: &Progress, lead: Lead) -> Option<Lead>
    ensures same { IfSome result (λ l. l ≡ lead) }
    ensures other { IfSome result (λ l. (table : Table) → is_read_once l.number (state_in table p.now) ≡ false) }
{
    if p.is_read_once(lead.number) {
        return None;
    }
    Some(lead)
}

// The line at which the file of the unit goes on as the unit before did, if it does and its file is known and not passed over.
fn next_lead(
    alloc: Global,
    cache: &Cache,
    p: &Progress,
    unit: &Unit,
    main: u32,
    k: u32,
    line: Option<&Line>,
) -> Result<Option<Lead>, Memory>
    requires kept { IsSome (source_at cache.now.table main) }
    ensures lead { IfOk result (λ o. IfSome o (λ l. IfSome (source_at cache.now.table main) (λ file. IsLead unit.now cache.now.table file k l))) }
    ensures other { IfOk result (λ o. IfSome o (λ l. (table : Table) → is_read_once l.number (state_in table p.now) ≡ false)) }
{
    match lead_at(alloc, cache, unit, main, k)? {
        Some(lead) => {
            if is_line_before(line, lead) {
                Ok(unless_passed(p, lead))
            } else {
                Ok(None)
            }
        }
        None => Ok(None),
    }
}

// The file of such a line, item number `k` of file `main`, takes its place: what it gives.
fn walk_lead<F: Files>(
    alloc: Global,
    cache: &mut Cache,
    files: &mut F,
    p: &mut Progress,
    unit: &Unit,
    main: u32,
    k: u32,
    lead: Lead,
) -> Result<UnitText, PreFault>
    requires kept { IsSome (source_at cache.old.table main) }
    requires ready { IsReady p.old (unit_most cache.old.toks) }
    requires place { p.old.behind ≡ None }
    requires lead { IfSome (source_at cache.old.table main) (λ file. IsLead unit.now cache.old.table file k lead) }
    requires other { (table : Table) → is_read_once lead.number (state_in table p.old) ≡ false }
    ensures answer { (source : Source) → AreFound source cache.new.table → IfSome (source_at cache.old.table main) (λ file.
        LeavesRest (goes_past k result) (unit_context source unit.now cache.old.toks) file (state_in cache.new.table p.new) p.new.text
        (rest_at (unit_context source unit.now cache.old.toks) file k (state_in cache.old.table p.old) p.old.text)) }
    ensures piece { IfOk result (λ text. HasPiece unit.now cache.new.table lead (state_in cache.old.table p.old) p.old.text (state_in cache.new.table p.new) p.new.text text) }
    ensures goes_on { GoesOn p.old p.new result }
    ensures place { OnOk result (p.new.behind ≡ None) }
    ensures reads { ReadsOn (F.told files.old).held cache.old cache.new }
    ensures faults { ReadsOnly (F.told files.old) (F.told files.new) (reads_of result) }
{
    p.reach(main, k, false)?;
    p.enter(lead.at, lead.number)?;
    p.behind = lead.behind;
    let from = p.text.mark();
    match walk_file(alloc, cache, files, p, unit, lead.number, MOST_DEEPER) {
        Ok(()) => {}
        Err(fault) => return Err(fault),
    }
    let _numbers = cache.numbers();
    let piece = p.text.piece(alloc, from, p.text.mark())?;
    p.behind = None;
    p.leave(lead.at, lead.number)?;
    Ok(piece)
}

// The same, and the trail goes on with the line.
fn go_line<F: Files>(
    alloc: Global,
    cache: &mut Cache,
    files: &mut F,
    p: &mut Progress,
    unit: &Unit,
    pseudo: u32,
    main: u32,
    k: u32,
    lead: Lead,
    trail: &mut Trail,
) -> Result<(), PreFault>
    requires kept { IsSome (source_at cache.old.table main) }
    requires ready { IsReady p.old (unit_most cache.old.toks) }
    requires place { p.old.behind ≡ None }
    requires lead { IfSome (source_at cache.old.table main) (λ file. IsLead unit.now cache.old.table file k lead) }
    requires other { (table : Table) → is_read_once lead.number (state_in table p.old) ≡ false }
    requires along { IsAlong unit.now cache.old.table pseudo trail.old (state_in cache.old.table p.old) p.old.text }
    ensures answer { (source : Source) → AreFound source cache.new.table → IfSome (source_at cache.old.table main) (λ file.
        LeavesRest (goes_past k result) (unit_context source unit.now cache.old.toks) file (state_in cache.new.table p.new) p.new.text
        (rest_at (unit_context source unit.now cache.old.toks) file k (state_in cache.old.table p.old) p.old.text)) }
    ensures along { OnOk result (IsAlong unit.now cache.new.table pseudo trail.new (state_in cache.new.table p.new) p.new.text) }
    ensures count { OnOk result (length trail.new.lines.items ≡ length trail.old.lines.items + 1) }
    ensures goes_on { GoesOn p.old p.new result }
    ensures place { OnOk result (p.new.behind ≡ None) }
    ensures reads { ReadsOn (F.told files.old).held cache.old cache.new }
    ensures faults { ReadsOnly (F.told files.old) (F.told files.new) (reads_of result) }
{
    match walk_lead(alloc, cache, files, p, unit, main, k, lead) {
        Ok(piece) => {
            trail.push(alloc, line_of(lead), piece)?;
            Ok(())
        }
        Err(fault) => Err(fault),
    }
}

// The lines with which the file of the unit goes on behind a trail, as long as it goes on as the unit before did.
fn walk_leads<F: Files>(
    alloc: Global,
    cache: &mut Cache,
    files: &mut F,
    p: &mut Progress,
    unit: &Unit,
    pseudo: u32,
    main: u32,
    before: &[Line],
    trail: &mut Trail,
) -> Result<u32, PreFault>
    requires kept { IsSome (source_at cache.old.table main) }
    requires ready { IsReady p.old (unit_most cache.old.toks) }
    requires place { p.old.behind ≡ None }
    requires along { IsAlong unit.now cache.old.table pseudo trail.old (state_in cache.old.table p.old) p.old.text }
    ensures answer { (source : Source) → AreFound source cache.new.table → IfSome (source_at cache.old.table main) (λ file.
        LeavesRest result (unit_context source unit.now cache.old.toks) file (state_in cache.new.table p.new) p.new.text
        (rest_at (unit_context source unit.now cache.old.toks) file (length trail.old.lines.items) (state_in cache.old.table p.old) p.old.text)) }
    ensures along { OnOk result (IsAlong unit.now cache.new.table pseudo trail.new (state_in cache.new.table p.new) p.new.text) }
    ensures goes_on { GoesOn p.old p.new result }
    ensures place { OnOk result (p.new.behind ≡ None) }
    ensures reads { ReadsOn (F.told files.old).held cache.old cache.new }
    ensures faults { ReadsOnly (F.told files.old) (F.told files.new) (reads_of result) }
{
    let from = trail.count()?;
    let count = item_count(cache, main)?;
    for k in from..count {
        match next_lead(alloc, cache, p, unit, main, k, before.get(k as usize))? {
            Some(lead) => match go_line(
                alloc, cache, files, p, unit, pseudo, main, k, lead, trail,
            ) {
                Ok(()) => {}
                Err(fault) => return Err(fault),
            },
            None => return Ok(k),
        }
    }
    Ok(trail.count()?)
}

// The items of the file of the unit from number `from` on.
fn walk_from<F: Files>(
    alloc: Global,
    cache: &mut Cache,
    files: &mut F,
    p: &mut Progress,
    unit: &Unit,
    main: u32,
    from: u32,
) -> Result<(), PreFault>
    requires kept { IsSome (source_at cache.old.table main) }
    requires ready { IsReady p.old (unit_most cache.old.toks) }
    ensures answer { (source : Source) → AreFound source cache.new.table → IfSome (source_at cache.old.table main) (λ file.
        Gives (λ _. (state_in cache.new.table p.new, p.new.text)) fault_of result
        (rest_at (unit_context source unit.now cache.old.toks) file from (state_in cache.old.table p.old) p.old.text)) }
    ensures goes_on { GoesOn p.old p.new result }
    ensures reads { ReadsOn (F.told files.old).held cache.old cache.new }
    ensures faults { ReadsOnly (F.told files.old) (F.told files.new) (reads_of result) }
{
    let mut sections = Sections::new(alloc);
    let count = item_count(cache, main)?;
    for k in from..count {
        match walk_item(
            alloc,
            cache,
            files,
            p,
            unit,
            main,
            MOST_INSIDE,
            k,
            &mut sections,
        ) {
            Ok(()) => {}
            Err(fault) => return Err(fault),
        }
    }
    file_end(alloc, cache, main, &sections)
}

// The front with which the file of the unit begins is put in, if there is one.
fn put_longest(
    alloc: Global,
    cache: &Cache,
    fronts: &Fronts,
    p: &mut Progress,
    unit: &Unit,
    pseudo: u32,
    main: u32,
) -> Result<Trail, Memory>
    requires kept { IsSome (source_at cache.now.table main) }
    requires ready { IsReady p.old (unit_most cache.now.toks) }
    requires begun { HasBegun unit.now cache.now.table pseudo (state_in cache.now.table p.old) p.old.text }
    requires fronts { AreFronts cache.now.table fronts.now.all.items }
    ensures answer { (source : Source) → IfOk result (λ trail. IfSome (source_at cache.now.table main) (λ file.
        put_after p.old.text (file_items (unit_context source unit.now cache.now.toks) 199 file (state_in cache.now.table p.old))
        ≡ rest_at (unit_context source unit.now cache.now.toks) file (length trail.lines.items) (state_in cache.now.table p.new) p.new.text)) }
    ensures along { IfOk result (λ trail. IsAlong unit.now cache.now.table pseudo trail (state_in cache.now.table p.new) p.new.text) }
    ensures goes_on { GoesOn p.old p.new result }
    ensures place { OnOk result (p.new.behind ≡ None) }
{
    let leads = leads_of(alloc, cache, unit, main)?;
    match fronts.longest(unit, pseudo, leads.as_slice(), p.most) {
        Some(front) => {
            let trail = put_front(alloc, front, p, main, leads.as_slice())?;
            Ok(trail)
        }
        None => Ok(Trail::new(alloc)),
    }
}

// The lines behind it, with which the unit goes on as the one before did; they are kept where they are worth their while.
fn go_along<F: Files>(
    alloc: Global,
    cache: &mut Cache,
    files: &mut F,
    fronts: &mut Fronts,
    p: &mut Progress,
    unit: &Unit,
    pseudo: u32,
    main: u32,
    trail: Trail,
) -> Result<u32, PreFault>
    requires kept { IsSome (source_at cache.old.table main) }
    requires ready { IsReady p.old (unit_most cache.old.toks) }
    requires place { p.old.behind ≡ None }
    requires along { IsAlong unit.now cache.old.table pseudo trail (state_in cache.old.table p.old) p.old.text }
    requires fronts { AreFronts cache.old.table fronts.old.all.items }
    ensures answer { (source : Source) → AreFound source cache.new.table → IfSome (source_at cache.old.table main) (λ file.
        LeavesRest result (unit_context source unit.now cache.old.toks) file (state_in cache.new.table p.new) p.new.text
        (rest_at (unit_context source unit.now cache.old.toks) file (length trail.lines.items) (state_in cache.old.table p.old) p.old.text)) }
    ensures fronts { OnOk result (AreFronts cache.new.table fronts.new.all.items) }
    ensures goes_on { GoesOn p.old p.new result }
    ensures reads { ReadsOn (F.told files.old).held cache.old cache.new }
    ensures faults { ReadsOnly (F.told files.old) (F.told files.new) (reads_of result) }
{
    let mut trail = trail;
    let before = fronts.lines_before(alloc, unit, pseudo, trail.lines.as_slice())?;
    let toks = p.text.before();
    match walk_leads(
        alloc,
        cache,
        files,
        p,
        unit,
        pseudo,
        main,
        before.as_slice(),
        &mut trail,
    ) {
        Ok(k) => {
            fronts.keep(alloc, unit, pseudo, trail, p, toks)?;
            Ok(k)
        }
        Err(fault) => Err(fault),
    }
}

// The items of the file of the unit, whose pseudo file has the number `pseudo`: where a front is kept with which it begins, that
// is put in.
fn walk_shared<F: Files>(
    alloc: Global,
    cache: &mut Cache,
    files: &mut F,
    fronts: &mut Fronts,
    p: &mut Progress,
    unit: &Unit,
    pseudo: u32,
    main: u32,
) -> Result<(), PreFault>
    requires kept { IsSome (source_at cache.old.table main) }
    requires ready { IsReady p.old (unit_most cache.old.toks) }
    requires begun { HasBegun unit.now cache.old.table pseudo (state_in cache.old.table p.old) p.old.text }
    requires fronts { AreFronts cache.old.table fronts.old.all.items }
    ensures answer { (source : Source) → AreFound source cache.new.table → IfSome (source_at cache.old.table main) (λ file.
        Gives (λ _. (state_in cache.new.table p.new, p.new.text)) fault_of result
        (put_after p.old.text (file_items (unit_context source unit.now cache.old.toks) 199 file (state_in cache.old.table p.old)))) }
    ensures fronts { OnOk result (AreFronts cache.new.table fronts.new.all.items) }
    ensures goes_on { GoesOn p.old p.new result }
    ensures reads { ReadsOn (F.told files.old).held cache.old cache.new }
    ensures faults { ReadsOnly (F.told files.old) (F.told files.new) (reads_of result) }
{
    let trail = put_longest(alloc, cache, fronts, p, unit, pseudo, main)?;
    match go_along(alloc, cache, files, fronts, p, unit, pseudo, main, trail) {
        Ok(k) => match walk_from(alloc, cache, files, p, unit, main, k) {
            Ok(()) => {
                let leads = leads_of(alloc, cache, unit, main)?;
                Ok(fronts.tell(alloc, unit, pseudo, leads.as_slice())?)
            }
            Err(fault) => Err(fault),
        },
        Err(fault) => Err(fault),
    }
}

/// The same. Where a search for the next file of a name would begin behind some directory, which is so in no unit, all items are
/// walked.
pub(crate) fn walk_own<F: Files>(
    alloc: Global,
    cache: &mut Cache,
    files: &mut F,
    fronts: &mut Fronts,
    p: &mut Progress,
    unit: &Unit,
    pseudo: u32,
    main: u32,
) -> Result<(), PreFault>
    requires kept { IsSome (source_at cache.old.table main) }
    requires ready { IsReady p.old (unit_most cache.old.toks) }
    requires begun { p.old.behind ≡ None → HasBegun unit.now cache.old.table pseudo (state_in cache.old.table p.old) p.old.text }
    requires fronts { AreFronts cache.old.table fronts.old.all.items }
    ensures answer { (source : Source) → AreFound source cache.new.table → IfSome (source_at cache.old.table main) (λ file.
        Gives (λ _. (state_in cache.new.table p.new, p.new.text)) fault_of result
        (put_after p.old.text (file_items (unit_context source unit.now cache.old.toks) 199 file (state_in cache.old.table p.old)))) }
    ensures fronts { OnOk result (AreFronts cache.new.table fronts.new.all.items) }
    ensures goes_on { GoesOn p.old p.new result }
    ensures reads { ReadsOn (F.told files.old).held cache.old cache.new }
    ensures faults { ReadsOnly (F.told files.old) (F.told files.new) (reads_of result) }
{
    match p.behind {
        None => walk_shared(alloc, cache, files, fronts, p, unit, pseudo, main),
        Some(_behind) => walk_file(alloc, cache, files, p, unit, main, MOST_INSIDE),
    }
}
