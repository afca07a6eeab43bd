// Lines that open if-sections, go on to further groups and end them (6.10.1 paragraph 6).
ghost use Rattle.std.specs.Prelude.{◌≡◌, true, false, ◌∷◌, [], ◌&&◌, List, IsTrue, IfOk, IfErr, IfSome, Some, Ok, map, drop};
ghost use Rattle.std.specs.List.{list_all};
ghost use Rattle.cs_base.specs.Answer.{Gives};
ghost use Rattle.unit_steps.specs.Below.macro_body.Sound.{is_traced, is_low};
ghost use Rattle.source_files.specs.Files.{Table};
ghost use Rattle.unit_steps.specs.State.{Context, only};
ghost use Rattle.unit_steps.specs.Questions.{questions_from, is_sound, question_of};
ghost use Rattle.source_files.specs.Below.line_shape.Directives.{is_elif};
ghost use Rattle.include_tree.specs.Sections.{Section, section, Awaited, is_awaited, turn_of, turn_of_bad, turn_of_line};
ghost use Rattle.unit_steps.specs.Directives.{is_if};
ghost use Rattle.include_tree.specs.Including.{Inner};
ghost use Rattle.include_tree.specs.Asking.{is_condition, asks_files};
ghost use Rattle.include_tree.specs.Walk.{stepped, opens, goes_on, reaching_alive};
ghost use Rattle.source_files.specs.Answers.{fault_of, IsNoReadFault};
ghost use Rattle.unit_steps.specs.SourceTexts.{source_in};
ghost use Rattle.include_tree.specs.ItemTexts.{item_in};
ghost use Rattle.unit_steps.specs.Moments.{state_in, IsAble, GoesOn};
ghost use Rattle.include_tree.specs.OpenSections.{group_of, turn_in};
ghost use Rattle.include_tree.specs.Walking.{stepped_after, GivesItem, IsSoundLine, elif_of, else_of, endif_of};

use crate::asking::ConditionLine;
use crate::item_steps::FileLine;
use crate::item_toks::ItemToks;
use crate::sections::{Group, OpenSection, Sections, group_if, group_of_else, is_alive};
use cs_base::{Cause, Memory, Pos, Standard};
use source_files::{GnuLine, ItemKind, PreFault};
use std::alloc::Global;
use unit_steps::{Progress, SourceText, behind_word, questions_of};

/// What a line does to the sections: it opens one, goes on to the next group or to the last one, or ends it;
/// any other item leaves them.
#[derive(Clone, Copy)]
pub enum SectionLine {
    Opening,
    Next,
    Last,
    Ending,
    Other,
}

pub(crate) fn section_line(kind: ItemKind) -> SectionLine
    ensures { turn_in result ≡ turn_of kind }
{
    match kind {
        ItemKind::If => SectionLine::Opening,
        ItemKind::Ifdef => SectionLine::Opening,
        ItemKind::Ifndef => SectionLine::Opening,
        ItemKind::Elif => SectionLine::Next,
        ItemKind::Else => SectionLine::Last,
        ItemKind::Endif => SectionLine::Ending,
        ItemKind::Bad { nests, .. } => bad_line(nests),
        ItemKind::Gnu(line) => gnu_line(line),
        _ => SectionLine::Other,
    }
}

// A bad line opens a section or leaves them.
fn bad_line(nests: bool) -> SectionLine
    ensures { turn_in result ≡ turn_of_bad nests }
{
    if nests {
        SectionLine::Opening
    } else {
        SectionLine::Other
    }
}

// A line that GNU C alone has goes on with a section or leaves them.
fn gnu_line(line: GnuLine) -> SectionLine
    ensures { turn_in result ≡ turn_of_line (is_elif line) }
{
    match line {
        GnuLine::Elifdef | GnuLine::Elifndef => SectionLine::Next,
        _ => SectionLine::Other,
    }
}

// It is a condition that is evaluated.
fn is_if(kind: ItemKind) -> bool
    ensures { result ≡ is_if kind }
{
    match kind {
        ItemKind::If => true,
        _ => false,
    }
}

// The same, or one that goes on with a section.
fn is_condition(kind: ItemKind) -> bool
    ensures { result ≡ is_condition kind }
{
    match kind {
        ItemKind::If => true,
        ItemKind::Elif => true,
        _ => false,
    }
}

// Such a condition in a unit of GNU C, which may ask for files.
fn asks_files(standard: Standard, kind: ItemKind) -> bool
    ensures { result ≡ asks_files standard kind }
{
    is_condition(kind) && standard.is_gnu()
}

// A condition of GNU C whose value is still to be found, and where the section begins.
fn condition_line(alloc: Global, item: &ItemToks, opening: Pos) -> Result<ConditionLine, Memory>
    requires { IsTrue (list_all (λ t. is_traced t && is_low t) item.now.toks.now) }
    ensures at { IfOk result (λ l. (l.at ≡ item.now.at) × (l.opening ≡ opening)) }
    ensures pieces { IfOk result (λ l. map question_of l.questions.items ≡ questions_from true 0 (drop 2 item.now.toks.now)) }
    ensures sound { IfOk result (λ l. IsTrue (list_all is_sound (map question_of l.questions.items))) }
{
    Ok(ConditionLine {
        at: item.at,
        opening,
        questions: questions_of(alloc, true, behind_word(item.toks))?,
    })
}

/// A line that opens a section, which is item number `k` of the file.
pub(crate) fn open_section(
    p: &mut Progress,
    standard: Standard,
    file: &SourceText,
    k: u32,
    item: &ItemToks,
    sections: &mut Sections,
) -> Result<Option<FileLine>, PreFault>
    requires sound { IsTrue (list_all (λ t. is_traced t && is_low t) item.now.toks.now) }
    requires able { IsAble p.old }
    ensures goes_on { GoesOn p.old p.new result }
    ensures no_read { IfErr result IsNoReadFault }
    ensures sound { IfOk result (λ l. IfSome l IsSoundLine) }
    ensures answer { (ctx : Context) (inner : Inner) (table : Table) → ctx.unit.standard ≡ standard → GivesItem ctx inner (source_in file.now) result sections.new (state_in table p.new) p.new.text (stepped_after p.old.text (opens ctx (source_in file.now) k (item_in item.now) sections.old (state_in table p.old))) }
{
    if !sections.are_processed() {
        sections.push(OpenSection::new(item.at, Group::Skipped, false))?;
        return Ok(None);
    }
    p.reach(file.number, k, is_if(item.kind))?;
    if asks_files(standard, item.kind) {
        let line = condition_line(p.alloc, item, item.at)?;
        return Ok(Some(FileLine::Condition(line)));
    }
    match p.opens_with(file, item.kind, item.at, item.toks) {
        Ok(holds) => {
            sections.push(OpenSection::new(item.at, group_if(holds), false))?;
            Ok(None)
        }
        Err(fault) => Err(fault),
    }
}

// The group behind an `elif` whose condition is asked here.
fn asked_group(
    p: &mut Progress,
    standard: Standard,
    file: &SourceText,
    k: u32,
    item: &ItemToks,
) -> Result<Group, PreFault>
    requires here { asks_files standard item.now.kind ≡ false }
    requires sound { IsTrue (list_all (λ t. is_traced t && is_low t) item.now.toks.now) }
    requires able { IsAble p.old }
    ensures goes_on { GoesOn p.old p.new result }
    ensures no_read { IfErr result IsNoReadFault }
    ensures answer { (ctx : Context) (table : Table) (open_ : Section) (around : List Section) → ctx.unit.standard ≡ standard → Gives (λ g. (section open_.opening (group_of g) false ∷ around, state_in table p.new, p.new.text)) fault_of result (stepped_after p.old.text (goes_on ctx (source_in file.now) k (item_in item.now) open_ around (state_in table p.old) Awaited)) }
{
    p.reach(file.number, k, true)?;
    match p.goes_with(file, item.kind, item.at, item.toks) {
        Ok(holds) => Ok(group_if(holds)),
        Err(fault) => Err(fault),
    }
}

// The group behind an `elif`: its condition is asked here where no group was processed yet.
fn next_group(
    p: &mut Progress,
    standard: Standard,
    file: &SourceText,
    k: u32,
    item: &ItemToks,
    group: Group,
) -> Result<Group, PreFault>
    requires here { (is_awaited (group_of group) && asks_files standard item.now.kind) ≡ false }
    requires sound { IsTrue (list_all (λ t. is_traced t && is_low t) item.now.toks.now) }
    requires able { IsAble p.old }
    ensures goes_on { GoesOn p.old p.new result }
    ensures no_read { IfErr result IsNoReadFault }
    ensures answer { (ctx : Context) (table : Table) (open_ : Section) (around : List Section) → ctx.unit.standard ≡ standard → Gives (λ g. (section open_.opening (group_of g) false ∷ around, state_in table p.new, p.new.text)) fault_of result (stepped_after p.old.text (goes_on ctx (source_in file.now) k (item_in item.now) open_ around (state_in table p.old) (group_of group))) }
{
    match group {
        Group::Awaited => asked_group(p, standard, file, k, item),
        Group::Skipped => Ok(Group::Skipped),
        Group::Processed => {
            p.reach(file.number, k, false)?;
            Ok(Group::Over)
        }
        Group::Over => {
            p.reach(file.number, k, false)?;
            Ok(Group::Over)
        }
    }
}

// A section goes on with an `elif` whose condition, if it is asked for, needs no files.
fn next_section(
    p: &mut Progress,
    standard: Standard,
    file: &SourceText,
    k: u32,
    item: &ItemToks,
    open: &OpenSection,
    sections: &mut Sections,
) -> Result<(), PreFault>
    requires here { (is_awaited open.now.group && asks_files standard item.now.kind) ≡ false }
    requires sound { IsTrue (list_all (λ t. is_traced t && is_low t) item.now.toks.now) }
    requires able { IsAble p.old }
    ensures goes_on { GoesOn p.old p.new result }
    ensures no_read { IfErr result IsNoReadFault }
    ensures answer { (ctx : Context) (table : Table) → ctx.unit.standard ≡ standard → Gives (λ _. (sections.new, state_in table p.new, p.new.text)) fault_of result (stepped_after p.old.text (goes_on ctx (source_in file.now) k (item_in item.now) open.now sections.old (state_in table p.old) open.now.group)) }
{
    match next_group(p, standard, file, k, item, open.group()) {
        Ok(group) => {
            sections.push(OpenSection::new(open.opening(), group, false))?;
            Ok(())
        }
        Err(fault) => Err(fault),
    }
}

// An `elif` in GNU C whose condition is asked where files are known.
fn asked_section(
    p: &mut Progress,
    file: &SourceText,
    k: u32,
    item: &ItemToks,
    open: &OpenSection,
) -> Result<FileLine, Memory>
    requires sound { IsTrue (list_all (λ t. is_traced t && is_low t) item.now.toks.now) }
    requires able { IsAble p.old }
    ensures goes_on { GoesOn p.old p.new result }
    ensures sound { IfOk result IsSoundLine }
    ensures answer { (ctx : Context) (inner : Inner) (sections : List Section) (table : Table) → asks_files ctx.unit.standard item.now.kind ≡ true → is_awaited open.now.group ≡ true → IfOk result (λ l. GivesItem ctx inner (source_in file.now) (Ok (Some l)) sections (state_in table p.new) p.new.text (stepped_after p.old.text (goes_on ctx (source_in file.now) k (item_in item.now) open.now sections (state_in table p.old) open.now.group))) }
{
    p.reach(file.number, k, true)?;
    let line = condition_line(p.alloc, item, open.opening())?;
    Ok(FileLine::Condition(line))
}

fn is_awaited(group: Group) -> bool
    ensures { result ≡ is_awaited (group_of group) }
{
    match group {
        Group::Awaited => true,
        _ => false,
    }
}

/// An `elif` line, which is item number `k` of the file.
pub(crate) fn elif_line(
    p: &mut Progress,
    standard: Standard,
    file: &SourceText,
    k: u32,
    item: &ItemToks,
    sections: &mut Sections,
) -> Result<Option<FileLine>, PreFault>
    requires sound { IsTrue (list_all (λ t. is_traced t && is_low t) item.now.toks.now) }
    requires able { IsAble p.old }
    ensures goes_on { GoesOn p.old p.new result }
    ensures no_read { IfErr result IsNoReadFault }
    ensures sound { IfOk result (λ l. IfSome l IsSoundLine) }
    ensures answer { (ctx : Context) (inner : Inner) (table : Table) → ctx.unit.standard ≡ standard → GivesItem ctx inner (source_in file.now) result sections.new (state_in table p.new) p.new.text (stepped_after p.old.text (elif_of ctx (source_in file.now) k (item_in item.now) sections.old (state_in table p.old))) }
{
    match sections.take() {
        Some(open) => {
            if open.after_else() {
                return Err(file.fault(p.alloc, item.at, Cause::UnbalancedIf));
            }
            if is_awaited(open.group()) && asks_files(standard, item.kind) {
                let line = asked_section(p, file, k, item, &open)?;
                return Ok(Some(line));
            }
            next_section(p, standard, file, k, item, &open, sections)?;
            Ok(None)
        }
        None => Err(file.fault(p.alloc, item.at, Cause::UnbalancedIf)),
    }
}

// An item is reached unless its section is skipped.
fn reach_alive(p: &mut Progress, file: &SourceText, k: u32, group: Group) -> Result<(), Memory>
    requires able { IsAble p.old }
    ensures goes_on { GoesOn p.old p.new result }
    ensures answer { (table : Table) (sections : List Section) → IfOk result (λ _. stepped_after p.old.text (reaching_alive (source_in file.now) k (group_of group) (state_in table p.old) (only (stepped [] sections) (state_in table p.old))) ≡ Ok (sections, state_in table p.new, p.new.text)) }
{
    if !is_alive(group) {
        return Ok(());
    }
    p.reach(file.number, k, false)?;
    Ok(())
}

/// An `else` line, which is item number `k` of the file.
pub(crate) fn else_line(
    p: &mut Progress,
    file: &SourceText,
    k: u32,
    item: &ItemToks,
    sections: &mut Sections,
) -> Result<(), PreFault>
    requires able { IsAble p.old }
    ensures goes_on { GoesOn p.old p.new result }
    ensures no_read { IfErr result IsNoReadFault }
    ensures answer { (table : Table) → Gives (λ _. (sections.new, state_in table p.new, p.new.text)) fault_of result (stepped_after p.old.text (else_of (source_in file.now) k (item_in item.now) sections.old (state_in table p.old))) }
{
    match sections.take() {
        Some(open) => {
            if open.after_else() {
                return Err(file.fault(p.alloc, item.at, Cause::UnbalancedIf));
            }
            reach_alive(p, file, k, open.group())?;
            sections.push(OpenSection::new(open.opening(), group_of_else(open.group()), true))?;
            Ok(())
        }
        None => Err(file.fault(p.alloc, item.at, Cause::UnbalancedIf)),
    }
}

/// An `endif` line, which is item number `k` of the file.
pub(crate) fn endif_line(
    p: &mut Progress,
    file: &SourceText,
    k: u32,
    item: &ItemToks,
    sections: &mut Sections,
) -> Result<(), PreFault>
    requires able { IsAble p.old }
    ensures goes_on { GoesOn p.old p.new result }
    ensures no_read { IfErr result IsNoReadFault }
    ensures answer { (table : Table) → Gives (λ _. (sections.new, state_in table p.new, p.new.text)) fault_of result (stepped_after p.old.text (endif_of (source_in file.now) k (item_in item.now) sections.old (state_in table p.old))) }
{
    match sections.take() {
        Some(open) => {
            reach_alive(p, file, k, open.group())?;
            Ok(())
        }
        None => Err(file.fault(p.alloc, item.at, Cause::UnbalancedIf)),
    }
}
