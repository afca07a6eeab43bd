// The items of a file, one at a time: what each gives beside the files that it includes (6.10).
ghost use Rattle.std.specs.Prelude.{◌≡◌, ◌&&◌, IsTrue, IfOk, IfErr, IfSome, Some};
ghost use Rattle.std.specs.List.{list_all};
ghost use Rattle.source_files.specs.Below.line_shape.declared.items.ItemKind.TheVariants.{Define};
ghost use Rattle.source_files.specs.Below.line_shape.Items.{line_kind};
ghost use Rattle.unit_steps.specs.Below.macro_body.declared.definitions.Definition.{Definition as Macro};
ghost use Rattle.unit_steps.specs.Below.macro_body.Defining.{defined_by};
ghost use Rattle.unit_steps.specs.Below.macro_body.Sound.{is_traced, is_low};
ghost use Rattle.source_files.specs.Files.{Table};
ghost use Rattle.unit_steps.specs.State.{Context};
ghost use Rattle.include_tree.specs.Sections.{Stays, turn_of};
ghost use Rattle.unit_steps.specs.Expanding.{most_toks};
ghost use Rattle.include_tree.specs.Including.{Inner};
ghost use Rattle.include_tree.specs.Walk.{processed_line, processed, turned, is_foreign, foreign_line, item_step};
ghost use Rattle.cs_base.specs.Answer.{Gives};
ghost use Rattle.source_files.specs.Answers.{fault_of, IsNoReadFault};
ghost use Rattle.unit_steps.specs.Keeping.{put_after};
ghost use Rattle.unit_steps.specs.SourceTexts.{source_in};
ghost use Rattle.include_tree.specs.ItemTexts.{item_in};
ghost use Rattle.unit_steps.specs.Moments.{state_in, IsAble, GoesOn};
ghost use Rattle.include_tree.specs.Walking.{stepped_after, GivesLine, GivesItem, IsSoundLine};

use crate::asking::ConditionLine;
use crate::item_toks::ItemToks;
use crate::section_lines::{
    SectionLine, elif_line, else_line, endif_line, open_section, section_line,
};
use crate::sections::Sections;
use cs_base::{Cause, Pos, Standard, Tok};
use source_files::{GnuLine, Header, ItemKind, PreFault};
use unit_steps::{Progress, SourceText, behind_word};

/// An include line in a processed group: where its `#` stands, whether it asks for the next file of the name, and the
/// header that it names.
#[derive(Drop)]
pub struct IncludeLine {
    pub(crate) at: Pos,
    pub(crate) next: bool,
    pub(crate) header: Header,
}

/// What an item leaves to the caller, which has the files: an include line, or a condition of GNU C.
#[derive(Drop)]
pub enum FileLine {
    Include(IncludeLine),
    Condition(ConditionLine),
}

// A line of a processed group that GNU C alone has, in a unit of GNU C: a message is passed over.
fn processed_line(
    p: &mut Progress,
    file: &SourceText,
    line: GnuLine,
    at: Pos,
    toks: &[Tok],
) -> Result<Option<FileLine>, PreFault>
    requires sound { IsTrue (list_all (λ t. is_traced t && is_low t) toks.now) }
    requires able { IsAble p.old }
    ensures goes_on { GoesOn p.old p.new result }
    ensures no_read { IfErr result IsNoReadFault }
    ensures sound { IfOk result (λ l. IfSome l IsSoundLine) }
    ensures answer { (ctx : Context) (inner : Inner) (table : Table) → GivesLine ctx inner (source_in file.now) result (state_in table p.new) p.new.text (put_after p.old.text (processed_line ctx inner line (source_in file.now) at toks.now (state_in table p.old))) }
{
    match line {
        GnuLine::IncludeNext => {
            let header = p.next_named(file, at, behind_word(toks))?;
            Ok(Some(FileLine::Include(IncludeLine {
                at,
                next: true,
                header,
            })))
        }
        _ => Ok(None),
    }
}

// An item of a processed group that opens no section and ends none.
fn processed(
    p: &mut Progress,
    standard: Standard,
    file: &SourceText,
    item: &ItemToks,
) -> Result<Option<FileLine>, PreFault>
    requires sound { IsTrue (list_all (λ t. is_traced t && is_low t) item.now.toks.now) }
    requires defines { item.now.kind ≡ Define → (line_kind item.now.toks.now ≡ Define) × ((m : Macro) → defined_by item.now.toks.now ≡ Some m → IsTrue (list_all is_traced m.body)) }
    requires able { IsAble p.old }
    ensures goes_on { GoesOn p.old p.new result }
    ensures no_read { IfErr result IsNoReadFault }
    ensures sound { IfOk result (λ l. IfSome l IsSoundLine) }
    ensures answer { (ctx : Context) (inner : Inner) (table : Table) → most_toks ctx ≡ p.old.most → ctx.unit.standard ≡ standard → GivesLine ctx inner (source_in file.now) result (state_in table p.new) p.new.text (put_after p.old.text (processed ctx inner (source_in file.now) item.now.kind item.now.at item.now.toks.now (state_in table p.old))) }
{
    match item.kind {
        ItemKind::Run => {
            p.run_of(file, item.toks)?;
            Ok(None)
        }
        ItemKind::Define => {
            p.define(standard.is_gnu(), file, item.at, item.toks)?;
            Ok(None)
        }
        ItemKind::Undef => {
            p.undef(file, item.at, item.toks)?;
            Ok(None)
        }
        ItemKind::Include => {
            let header = p.header_named(file, item.at, behind_word(item.toks))?;
            Ok(Some(FileLine::Include(IncludeLine {
                at: item.at,
                next: false,
                header,
            })))
        }
        ItemKind::Error => Err(file.fault(p.alloc, item.at, Cause::ErrorDirective)),
        ItemKind::Bad { .. } => Err(file.fault(p.alloc, item.at, Cause::BadDirective)),
        ItemKind::Pragma => {
            p.pragma(standard.is_gnu(), file, item.at, item.toks)?;
            Ok(None)
        }
        ItemKind::Gnu(line) => processed_line(p, file, line, item.at, item.toks),
        _ => Ok(None),
    }
}

// An item that opens no section and ends none, which is item number `k` of the file.
fn stay(
    p: &mut Progress,
    standard: Standard,
    file: &SourceText,
    k: u32,
    item: &ItemToks,
    sections: &Sections,
) -> Result<Option<FileLine>, PreFault>
    requires sound { IsTrue (list_all (λ t. is_traced t && is_low t) item.now.toks.now) }
    requires defines { item.now.kind ≡ Define → (line_kind item.now.toks.now ≡ Define) × ((m : Macro) → defined_by item.now.toks.now ≡ Some m → IsTrue (list_all is_traced m.body)) }
    requires able { IsAble p.old }
    ensures goes_on { GoesOn p.old p.new result }
    ensures no_read { IfErr result IsNoReadFault }
    ensures sound { IfOk result (λ l. IfSome l IsSoundLine) }
    ensures answer { (ctx : Context) (inner : Inner) (table : Table) → most_toks ctx ≡ p.old.most → ctx.unit.standard ≡ standard → GivesItem ctx inner (source_in file.now) result sections.now (state_in table p.new) p.new.text (stepped_after p.old.text (turned ctx inner (source_in file.now) k (item_in item.now) sections.now (state_in table p.old) Stays)) }
{
    if !sections.are_processed() {
        return Ok(None);
    }
    p.reach(file.number, k, false)?;
    processed(p, standard, file, item)
}

// A line that no unit of this standard has.
fn is_foreign(standard: Standard, kind: ItemKind) -> bool
    ensures { result ≡ is_foreign standard kind }
{
    match kind {
        ItemKind::Gnu(_) => !standard.is_gnu(),
        _ => false,
    }
}

// A line that GNU C alone has, in a unit of another standard: a fault where it is processed.
fn foreign_line(
    p: &Progress,
    file: &SourceText,
    item: &ItemToks,
    sections: &Sections,
) -> Result<(), PreFault>
    ensures no_read { IfErr result IsNoReadFault }
    ensures answer { (table : Table) → Gives (λ _. (sections.now, state_in table p.now, p.now.text)) fault_of result (stepped_after p.now.text (foreign_line (source_in file.now) (item_in item.now) sections.now (state_in table p.now))) }
{
    if sections.are_processed() {
        return Err(file.fault(p.alloc, item.at, Cause::BadDirective));
    }
    Ok(())
}

/// Item number `k` of a file in a unit of this standard. Of an include line in a processed group the header is told, and of a
/// condition of GNU C its pieces; the rest is left to the caller.
pub(crate) fn item_step(
    p: &mut Progress,
    standard: Standard,
    file: &SourceText,
    k: u32,
    item: &ItemToks,
    sections: &mut Sections,
) -> Result<Option<FileLine>, PreFault>
    requires sound { IsTrue (list_all (λ t. is_traced t && is_low t) item.now.toks.now) }
    requires defines { item.now.kind ≡ Define → (line_kind item.now.toks.now ≡ Define) × ((m : Macro) → defined_by item.now.toks.now ≡ Some m → IsTrue (list_all is_traced m.body)) }
    requires able { IsAble p.old }
    ensures goes_on { GoesOn p.old p.new result }
    ensures no_read { IfErr result IsNoReadFault }
    ensures sound { IfOk result (λ l. IfSome l IsSoundLine) }
    ensures answer { (ctx : Context) (inner : Inner) (table : Table) → most_toks ctx ≡ p.old.most → ctx.unit.standard ≡ standard → GivesItem ctx inner (source_in file.now) result sections.new (state_in table p.new) p.new.text (stepped_after p.old.text (item_step ctx inner (source_in file.now) k (item_in item.now) sections.old (state_in table p.old))) }
{
    if is_foreign(standard, item.kind) {
        foreign_line(p, file, item, sections)?;
        return Ok(None);
    }
    step_of(p, standard, file, k, item, sections)
}

// The same of an item that a unit of any standard has, or where the unit is of GNU C.
fn step_of(
    p: &mut Progress,
    standard: Standard,
    file: &SourceText,
    k: u32,
    item: &ItemToks,
    sections: &mut Sections,
) -> Result<Option<FileLine>, PreFault>
    requires sound { IsTrue (list_all (λ t. is_traced t && is_low t) item.now.toks.now) }
    requires defines { item.now.kind ≡ Define → (line_kind item.now.toks.now ≡ Define) × ((m : Macro) → defined_by item.now.toks.now ≡ Some m → IsTrue (list_all is_traced m.body)) }
    requires able { IsAble p.old }
    ensures goes_on { GoesOn p.old p.new result }
    ensures no_read { IfErr result IsNoReadFault }
    ensures sound { IfOk result (λ l. IfSome l IsSoundLine) }
    ensures answer { (ctx : Context) (inner : Inner) (table : Table) → most_toks ctx ≡ p.old.most → ctx.unit.standard ≡ standard → GivesItem ctx inner (source_in file.now) result sections.new (state_in table p.new) p.new.text (stepped_after p.old.text (turned ctx inner (source_in file.now) k (item_in item.now) sections.old (state_in table p.old) (turn_of item.now.kind))) }
{
    match section_line(item.kind) {
        SectionLine::Opening => open_section(p, standard, file, k, item, sections),
        SectionLine::Next => elif_line(p, standard, file, k, item, sections),
        SectionLine::Last => {
            else_line(p, file, k, item, sections)?;
            Ok(None)
        }
        SectionLine::Ending => {
            endif_line(p, file, k, item, sections)?;
            Ok(None)
        }
        SectionLine::Other => stay(p, standard, file, k, item, sections),
    }
}
