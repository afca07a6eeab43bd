// Conditions of a unit of GNU C, which may ask for headers (beside 6.10.1).
ghost use Rattle.std.specs.Prelude.{◌≡◌, ◌&&◌, ◌++◌, ◌∷◌, [], IsTrue, IfOk, IfErr, IfSome, IsSome, map};
ghost use Rattle.std.specs.List.{list_all};
ghost use Rattle.cs_base.specs.Answer.{Gives};
ghost use Rattle.cs_base.specs.Outside.{ReadsOnly};
ghost use Rattle.unit_steps.specs.Below.macro_body.Sound.{is_traced, is_low};
ghost use Rattle.unit_steps.specs.Conditions.{judged};
ghost use Rattle.unit_steps.specs.Keeping.{kept_after};
ghost use Rattle.unit_steps.specs.Moments.{state_in, IsAble, GoesOn};
ghost use Rattle.unit_steps.specs.Questions.{Looks, is_sound, question_of};
ghost use Rattle.source_files.specs.Answers.{fault_of, reads_of, IsNoReadFault, ReadsOn};
ghost use Rattle.source_files.specs.Files.{Source, Table};
ghost use Rattle.source_files.specs.Sources.{source_at};
ghost use Rattle.source_files.specs.Tables.{AreFound};
ghost use Rattle.include_tree.specs.Asking.{look_for, look, looked, gnu_known, gnu_asked, gnu_answered};
ghost use Rattle.include_tree.specs.GivenFiles.{unit_context};
ghost use Rattle.include_tree.specs.Walking.{stepped_after, asked_line};

use crate::including::is_there;
use crate::item_toks::source_of;
use crate::sections::{OpenSection, Sections, group_if};
use crate::walking::kept_file;
use cs_base::{Cause, Files, Memory, Pos, Tok, Unit};
use source_files::{Cache, Header, PreFault};
use std::alloc::Global;
use unit_steps::{Progress, Question, asks_next, questions_of, shared};

/// A condition in a processed group, whose value is still to be found: where its `#` stands, where the section begins
/// that it opens or goes on with, and its pieces.
#[derive(Drop)]
pub struct ConditionLine {
    pub(crate) at: Pos,
    pub(crate) opening: Pos,
    pub(crate) questions: Vec<Question>,
}

// The number for a word that asks for a header.
fn look_for<F: Files>(
    alloc: Global,
    cache: &mut Cache,
    files: &mut F,
    p: &mut Progress,
    unit: &Unit,
    number: u32,
    at: Pos,
    word: &Tok,
    header: &Header,
) -> Result<Tok, PreFault>
    requires kept { IsSome (source_at cache.old.table number) }
    requires able { IsAble p.old }
    ensures answer { (source : Source) → AreFound source cache.new.table → IfSome (source_at cache.old.table number) (λ file.
        Gives (λ t. (t, state_in cache.new.table p.new, p.new.text)) fault_of result
        (kept_after p.old.text (look_for (unit_context source unit.now cache.old.toks) file at word.now header.now (state_in cache.old.table p.old)))) }
    ensures sound { IsTrue (is_low word.now) → IfOk result (λ t. IsTrue (is_traced t && is_low t)) }
    ensures goes_on { GoesOn p.old p.new result }
    ensures reads { ReadsOn (F.told files.old).held cache.old cache.new }
    ensures faults { ReadsOnly (F.told files.old) (F.told files.new) (reads_of result) }
{
    let next = asks_next(word);
    match is_there(
        alloc, cache, files, unit, number, at, next, header, p.behind,
    ) {
        Ok(known) => {
            let tok = p.found(word, known)?;
            Ok(tok)
        }
        Err(fault) => Err(fault),
    }
}

// The same for one with this operand.
fn look_up<F: Files>(
    alloc: Global,
    cache: &mut Cache,
    files: &mut F,
    p: &mut Progress,
    unit: &Unit,
    number: u32,
    at: Pos,
    word: &Tok,
    operand: &[Tok],
) -> Result<Tok, PreFault>
    requires kept { IsSome (source_at cache.old.table number) }
    requires able { IsAble p.old }
    ensures answer { (source : Source) → AreFound source cache.new.table → IfSome (source_at cache.old.table number) (λ file.
        Gives (λ t. (t, state_in cache.new.table p.new, p.new.text)) fault_of result
        (kept_after p.old.text (look (unit_context source unit.now cache.old.toks) file at (Looks word.now operand.now) (state_in cache.old.table p.old)))) }
    ensures sound { IsTrue (is_low word.now) → IfOk result (λ t. IsTrue (is_traced t && is_low t)) }
    ensures goes_on { GoesOn p.old p.new result }
    ensures reads { ReadsOn (F.told files.old).held cache.old cache.new }
    ensures faults { ReadsOnly (F.told files.old) (F.told files.new) (reads_of result) }
{
    let file = source_of(kept_file(cache, number));
    match p.header_or(&file, at, operand) {
        Ok(header) => look_for(alloc, cache, files, p, unit, number, at, word, &header),
        Err(fault) => Err(fault),
    }
}

// The token that stands for a piece.
fn look<F: Files>(
    alloc: Global,
    cache: &mut Cache,
    files: &mut F,
    p: &mut Progress,
    unit: &Unit,
    number: u32,
    at: Pos,
    question: &Question,
) -> Result<Tok, PreFault>
    requires kept { IsSome (source_at cache.old.table number) }
    requires able { IsAble p.old }
    ensures answer { (source : Source) → AreFound source cache.new.table → IfSome (source_at cache.old.table number) (λ file.
        Gives (λ t. (t, state_in cache.new.table p.new, p.new.text)) fault_of result
        (kept_after p.old.text (look (unit_context source unit.now cache.old.toks) file at (question_of question.now) (state_in cache.old.table p.old)))) }
    ensures sound { IsTrue (is_sound (question_of question.now)) → IfOk result (λ t. IsTrue (is_traced t && is_low t)) }
    ensures goes_on { GoesOn p.old p.new result }
    ensures reads { ReadsOn (F.told files.old).held cache.old cache.new }
    ensures faults { ReadsOnly (F.told files.old) (F.told files.new) (reads_of result) }
{
    match question {
        Question::Unasked(tok) => {
            let same = shared(tok)?;
            Ok(same)
        }
        Question::Looks(word, operand) => look_up(
            alloc,
            cache,
            files,
            p,
            unit,
            number,
            at,
            word,
            operand.as_slice(),
        ),
        Question::Lacks => {
            let file = source_of(kept_file(cache, number));
            Err(file.fault(alloc, at, Cause::BadDirective))
        }
    }
}

// Adds a token.
fn put(out: &mut Vec<Tok>, tok: Tok) -> Result<(), Memory>
    ensures { IfOk result (λ _. out.new.items ≡ out.old.items ++ tok ∷ []) }
{
    out.push(tok)?;
    Ok(())
}

// The tokens that stand for pieces.
fn looked<F: Files>(
    alloc: Global,
    cache: &mut Cache,
    files: &mut F,
    p: &mut Progress,
    unit: &Unit,
    number: u32,
    at: Pos,
    questions: &[Question],
) -> Result<Vec<Tok>, PreFault>
    requires kept { IsSome (source_at cache.old.table number) }
    requires able { IsAble p.old }
    ensures answer { (source : Source) → AreFound source cache.new.table → IfSome (source_at cache.old.table number) (λ file.
        Gives (λ out. (out.items, state_in cache.new.table p.new, p.new.text)) fault_of result
        (kept_after p.old.text (looked (unit_context source unit.now cache.old.toks) file at (map question_of questions.now) (state_in cache.old.table p.old)))) }
    ensures sound { IsTrue (list_all is_sound (map question_of questions.now)) → IfOk result (λ out. IsTrue (list_all (λ t. is_traced t && is_low t) out.items)) }
    ensures goes_on { GoesOn p.old p.new result }
    ensures reads { ReadsOn (F.told files.old).held cache.old cache.new }
    ensures faults { ReadsOnly (F.told files.old) (F.told files.new) (reads_of result) }
{
    let mut out = Vec::new(alloc);
    let mut rest = questions;
    'pieces: while let Some((question, after)) = rest.split_first() {
        match look(alloc, cache, files, p, unit, number, at, question) {
            Ok(tok) => {
                put(&mut out, tok)?;
                rest = after;
            }
            Err(fault) => return Err(fault),
        }
    }
    Ok(out)
}

// The value of a condition without such words. More than 2^32 tokens, which no file has, are answered by `Memory`.
fn judged_in(
    cache: &Cache,
    p: &mut Progress,
    number: u32,
    at: Pos,
    toks: &[Tok],
) -> Result<bool, PreFault>
    requires kept { IsSome (source_at cache.now.table number) }
    requires able { IsAble p.old }
    ensures answer { IfSome (source_at cache.now.table number) (λ file. (table : Table) → Gives (λ b. (b, state_in table p.new, p.new.text)) fault_of result
        (kept_after p.old.text (judged file at toks.now (state_in table p.old)))) }
    ensures goes_on { GoesOn p.old p.new result }
    ensures no_read { IfErr result IsNoReadFault }
{
    if toks.len() > u32::MAX as usize {
        return Err(PreFault::Memory);
    }
    let file = source_of(kept_file(cache, number));
    p.judged(&file, at, toks)
}

// The value of a condition once its macros are expanded.
fn known_holds<F: Files>(
    alloc: Global,
    cache: &mut Cache,
    files: &mut F,
    p: &mut Progress,
    unit: &Unit,
    number: u32,
    at: Pos,
    toks: &[Tok],
) -> Result<bool, PreFault>
    requires kept { IsSome (source_at cache.old.table number) }
    requires able { IsAble p.old }
    ensures answer { (source : Source) → AreFound source cache.new.table → IfSome (source_at cache.old.table number) (λ file.
        Gives (λ b. (b, state_in cache.new.table p.new, p.new.text)) fault_of result
        (kept_after p.old.text (gnu_known (unit_context source unit.now cache.old.toks) file at toks.now (state_in cache.old.table p.old)))) }
    ensures goes_on { GoesOn p.old p.new result }
    ensures reads { ReadsOn (F.told files.old).held cache.old cache.new }
    ensures faults { ReadsOnly (F.told files.old) (F.told files.new) (reads_of result) }
{
    let asked = questions_of(alloc, false, toks)?;
    match looked(alloc, cache, files, p, unit, number, at, asked.as_slice()) {
        Ok(known) => judged_in(cache, p, number, at, known.as_slice()),
        Err(fault) => Err(fault),
    }
}

// The value of a condition in which headers that stand there are answered.
fn asked_holds<F: Files>(
    alloc: Global,
    cache: &mut Cache,
    files: &mut F,
    p: &mut Progress,
    unit: &Unit,
    number: u32,
    at: Pos,
    toks: &[Tok],
) -> Result<bool, PreFault>
    requires kept { IsSome (source_at cache.old.table number) }
    requires able { IsAble p.old }
    requires sound { IsTrue (list_all (λ t. is_traced t && is_low t) toks.now) }
    ensures answer { (source : Source) → AreFound source cache.new.table → IfSome (source_at cache.old.table number) (λ file.
        Gives (λ b. (b, state_in cache.new.table p.new, p.new.text)) fault_of result
        (kept_after p.old.text (gnu_asked (unit_context source unit.now cache.old.toks) file at toks.now (state_in cache.old.table p.old)))) }
    ensures goes_on { GoesOn p.old p.new result }
    ensures reads { ReadsOn (F.told files.old).held cache.old cache.new }
    ensures faults { ReadsOnly (F.told files.old) (F.told files.new) (reads_of result) }
{
    let file = source_of(kept_file(cache, number));
    match p.asked_toks(&file, at, toks) {
        Ok(out) => known_holds(alloc, cache, files, p, unit, number, at, out.as_slice()),
        Err(fault) => Err(fault),
    }
}

// The value of a condition of the kept file with this number.
fn condition_holds<F: Files>(
    alloc: Global,
    cache: &mut Cache,
    files: &mut F,
    p: &mut Progress,
    unit: &Unit,
    number: u32,
    line: &ConditionLine,
) -> Result<bool, PreFault>
    requires kept { IsSome (source_at cache.old.table number) }
    requires able { IsAble p.old }
    requires sound { IsTrue (list_all is_sound (map question_of line.now.questions.items)) }
    ensures answer { (source : Source) → AreFound source cache.new.table → IfSome (source_at cache.old.table number) (λ file.
        Gives (λ b. (b, state_in cache.new.table p.new, p.new.text)) fault_of result
        (kept_after p.old.text (gnu_answered (unit_context source unit.now cache.old.toks) file line.now.at (map question_of line.now.questions.items) (state_in cache.old.table p.old)))) }
    ensures goes_on { GoesOn p.old p.new result }
    ensures reads { ReadsOn (F.told files.old).held cache.old cache.new }
    ensures faults { ReadsOnly (F.told files.old) (F.told files.new) (reads_of result) }
{
    match looked(
        alloc,
        cache,
        files,
        p,
        unit,
        number,
        line.at,
        line.questions.as_slice(),
    ) {
        Ok(toks) => asked_holds(
            alloc,
            cache,
            files,
            p,
            unit,
            number,
            line.at,
            toks.as_slice(),
        ),
        Err(fault) => Err(fault),
    }
}

/// A condition of the kept file with this number opens a section, or goes on with one that was taken away.
pub(crate) fn ask_section<F: Files>(
    alloc: Global,
    cache: &mut Cache,
    files: &mut F,
    p: &mut Progress,
    unit: &Unit,
    number: u32,
    line: &ConditionLine,
    sections: &mut Sections,
) -> Result<(), PreFault>
    requires kept { IsSome (source_at cache.old.table number) }
    requires able { IsAble p.old }
    requires sound { IsTrue (list_all is_sound (map question_of line.now.questions.items)) }
    ensures answer { (source : Source) → AreFound source cache.new.table → IfSome (source_at cache.old.table number) (λ file.
        Gives (λ _. (sections.new, state_in cache.new.table p.new, p.new.text)) fault_of result
        (stepped_after p.old.text (asked_line (unit_context source unit.now cache.old.toks) file line.now sections.old (state_in cache.old.table p.old)))) }
    ensures goes_on { GoesOn p.old p.new result }
    ensures reads { ReadsOn (F.told files.old).held cache.old cache.new }
    ensures faults { ReadsOnly (F.told files.old) (F.told files.new) (reads_of result) }
{
    match condition_holds(alloc, cache, files, p, unit, number, line) {
        Ok(holds) => {
            sections.push(OpenSection::new(line.opening, group_if(holds), false))?;
            Ok(())
        }
        Err(fault) => Err(fault),
    }
}
