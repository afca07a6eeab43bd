// The classes that satisfy a query, and their lines.
ghost use Rattle.std.specs.Prelude.{◌≡◌, ◌<◌, ◌^◌, ◌++◌, Ok, Err, IfErr, IfOk, IfSome, MatchBool, OnOk, length};
ghost use Rattle.analysis.specs.Parts.{IsPart};
ghost use Rattle.analysis.specs.Spellings.{spelling_of};
ghost use Rattle.query_words.specs.Grammar.{Alternatives, Derives, IsRead};
ghost use Rattle.query_words.specs.Queries.{Query, value};
ghost use Rattle.query_words.specs.Reading.{depth_limit, parsed};
ghost use Rattle.query_words.specs.Steps.{IsOf};
ghost use Rattle.query_words.specs.Telling.{AreTold};
ghost use Rattle.query_words.specs.Walk.{decided};
ghost use Rattle.find_names.specs.FileTokens.{AreFileTokens};
ghost use Rattle.find_names.specs.Found.{IsFound, found_line, PrintsFound, PrintsLine, Refuses};
ghost use Rattle.find_names.specs.Question.{IsClass};
ghost use Rattle.find_names.specs.Refusals.{fault_of};
ghost use Rattle.find_names.specs.RoleMarks.{AreRoleMarks};
ghost use Rattle.find_names.specs.Satisfying.{HasAttribute};
ghost use Rattle.query_words.specs.Satisfying.{AreFacts};

use crate::class_facts::facts_of;
use crate::file_tokens::FileTokens;
use crate::questions::is_in_question;
use crate::refusal::FindRefusal;
use crate::role_marks::{RoleMarks, role_marks};
use analysis::{Analysis, push_place};
use class_marks::class_number_near;
use cs_base::{Memory, Part};
use itoa::Buffer;
use query_words::{Compiled, Facts, Room, Told};
use std::alloc::Global;

// Whether the query says so of these attributes and the spelling of a class.
fn is_said(
    a: &Analysis,
    compiled: &Compiled,
    told: &mut Told,
    query: &[u8],
    facts: &Facts,
    part: Part,
    room: &mut Room,
) -> Result<bool, Memory>
    requires compiled { IsOf query.now compiled.now }
    requires part { IsPart a.now.value part }
    requires told { AreTold query.now told.old }
    ensures told { OnOk result (AreTold query.now told.new) }
    ensures answer { IfOk result (λ holds. Ok holds ≡ decided (value facts.now (spelling_of a.now.value part)) (parsed query.now)) }
{
    let _length = query.len();
    match told.known(facts) {
        Some(holds) => Ok(holds),
        None => {
            let holds = compiled.satisfied(facts, a.spelling(part), room)?;
            told.remember(facts, holds)?;
            Ok(holds)
        }
    }
}

// Whether the class of a first member, which has these members and these attributes, is in question and satisfies the query.
fn is_found(
    a: &Analysis,
    tokens: &FileTokens,
    compiled: &Compiled,
    told: &mut Told,
    query: &[u8],
    part: Part,
    members: &[Part],
    facts: &Facts,
    room: &mut Room,
) -> Result<bool, Memory>
    requires compiled { IsOf query.now compiled.now }
    requires class { IsClass a.now.value part members.now }
    requires facts { AreFacts (HasAttribute a.now.value part) facts.now }
    requires tokens { AreFileTokens a.now.value tokens.now.spans.items }
    requires told { AreTold query.now told.old }
    ensures told { OnOk result (AreTold query.now told.new) }
    ensures answer { IfOk result (λ b. (q : Query) → parsed query.now ≡ Ok q
        → MatchBool b (IsFound a.now.value q part) (IsFound a.now.value q part → ⊥)) }
{
    let satisfied = is_said(a, compiled, told, query, facts, part, room)?;
    if !satisfied {
        return Ok(false);
    }
    Ok(is_in_question(a, tokens, part, members))
}

// Adds the line of a class of so many members, by its first one.
fn push_counted(text: &mut Vec<u8>, a: &Analysis, part: Part, count: usize) -> Result<(), Memory>
    requires { IsPart a.now.value part }
    ensures { OnOk result (text.new.items ≡ text.old.items ++ found_line a.now.value part count) }
{
    let mut digits = Buffer::new();
    push_place(text, a, part.start)?;
    text.extend_from_slice(b" ")?;
    text.extend_from_slice(digits.format(count).as_bytes())?;
    text.extend_from_slice(b" ")?;
    text.extend_from_slice(a.spelling(part))?;
    text.extend_from_slice(b"\n")?;
    Ok(())
}

// Adds the line of a class, by its first member and all its members.
fn push_line(text: &mut Vec<u8>, a: &Analysis, part: Part, members: &[Part]) -> Result<(), Memory>
    requires { IsClass a.now.value part members.now }
    ensures { OnOk result (PrintsLine a.now.value part text.old.items text.new.items) }
{
    push_counted(text, a, part, members.len())?;
    Ok(())
}

// The lines of all classes that are found.
fn lines(
    alloc: Global,
    a: &Analysis,
    marks: &RoleMarks,
    tokens: &FileTokens,
    compiled: &Compiled,
    query: &[u8],
) -> Result<Vec<u8>, Memory>
    requires compiled { IsOf query.now compiled.now }
    requires marks { AreRoleMarks a.now marks.now }
    requires tokens { AreFileTokens a.now.value tokens.now.spans.items }
    ensures { IfOk result (λ text. (q : Query) → parsed query.now ≡ Ok q → PrintsFound a.now.value q text.items) }
{
    let firsts = a.firsts();
    let mut told = Told::of(alloc, query);
    let mut room = Room::new(alloc);
    let mut text = Vec::new(alloc);
    let mut guess = 0;
    for part in firsts {
        let class = class_number_near(a, *part, &mut guess);
        let members = a.members(*part);
        let facts = facts_of(a, marks, tokens, *part, class, members);
        let found = is_found(
            a, tokens, compiled, &mut told, query, *part, members, &facts, &mut room,
        )?;
        if found {
            push_line(&mut text, a, *part, members)?;
        }
    }
    Ok(text)
}

/// A line for each class in question that satisfies the query: `PATH:LINE:COL COUNT TEXT`, with the place of the first
/// member, the number of members and the spelling, in the order of the places. Refused: a word that is no query,
/// by its first fault; `Memory` where memory ran out.
pub fn find(alloc: Global, a: &Analysis, query: &[u8]) -> Result<Vec<u8>, FindRefusal>
    ensures answer { IfOk result (λ text. (q : Query) × (parsed query.now ≡ Ok q) × PrintsFound a.now.value q text.items) }
    ensures refused { IfErr result (Refuses query.now) }
    // The query is one that the grammar derives; and where the word is none, its first fault is so by the grammar alone.
    ensures derived { IfOk result (λ text. (q : Query) × Derives Alternatives depth_limit query.now q × PrintsFound a.now.value q text.items) }
    ensures fault { IfErr result (λ refusal. IfSome (fault_of refusal) (λ fault. IsRead query.now (Err fault))) }
{
    found(alloc, a, query)
}

// The same, as the query is read.
fn found(alloc: Global, a: &Analysis, query: &[u8]) -> Result<Vec<u8>, FindRefusal>
    ensures answer { IfOk result (λ text. (q : Query) × (parsed query.now ≡ Ok q) × PrintsFound a.now.value q text.items) }
    ensures refused { IfErr result (Refuses query.now) }
{
    if query.len() > u32::MAX as usize {
        return Err(FindRefusal::Memory);
    }
    let compiled = Compiled::of(alloc, query)?;
    let marks = role_marks(alloc, a)?;
    let tokens = FileTokens::of(alloc, a)?;
    let text = lines(alloc, a, &marks, &tokens, &compiled, query)?;
    Ok(text)
}
