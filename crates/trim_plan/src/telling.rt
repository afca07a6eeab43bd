// The lines that tell why include lines stay.
ghost use Rattle.std.specs.Prelude.{◌≡◌, ◌++◌, Some, OnOk, map};
ghost use Rattle.trim_rules.specs.JudgedLines.{judged_in};
ghost use Rattle.trim_rules.specs.Reasons.{why};
ghost use Rattle.trim_plan.specs.Stays.{line_for, stays_line, stays_lines, told_lines, why_text};

use crate::plan::Trim;
use analysis::{Analysis, push_place};
use cs_base::{Memory, Pos};
use trim_rules::{Judged, Why};

// Adds a word and a name.
fn push_named(text: &mut Vec<u8>, word: &[u8], name: &[u8]) -> Result<(), Memory>
    ensures { OnOk result (text.new.items ≡ text.old.items ++ (word.now ++ name.now)) }
{
    text.extend_from_slice(word)?;
    text.extend_from_slice(name)?;
    Ok(())
}

// Adds a word.
fn push_word(text: &mut Vec<u8>, word: &[u8]) -> Result<(), Memory>
    ensures { OnOk result (text.new.items ≡ text.old.items ++ word.now) }
{
    text.extend_from_slice(word)?;
    Ok(())
}

// Adds a reason in words.
fn push_why(text: &mut Vec<u8>, reason: &Why) -> Result<(), Memory>
    ensures { OnOk result (text.new.items ≡ text.old.items ++ why_text (why reason.now)) }
{
    match reason {
        Why::Computed => push_word(text, b"computed"),
        Why::Fragment => push_word(text, b"fragment"),
        Why::Name(name) => push_named(text, b"name ", name.bytes()),
        Why::Definition(name) => push_named(text, b"definition ", name.bytes()),
        Why::Pragma => push_word(text, b"pragma"),
    }
}

// Adds the line of an include line that stays.
fn push_line(text: &mut Vec<u8>, a: &Analysis, at: Pos, reason: &Why) -> Result<(), Memory>
    ensures { OnOk result (text.new.items ≡ text.old.items ++ stays_line a.now.value at (why reason.now)) }
{
    text.extend_from_slice(b"stays ")?;
    push_place(text, a, at)?;
    text.extend_from_slice(b" ")?;
    push_why(text, reason)?;
    text.extend_from_slice(b"\n")?;
    Ok(())
}

// Adds the line of a judgement that something keeps.
fn push_judged(text: &mut Vec<u8>, a: &Analysis, judged: &Judged) -> Result<(), Memory>
    ensures { OnOk result (text.new.items ≡ text.old.items ++ line_for a.now.value (judged_in judged.now)) }
{
    match &judged.why {
        Some(reason) => push_line(text, a, judged.at, reason),
        None => Ok(()),
    }
}

// Adds the lines of judgements, in order.
fn push_each(text: &mut Vec<u8>, a: &Analysis, judged: &[Judged]) -> Result<(), Memory>
    ensures { OnOk result (text.new.items ≡ text.old.items ++ stays_lines a.now.value (map judged_in judged.now)) }
{
    for one in judged {
        push_judged(text, a, one)?;
    }
    Ok(())
}

/// Adds `stays PATH:LINE:COL WHY` for each line of a trim that stays, in order.
pub fn push_stays(text: &mut Vec<u8>, a: &Analysis, trim: &Trim) -> Result<(), Memory>
    ensures { OnOk result (text.new.items ≡ text.old.items ++ told_lines a.now.value trim.now) }
{
    let judged = trim.judged.as_slice();
    push_each(text, a, judged)
}
