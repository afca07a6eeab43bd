// The edits of a trim, with what they keep.
ghost use Rattle.std.specs.Prelude.{◌≡◌, ◌++◌, IfOk, OnOk, map};
ghost use Rattle.trim_plan.specs.Kept.{IsTrim, TrimsOver};
ghost use Rattle.trim_rules.specs.JudgedLines.{judged_in};
ghost use Rattle.trim_rules.specs.Staying.{removable, removed_by};
ghost use Rattle.trim_rules.specs.Trimmed.{edits_of};

use crate::comparing::is_trimmed;
use crate::second::second;
use analysis::{Analysis, made_files_are_pseudo, paths_stand_once, tables_are_found};
use cs_base::{Edits, Memory, Pos};
use std::alloc::Global;
use trim_rules::{Judged, Lines, edits, judge};

/// The edits of a trim, and the judgement of each line that brings nothing which is used.
#[derive(Drop)]
pub struct Trim {
    pub edits: Edits,
    pub judged: Vec<Judged>,
}

// The lines that nothing keeps.
fn removable(alloc: Global, judged: &[Judged]) -> Result<Vec<Pos>, Memory>
    ensures { IfOk result (λ lines. lines.items ≡ removable (map judged_in judged.now)) }
{
    let mut lines = Vec::new(alloc);
    for one in judged {
        push_removed(&mut lines, one)?;
    }
    Ok(lines)
}

// Adds a line that nothing keeps.
fn push_removed(lines: &mut Vec<Pos>, one: &Judged) -> Result<(), Memory>
    ensures { OnOk result (lines.new.items ≡ lines.old.items ++ removed_by (judged_in one.now)) }
{
    match &one.why {
        Some(_) => Ok(()),
        None => {
            lines.push(one.at)?;
            Ok(())
        }
    }
}

// The edits that make null directives of these lines, where that is seen to keep the rest.
fn kept_edits(alloc: Global, a: &Analysis, lines: &Lines) -> Result<Edits, Memory>
    ensures edits { IfOk result (λ edits. edits ≡ edits_of lines.now a.now.value.table) }
    ensures meaning { IfOk result (λ edits. TrimsOver a.now.value.workspace a.now.value lines.now edits) }
{
    made_files_are_pseudo();
    tables_are_found();
    paths_stand_once();
    // The workspace is one that lines make.
    let ws = a.workspace();
    let _units = ws.units();
    let b = second(alloc, lines, a)?;
    let same = is_trimmed(alloc, lines, a, &b)?;
    if !same {
        return Err(Memory);
    }
    let made = edits(alloc, lines, a)?;
    Ok(made)
}

/// The edits that make null directives of the include lines which nothing needs, with the judgement of each line that brings
/// nothing which is used.
pub fn plan_trim(alloc: Global, a: &Analysis) -> Result<Trim, Memory>
    // Exactly the lines that bring nothing which is used, each with why it stays or with its edit.
    ensures answer { IfOk result (λ t. IsTrim a.now.value (map judged_in t.judged.items) t.edits) }
    // Over each source with this analysis, once the edits are made, the workspace has the rest of what it had.
    ensures meaning { IfOk result (λ t. TrimsOver a.now.value.workspace a.now.value (removable (map judged_in t.judged.items)) t.edits) }
{
    let judged = judge(alloc, a)?;
    let all = judged.as_slice();
    let removed = removable(alloc, all)?;
    let lines = Lines::new(alloc, removed)?;
    let edits = kept_edits(alloc, a, &lines)?;
    Ok(Trim { edits, judged })
}
