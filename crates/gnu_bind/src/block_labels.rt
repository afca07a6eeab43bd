// Labels that a block declares, and those of the function, in GNU C.
ghost use Rattle.std.specs.Prelude.{◌≡◌, is_some, true, IfOk, OnOk};
ghost use Rattle.std.specs.Option.{option_map};
ghost use Rattle.scope_bind.specs.Known.{known};
ghost use Rattle.gnu_bind.specs.BlockLabels.{block_labels, block_label, block_label_used, function_jump, with_block_label, block_label_at, function_label, labelled_by, labelled, jumped_by, jumped};

use crate::senses::Sense;
use c_types::{Base, CType, Cause, Declaration, EntityKind, Frame, Linkage, Scope, Space};
use cs_base::Memory;
use scope_bind::Facts;
use std::alloc::Global;

fn block_label(alloc: Global, scope: Scope, i: u32) -> Result<Declaration, Memory>
    ensures { IfOk result (λ d. d ≡ block_label scope i) }
{
    let from = match i.checked_add(1) {
        Some(from) => from,
        None => return Err(Memory),
    };
    Ok(Declaration {
        space: Space::Labels(0),
        name_at: i,
        entity: i,
        kind: EntityKind::Label,
        linkage: Linkage::Absent,
        ctype: CType::plain(alloc, Base::Arithmetic),
        depth: scope.depth,
        from,
        to: scope.to,
        listed: false,
    })
}

/// `__label__`: the label is declared in the block.
pub(crate) fn declare_block_label(
    facts: &mut Facts<'_>,
    alloc: Global,
    scope: Scope,
    i: u32,
) -> Result<(), Memory>
    ensures { OnOk result (facts.new ≡ known facts.old.toks (with_block_label facts.old.toks scope i facts.old.facts)) }
{
    let twice = facts
        .in_scope(Space::Labels(0), scope.depth, i, i)
        .is_some();
    let d = block_label(alloc, scope, i)?;
    facts.note(twice, Cause::Redeclared, i);
    facts.declare(d)
}

// The entity of the label of the innermost block that declares one of the name.
fn label_entity(facts: &Facts<'_>, sense: Sense, i: u32) -> Option<u32>
    ensures { result ≡ option_map (λ d. d.entity) (block_label_at facts.now.toks sense i facts.now.facts) }
{
    if sense.labels {
        facts.visible(Space::Labels(0), i, i).map(|d| d.entity)
    } else {
        None
    }
}

// A statement has the label.
fn use_block_label(facts: &mut Facts<'_>, i: u32, entity: u32) -> Result<(), Memory>
    ensures { OnOk result (facts.new ≡ known facts.old.toks (block_label_used i entity facts.old.facts)) }
{
    let twice = facts.has_begun(entity);
    facts.note(twice, Cause::Redeclared, i);
    facts.occur(i, entity, false)?;
    facts.begin(true, entity)
}

fn label_function(
    facts: &mut Facts<'_>,
    alloc: Global,
    sense: Sense,
    f: &Frame,
    i: u32,
) -> Result<(), Memory>
    ensures { OnOk result (facts.new ≡ known facts.old.toks (function_label facts.old.toks sense f.now i facts.old.facts)) }
{
    if sense.homeless {
        facts.note(true, Cause::NoLabel, i);
        Ok(())
    } else {
        facts.label(alloc, f.body, i)
    }
}

/// A labeled statement.
pub(crate) fn label(
    facts: &mut Facts<'_>,
    alloc: Global,
    sense: Sense,
    f: &Frame,
    i: u32,
) -> Result<(), Memory>
    ensures { OnOk result (facts.new ≡ known facts.old.toks (labelled facts.old.toks sense f.now i facts.old.facts)) }
{
    match label_entity(facts, sense, i) {
        None => label_function(facts, alloc, sense, f, i),
        Some(entity) => use_block_label(facts, i, entity),
    }
}

fn jump_in_function(facts: &mut Facts<'_>, sense: Sense, i: u32) -> Result<(), Memory>
    ensures { OnOk result (facts.new ≡ known facts.old.toks (function_jump sense i facts.old.facts)) }
{
    if sense.homeless {
        facts.note(true, Cause::NoLabel, i);
        Ok(())
    } else {
        facts.jump(i)
    }
}

/// A label that is jumped to, or whose address is taken in a body.
pub(crate) fn jump(facts: &mut Facts<'_>, sense: Sense, i: u32) -> Result<(), Memory>
    ensures { OnOk result (facts.new ≡ known facts.old.toks (jumped facts.old.toks sense i facts.old.facts)) }
{
    match label_entity(facts, sense, i) {
        None => jump_in_function(facts, sense, i),
        Some(entity) => facts.occur(i, entity, false),
    }
}
