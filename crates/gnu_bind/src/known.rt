// What is known of declarations behind a front, and the same in another text.
ghost use Rattle.std.specs.Prelude.{◌≡◌, ◌++◌, map, reverse, IfOk, IfSome, OnOk};
ghost use Rattle.c_types.specs.Declarations.{no_facts};
ghost use Rattle.scope_bind.specs.Known.{known};
ghost use Rattle.scope_bind.specs.Carried.{behind_front, carried, carried_facts};
ghost use Rattle.scope_bind.specs.Moved.{moved_occurrence};

use crate::carrying::Way;
use crate::copies::declarations;
use c_types::{Declaration, Occurrence};
use cs_base::Memory;
use scope_bind::Facts;
use std::alloc::Global;
use std::marker::Model;

/// Declarations, what is bound, what has begun and is complete, and the labels that the last function jumps to. Contracts see
/// the facts, which have no fault.
#[derive(Drop)]
pub(crate) struct KnownFront {
    declared: Vec<Declaration>,
    occurrences: Vec<Occurrence>,
    begun: Vec<u32>,
    complete: Vec<u32>,
    jumps: Vec<u32>,
}

impl Model for KnownFront {
    ghost use Rattle.std.specs.Prelude.{None, reverse};
    ghost use Rattle.c_types.specs.Declarations.{Facts};

    ghost Value = { Facts };

    ghost view = { λ f. record {
      declared = reverse f.declared.items;
      occurrences = reverse f.occurrences.items;
      begun = f.begun.items;
      complete = f.complete.items;
      jumps = f.jumps.items;
      fault = None;
    } };
}

fn declare_all(way: Way, facts: &mut Facts<'_>, declared: &[Declaration]) -> Result<(), Memory>
    ensures { OnOk result (facts.new ≡ known facts.old.toks (record facts.old.facts {
      declared = map (carried (behind_front way.front way.text)) (reverse declared.now) ++ facts.old.facts.declared;
    })) }
{
    let count = declared.len();
    'declarations: for k in 0..count {
        let d = way.declaration(&declared[k])?;
        facts.add(d)?;
    }
    Ok(())
}

fn occur_all(way: Way, facts: &mut Facts<'_>, occurrences: &[Occurrence]) -> Result<(), Memory>
    ensures { OnOk result (facts.new ≡ known facts.old.toks (record facts.old.facts {
      occurrences = map (moved_occurrence (behind_front way.front way.text)) (reverse occurrences.now) ++ facts.old.facts.occurrences;
    })) }
{
    let count = occurrences.len();
    'occurrences: for k in 0..count {
        let o = way.occurrence(occurrences[k])?;
        facts.occur(o.index, o.entity, o.declares)?;
    }
    Ok(())
}

fn begin_all(way: Way, facts: &mut Facts<'_>, begun: &[u32]) -> Result<(), Memory>
    ensures { OnOk result (facts.new ≡ known facts.old.toks (record facts.old.facts {
      begun = facts.old.facts.begun ++ map (behind_front way.front way.text) begun.now;
    })) }
{
    let count = begun.len();
    'entities: for k in 0..count {
        facts.begin(true, way.at(begun[k])?)?;
    }
    Ok(())
}

fn complete_all(way: Way, facts: &mut Facts<'_>, complete: &[u32]) -> Result<(), Memory>
    ensures { OnOk result (facts.new ≡ known facts.old.toks (record facts.old.facts {
      complete = facts.old.facts.complete ++ map (behind_front way.front way.text) complete.now;
    })) }
{
    let count = complete.len();
    'numbers: for k in 0..count {
        facts.complete(way.at(complete[k])?)?;
    }
    Ok(())
}

fn jump_all(way: Way, facts: &mut Facts<'_>, jumps: &[u32]) -> Result<(), Memory>
    ensures { OnOk result (facts.new ≡ known facts.old.toks (record facts.old.facts {
      jumps = facts.old.facts.jumps ++ map (behind_front way.front way.text) jumps.now;
    })) }
{
    let count = jumps.len();
    'labels: for k in 0..count {
        facts.jump(way.at(jumps[k])?)?;
    }
    Ok(())
}

impl KnownFront {
    /// What is known, where nothing is at fault.
    pub(crate) fn of(alloc: Global, facts: &Facts<'_>) -> Result<Option<KnownFront>, Memory>
        ensures { IfOk result (λ o. IfSome o (λ k. k ≡ facts.now.facts)) }
    {
        if facts.fault().is_some() {
            return Ok(None);
        }
        Ok(Some(KnownFront {
            declared: declarations(alloc, facts.declared())?,
            occurrences: Vec::from_slice(alloc, facts.occurrences())?,
            begun: Vec::from_slice(alloc, facts.begun())?,
            complete: Vec::from_slice(alloc, facts.completed())?,
            jumps: Vec::from_slice(alloc, facts.jumping())?,
        }))
    }

    /// All of it is known in the other text, of which nothing was known.
    pub(crate) fn resume(&self, way: Way, facts: &mut Facts<'_>) -> Result<(), Memory>
        requires fresh { facts.old.facts ≡ no_facts }
        ensures { OnOk result (facts.new ≡ known facts.old.toks (carried_facts (behind_front way.front way.text) self.now)) }
    {
        declare_all(way, facts, self.declared.as_slice())?;
        occur_all(way, facts, self.occurrences.as_slice())?;
        begin_all(way, facts, self.begun.as_slice())?;
        complete_all(way, facts, self.complete.as_slice())?;
        jump_all(way, facts, self.jumps.as_slice())
    }
}
