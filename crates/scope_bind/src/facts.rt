// What is known once a part of a unit is read.
ghost use Rattle.std.specs.Prelude.{◌≡◌, [], filter, map, reverse, slice_get, IfOk, OnOk, Some};
ghost use Rattle.std.specs.Option.{option_map};
ghost use Rattle.c_types.specs.Faults.{number_of, comes_first, first_fault};
ghost use Rattle.c_types.specs.Declarations.{no_facts, is_in, with_fault, with_occurrence, with_declaration, with_begun, with_complete, looked_up, visible, in_scope, anywhere, linked, is_mixed};
ghost use Rattle.scope_bind.specs.Known.{known};
ghost use Rattle.name_chains.specs.Latest.{passes};
ghost use Rattle.name_chains.specs.declared.latest.Asked.TheVariants.{Tag};
ghost use Rattle.scope_bind.specs.Labels.{with_jump};
ghost use Rattle.name_chains.specs.Members.{members_of, is_found_in, lifted, with_silent};
ghost use Rattle.name_chains.specs.Places.{place_of};
ghost use Rattle.name_chains.specs.Entering.{with_kept};
ghost use Rattle.c_types.specs.declared.declarations.Space.TheVariants.{Tags};

use crate::marks::Marks;
use c_types::{Cause, Declaration, Fault, Linkage, Occurrence, Space};
use cs_base::{Memory, Tok};
use name_chains::{Asked, Chains};
use std::alloc::Global;
use std::marker::Model;

/// The tokens of the unit, the declarations and what is bound so far, and the first fault. Contracts see the
/// latest declaration first.
#[derive(Drop)]
pub struct Facts<'a> {
    chains: Chains<'a>,
    occurrences: Vec<Occurrence>,
    begun: Marks,
    complete: Marks,
    jumps: Vec<u32>,
    fault: Option<Fault>,
}

impl<'a> Model for Facts<'a> {
    ghost use Rattle.std.specs.Prelude.{reverse};
    ghost use Rattle.scope_bind.specs.Known.{Known, known};

    ghost Value = { Known };

    ghost view = { λ f. known f.chains.toks (record { declared = f.chains.declared; occurrences = reverse f.occurrences.items; begun = f.begun; complete = f.complete; jumps = f.jumps.items; fault = f.fault }) };
}

fn number(cause: Cause) -> u8
    ensures { result ≡ number_of cause }
{
    match cause {
        Cause::Undeclared => 1,
        Cause::NoMember => 2,
        Cause::NoLabel => 3,
        Cause::Redeclared => 4,
        Cause::TagRedefined => 5,
        Cause::MixedLinkage => 6,
        Cause::DesignatorAfterElision => 7,
    }
}

fn comes_first(f: Fault, g: Fault) -> bool
    ensures { result ≡ comes_first f g }
{
    f.index < g.index || (f.index == g.index && number(f.cause) < number(g.cause))
}

fn first(found: Option<Fault>, fault: Fault) -> Fault
    ensures { first_fault found fault ≡ Some result }
{
    match found {
        None => fault,
        Some(other) => {
            if comes_first(fault, other) {
                fault
            } else {
                other
            }
        }
    }
}

fn count_of(k: usize) -> Result<u32, Memory>
    ensures { IfOk result (λ n. n ≡ k) }
{
    if k > u32::MAX as usize {
        return Err(Memory);
    }
    Ok(k as u32)
}

impl<'a> Facts<'a> {
    pub fn new(alloc: Global, toks: &'a [Tok]) -> Result<Facts<'a>, Memory>
        ensures { IfOk result (λ f. f ≡ known toks.now no_facts) }
    {
        Ok(Facts {
            chains: Chains::new(alloc, toks)?,
            occurrences: Vec::new(alloc),
            begun: Marks::new(alloc),
            complete: Marks::new(alloc),
            jumps: Vec::new(alloc),
            fault: None,
        })
    }

    /// The tokens of the unit.
    pub fn toks(&self) -> &'a [Tok]
        ensures { result.now ≡ self.now.toks }
    {
        self.chains.toks()
    }

    pub fn note(&mut self, wrong: bool, cause: Cause, index: u32)
        ensures { self.new ≡ known self.old.toks (with_fault wrong cause index self.old.facts) }
    {
        if wrong {
            self.fault = Some(first(self.fault, Fault { cause, index }));
        }
    }

    pub fn occur(&mut self, index: u32, entity: u32, declares: bool) -> Result<(), Memory>
        ensures { OnOk result (self.new ≡ known self.old.toks (with_occurrence index entity declares self.old.facts)) }
    {
        self.occurrences.push(Occurrence {
            index,
            entity,
            declares,
        })?;
        Ok(())
    }

    pub fn declare(&mut self, d: Declaration) -> Result<(), Memory>
        ensures { OnOk result (self.new ≡ known self.old.toks (with_declaration d self.old.facts)) }
    {
        self.occur(d.name_at, d.entity, true)?;
        self.chains.push(d)
    }

    /// A declaration more, which no identifier of its own declares.
    pub fn add(&mut self, d: Declaration) -> Result<(), Memory>
        ensures { OnOk result (self.new ≡ known self.old.toks (with_silent d self.old.facts)) }
    {
        self.chains.push(d)
    }

    pub fn begin(&mut self, begins: bool, entity: u32) -> Result<(), Memory>
        ensures { OnOk result (self.new ≡ known self.old.toks (with_begun begins entity self.old.facts)) }
    {
        if begins {
            self.begun.push(entity)?;
        }
        Ok(())
    }

    pub fn complete(&mut self, number: u32) -> Result<(), Memory>
        ensures { OnOk result (self.new ≡ known self.old.toks (with_complete number self.old.facts)) }
    {
        self.complete.push(number)
    }

    pub fn jump(&mut self, index: u32) -> Result<(), Memory>
        ensures { OnOk result (self.new ≡ known self.old.toks (with_jump index self.old.facts)) }
    {
        self.jumps.push(index)?;
        Ok(())
    }

    pub(crate) fn forget_jumps(&mut self)
        ensures { self.new ≡ known self.old.toks (record self.old.facts { jumps = [] }) }
    {
        self.jumps.clear();
    }

    pub(crate) fn jumps(&self) -> Result<Vec<u32>, Memory>
        ensures { IfOk result (λ v. v.items ≡ self.now.facts.jumps) }
    {
        Ok(self.jumps.clone()?)
    }

    pub fn fault(&self) -> Option<Fault>
        ensures { result ≡ self.now.facts.fault }
    {
        self.fault
    }

    /// The declarations, the first one first.
    pub fn declared(&self) -> &[Declaration]
        ensures { reverse result.now ≡ self.now.facts.declared }
    {
        self.chains.declared()
    }

    /// The entities whose braces have been read.
    pub fn begun(&self) -> &[u32]
        ensures { result.now ≡ self.now.facts.begun }
    {
        self.begun.as_slice()
    }

    /// The structures, unions and enumerations that are complete.
    pub fn completed(&self) -> &[u32]
        ensures { result.now ≡ self.now.facts.complete }
    {
        self.complete.as_slice()
    }

    /// The labels that the `goto`s of the function name whose body was the last to begin.
    pub fn jumping(&self) -> &[u32]
        ensures { result.now ≡ self.now.facts.jumps }
    {
        self.jumps.as_slice()
    }

    /// What is bound, the first one first.
    pub fn occurrences(&self) -> &[Occurrence]
        ensures { reverse result.now ≡ self.now.facts.occurrences }
    {
        self.occurrences.as_slice()
    }

    /// The declarations of a list that a body begins with have the body as a second range.
    pub(crate) fn keep(
        &mut self,
        list: Option<u32>,
        depth: u32,
        from: u32,
        to: u32,
    ) -> Result<(), Memory>
        ensures { OnOk result (self.new ≡ known self.old.toks (with_kept list depth from to self.old.facts)) }
    {
        match list {
            None => Ok(()),
            Some(close) => self.chains.keep(close, depth, from, to),
        }
    }

    pub fn has_begun(&self, entity: u32) -> bool
        ensures { result ≡ is_in self.now.facts.begun entity }
    {
        self.begun.has(entity)
    }

    pub(crate) fn is_complete(&self, number: u32) -> bool
        ensures { result ≡ is_in self.now.facts.complete number }
    {
        self.complete.has(number)
    }

    /// What is found among the members of a structure or union, the latest first, as names of the one around it.
    pub(crate) fn lifted(
        &self,
        alloc: Global,
        owner: u32,
        number: u32,
    ) -> Result<Vec<Declaration>, Memory>
        ensures { IfOk result (λ v. v.items ≡ map (lifted owner) (filter (is_found_in number) self.now.facts.declared)) }
    {
        self.chains.lifted(alloc, owner, number)
    }

    /// Member number `n` of the structure or union.
    pub(crate) fn member(&self, number: u32, n: u32) -> Option<&Declaration>
        ensures { option_map (λ d. d.now) result ≡ slice_get (members_of number self.now.facts) n }
    {
        self.chains.member(number, n)
    }

    /// How many members of the structure or union stand before the one with the name.
    pub(crate) fn number_before(&self, number: u32, name_at: u32) -> Result<u32, Memory>
        ensures { IfOk result (λ r. r ≡ place_of (members_of number self.now.facts) name_at) }
    {
        count_of(self.chains.members_before(number, name_at))
    }

    pub fn visible(&self, space: Space, i: u32, k: u32) -> Option<&Declaration>
        ensures { option_map (λ d. d.now) result ≡ visible self.now.toks space i k self.now.facts }
    {
        self.chains.latest(space, i, Asked::Live(k))
    }

    pub fn in_scope(&self, space: Space, depth: u32, i: u32, k: u32) -> Option<&Declaration>
        ensures { option_map (λ d. d.now) result ≡ in_scope self.now.toks space depth i k self.now.facts }
    {
        self.chains.latest(space, i, Asked::Within(k, depth))
    }

    pub(crate) fn prior_tag(&self, anew: bool, depth: u32, i: u32) -> Option<&Declaration>
        ensures { option_map (λ d. d.now) result ≡ looked_up self.now.toks Tags i (passes (Tag i anew depth)) self.now.facts }
    {
        self.chains
            .latest(Space::Tags, i, Asked::Tag(i, anew, depth))
    }

    pub(crate) fn anywhere(&self, space: Space, i: u32) -> Option<&Declaration>
        ensures { option_map (λ d. d.now) result ≡ anywhere self.now.toks space i self.now.facts }
    {
        self.chains.latest(space, i, Asked::Anywhere)
    }

    pub fn linked(&self, i: u32) -> Option<&Declaration>
        ensures { option_map (λ d. d.now) result ≡ linked self.now.toks i self.now.facts }
    {
        self.chains.linked(i)
    }

    pub(crate) fn is_mixed(&self, linkage: Linkage, i: u32) -> bool
        ensures { result ≡ is_mixed self.now.toks linkage i self.now.facts }
    {
        self.chains.is_mixed(linkage, i)
    }
}
