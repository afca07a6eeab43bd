// What a query that asks for no spelling said of attributes is not asked again.
ghost use Rattle.std.specs.Prelude.{ℕ, List, Ok, Some, ◌≡◌, ◌==◌, IfSome, OnOk, slice_get};
ghost use Rattle.std.specs.Bool.{OnTrue};
ghost use Rattle.std.specs.List.{list_any};
ghost use Rattle.query_words.specs.Queries.{value};
ghost use Rattle.query_words.specs.Reading.{equals, parsed};
ghost use Rattle.query_words.specs.Telling.{AreSameKinds, AreSameNames, AreSameUses, AreTold, said_of};
ghost use Rattle.query_words.specs.Walk.{decided};

use crate::attributes::Facts;
use cs_base::Memory;
use std::alloc::Global;

/// What a query says of something with these attributes.
#[derive(Clone, Copy)]
pub struct Said {
    facts: Facts,
    holds: bool,
}

/// What a query said so far, by the attributes, where it asks for no spelling; nothing where it does.
#[derive(Drop)]
pub struct Told {
    said: Vec<Said>,
    spelled: bool,
}

impl Told {
    /// Nothing so far.
    pub fn of(alloc: Global, query: &[u8]) -> Told
        ensures { AreTold query.now result }
    {
        Told {
            said: Vec::new(alloc),
            spelled: asks_spelling(query),
        }
    }

    /// What the query said of something with these attributes, if it was asked, whatever the spelling.
    pub fn known(&self, facts: &Facts) -> Option<bool>
        ensures { IfSome result (λ holds. (query : List ℕ) (spelling : List ℕ) → AreTold query self.now
            → Ok holds ≡ decided (value facts.now spelling) (parsed query)) }
    {
        found(&self.said, facts)
    }

    /// The query says this of something with these attributes and some spelling.
    pub fn remember(&mut self, facts: &Facts, holds: bool) -> Result<(), Memory>
        ensures { OnOk result ((query : List ℕ) (spelling : List ℕ) → AreTold query self.old
            → Ok holds ≡ decided (value facts.now spelling) (parsed query) → AreTold query self.new) }
    {
        if self.spelled {
            return Ok(());
        }
        self.said.push(Said {
            facts: *facts,
            holds,
        })?;
        Ok(())
    }
}

// Whether a query has a `=`, without which it asks for no spelling.
fn asks_spelling(query: &[u8]) -> bool
    ensures { result ≡ list_any (λ b. b == equals) query.now }
{
    query.iter().any(|byte| *byte == b'=')
}

fn found(said: &[Said], facts: &Facts) -> Option<bool>
    ensures { IfSome result (λ holds. (k : ℕ) × (slice_get said.now k ≡ Some (said_of facts.now holds))) }
{
    for one in said {
        if are_same(&one.facts, facts) {
            return Some(one.holds);
        }
    }
    None
}

// Whether facts are known to be the same.
fn are_same(x: &Facts, y: &Facts) -> bool
    ensures { OnTrue result (x.now ≡ y.now) }
{
    if !are_same_kinds(x, y) {
        return false;
    }
    if !are_same_names(x, y) {
        return false;
    }
    are_same_uses(x, y)
}

fn is_same(x: bool, y: bool) -> bool
    ensures { OnTrue result (x ≡ y) }
{
    x == y
}

fn are_same_kinds(x: &Facts, y: &Facts) -> bool
    ensures { OnTrue result (AreSameKinds x.now y.now) }
{
    is_same(x.macro_, y.macro_)
        && is_same(x.function, y.function)
        && is_same(x.object, y.object)
        && is_same(x.typedef, y.typedef)
}

fn are_same_names(x: &Facts, y: &Facts) -> bool
    ensures { OnTrue result (AreSameNames x.now y.now) }
{
    is_same(x.parameter, y.parameter)
        && is_same(x.enumerator, y.enumerator)
        && is_same(x.tag, y.tag)
        && is_same(x.member, y.member)
        && is_same(x.label, y.label)
}

fn are_same_uses(x: &Facts, y: &Facts) -> bool
    ensures { OnTrue result (AreSameUses x.now y.now) }
{
    is_same(x.external, y.external)
        && is_same(x.read_only, y.read_only)
        && is_same(x.unused, y.unused)
        && is_same(x.cut, y.cut)
}
