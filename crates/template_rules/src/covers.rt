// Lists that stand around tokens of a unit.
ghost use Rattle.std.specs.Borrow.{Bor};
ghost use Rattle.std.specs.Prelude.{◌≡◌, ◌≤◌, true, false, length, max, nat_lt, IfOk};
ghost use Rattle.std.specs.List.{list_any};
ghost use Rattle.std.specs.List.Sorted.{IsNonDecreasingBy, IsPartitionPoint};
ghost use Rattle.c_types.specs.declared.lists.List.{List as NameList};
ghost use Rattle.template_rules.specs.Covers.{AreLast, is_around};
ghost use Rattle.template_rules.specs.ListPlaces.{HaveSame};

use c_types::List;
use cs_base::Memory;
use std::alloc::Global;

/// Lists in the order in which they begin, and of each the last token at which one of those up to it ends.
#[derive(Drop)]
pub(crate) struct Covers<'a> {
    pub(crate) lists: Vec<&'a List>,
    pub(crate) ends: Vec<u32>,
    ghost rising: { IsNonDecreasingBy (λ (l : Bor NameList). l.now.begin) lists.items },
    ghost last: { AreLast lists.items ends.items },
}

// The later of a token and that at which a list ends.
fn later(last: u32, list: &List) -> u32
    ensures { result ≡ max last list.now.close }
{
    if list.close > last { list.close } else { last }
}

// Of each list the last token at which one of those up to it ends.
fn ends_of(alloc: Global, lists: &[&List]) -> Result<Vec<u32>, Memory>
    ensures { IfOk result (λ ends. AreLast lists.now ends.items) }
{
    let mut ends = Vec::new(alloc);
    let mut last = 0;
    for list in lists {
        last = later(last, list);
        ends.push(last)?;
    }
    Ok(ends)
}

// How many of these lists begin before a token.
fn begun_before(lists: &[&List], after: u32) -> usize
    requires { IsNonDecreasingBy (λ (l : Bor NameList). l.now.begin) lists.now }
    ensures bound { result ≤ length lists.now }
    ensures cut { IsPartitionPoint (λ (l : Bor NameList). nat_lt l.now.begin after ≡ true)
        (λ (l : Bor NameList). nat_lt l.now.begin after ≡ false) lists.now result }
{
    lists.partition_point(|list| list.begin < after)
}

// These lists in the order in which they begin.
fn in_order<'a>(alloc: Global, lists: &[&'a List]) -> Result<Vec<&'a List>, Memory>
    ensures moved { IfOk result (λ out. HaveSame lists.now out.items) }
    ensures rising { IfOk result (λ out. IsNonDecreasingBy (λ (l : Bor NameList). l.now.begin) out.items) }
{
    let mut out = Vec::new(alloc);
    for list in lists {
        out.push(*list)?;
    }
    out.sort_by_key(|list| list.begin)?;
    Ok(out)
}

impl<'a> Covers<'a> {
    /// Those of these lists.
    pub(crate) fn new(alloc: Global, given: &[&'a List]) -> Result<Covers<'a>, Memory>
        ensures { IfOk result (λ c. HaveSame given.now c.lists.items) }
    {
        let lists = in_order(alloc, given)?;
        let ends = ends_of(alloc, &lists)?;
        Ok(Covers { lists, ends })
    }

    /// Whether one of the lists begins before one token, and does not end before another.
    pub(crate) fn holds(&self, after: u32, to: u64) -> bool
        requires { after ≤ to }
        ensures { result ≡ list_any (λ (l : Bor NameList). is_around after to l.now) self.now.lists.items }
    {
        let begun = begun_before(&self.lists, after);
        if begun == 0 {
            return false;
        }
        to <= self.ends[begun - 1] as u64
    }
}
