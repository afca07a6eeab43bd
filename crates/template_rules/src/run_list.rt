// The items that a unit reached, and for which of them a token was put out.
ghost use Rattle.std.specs.Prelude.{◌≡◌, ◌-◌, ◌+◌, true, length, slice_get};
ghost use Rattle.std.specs.List.Sorted.{IsNonDecreasingBy};
ghost use Rattle.analysis.specs.Below.unit_steps.declared.events.Reached.{Reached};
ghost use Rattle.template_rules.specs.Marks.{is_across};
ghost use Rattle.template_rules.specs.MacroOffences.{item_of, run_of};

use analysis::Reached;
use c_types::List;
use std::marker::Model;

/// The items that a unit reached. Contracts see them alone; it is known whether the numbers of tokens that were put out
/// before them rise, as they do in every unit, and then runs are looked for by halving.
#[derive(Drop)]
pub(crate) struct Runs<'a> {
    reached: &'a [Reached],
    rises: bool,
}

impl<'a> Model for Runs<'a> {
    ghost use Rattle.std.specs.Coded.{codes};
    ghost use Rattle.std.specs.Prelude.{◌≡◌, List, true};
    ghost use Rattle.std.specs.List.Sorted.{IsNonDecreasingBy};
    ghost use Rattle.analysis.specs.Below.unit_steps.declared.events.Reached.{Reached};

    ghost Value = { List Reached };

    ghost coded = { Prim.hlevel (codes) };

    ghost view = { λ r. r.reached.now };

    ghost invariant = { λ r. r.rises ≡ true → IsNonDecreasingBy (λ (x : Reached). x.before) r.reached.now };
}

// Whether the numbers of tokens rise.
fn rises(reached: &[Reached]) -> bool
    ensures { result ≡ true → IsNonDecreasingBy (λ (x : Reached). x.before) reached.now }
{
    for k in 1..reached.len() {
        if reached[k].before < reached[k - 1].before {
            return false;
        }
    }
    true
}

// How many items were reached before token `k` was put out, by halving.
fn run_by_halves(reached: &[Reached], k: u32) -> usize
    requires { IsNonDecreasingBy (λ (x : Reached). x.before) reached.now }
    ensures { result ≡ run_of reached.now k }
{
    reached.partition_point(|item| item.before <= k)
}

// The same, one after another.
fn run_by_each(reached: &[Reached], k: u32) -> usize
    ensures { result ≡ run_of reached.now k }
{
    let mut count = 0;
    for item in reached {
        if item.before <= k {
            count += 1;
        }
    }
    count
}

// The item that was reached as this one, counted from 1.
fn item_in(reached: &[Reached], number: usize) -> Option<Reached>
    ensures { result ≡ slice_get reached.now (number - 1) }
{
    let place = if number > 0 { number - 1 } else { 0 };
    if place < reached.len() {
        Some(reached[place])
    } else {
        None
    }
}

impl<'a> Runs<'a> {
    /// The items that a unit reached.
    pub(crate) fn new(reached: &'a [Reached]) -> Runs<'a>
        ensures { result ≡ reached.now }
    {
        let rises = rises(reached);
        Runs { reached, rises }
    }

    /// These items.
    pub(crate) fn items(&self) -> &'a [Reached]
        ensures { result.now ≡ self.now }
    {
        self.reached
    }

    /// How many items were reached before token `k` was put out.
    pub(crate) fn run_of(&self, k: u32) -> usize
        ensures { result ≡ run_of self.now k }
    {
        if self.rises {
            run_by_halves(self.reached, k)
        } else {
            run_by_each(self.reached, k)
        }
    }

    /// The item that was reached as this one, counted from 1.
    pub(crate) fn item_at(&self, number: usize) -> Option<Reached>
        ensures { result ≡ slice_get self.now (number - 1) }
    {
        item_in(self.reached, number)
    }

    /// The item for which token `k` was put out.
    pub(crate) fn item_of(&self, k: u32) -> Option<Reached>
        ensures { result ≡ item_of self.now k }
    {
        self.item_at(self.run_of(k))
    }

    /// Whether some item was reached between the name of a list and its end.
    pub(crate) fn is_across(&self, list: &List) -> bool
        ensures { result ≡ is_across self.now list.now }
    {
        self.run_of(list.name) < self.run_of(list.close)
    }
}
