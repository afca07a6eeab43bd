// The parameters of the declarators of a unit, by the names of these.
ghost use Rattle.std.specs.Prelude.{◌≡◌, true};
ghost use Rattle.std.specs.List.Sorted.{IsNonDecreasingBy};
ghost use Rattle.std.specs.Option.{option_copied};
ghost use Rattle.c_types.specs.declared.parameters.ParameterList.{ParameterList as Parameters};
ghost use Rattle.template_rules.specs.Lists.{parameters_at};

use c_types::ParameterList;
use std::marker::Model;

/// The parameter lists of the declarators of a unit. Contracts see them alone; it is known whether the names that they
/// belong to stand in their order, as they do in every unit, and then a list is looked for by halving.
#[derive(Drop)]
pub(crate) struct UnitParameters {
    lists: Vec<ParameterList>,
    rises: bool,
}

impl Model for UnitParameters {
    ghost use Rattle.std.specs.Prelude.{◌≡◌, List, true};
    ghost use Rattle.std.specs.List.Sorted.{IsNonDecreasingBy};
    ghost use Rattle.c_types.specs.declared.parameters.ParameterList.{ParameterList as Parameters};

    ghost Value = { List Parameters };

    ghost view = { λ u. u.lists.items };

    ghost invariant = { λ u. u.rises ≡ true → IsNonDecreasingBy (λ (p : Parameters). p.name) u.lists.items };
}

// Whether the names stand in their order.
fn names_rise(lists: &[ParameterList]) -> bool
    ensures { result ≡ true → IsNonDecreasingBy (λ (p : Parameters). p.name) lists.now }
{
    for k in 1..lists.len() {
        if lists[k].name < lists[k - 1].name {
            return false;
        }
    }
    true
}

// The parameters of the declarator whose name is token `k`, by halving.
fn by_halves(lists: &[ParameterList], k: u32) -> Option<&ParameterList>
    requires { IsNonDecreasingBy (λ (p : Parameters). p.name) lists.now }
    ensures { option_copied result ≡ parameters_at lists.now k }
{
    let at = lists.partition_point(|list| list.name < k);
    if at >= lists.len() {
        return None;
    }
    if lists[at].name == k {
        Some(&lists[at])
    } else {
        None
    }
}

// The same, one after another.
fn by_each(lists: &[ParameterList], k: u32) -> Option<&ParameterList>
    ensures { option_copied result ≡ parameters_at lists.now k }
{
    for list in lists {
        if list.name == k {
            return Some(list);
        }
    }
    None
}

impl UnitParameters {
    /// These lists.
    pub(crate) fn new(lists: Vec<ParameterList>) -> UnitParameters
        ensures { result ≡ lists.items }
    {
        let rises = names_rise(&lists);
        UnitParameters { lists, rises }
    }

    /// The parameters of the declarator whose name is token `k`, if it has a list.
    pub(crate) fn of_name(&self, k: u32) -> Option<&ParameterList>
        ensures { option_copied result ≡ parameters_at self.now k }
    {
        if self.rises {
            by_halves(self.lists.as_slice(), k)
        } else {
            by_each(self.lists.as_slice(), k)
        }
    }
}
