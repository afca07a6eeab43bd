// Which names are directly called (6.5.2.2).
ghost use Rattle.std.specs.Prelude.{◌≡◌, true};
ghost use Rattle.std.specs.List.Sorted.{IsNonDecreasingBy};
ghost use Rattle.c_types.specs.declared.lists.List.{List as NameList};
ghost use Rattle.template_rules.specs.NameOffences.{is_callee};

use c_types::List;

/// Whether the names of these calls stand in their order, as in every unit: then they are looked for by halving.
pub(crate) fn calls_rise(calls: &[List]) -> bool
    ensures { result ≡ true → IsNonDecreasingBy (λ (l : NameList). l.name) calls.now }
{
    for k in 1..calls.len() {
        if calls[k].name < calls[k - 1].name {
            return false;
        }
    }
    true
}

// Whether token `k` is the name of a call, by halving.
fn by_halves(calls: &[List], k: u32) -> bool
    requires { IsNonDecreasingBy (λ (l : NameList). l.name) calls.now }
    ensures { result ≡ is_callee calls.now k }
{
    let at = calls.partition_point(|list| list.name < k);
    if at >= calls.len() {
        return false;
    }
    calls[at].name == k
}

// The same, one after another.
fn by_each(calls: &[List], k: u32) -> bool
    ensures { result ≡ is_callee calls.now k }
{
    calls.iter().any(|list| list.name == k)
}

/// Whether token `k` is the name of a call.
pub(crate) fn is_callee(calls: &[List], k: u32, rises: bool) -> bool
    requires { rises ≡ true → IsNonDecreasingBy (λ (l : NameList). l.name) calls.now }
    ensures { result ≡ is_callee calls.now k }
{
    if rises {
        by_halves(calls, k)
    } else {
        by_each(calls, k)
    }
}
