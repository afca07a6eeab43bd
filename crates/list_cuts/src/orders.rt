// Orders of the items of a list: permutations of the numbers from one on.
ghost use Rattle.std.specs.Prelude.{◌≡◌, true, IfOk};
ghost use Rattle.list_cuts.specs.Cuts.{IsOrder};
ghost use Rattle.list_cuts.specs.Orders.{is_order};

use cs_base::Memory;
use std::alloc::Global;

/// Whether these are the numbers from 1 to `count`, each once, in whatever order.
pub fn is_order(alloc: Global, count: usize, order: &[usize]) -> Result<bool, Memory>
    ensures answer { IfOk result (λ answer. answer ≡ is_order count order.now) }
    ensures permutes { IfOk result (λ answer. answer ≡ true → IsOrder count order.now) }
{
    if order.len() != count {
        return Ok(false);
    }
    let mut met = Vec::new(alloc);
    for _ in 0..count {
        met.push(false)?;
    }
    for number in order {
        if *number > 0 && *number <= count {
            met[*number - 1] = true;
        }
    }
    for there in met.iter() {
        if !*there {
            return Ok(false);
        }
    }
    Ok(true)
}
