// Orders in words.
ghost use Rattle.std.specs.Prelude.{◌≡◌, IfOk};
ghost use Rattle.command_words.specs.Request.{number_or_zero, order_of};

use crate::requests::{is_number, number};
use cs_base::Memory;
use std::alloc::Global;

// The number that a word is, and 0 for another word.
fn number_or_zero(word: &[u8]) -> u32
    ensures { result ≡ number_or_zero word.now }
{
    if is_number(word) { number(word) } else { 0 }
}

/// The numbers of an order in words.
pub fn order_of(alloc: Global, word: &[u8]) -> Result<Vec<usize>, Memory>
    ensures { IfOk result (λ order. order.items ≡ order_of word.now) }
{
    let mut order = Vec::new(alloc);
    for item in word.split(|b| *b == b',') {
        order.push(number_or_zero(item) as usize)?;
    }
    Ok(order)
}
