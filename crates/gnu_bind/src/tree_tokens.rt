// Whether all tokens below a node stand before a number, and those behind them.
ghost use Rattle.std.specs.Prelude.{◌≡◌, ◌+◌, true};
ghost use Rattle.c_types.specs.Children.{from_child};
ghost use Rattle.scope_bind.specs.Carried.{IsBelow};

use c_types::{Part, child_at};
use c99_tree::Tree;

#[cycle(tokens)]
pub(crate) fn is_below(tree: &Tree, end: usize) -> bool
    ensures { result ≡ true → IsBelow end tree.now.under }
{
    let count = tree.len();
    let mut k = count;
    'children: while k > 0 {
        k -= 1;
        if !is_below_at(tree, k, end) {
            return false;
        }
    }
    true
}

#[cycle(tokens)]
fn is_below_at(tree: &Tree, k: u32, end: usize) -> bool
    ensures { result ≡ true → IsBelow end (from_child (k + 1) tree.now.under) → IsBelow end (from_child k tree.now.under) }
{
    match child_at(tree, k) {
        Part::End => true,
        Part::Token(i) => (i as usize) + 1 < end,
        Part::Node(inner) => (inner.first() as usize) + 1 < end && is_below(inner, end),
    }
}
