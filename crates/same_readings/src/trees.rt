// Two trees, one child after another.
ghost use Rattle.std.specs.Prelude.{◌≡◌, ◌+◌, ◌&&◌};
ghost use Rattle.c_types.specs.Children.{from_child};
ghost use Rattle.c_types.specs.Shapes.{is_end};
ghost use Rattle.same_readings.specs.SameTrees.{same_label, same_forest, same_tree};

use crate::numbers::number_of;
use c_types::{Part, child_at};
use c99_tree::{Label, Tree};

fn is_same_label(one: Label, other: Label) -> bool
    ensures { result ≡ same_label one other }
{
    number_of(one.production) == number_of(other.production) && one.alternative == other.alternative
}

// No child has the number.
fn ends_at(tree: &Tree, k: u32) -> bool
    ensures { result ≡ is_end (from_child k tree.now.under) }
{
    match child_at(tree, k) {
        Part::End => true,
        Part::Token(_) => false,
        Part::Node(_) => false,
    }
}

/// Whether two nodes are one, with all that stands below.
#[cycle(same)]
pub fn is_same_tree(one: &Tree, other: &Tree) -> bool
    ensures { result ≡ same_tree one.now other.now }
{
    is_same_label(one.label(), other.label())
        && (one.first() == other.first() && are_same(one, other))
}

// .. and so are their children.
#[cycle(same)]
fn are_same(one: &Tree, other: &Tree) -> bool
    ensures { result ≡ same_forest one.now.under other.now.under }
{
    let count = one.len();
    'children: for k in 0..count {
        if !is_same_at(one, other, k) {
            return false;
        }
    }
    ends_at(other, count)
}

#[cycle(same)]
fn is_same_at(one: &Tree, other: &Tree, k: u32) -> bool
    ensures { same_forest (from_child k one.now.under) (from_child k other.now.under) ≡ (result && same_forest (from_child (k + 1) one.now.under) (from_child (k + 1) other.now.under)) }
{
    match child_at(one, k) {
        Part::End => match child_at(other, k) {
            Part::End => true,
            Part::Token(_) => false,
            Part::Node(_) => false,
        },
        Part::Token(i) => match child_at(other, k) {
            Part::Token(j) => i == j,
            Part::Node(_) => false,
            Part::End => false,
        },
        Part::Node(here) => match child_at(other, k) {
            Part::Node(there) => is_same_tree(here, there),
            Part::Token(_) => false,
            Part::End => false,
        },
    }
}
