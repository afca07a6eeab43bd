// The parameter list with whose names a function's body begins, in GNU C.
ghost use Rattle.std.specs.Prelude.{◌≡◌, ◌+◌};
ghost use Rattle.std.specs.Option.{option_or};
ghost use Rattle.c_types.specs.Children.{from_child};
ghost use Rattle.gnu_bind.specs.OpenLists.{open_list, open_after};

use c_types::{Frame, Part, child_at, is_list, is_node, last_token};
use c99_tree::{Production, Tree};

// Where the first list of a declarator ends that stands in no other list, and in no block.
#[cycle(lists)]
fn open_list(tree: &Tree) -> Option<u32>
    ensures { result ≡ open_list tree.now.under }
{
    let count = tree.len();
    'children: for k in 0..count {
        if let Some(close) = list_at(tree, k) {
            return Some(close);
        }
    }
    None
}

// .. where it is child `k` or stands in it.
#[cycle(lists)]
fn list_at(tree: &Tree, k: u32) -> Option<u32>
    ensures { open_list (from_child k tree.now.under) ≡ option_or result (open_list (from_child (k + 1) tree.now.under)) }
{
    match child_at(tree, k) {
        Part::End => None,
        Part::Token(_) => None,
        Part::Node(inner) => {
            if is_list(inner.label()) {
                Some(last_token(inner, 0))
            } else if is_node(inner.label(), Production::Block) {
                None
            } else {
                open_list(inner)
            }
        }
    }
}

/// Where the list ends with whose names a body begins, once a node is left.
pub(crate) fn open_after(f: &Frame, tree: &Tree) -> Option<u32>
    ensures { result ≡ open_after f.now tree.now.label tree.now.under }
{
    if is_node(tree.label(), Production::Declarator) {
        open_list(tree)
    } else {
        f.kept
    }
}
