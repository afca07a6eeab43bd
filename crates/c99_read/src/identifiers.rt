// The last identifier among the tokens of a node.
ghost use Rattle.std.specs.Prelude.{◌≡◌, None, Some, map};
ghost use Rattle.c99_tree.specs.Tree.{part_at, leaf};
ghost use Rattle.c99_read.specs.Children.{identifier_found};
ghost use Rattle.c99_grammar.specs.Standard.{grammar};
ghost use Rattle.c99_read.specs.State.{last_identifier};
ghost use Rattle.c99_grammar.specs.TokenClasses.{base_class};

use crate::ahead::base_at;
use c99_grammar::{Class, Dialect};
use c99_tree::{Child, Tree};
use cs_base::Tok;

/// The last identifier among the tokens of the node.
pub(crate) fn last_identifier(
    dialect: Dialect,
    toks: &[Tok],
    classes: &[Class],
    node: &Tree,
) -> Option<u32>
    requires classes_of { classes.now ≡ map (base_class (grammar dialect)) toks.now }
    ensures { result ≡ last_identifier (grammar dialect) toks.now node.now.under None }
{
    let mut k = node.len();
    'children: while k > 0 {
        k -= 1;
        if let Some(index) = identifier_at(dialect, toks, classes, node, k) {
            return Some(index);
        }
    }
    None
}

// Child `k` of the node, where it is an identifier.
fn identifier_at(
    dialect: Dialect,
    toks: &[Tok],
    classes: &[Class],
    node: &Tree,
    k: u32,
) -> Option<u32>
    requires classes_of { classes.now ≡ map (base_class (grammar dialect)) toks.now }
    ensures { result ≡ identifier_found (grammar dialect) toks.now (part_at node.now.under k) }
{
    match node.child(k) {
        Some(Child::Token(index)) => identifier(dialect, toks, classes, index),
        Some(Child::Node(_)) => None,
        None => None,
    }
}

fn identifier(dialect: Dialect, toks: &[Tok], classes: &[Class], index: u32) -> Option<u32>
    requires classes_of { classes.now ≡ map (base_class (grammar dialect)) toks.now }
    ensures { result ≡ identifier_found (grammar dialect) toks.now (Some (leaf index)) }
{
    if base_at(dialect, toks, classes, index as usize) == Class::Identifier {
        Some(index)
    } else {
        None
    }
}
