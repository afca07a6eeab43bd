// The classes of the next two tokens, with the names that are visible.
ghost use Rattle.std.specs.Prelude.{◌≡◌, ◌<◌, ◌+◌, ◌^◌, map};
ghost use Rattle.c99_tree.specs.Names.{is_typedef};
ghost use Rattle.c99_read.specs.Kept.{class_among, IsAhead};
ghost use Rattle.c99_grammar.specs.Standard.{grammar};
ghost use Rattle.c99_read.specs.State.{base_at, spelling_at};
ghost use Rattle.c99_grammar.specs.TokenClasses.{base_class};

use c99_grammar::{Class, Dialect};
use c99_tree::Visible;
use cs_base::Tok;

/// The class of the next token, and that of the one behind it.
#[derive(Clone, Copy)]
pub(crate) struct Ahead {
    pub here: Class,
    pub behind: Class,
}

/// The spelling of token `k`.
pub(crate) fn spelling<'a>(toks: &'a [Tok], k: usize) -> &'a [u8]
    ensures { result.now ≡ spelling_at toks.now k }
{
    match toks.get(k) {
        Some(tok) => tok.text(),
        None => &[],
    }
}

/// The class of token `k`, where no name counts as a typedef name.
pub(crate) fn base_at(_dialect: Dialect, toks: &[Tok], classes: &[Class], k: usize) -> Class
    requires classes_of { classes.now ≡ map (base_class (grammar _dialect)) toks.now }
    ensures { result ≡ base_at (grammar _dialect) toks.now k }
{
    match classes.get(k) {
        Some(class) => *class,
        None => {
            if k == toks.len() {
                Class::End
            } else {
                Class::NoClass
            }
        }
    }
}

// The innermost visible declaration of the spelling of token `k` is one of a typedef name.
fn is_typedef_at(toks: &[Tok], visible: &Visible, k: usize) -> bool
    ensures { result ≡ is_typedef visible.now (spelling_at toks.now k) }
{
    visible.is_typedef(spelling(toks, k))
}

#[tactic(auto, unfolding(crate::specs::Kept::class_among))]
// The class of token `k`.
fn class_at(dialect: Dialect, toks: &[Tok], classes: &[Class], visible: &Visible, k: usize) -> Class
    requires classes_of { classes.now ≡ map (base_class (grammar dialect)) toks.now }
    ensures { result ≡ class_among (grammar dialect) toks.now visible.now k }
{
    let class = base_at(dialect, toks, classes, k);
    if class == Class::Identifier && is_typedef_at(toks, visible, k) {
        Class::TypedefName
    } else {
        class
    }
}

/// The classes of token `at` and the one behind it.
pub(crate) fn look_ahead(
    dialect: Dialect,
    toks: &[Tok],
    classes: &[Class],
    visible: &Visible,
    at: usize,
) -> Ahead
    requires classes_of { classes.now ≡ map (base_class (grammar dialect)) toks.now }
    requires small { at < 2 ^ 32 }
    ensures { IsAhead (grammar dialect) result toks.now visible.now at }
{
    Ahead {
        here: class_at(dialect, toks, classes, visible, at),
        behind: class_at(dialect, toks, classes, visible, at + 1),
    }
}

/// The same one token further on.
pub(crate) fn moved_on(
    dialect: Dialect,
    ahead: Ahead,
    toks: &[Tok],
    classes: &[Class],
    visible: &Visible,
    at: usize,
) -> Ahead
    requires classes_of { classes.now ≡ map (base_class (grammar dialect)) toks.now }
    requires small { at < 2 ^ 32 }
    requires ahead_of { IsAhead (grammar dialect) ahead toks.now visible.now at }
    ensures { IsAhead (grammar dialect) result toks.now visible.now (at + 1) }
{
    Ahead {
        here: ahead.behind,
        behind: class_at(dialect, toks, classes, visible, at + 2),
    }
}
