// How many parentheses are open.
ghost use Rattle.std.specs.Prelude.{◌≡◌, ◌+◌, ◌<◌, ◌^◌};
ghost use Rattle.macro_rules.specs.Levels.{level_behind, closes, separates};

use cs_base::Tok;
use line_shape::{is_close, is_comma, is_open};

/// Behind a token, where so many are open before it.
pub(crate) fn level_behind(level: usize, tok: &Tok) -> usize
    requires { level + 1 < 2 ^ 64 }
    ensures { result ≡ level_behind level tok.now }
{
    if is_open(tok) {
        level + 1
    } else if is_close(tok) && level > 0 {
        level - 1
    } else {
        level
    }
}

/// A `)` where none is open.
pub(crate) fn closes(level: usize, tok: &Tok) -> bool
    ensures { result ≡ closes level tok.now }
{
    is_close(tok) && level == 0
}

/// A comma where none is open.
pub(crate) fn separates(level: usize, tok: &Tok) -> bool
    ensures { result ≡ separates level tok.now }
{
    is_comma(tok) && level == 0
}
