// The tokens that mean something in include lines (6.10.2).
ghost use Rattle.std.specs.Prelude.{◌≡◌};
ghost use Rattle.source_files.specs.HeaderNames.{is_less, is_greater};

use cs_base::Tok;
use line_shape::is_sign;

pub fn is_less(tok: &Tok) -> bool
    ensures { result ≡ is_less tok.now }
{
    is_sign(tok, b"<")
}

pub fn is_greater(tok: &Tok) -> bool
    ensures { result ≡ is_greater tok.now }
{
    is_sign(tok, b">")
}
