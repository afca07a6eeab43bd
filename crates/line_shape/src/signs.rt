// The tokens that mean something in a directive line (6.10, 6.10.3, 6.4.6).
ghost use Rattle.std.specs.Prelude.{◌≡◌};
ghost use Rattle.line_shape.specs.Signs.{is_name, is_word, is_sign, is_hash, is_paste, is_open, is_close, is_comma, is_ellipsis, is_va_args, is_unfit_name};
ghost use Rattle.line_shape.specs.MacroLine.{is_parameter};

use cs_base::{Kind, Tok};

/// An identifier.
pub fn is_name(tok: &Tok) -> bool
    ensures { result ≡ is_name tok.now }
{
    match tok.kind() {
        Kind::Ident => true,
        _ => false,
    }
}

/// An identifier of this spelling.
pub fn is_word(tok: &Tok, spelling: &[u8]) -> bool
    ensures { result ≡ is_word spelling.now tok.now }
{
    match tok.kind() {
        Kind::Ident => tok.text() == spelling,
        _ => false,
    }
}

/// A punctuator of this spelling.
pub fn is_sign(tok: &Tok, spelling: &[u8]) -> bool
    ensures { result ≡ is_sign spelling.now tok.now }
{
    match tok.kind() {
        Kind::Punct => tok.text() == spelling,
        _ => false,
    }
}

#[tactic(auto, unfolding(crate::specs::Signs::is_hash))]
/// `#` or `%:`.
pub fn is_hash(tok: &Tok) -> bool
    ensures { result ≡ is_hash tok.now }
{
    is_sign(tok, b"#") || is_sign(tok, b"%:")
}

#[tactic(auto, unfolding(crate::specs::Signs::is_paste))]
/// `##` or `%:%:`.
pub fn is_paste(tok: &Tok) -> bool
    ensures { result ≡ is_paste tok.now }
{
    is_sign(tok, b"##") || is_sign(tok, b"%:%:")
}

#[tactic(auto, unfolding(crate::specs::Signs::is_open))]
pub fn is_open(tok: &Tok) -> bool
    ensures { result ≡ is_open tok.now }
{
    is_sign(tok, b"(")
}

#[tactic(auto, unfolding(crate::specs::Signs::is_close))]
pub fn is_close(tok: &Tok) -> bool
    ensures { result ≡ is_close tok.now }
{
    is_sign(tok, b")")
}

#[tactic(auto, unfolding(crate::specs::Signs::is_comma))]
pub fn is_comma(tok: &Tok) -> bool
    ensures { result ≡ is_comma tok.now }
{
    is_sign(tok, b",")
}

#[tactic(auto, unfolding(crate::specs::Signs::is_ellipsis))]
pub fn is_ellipsis(tok: &Tok) -> bool
    ensures { result ≡ is_ellipsis tok.now }
{
    is_sign(tok, b"...")
}

#[tactic(auto, unfolding(crate::specs::Signs::is_va_args))]
/// `__VA_ARGS__`.
pub fn is_va_args(tok: &Tok) -> bool
    ensures { result ≡ is_va_args tok.now }
{
    is_word(tok, b"__VA_ARGS__")
}

#[tactic(auto, unfolding(crate::specs::Signs::is_unfit_name))]
/// An identifier that no macro may have for its name.
pub fn is_unfit_name(tok: &Tok) -> bool
    ensures { result ≡ is_unfit_name tok.now }
{
    is_word(tok, b"defined") || is_va_args(tok)
}

/// An identifier that a parameter may have for its name.
pub fn is_parameter(tok: &Tok) -> bool
    ensures { result ≡ is_parameter tok.now }
{
    is_name(tok) && !is_va_args(tok)
}
