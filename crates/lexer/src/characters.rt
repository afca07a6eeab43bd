// Classes of characters (ISO/IEC 9899:1999, 5.2.1, 6.4).
ghost use Rattle.std.specs.Prelude.{◌≡◌};
ghost use Rattle.lexer.specs.Characters.{is_white as white, is_nondigit as nondigit, is_word as word, is_sign as sign, is_exponent_letter as exponent_letter, cannot_go as stays_so};

pub(crate) fn is_white(c: u8) -> bool
    ensures { result ≡ white c }
{
    c.is_ascii_whitespace() || c == b'\x0b'
}

pub(crate) fn is_nondigit(c: u8) -> bool
    ensures { result ≡ nondigit c }
{
    c.is_ascii_alphabetic() || c == b'_'
}

pub(crate) fn is_word(c: u8) -> bool
    ensures { result ≡ word c }
{
    is_nondigit(c) || c.is_ascii_digit()
}

pub(crate) fn is_sign(c: u8) -> bool
    ensures { result ≡ sign c }
{
    c == b'+' || c == b'-'
}

pub(crate) fn is_exponent_letter(c: u8) -> bool
    ensures { result ≡ exponent_letter c }
{
    c == b'e' || c == b'E' || c == b'p' || c == b'P'
}

/// Phase 2 leaves the character, whatever stands behind it.
pub(crate) fn cannot_go(c: u8) -> bool
    ensures { result ≡ stays_so c }
{
    !(c == b'\\' || c == b'\r')
}
