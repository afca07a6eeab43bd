// Whether one spelling becomes another in a text, wherever it stands.
ghost use Rattle.std.specs.Prelude.{◌≡◌};
ghost use Rattle.std.specs.List.{list_any};
ghost use Rattle.std.specs.Str.{bytes_eq};
ghost use Rattle.gnu_bind.specs.Words.{is_word_attribute};
ghost use Rattle.same_readings.specs.Whole.{begins_as_name, is_free, is_identifier_kind, goes_along, all_go, goes_as, goes_whole};

use cs_base::{Kind, Tok, is_reserved_in};

fn begins_as_name(text: &[u8]) -> bool
    ensures { result ≡ begins_as_name text.now }
{
    match text {
        [first, ..] => first.is_ascii_alphabetic() || *first == b'_',
        [] => false,
    }
}

fn is_one_of(text: &[u8], words: &[&[u8]]) -> bool
    ensures { result ≡ list_any (λ word. bytes_eq text.now word.now) words.now }
{
    words.iter().any(|word| text == *word)
}

// The name of an attribute whose first argument is a word.
#[tactic(auto, unfolding(gnu_bind::specs::Words::is_word_attribute))]
fn is_word_attribute(text: &[u8]) -> bool
    ensures { result ≡ is_word_attribute text.now }
{
    is_one_of(
        text,
        &[
            b"mode",
            b"__mode__",
            b"format",
            b"__format__",
            b"access",
            b"__access__",
        ],
    )
}

// Neither reading nor binding asks for it by itself.
fn is_free(text: &[u8]) -> bool
    ensures { result ≡ is_free text.now }
{
    begins_as_name(text) && (!is_reserved_in(true, text) && !is_word_attribute(text))
}

fn is_identifier_kind(kind: Kind) -> bool
    ensures { result ≡ is_identifier_kind kind }
{
    match kind {
        Kind::Ident => true,
        _ => false,
    }
}

// Whether a token goes along where the old spelling becomes the new one.
fn goes_along(old: &[u8], new: &[u8], one: &Tok, other: &Tok) -> bool
    ensures { result ≡ goes_along old.now new.now one.now other.now }
{
    if one.text() == old {
        is_identifier_kind(one.kind()) && other.text() == new
    } else {
        other.text() == one.text() && !(one.text() == new)
    }
}

// Whether each of these does.
fn all_go(old: &[u8], new: &[u8], before: &[Tok], after: &[Tok]) -> bool
    ensures { result ≡ all_go old.now new.now before.now after.now }
{
    let mut left = before;
    let mut right = after;
    while let [one, more @ ..] = left {
        match right {
            [other, behind @ ..] => {
                if !goes_along(old, new, one, other) {
                    return false;
                }
                left = more;
                right = behind;
            }
            [] => return false,
        }
    }
    right.is_empty()
}

// Whether this spelling becomes that one wherever it stands.
fn goes_as(before: &[Tok], after: &[Tok], old: &[u8], new: &[u8]) -> bool
    ensures { result ≡ goes_as before.now after.now old.now new.now }
{
    is_free(old) && (is_free(new) && all_go(old, new, before, after))
}

/// Whether no token of a text is respelled, or one spelling becomes another wherever it stands, that stood nowhere.
pub fn goes_whole(before: &[Tok], after: &[Tok]) -> bool
    ensures { result ≡ goes_whole before.now after.now }
{
    let mut left = before;
    let mut right = after;
    while let [one, more @ ..] = left {
        match right {
            [other, behind @ ..] => {
                if !(one.text() == other.text()) {
                    return goes_as(before, after, one.text(), other.text());
                }
                left = more;
                right = behind;
            }
            [] => return false,
        }
    }
    right.is_empty()
}
