// Keywords of the standards of a workspace's units (ISO/IEC 9899:1999, 6.4.1; ISO/IEC 9899:2011, 6.4.1); GNU C has the
// words of both, and more.
ghost use Rattle.std.specs.Prelude.{◌≡◌, ◌||◌};
ghost use Rattle.std.specs.List.{list_any};
ghost use Rattle.std.specs.Str.{bytes_eq};
ghost use Rattle.cs_base.specs.declared.ws_units.Standard.TheVariants.{Gnu11};
ghost use Rattle.cs_base.specs.Reserved.{keywords_of_c11, keywords_to_end, keywords_to_if, keywords_to_struct};
ghost use Rattle.find_names.specs.Keywords.{is_keyword, is_keyword_of, is_old_keyword};

use cs_base::{Standard, Unit, is_word_of_gnu};

fn is_one_of(text: &[u8], words: &[&[u8]]) -> bool
    ensures { result ≡ list_any (λ word. bytes_eq text.now word.now) words.now }
{
    words.iter().any(|word| text == *word)
}

fn is_to_if(text: &[u8]) -> bool
    ensures { result ≡ list_any (bytes_eq text.now) keywords_to_if }
{
    is_one_of(
        text,
        &[
            b"auto",
            b"break",
            b"case",
            b"char",
            b"const",
            b"continue",
            b"default",
            b"do",
            b"double",
            b"else",
            b"enum",
            b"extern",
            b"float",
            b"for",
            b"goto",
            b"if",
        ],
    )
}

fn is_to_struct(text: &[u8]) -> bool
    ensures { result ≡ list_any (bytes_eq text.now) keywords_to_struct }
{
    is_one_of(
        text,
        &[
            b"inline",
            b"int",
            b"long",
            b"register",
            b"restrict",
            b"return",
            b"short",
            b"signed",
            b"sizeof",
            b"static",
            b"struct",
        ],
    )
}

fn is_to_end(text: &[u8]) -> bool
    ensures { result ≡ list_any (bytes_eq text.now) keywords_to_end }
{
    is_one_of(
        text,
        &[
            b"switch",
            b"typedef",
            b"union",
            b"unsigned",
            b"void",
            b"volatile",
            b"while",
            b"_Bool",
            b"_Complex",
            b"_Imaginary",
        ],
    )
}

fn is_of_c11(text: &[u8]) -> bool
    ensures { result ≡ list_any (bytes_eq text.now) keywords_of_c11 }
{
    is_one_of(
        text,
        &[
            b"_Alignas",
            b"_Alignof",
            b"_Atomic",
            b"_Generic",
            b"_Noreturn",
            b"_Static_assert",
            b"_Thread_local",
        ],
    )
}

#[tactic(auto, unfolding(crate::specs::Keywords::is_old_keyword))]
// A keyword of either standard.
fn is_old_keyword(text: &[u8]) -> bool
    ensures { result ≡ is_old_keyword text.now }
{
    is_to_if(text) || is_to_struct(text) || is_to_end(text)
}

fn is_keyword_of(text: &[u8], standard: Standard) -> bool
    ensures { result ≡ is_keyword_of text.now standard }
{
    match standard {
        Standard::C99 => is_old_keyword(text),
        Standard::C11 => is_old_keyword(text) || is_of_c11(text),
        Standard::Gnu99 | Standard::Gnu11 => {
            is_old_keyword(text) || is_of_c11(text) || is_word_of_gnu(text)
        }
    }
}

// A keyword of some standard: GNU C has the words of all.
fn is_some_keyword(text: &[u8]) -> bool
    ensures { result ≡ is_keyword_of text.now Gnu11 }
{
    is_keyword_of(text, Standard::Gnu11)
}

/// Whether this is a keyword of the standard of some unit.
pub(crate) fn is_keyword(units: &[Unit], text: &[u8]) -> bool
    ensures { result ≡ is_keyword units.now text.now }
{
    // Most names are none, and are looked at once and not for each unit.
    if !is_some_keyword(text) {
        return false;
    }
    for unit in units {
        if is_keyword_of(text, unit.standard()) {
            return true;
        }
    }
    false
}
