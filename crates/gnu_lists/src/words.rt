// Words of GNU C that lists ask for.
ghost use Rattle.std.specs.Prelude.{◌≡◌};
ghost use Rattle.std.specs.List.{list_any};
ghost use Rattle.std.specs.Str.{bytes_eq};
ghost use Rattle.gnu_lists.specs.Words.{is_symbol_word, is_naked};

fn is_one_of(text: &[u8], words: &[&[u8]]) -> bool
    ensures { result ≡ list_any (λ word. bytes_eq text.now word.now) words.now }
{
    words.iter().any(|word| text == *word)
}

/// An attribute whose strings name a symbol to the assembler.
#[tactic(auto, unfolding(crate::specs::Words::is_symbol_word))]
pub(crate) fn is_symbol_word(text: &[u8]) -> bool
    ensures { result ≡ is_symbol_word text.now }
{
    is_one_of(
        text,
        &[
            b"alias",
            b"__alias__",
            b"weakref",
            b"__weakref__",
            b"ifunc",
            b"__ifunc__",
            b"symver",
            b"__symver__",
        ],
    )
}

/// A function without code of the compiler's own.
#[tactic(auto, unfolding(crate::specs::Words::is_naked))]
pub(crate) fn is_naked(text: &[u8]) -> bool
    ensures { result ≡ is_naked text.now }
{
    is_one_of(text, &[b"naked", b"__naked__"])
}
