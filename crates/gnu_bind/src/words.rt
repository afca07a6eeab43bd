// Words of GNU C that binding asks for.
ghost use Rattle.std.specs.Prelude.{◌≡◌, ◌+◌, eqb};
ghost use Rattle.std.specs.List.{list_any, starts_with};
ghost use Rattle.std.specs.Str.{bytes_eq};
ghost use Rattle.c_types.specs.Declarations.{spelling_at};
ghost use Rattle.gnu_bind.specs.Words.{is_word_attribute, fetch_prefixes, fetch_words, is_fetch, is_path_sign, begins_call, is_extension};

use cs_base::Tok;

/// How the token is spelled.
pub(crate) fn spelling(toks: &[Tok], k: u32) -> &[u8]
    ensures { result.now ≡ spelling_at toks.now k }
{
    match toks.get(k as usize) {
        Some(tok) => tok.text(),
        None => &[],
    }
}

/// How the token behind it is spelled.
pub(crate) fn spelling_behind(toks: &[Tok], k: u32) -> &[u8]
    ensures { result.now ≡ spelling_at toks.now (k + 1) }
{
    match toks.get(k as usize + 1) {
        Some(tok) => tok.text(),
        None => &[],
    }
}

fn is_one_of(text: &[u8], words: &[&[u8]]) -> bool
    ensures { result ≡ list_any (λ word. bytes_eq text.now word.now) words.now }
{
    words.iter().any(|word| text == *word)
}

fn begins_with_one_of(text: &[u8], words: &[&[u8]]) -> bool
    ensures { result ≡ list_any (λ word. starts_with eqb text.now word.now) words.now }
{
    words.iter().any(|word| text.starts_with(word))
}

/// An attribute whose first argument is a word.
#[tactic(auto, unfolding(crate::specs::Words::is_word_attribute))]
pub(crate) fn is_word_attribute(text: &[u8]) -> bool
    ensures { result ≡ is_word_attribute text.now }
{
    is_one_of(
        text,
        &[
            b"mode",
            b"__mode__",
            b"format",
            b"__format__",
            b"access",
            b"__access__",
        ],
    )
}

fn begins_as_fetch(text: &[u8]) -> bool
    ensures { result ≡ list_any (starts_with eqb text.now) fetch_prefixes }
{
    begins_with_one_of(
        text,
        &[
            b"__sync_fetch_and_",
            b"__sync_val_compare_and_swap",
            b"__sync_lock_test_and_set",
            b"__atomic_load_n",
            b"__atomic_exchange_n",
            b"__atomic_fetch_",
        ],
    )
}

fn is_fetch_word(text: &[u8]) -> bool
    ensures { result ≡ list_any (bytes_eq text.now) fetch_words }
{
    is_one_of(
        text,
        &[
            b"__sync_add_and_fetch",
            b"__sync_sub_and_fetch",
            b"__sync_or_and_fetch",
            b"__sync_and_and_fetch",
            b"__sync_xor_and_fetch",
            b"__sync_nand_and_fetch",
            b"__atomic_add_fetch",
            b"__atomic_sub_fetch",
            b"__atomic_or_fetch",
            b"__atomic_and_fetch",
            b"__atomic_xor_fetch",
            b"__atomic_nand_fetch",
        ],
    )
}

/// The name of a built-in function that gives what its first argument points to.
#[tactic(auto, unfolding(crate::specs::Words::is_fetch))]
pub(crate) fn is_fetch(text: &[u8]) -> bool
    ensures { result ≡ is_fetch text.now }
{
    begins_as_fetch(text) || is_fetch_word(text)
}

/// A sign between the names of a path to a member.
#[tactic(auto, unfolding(crate::specs::Words::is_path_sign))]
pub(crate) fn is_path_sign(text: &[u8]) -> bool
    ensures { result ≡ is_path_sign text.now }
{
    is_one_of(text, &[b".", b"[", b"]", b"<:", b":>"])
}

/// The sign that begins the arguments of a call.
#[tactic(auto, unfolding(crate::specs::Words::begins_call))]
pub(crate) fn begins_call(text: &[u8]) -> bool
    ensures { result ≡ begins_call text.now }
{
    text == b"(".as_slice()
}

/// It says nothing of its operand.
#[tactic(auto, unfolding(crate::specs::Words::is_extension))]
pub(crate) fn is_extension(text: &[u8]) -> bool
    ensures { result ≡ is_extension text.now }
{
    text == b"__extension__".as_slice()
}
