// Spellings that no name may take or lose (ISO/IEC 9899:1999, 6.4.1, 6.4.2.2, 6.10.8, 6.10.9; ISO/IEC 9899:2011, 6.4.1),
// and those that GNU C has more.
ghost use Rattle.std.specs.Prelude.{◌≡◌, eqb};
ghost use Rattle.std.specs.List.{list_any, starts_with};
ghost use Rattle.std.specs.Str.{bytes_eq};
ghost use Rattle.cs_base.specs.Reserved.{is_reserved_text, keywords_to_if, keywords_to_struct, keywords_to_end, keywords_of_c11, given_names, own_words_of_gnu, other_words_of_gnu, types_of_gnu, is_word_of_gnu, is_function_word, is_built_in, is_reserved_by_gnu, is_reserved_in};

#[tactic(auto, unfolding(crate::specs::Reserved::is_reserved_text))]
/// Whether the spelling is a keyword or a name that the implementation gives a meaning.
pub fn is_reserved(text: &[u8]) -> bool
    ensures { result ≡ is_reserved_text text.now }
{
    is_keyword_to_if(text)
        || is_keyword_to_struct(text)
        || is_keyword_to_end(text)
        || is_keyword_of_c11(text)
        || is_given_name(text)
}

fn is_one_of(text: &[u8], words: &[&[u8]]) -> bool
    ensures { result ≡ list_any (λ word. bytes_eq text.now word.now) words.now }
{
    words.iter().any(|word| text == *word)
}

fn is_keyword_to_if(text: &[u8]) -> bool
    ensures { result ≡ list_any (bytes_eq text.now) keywords_to_if }
{
    is_one_of(
        text,
        &[
            b"auto",
            b"break",
            b"case",
            b"char",
            b"const",
            b"continue",
            b"default",
            b"do",
            b"double",
            b"else",
            b"enum",
            b"extern",
            b"float",
            b"for",
            b"goto",
            b"if",
        ],
    )
}

fn is_keyword_to_struct(text: &[u8]) -> bool
    ensures { result ≡ list_any (bytes_eq text.now) keywords_to_struct }
{
    is_one_of(
        text,
        &[
            b"inline",
            b"int",
            b"long",
            b"register",
            b"restrict",
            b"return",
            b"short",
            b"signed",
            b"sizeof",
            b"static",
            b"struct",
        ],
    )
}

fn is_keyword_to_end(text: &[u8]) -> bool
    ensures { result ≡ list_any (bytes_eq text.now) keywords_to_end }
{
    is_one_of(
        text,
        &[
            b"switch",
            b"typedef",
            b"union",
            b"unsigned",
            b"void",
            b"volatile",
            b"while",
            b"_Bool",
            b"_Complex",
            b"_Imaginary",
        ],
    )
}

fn is_keyword_of_c11(text: &[u8]) -> bool
    ensures { result ≡ list_any (bytes_eq text.now) keywords_of_c11 }
{
    is_one_of(
        text,
        &[
            b"_Alignas",
            b"_Alignof",
            b"_Atomic",
            b"_Generic",
            b"_Noreturn",
            b"_Static_assert",
            b"_Thread_local",
        ],
    )
}

fn is_given_name(text: &[u8]) -> bool
    ensures { result ≡ list_any (bytes_eq text.now) given_names }
{
    is_one_of(
        text,
        &[
            b"defined",
            b"__VA_ARGS__",
            b"__func__",
            b"L",
            b"__LINE__",
            b"__FILE__",
            b"__DATE__",
            b"__TIME__",
            b"__STDC__",
            b"__STDC_HOSTED__",
            b"__STDC_VERSION__",
            b"_Pragma",
            b"__VA_OPT__",
            b"__COUNTER__",
            b"__has_include",
            b"__has_include_next",
        ],
    )
}

fn is_own_word_of_gnu(text: &[u8]) -> bool
    ensures { result ≡ list_any (bytes_eq text.now) own_words_of_gnu }
{
    is_one_of(
        text,
        &[
            b"asm",
            b"__asm",
            b"__asm__",
            b"typeof",
            b"__typeof",
            b"__typeof__",
            b"__attribute__",
            b"__attribute",
            b"__extension__",
            b"__label__",
            b"__auto_type",
            b"__real__",
            b"__real",
            b"__imag__",
            b"__imag",
            b"__builtin_va_arg",
            b"__builtin_convertvector",
            b"__builtin_offsetof",
            b"__builtin_types_compatible_p",
        ],
    )
}

fn is_other_word_of_gnu(text: &[u8]) -> bool
    ensures { result ≡ list_any (bytes_eq text.now) other_words_of_gnu }
{
    is_one_of(
        text,
        &[
            b"__const",
            b"__const__",
            b"__volatile",
            b"__volatile__",
            b"__restrict",
            b"__restrict__",
            b"__inline",
            b"__inline__",
            b"__signed",
            b"__signed__",
            b"__complex",
            b"__complex__",
            b"__alignof",
            b"__alignof__",
            b"__thread",
        ],
    )
}

fn is_type_of_gnu(text: &[u8]) -> bool
    ensures { result ≡ list_any (bytes_eq text.now) types_of_gnu }
{
    is_one_of(
        text,
        &[
            b"__int128",
            b"__int128_t",
            b"__uint128_t",
            b"_Float16",
            b"_Float32",
            b"_Float64",
            b"_Float128",
            b"_Float32x",
            b"_Float64x",
            b"__float80",
            b"__float128",
            b"__ibm128",
            b"_Decimal32",
            b"_Decimal64",
            b"_Decimal128",
            b"__builtin_va_list",
        ],
    )
}

#[tactic(auto, unfolding(crate::specs::Reserved::is_word_of_gnu))]
/// Whether the spelling is a word of GNU C that no standard has.
pub fn is_word_of_gnu(text: &[u8]) -> bool
    ensures { result ≡ is_word_of_gnu text.now }
{
    is_own_word_of_gnu(text) || is_other_word_of_gnu(text) || is_type_of_gnu(text)
}

/// Whether GNU C gives the name the meaning of `__func__`.
pub fn is_function_word(text: &[u8]) -> bool
    ensures { result ≡ is_function_word text.now }
{
    is_one_of(text, &[b"__FUNCTION__", b"__PRETTY_FUNCTION__"])
}

fn begins_with_one_of(text: &[u8], words: &[&[u8]]) -> bool
    ensures { result ≡ list_any (λ word. starts_with eqb text.now word.now) words.now }
{
    words.iter().any(|word| text.starts_with(word))
}

/// Whether it begins as the names of functions do that GNU C has without a declaration.
pub fn is_built_in(text: &[u8]) -> bool
    ensures { result ≡ is_built_in text.now }
{
    begins_with_one_of(text, &[b"__builtin_", b"__sync_", b"__atomic_"])
}

#[tactic(auto, unfolding(crate::specs::Reserved::is_reserved_by_gnu))]
/// Whether the spelling is reserved more where a unit of the workspace is of GNU C.
pub fn is_reserved_by_gnu(text: &[u8]) -> bool
    ensures { result ≡ is_reserved_by_gnu text.now }
{
    is_word_of_gnu(text) || is_function_word(text) || is_built_in(text)
}

/// Whether the spelling is reserved in a workspace; `gnu` says whether one of its units is of GNU C.
pub fn is_reserved_in(gnu: bool, text: &[u8]) -> bool
    ensures { result ≡ is_reserved_in gnu text.now }
{
    is_reserved(text) || gnu && is_reserved_by_gnu(text)
}
