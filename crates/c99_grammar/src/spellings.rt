// Which class a token has by its spelling and a dialect: keywords (6.4.1) and punctuators (6.4.6).
ghost use Rattle.std.specs.Prelude.{◌≡◌, ◌<◌, ◌++◌, List, map};
ghost use Rattle.std.specs.Str.{bytes_eq};
ghost use Rattle.c99_grammar.specs.Words.{spelled_of, row_of, row_at, AreRows};
ghost use Rattle.c99_grammar.specs.TokenClasses.{spelled_class, base_class};
ghost use Rattle.c99_grammar.specs.Standard.{grammar};
ghost use Rattle.c99_grammar.specs.Spellings.{Spelled, keywords, keywords_added, keywords_of, gnu_keywords};
ghost use Rattle.c99_grammar.specs.declared.classes.Class.TheVariants.{Identifier};

use crate::classes::Class;
use crate::dialects::{Dialect, Edition};
use cs_base::{Kind, Tok};

/// A spelling and its class.
#[derive(Clone, Copy)]
pub(crate) struct Word {
    text: &'static [u8],
    class: Class,
}

/// Words by row: a word stands in the row that the first character of its spelling gives (`row_of`).
type Rows = [&'static [Word]; 32];

// Words as data: each spelling before its class.
macro_rules! words {
    ($($text:literal $class:ident),*) => {
        [$(Word { text: $text, class: Class::$class }),*]
    };
}

// The keywords of C99.
static KEYWORDS: Rows = [
    &words![],
    &words![b"auto" Auto],
    &words![b"break" Break],
    &words![b"case" Case, b"char" Char, b"const" Const, b"continue" Continue],
    &words![b"default" Default, b"do" Do, b"double" Double],
    &words![b"else" Else, b"enum" Enum, b"extern" Extern],
    &words![b"float" Float, b"for" For],
    &words![b"goto" Goto],
    &words![],
    &words![b"if" If, b"inline" Inline, b"int" Int],
    &words![],
    &words![],
    &words![b"long" Long],
    &words![],
    &words![],
    &words![],
    &words![],
    &words![],
    &words![b"register" Register, b"restrict" Restrict, b"return" Return],
    &words![
        b"short" Short, b"signed" Signed, b"sizeof" Sizeof, b"static" Static, b"struct" Struct,
        b"switch" Switch
    ],
    &words![b"typedef" Typedef],
    &words![b"union" Union, b"unsigned" Unsigned],
    &words![b"void" Void, b"volatile" Volatile],
    &words![b"while" While],
    &words![],
    &words![],
    &words![],
    &words![],
    &words![],
    &words![],
    &words![],
    &words![b"_Bool" BoolWord, b"_Complex" ComplexWord, b"_Imaginary" ImaginaryWord],
];

// The row of what begins with an underscore.
const UNDERSCORED: usize = (b'_' % 32) as usize;

// Those that C11 adds: each begins with an underscore.
static KEYWORDS_ADDED: [Word; 7] = words![
    b"_Alignas" Alignas, b"_Alignof" Alignof, b"_Atomic" Atomic, b"_Generic" Generic, b"_Noreturn" Noreturn,
    b"_Static_assert" StaticAssert, b"_Thread_local" ThreadLocal
];

// Words that GNU C has beside the keywords of C99: keywords of C11, its own, and other spellings of words of C.
static WORDS_OF_GNU: Rows = [
    &words![],
    &words![b"asm" AsmWord],
    &words![],
    &words![],
    &words![],
    &words![],
    &words![],
    &words![],
    &words![],
    &words![],
    &words![],
    &words![],
    &words![],
    &words![],
    &words![],
    &words![],
    &words![],
    &words![],
    &words![],
    &words![],
    &words![b"typeof" TypeofWord],
    &words![],
    &words![],
    &words![],
    &words![],
    &words![],
    &words![],
    &words![],
    &words![],
    &words![],
    &words![],
    &words![
        b"_Alignas" Alignas, b"_Alignof" Alignof, b"_Atomic" Atomic, b"_Generic" Generic,
        b"_Noreturn" Noreturn, b"_Static_assert" StaticAssert, b"_Thread_local" ThreadLocal, b"__asm" AsmWord,
        b"__asm__" AsmWord, b"__typeof" TypeofWord, b"__typeof__" TypeofWord, b"__attribute__" AttributeWord,
        b"__attribute" AttributeWord, b"__extension__" ExtensionWord, b"__label__" LocalLabelWord,
        b"__auto_type" AutoTypeWord, b"__real__" RealPartWord, b"__real" RealPartWord,
        b"__imag__" RealPartWord, b"__imag" RealPartWord, b"__builtin_va_arg" VaArgWord,
        b"__builtin_convertvector" VaArgWord, b"__builtin_offsetof" OffsetofWord,
        b"__builtin_types_compatible_p" TypesCompatibleWord, b"__const" Const, b"__const__" Const,
        b"__volatile" Volatile, b"__volatile__" Volatile, b"__restrict" Restrict, b"__restrict__" Restrict,
        b"__inline" Inline, b"__inline__" Inline, b"__signed" Signed, b"__signed__" Signed,
        b"__complex" ComplexWord, b"__complex__" ComplexWord, b"__alignof" Alignof, b"__alignof__" Alignof,
        b"__thread" ThreadLocal, b"__int128" Int, b"__int128_t" Int, b"__uint128_t" Int, b"_Float16" Float,
        b"_Float32" Float, b"_Float64" Float, b"_Float128" Float, b"_Float32x" Float, b"_Float64x" Float,
        b"__float80" Float, b"__float128" Float, b"__ibm128" Float, b"_Decimal32" Float, b"_Decimal64" Float,
        b"_Decimal128" Float, b"__builtin_va_list" Float
    ],
];

static PUNCTUATORS: Rows = [
    &words![],
    &words![b"!" Bang, b"!=" BangEq],
    &words![],
    &words![b"#" Hash, b"##" HashHash],
    &words![],
    &words![b"%" Percent, b"%=" PercentEq, b"%>" RightBrace, b"%:" Hash, b"%:%:" HashHash],
    &words![b"&" Amp, b"&&" AmpAmp, b"&=" AmpEq],
    &words![],
    &words![b"(" LeftParen],
    &words![b")" RightParen],
    &words![b"*" Star, b"*=" StarEq],
    &words![b"++" PlusPlus, b"+" Plus, b"+=" PlusEq],
    &words![b"," Comma],
    &words![b"->" Arrow, b"--" MinusMinus, b"-" Minus, b"-=" MinusEq],
    &words![b"." Dot, b"..." Ellipsis],
    &words![b"/" Slash, b"/=" SlashEq],
    &words![],
    &words![],
    &words![],
    &words![],
    &words![],
    &words![],
    &words![],
    &words![],
    &words![],
    &words![],
    &words![b":" Colon, b":>" RightBracket],
    &words![b"[" LeftBracket, b"{" LeftBrace, b";" Semicolon],
    &words![
        b"<<" ShiftLeft, b"<" Less, b"<=" LessEq, b"|" Bar, b"||" BarBar, b"<<=" ShiftLeftEq, b"|=" BarEq,
        b"<:" LeftBracket, b"<%" LeftBrace
    ],
    &words![b"]" RightBracket, b"}" RightBrace, b"==" EqEq, b"=" Eq],
    &words![
        b"~" Tilde, b">>" ShiftRight, b">" Greater, b">=" GreaterEq, b"^" Caret, b">>=" ShiftRightEq,
        b"^=" CaretEq
    ],
    &words![b"?" Question],
];

fn is_spelled(text: &[u8], spelling: &[u8]) -> bool
    ensures { result ≡ bytes_eq text.now spelling.now }
{
    text == spelling
}

#[tactic(auto, unfolding(crate::specs::TokenClasses::spelled_class))]
// The class of the first of these words that is spelled so, or the other one.
fn first_spelled(words: &[Word], text: &[u8], other: Class) -> Class
    ensures { result ≡ spelled_class (map spelled_of words.now) text.now other }
{
    match words {
        [] => other,
        [word, more @ ..] => {
            if is_spelled(text, word.text) {
                word.class
            } else {
                first_spelled(more, text, other)
            }
        }
    }
}

// The row in which a spelling stands: the last five bits of its first character.
fn row_of(text: &[u8]) -> usize
    ensures below { result < 32 }
    ensures answer { result ≡ row_of text.now }
{
    match text {
        [] => 0,
        [first, ..] => usize::from(*first % 32),
    }
}

// The class of the word that is spelled so in the row where the spelling stands, or the other one.
fn spelled_in_row(rows: &Rows, text: &[u8], other: Class) -> Class
    ensures { result ≡ spelled_class (row_at rows.now (row_of text.now)) text.now other }
{
    first_spelled(rows[row_of(text)], text, other)
}

// The class of the word that is spelled so among those that stand in rows, or the other one.
fn spelled(rows: &Rows, text: &[u8], other: Class) -> Class
    ensures { (words : List Spelled) → AreRows rows.now words → result ≡ spelled_class words text.now other }
{
    spelled_in_row(rows, text, other)
}

// The class of an identifier by the words alone that C11 adds.
fn added_class(text: &[u8]) -> Class
    ensures { result ≡ spelled_class keywords_added text.now Identifier }
{
    let row = row_of(text);
    if row == UNDERSCORED {
        first_spelled(&KEYWORDS_ADDED, text, Class::Identifier)
    } else {
        Class::Identifier
    }
}

// The class of an identifier where the words that C11 adds are keywords too.
fn word_class_of_c11(text: &[u8]) -> Class
    ensures { result ≡ spelled_class (keywords ++ keywords_added) text.now Identifier }
{
    let other = added_class(text);
    spelled(&KEYWORDS, text, other)
}

// .. and where those of GNU C are.
fn word_class_of_gnu(text: &[u8]) -> Class
    ensures { result ≡ spelled_class gnu_keywords text.now Identifier }
{
    let other = spelled(&WORDS_OF_GNU, text, Class::Identifier);
    spelled(&KEYWORDS, text, other)
}

// The class of an identifier by an edition.
fn word_class_by_edition(text: &[u8], edition: Edition) -> Class
    ensures { result ≡ spelled_class (keywords_of edition) text.now Identifier }
{
    match edition {
        Edition::C99 => spelled(&KEYWORDS, text, Class::Identifier),
        Edition::C11 => word_class_of_c11(text),
    }
}

// The class of an identifier by a dialect.
fn word_class(text: &[u8], dialect: Dialect) -> Class
    ensures { result ≡ spelled_class (grammar dialect).keywords text.now Identifier }
{
    match dialect {
        Dialect::Iso(edition) => word_class_by_edition(text, edition),
        Dialect::Gnu => word_class_of_gnu(text),
    }
}

#[tactic(auto, unfolding(crate::specs::TokenClasses::base_class))]
/// The class of a token by a dialect, where each identifier that is no keyword counts as no typedef name.
pub fn base_class(tok: &Tok, dialect: Dialect) -> Class
    ensures { result ≡ base_class (grammar dialect) tok.now }
{
    match tok.kind() {
        Kind::Ident => word_class(tok.text(), dialect),
        Kind::Punct => spelled(&PUNCTUATORS, tok.text(), Class::NoClass),
        Kind::Number => Class::Constant,
        Kind::Char => Class::CharConstant,
        Kind::Str => Class::StringLiteral,
        Kind::Other => Class::NoClass,
        Kind::Header => Class::NoClass,
    }
}
