// The classes of tokens (6.4.1, 6.4.6), and what starts with them (Annex A.2).
use c99_grammar::{Class, Dialect, Edition, alternatives, base_class, production_starts};
use c99_tree::Production;
use row_tools::toks;
use std::test::Fail;

const WORDS: &[u8] = b"int x _Bool _Noreturn _Generic u8 1 'c' \"s\" -> <: %:%: #";

// Their classes by C99 and by C11.
const CLASSES: [(Class, Class); 13] = [
    (Class::Int, Class::Int),
    (Class::Identifier, Class::Identifier),
    (Class::BoolWord, Class::BoolWord),
    (Class::Identifier, Class::Noreturn),
    (Class::Identifier, Class::Generic),
    (Class::Identifier, Class::Identifier),
    (Class::Constant, Class::Constant),
    (Class::CharConstant, Class::CharConstant),
    (Class::StringLiteral, Class::StringLiteral),
    (Class::Arrow, Class::Arrow),
    (Class::LeftBracket, Class::LeftBracket),
    (Class::HashHash, Class::HashHash),
    (Class::Hash, Class::Hash),
];

#[test]
fn tokens_have_their_classes(rt: HostRuntime) -> Result<(), Fail> {
    let toks = toks(rt.alloc(), WORDS)?;
    assert_eq!(rt; toks.len(), CLASSES.len());
    for k in 0..toks.len() {
        assert!(rt;
            base_class(&toks[k], Dialect::Iso(Edition::C99)) == CLASSES[k].0,
            "{k} by C99"
        );
        assert!(rt;
            base_class(&toks[k], Dialect::Iso(Edition::C11)) == CLASSES[k].1,
            "{k} by C11"
        );
    }
    Ok(())
}

const WORDS_OF_GNU: &[u8] =
    b"int asm __asm__ typeof __attribute__ __extension__ __label__ __auto_type __imag__ __builtin_va_arg \
    __builtin_offsetof __builtin_types_compatible_p __const __inline __int128 _Float64x __thread _Generic __foo x [";

// .. by GNU C.
const CLASSES_OF_GNU: [Class; 21] = [
    Class::Int,
    Class::AsmWord,
    Class::AsmWord,
    Class::TypeofWord,
    Class::AttributeWord,
    Class::ExtensionWord,
    Class::LocalLabelWord,
    Class::AutoTypeWord,
    Class::RealPartWord,
    Class::VaArgWord,
    Class::OffsetofWord,
    Class::TypesCompatibleWord,
    Class::Const,
    Class::Inline,
    Class::Int,
    Class::Float,
    Class::ThreadLocal,
    Class::Generic,
    Class::Identifier,
    Class::Identifier,
    Class::LeftBracket,
];

#[test]
fn tokens_of_gnu_have_their_classes(rt: HostRuntime) -> Result<(), Fail> {
    let toks = toks(rt.alloc(), WORDS_OF_GNU)?;
    assert_eq!(rt; toks.len(), CLASSES_OF_GNU.len());
    for k in 0..toks.len() {
        assert!(rt;
            base_class(&toks[k], Dialect::Gnu) == CLASSES_OF_GNU[k],
            "{k} by GNU C"
        );
    }
    Ok(())
}

// A production, the classes of two tokens, and whether it starts with the first of them by C11.
const STARTS: [(Production, Class, Class, bool); 7] = [
    (Production::Statement, Class::If, Class::LeftParen, true),
    (Production::Statement, Class::Else, Class::Semicolon, false),
    (
        Production::Statement,
        Class::TypedefName,
        Class::Colon,
        true,
    ),
    (
        Production::Statement,
        Class::TypedefName,
        Class::Star,
        false,
    ),
    (Production::Declarator, Class::Star, Class::Identifier, true),
    (Production::Expr, Class::Semicolon, Class::End, false),
    (
        Production::BlockItem,
        Class::StaticAssert,
        Class::LeftParen,
        true,
    ),
];

#[test]
fn productions_start_as_the_rows_say(rt: HostRuntime) -> Result<(), Fail> {
    for (production, class, behind, want) in STARTS {
        assert_eq!(rt;
            production_starts(production, class, behind, Dialect::Iso(Edition::C11)),
            want
        );
    }
    Ok(())
}

// .. by GNU C.
const STARTS_OF_GNU: [(Production, Class, Class, bool); 8] = [
    (
        Production::Specs,
        Class::LeftBracket,
        Class::LeftBracket,
        true,
    ),
    (
        Production::Suffix,
        Class::LeftBracket,
        Class::LeftBracket,
        false,
    ),
    (
        Production::Suffix,
        Class::LeftBracket,
        Class::Constant,
        true,
    ),
    (Production::Main, Class::Atomic, Class::LeftParen, true),
    (Production::Qual, Class::Atomic, Class::LeftParen, false),
    (Production::InitItem, Class::TypedefName, Class::Colon, true),
    (Production::Cast, Class::ExtensionWord, Class::Int, true),
    (
        Production::Declarator,
        Class::AttributeWord,
        Class::LeftParen,
        false,
    ),
];

#[test]
fn productions_of_gnu_start_as_the_rows_say(rt: HostRuntime) -> Result<(), Fail> {
    for (production, class, behind, want) in STARTS_OF_GNU {
        assert_eq!(rt;
            production_starts(production, class, behind, Dialect::Gnu),
            want
        );
    }
    Ok(())
}

#[test]
fn productions_have_their_alternatives(rt: HostRuntime) -> Result<(), Fail> {
    assert_eq!(rt;
        alternatives(Production::Statement, Dialect::Iso(Edition::C99)).len(),
        15
    );
    assert_eq!(rt;
        alternatives(Production::Sassert, Dialect::Iso(Edition::C99)).len(),
        0
    );
    assert_eq!(rt;
        alternatives(Production::Sassert, Dialect::Iso(Edition::C11)).len(),
        1
    );
    assert_eq!(rt;
        alternatives(Production::Mod, Dialect::Iso(Edition::C11)).len(),
        8
    );
    assert_eq!(rt;
        alternatives(Production::Attr, Dialect::Iso(Edition::C11)).len(),
        0
    );
    assert_eq!(rt; alternatives(Production::Mod, Dialect::Gnu).len(), 11);
    assert_eq!(rt; alternatives(Production::Expr, Dialect::Gnu).len(), 1);
    Ok(())
}
