// Worked programs of C11, beside what C99 makes of them. The trees and the places are those of the grammar's rules,
// worked outside.
use crate::reading_tests::written;
use crate::refusals::unread;
use c99_read::{Dialect, Edition, ReadRefusal, read};
use c99_tree::Tree;
use cs_base::Memory;
use row_tools::toks;
use std::alloc::Global;
use std::test::Fail;

// A program, and what reading it gives by C99 and by C11.
const BY_EACH: [(&[u8], &str, &str); 35] = [
    (
        b"_Static_assert ( 1 , \"s\" ) ;",
        "syntax at token 0",
        "read",
    ),
    (
        b"_Static_assert ( sizeof ( int ) > 1 ? 1 : 0 , \"a\" \"b\" ) ; int x ;",
        "syntax at token 0",
        "read",
    ),
    (
        b"void f ( void ) { _Static_assert ( 1 , \"s\" ) ; }",
        "read",
        "read",
    ),
    (
        b"struct s { _Static_assert ( 1 , \"s\" ) ; int a ; } ;",
        "syntax at token 3",
        "read",
    ),
    (
        b"int f ( a , b ) int a ; _Static_assert ( 1 , \"s\" ) ; int b ; { return a ; }",
        "syntax at token 10",
        "read",
    ),
    (
        b"int f ( a ) _Static_assert ( 1 , \"s\" ) ; int a ; { return a ; }",
        "syntax at token 5",
        "syntax at token 5",
    ),
    (
        b"void f ( void ) { for ( _Static_assert ( 1 , \"s\" ) ; ; ) ; }",
        "read",
        "read",
    ),
    (b"_Noreturn void f ( void ) ;", "syntax at token 0", "read"),
    (
        b"static _Noreturn inline void f ( void ) { }",
        "syntax at token 1",
        "read",
    ),
    (b"void _Noreturn f ( void ) ;", "syntax at token 2", "read"),
    (b"int f ( _Noreturn int a ) ;", "syntax at token 4", "read"),
    (
        b"int x = sizeof ( _Noreturn int ) ;",
        "syntax at token 6",
        "read",
    ),
    (
        b"int ( _Noreturn f ) ( void ) ;",
        "syntax at token 3",
        "syntax at token 2",
    ),
    (
        b"struct s { int k ; struct { int a ; } ; } ;",
        "syntax at token 12",
        "read",
    ),
    (
        b"struct { struct { int a ; } ; } x ;",
        "syntax at token 8",
        "read",
    ),
    (
        b"struct s { union { int a ; long b ; } const ; int : 3 ; struct t ; int ; } ;",
        "syntax at token 13",
        "read",
    ),
    (
        b"typedef struct { int a ; } t ; struct s { t ; } ;",
        "syntax at token 13",
        "read",
    ),
    (b"struct s { ; int a , * b ; } ;", "read", "read"),
    (
        b"_Static_assert ( 1 ) ;",
        "syntax at token 0",
        "syntax at token 3",
    ),
    (
        b"_Static_assert ( 1 , 2 ) ;",
        "syntax at token 0",
        "syntax at token 4",
    ),
    (
        b"_Static_assert ( 1 , 2 , \"s\" ) ;",
        "syntax at token 0",
        "syntax at token 4",
    ),
    (
        b"_Static_assert ( 1 , \"s\" )",
        "syntax at token 0",
        "syntax at token 6",
    ),
    (
        b"_Static_assert ;",
        "syntax at token 0",
        "syntax at token 1",
    ),
    (b"int _Static_assert ;", "read", "syntax at token 1"),
    (b"int _Noreturn ;", "read", "read"),
    (b"int _Alignas ;", "read", "syntax at token 1"),
    (b"int _Alignof ;", "read", "syntax at token 1"),
    (b"int _Atomic ;", "read", "syntax at token 1"),
    (b"int _Generic ;", "read", "syntax at token 1"),
    (b"int _Thread_local ;", "read", "syntax at token 1"),
    (
        b"int x = _Alignof ( int ) ;",
        "syntax at token 5",
        "syntax at token 3",
    ),
    (
        b"_Alignas ( 8 ) int x ;",
        "syntax at token 0",
        "syntax at token 0",
    ),
    (
        b"int x = _Generic ( 1 , int : 2 ) ;",
        "syntax at token 7",
        "syntax at token 3",
    ),
    (b"int u8 ; int u ; int U ;", "read", "read"),
    (
        b"char s [ ] = u8 \"a\" ;",
        "syntax at token 6",
        "syntax at token 6",
    ),
];

// Each node is its production, its alternative, and its children in parentheses.
const TREES: [(&[u8], &str); 3] = [
    (
        b"_Static_assert ( 1 , \"s\" \"t\" ) ;",
        "TranslationUnit 1 ( External 2 ( Sassert 1 ( 0 1 Primary 2 ( 2 ) 3 4 5 6 7 ) ) )",
    ),
    (
        b"_Noreturn void f ( void ) { _Static_assert ( 1 , \"s\" ) ; const int x ; }",
        "TranslationUnit 1 ( External 3 ( Specs 1 ( Mod 7 ( 0 ) Main 1 ( Word 1 ( 1 ) ) ) ExtRest 2 ( Declarator 1 ( Direct 1 ( 2 Suffix 2 ( 3 Params 2 ( Param 1 ( Specs 1 ( Main 1 ( Word 1 ( 4 ) ) ) ) ) 5 ) ) ) ExtTail 1 ( FunBody 1 ( 6 BlockItem 2 ( Declaration 1 ( Sassert 1 ( 7 8 Primary 2 ( 9 ) 10 11 12 13 ) ) ) BlockItem 2 ( Declaration 2 ( Specs 1 ( Mod 8 ( Qual 1 ( 14 ) ) Main 1 ( Word 4 ( 15 ) ) ) DeclRest 2 ( InitDecl 1 ( Declarator 1 ( Direct 1 ( 16 ) ) ) 17 ) ) ) 18 ) ) ) ) )",
    ),
    (
        b"struct s { int k ; struct { int a , b ; } ; _Static_assert ( 1 , \"s\" ) ; ; } ;",
        "TranslationUnit 1 ( External 3 ( Specs 1 ( Main 2 ( StructSpec 1 ( 0 SuRest 1 ( 1 2 Members 1 ( Member 3 ( Specs 1 ( Main 1 ( Word 4 ( 3 ) ) ) MemRest 2 ( Mdecl 2 ( Declarator 1 ( Direct 1 ( 4 ) ) ) 5 ) ) Member 3 ( Specs 1 ( Main 2 ( StructSpec 1 ( 6 SuRest 2 ( 7 Members 1 ( Member 3 ( Specs 1 ( Main 1 ( Word 4 ( 8 ) ) ) MemRest 2 ( Mdecl 2 ( Declarator 1 ( Direct 1 ( 9 ) ) ) 10 Mdecl 2 ( Declarator 1 ( Direct 1 ( 11 ) ) ) 12 ) ) ) 13 ) ) ) ) MemRest 1 ( 14 ) ) Member 2 ( Sassert 1 ( 15 16 Primary 2 ( 17 ) 18 19 20 21 ) ) Member 1 ( 22 ) ) 23 ) ) ) ) ExtRest 1 ( 24 ) ) )",
    ),
];

/// The answer for a text by a dialect, of fewer than 2^32 tokens.
pub(crate) fn answer(
    alloc: Global,
    text: &[u8],
    dialect: Dialect,
) -> Result<Option<Result<Tree, ReadRefusal>>, Memory> {
    let toks = toks(alloc, text)?;
    Ok(if toks.len() <= u32::MAX as usize {
        Some(read(alloc, &toks, dialect))
    } else {
        None
    })
}

/// What the tables say of it: it is read, or why it is not.
pub(crate) fn said(alloc: Global, text: &[u8], dialect: Dialect) -> Result<String, Fail> {
    match answer(alloc, text, dialect)? {
        Some(Ok(_)) => Ok(format!(in alloc; "read")?),
        Some(Err(refusal)) => Ok(unread(alloc, refusal)?),
        None => Ok(format!(in alloc; "too long")?),
    }
}

#[test]
fn programs_are_read_by_each_edition(rt: HostRuntime) -> Result<(), Fail> {
    for (k, (text, by_c99, by_c11)) in BY_EACH.iter().enumerate() {
        let found = said(rt.alloc(), text, Dialect::Iso(Edition::C99))?;
        assert_eq!(rt; found.as_str(), *by_c99, "BY_EACH, number {k} by C99");
        let found = said(rt.alloc(), text, Dialect::Iso(Edition::C11))?;
        assert_eq!(rt; found.as_str(), *by_c11, "BY_EACH, number {k} by C11");
    }
    Ok(())
}

#[test]
fn programs_of_c11_have_their_trees(rt: HostRuntime) -> Result<(), Fail> {
    for (k, (text, expected)) in TREES.iter().enumerate() {
        match answer(rt.alloc(), text, Dialect::Iso(Edition::C11))? {
            Some(Ok(tree)) => {
                let found = written(rt.alloc(), &tree)?;
                assert_eq!(rt; found.as_str(), *expected, "TREES, number {k}");
            }
            _ => panic!(rt; "TREES, number {k}"),
        }
    }
    Ok(())
}
