// Worked programs of GNU C, beside what C99 and C11 make of them. The trees and the places are those of the grammar's
// rules, worked outside.
use crate::c11_tests::{answer, said};
use crate::reading_tests::written;
use c99_read::{Dialect, Edition};
use std::alloc::Global;
use std::test::Fail;

// A program, and what reading it gives by C99, by C11 and by GNU C.
const BY_EACH: [(&[u8], &str, &str, &str); 53] = [
    (
        b"int x __attribute__ ( ( aligned ( 8 ) , packed ) ) , __attribute__ ( ( used ) ) y ;",
        "syntax at token 2",
        "syntax at token 2",
        "read",
    ),
    (
        b"__attribute__ ( ( noreturn ) ) void f ( void ) ;",
        "syntax at token 0",
        "syntax at token 0",
        "read",
    ),
    (
        b"[ [ gnu : : aligned ( 8 ) ] ] int x ;",
        "syntax at token 0",
        "syntax at token 0",
        "read",
    ),
    (
        b"struct __attribute__ ( ( packed ) ) s { } ;",
        "syntax at token 7",
        "syntax at token 7",
        "read",
    ),
    (
        b"struct s { int a : 3 __attribute__ ( ( packed ) ) ; __extension__ int b ; } ;",
        "syntax at token 7",
        "syntax at token 7",
        "read",
    ),
    (
        b"enum __attribute__ ( ( packed ) ) e { A __attribute__ ( ( unused ) ) = 1 , B } ;",
        "syntax at token 7",
        "syntax at token 7",
        "read",
    ),
    (
        b"int f ( int * const __attribute__ ( ( unused ) ) p , int ( __attribute__ ( ( unused ) ) * q ) ( void ) ) ;",
        "syntax at token 8",
        "syntax at token 8",
        "read",
    ),
    (
        b"int f ( void ) __asm__ ( \"g\" \"h\" ) __attribute__ ( ( pure ) ) ;",
        "syntax at token 5",
        "syntax at token 5",
        "read",
    ),
    (
        b"asm ( \"nop\" ) ;",
        "syntax at token 0",
        "syntax at token 0",
        "read",
    ),
    (
        b"__extension__ typedef __int128 t ; __extension__ t x ;",
        "syntax at token 0",
        "syntax at token 0",
        "read",
    ),
    (
        b"_Thread_local int x ; __thread int y ; _Alignas ( double ) int z ; _Alignas ( 8 ) int w ;",
        "syntax at token 0",
        "syntax at token 0",
        "read",
    ),
    (
        b"typeof ( int ) x ; __typeof__ ( x + 1 ) y ; const typeof ( x ) * z ;",
        "syntax at token 0",
        "syntax at token 0",
        "read",
    ),
    (
        b"_Atomic ( int ) x ; _Atomic int y ; int * _Atomic z ;",
        "syntax at token 0",
        "syntax at token 0",
        "read",
    ),
    (
        b"_Static_assert ( 1 ) ;",
        "syntax at token 0",
        "syntax at token 3",
        "read",
    ),
    (
        b"int x = { } ; int y = ( int ) { } ;",
        "syntax at token 4",
        "syntax at token 4",
        "read",
    ),
    (
        b"int x [ 9 ] = { [ 1 ... 3 ] = 1 , [ 4 ] 2 , m : 3 } ;",
        "syntax at token 9",
        "syntax at token 9",
        "read",
    ),
    (
        b"int x = 1 ? : 2 ;",
        "syntax at token 5",
        "syntax at token 5",
        "read",
    ),
    (
        b"int x = __extension__ 1 + __real__ 2 + _Alignof ( int ) + __alignof__ y + sizeof ( int ) { } ;",
        "syntax at token 4",
        "syntax at token 4",
        "read",
    ),
    (
        b"int x = __builtin_offsetof ( struct s , a . b [ 1 ] ) + __builtin_va_arg ( p , int ) + __builtin_types_compatible_p ( int , char * ) ;",
        "syntax at token 5",
        "syntax at token 5",
        "read",
    ),
    (
        b"int x = _Generic ( 1 , int : 2 , default : 3 ) ;",
        "syntax at token 7",
        "syntax at token 3",
        "read",
    ),
    (
        b"void f ( void ) { __label__ a , b ; a : int x ; b : }",
        "syntax at token 7",
        "syntax at token 7",
        "read",
    ),
    (
        b"void f ( void ) { switch ( 1 ) { case 1 ... 2 : int y ; default : } }",
        "syntax at token 13",
        "syntax at token 13",
        "read",
    ),
    (
        b"void f ( void ) { goto * & & a ; goto a ; a : ; }",
        "syntax at token 7",
        "syntax at token 7",
        "read",
    ),
    (
        b"void f ( void ) { goto * && a ; goto a ; a : ; }",
        "syntax at token 7",
        "syntax at token 7",
        "read",
    ),
    (
        b"void f ( void ) { __auto_type const x __attribute__ ( ( unused ) ) = 1 ; x = ( { int y ; y ; } ) ; }",
        "syntax at token 7",
        "syntax at token 7",
        "read",
    ),
    (
        b"void f ( void ) { asm volatile goto ( \"a\" \"b\" : [ r ] \"=r\" ( x ) , \"m\" : \"r\" ( y ) : : a , b ) ; }",
        "syntax at token 7",
        "syntax at token 7",
        "read",
    ),
    (
        b"void f ( void ) { __attribute__ ( ( fallthrough ) ) ; __extension__ int x ; __extension__ x ; [ [ a ] ] ; }",
        "syntax at token 14",
        "syntax at token 14",
        "read",
    ),
    (
        b"typedef int t ; void f ( void ) { t : t x ; int y [ ] = { t : 1 } ; }",
        "syntax at token 12",
        "syntax at token 12",
        "read",
    ),
    (
        b"int __const x ; int __restrict ; float __complex__ z ; _Float128 w ; __builtin_va_list v ; inline __signed f ( ) ;",
        "syntax at token 2",
        "syntax at token 2",
        "read",
    ),
    (
        b"int x [ [ 1 ] ] ;",
        "syntax at token 3",
        "syntax at token 3",
        "syntax at token 4",
    ),
    (
        b"int x = a [ [ 1 ] ] ;",
        "syntax at token 5",
        "syntax at token 5",
        "syntax at token 4",
    ),
    (b"int asm ;", "read", "read", "syntax at token 1"),
    (b"int typeof ;", "read", "read", "syntax at token 1"),
    (
        b"int x = ( __extension__ int ) 1 ;",
        "syntax at token 5",
        "syntax at token 5",
        "syntax at token 5",
    ),
    (
        b"int x __attribute__ ( ( a ) ;",
        "syntax at token 2",
        "syntax at token 2",
        "syntax at token 7",
    ),
    (
        b"int x __attribute__ ( a ) ;",
        "syntax at token 2",
        "syntax at token 2",
        "syntax at token 4",
    ),
    (
        b"struct s { int a } ;",
        "syntax at token 5",
        "syntax at token 5",
        "syntax at token 5",
    ),
    (
        b"int x = ( { 1 ; } ;",
        "syntax at token 4",
        "syntax at token 4",
        "syntax at token 8",
    ),
    (
        b"__auto_type x ;",
        "syntax at token 0",
        "syntax at token 0",
        "syntax at token 0",
    ),
    (
        b"void f ( void ) { asm ( ) ; }",
        "read",
        "read",
        "syntax at token 8",
    ),
    (
        b"void f ( void ) { int g ( void ) { } }",
        "syntax at token 11",
        "syntax at token 11",
        "syntax at token 11",
    ),
    (
        b"void f ( void ) { a : }",
        "syntax at token 8",
        "syntax at token 8",
        "read",
    ),
    (
        b"void f ( void ) { goto 1 ; }",
        "syntax at token 7",
        "syntax at token 7",
        "syntax at token 7",
    ),
    (
        b"void f ( void ) { __label__ ; }",
        "read",
        "read",
        "syntax at token 7",
    ),
    (
        b"int x = _Generic ( 1 ) ;",
        "read",
        "syntax at token 3",
        "syntax at token 6",
    ),
    (
        b"int x = __builtin_offsetof ( int ) ;",
        "syntax at token 5",
        "syntax at token 5",
        "syntax at token 6",
    ),
    (
        b"int x = __builtin_va_arg ( 1 , 2 ) ;",
        "read",
        "read",
        "syntax at token 7",
    ),
    (
        b"int x = __builtin_types_compatible_p ( 1 , int ) ;",
        "syntax at token 7",
        "syntax at token 7",
        "syntax at token 5",
    ),
    (
        b"int x = && 1 ;",
        "syntax at token 3",
        "syntax at token 3",
        "syntax at token 4",
    ),
    (
        b"_Alignas int x ;",
        "syntax at token 0",
        "syntax at token 0",
        "syntax at token 1",
    ),
    (
        b"typeof x y ;",
        "syntax at token 0",
        "syntax at token 0",
        "syntax at token 1",
    ),
    (
        b"int x __asm__ ( y ) ;",
        "syntax at token 2",
        "syntax at token 2",
        "syntax at token 4",
    ),
    (
        b"int x = { [ 1 ... ] = 2 } ;",
        "syntax at token 6",
        "syntax at token 6",
        "syntax at token 7",
    ),
];

// Each node is its production, its alternative, and its children in parentheses.
const TREES: [(&[u8], &str); 5] = [
    (
        b"int x __asm__ ( \"y\" ) __attribute__ ( ( aligned ( 8 ) , , gnu : : used ) ) ;",
        "TranslationUnit 1 ( External 3 ( Specs 1 ( Main 1 ( Word 4 ( 0 ) ) ) ExtRest 2 ( Declarator 1 ( Direct 1 ( 1 ) AsmName 1 ( 2 3 4 5 ) Attr 1 ( 6 7 8 AttrItem 1 ( AttrWord 1 ( 9 ) 10 Args 1 ( Primary 2 ( 11 ) ) 12 ) 13 14 AttrItem 1 ( AttrWord 1 ( 15 ) 16 17 18 ) 19 20 ) ) ExtTail 2 ( 21 ) ) ) )",
    ),
    (
        b"_Alignas ( 8 ) __thread const int x , [ [ a ] ] y ;",
        "TranslationUnit 1 ( External 3 ( Specs 1 ( Mod 11 ( 0 Operand 2 ( 1 Primary 2 ( 2 ) 3 ) ) Mod 9 ( 4 ) Mod 8 ( Qual 1 ( 5 ) ) Main 1 ( Word 4 ( 6 ) ) ) ExtRest 2 ( Declarator 1 ( Direct 1 ( 7 ) ) ExtTail 2 ( 8 Attr 2 ( 9 10 AttrItem 1 ( AttrWord 1 ( 11 ) ) 12 13 ) InitDecl 1 ( Declarator 1 ( Direct 1 ( 14 ) ) ) 15 ) ) ) )",
    ),
    (
        b"void f ( void ) { __label__ a ; asm goto ( \"s\" : [ r ] \"=r\" ( x ) : : : a ) ; a : }",
        "TranslationUnit 1 ( External 3 ( Specs 1 ( Main 1 ( Word 1 ( 0 ) ) ) ExtRest 2 ( Declarator 1 ( Direct 1 ( 1 Suffix 2 ( 2 Params 2 ( Param 1 ( Specs 1 ( Main 1 ( Word 1 ( 3 ) ) ) ) ) 4 ) ) ) ExtTail 1 ( FunBody 1 ( 5 BlockItem 7 ( 6 7 8 ) BlockItem 6 ( Statement 17 ( 9 10 11 12 AsmPart 2 ( 13 AsmOperand 1 ( 14 15 16 17 18 Primary 1 ( 19 ) 20 ) ) AsmPart 2 ( 21 ) AsmPart 2 ( 22 ) AsmPart 1 ( 23 24 ) 25 26 ) ) BlockItem 1 ( Statement 1 ( 27 28 ) ) 29 ) ) ) ) )",
    ),
    (
        b"int y = _Generic ( 1 , int : __builtin_offsetof ( int , m . n [ 1 ] ) , default : ( { __auto_type z = 1 ; z ; } ) ) ;",
        "TranslationUnit 1 ( External 3 ( Specs 1 ( Main 1 ( Word 4 ( 0 ) ) ) ExtRest 2 ( Declarator 1 ( Direct 1 ( 1 ) ) ExtTail 2 ( 2 Init 2 ( Primary 6 ( 3 4 Primary 2 ( 5 ) 6 Association 2 ( TypeName 1 ( Specs 1 ( Main 1 ( Word 4 ( 7 ) ) ) ) 8 Primary 8 ( 9 10 TypeName 1 ( Specs 1 ( Main 1 ( Word 4 ( 11 ) ) ) ) 12 MemberPath 1 ( 13 14 15 16 Primary 2 ( 17 ) 18 ) 19 ) ) 20 Association 1 ( 21 22 Primary 5 ( 23 Block 1 ( 24 BlockItem 5 ( Declaration 3 ( AutoDecl 1 ( 25 26 27 Init 2 ( Primary 2 ( 28 ) ) 29 ) ) ) BlockItem 6 ( Statement 15 ( Primary 1 ( 30 ) 31 ) ) 32 ) 33 ) ) 34 ) ) 35 ) ) ) )",
    ),
    (
        b"typeof ( _Atomic ( int ) ) x = { m : 1 ? : 2 , [ 1 ... 2 ] 3 } ;",
        "TranslationUnit 1 ( External 3 ( Specs 1 ( Main 5 ( 0 Operand 1 ( 1 TypeName 1 ( Specs 1 ( Main 6 ( 2 3 TypeName 1 ( Specs 1 ( Main 1 ( Word 4 ( 4 ) ) ) ) 5 ) ) ) 6 ) ) ) ExtRest 2 ( Declarator 1 ( Direct 1 ( 7 ) ) ExtTail 2 ( 8 Init 1 ( 9 InitList 1 ( InitItem 2 ( 10 11 Init 2 ( Cond 1 ( Primary 2 ( 12 ) 13 14 Primary 2 ( 15 ) ) ) ) 16 InitItem 1 ( Designator 2 ( 17 Primary 2 ( 18 ) 19 Primary 2 ( 20 ) 21 ) Init 2 ( Primary 2 ( 22 ) ) ) ) 23 ) 24 ) ) ) )",
    ),
];

// What stands in front, what begins a level, what stands innermost, what ends a level, and what stands behind; how many
// levels are read, and what is said of a text with one more.
type Nested = (
    &'static str,
    &'static str,
    &'static str,
    &'static str,
    &'static str,
    usize,
    &'static str,
);

const NESTED: [Nested; 15] = [
    (
        "int x = ",
        "( { ",
        "1 ; ",
        "; } ) ",
        ";",
        85,
        "too deep at token 174",
    ),
    (
        "",
        "typeof ( ",
        "int ",
        ") ",
        "x ;",
        256,
        "too deep at token 514",
    ),
    (
        "",
        "_Atomic ( ",
        "int ",
        ") ",
        "x ;",
        256,
        "too deep at token 514",
    ),
    (
        "int x = ",
        "_Generic ( 1 , default : ( { ",
        "1 ; ",
        "; } ) ) ",
        ";",
        63,
        "too deep at token 515",
    ),
    (
        "int x = ",
        "_Generic ( 1 , int : ( { ",
        "1 ; ",
        "; } ) ) ",
        ";",
        63,
        "too deep at token 515",
    ),
    (
        "int x = ",
        "__builtin_va_arg ( ( { ",
        "1 ; ",
        "; } ) , int ) ",
        ";",
        63,
        "too deep at token 259",
    ),
    (
        "int x = ",
        "__builtin_offsetof ( struct s , a [ ( { ",
        "1 ; ",
        "; } ) ] ) ",
        ";",
        63,
        "too deep at token 579",
    ),
    (
        "int x = ",
        "__extension__ ",
        "1 ",
        "",
        ";",
        255,
        "too deep at token 259",
    ),
    (
        "int x = ",
        "__real__ ",
        "1 ",
        "",
        ";",
        255,
        "too deep at token 259",
    ),
    (
        "void f ( void ) { ",
        "a : ",
        "; ",
        "",
        "}",
        255,
        "too deep at token 518",
    ),
    (
        "void f ( void ) { switch ( 1 ) { ",
        "case 1 ... 2 : ",
        "; ",
        "",
        "} }",
        253,
        "too deep at token 1277",
    ),
    (
        "int x = ",
        "{ ",
        "",
        "} ",
        ";",
        256,
        "too deep at token 259",
    ),
    (
        "int x = ",
        "1 ? : ",
        "1 ",
        "",
        ";",
        255,
        "too deep at token 771",
    ),
    (
        "void f ( void ) { ",
        "asm ( \"\" : : \"r\" ( ( { ",
        "; ",
        "} ) ) ) ; ",
        "}",
        85,
        "too deep at token 778",
    ),
    (
        "int ",
        "( __attribute__ ( ( ) ) ",
        "x ",
        ") ",
        ";",
        256,
        "too deep at token 1543",
    ),
];

fn nested(alloc: Global, row: &Nested, levels: usize) -> Result<String, Fail> {
    let (front, begin, innermost, end, behind, _, _) = *row;
    let mut text = String::new(alloc);
    text.push_str(front)?;
    for _ in 0..levels {
        text.push_str(begin)?;
    }
    text.push_str(innermost)?;
    for _ in 0..levels {
        text.push_str(end)?;
    }
    text.push_str(behind)?;
    Ok(text)
}

#[test]
fn programs_are_read_by_each_dialect(rt: HostRuntime) -> Result<(), Fail> {
    for (k, (text, by_c99, by_c11, by_gnu)) in BY_EACH.iter().enumerate() {
        let found = said(rt.alloc(), text, Dialect::Iso(Edition::C99))?;
        assert_eq!(rt; found.as_str(), *by_c99, "BY_EACH, number {k} by C99");
        let found = said(rt.alloc(), text, Dialect::Iso(Edition::C11))?;
        assert_eq!(rt; found.as_str(), *by_c11, "BY_EACH, number {k} by C11");
        let found = said(rt.alloc(), text, Dialect::Gnu)?;
        assert_eq!(rt; found.as_str(), *by_gnu, "BY_EACH, number {k} by GNU C");
    }
    Ok(())
}

#[test]
fn programs_of_gnu_have_their_trees(rt: HostRuntime) -> Result<(), Fail> {
    for (k, (text, expected)) in TREES.iter().enumerate() {
        match answer(rt.alloc(), text, Dialect::Gnu)? {
            Some(Ok(tree)) => {
                let found = written(rt.alloc(), &tree)?;
                assert_eq!(rt; found.as_str(), *expected, "TREES, number {k}");
            }
            _ => panic!(rt; "TREES, number {k}"),
        }
    }
    Ok(())
}

#[test]
fn each_nesting_has_its_deepest_level(rt: HostRuntime) -> Result<(), Fail> {
    for (k, row) in NESTED.iter().enumerate() {
        let text = nested(rt.alloc(), row, row.5)?;
        let found = said(rt.alloc(), text.as_bytes(), Dialect::Gnu)?;
        assert_eq!(rt; found.as_str(), "read", "NESTED, number {k}");
        let text = nested(rt.alloc(), row, row.5.saturating_add(1))?;
        let found = said(rt.alloc(), text.as_bytes(), Dialect::Gnu)?;
        assert_eq!(rt; found.as_str(), row.6, "NESTED, number {k}, one level more");
    }
    Ok(())
}
