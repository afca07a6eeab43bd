// Worked programs and faults. The trees and the places are those of the grammar's rules, worked outside.
use c99_read::{Dialect, Edition, ReadRefusal, read};
use c99_tree::{Child, Tree};
use cs_base::Memory;
use row_tools::toks;
use std::alloc::Global;
use std::fmt::Write;
use std::test::Fail;

// Programs of the grammar, some of which C forbids elsewhere.
const ACCEPTED: [&[u8]; 46] = [
    b"",
    b";",
    b"int x ;",
    b"typedef int t ; t x ; int t ;",
    b"typedef int t ; void f ( void ) { t * x ; }",
    b"int t ; void f ( void ) { t * x ; }",
    b"typedef int t ; void f ( int t ) { t * 2 ; }",
    b"typedef int t ; void f ( t ) { t x ; }",
    b"typedef int t ; void f ( int ( t ) ) ;",
    b"typedef int t ; struct t { t t ; } ; t x ;",
    b"int f ( a , b ) int a ; char b ; { return a + b * 2 ; }",
    b"typedef int a ; int f ( enum { a } x ) { return a ; }",
    b"typedef int a ; int ( * f ( int a ) ) ( int a ) { return a ; }",
    b"void f ( void ) { if ( a ) if ( b ) c ; else d ; else { e ; } }",
    b"typedef int t ; void f ( void ) { { int t ; t = 1 ; } t y ; }",
    b"typedef int t ; void f ( void ) { t : x = ( t ) { 1 , 2 } ; goto t ; }",
    b"typedef int t ; int n = sizeof ( t ) + ( t ) + 1 ;",
    b"struct s { int a : 3 , : 4 ; struct { int b ; } c ; ; } v = { . a = 1 , . c . b = 2 , } ;",
    b"int v [ ] = { [ 3 ] = { 4 } , 5 } ;",
    b"int ( * f ( int a ) ) [ sizeof ( enum { a } ) ] { return a ; }",
    b"enum e { a , b = a + 1 , } ; enum e x = b ;",
    b"void f ( int a [ static const 3 ] , int b [ * ] , int c [ ] , ... ) ;",
    b"int x = a ? b , c : d ? e : f ;",
    b"int x = a = b += c ;",
    b"int x = - ! ~ * & ++ -- y ;",
    b"int x = a [ 1 ] ( 2 , 3 ) . b -> c ++ -- ;",
    b"int x = ( int ) ( char ) y ;",
    b"int x = sizeof ( int ) { 1 } [ 0 ] ;",
    b"int x = sizeof sizeof ( x ) ;",
    b"char s [ ] = \"a\" \"b\" \"c\" ;",
    b"int c = 'x' ;",
    b"void f ( void ) { for ( int i = 0 ; i < 3 ; i ++ ) continue ; for ( ; ; ) break ; for ( i = 0 ; ; ) ; }",
    b"void f ( void ) { do x ; while ( y ) ; while ( y ) ; switch ( x ) { case 1 : default : ; } return ; }",
    b"void f ( void ) { a : b : ; }",
    b"int a <: 2 :> ; void f ( void ) <% %>",
    b"int f ( int ( * ) ( int ) , int ( [ 2 ] ) , int * [ ] ) ;",
    b"int x = ( int ( * ) ( void ) ) 0 ;",
    b"int x = ( int ( * ( * ) ( int ) ) [ 2 ] ) 0 ;",
    b"typedef struct t t ; struct t { t * next ; } ;",
    b"const volatile unsigned long long int * restrict const p ;",
    b"static inline _Bool f ( void ) ; extern _Complex double z ;",
    b"int typedef t ; t x ;",
    b"struct { typedef int a ; } t ; int f ( void ) { t * a ; }",
    // Whether a declaration list stands behind a parameter list is decided by the parameters' names.
    b"int f ( typedef int t ) t ; { return 0 ; }",
    b"typedef int t ; int f ( typedef int t ) t ; { return 0 ; }",
    b"typedef int t ; int f ( int t ) , g = sizeof ( t ) { 1 } ; t x ;",
];

// Where nothing that may follow starts.
const FAULTS: [(&[u8], u32); 28] = [
    (b"1", 0),
    (b"int", 1),
    (b"int x = ;", 3),
    (b"int x = ( ;", 4),
    (b"int x = 1 + ;", 5),
    (b"int x", 2),
    (b"x ;", 0),
    (b"int f ( void ) { return", 7),
    (b"int f ( void ) { x : }", 8),
    (b"int x = { 1 , , } ;", 6),
    (b"struct { } s ;", 2),
    (b"enum { } e ;", 2),
    (b"void f ( void ) { else ; }", 6),
    (b"void f ( void ) { case : ; }", 7),
    (b"int a [ ;", 3),
    (b"int x @ ;", 2),
    (b"# define", 0),
    (b"int f ( int a , ) ;", 6),
    (b"int f ( ... ) ;", 3),
    (b"typedef int t ; int x = t ;", 7),
    (b"typedef int t ; t t x ;", 6),
    (b"int f ( a , int b ) ;", 5),
    (b"typedef int t ; int f ( int t ) t x ; { }", 10),
    (b"int f ( typedef int t ) , g = sizeof ( t ) { 1 } ;", 14),
    (b"void f ( void ) { int ; long x = 1 ; y }", 14),
    (b"void f ( void ) { for ( ; ) ; }", 9),
    (b"int x = sizeof ( int ;", 6),
    (b"int x = a . 1 ;", 5),
];

// Each node is its production, its alternative, and its children in parentheses.
const TREES: [(&[u8], &str); 6] = [
    (
        b"int x ;",
        "TranslationUnit 1 ( External 2 ( Specs 1 ( Main 1 ( Word 4 ( 0 ) ) ) ExtRest 2 ( Declarator 1 ( Direct 1 ( 1 ) ) ExtTail 2 ( 2 ) ) ) )",
    ),
    (
        b"typedef int t ; void f ( void ) { t * x ; }",
        "TranslationUnit 1 ( External 2 ( Specs 1 ( Mod 1 ( 0 ) Main 1 ( Word 4 ( 1 ) ) ) ExtRest 2 ( Declarator 1 ( Direct 1 ( 2 ) ) ExtTail 2 ( 3 ) ) ) External 2 ( Specs 1 ( Main 1 ( Word 1 ( 4 ) ) ) ExtRest 2 ( Declarator 1 ( Direct 1 ( 5 Suffix 2 ( 6 Params 2 ( Param 1 ( Specs 1 ( Main 1 ( Word 1 ( 7 ) ) ) ) ) 8 ) ) ) ExtTail 1 ( FunBody 1 ( 9 BlockItem 2 ( Declaration 1 ( Specs 1 ( Main 4 ( 10 ) ) DeclRest 2 ( InitDecl 1 ( Declarator 1 ( Pointer 1 ( 11 ) Direct 1 ( 12 ) ) ) 13 ) ) ) 14 ) ) ) ) )",
    ),
    (
        b"int t ; void f ( void ) { t * x ; }",
        "TranslationUnit 1 ( External 2 ( Specs 1 ( Main 1 ( Word 4 ( 0 ) ) ) ExtRest 2 ( Declarator 1 ( Direct 1 ( 1 ) ) ExtTail 2 ( 2 ) ) ) External 2 ( Specs 1 ( Main 1 ( Word 1 ( 3 ) ) ) ExtRest 2 ( Declarator 1 ( Direct 1 ( 4 Suffix 2 ( 5 Params 2 ( Param 1 ( Specs 1 ( Main 1 ( Word 1 ( 6 ) ) ) ) ) 7 ) ) ) ExtTail 1 ( FunBody 1 ( 8 BlockItem 3 ( Statement 15 ( Mul 1 ( Primary 1 ( 9 ) 10 Primary 1 ( 11 ) ) 12 ) ) 13 ) ) ) ) )",
    ),
    (
        b"typedef int t ; void f ( int ( t ) ) ;",
        "TranslationUnit 1 ( External 2 ( Specs 1 ( Mod 1 ( 0 ) Main 1 ( Word 4 ( 1 ) ) ) ExtRest 2 ( Declarator 1 ( Direct 1 ( 2 ) ) ExtTail 2 ( 3 ) ) ) External 2 ( Specs 1 ( Main 1 ( Word 1 ( 4 ) ) ) ExtRest 2 ( Declarator 1 ( Direct 1 ( 5 Suffix 2 ( 6 Params 2 ( Param 1 ( Specs 1 ( Main 1 ( Word 4 ( 7 ) ) ) Pdecl 2 ( Pdirect 3 ( Suffix 2 ( 8 Params 2 ( Param 1 ( Specs 1 ( Main 4 ( 9 ) ) ) ) 10 ) ) ) ) ) 11 ) ) ) ExtTail 2 ( 12 ) ) ) )",
    ),
    (
        b"typedef int a ; int f ( enum { a } x ) { return a ; }",
        "TranslationUnit 1 ( External 2 ( Specs 1 ( Mod 1 ( 0 ) Main 1 ( Word 4 ( 1 ) ) ) ExtRest 2 ( Declarator 1 ( Direct 1 ( 2 ) ) ExtTail 2 ( 3 ) ) ) External 2 ( Specs 1 ( Main 1 ( Word 4 ( 4 ) ) ) ExtRest 2 ( Declarator 1 ( Direct 1 ( 5 Suffix 2 ( 6 Params 2 ( Param 1 ( Specs 1 ( Main 3 ( EnumSpec 1 ( 7 EnRest 2 ( 8 Enumerators 1 ( Enumerator 1 ( 9 ) ) 10 ) ) ) ) Pdecl 2 ( Pdirect 1 ( 11 ) ) ) ) 12 ) ) ) ExtTail 1 ( FunBody 1 ( 13 BlockItem 3 ( Statement 13 ( 14 Primary 1 ( 15 ) 16 ) ) 17 ) ) ) ) )",
    ),
    (
        b"void f ( void ) { if ( a ) if ( b ) c ; else d ; else { e ; } }",
        "TranslationUnit 1 ( External 2 ( Specs 1 ( Main 1 ( Word 1 ( 0 ) ) ) ExtRest 2 ( Declarator 1 ( Direct 1 ( 1 Suffix 2 ( 2 Params 2 ( Param 1 ( Specs 1 ( Main 1 ( Word 1 ( 3 ) ) ) ) ) 4 ) ) ) ExtTail 1 ( FunBody 1 ( 5 BlockItem 3 ( Statement 5 ( 6 7 Primary 1 ( 8 ) 9 Sub 1 ( Statement 5 ( 10 11 Primary 1 ( 12 ) 13 Sub 1 ( Statement 15 ( Primary 1 ( 14 ) 15 ) ) 16 Sub 1 ( Statement 15 ( Primary 1 ( 17 ) 18 ) ) ) ) 19 Sub 1 ( Statement 4 ( Block 1 ( 20 BlockItem 3 ( Statement 15 ( Primary 1 ( 21 ) 22 ) ) 23 ) ) ) ) ) 24 ) ) ) ) )",
    ),
];

// The answer for a text of C99, of fewer than 2^32 tokens.
fn answer(alloc: Global, text: &[u8]) -> Result<Option<Result<Tree, ReadRefusal>>, Memory> {
    let toks = toks(alloc, text)?;
    Ok(if toks.len() <= u32::MAX as usize {
        Some(read(alloc, &toks, Dialect::Iso(Edition::C99)))
    } else {
        None
    })
}

fn fault_of(alloc: Global, text: &[u8]) -> Result<Option<ReadRefusal>, Memory> {
    Ok(match answer(alloc, text)? {
        Some(Err(refusal)) => Some(refusal),
        _ => None,
    })
}

fn write_head(out: &mut String, node: &Tree) -> Result<(), Fail> {
    let label = node.label();
    write!(out, "{:?} {} (", label.production, label.alternative)?;
    Ok(())
}

// The tree with its labels, as TREES has it.
pub(crate) fn written(alloc: Global, tree: &Tree) -> Result<String, Fail> {
    let mut out = String::new(alloc);
    let mut open: Vec<(&Tree, u32)> = Vec::new(alloc);
    write_head(&mut out, tree)?;
    open.push((tree, 0))?;
    for _ in 0..u64::MAX {
        match open.pop() {
            None => return Ok(out),
            Some((node, k)) => {
                if k < node.len() {
                    open.push((node, k + 1))?;
                    match node.child(k) {
                        Some(Child::Token(index)) => write!(out, " {index}")?,
                        Some(Child::Node(inner)) => {
                            write!(out, " ")?;
                            write_head(&mut out, inner)?;
                            open.push((inner, 0))?;
                        }
                        None => (),
                    }
                } else {
                    write!(out, " )")?;
                }
            }
        }
    }
    Ok(out)
}

#[test]
fn worked_programs(rt: HostRuntime) -> Result<(), Fail> {
    for (k, text) in ACCEPTED.iter().enumerate() {
        let fault = fault_of(rt.alloc(), text)?;
        assert_eq!(rt; fault, None, "ACCEPTED, number {k}");
    }
    for (k, (text, index)) in FAULTS.iter().enumerate() {
        let fault = fault_of(rt.alloc(), text)?;
        assert_eq!(rt;
            fault,
            Some(ReadRefusal::Syntax { index: *index }),
            "FAULTS, number {k}"
        );
    }
    Ok(())
}

#[test]
fn worked_trees(rt: HostRuntime) -> Result<(), Fail> {
    for (k, (text, expected)) in TREES.iter().enumerate() {
        match answer(rt.alloc(), text)? {
            Some(Ok(tree)) => {
                let found = written(rt.alloc(), &tree)?;
                assert_eq!(rt; found.as_str(), *expected, "TREES, number {k}");
            }
            _ => panic!(rt; "TREES, number {k}"),
        }
    }
    Ok(())
}

// So many openers, what they open, and what closes them.
fn nested(
    alloc: Global,
    times: usize,
    before: &[u8],
    opener: &[u8],
    inside: &[u8],
    closer: &[u8],
    behind: &[u8],
) -> Result<Vec<u8>, Memory> {
    let mut text = Vec::new(alloc);
    text.extend_from_slice(before)?;
    for _ in 0..times {
        text.extend_from_slice(opener)?;
    }
    text.extend_from_slice(inside)?;
    for _ in 0..times {
        text.extend_from_slice(closer)?;
    }
    text.extend_from_slice(behind)?;
    Ok(text)
}

// A text as deep as may be is read and dropped, and one level more is refused at its opener.
fn is_deepest(
    rt: &HostRuntime,
    before: &[u8],
    opener: &[u8],
    inside: &[u8],
    closer: &[u8],
    behind: &[u8],
    times: usize,
    index: u32,
) -> Result<bool, Memory> {
    let deep = nested(rt.alloc(), times, before, opener, inside, closer, behind)?;
    let deeper = nested(
        rt.alloc(),
        times.saturating_add(1),
        before,
        opener,
        inside,
        closer,
        behind,
    )?;
    Ok(
        fault_of(rt.alloc(), &deep)?.is_none()
            && fault_of(rt.alloc(), &deeper)? == Some(ReadRefusal::TooDeep { index }),
    )
}

#[test]
fn as_deep_as_may_be(rt: HostRuntime) -> Result<(), Fail> {
    assert!(rt; is_deepest(&rt, b"int x = ", b"( ", b"1", b" )", b" ;", 255, 259)?);
    assert!(rt; is_deepest(&rt, b"int x = ", b"( int ) ", b"1", b"", b" ;", 255, 769)?);
    assert!(rt;
        is_deepest(
            &rt,
            b"void f ( void ) { ",
            b"{ ",
            b";",
            b" }",
            b" }",
            255,
            262
        )?
    );
    assert!(rt; is_deepest(&rt, b"int ", b"( ", b"x", b" )", b" ;", 256, 258)?);
    assert!(rt; is_deepest(&rt, b"int x [ ] = ", b"{ ", b"1", b" }", b" ;", 255, 261)?);
    assert!(rt; is_deepest(&rt, b"int x = ", b"a [ ", b"1", b" ]", b" ;", 255, 515)?);
    assert!(rt;
        is_deepest(
            &rt,
            b"int f ( ",
            b"int g ( ",
            b"int a",
            b" )",
            b" ) ;",
            255,
            771
        )?
    );
    assert!(rt; is_deepest(&rt, b"", b"struct { ", b"int a ;", b" } a ;", b"", 256, 514)?);
    assert!(rt;
        is_deepest(
            &rt,
            b"int x = ",
            b"( ( int ) { f ( ",
            b"1",
            b" ) } )",
            b" ;",
            85,
            599
        )?
    );
    assert!(rt;
        is_deepest(
            &rt,
            b"void f ( void ) { ",
            b"if ( a ) { ",
            b";",
            b" }",
            b" }",
            127,
            646
        )?
    );
    Ok(())
}
