// Programs of C11 with anonymous members (6.7.2.1 paragraph 13), and the entity of each token or the first fault.
use crate::binding_tests::bound_by_c11;
use std::test::Fail;

const ANONYMOUS: [(&[u8], &str); 32] = [
    (
        b"struct s { int a ; struct { int b ; union { int c ; } ; } ; int d ; } ; int f ( struct s * p ) { return p -> a + p -> b + p -> c + p -> d ; }",
        ". 1 . . 4 . . . . 9 . . . . 14 . . . . . . 21 . . . . 26 . . 1 . 31 . . . 31 . 4 . 31 . 9 . 31 . 14 . 31 . 21 . .",
    ),
    (
        b"struct s { struct { struct { struct { int a ; } ; } ; } ; } x ; int y = sizeof x . a ;",
        ". 1 . . . . . . . . 10 . . . . . . . . 19 . . 22 . . 19 . 10 .",
    ),
    (
        b"typedef struct { int a ; } t ; struct s { t ; int b ; } x ; int y = sizeof x . a ;",
        "no member at token 26",
    ),
    (
        b"struct s { struct u { int a ; } ; int b ; } x ; int y = sizeof x . a ;",
        "no member at token 23",
    ),
    (
        b"struct s { const struct { int a ; } ; int b ; } x ; int y = sizeof x . a ;",
        ". 1 . . . . . 7 . . . . 12 . . 15 . . 18 . . 15 . 7 .",
    ),
    (
        b"struct s { struct { int a ; } const ; int b ; } x ; int y = sizeof x . a ;",
        ". 1 . . . . 6 . . . . . 12 . . 15 . . 18 . . 15 . 6 .",
    ),
    (
        b"struct s { int a ; struct { int a ; } ; } ;",
        "redeclared at token 9",
    ),
    (
        b"struct s { struct { int a ; } ; int a ; } ;",
        "redeclared at token 11",
    ),
    (
        b"struct s { struct { int a ; } ; struct { int a ; } ; } ;",
        "redeclared at token 13",
    ),
    (
        b"struct s { int a ; struct { union { int a ; } ; } ; } ;",
        "redeclared at token 11",
    ),
    (
        b"struct s { int a ; struct { int a ; int b [ sizeof zz ] ; } ; } ;",
        "redeclared at token 9",
    ),
    (
        b"struct s { struct { int a ; int a ; } ; int b ; } ;",
        "redeclared at token 9",
    ),
    (
        b"struct k { int k ; } ; struct s { int a ; struct { struct k x , y ; } ; struct k z ; } v = { 1 , { { 2 } , { . k = 3 } } , { . k = 4 } } ;",
        ". 1 . . 4 . . . . 9 . . 12 . . . . 1 18 . 20 . . . . 1 26 . . 29 . . . . . . . . . . . 4 . . . . . . . 4 . . . . .",
    ),
    (
        b"struct k { int k ; } ; struct s { struct { struct k a ; } ; struct k b ; } v = { . a = { 1 } , { . k = 2 } } ;",
        "designator after elision at token 36",
    ),
    (
        b"struct k { int k ; } ; struct s { struct { struct k a ; } ; struct k b ; } v = { . a . k = 2 } ;",
        ". 1 . . 4 . . . . 9 . . . . 1 15 . . . . 1 21 . . 24 . . . 15 . 4 . . . .",
    ),
    (
        b"struct k { int k ; } ; struct s { struct k a ; struct { struct k c ; } ; struct k b ; } v = { . a = { 1 } , { { 1 } } , { . k = 2 } } ;",
        ". 1 . . 4 . . . . 9 . . 1 13 . . . . 1 19 . . . . 1 25 . . 28 . . . 13 . . . . . . . . . . . . . 4 . . . . .",
    ),
    (
        b"struct s { struct { int a ; } ; int b ; } v = { { . k = 1 } } ;",
        "no member at token 19",
    ),
    (
        b"struct s { struct { int a ; } ; int b ; } v = { { . a = 1 } , . b = 2 } ;",
        ". 1 . . . . 6 . . . . 11 . . 14 . . . . 6 . . . . . 11 . . . .",
    ),
    (
        b"struct k { int k ; } ; union u { struct { struct k a ; } ; struct k b ; } v = { { { . k = 1 } } } ;",
        ". 1 . . 4 . . . . 9 . . . . 1 15 . . . . 1 21 . . 24 . . . . . 4 . . . . . .",
    ),
    (
        b"struct k { int k ; } ; union u { struct { struct k a ; } ; struct k b ; } v = { . b = { . k = 1 } } ;",
        ". 1 . . 4 . . . . 9 . . . . 1 15 . . . . 1 21 . . 24 . . . 21 . . . 4 . . . . .",
    ),
    (
        b"struct s { struct { int a ; } ; } ; struct r { struct s ; int a ; } ;",
        ". 1 . . . . 6 . . . . . . 13 . . 1 . . 19 . . .",
    ),
    (
        b"struct s { struct { int a ; } x ; int a ; } ;",
        ". 1 . . . . 6 . . 9 . . 12 . . .",
    ),
    (
        b"struct s { struct { int a ; } ; struct { int b ; } y ; } v ; int z = sizeof v . b ;",
        "no member at token 27",
    ),
    (
        b"struct s { union { int a ; } ; } v ; union { int a ; } w ; int z = sizeof v . a + sizeof w . a ;",
        ". 1 . . . . 6 . . . . 11 . . . . 16 . . 19 . . 22 . . 11 . 6 . . 19 . 16 .",
    ),
    (
        b"struct s { int ; int a ; } v ; int z = sizeof v . a ;",
        ". 1 . . . . 6 . . 9 . . 12 . . 9 . 6 .",
    ),
    (
        b"struct s { enum { A , B } ; int a ; } v ; int z = A ;",
        ". 1 . . . 5 . 7 . . . 11 . . 14 . . 17 . 5 .",
    ),
    (
        b"void f ( struct { struct { int a ; } ; } * p ) { p -> a = 1 ; }",
        ". 1 . . . . . . 8 . . . . . 14 . . 14 . 8 . . . .",
    ),
    (
        b"int f ( p ) struct { struct { int a ; } ; } * p ; { return p -> a ; }",
        ". 1 . 3 . . . . . . 10 . . . . . 3 . . . 3 . 10 . .",
    ),
    (
        b"struct s { struct { int a ; struct { int q ; } ; } ; _Static_assert ( sizeof ( int ) , \"s\" ) ; int b ; } v = { . q = 1 , 2 } ;",
        ". 1 . . . . 6 . . . . 11 . . . . . . . . . . . . . . . . 28 . . 31 . . . 11 . . . . . .",
    ),
    (
        b"struct k { int k ; } ; struct s { struct { struct k q ; } ; struct k b ; struct k c ; } v = { . q = { 1 } , . b = { 2 } , { . k = 3 } } ;",
        ". 1 . . 4 . . . . 9 . . . . 1 15 . . . . 1 21 . . 1 25 . . 28 . . . 15 . . . . . . 21 . . . . . . . 4 . . . . .",
    ),
    (
        b"int x ; struct s { struct { int x : 3 ; int : 2 ; } ; } v ; int y = sizeof v . x + x ;",
        ". 1 . . 4 . . . . 9 . . . . . . . . . . 20 . . 23 . . 20 . 9 . 1 .",
    ),
    (
        b"struct s { int a ; struct { int b ; } ; } v [ 2 ] = { { 1 , { 2 } } , [ 1 ] = { . b = 3 } , [ 0 ] . b = 4 , 5 } ;",
        ". 1 . . 4 . . . . 9 . . . . 14 . . . . . . . . . . . . . . . . . . . 9 . . . . . . . . 9 . . . . . .",
    ),
];

#[test]
fn names_of_anonymous_members(rt: HostRuntime) -> Result<(), Fail> {
    let found = bound_by_c11(rt.alloc(), &ANONYMOUS)?;
    assert_eq!(rt; found.as_str(), "", "ANONYMOUS");
    Ok(())
}
