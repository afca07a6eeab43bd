// Programs, most of them with a blank between every two tokens, and the clauses of the standard that they break.

// The first fault of each program.
pub(crate) const FAULTS: [(&[u8], &str); 39] = [
    // 6.2.1: not visible.
    (b"int f ( void ) { return x ; }", "undeclared at token 7"),
    (
        b"void f ( void ) { { int a ; } a = 1 ; }",
        "undeclared at token 11",
    ),
    (
        b"void f ( int a ) ; int x = sizeof a ;",
        "undeclared at token 11",
    ),
    (b"int x = y , y = 1 ;", "undeclared at token 3"),
    (
        b"void f ( void ) { for ( int i = 0 ; ; ) ; i = 1 ; }",
        "undeclared at token 16",
    ),
    (
        b"struct s { int m ; } ; int x = m ;",
        "undeclared at token 11",
    ),
    (b"const char * p = __func__ ;", "undeclared at token 5"),
    // 6.9.1 paragraph 6: not in the identifier list.
    (
        b"int f ( a ) int b ; { return 0 ; }",
        "undeclared at token 6",
    ),
    // 6.7.2.3 paragraph 2: not complete.
    (b"enum e x ;", "undeclared at token 1"),
    (
        b"enum e { a = sizeof ( enum e ) } ;",
        "undeclared at token 8",
    ),
    // 6.7 paragraph 3: declared twice.
    (
        b"int f ( void ) { int a ; int a ; }",
        "redeclared at token 10",
    ),
    (
        b"int f ( int a ) { int a ; return a ; }",
        "redeclared at token 8",
    ),
    (b"int f ( int a , int a ) ;", "redeclared at token 7"),
    (b"typedef int t ; int t ;", "redeclared at token 5"),
    (b"enum { a } ; int a ;", "redeclared at token 6"),
    (
        b"void f ( void ) { extern int a ; int a ; }",
        "redeclared at token 11",
    ),
    // 6.2.3: a member twice.
    (b"struct s { int a ; char a ; } ;", "redeclared at token 7"),
    // 6.8.1 paragraph 3: a label twice.
    (b"void f ( void ) { a : ; a : ; }", "redeclared at token 9"),
    // 6.8.6.1: no label.
    (b"void f ( void ) { goto a ; }", "no label at token 7"),
    (
        b"void f ( void ) { a : ; } void g ( void ) { goto a ; }",
        "no label at token 17",
    ),
    (b"void f ( void ) { goto a ; x ; }", "no label at token 7"),
    (b"int f(void) { goto e; }", "no label at token 7"),
    // 6.7.2.3: tags.
    (
        b"struct s { int a ; } ; struct s { int b ; } ;",
        "tag redefined at token 9",
    ),
    (
        b"struct s { int a ; } ; union s x ;",
        "tag redefined at token 9",
    ),
    (
        b"struct s { int a ; } ; enum s { b } ;",
        "tag redefined at token 9",
    ),
    (
        b"struct s { struct s { int a ; } b ; } ;",
        "tag redefined at token 4",
    ),
    // 6.2.2 paragraph 7: both linkages.
    (b"static int x ; int x ;", "mixed linkage at token 5"),
    (b"int x ; static int x ;", "mixed linkage at token 5"),
    (b"int x; static int x;", "mixed linkage at token 5"),
    (
        b"static int i ; void f ( void ) { int i ; { extern int i ; } }",
        "mixed linkage at token 16",
    ),
    (
        b"void f ( void ) { extern int a ; } static int a ;",
        "mixed linkage at token 13",
    ),
    // 6.5.2.3: no member.
    (
        b"struct s { int a; } v; int y = v.b;",
        "no member at token 14",
    ),
    (
        b"struct s { int a ; } x ; int f ( void ) { return x . b ; }",
        "no member at token 18",
    ),
    (
        b"int x ; int f ( void ) { return x . a ; }",
        "no member at token 12",
    ),
    (
        b"struct s * p ; int f ( void ) { return p -> a ; } struct s { int a ; } ;",
        "no member at token 14",
    ),
    (
        b"struct s { int a ; } ; int f ( struct s x ) { return x -> a ; }",
        "no member at token 19",
    ),
    (
        b"struct s { int a ; } * p ; int f ( void ) { return p . a ; }",
        "no member at token 19",
    ),
    // 6.7.8 paragraph 7: no member, and places that are not followed.
    (
        b"struct { int a ; } s = { . b = 1 } ;",
        "no member at token 10",
    ),
    (
        b"struct { struct { int a , b ; } p ; int c ; } s = { 1 , { . b = 2 } } ;",
        "designator after elision at token 23",
    ),
];
