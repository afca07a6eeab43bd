// Programs, most of them with a blank between every two tokens, and what is told of them beside what each identifier
// denotes.

// Each entity of a program by its first token, with its kind and its linkage (6.2.2).
pub(crate) const KINDS: [(&[u8], &str); 7] = [
    (
        b"int x ; static int y ; extern int z ; int f ( int a ) { static int b ; extern int c ; enum { d } ; struct s { int m ; } e ; l : return a ; }",
        "1 Object External, 5 Object Internal, 9 Object External, 12 Function External, 15 Parameter Absent, 20 Object Absent, 24 Object External, 28 Enumerator Absent, 32 Tag Absent, 35 Member Absent, 38 Object Absent, 40 Label Absent",
    ),
    (
        b"typedef int t ; static t f ( void ) ; t f ( void ) { return 0 ; }",
        "2 Typedef Absent, 6 Function Internal",
    ),
    (
        b"static int i ; void f ( void ) { extern int i ; }",
        "2 Object Internal, 5 Function External",
    ),
    (
        b"static int x; int f(void) { extern int x; return x; }",
        "2 Object Internal, 5 Function External",
    ),
    (
        b"typedef int g ( int ) ; g f ; int h ( a ) int a ; { return f ( a ) ; }",
        "2 Typedef Absent, 8 Function External, 11 Function External, 13 Parameter Absent",
    ),
    (
        b"int f ( int g ( void ) , int v [ ] ) ;",
        "1 Function External, 4 Parameter Absent, 10 Parameter Absent",
    ),
    (
        b"void f ( void ) { int g ( void ) ; }",
        "1 Function External, 7 Function External",
    ),
];

// The lists of a program by name, parentheses and commas: of parameters and of arguments; the bodies by name and
// braces; the bare names; and where typedef names are visible, by name, from one token to before another.
pub(crate) const LISTS: [(&[u8], &str); 5] = [
    (
        b"int f ( int a , int b ) { return f ( a , b ) ; }",
        "list 1 2 8 5, call 11 12 16 14, body 1 9 18",
    ),
    (
        b"typedef int t ; int f ( t ( t ) ) ; void g ( a ) int a ; { int ( * p ) ( int ) ; p ( 1 ) ; }",
        "list 5 6 11, list 14 15 17, call 31 32 34, body 14 21 36, bare 16, typedef 2 3 37",
    ),
    (b"int f ( int ( a ) ) ;", "list 1 2 7, bare 5"),
    (
        b"void f ( ) , g ( int , ... ) , ( * h ( int a ) ) ( int b , int c ) ; int * k ( void ) ;",
        "list 1 2 3, list 5 6 10 8, list 14 15 18, list 30 31 33",
    ),
    (
        b"int g ( ) ; int f ( ) { return g ( f ( ) , ( f ) ( ) ) ; }",
        "list 1 2 3, list 6 7 8, call 11 12 22 16, call 13 14 15, body 6 9 24",
    ),
];

// The parameters of each name that has a parameter list (6.7.5.3): the name, how its list reads, and each parameter's
// name, or `-` where it has none.
pub(crate) const PARAMETERS: [(&[u8], &str); 11] = [
    (
        b"int f ( int a , int b ) { return f ( a , b ) ; }",
        "1 Types 4 7",
    ),
    // The standard's first example.
    (
        b"int f ( void ) , * fip ( ) , ( * pfi ) ( ) ;",
        "1 Types -, 7 Empty",
    ),
    (
        b"void f ( ) , g ( int , ... ) , ( * h ( int a ) ) ( int b , int c ) ; int * k ( void ) ;",
        "1 Empty, 5 Ellipsis -, 14 Types 17, 30 Types -",
    ),
    (
        b"int printf ( const char * format , ... ) ;",
        "1 Ellipsis 6",
    ),
    (
        b"int f ( a , b , c ) int a ; char b , c ; { return a + b + c ; }",
        "1 Identifiers 3 5 7",
    ),
    // Paragraph 11: in parentheses a typedef name is a type, and another name the parameter's.
    (
        b"typedef int t ; int f ( t ( t ) ) ; void g ( a ) int a ; { int ( * p ) ( int ) ; p ( 1 ) ; }",
        "5 Types -, 14 Identifiers 16",
    ),
    (b"int f ( int ( a ) ) ;", "1 Types 5"),
    (b"typedef int g ( int x , char * y [ ] ) ;", "2 Types 5 9"),
    // A list inside another one is a parameter's, not a name's of its own.
    (
        b"void q ( int ( * compare ) ( int a , int b ) , int [ 2 ] , struct s { int m ; } * r , int h ( int z ) ) ;",
        "1 Types 6 - 29 32",
    ),
    (
        b"void f ( void ) { int g ( char c ) ; }",
        "1 Types -, 7 Types 10",
    ),
    (
        b"int x , ( * p ) ( int a ) ; struct s { int ( * m ) ( int b ) ; } ;",
        "",
    ),
];
