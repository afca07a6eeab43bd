// Programs of GNU C, with a blank between every two tokens, and what their identifiers denote as gcc has it.

/// Beside each program what `BOUND` says of one, or its first fault.
pub(crate) const BOUND_BY_GNU: [(&[u8], &str); 51] = [
    // Attributes: their names and the first argument of some are words; other arguments are expressions, with a word in
    // front where nothing of its name is visible. A name is visible behind the attributes of its declarator.
    (
        b"int t ; int x __attribute__ ( ( mode ( t ) , aligned ( sizeof ( t ) ) ) ) ;",
        ". 1 . . 4 . . . . . . . . . . . . 1 . . . . .",
    ),
    (
        b"void f ( int * p ) ; int g ( void ) { int x __attribute__ ( ( cleanup ( f ) ) ) = 1 ; return x ; }",
        ". 1 . . . 5 . . . 9 . . . . . 15 . . . . . 1 . . . . . . . 15 . .",
    ),
    (
        b"int f ; void g ( const char * , ... ) __attribute__ ( ( format ( f , 1 , 2 ) , f , deprecated ( y ) ) ) ;",
        ". 1 . . 4 . . . . . . . . . . . . . . . . . . . . . . . . . . . .",
    ),
    (
        b"[ [ gnu :: aligned ( sizeof x ) ] ] int x ;",
        "undeclared at token 8",
    ),
    (
        b"enum { a , b __attribute__ ( ( deprecated ) ) = a } ;",
        ". . 2 . 4 . . . . . . . 2 . .",
    ),
    (
        b"int x __attribute__ ( ( aligned ( sizeof x ) ) ) ;",
        "undeclared at token 8",
    ),
    // Functions that gcc has without a declaration, and names of the function in its body (6.4.2.2).
    (
        b"int f ( int a ) { return __builtin_expect ( a , 0 ) ; }",
        ". 1 . . 4 . . . . . 4 . . . . .",
    ),
    (
        b"int __builtin_x ; int y = sizeof __builtin_x ;",
        ". 1 . . 4 . . 1 .",
    ),
    (
        b"int f ( void ) { return sizeof __FUNCTION__ + sizeof __PRETTY_FUNCTION__ ; }",
        ". 1 . . . . . . . . . . . .",
    ),
    (b"const char * p = __FUNCTION__ ;", "undeclared at token 5"),
    // What they give has an unknown type, which has no member (6.5.2.3) and never chooses (6.5.6, 6.5.15).
    (
        b"struct s { int m ; } ; int f ( struct s * p ) { return __builtin_x ( p ) -> m ; }",
        "no member at token 23",
    ),
    (
        b"struct s { int m ; } ; int f ( struct s * p ) { return ( p + __builtin_x ( ) ) -> m ; }",
        ". 1 . . 4 . . . . 9 . . 1 . 14 . . . . 14 . . . . . . 4 . .",
    ),
    (
        b"struct s { int m ; } ; int f ( struct s * p ) { return ( __builtin_x ( ) ? : p ) -> m ; }",
        ". 1 . . 4 . . . . 9 . . 1 . 14 . . . . . . . . . 14 . . 4 . .",
    ),
    (
        b"struct s { int m ; } ; int f ( struct s * * p ) { return __atomic_load_n ( p , 0 ) -> m + __sync_val_compare_and_swap ( p , 0 , 0 ) -> m ; }",
        ". 1 . . 4 . . . . 9 . . 1 . . 15 . . . . . 15 . . . . 4 . . . 15 . . . . . . 4 . .",
    ),
    (
        b"struct s { int m ; } ; int f ( struct s * p ) { return _Generic ( p , default : p ) -> m ; }",
        "no member at token 27",
    ),
    // A block in an expression is a scope (6.2.1), and has the type of its last expression. Its labels are those of the
    // function, and outside a body there are none.
    (
        b"struct s { int m ; } ; int f ( struct s * p ) { return ( { int m ; p ; } ) -> m ; }",
        ". 1 . . 4 . . . . 9 . . 1 . 14 . . . . . . 21 . 14 . . . . 4 . .",
    ),
    (
        b"struct s { int m ; } ; int f ( struct s * p ) { return ( { p ; ; } ) -> m ; }",
        "no member at token 26",
    ),
    (
        b"int f ( void ) { return ( { int a = 1 ; a ; } ) + a ; }",
        "undeclared at token 19",
    ),
    (
        b"int x = sizeof ( { l : goto l ; 1 ; } ) ;",
        "no label at token 6",
    ),
    (
        b"int f ( void ) { goto l ; ( { l : ; } ) ; return 0 ; }",
        ". 1 . . . . . 11 . . . 11 . . . . . . . . .",
    ),
    // Labels of blocks, once in a block and at one statement; addresses of labels, and labels of `asm goto`.
    (
        b"void f ( void ) { { __label__ l ; goto l ; l : ; } l : goto l ; }",
        ". 1 . . . . . . 8 . . 8 . 8 . . . 17 . . 17 . .",
    ),
    (
        b"void f ( void ) { __label__ l ; { goto l ; } }",
        ". 1 . . . . . 7 . . . 7 . . .",
    ),
    (
        b"void f ( void ) { __label__ l , l ; l : ; }",
        "redeclared at token 9",
    ),
    (
        b"void f ( void ) { __label__ l ; l : ; l : ; }",
        "redeclared at token 12",
    ),
    (
        b"void f ( void ) { { __label__ l ; } goto l ; }",
        "no label at token 12",
    ),
    (
        b"void f ( void ) { void * p = && l ; l : goto * p ; }",
        ". 1 . . . . . . 8 . . 13 . 13 . . . 8 . .",
    ),
    (
        b"void f ( int a ) { asm goto ( \"\" : : [ a ] \"r\" ( a ) : : l , m ) ; l : m : ; }",
        ". 1 . . 4 . . . . . . . . . . . . . 4 . . . 27 . 29 . . 27 . 29 . . .",
    ),
    (b"void * p = && l ;", "no label at token 5"),
    (
        b"int f ( int a [ sizeof ( && l ) ] ) { l : return 0 ; }",
        "no label at token 9",
    ),
    // `typeof`, `__auto_type`, paths to members, and words that say nothing of a type.
    (
        b"struct s { int m ; } ; int f ( struct s x ) { typeof ( x ) * p = & x ; return p -> m + ( ( typeof ( p ) ) p ) -> m ; }",
        ". 1 . . 4 . . . . 9 . . 1 13 . . . . 13 . . 21 . . 13 . . 21 . 4 . . . . . 21 . . 21 . . 4 . .",
    ),
    (
        b"struct s { int m ; } ; int f ( struct s x [ 2 ] ) { __auto_type y = x ; return y -> m ; }",
        ". 1 . . 4 . . . . 9 . . 1 13 . . . . . . 20 . 13 . . 20 . 4 . .",
    ),
    (
        b"int f ( void ) { __auto_type y = y ; return 0 ; }",
        "undeclared at token 9",
    ),
    (
        b"struct s { int a ; struct { int b [ 2 ] ; } c ; } ; int x = __builtin_offsetof ( struct s , c . b [ x ] ) ;",
        ". 1 . . 4 . . . . 9 . . . . . 15 . . . . 20 . . . . 1 . 15 . 9 . 20 . . .",
    ),
    (
        b"struct s { int a ; } ; int x = __builtin_offsetof ( struct s , b ) ;",
        "no member at token 16",
    ),
    (
        b"struct s { int m ; } ; int f ( struct s * p ) { return __extension__ p -> m + ( __extension__ p ) -> m ; }",
        ". 1 . . 4 . . . . 9 . . 1 . 14 . . . . 14 . 4 . . . 14 . . 4 . .",
    ),
    (
        b"struct s { int m ; } ; int f ( __builtin_va_list v ) { return __builtin_va_arg ( v , struct s * ) -> m ; }",
        ". 1 . . 4 . . . . 9 . . 12 . . . . . 12 . . 1 . . . 4 . .",
    ),
    // Initializers with a colon and of several elements (6.7.8); structures without members (6.7.2.3).
    (
        b"struct s { int a , b ; } ; struct s x = { b : 1 , . a = 2 } , y [ 3 ] = { [ 0 ... 1 ] = { . b = 1 } } ;",
        ". 1 . . 4 . 6 . . . . 1 12 . . 6 . . . . 4 . . . . 25 . . . . . . . . . . . . . 6 . . . . .",
    ),
    (
        b"struct s { } ; struct s x = { } ; union { } u ;",
        ". 1 . . . . 1 7 . . . . . . . 15 .",
    ),
    (
        b"struct s { int a ; } ; struct s { } ;",
        "tag redefined at token 9",
    ),
    // A structure's tag stands alone beside attributes and behind `__extension__` (6.7.2.3 paragraph 7); an attribute says
    // nothing of the type of its declarator (6.7.5); a list in a block is not the one that a body begins with (6.2.1).
    (
        b"struct s { int m ; } ; void f ( void ) { struct s __attribute__ ( ( packed ) ) ; struct s * p ; }",
        ". 1 . . 4 . . . . 9 . . . . . 15 . . . . . . . . 15 . 26 . .",
    ),
    (
        b"struct s { int m ; } ; void f ( void ) { __extension__ struct s ; struct s * p ; }",
        ". 1 . . 4 . . . . 9 . . . . . . 16 . . 16 . 21 . .",
    ),
    (
        b"struct s { int m ; } ; struct s ( __attribute__ ( ( x ) ) * g ) ( void ) ; int h ( void ) { return g ( ) . m ; }",
        ". 1 . . 4 . . . . 1 . . . . . . . . 18 . . . . . . 25 . . . . . 18 . . . 4 . .",
    ),
    (
        b"void * __attribute__ ( ( x ( ( { int g ( int z ) ; 1 ; } ) ) ) ) f ( int q ) { return q ; }",
        ". . . . . . . . . . 10 . . 13 . . . . . . . . . 23 . . 26 . . . 26 . .",
    ),
    // A function that is called and not declared is declared by that, in the innermost block (ISO/IEC 9899:1990, 6.3.2.2);
    // those of one spelling are one entity (6.2.2). What is not called is not declared, nor is what is visible.
    (
        b"int f ( void ) { g ( 1 ) ; return g ( 2 ) ; } int g ( int ) ;",
        ". 1 . . . . 6 . . . . . 6 . . . . . . 6 . . . .",
    ),
    (
        b"void f ( void ) { { g ( ) ; } { g ( ) ; } }",
        ". 1 . . . . . 7 . . . . . 7 . . . . .",
    ),
    (
        b"void f ( void ) { { g ( ) ; } g ; }",
        "undeclared at token 12",
    ),
    (
        b"int f ( int g ) { return g ( 1 ) ; }",
        ". 1 . . 4 . . . 4 . . . . .",
    ),
    (
        b"int f ( void ) { return g ( x ) ; }",
        "undeclared at token 9",
    ),
    (
        b"int f ( void ) { g ( ) ; } static int g ( void ) { return 1 ; }",
        "mixed linkage at token 13",
    ),
    (
        b"struct s { int m ; } ; int f ( void ) { return g ( ) -> m ; }",
        "no member at token 19",
    ),
    (
        b"int x = sizeof ( { g ( ) ; } ) + sizeof g ( ) ;",
        ". 1 . . . . 6 . . . . . . . 6 . . .",
    ),
];
