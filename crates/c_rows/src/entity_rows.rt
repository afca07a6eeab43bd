// Programs, most of them with a blank between every two tokens, and what their identifiers denote by the clauses of the
// standard.

// Beside each program a word for each of its tokens: the index of the token that first declares what it denotes, from
// 0, or `.` where it denotes nothing.
pub(crate) const BOUND: [(&[u8], &str); 65] = [
    // 6.2.1: file scope, and a block that begins with the parameters.
    (b"int x;", ". 1 ."),
    (
        b"int x ; int f ( int a ) { return x + a ; }",
        ". 1 . . 4 . . 7 . . . 1 . 7 . .",
    ),
    (b"int f ( int f ) { return f ; }", ". 1 . . 4 . . . 4 . ."),
    // 6.2.1 paragraph 4: an inner scope hides an outer one; paragraph 7: a name is visible in its own initializer.
    (
        b"int x ; void f ( void ) { int x = 1 ; { int x = x ; x = 2 ; } x = 3 ; } int y = sizeof x ;",
        ". 1 . . 4 . . . . . 10 . . . . . 16 . 16 . 16 . . . . 10 . . . . . 31 . . 1 .",
    ),
    // prototype scope.
    (
        b"void f ( int a , int b [ sizeof a ] ) ; int a ;",
        ". 1 . . 4 . . 7 . . 4 . . . . 15 .",
    ),
    // only the first list has its names in the body.
    (
        b"int ( * f ( int a ) ) ( int b ) { return a ? 0 : 0 ; }",
        ". . . 3 . . 6 . . . . 11 . . . 6 . . . . . .",
    ),
    // paragraph 7: tags and enumeration constants.
    (b"struct s { struct s * next ; } ;", ". 1 . . 1 . 6 . . ."),
    (
        b"int a ; void f ( void ) { enum { a = sizeof a , b = a } ; }",
        ". 1 . . 4 . . . . . . 11 . . 1 . 16 . 11 . . .",
    ),
    // 6.8.4 and 6.8.5: statements that are blocks.
    (
        b"void f ( int i ) { for ( int i = 0 ; i < 9 ; i ++ ) { int i ; i = 0 ; } i = 0 ; }",
        ". 1 . . 4 . . . . . 10 . . . 10 . . . 10 . . . . 23 . 23 . . . . 4 . . . .",
    ),
    (
        b"int a ; void f ( void ) { if ( sizeof ( enum { a } ) ) a ; a = 2 ; }",
        ". 1 . . 4 . . . . . . . . . . 15 . . . 15 . 1 . . . .",
    ),
    (
        b"int a ; void f ( void ) { while ( sizeof ( enum { a , b } ) ) { b ; } a = 2 ; }",
        ". 1 . . 4 . . . . . . . . . . 15 . 17 . . . . 17 . . 1 . . . .",
    ),
    (
        b"int a ; void f ( void ) { do sizeof ( enum { a } ) ; while ( a ) ; }",
        ". 1 . . 4 . . . . . . . . . 14 . . . . . 1 . . .",
    ),
    // 6.2.1 paragraph 3: labels.
    (
        b"void f ( void ) { goto a ; { a : ; } } void g ( void ) { a : goto a ; }",
        ". 1 . . . . . 10 . . 10 . . . . . 16 . . . . 21 . . 21 . .",
    ),
    // 6.2.3: name spaces.
    (
        b"void f ( int a ) { a : a = 1 ; goto a ; }",
        ". 1 . . 4 . . 7 . 4 . . . . 7 . .",
    ),
    (
        b"struct a { int a ; } a ; int f ( void ) { a : return a . a ; goto a ; }",
        ". 1 . . 4 . . 7 . . 10 . . . . 15 . . 7 . 4 . . 15 . .",
    ),
    (
        b"struct s { int m ; } x ; struct t { int m ; } y ; int f ( void ) { return x . m + y . m ; }",
        ". 1 . . 4 . . 7 . . 10 . . 13 . . 16 . . 19 . . . . . 7 . 4 . 16 . 13 . .",
    ),
    (
        b"typedef struct t t ; struct t { t * t ; } ; int f ( t * p ) { return p -> t == 0 ; }",
        ". . 2 3 . . 2 . 3 . 10 . . . . 15 . 3 . 19 . . . 19 . 10 . . . .",
    ),
    // 6.2.2: linkages.
    (
        b"extern int x ; int x ; extern int x ; int f ( void ) { extern int x ; return x ; }",
        ". . 2 . . 2 . . . 2 . . 12 . . . . . . 2 . . 2 . .",
    ),
    (
        b"static int x; int f(void) { extern int x; return x; }",
        ". . 2 . . 5 . . . . . . 2 . . 2 . .",
    ),
    (
        b"static int i ; void f ( void ) { extern int i ; i = 1 ; }",
        ". . 2 . . 5 . . . . . . 2 . 2 . . . .",
    ),
    (
        b"int x ; void f ( void ) { int x ; { extern int x ; x = 1 ; } x = 2 ; }",
        ". 1 . . 4 . . . . . 10 . . . . 1 . 1 . . . . 10 . . . .",
    ),
    (
        b"int f ( void ) ; static int g ( void ) ; int g ( void ) { return f ( ) ; }",
        ". 1 . . . . . . 8 . . . . . 8 . . . . . 1 . . . .",
    ),
    (
        b"void f ( void ) { extern int a ; a = 1 ; } void g ( void ) { extern int a ; a = 2 ; }",
        ". 1 . . . . . . 8 . 8 . . . . . 16 . . . . . . 8 . 8 . . . .",
    ),
    (
        b"void f ( void ) { int g ( void ) ; g ( ) ; } int g ( void ) { return 0 ; }",
        ". 1 . . . . . 7 . . . . 7 . . . . . 7 . . . . . . . .",
    ),
    (
        b"void f ( void ) { static int n ; n ++ ; } void g ( void ) { static int n ; n ++ ; }",
        ". 1 . . . . . . 8 . 8 . . . . 15 . . . . . . 22 . 22 . . .",
    ),
    (
        b"int f ( int n ) { return n ? f ( n - 1 ) : 0 ; }",
        ". 1 . . 4 . . . 4 . 1 . 4 . . . . . . .",
    ),
    // 6.7.2.3: tags.
    (
        b"struct tnode { int count ; struct tnode * left , * right ; } ; struct tnode s , * sp ; int f ( void ) { return sp -> left -> count + s . right -> count ; }",
        ". 1 . . 4 . . 1 . 9 . . 12 . . . . 1 18 . . 21 . . 24 . . . . . 21 . 9 . 4 . 18 . 12 . 4 . .",
    ),
    (
        b"typedef struct tnode TNODE ; struct tnode { int count ; TNODE * left , * right ; } ; TNODE s , * sp ;",
        ". . 2 3 . . 2 . . 9 . 3 . 13 . . 16 . . . 3 21 . . 24 .",
    ),
    (
        b"struct s2 { int a ; } ; void f ( void ) { struct s2 ; struct s1 { struct s2 * p ; } ; struct s2 { struct s1 * q ; } ; }",
        ". 1 . . 4 . . . . 9 . . . . . 15 . . 18 . . 15 . 23 . . . . 15 . . 18 . 33 . . . .",
    ),
    (
        b"struct s2 { int a ; } ; void f ( void ) { struct s1 { struct s2 * p ; } x ; x . p -> a = 1 ; }",
        ". 1 . . 4 . . . . 9 . . . . . 15 . . 1 . 20 . . 23 . 23 . 20 . 4 . . . .",
    ),
    (
        b"void f ( struct s * p ) ; struct s { int m ; } ;",
        ". 1 . . 4 . 6 . . . 10 . . 13 . . .",
    ),
    (
        b"struct s { int a ; } x ; void f ( void ) { struct s { int b ; } y ; y . b = x . a ; }",
        ". 1 . . 4 . . 7 . . 10 . . . . . 16 . . 19 . . 22 . 22 . 19 . 7 . 4 . .",
    ),
    (
        b"enum e { a , b = a } ; enum e x = b ;",
        ". 1 . 3 . 5 . 3 . . . 1 12 . 5 .",
    ),
    (
        b"union u { int i ; struct { int j ; } s ; } v ; int f ( void ) { return v . s . j ; }",
        ". 1 . . 4 . . . . 9 . . 12 . . 15 . . 18 . . . . . 15 . 12 . 9 . .",
    ),
    (
        b"int f ( struct s { int m ; } * p ) { struct s q ; q . m = p -> m ; return 0 ; }",
        ". 1 . . 4 . . 7 . . . 11 . . . 4 16 . 16 . 7 . 11 . 7 . . . . .",
    ),
    (
        b"enum c { red , green } ; int f ( enum c k ) { switch ( k ) { case red : return 1 ; default : return green ; } }",
        ". 1 . 3 . 5 . . . 9 . . 1 13 . . . . 13 . . . 3 . . . . . . . 5 . . .",
    ),
    // 6.5: types of expressions, by their members.
    (
        b"struct s { int a [ 2 ] ; struct { int b ; } c [ 2 ] ; } x , * p , v [ 3 ] ; int f ( void ) { return x . c [ 0 ] . b + p [ 1 ] . a [ 0 ] + 1 [ p ] . a [ 0 ] + v -> a [ 0 ] ; }",
        ". 1 . . 4 . . . . . . . 12 . . 15 . . . . . 21 . . 24 . 26 . . . . . 32 . . . . . 21 . 15 . . . . 12 . 24 . . . . 4 . . . . . . 24 . . 4 . . . . 26 . 4 . . . . .",
    ),
    (
        b"struct s { int a ; } x , * p ; int f ( void ) { return ( * p ) . a + ( & x ) -> a + ( p + 1 ) -> a + ( 1 + p ) -> a + ( p - 1 ) -> a ; }",
        ". 1 . . 4 . . 7 . . 10 . . 13 . . . . . . . 10 . . 4 . . . 7 . . 4 . . 10 . . . . 4 . . . . 10 . . 4 . . 10 . . . . 4 . .",
    ),
    (
        b"struct s { int m ; } ; struct s * f ( void ) ; struct s ( * g ) ( void ) ; int h ( void ) { return f ( ) -> m + g ( ) . m + ( * g ) ( ) . m + ( * f ) ( ) -> m ; }",
        ". 1 . . 4 . . . . 1 . 11 . . . . . 1 . . 20 . . . . . . 27 . . . . . 11 . . . 4 . 20 . . . 4 . . . 20 . . . . 4 . . . 11 . . . . 4 . .",
    ),
    (
        b"struct s { int m ; } ; int f ( void * p ) { return ( ( struct s * ) p ) -> m + ( struct s ) { 1 } . m ; }",
        ". 1 . . 4 . . . . 9 . . . 13 . . . . . . 1 . . 13 . . 4 . . . 1 . . . . . 4 . .",
    ),
    (
        b"struct s { int m ; } * p , * q ; int f ( int c ) { return ( c ? p : q ) -> m + ( p = q ) -> m + ( c , p ) -> m + ( c ? 0 : p ) -> m ; }",
        ". 1 . . 4 . . . 8 . . 11 . . 14 . . 17 . . . . 17 . 8 . 11 . . 4 . . 8 . 11 . . 4 . . 17 . 8 . . 4 . . 17 . . . 8 . . 4 . .",
    ),
    (
        b"struct s { int m ; } * p ; int f ( void ) { return p ++ -> m + ( ++ p ) -> m + ( p += 1 ) -> m ; }",
        ". 1 . . 4 . . . 8 . . 11 . . . . . 8 . . 4 . . . 8 . . 4 . . 8 . . . . 4 . .",
    ),
    (
        b"struct s { int m ; } ; int n = sizeof ( ( struct s * ) 0 ) -> m ;",
        ". 1 . . 4 . . . . 9 . . . . . 1 . . . . . 4 .",
    ),
    (
        b"struct s { int m ; } ; int f ( struct s v [ 2 ] , struct s g ( void ) ) { return v -> m + g ( ) . m ; }",
        ". 1 . . 4 . . . . 9 . . 1 13 . . . . . 1 20 . . . . . . 13 . 4 . 20 . . . 4 . .",
    ),
    (
        b"struct s { int m ; } a [ 2 ] [ 3 ] , * ( * b ) [ 2 ] ; int f ( void ) { return a [ 1 ] [ 2 ] . m + ( * b ) [ 1 ] -> m + ( * a ) -> m ; }",
        ". 1 . . 4 . . 7 . . . . . . . . . . 18 . . . . . . 25 . . . . . 7 . . . . . . . 4 . . . 18 . . . . . 4 . . . 7 . . 4 . .",
    ),
    // 6.9.1: identifier lists.
    (
        b"int f ( a , b ) int a ; char b ; { return a + b ; }",
        ". 1 . 3 . 5 . . 3 . . 5 . . . 3 . 5 . .",
    ),
    (b"int f ( a ) { return a ; }", ". 1 . 3 . . . 3 . ."),
    (
        b"struct s { int m ; } ; int f ( p , n ) struct s * p ; { return p [ n ] . m ; }",
        ". 1 . . 4 . . . . 9 . 11 . 13 . . 1 . 11 . . . 11 . 13 . . 4 . .",
    ),
    // 6.7.7: typedef names.
    (
        b"typedef int t ; void f ( t t ) { t = 1 ; } t x ;",
        ". . 2 . . 5 . 2 8 . . 8 . . . . 2 17 .",
    ),
    (
        b"typedef signed int t ; typedef int plain ; struct tag { unsigned t : 4 ; const t : 5 ; plain r : 5 ; } ;",
        ". . . 3 . . . 7 . . 10 . . 13 . . . . 3 . . . 7 23 . . . . .",
    ),
    (
        b"typedef signed int t ; void f ( void ) { t g ( t ( t ) ) ; long t ; t = 1 ; }",
        ". . . 3 . . 6 . . . . 3 12 . 3 . 3 . . . . 21 . 21 . . . .",
    ),
    (
        b"typedef struct { int x ; } P ; int f ( P * p ) { return p -> x ; }",
        ". . . . 4 . . 7 . . 10 . 7 . 14 . . . 14 . 4 . .",
    ),
    // A typedef name that is declared again as one: 6.7 paragraph 3 forbids it, and it is accepted here.
    (
        b"typedef int t ; typedef int t ; t x ;",
        ". . 2 . . . 2 . 2 9 .",
    ),
    // 6.7.8: initializers.
    (
        b"typedef struct { int quot , rem ; } div_t ; div_t answer = { . quot = 2 , . rem = - 1 } ;",
        ". . . . 4 . 6 . . 9 . 9 12 . . . 4 . . . . 6 . . . . .",
    ),
    (
        b"struct { int a [ 3 ] , b ; } w [ ] = { [ 0 ] . a = { 1 } , [ 1 ] . a [ 0 ] = 2 } ;",
        ". . . 3 . . . . 8 . . 11 . . . . . . . . 3 . . . . . . . . . 3 . . . . . . .",
    ),
    (
        b"struct p { int x , y ; } ; struct { struct p from , to ; } s = { { . y = 1 } , { . x = 2 , . y = 3 } } ;",
        ". 1 . . 4 . 6 . . . . . . 1 14 . 16 . . 19 . . . . 6 . . . . . . 4 . . . . 6 . . . . .",
    ),
    (
        b"struct p { int x , y ; } ; struct { int n ; struct p from , to ; } s = { . from = { . x = 1 } , { . y = 2 } } ;",
        ". 1 . . 4 . 6 . . . . . . 13 . . 1 17 . 19 . . 22 . . . 17 . . . 4 . . . . . . 6 . . . . .",
    ),
    (
        b"union { int i ; char c ; } u = { . c = 1 } ;",
        ". . . 3 . . 6 . . 9 . . . 6 . . . .",
    ),
    (
        b"struct p { int x ; } v [ ] = { { . x = 1 } , [ 3 ] = { . x = 2 } , { . x = 3 } } ;",
        ". 1 . . 4 . . 7 . . . . . . 4 . . . . . . . . . . 4 . . . . . . 4 . . . . .",
    ),
    (
        b"struct { struct { int a , b ; } p ; struct { int c ; } q ; } s = { 1 , 2 , . q = { . c = 3 } } ;",
        ". . . . . 5 . 7 . . 10 . . . . 15 . . 18 . . 21 . . . . . . . 18 . . . 15 . . . . .",
    ),
    (
        b"struct { char s [ 4 ] ; struct { int a ; } p ; } x = { \"abc\" , { . a = 1 } } ;",
        ". . . 3 . . . . . . . 11 . . 14 . . 17 . . . . . . 11 . . . . .",
    ),
    (
        b"struct p { int a ; } ; void f ( struct p z ) { struct { struct p g , h ; } v = { z , { . a = 1 } } ; v . h . a = 2 ; }",
        ". 1 . . 4 . . . . 9 . . 1 13 . . . . . 1 20 . 22 . . 25 . . 13 . . . 4 . . . . . 25 . 22 . 4 . . . .",
    ),
    (
        b"struct p { int x ; } ; int f ( void ) { return ( struct p ) { . x = 1 } . x ; }",
        ". 1 . . 4 . . . . 9 . . . . . . . 1 . . . 4 . . . . 4 . .",
    ),
    (
        b"struct { union { int i ; float f ; } u ; struct { int a ; } s ; } x = { . u . f = 1 , . s = { . a = 2 } } ;",
        ". . . . . 5 . . 8 . . 11 . . . . 16 . . 19 . . 22 . . . 11 . 8 . . . . 19 . . . 16 . . . . .",
    ),
    // 6.4.2.2: `__func__`.
    (
        b"const char * f ( void ) { return __func__ ; }",
        ". . . 3 . . . . . . . .",
    ),
];
