// Texts worked by hand, each with what its text lines expand to: from 6.10.3 to 6.10.3.5 and 6.10.8.

/// A text, and the tokens that come of it, with a blank where white space stands before one.
pub type Row = (&'static [u8], &'static [u8]);

/// Examples of 6.10.3.3 and 6.10.3.5.
pub const EXAMPLES: [Row; 7] = [
    // 6.10.3.3 paragraph 4
    (
        b"#define hash_hash # ## #\n#define mkstr(a) # a\n#define in_between(a) mkstr(a)\n\
#define join(c, d) in_between(c hash_hash d)\nchar p[] = join(x, y);",
        b"char p[] = \"x ## y\";",
    ),
    // 6.10.3.5 example 3
    (
        b"#define x 3\n#define f(a) f(x * (a))\n#undef x\n#define x 2\n#define g f\n#define z z[0]\n\
#define h g(~\n#define m(a) a(w)\n#define w 0,1\n#define t(a) a\n#define p() int\n#define q(x) x\n\
#define r(x,y) x ## y\n#define str(x) # x\nf(y+1) + f(f(z)) % t(t(g)(0) + t)(1);\n\
g(x+(3,4)-w) | h 5) & m\n      (f)^m(m);\np() i[q()] = { q(1), r(2,3), r(4,), r(,5), r(,) };\n\
char c[2][6] = { str(hello), str() };\n",
        b"f(2 * (y+1)) + f(2 * (f(2 * (z[0])))) % f(2 * (0)) + t(1); \
f(2 * (2+(3,4)-0,1)) | f(2 * (~ 5)) & f(2 * (0,1))^m(0,1); int i[] = { 1, 23, 4, 5, }; \
char c[2][6] = { \"hello\", \"\" };",
    ),
    // 6.10.3.5 example 4, the include line as a text line
    (
        b"#define str(s) # s\n#define xstr(s) str(s)\n\
#define debug(s, t) printf(\"x\" # s \"= %d, x\" # t \"= %s\", \\\n x ## s, x ## t)\n\
#define INCFILE(n) vers ## n\n#define glue(a, b) a ## b\n#define xglue(a, b) glue(a, b)\n\
#define HIGHLOW \"hello\"\n#define LOW LOW \", world\"\ndebug(1, 2);\n\
fputs(str(strncmp(\"abc\\0d\", \"abc\", '\\4') // this goes away\n== 0) str(: @\\n), s);\n\
xstr(INCFILE(2).h)\nglue(HIGH, LOW);\nxglue(HIGH, LOW)\n",
        b"printf(\"x\" \"1\" \"= %d, x\" \"2\" \"= %s\", x1, x2); \
fputs(\"strncmp(\\\"abc\\\\0d\\\", \\\"abc\\\", '\\\\4') == 0\" \": @\\n\", s); \"vers2.h\" \"hello\"; \
\"hello\" \", world\"",
    ),
    // 6.10.3.5 example 5
    (
        b"#define t(x,y,z) x ## y ## z\nint j[] = { t(1,2,3), t(,4,5), t(6,,7), t(8,9,),\n\
t(10,,), t(,11,), t(,,12), t(,,) };",
        b"int j[] = { 123, 45, 67, 89, 10, 11, 12, };",
    ),
    // 6.10.3.5 example 6: the valid redefinitions, and one that this project takes too
    (
        b"#define OBJ_LIKE (1-1)\n#define OBJ_LIKE /* white space */ (1-1) /* other */\n\
#define FTN_LIKE(a) ( a )\n#define FTN_LIKE( a )( /* white space */ \\\n a /* other */ )\n\
OBJ_LIKE FTN_LIKE(2)",
        b"(1-1) ( 2 )",
    ),
    (
        b"#define OBJ_LIKE (0)\nOBJ_LIKE\n#define OBJ_LIKE (1 - 1)\nOBJ_LIKE",
        b"(0) (1 - 1)",
    ),
    // 6.10.3.5 example 7
    (
        b"#define debug(...) fprintf(stderr, __VA_ARGS__)\n#define showlist(...) puts(#__VA_ARGS__)\n\
#define report(test, ...) ((test)?puts(#test):\\\n printf(__VA_ARGS__))\ndebug(\"Flag\");\n\
debug(\"X = %d\\n\", x);\nshowlist(The first, second, and third items.);\n\
report(x>y, \"x is %d but y is %d\", x, y);",
        b"fprintf(stderr, \"Flag\"); fprintf(stderr, \"X = %d\\n\", x); \
puts(\"The first, second, and third items.\"); \
((x>y)?puts(\"x>y\"): printf(\"x is %d but y is %d\", x, y));",
    ),
];

/// Object-like macros, and function-like ones without `#` and `##`.
pub const REPLACED: [Row; 52] = [
    // 6.10.3 paragraph 9
    (b"#define n 1\n+n + n n", b"+1 + 1 1"),
    (b"#define if while\nif (x)", b"while (x)"),
    (
        b"#define a 1\n\"a\" 'a' 0a .5a L'a' a",
        b"\"a\" 'a' 0a .5a L'a' 1",
    ),
    (
        b" #/**/define/* */zip /**/ ab /**/ cd /**/\n[zip]",
        b"[ab cd]",
    ),
    (b"#define h # x\nh", b"# x"),
    // An empty result hands its white space to no token.
    (b"#define none\nx none y(none)( none )none;", b"x y()( );"),
    // 6.10.3.5 paragraphs 1 and 2
    (
        b"#define a 1\na\n#undef a\na\n#undef b\n#define a 2\na",
        b"1 a 2",
    ),
    // 6.10.3 paragraph 10: a name without a parenthesis behind it stays
    (b"#define f(a) <a>\nf f + 1 f\n\n(2) f;", b"f f + 1 <2> f;"),
    (b"#define f(a) <a>\nf", b"f"),
    (b"#define f (a) <a>\nf(1)", b"(a) <a>(1)"),
    (b"#define p() 7\np() p( ) p\n()", b"7 7 7"),
    (b"#define q(x) [x]\nq() q( ) q(/**/)", b"[] [] []"),
    // 6.10.3 paragraph 11
    (
        b"#define q(x) [x]\nq((1,2)) q(((,))) q({)",
        b"[(1,2)] [((,))] [{]",
    ),
    (
        b"#define d(x,y) [x|y]\nd({1,2}) d(,) d((,),)",
        b"[{1|2}] [|] [(,)|]",
    ),
    (
        b"#define sum(a,b,c) a + b + c\nsum\n(\n1,\n 2\n, 3\n)\n== 6",
        b"1 + 2 + 3 == 6",
    ),
    (b"#define six(a,b, \\\n c,d) \\\n w\nsix(1,2,3,4)", b"w"),
    // White space: a first token takes that of the parameter, or of the name.
    (
        b"#define o(a) -a- - a -\no( 1 ) +o(1  2)",
        b"-1- - 1 - +-1 2- - 1 2 -",
    ),
    // 6.10.3.1: arguments are replaced first, alone
    (b"#define f(x) (x)\nf(f(1)) f(f(f(2)))", b"((1)) (((2)))"),
    (
        b"#define pq p,q\n#define d(x,y) [x-y]\nd(pq, 1)",
        b"[p,q-1]",
    ),
    (b"#define none\n#define d(x,y) [x-y]\nd(none, r)", b"[-r]"),
    (
        b"#define two(x) x x\n#define one 1\ntwo(one one)",
        b"1 1 1 1",
    ),
    (
        b"#define pos s.pos\n#define f(x) (x)\nf(t.pos)",
        b"(t.s.pos)",
    ),
    // 6.10.3.4: the result is scanned again together with what follows
    (
        b"#define e c + 5\n#define c b + 4\n#define b a + 3\n#define a 2\ne",
        b"2 + 3 + 4 + 5",
    ),
    (
        b"#define k3(a,b) k2(a,b) + n2\n#define k2(a,b) k1(a,b) + n1\n#define k1(a,b) (a) + (b)\n\
#define n2 n1 + 2\n#define n1 1\nk3(n1, n2)",
        b"(1) + (1 + 2) + 1 + 1 + 2",
    ),
    (b"#define f(a) <a>\n#define g f(\ng 1)", b"<1>"),
    (
        b"#define sub(x,y) [x-y]\n#define ap(op,a,b) op( (a), (b))\nap( sub, p, q)",
        b"[(p)-(q)]",
    ),
    (b"#define a() Y\n#define b() a\nb() b()()", b"a Y"),
    (b"#define m n\n#define n(a) a\nm( m );", b"n;"),
    (
        b"#define fn(x) yes x\n#define use(x) fn x (x)\nuse()",
        b"yes",
    ),
    (
        b"#define f(x) x\n#define g(x) f(x) f(x\n#define i(x) g(x)) g(x\n\
#define h(x) i(x))) i(x\nf(x)\ng(x))\ni(x)))\nh(x))))",
        b"x x x x x x x x x x x x x x x",
    ),
    (
        b"#define attr_n A((n))\n#define in(a) attr_##a\n#define out(a) in a\n#define use out((n))\nuse",
        b"A((n))",
    ),
    // results of results: a call may begin in one, go through those below it and end behind them all, and the names
    // of each are not available to any of its tokens
    (
        b"#define f(x) <x>\n#define b f( 1\n#define a b 2\na 3)",
        b"<1 2 3>",
    ),
    (
        b"#define f(x) <x>\n#define a f\n#define b a (7\nb 1)",
        b"<7 1>",
    ),
    (
        b"#define f(x) <x>\n#define a f\n#define b a 7\nb (1)",
        b"f 7 (1)",
    ),
    (
        b"#define a b\n#define b c\n#define c d\n#define d a\na b c d",
        b"a b c d",
    ),
    (
        b"#define f(x) x p q\n#define p q p 1\n#define q 2\nf(p) p",
        b"2 p 1 2 p 1 2 2 p 1",
    ),
    // 6.10.3.4 paragraph 2: a name stays in its own replacement
    (b"#define z z[0]\nz", b"z[0]"),
    (b"#define ab ba\n#define ba ab\nab ba", b"ab ba"),
    (b"#define f(a) a + f(a)\nf(x)", b"x + f(x)"),
    (
        b"#define g(a) a + h(a)\n#define h(a) a + g(a)\ng(x)",
        b"x + x + g(x)",
    ),
    (
        b"#define z z[0]\n#define f(a) a + f(a)\nf(z)",
        b"z[0] + f(z[0])",
    ),
    (
        b"#define A (B * B)\n#define B (A + A)\nA + B",
        b"((A + A) * (A + A)) + ((B * B) + (B * B))",
    ),
    (b"#define P Q\n#define Q(n) P(n,2)\nP(1)", b"Q(1,2)"),
    (
        b"#define a b\n#define b(k) a(k,2)\n#define c(k) b(k)\n#define d c\nd(d(1))",
        b"b(b(1,2),2)",
    ),
    (b"#define f(x) x f\nf(f)(1)", b"f f(1)"),
    // Where a call reaches past the replacement, the standard leaves it open: here a name stays that
    // is in the sets of both the name and the parenthesis.
    (b"#define f(a) a*g\n#define g(a) f(a)\nf(2)(9)", b"2*9*g"),
    (
        b"#define id(a) a\n#define g0(a) id(g1)(a)\n#define g1(a) id(a)\ng0(42)",
        b"42",
    ),
    // 6.10.8
    (
        b"__LINE__\n\n__LINE__ __FILE__\n",
        b"1 3 \"d/a\\\\b\\\"c.c\"",
    ),
    (b"#define L __LINE__\nL\nL", b"2 3"),
    (b"#define id(a) a - __LINE__\nid(\n__LINE__\n)", b"3 - 2"),
    (
        b"#define __LINE__ 5\n__LINE__\n#undef __LINE__\n__LINE__",
        b"5 __LINE__",
    ),
    (
        b"#define s(a) #a\n#define xs(a) s(a)\n\nxs(__LINE__) s(__LINE__)",
        b"\"4\" \"__LINE__\"",
    ),
];

/// `__COUNTER__` of GNU C, as gcc expands it.
pub const COUNTED: [Row; 9] = [
    (b"__COUNTER__ __COUNTER__\n__COUNTER__", b"0 1 2"),
    // An argument is expanded once, and not at all where it is an operand alone.
    (
        b"#define two(x) x x\ntwo(+ __COUNTER__) __COUNTER__",
        b"+ 0 + 0 1",
    ),
    (
        b"#define no(x)\n#define s(x) #x\nno(__COUNTER__) s(__COUNTER__) __COUNTER__",
        b"\"__COUNTER__\" 0",
    ),
    (
        b"#define j(x, y) x ## y\n#define k(x, y) j(x, y)\nk(c, __COUNTER__) j(__COUNT, ER__)",
        b"c0 1",
    ),
    (
        b"#define s(x) #x\n#define t(x) s(x)\n__COUNTER__ t(__COUNTER__)",
        b"0 \"1\"",
    ),
    // From the first argument to the last.
    (
        b"#define f(x, y) x y x\nf(__COUNTER__, __COUNTER__ - __COUNTER__)",
        b"0 1 - 2 0",
    ),
    (b"#define c __COUNTER__\nc c c", b"0 1 2"),
    (b"__COUNTER__(__COUNTER__)", b"0(1)"),
    (
        b"__COUNTER__\n#define __COUNTER__ x\n__COUNTER__\n#undef __COUNTER__\n__COUNTER__",
        b"0 x __COUNTER__",
    ),
];
