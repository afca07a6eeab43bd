// Texts worked by hand: the first faults of their expansions, and what happens in others.
/// A text, the work that may be done, and the fault that comes of it: its name, and the character at
/// which the name of a macro stands.
pub type FaultRow = (&'static [u8], u32, &'static [u8], u32);

/// So much work that these texts do not use it up.
pub const PLENTY: u32 = 1000;

pub const FAULTS: [FaultRow; 33] = [
    // 6.10.3 paragraph 4: a call ends within its run
    (b"#define f(a) a\nf(1", PLENTY, b"open call", 15),
    (b"#define f(a) a\n1 f (1, (2)", PLENTY, b"open call", 17),
    (
        b"#define f(a) a\nf(1\n#define g\n)",
        PLENTY,
        b"open call",
        15,
    ),
    (
        b"#define f(a) <a>\n#define g f(\ng",
        PLENTY,
        b"open call",
        30,
    ),
    (
        b"#define sub(x,y) [x-y]\n#define head sub(\n#define all(a,b,c) a b c\nall(head, 1, 2)",
        PLENTY,
        b"open call",
        70,
    ),
    // 6.10.3 paragraph 4: as many arguments as parameters
    (b"#define F(x) x\nF(1,2)", PLENTY, b"wrong arguments", 15),
    (b"#define d(a,b) a\n d(1)", PLENTY, b"wrong arguments", 18),
    (b"#define d(a,b) a\n d()", PLENTY, b"wrong arguments", 18),
    (b"#define p() 1\np(x)", PLENTY, b"wrong arguments", 14),
    (b"#define p() 1\np(,)", PLENTY, b"wrong arguments", 14),
    (
        b"#define v(a,b,...) a\nv(1)",
        PLENTY,
        b"wrong arguments",
        21,
    ),
    (
        b"#define sub(x,y) [x-y]\n#define pq p,q\n#define SUB(x,y) sub(x,y)\nSUB(pq, 1)",
        PLENTY,
        b"wrong arguments",
        64,
    ),
    (
        b"#define f(a) a\n#define g(a,b) a\nf(g(1))",
        PLENTY,
        b"wrong arguments",
        34,
    ),
    (
        b"#define f(a) #a\n#define g(a,b) a\nf(g(1)) f()(g(1))",
        PLENTY,
        b"wrong arguments",
        45,
    ),
    // 6.10.3.3 paragraph 3
    (b"#define j(a,b) a##b\nj(+,-)", PLENTY, b"not one token", 20),
    (
        b"#define j(a,b) a##b\nj(\"a\",\"b\")",
        PLENTY,
        b"not one token",
        20,
    ),
    (b"#define j(a,b) a##b\nj(/,/)", PLENTY, b"not one token", 20),
    (b"#define j(a,b) a##b\nj(/,*)", PLENTY, b"not one token", 20),
    (b"#define j(a,b) a##b\nj(x,-)", PLENTY, b"not one token", 20),
    (
        b"#define num(d,e) d ## E+ ## e\nnum(12, 34)",
        PLENTY,
        b"not one token",
        30,
    ),
    (b"#define c + ## -\n 1 c", PLENTY, b"not one token", 20),
    (
        b"#define c(a,b,d) a##b##d\nc(.,.,.)",
        PLENTY,
        b"not one token",
        25,
    ),
    // 6.10.3.2 paragraph 2
    (b"#define s(a) #a\ns(\\)", PLENTY, b"not a string", 16),
    (b"#define s(a) #a\n1 s(\")", PLENTY, b"not a string", 18),
    (
        b"#define m(a,b) a##b #b\nm(+,\\)",
        PLENTY,
        b"not a string",
        23,
    ),
    // This project's limit on work, which is tested behind the arguments and before strings.
    (b"#define m(a,b) a##b #b\nm(+,\\)", 4, b"too much work", 23),
    (b"#define a b b\na", 2, b"too much work", 14),
    (b"#define a b b\na a", 5, b"too much work", 16),
    (
        b"#define f(x) x x\n#define n 1\nf(n)",
        4,
        b"too much work",
        29,
    ),
    (
        b"#define f(x) x x\n#define n 1\nf(n)",
        1,
        b"too much work",
        31,
    ),
    (b"1 __LINE__", 0, b"too much work", 2),
    (b"__COUNTER__ __COUNTER__", 1, b"too much work", 12),
    (b"#define a\na a", 1, b"too much work", 12),
];

/// A text, what happens in its expansion, and the work that is left of `PLENTY`. Replaced names: each with its
/// character, the character of its macro's name, and how many tokens were put out before. Links: the
/// first character of the name, and of its macro's name. Pasted tokens, and tokens that strings are made
/// of: each with its character.
pub type NotesRow = (&'static [u8], &'static [u8], u32);

pub const NOTES: [NotesRow; 11] = [
    (
        b"#define f(a) a##1 #a\nf(x)",
        b"f@21=8/0|f@21~8|x1@21|x@23",
        995,
    ),
    (
        b"#define n 1 1\n+ n n",
        b"n@16=8/1 n@18=8/3|n@16~8 n@18~8||",
        994,
    ),
    // While an argument is expanded nothing is put out.
    (
        b"#define f(a) [a]\n#define n 1\nx f(n)",
        b"f@31=8/1 n@33=25/1|f@31~8 n@33~25||",
        994,
    ),
    // What the first definitions stand for is linked with nothing.
    (
        b"__LINE__ + __FILE__",
        b"__LINE__@0=-/0 __FILE__@11=-/2|||",
        998,
    ),
    // A token of a replacement list stands where the name stands, and comes from the list.
    (
        b"#define a b\n#define b 1\na",
        b"a@24=8/0 b@24=20/0|a@24~8 b@10~20||",
        996,
    ),
    (
        b"#define j(a,b) a##b\n#define xy 1\nj(x,y)",
        b"j@33=8/0 xy@33=28/0|j@33~8 xy@35~28|xy@33|",
        994,
    ),
    // An argument is expanded once, however often its parameter occurs.
    (
        b"#define t(x) x x\n#define n 1\nt(n)",
        b"t@29=8/0 n@31=25/0|t@29~8 n@31~25||",
        995,
    ),
    (
        b"#define s(a) #a\ns(p + q)",
        b"s@16=8/0|s@16~8||p@18 +@20 q@22",
        998,
    ),
    // An argument that stands beside `##`, or behind `#`, alone is not expanded.
    (
        b"#define j(a,b) a##1 #b\n#define n 2\nj(n,n)",
        b"j@35=8/0|j@35~8|n1@35|n@39",
        995,
    ),
    (
        b"#define f(a) a\n#define g f\ng(1)+g",
        b"g@27=23/0 f@27=8/0 g@32=23/2|g@27~23 f@25~8 g@32~23||",
        994,
    ),
    (
        b"#define c a##b##c\n;c",
        b"c@19=8/1|c@19~8|ab@19 abc@19|",
        994,
    ),
];
