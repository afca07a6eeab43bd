// Workspaces, and what is told of their units.

// A row: a workspace file; the files that are held, each as `PATH:TEXT` with `@` between them; and for each unit its tokens,
// links, pasted tokens, tokens of strings, tokens of include lines, numbers for operands of `defined`, and, behind those
// of the five fixed lines of its pseudo file, what is reached, as FILE.ITEM, and its events, each behind so many tokens. A
// place is that of the first character, as FILE.CHARACTER. File 1 is the pseudo file of the units.
pub(crate) const ROWS: &str =
    "Names of directives are linked in their unit alone, and macros are not carried on.
$file a.c
file b.c
$a.c:#define A 1
A
#ifdef A
#endif
@b.c:#undef A
A
#ifndef A
#endif
$toks 1
links A@2.12 = A@2.8 A@2.21 = A@2.8
pasted
strings
header
answers
reached 2.0 2.1 2.2 2.3
events d A:0 r A:0 t A:1
toks A
links A@3.19 = A@3.7
pasted
strings
header
answers
reached 3.0 3.1 3.2 3.3
events u A:0 t A:1
%
Pasted tokens, and those that strings are made of.
$file a.c
$a.c:#define P(x, y) x ## y #x
P(a, b) P(, c)
$toks ab \"a\" c \"\"
links x@2.16 = x@2.10 y@2.21 = y@2.13 x@2.24 = x@2.10 P@2.26 = P@2.8 P@2.34 = P@2.8
pasted ab@2.28
strings a@2.28
header
answers
reached 2.0 2.1
events d P:0 r P:0 r P:2
%
A header with a guard is entered twice, by a computed line too; its name is then linked with itself.
$file a.c
$a.c:#include \"h.h\"
#define I \"h.h\"
#include I
x
@h.h:#ifndef H
#define H
int y;
#endif
$toks int y ; x
links H@3.18 = H@3.8 I@2.40 = I@2.23 H@3.8 = H@3.8
pasted
strings
header \"h.h\"@2.25
answers
reached 2.0 3.0 3.1 3.2 3.3 2.1 2.2 3.0 3.3 2.3
events in 3:0 t H:0 d H:0 out 3:3 d I:3 r I:3 in 3:3 t H:3 out 3:3
%
Operands of `defined` are answered, and names are left over.
$define A 1
file a.c
$a.c:#if defined(A) && B
#elif defined C || A
#else
k
#endif
$toks
links A@2.12 = A@1.145 A@2.39 = A@1.145
pasted
strings
header
answers 1@0.8 0@0.0
reached 1.5 2.0! 2.1! 2.2 2.4
events d A:0 t A:0 l B:0 t C:0 r A:0
%
What stands in a skipped group is not reached, nor is an `elif` behind a processed group evaluated.
$file a.c
$a.c:#if 1
x
#elif 1
y
#if 1
z
#endif
#else
w
#endif
#if 0
#include \"no.h\"
#define Q
#endif
$toks x
links
pasted
strings
header
answers
reached 2.0! 2.1 2.2 2.7 2.9 2.10! 2.13
events
%
A name is linked with that of its macro, and a parameter with its uses.
$file a.c
$a.c:#define F(n) n + G(n)
#define G(n) n
F(F(1)) G
$toks 1 + 1 + 1 + 1 G
links n@2.13 = n@2.10 n@2.19 = n@2.10 n@2.35 = n@2.32 F@2.37 = F@2.8 F@2.39 = F@2.8 G@2.17 = G@2.30 G@2.17 = G@2.30
pasted
strings
header
answers
reached 2.0 2.1 2.2
events d F:0 d G:0 r F:0 r F:0 r G:0 r G:4
";
