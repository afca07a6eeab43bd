// Texts that are read and bound on from a front. What they give is worked outside.
ghost use Rattle.std.specs.Prelude.{IfOk, IfSome};
ghost use Rattle.c99_read.specs.Fronts.{BeginsWith};
ghost use Rattle.gnu_bind.specs.Fronts.{IsKnownBehind};

use crate::binding_tests::entities;
use crate::reading_tests::written;
use c99_read::{Dialect, Edition, Front, read_from};
use c99_tree::Tree;
use cs_base::{Standard, Tok};
use gnu_bind::{BoundFront, bind_from};
use row_tools::toks;
use std::alloc::Global;
use std::test::Fail;

// The beginning of a text and where a front of it may end, a text, and the tree of what stands behind that front in it; and the
// entity of each of its tokens.
const BEHIND: [(&[u8], usize, &[u8], &str, &str); 4] = [
    (
        b"typedef int t ; void f",
        1,
        b"typedef int t ; void f ( void ) { t * x ; }",
        "TranslationUnit 1 ( External 2 ( Specs 1 ( Main 1 ( Word 1 ( 4 ) ) ) ExtRest 2 ( Declarator 1 ( Direct 1 ( 5 Suffix 2 ( 6 Params 2 ( Param 1 ( Specs 1 ( Main 1 ( Word 1 ( 7 ) ) ) ) ) 8 ) ) ) ExtTail 1 ( FunBody 1 ( 9 BlockItem 2 ( Declaration 1 ( Specs 1 ( Main 4 ( 10 ) ) DeclRest 2 ( InitDecl 1 ( Declarator 1 ( Pointer 1 ( 11 ) Direct 1 ( 12 ) ) ) 13 ) ) ) 14 ) ) ) ) )",
        ". . 2 . . 5 . . . . 2 . 12 . .",
    ),
    (
        b"int t ; int f",
        3,
        b"int t ; int f ( void ) { return t ; }",
        "TranslationUnit 1 ( External 2 ( Specs 1 ( Main 1 ( Word 4 ( 3 ) ) ) ExtRest 2 ( Declarator 1 ( Direct 1 ( 4 Suffix 2 ( 5 Params 2 ( Param 1 ( Specs 1 ( Main 1 ( Word 1 ( 6 ) ) ) ) ) 7 ) ) ) ExtTail 1 ( FunBody 1 ( 8 BlockItem 3 ( Statement 13 ( 9 Primary 1 ( 10 ) 11 ) ) 12 ) ) ) ) )",
        ". 1 . . 4 . . . . . 1 . .",
    ),
    // Nothing is read where no token follows the next one.
    (b"int t ; ;", 3, b"int t ; ;", "no front", "no front"),
    // The text begins with another name.
    (
        b"int u ; int f",
        3,
        b"int t ; int f ( void ) { return t ; }",
        "no front",
        "no front",
    ),
];

// The same of texts of which the entities alone are told: a member and a tag of the front, a function of it that is called and an
// enumerator, a name that is declared once more and hidden, and one that is declared as another one.
const BOUND: [(&[u8], usize, &[u8], &str); 5] = [
    // A front behind a function with a `goto`.
    (
        b"int f ( void ) { goto l ; l : return 0 ; } int g",
        1,
        b"int f ( void ) { goto l ; l : return 0 ; } int g ( void ) { goto m ; m : return f ( ) ; }",
        ". 1 . . . . . 9 . 9 . . . . . . 16 . . . . . 24 . 24 . . 1 . . . .",
    ),
    (
        b"struct s { int m ; } ; int f",
        1,
        b"struct s { int m ; } ; int f ( struct s * p ) { return p -> m ; }",
        ". 1 . . 4 . . . . 9 . . 1 . 14 . . . 14 . 4 . .",
    ),
    (
        b"int f ( int a ) ; enum e { A } ; int g",
        7,
        b"int f ( int a ) ; enum e { A } ; int g ( void ) { return f ( A ) ; }",
        ". 1 . . 4 . . . 8 . 10 . . . 14 . . . . . 1 . 10 . . .",
    ),
    (
        b"extern int x ; int x",
        1,
        b"extern int x ; int x ; int f ( void ) { int x = 1 ; return x ; }",
        ". . 2 . . 2 . . 8 . . . . . 14 . . . . 14 . .",
    ),
    (
        b"int x ; typedef int",
        1,
        b"int x ; typedef int x ;",
        "Redeclared { index: 5 }",
    ),
];

// A front of what is read of the text and what is known behind it.
fn front_of(alloc: Global, text: &[u8], end: usize) -> Result<Option<(Front, BoundFront)>, Fail>
    ensures { IfOk result (λ o. IfSome o (λ f. IsKnownBehind f.1 f.0.toks f.0.tree.under)) }
{
    let seen = toks(alloc, text)?;
    if seen.len() > u32::MAX as usize {
        return Ok(None);
    }
    let front = match Front::of(alloc, seen, end, Dialect::Iso(Edition::C99))? {
        Some(front) => front,
        None => return Ok(None),
    };
    Ok(
        match BoundFront::of(alloc, front.toks(), front.tree(), Standard::C99)? {
            Some(known) => Some((front, known)),
            None => None,
        },
    )
}

fn behind(
    alloc: Global,
    toks: &[Tok],
    front: &Front,
    known: &BoundFront,
    rest: &Tree,
) -> Result<String, Fail>
    requires known { IsKnownBehind known.now front.now.toks front.now.tree.under }
    requires begins { BeginsWith toks.now front.now }
{
    match bind_from(alloc, known, front.toks(), front.tree(), toks, rest) {
        Ok(bound) => match u32::try_from(toks.len()) {
            Ok(count) => entities(alloc, &bound, count),
            Err(_) => Ok(format!(in alloc; "too many tokens")?),
        },
        Err(refusal) => Ok(format!(in alloc; "{refusal:?}")?),
    }
}

// The tree behind the front, and the entities of all tokens.
fn answer(alloc: Global, begins: &[u8], end: usize, text: &[u8]) -> Result<(String, String), Fail> {
    let toks = toks(alloc, text)?;
    let told = match front_of(alloc, begins, end)? {
        Some((front, known)) if toks.len() <= u32::MAX as usize && front.begins(&toks) => {
            match read_from(alloc, &front, &toks) {
                Ok(rest) => (
                    written(alloc, &rest)?,
                    behind(alloc, &toks, &front, &known, &rest)?,
                ),
                Err(_) => (format!(in alloc; "not read")?, String::new(alloc)),
            }
        }
        _ => (
            format!(in alloc; "no front")?,
            format!(in alloc; "no front")?,
        ),
    };
    Ok(told)
}

#[test]
fn texts_are_read_on_from_fronts(rt: HostRuntime) -> Result<(), Fail> {
    for (k, (begins, end, text, tree, entities)) in BEHIND.iter().enumerate() {
        let found = answer(rt.alloc(), begins, *end, text)?;
        assert_eq!(rt; found.0.as_str(), *tree, "BEHIND, number {k}");
        assert_eq!(rt; found.1.as_str(), *entities, "BEHIND, number {k}");
    }
    for (k, (begins, end, text, entities)) in BOUND.iter().enumerate() {
        let found = answer(rt.alloc(), begins, *end, text)?;
        assert_eq!(rt; found.1.as_str(), *entities, "BOUND, number {k}");
    }
    Ok(())
}
