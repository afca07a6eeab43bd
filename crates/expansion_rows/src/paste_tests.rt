// Pastes and strings as 6.10.3.2, 6.10.3.3 and the examples of 6.10.3.5 give them, or as gcc does.
ghost use Rattle.std.specs.Prelude.{◌≡◌, map, IfOk};
ghost use Rattle.paste_origin.specs.Pasting.{IsWhollyTraced};

use cs_base::{Kind, Memory, Pos, Tok};
use lexer::one_token;
use paste_origin::{GlueRefusal, StrRefusal, glue, stringize};
use std::alloc::Global;
use std::test::Fail;

type Paste = (&'static [u8], &'static [u8], Kind, &'static [u8]);

// The operands of `##`, and the kind and the spelling of what they make.
const PASTES: [Paste; 26] = [
    (b"#", b"#", Kind::Punct, b"##"),
    (b"x", b"1", Kind::Ident, b"x1"),
    (b"HIGH", b"LOW", Kind::Ident, b"HIGHLOW"),
    (b"2", b"3", Kind::Number, b"23"),
    (b"1", b"e5", Kind::Number, b"1e5"),
    (b"1e", b"+", Kind::Number, b"1e+"),
    (b"0xp", b"-", Kind::Number, b"0xp-"),
    (b"5", b"a", Kind::Number, b"5a"),
    (b"1", b".", Kind::Number, b"1."),
    (b".", b"5", Kind::Number, b".5"),
    (b"L", b"\"a\"", Kind::Str, b"L\"a\""),
    (b"L", b"'a'", Kind::Char, b"L'a'"),
    (b"<", b"<", Kind::Punct, b"<<"),
    (b"<<", b"=", Kind::Punct, b"<<="),
    (b">", b">=", Kind::Punct, b">>="),
    (b"-", b">", Kind::Punct, b"->"),
    (b"-", b"-", Kind::Punct, b"--"),
    (b"+", b"+", Kind::Punct, b"++"),
    (b"&", b"&", Kind::Punct, b"&&"),
    (b"|", b"|", Kind::Punct, b"||"),
    (b"!", b"=", Kind::Punct, b"!="),
    (b"=", b"=", Kind::Punct, b"=="),
    (b"/", b"=", Kind::Punct, b"/="),
    (b"%", b":", Kind::Punct, b"%:"),
    (b"%:", b"%:", Kind::Punct, b"%:%:"),
    (b"<", b":", Kind::Punct, b"<:"),
];

// Operands of `##` that make no token.
const NO_TOKEN: [(&[u8], &[u8]); 14] = [
    (b"+", b"-"),
    (b".", b"."),
    (b"/", b"/"),
    (b"/", b"*"),
    (b"a", b"."),
    (b"x", b"+"),
    (b"'a'", b"'b'"),
    (b"\"a\"", b"\"b\""),
    (b")", b"("),
    (b"#", b"include"),
    (b"\\", b"x"),
    (b"...", b"."),
    (b"\"a\"", b"L"),
    (b"<", b"a"),
];

// The tokens of an argument, each with white space before it where its row says so, the string that they
// make, and for each of its characters the number of the token that it comes from, or `-`.
type Made = (
    &'static [(bool, &'static [u8])],
    &'static [u8],
    &'static [u8],
);

const STRINGS: [Made; 16] = [
    (&[], b"\"\"", b"--"),
    (&[(false, b"hello")], b"\"hello\"", b"-00000-"),
    (&[(true, b"hello")], b"\"hello\"", b"-00000-"),
    (&[(true, b"a"), (true, b"b")], b"\"a b\"", b"-0-1-"),
    (
        &[(false, b"a"), (false, b"+"), (true, b"1")],
        b"\"a+ 1\"",
        b"-01-2-",
    ),
    (
        &[(false, b"\"a\\n\""), (true, b"'x'")],
        b"\"\\\"a\\\\n\\\" 'x'\"",
        b"--00-00-0-111-",
    ),
    (
        &[
            (false, b"strncmp"),
            (false, b"("),
            (false, b"\"abc\\0d\""),
            (false, b","),
            (true, b"'\\4'"),
            (false, b")"),
        ],
        b"\"strncmp(\\\"abc\\\\0d\\\", '\\\\4')\"",
        b"-00000001-2222-222-23-4-4445-",
    ),
    (
        &[(true, b":"), (true, b"@"), (false, b"\\"), (false, b"n")],
        b"\": @\\n\"",
        b"-0-123-",
    ),
    (
        &[(false, b"vers2"), (false, b"."), (false, b"h")],
        b"\"vers2.h\"",
        b"-0000012-",
    ),
    (&[(false, b"'\"'")], b"\"'\\\"'\"", b"-0-00-"),
    (&[(false, b"'\\''")], b"\"'\\\\''\"", b"-0-000-"),
    (&[(false, b"L\"x\"")], b"\"L\\\"x\\\"\"", b"-0-00-0-"),
    (&[(false, b"\"\"")], b"\"\\\"\\\"\"", b"--0-0-"),
    (&[(false, b"'")], b"\"'\"", b"-0-"),
    (
        &[(false, b"%:"), (true, b"%:%:")],
        b"\"%: %:%:\"",
        b"-00-1111-",
    ),
    (&[(false, b"\\"), (false, b"\\")], b"\"\\\\\"", b"-01-"),
];

// Tokens that make no string.
const NO_STRING: [&[(bool, &[u8])]; 4] = [
    &[(false, b"\\")],
    &[(false, b"\"")],
    &[(false, b"a"), (false, b"\\")],
    &[(false, b"\""), (false, b"a")],
];

// An origin for each character.
fn origins(alloc: Global, text: &[u8], at: Pos) -> Result<Vec<Option<Pos>>, Memory>
    ensures { IfOk result (λ origins. origins.items ≡ map (λ c. Some at) text.now) }
{
    Ok(text.iter().map(|_| Some(at)).collect(alloc)?)
}

// A token with this spelling, all characters of which come from one place.
fn tok(alloc: Global, gap: bool, text: &[u8], at: Pos) -> Result<Tok, Memory>
    ensures { IfOk result (λ t. IsWhollyTraced t) }
{
    let kind = one_token(text).unwrap_or(Kind::Other);
    let origins = origins(alloc, text, at)?;
    Tok::new(alloc, kind, text, &origins, gap, at, 3, true)
}

fn pasted(alloc: Global, x: &[u8], y: &[u8]) -> Result<Tok, GlueRefusal> {
    let x = tok(alloc, true, x, Pos { file: 1, at: 4 })?;
    let y = tok(alloc, false, y, Pos { file: 2, at: 9 })?;
    glue(alloc, &x, &y)
}

#[test]
fn two_tokens_are_pasted_by_their_spellings(rt: HostRuntime) -> Result<(), Fail> {
    for (x, y, kind, text) in PASTES {
        match pasted(rt.alloc(), x, y) {
            Ok(made) => {
                assert!(rt; made.kind() == kind && made.text() == text);
                assert!(rt; made.gap() && made.line() == 3 && made.direct());
                assert_eq!(rt; made.origins(0), Some(Pos { file: 1, at: 4 }));
                if let Ok(k) = u32::try_from(x.len()) {
                    assert_eq!(rt; made.origins(k), Some(Pos { file: 2, at: 9 }));
                }
            }
            Err(_) => panic!(rt; "refused"),
        }
    }
    for (x, y) in NO_TOKEN {
        assert!(rt; matches!(pasted(rt.alloc(), x, y), Err(GlueRefusal::NotOneToken)));
    }
    Ok(())
}

fn string(alloc: Global, spelled: &[(bool, &[u8])]) -> Result<Tok, StrRefusal> {
    let mut toks = Vec::new(alloc);
    for (k, (gap, text)) in spelled.iter().enumerate() {
        match toks.push(tok(
            alloc,
            *gap,
            text,
            Pos {
                file: 1,
                at: (k % 10) as u32,
            },
        )?) {
            Ok(()) => {}
            Err(_) => return Err(StrRefusal::Memory),
        }
    }
    if toks.len() > u32::MAX as usize {
        return Err(StrRefusal::Memory);
    }
    stringize(alloc, &toks)
}

// For each character the token that it comes from, by its place.
fn shown_origins(alloc: Global, made: &Tok) -> Result<Vec<u8>, Memory> {
    let mut shown = Vec::new(alloc);
    for k in 0..made.text().len() {
        shown.push(match made.origins(k as u32) {
            Some(pos) => b'0' + (pos.at % 10) as u8,
            None => b'-',
        })?;
    }
    Ok(shown)
}

#[test]
fn an_argument_becomes_a_string(rt: HostRuntime) -> Result<(), Fail> {
    for (spelled, text, origins) in STRINGS {
        match string(rt.alloc(), spelled) {
            Ok(made) => {
                assert!(rt; made.kind() == Kind::Str && made.text() == text);
                assert!(rt; !made.gap() && made.line() == 0 && !made.direct());
                assert!(rt; shown_origins(rt.alloc(), &made)?.as_slice() == origins);
            }
            Err(_) => panic!(rt; "refused"),
        }
    }
    for spelled in NO_STRING {
        assert!(rt; matches!(string(rt.alloc(), spelled), Err(StrRefusal::NotAString)));
    }
    Ok(())
}
