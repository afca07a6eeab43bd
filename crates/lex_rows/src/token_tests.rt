// Token lists and places worked by hand from 5.1.1.2, 6.4, 6.4.2 to 6.4.9 and 6.10.
use cs_base::{Kind, Pos};
use lexer::*;
use std::test::Fail;

type Row = (Kind, &'static [u8], bool, u32, u32);

// The kind, the spelling, the gap, the position and the line of each token.
const TOKENS: [(&[u8], &[Row]); 18] = [
    (b"", &[]),
    (b" \n\t\x0b\x0c\r", &[]),
    (
        b"int a1 = 2;",
        &[
            (Kind::Ident, b"int", true, 0, 1),
            (Kind::Ident, b"a1", true, 4, 1),
            (Kind::Punct, b"=", true, 7, 1),
            (Kind::Number, b"2", true, 9, 1),
            (Kind::Punct, b";", false, 10, 1),
        ],
    ),
    (
        b"a/**/b",
        &[
            (Kind::Ident, b"a", true, 0, 1),
            (Kind::Ident, b"b", true, 5, 1),
        ],
    ),
    (
        b"x..5+++'",
        &[
            (Kind::Ident, b"x", true, 0, 1),
            (Kind::Punct, b".", false, 1, 1),
            (Kind::Number, b".5", false, 2, 1),
            (Kind::Punct, b"++", false, 4, 1),
            (Kind::Punct, b"+", false, 6, 1),
            (Kind::Other, b"'", false, 7, 1),
        ],
    ),
    (b"0xE+1", &[(Kind::Number, b"0xE+1", true, 0, 1)]),
    // A splice goes, and the line of a token is that of its first byte.
    (
        b"a\\\nb c\\\r\n= d",
        &[
            (Kind::Ident, b"ab", true, 0, 1),
            (Kind::Ident, b"c", true, 3, 2),
            (Kind::Punct, b"=", false, 4, 3),
            (Kind::Ident, b"d", true, 6, 3),
        ],
    ),
    // Of two backslashes before two new-lines the first stays.
    (
        b"\\\\\n\n;",
        &[
            (Kind::Other, b"\\", true, 0, 1),
            (Kind::Punct, b";", true, 2, 3),
        ],
    ),
    // A comment to the end of its line goes on over a splice.
    (
        b"a // b\\\nc\nd",
        &[
            (Kind::Ident, b"a", true, 0, 1),
            (Kind::Ident, b"d", true, 8, 3),
        ],
    ),
    (b"/\\\n* \n **/a", &[(Kind::Ident, b"a", true, 8, 3)]),
    (
        b"<:%:%:%>%:<<=...",
        &[
            (Kind::Punct, b"<:", true, 0, 1),
            (Kind::Punct, b"%:%:", false, 2, 1),
            (Kind::Punct, b"%>", false, 6, 1),
            (Kind::Punct, b"%:", false, 8, 1),
            (Kind::Punct, b"<<=", false, 10, 1),
            (Kind::Punct, b"...", false, 13, 1),
        ],
    ),
    (
        b"L'a' L\"\\\"\" 'x\\'y' \"/*\" L''",
        &[
            (Kind::Char, b"L'a'", true, 0, 1),
            (Kind::Str, b"L\"\\\"\"", true, 5, 1),
            (Kind::Char, b"'x\\'y'", true, 11, 1),
            (Kind::Str, b"\"/*\"", true, 18, 1),
            (Kind::Ident, b"L", true, 23, 1),
            (Kind::Other, b"'", false, 24, 1),
            (Kind::Other, b"'", false, 25, 1),
        ],
    ),
    (
        b"\"a\nb\"",
        &[
            (Kind::Other, b"\"", true, 0, 1),
            (Kind::Ident, b"a", false, 1, 1),
            (Kind::Ident, b"b", true, 3, 2),
            (Kind::Other, b"\"", false, 4, 2),
        ],
    ),
    (
        b"#include <a//b> <c>",
        &[
            (Kind::Punct, b"#", true, 0, 1),
            (Kind::Ident, b"include", false, 1, 1),
            (Kind::Header, b"<a//b>", true, 9, 1),
            (Kind::Punct, b"<", true, 16, 1),
            (Kind::Ident, b"c", false, 17, 1),
            (Kind::Punct, b">", false, 18, 1),
        ],
    ),
    // A string literal that is as long as a header name is one; a longer one is not.
    (
        b"%:include \"a\"\n#include \"a\\\"b\"",
        &[
            (Kind::Punct, b"%:", true, 0, 1),
            (Kind::Ident, b"include", false, 2, 1),
            (Kind::Header, b"\"a\"", true, 10, 1),
            (Kind::Punct, b"#", true, 14, 2),
            (Kind::Ident, b"include", false, 15, 2),
            (Kind::Str, b"\"a\\\"b\"", true, 23, 2),
        ],
    ),
    // A comment holds no end of a line, so this line does not begin with `#`.
    (
        b"a/*\n*/#include <b>",
        &[
            (Kind::Ident, b"a", true, 0, 1),
            (Kind::Punct, b"#", true, 6, 2),
            (Kind::Ident, b"include", false, 7, 2),
            (Kind::Punct, b"<", true, 15, 2),
            (Kind::Ident, b"b", false, 16, 2),
            (Kind::Punct, b">", false, 17, 2),
        ],
    ),
    (
        b"==\r\n$.a\xff_0",
        &[
            (Kind::Punct, b"==", true, 0, 1),
            (Kind::Other, b"$", true, 3, 2),
            (Kind::Punct, b".", false, 4, 2),
            (Kind::Ident, b"a", false, 5, 2),
            (Kind::Other, b"\xff", false, 6, 2),
            (Kind::Ident, b"_0", false, 7, 2),
        ],
    ),
    (
        b"0x1p-3-4",
        &[
            (Kind::Number, b"0x1p-3", true, 0, 1),
            (Kind::Punct, b"-", false, 6, 1),
            (Kind::Number, b"4", false, 7, 1),
        ],
    ),
];

// Spellings and the tokens that the standard gives for them, with the examples of 6.4 and 6.4.6.
const SPELLINGS: [(&[u8], &[&[u8]]); 50] = [
    (b"x+++++y", &[b"x", b"++", b"++", b"+", b"y"]),
    (b"1Ex", &[b"1Ex"]),
    (b"0xe+foo", &[b"0xe+foo"]),
    (
        b"0x3<1/a.h>1e2",
        &[b"0x3", b"<", b"1", b"/", b"a", b".", b"h", b">", b"1e2"],
    ),
    (b"a+1", &[b"a", b"+", b"1"]),
    (b"1e+1+1", &[b"1e+1", b"+", b"1"]),
    (b"1p-2-2", &[b"1p-2", b"-", b"2"]),
    (b".5.6..7", &[b".5.6..7"]),
    (b"..5", &[b".", b".5"]),
    (b"....", &[b"...", b"."]),
    (b".", &[b"."]),
    (b"..", &[b".", b"."]),
    (b"->->*", &[b"->", b"->", b"*"]),
    (b"--->", &[b"--", b"->"]),
    (b">>>=", &[b">>", b">="]),
    (b">>=>", &[b">>=", b">"]),
    (b"<<<=", &[b"<<", b"<="]),
    (b"<<==", &[b"<<=", b"="]),
    (b"===", &[b"==", b"="]),
    (b"!==", &[b"!=", b"="]),
    (b"&&&=", &[b"&&", b"&="]),
    (b"|||=", &[b"||", b"|="]),
    (b"^^=", &[b"^", b"^="]),
    (b"*=*", &[b"*=", b"*"]),
    (b"/=3", &[b"/=", b"3"]),
    (b"%=%", &[b"%=", b"%"]),
    (b"+=-=", &[b"+=", b"-="]),
    (b"###", &[b"##", b"#"]),
    (b"<::>", &[b"<:", b":>"]),
    (b"<%%>", &[b"<%", b"%>"]),
    (b"%:%:%:", &[b"%:%:", b"%:"]),
    (b"%:%", &[b"%:", b"%"]),
    (b"?:;,", &[b"?", b":", b";", b","]),
    (
        b"[](){}~!",
        &[b"[", b"]", b"(", b")", b"{", b"}", b"~", b"!"],
    ),
    (b"'a'", &[b"'a'"]),
    (b"'ab\\'c'", &[b"'ab\\'c'"]),
    (b"''", &[b"'", b"'"]),
    (b"'a", &[b"'", b"a"]),
    (b"L'x'L", &[b"L'x'", b"L"]),
    (b"LL'x'", &[b"LL", b"'x'"]),
    (b"\"\"", &[b"\"\""]),
    (b"\"a\\\"b\"c", &[b"\"a\\\"b\"", b"c"]),
    (b"L\"s\"", &[b"L\"s\""]),
    (b"\"it's\"", &[b"\"it's\""]),
    (b"'\"'", &[b"'\"'"]),
    (b"\"/*\"*/", &[b"\"/*\"", b"*", b"/"]),
    (b"a//b", &[b"a"]),
    (b"a/*/b*/c", &[b"a", b"c"]),
    (b"@a`", &[b"@", b"a", b"`"]),
    (b"_a1$2", &[b"_a1", b"$", b"2"]),
];

#[test]
fn tokens_are_the_longest_that_match(rt: HostRuntime) -> Result<(), Fail> {
    for (bytes, rows) in TOKENS {
        let text = lex(rt.alloc(), 7, bytes)?;
        assert_eq!(rt; text.toks().len(), rows.len());
        for (tok, row) in text.toks().iter().zip(rows) {
            assert!(rt; tok.kind() == row.0 && tok.text() == row.1, "at {}", row.3);
            assert!(rt;
                tok.gap() == row.2 && tok.line() == row.4 && tok.direct(),
                "at {}",
                row.3
            );
            assert!(rt; tok.at() == Pos { file: 7, at: row.3 }, "at {}", row.3);
            assert!(rt; tok.origins(0) == Some(tok.at()), "at {}", row.3);
        }
    }
    Ok(())
}

#[test]
fn places_are_lines_and_columns_from_one(rt: HostRuntime) -> Result<(), Fail> {
    let text = lex(rt.alloc(), 0, b"a\n\nb\\\r\nc\r\n")?;
    let places = [
        (0, 0, 1, 1),
        (1, 1, 1, 2),
        (2, 2, 2, 1),
        (3, 3, 3, 1),
        (4, 7, 4, 1),
        (5, 9, 4, 3),
    ];
    for (at, byte, line, column) in places {
        assert!(rt; text.line_column(at) == Some((line, column)), "at {at}");
        assert!(rt; text.at_of(line, column) == Some(at), "at {at}");
        assert!(rt; text.byte_of(at) == Some(byte), "at {at}");
    }
    assert!(rt; text.line_column(6).is_none() && text.byte_of(6).is_none());
    for (line, column) in [
        (0, 1),
        (1, 0),
        (1, 3),
        (2, 2),
        (3, 2),
        (3, 4),
        (4, 2),
        (4, 4),
        (5, 1),
    ] {
        assert!(rt; text.at_of(line, column).is_none(), "line {line}");
    }
    Ok(())
}

#[test]
fn spellings_are_cut_as_the_standard_does(rt: HostRuntime) -> Result<(), Fail> {
    for (bytes, spellings) in SPELLINGS {
        let text = lex(rt.alloc(), 1, bytes)?;
        assert_eq!(rt; text.toks().len(), spellings.len());
        for (tok, spelling) in text.toks().iter().zip(spellings) {
            assert!(rt; tok.text() == *spelling, "at {}", tok.at().at);
        }
    }
    Ok(())
}

// A splice inside a token of each kind, and the one token that is left.
const SPLICED: [(&[u8], Kind, &[u8]); 8] = [
    (b"a\\\nb", Kind::Ident, b"ab"),
    (b"1\\\n\\\r\n.e\\\n+2", Kind::Number, b"1.e+2"),
    (b"L\\\n'\\\\\\\nx'", Kind::Char, b"L'\\\\x'"),
    (b"\"a\\\nb\\\n\"", Kind::Str, b"\"ab\""),
    (b"%\\\n:%\\\r\n:", Kind::Punct, b"%:%:"),
    (b"@\\\n", Kind::Other, b"@"),
    (b"<\\\n<\\\n=", Kind::Punct, b"<<="),
    (b"x\\\n", Kind::Ident, b"x"),
];

#[test]
fn a_splice_inside_a_token_goes(rt: HostRuntime) -> Result<(), Fail> {
    for (bytes, kind, spelling) in SPLICED {
        let text = lex(rt.alloc(), 1, bytes)?;
        assert_eq!(rt; text.toks().len(), 1);
        for tok in text.toks() {
            assert!(rt; tok.kind() == kind && tok.text() == spelling);
        }
    }
    Ok(())
}

#[test]
fn a_token_begins_a_line_or_not(rt: HostRuntime) -> Result<(), Fail> {
    let text = lex(rt.alloc(), 1, b"a b\n /* \n */ c d \\\n e\n\n#f")?;
    let firsts = [true, false, true, false, false, true, false];
    assert_eq!(rt; text.toks().len(), firsts.len());
    for (k, first) in (0..7).zip(firsts) {
        let there = (k as usize) < text.toks().len();
        assert!(rt; there && text.begins_line(k) == first, "token {k}");
    }
    Ok(())
}

// Files whose comment has no end, and its character, line and column.
const OPEN: [(&[u8], u32, u32, u32); 5] = [
    (b"/*", 0, 1, 1),
    (b"a\nb /* c\n * /", 4, 2, 3),
    (b"/**/ /*/", 5, 1, 6),
    (b"\\\n\n/\\\n* */ /\\\n*", 7, 4, 6),
    (b"\"/*\" '/*' // /*\n/* x", 16, 2, 1),
];

#[test]
fn the_first_comment_without_end_is_named(rt: HostRuntime) {
    for (bytes, at, line, column) in OPEN {
        match lex(rt.alloc(), 1, bytes) {
            Err(
                LexRefusal::OpenComment {
                    at: a,
                    line: l,
                    column: c,
                },
            ) => {
                assert!(rt; a == at && l == line && c == column, "at {a}, {l}, {c}");
            }
            _ => panic!(rt; "a comment is open at {at}"),
        }
    }
}

#[test]
fn a_text_of_one_token_has_its_kind(rt: HostRuntime) {
    let kinds: [(&[u8], Option<Kind>); 14] = [
        (b"...", Some(Kind::Punct)),
        (b"..", None),
        (b"//", None),
        (b"L\"a\"", Some(Kind::Str)),
        (b"", None),
        (b"ab", Some(Kind::Ident)),
        (b"1e+", Some(Kind::Number)),
        (b"'x'", Some(Kind::Char)),
        (b" a ", Some(Kind::Ident)),
        (b"@", None),
        (b"'", None),
        (b"<a>", None),
        (b"a /*", None),
        (b"#include <a>", None),
    ];
    for (text, kind) in kinds {
        assert!(rt; one_token(text) == kind);
    }
}

#[test]
fn a_file_past_the_limit_is_too_large(rt: HostRuntime) -> Result<(), Fail> {
    let mut spaces = vec![in rt.alloc(); b' '; 4_194_304]?;
    assert!(rt; lex(rt.alloc(), 0, &spaces)?.toks().is_empty());
    spaces.push(b' ')?;
    match lex(rt.alloc(), 0, &spaces) {
        Err(LexRefusal::FileTooLarge) => {}
        _ => panic!(rt; "a file of 4194305 bytes has a text"),
    }
    Ok(())
}

#[test]
fn an_identifier_is_a_nondigit_and_then_words(rt: HostRuntime) {
    for name in [b"a".as_slice(), b"_", b"_9Z"] {
        assert!(rt; is_identifier(name));
    }
    for other in [b"".as_slice(), b"9a", b"a b", b"a-", b"\xe9"] {
        assert!(rt; !is_identifier(other));
    }
}
