// Worked expressions. What is true or false here is so by the standard's rules and by a compiler's
// `#if`; the faults are those of this project's rules.
use cond_eval::{CondFault, eval};
use cs_base::Memory;
use row_tools::toks;
use std::alloc::Global;
use std::test::Fail;

const HOLDS: [&[u8]; 94] = [
    b"1 + 2 * 3 == 7",
    b"( 1 + 2 ) * 3 == 9",
    b"10 - 4 - 3 == 3",
    b"100 / 10 / 2 == 5",
    b"7 % 4 % 2 == 1",
    b"1 << 2 + 1 == 8",
    b"1 < 2 == 1",
    b"1 != 0 > 0",
    b"( 1 | 2 ^ 3 & 1 ) == 3",
    b"2 >= 2 && 2 <= 2 && 3 > 2",
    b"( 0 ? 1 : 0 ? 2 : 3 ) == 3",
    b"( 1 ? 2 ? 3 : 4 : 5 ) == 3",
    b"- 2 + 3 == 1",
    b"! 0 + 1 == 2",
    b"~ 0 == - 1",
    b"- - 1 == 1",
    b"+ 3 == 3",
    b"- 1 < 0",
    b"- 1 > 0u",
    b"( 1 ? - 1 : 0u ) > 0",
    b"( 0 ? 0u : - 1 ) > 0",
    b"( 1 ? - 1 : 0 ? 0u : 0 ) > 0",
    b"( 1 ? - 1 : 1 / 0 ) < 0",
    b"( 1 ? - 1 : 1u / 0 ) > 0",
    b"( - 1 >> 1u ) < 0",
    b"( 1u << 1 ) - 3 > 0",
    b"( 1 << 1u ) - 3 < 0",
    b"( 0u == 0 ) - 2 < 0",
    b"( 0u && 0u ) - 1 < 0",
    b"! 0u - 2 < 0",
    b"- 7 / 2 == - 3",
    b"- 7 % 2 == - 1",
    b"7 % - 2 == 1",
    b"- 1 / 2u == 9223372036854775807",
    b"- 1 % 10u == 5",
    b"- 5 >> 1 == - 3",
    b"~ 0u == 18446744073709551615u",
    b"0u - 1 == 0xFFFFFFFFFFFFFFFF",
    b"- 0x8000000000000000 > 0",
    b"- 9223372036854775807 < 0",
    b"9223372036854775808 > 0",
    b"9223372036854775807 + 0u + 1 == 0x8000000000000000",
    b"18446744073709551615u + 1 == 0",
    b"4294967296u * 4294967296u == 0",
    b"- 9223372036854775807 - 1 < 0",
    b"( - 9223372036854775807 - 1 ) % - 1 == 0",
    b"- 1 << 63 < 0",
    b"1u << 63 == 0x8000000000000000",
    b"1 << 62 == 4611686018427387904",
    b"- 9223372036854775807 - 1 >> 63 == - 1",
    b"18446744073709551615u >> 63 == 1",
    b"( - 1 & 0xFF ) == 255",
    b"( - 1 ^ 1 ) == - 2",
    b"( - 2 | 1 ) == - 1",
    b"( - 4 & - 2 ) == - 4",
    b"( - 1 & 1u ) == 1",
    b"0777 == 511",
    b"00 == 0",
    b"0x1F == 31",
    b"0XfF == 255",
    b"01777777777777777777777 == 18446744073709551615u",
    b"0x7FFFFFFFFFFFFFFF > - 1",
    b"1u + 1U + 1l + 1L + 1ll + 1LL == 6",
    b"1ul + 1uL + 1ull + 1uLL + 1Ul + 1UL + 1Ull + 1ULL == 8",
    b"1lu + 1lU + 1Lu + 1LU + 1llu + 1llU + 1LLu + 1LLU == 8",
    b"- 1 < 1ll",
    b"- 1 > 1llu",
    b"'a' == 97",
    b"'ab' == 24930",
    b"'abcd' == 1633837924",
    b"L'a' == 97",
    b"- 'a' < 0",
    b"'\\'' == 39",
    b"'\"' == 34",
    b"'\\\"' == 34",
    b"'\\?' == 63",
    b"'\\\\' == 92",
    b"'\\a' == 7",
    b"'\\b' == 8",
    b"'\\f' == 12",
    b"'\\n' == 10",
    b"'\\r' == 13",
    b"'\\t' == 9",
    b"'\\v' == 11",
    b"'\\0' == 0",
    b"'\\x41' == 65",
    b"'\\x0000041' == 65",
    b"'\\1234' == 21300",
    b"'\\12x' == 2680",
    b"defined || 1",
    b"1 || 2 / 0",
    b"0 ? 1 / 0 : 1",
    b"'\\377' == 255",
    b"'\\xfF' == 255",
];

const FAILS: [&[u8]; 10] = [
    b"x",
    b"int",
    b"4 & 6 == 6",
    b"0 || 1 && 0",
    b"1 ? 0 : 1 ? 0 : 1",
    b"- 1 < 0u + 1",
    b"0 && 2 / 0",
    b"0 && 9223372036854775807 + 1",
    b"1u - 1",
    b"'a' - 97",
];

const FAULTS: [(&[u8], CondFault); 44] = [
    (b"2 / 0 || 1", CondFault::DivideByZero { index: 1 }),
    (b"1 % 0", CondFault::DivideByZero { index: 1 }),
    (b"1u % 0", CondFault::DivideByZero { index: 1 }),
    (b"5 / ( 1 - 1 )", CondFault::DivideByZero { index: 1 }),
    (b"9223372036854775807 + 1", CondFault::Overflow { index: 1 }),
    (
        b"- 9223372036854775807 - 2",
        CondFault::Overflow { index: 2 },
    ),
    (
        b"- ( - 9223372036854775807 - 1 )",
        CondFault::Overflow { index: 0 },
    ),
    (
        b"( - 9223372036854775807 - 1 ) / - 1",
        CondFault::Overflow { index: 6 },
    ),
    (b"9223372036854775807 * 2", CondFault::Overflow { index: 1 }),
    (b"1 << 63", CondFault::Overflow { index: 1 }),
    (b"1 << 64", CondFault::Overflow { index: 1 }),
    (b"1u << 64", CondFault::Overflow { index: 1 }),
    (b"1 >> - 1", CondFault::Overflow { index: 1 }),
    (
        b"1 >> 18446744073709551615u",
        CondFault::Overflow { index: 1 },
    ),
    (b"", CondFault::Syntax { index: 0 }),
    (b"1 +", CondFault::Syntax { index: 2 }),
    (b"1 2", CondFault::Syntax { index: 1 }),
    (b"( 1", CondFault::Syntax { index: 2 }),
    (b"( )", CondFault::Syntax { index: 1 }),
    (b"1 )", CondFault::Syntax { index: 1 }),
    (b"1 , 2", CondFault::Syntax { index: 1 }),
    (b"1 = 1", CondFault::Syntax { index: 1 }),
    (b"1 ? 2", CondFault::Syntax { index: 3 }),
    (b"1 ? 2 :", CondFault::Syntax { index: 4 }),
    (b"1 / 0 +", CondFault::Syntax { index: 4 }),
    (b"1 || )", CondFault::Syntax { index: 2 }),
    (b"\"s\"", CondFault::Syntax { index: 0 }),
    (b"@", CondFault::Syntax { index: 0 }),
    (b"1.5", CondFault::Syntax { index: 0 }),
    (b"1e5", CondFault::Syntax { index: 0 }),
    (b"08", CondFault::Syntax { index: 0 }),
    (b"0x", CondFault::Syntax { index: 0 }),
    (b"1uu", CondFault::Syntax { index: 0 }),
    (b"1lL", CondFault::Syntax { index: 0 }),
    (b"1lul", CondFault::Syntax { index: 0 }),
    (b"18446744073709551616", CondFault::Syntax { index: 0 }),
    (b"0x10000000000000000", CondFault::Syntax { index: 0 }),
    (b"'abcde'", CondFault::Syntax { index: 0 }),
    (b"'\\400'", CondFault::Syntax { index: 0 }),
    (b"'\\x100'", CondFault::Syntax { index: 0 }),
    (b"'\\x'", CondFault::Syntax { index: 0 }),
    (b"'\\8'", CondFault::Syntax { index: 0 }),
    (b"'\\q'", CondFault::Syntax { index: 0 }),
    (b"- '\\u0041'", CondFault::Syntax { index: 1 }),
];

// The answer for an expression, of fewer than 2^32 tokens.
fn answer(alloc: Global, text: &[u8]) -> Result<Option<Result<bool, CondFault>>, Memory> {
    let toks = toks(alloc, text)?;
    Ok(if toks.len() <= u32::MAX as usize {
        Some(eval(&toks))
    } else {
        None
    })
}

#[test]
fn worked_expressions(rt: HostRuntime) -> Result<(), Fail> {
    for (k, text) in HOLDS.iter().enumerate() {
        assert_eq!(rt;
            answer(rt.alloc(), text)?,
            Some(Ok(true)),
            "HOLDS, number {k}"
        );
    }
    for (k, text) in FAILS.iter().enumerate() {
        assert_eq!(rt;
            answer(rt.alloc(), text)?,
            Some(Ok(false)),
            "FAILS, number {k}"
        );
    }
    for (k, (text, fault)) in FAULTS.iter().enumerate() {
        assert_eq!(rt;
            answer(rt.alloc(), text)?,
            Some(Err(*fault)),
            "FAULTS, number {k}"
        );
    }
    Ok(())
}

// So many openers, what they open, and what closes them.
fn nested(
    alloc: Global,
    times: usize,
    opener: &[u8],
    inside: &[u8],
    closer: &[u8],
) -> Result<Vec<u8>, Memory> {
    let mut text = Vec::new(alloc);
    for _ in 0..times {
        text.extend_from_slice(opener)?;
    }
    text.extend_from_slice(inside)?;
    for _ in 0..times {
        text.extend_from_slice(closer)?;
    }
    Ok(text)
}

#[test]
fn as_deep_as_may_be(rt: HostRuntime) -> Result<(), Fail> {
    let shapes: [(&[u8], &[u8], &[u8], u32); 4] = [
        (b"( ", b"1", b" )", 256),
        (b"- ", b"1", b"", 256),
        (b"1 ? ", b"1", b" : 0", 513),
        (b"1 ? 2 : ", b"1", b"", 1025),
    ];
    for (opener, inside, closer, index) in shapes.iter() {
        let deep = nested(rt.alloc(), 256, opener, inside, closer)?;
        assert_eq!(rt; answer(rt.alloc(), &deep)?, Some(Ok(true)));
        let too_deep = nested(rt.alloc(), 257, opener, inside, closer)?;
        let fault = CondFault::TooDeep { index: *index };
        assert_eq!(rt; answer(rt.alloc(), &too_deep)?, Some(Err(fault)));
    }
    Ok(())
}
