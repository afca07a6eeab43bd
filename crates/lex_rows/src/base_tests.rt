// One call of each kind with ample memory, and what no clause says of the outside in memory.
ghost use Rattle.std.specs.Prelude.{◌≡◌, ◌<◌};

use cs_base::*;
use std::marker::Brand;
use std::sync::ledger::{Blank, Ledger};
use std::test::Fail;

fn gives(got: &Got, bytes: &[u8]) -> bool {
    match got {
        Got::Bytes(held) => held.as_slice() == bytes,
        _ => false,
    }
}

#[test]
fn files_give_what_was_added_and_put(rt: HostRuntime) -> Result<(), Fail> {
    let alloc = rt.alloc();
    let mut files = MemFiles::new(alloc);
    files.add("a.c", b"int a;\n")?;
    files.reserve(7)?;
    assert!(rt; matches!(files.read(alloc, "b.c"), Got::Absent));
    assert!(rt; gives(&files.read(alloc, "a.c"), b"int a;\n"));
    assert_eq!(rt; files.put("a.c", b"int b;\n"), Put::Done);
    assert!(rt; gives(&files.read(alloc, "a.c"), b"int b;\n"));
    Ok(())
}

#[test]
fn puts_fail_on_the_list_past_the_room_and_at_no_file(rt: HostRuntime) -> Result<(), Fail> {
    let alloc = rt.alloc();
    let mut files = MemFiles::new(alloc);
    files.add("a.c", b"old")?;
    files.reserve(5)?;
    files.fail_at(1)?;
    files.fail_at(3)?;
    assert!(rt; matches!(files.read(alloc, "a.c"), Got::Failed));
    for (path, bytes, want) in [
        ("a.c", b"1234".as_slice(), Put::Done),
        ("a.c", b"".as_slice(), Put::Failed),
        ("a.c", b"56".as_slice(), Put::Failed),
        ("b.c", b"".as_slice(), Put::Failed),
        ("a.c", b"5".as_slice(), Put::Done),
        ("a.c", b"6".as_slice(), Put::Failed),
    ] {
        assert_eq!(rt; files.put(path, bytes), want);
    }
    assert_eq!(rt; files.bytes("a.c"), Some(b"5".as_slice()));
    Ok(())
}

#[test]
fn writes_fail_on_the_list_and_past_the_room(rt: HostRuntime) -> Result<(), Fail> {
    let mut sink = MemSink::new(rt.alloc());
    sink.fail_at(2)?;
    sink.reserve(4)?;
    for (piece, want) in [
        (b"ab".as_slice(), Wrote::Done),
        (b"c".as_slice(), Wrote::Failed),
        (b"cde".as_slice(), Wrote::Failed),
        (b"cd".as_slice(), Wrote::Done),
        (b"e".as_slice(), Wrote::Failed),
    ] {
        assert_eq!(rt; sink.write(piece), want);
    }
    assert_eq!(rt; sink.bytes(), b"abcd".as_slice());
    Ok(())
}

#[test]
fn tokens_and_edits_find_memory(rt: HostRuntime) -> Result<(), Fail> {
    let alloc = rt.alloc();
    let at = Pos { file: 1, at: 4 };
    let tok = Tok::new(alloc, Kind::Punct, b"++", &[Some(at)], true, at, 7, true)?;
    let copy = tok.share(false, at, 9, false)?;
    assert_eq!(rt; copy.text(), b"++".as_slice());
    let last = Pos {
        file: 1,
        at: u32::MAX,
    };
    let end = Tok::new(alloc, Kind::Punct, b";", &[Some(last)], true, last, 7, true)?;
    assert_eq!(rt; end.origins(0), Some(last));
    let long = Tok::new(
        alloc,
        Kind::Str,
        b"\"sixteen bytes.\"",
        &[],
        true,
        at,
        8,
        true,
    )?;
    assert_eq!(rt;
        long.share(true, at, 8, true)?.text(),
        b"\"sixteen bytes.\"".as_slice()
    );
    let mut edits = Edits::new(alloc);
    let path = Text::new(alloc, b"a.c")?;
    edits.push(path, Vec::from_slice(alloc, b"int b;\n")?, 1)?;
    assert_eq!(rt; edits.len(), 1);
    Ok(())
}

// The characters 1 and 2 of a string and its character 4, the last one that has a number.
const SPANS: [Span; 2] = [
    Span {
        from: 1,
        len: 2,
        start: Pos { file: 1, at: 4 },
    },
    Span {
        from: 4,
        len: 1,
        start: Pos {
            file: 2,
            at: u32::MAX,
        },
    },
];

#[test]
fn spans_tell_origins_and_leave_holes(rt: HostRuntime) -> Result<(), Fail> {
    let alloc = rt.alloc();
    let at = Pos { file: 1, at: 4 };
    let tok = Tok::with_spans(alloc, Kind::Str, b"\"abcd\"", &SPANS, true, at, 7, true)?;
    for (k, want) in [
        (0, None),
        (1, Some(at)),
        (2, Some(Pos { file: 1, at: 5 })),
        (3, None),
        (4, Some(SPANS[1].start)),
        (5, None),
        (6, None),
    ] {
        assert_eq!(rt; tok.origins(k), want, "{k}");
    }
    let mut behind = Vec::new(alloc);
    tok.push_spans(3, &mut behind)?;
    assert_eq!(rt; behind.len(), 2);
    assert_eq!(rt; behind[0].from, 4);
    assert_eq!(rt; behind[1].from, 7);
    Ok(())
}

// A caller that counts for its contract names the ledger of a `Blank`.
fn two_ticks<L: Ledger>(blank: Blank)
    requires name { blank.name ≡ L.name }
    requires parts { blank.parts ≡ L.parts }
    requires some { 0 < blank.parts }
{
    let mut steps = Steps::<L>::new(blank);
    steps.tick();
    steps.tick();
}

#[test]
fn steps_start_from_a_blank(rt: HostRuntime) {
    two_ticks::<Brand>(Blank::new(1));
    let _ = rt;
}
