// What an include line asks for, and where it is looked for (6.10.2), with ample memory.
use cs_base::{Memory, Text};
use row_tools::toks;
use source_files::{Header, candidates_of, header_of_toks};
use std::alloc::Global;
use std::test::Fail;
use ws_file::read_ws;

// The tokens of an expanded include line, and the name that they have, with `"` before it where its directory is
// asked first.
const NAMES: [(&[u8], &[u8]); 6] = [
    (b"\"a.h\"", b"\"a.h"),
    (b"< a.h >", b"a.h"),
    (b"< d / a.h >", b"d / a.h"),
    (b"< a.h", b"none"),
    (b"< a > .h >", b"none"),
    (b"a.h", b"none"),
];

fn shown_header(alloc: Global, header: &Header) -> Result<Vec<u8>, Memory> {
    let mut shown = Vec::new(alloc);
    if header.quoted() {
        shown.push(b'"')?;
    }
    shown.extend_from_slice(header.name())?;
    Ok(shown)
}

fn shown(alloc: Global, text: &[u8]) -> Result<Vec<u8>, Memory> {
    let toks = toks(alloc, text)?;
    match header_of_toks(alloc, &toks)? {
        Some(header) => shown_header(alloc, &header),
        None => Ok(Vec::from_slice(alloc, b"none")?),
    }
}

#[test]
fn expanded_lines_name_headers(rt: HostRuntime) -> Result<(), Fail> {
    for (text, want) in NAMES {
        let given = shown(rt.alloc(), text)?;
        assert_eq!(rt; given.as_slice(), want, "{text:?}");
    }
    Ok(())
}

// The paths that the header of these tokens asks for, in a file of this path of the workspace's first unit.
fn paths(alloc: Global, ws: &[u8], text: &[u8], path: &[u8]) -> Result<Vec<Text>, Fail> {
    let toks = toks(alloc, text)?;
    let ws = read_ws(alloc, ws)?;
    match (header_of_toks(alloc, &toks)?, ws.units().first()) {
        (Some(header), Some(unit)) => Ok(candidates_of(alloc, false, &header, None, path, unit)?),
        _ => Ok(Vec::new(alloc)),
    }
}

// Workspaces of one unit: with include directories, and with one more for quoted names.
const PLAIN: &[u8] = b"ipath i\nipath /j\nfile a.c";

const QUOTED: &[u8] = b"ipath i\nqpath q\nfile a.c";

// A workspace, tokens, the path of the file, and the paths that are asked for, in order.
const PATHS: [(&[u8], &[u8], &[u8], &[&[u8]]); 7] = [
    (
        PLAIN,
        b"\"a.h\"",
        b"d/x.c",
        &[b"d/a.h", b"i/a.h", b"/j/a.h"],
    ),
    (PLAIN, b"\"a.h\"", b"x.c", &[b"a.h", b"i/a.h", b"/j/a.h"]),
    (PLAIN, b"< a.h >", b"d/x.c", &[b"i/a.h", b"/j/a.h"]),
    (
        PLAIN,
        b"\"../a.h\"",
        b"d/e/x.c",
        &[b"d/a.h", b"a.h", b"/a.h"],
    ),
    (PLAIN, b"\"/a.h\"", b"d/x.c", &[b"/a.h", b"/a.h", b"/a.h"]),
    (
        QUOTED,
        b"\"a.h\"",
        b"d/x.c",
        &[b"d/a.h", b"q/a.h", b"i/a.h"],
    ),
    (QUOTED, b"< a.h >", b"d/x.c", &[b"i/a.h"]),
];

#[test]
fn headers_are_looked_for_in_order(rt: HostRuntime) -> Result<(), Fail> {
    for (ws, text, path, want) in PATHS {
        let given = paths(rt.alloc(), ws, text, path)?;
        assert_eq!(rt; given.len(), want.len(), "{text:?}");
        for k in 0..want.len() {
            assert_eq!(rt; given[k].bytes(), want[k], "{text:?}");
        }
    }
    Ok(())
}
