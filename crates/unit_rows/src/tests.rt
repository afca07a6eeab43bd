// Whole units over files in memory, with ample memory: what is put out, or why nothing is.
use cs_base::{Cause, MemFiles, Memory, Place, Standard, Text, Tok, Unit};
use include_tree::{Cache, PreFault, UnitText, preprocess};
use row_tools::held;
use std::alloc::{AllocError, Global};
use std::test::Fail;

// Files, the number of the read that fails, and what the unit of `a.c` gives.
const ROWS: [(&str, u32, &str); 9] = [
    (
        "a.c:#include \"b.h\"\nint x;\n@b.h:int y;\n",
        0,
        "int y; int x;",
    ),
    ("a.c:#if 0\nx\n#error\n#else\ny\n#endif\n", 0, "y"),
    ("a.c:#define F(a) a+a\nF(1)\n", 0, "1+1"),
    (
        "a.c:#ifdef __STDC__\n__LINE__ __FILE__\n#endif\n",
        0,
        "2 \"a.c\"",
    ),
    ("a.c:x\n  #error no\n", 0, "a.c:2:3 ErrorDirective"),
    ("a.c:\n#include <no.h>\n", 0, "a.c:2:1 MissingFile"),
    ("b.c:", 0, "a.c:1:1 MissingFile"),
    (
        "a.c:#include \"b.h\"\n@b.h:\n /* x",
        0,
        "b.h:2:2 OpenComment",
    ),
    ("a.c:#include \"b.h\"\n@b.h:", 2, "unread b.h"),
];

// The unit of `a.c`, without include directories and settings.
fn unit(alloc: Global) -> Result<Unit, Memory> {
    let project = Text::new(alloc, b"p")?;
    let path = Text::new(alloc, b"a.c")?;
    Ok(Unit::new(
        project,
        path,
        Vec::new(alloc),
        Vec::new(alloc),
        Vec::new(alloc),
        Vec::new(alloc),
        Standard::C99,
    ))
}

// What it gives with nothing carried.
fn preprocessed(alloc: Global, files: &mut MemFiles) -> Result<UnitText, PreFault> {
    let unit = unit(alloc)?;
    let mut cache = Cache::new(alloc)?;
    preprocess(alloc, &mut cache, files, &unit, 0)
}

// Tokens, with a blank where white space stands before one.
fn shown_toks(alloc: Global, toks: &[Tok]) -> Result<Vec<u8>, Memory> {
    let mut shown = Vec::new(alloc);
    for tok in toks {
        if tok.gap() && !shown.is_empty() {
            shown.push(b' ')?;
        }
        shown.extend_from_slice(tok.text())?;
    }
    Ok(shown)
}

fn shown_fault(alloc: Global, place: &Place, cause: Cause) -> Result<Vec<u8>, AllocError> {
    let line = place.line;
    let column = place.column;
    let mut shown = Vec::from_slice(alloc, place.path.bytes())?;
    let rest = format!(in alloc; ":{line}:{column} {cause:?}")?;
    shown.extend_from_slice(rest.as_bytes())?;
    Ok(shown)
}

fn shown_unread(alloc: Global, path: &[u8]) -> Result<Vec<u8>, AllocError> {
    let mut shown = Vec::from_slice(alloc, b"unread ")?;
    shown.extend_from_slice(path)?;
    Ok(shown)
}

// What the unit gives, as the rows show it.
fn shown(alloc: Global, files: &mut MemFiles) -> Result<Vec<u8>, Fail> {
    match preprocessed(alloc, files) {
        Ok(text) => Ok(shown_toks(alloc, text.toks())?),
        Err(PreFault::Fault { place, cause }) => Ok(shown_fault(alloc, &place, cause)?),
        Err(PreFault::ReadFault { path }) => Ok(shown_unread(alloc, path.bytes())?),
        Err(PreFault::Memory) => Err(AllocError)?,
    }
}

#[test]
fn whole_units_give_what_the_rows_say(rt: HostRuntime) -> Result<(), Fail> {
    let alloc = rt.alloc();
    for (text, failing, want) in ROWS {
        let mut files = held(alloc, text)?;
        if failing > 0 {
            files.fail_at(failing)?;
        }
        let given = shown(alloc, &mut files)?;
        assert_eq!(rt; given.as_slice(), want.as_bytes(), "{text:?}");
    }
    Ok(())
}
