// Rows of workspace files, with what they say; the values were worked by hand and with another program.
use crate::rows::{cut, number};
use std::alloc::{AllocError, Global};
use std::test::Fail;
use ws_file::{WsRefusal, print_ws, read_ws};

// Workspace files, each with what it says.
const LINES: &str = "\
    $%\
    file a.c\n$project default\nfile a.c\n%\
    # c\n\n \t\r\nfile a.c$project default\nfile a.c\n%\
    \x20# x$%\
    readonly /usr/\nproject lib\nipath ./inc/\nipath /opt/x/../y\nipath .\ndefine  NDEBUG 1 \nundefine  linux\nfile src//lib/./a.c\nproject tool\nfile ../t/main.c\r\n$readonly /usr/\nproject lib\nipath inc\nipath /opt/y\nipath .\ndefine NDEBUG 1\nundefine linux\nfile src/lib/a.c\nproject tool\nfile ../t/main.c\n%\
    file a.c\nreadonly x$readonly x\nproject default\nfile a.c\n%\
    ipath i\ndefine A\nfile a.c\nfile b.c\nproject p\nfile a.c$project default\nipath i\ndefine A\nfile a.c\nproject default\nipath i\ndefine A\nfile b.c\nproject p\nfile a.c\n%\
    ipath ..\nipath ../../a/..\nipath /..\nipath //a/../b//\nfile a/../../b$project default\nipath ..\nipath ../..\nipath /\nipath /b\nfile ../b\n%\
    project\tp\nfile a$project p\nfile a\n%\
    file a.c # x$project default\nfile a.c # x\n%\
    file x/<y$project default\nfile x/<y\n%\
    file /$project default\nfile /\n%\
    file \u{e9}.c$project default\nfile \u{e9}.c\n%\
    ipath <x\ndefine _ 2$%\
    standard c11\nfile a.c$project default\nstandard c11\nfile a.c\n%\
    standard c99\nfile a.c$project default\nfile a.c\n%\
    standard\tc11 \nipath i\ndefine A\nfile a.c\nstandard c99\nfile a.c\nfile b.c$project default\nstandard c11\nipath i\ndefine A\nfile a.c\nproject default\nipath i\ndefine A\nfile a.c\nproject default\nipath i\ndefine A\nfile b.c\n%\
    standard c11\nproject p\nfile a.c\nstandard c11\nfile a.c\nfile b.c$project p\nfile a.c\nproject p\nstandard c11\nfile a.c\nproject p\nstandard c11\nfile b.c\n%\
    project p\nstandard c11\nreadonly r\nfile a.c$readonly r\nproject p\nstandard c11\nfile a.c\n%\
    include ./i//x.h\nipath j\nqpath k/../q\nqpath .\ninclude y z.h\ndefine A\nfile a.c\nproject p\nfile a.c$project default\nqpath q\nqpath .\nipath j\ndefine A\ninclude i/x.h\ninclude y z.h\nfile a.c\nproject p\nfile a.c\n";

// Files of some 2^22 bytes: how many follow the first, what stands behind them, and what the file says.
const SIZES: &str = "\
    4194303$$%\
    4194303$\n$%\
    4194304$$bad 1%\
    4194303$\n\n$bad 2%\
    4194302$\n\n$";

// Pseudo files of some 2^16 bytes: what a line begins with, how many letters follow, and whether it fits.
const SETTINGS: &str = "\
    define A$65389$fits%\
    define A$65390$bad 2%\
    undefine A$65390$fits%\
    undefine A$65391$bad 2%\
    include A$65386$fits%\
    include A$65387$bad 2";

// What follows 8,192 units, and what is refused.
const BEHIND: &str = "\
    file a$many 8193%\
    file <$bad 8193%\
    file a\nbad$many 8193%\
    bad\nfile a$bad 8193";

// What a file says: its workspace as it is printed, or the line that is refused.
fn shown(alloc: Global, file: &[u8]) -> Result<Vec<u8>, Fail> {
    match read_ws(alloc, file) {
        Ok(ws) => Ok(print_ws(alloc, &ws)?),
        Err(WsRefusal::BadLine { line }) => Ok(format!(in alloc; "bad {line}")?.into_bytes()),
        Err(WsRefusal::TooManyUnits { line }) => Ok(format!(in alloc; "many {line}")?.into_bytes()),
        Err(WsRefusal::Memory) => Err(AllocError)?,
    }
}

// The byte as often as said, behind a front.
fn filled(alloc: Global, front: &str, byte: u8, count: usize) -> Result<Vec<u8>, AllocError> {
    let mut text = Vec::from_slice(alloc, front.as_bytes())?;
    for _ in 0..count {
        text.push(byte)?;
    }
    Ok(text)
}

#[test]
fn each_line_says_what_it_may(rt: HostRuntime) -> Result<(), Fail> {
    let alloc = rt.alloc();
    for row in LINES.split('%') {
        let (file, want) = cut(row);
        let text = shown(alloc, file.as_bytes())?;
        assert_eq!(rt; text.as_slice(), want.as_bytes(), "{file:?}");
        let again = shown(alloc, text.as_slice())?;
        assert_eq!(rt; again.as_slice(), want.as_bytes(), "{file:?}, printed");
    }
    Ok(())
}

// What a file says that has the byte as often as said, behind a front and before an end.
fn told(alloc: Global, front: &str, byte: u8, count: &str, end: &str) -> Result<Vec<u8>, Fail> {
    let mut file = filled(alloc, front, byte, number(count) as usize)?;
    file.extend_from_slice(end.as_bytes())?;
    shown(alloc, file.as_slice())
}

#[test]
fn a_file_has_two_to_the_22_bytes_at_most(rt: HostRuntime) -> Result<(), Fail> {
    let alloc = rt.alloc();
    for row in SIZES.split('%') {
        let (count, rest) = cut(row);
        let (end, want) = cut(rest);
        let text = told(alloc, "#", b'-', count, end)?;
        assert_eq!(rt; text.as_slice(), want.as_bytes(), "{row:?}");
    }
    Ok(())
}

#[test]
fn a_pseudo_file_has_two_to_the_16_bytes_at_most(rt: HostRuntime) -> Result<(), Fail> {
    let alloc = rt.alloc();
    for row in SETTINGS.split('%') {
        let (front, rest) = cut(row);
        let (count, want) = cut(rest);
        let text = told(alloc, front, b'A', count, "\nfile a.c")?;
        let answer = if text.as_slice() == b"bad 2".as_slice() {
            "bad 2"
        } else {
            "fits"
        };
        assert_eq!(rt; answer, want, "{row:?}");
    }
    Ok(())
}

// A file of 8,192 units.
fn many(alloc: Global) -> Result<Vec<u8>, AllocError> {
    let mut file = Vec::new(alloc);
    for _ in 0..8192 {
        file.extend_from_slice(b"file a\n")?;
    }
    Ok(file)
}

#[test]
fn there_are_8192_units_at_most(rt: HostRuntime) -> Result<(), Fail> {
    let alloc = rt.alloc();
    let file = many(alloc)?;
    let ws = read_ws(alloc, file.as_slice())?;
    let copy = ws.copy(alloc)?;
    assert_eq!(rt; copy.units().len(), 8192);
    Ok(())
}

// What is told where this follows 8,192 units.
fn told_behind(alloc: Global, end: &str) -> Result<Vec<u8>, Fail> {
    let mut file = many(alloc)?;
    file.extend_from_slice(end.as_bytes())?;
    shown(alloc, file.as_slice())
}

#[test]
fn a_unit_behind_8192_is_named(rt: HostRuntime) -> Result<(), Fail> {
    let alloc = rt.alloc();
    for row in BEHIND.split('%') {
        let (end, want) = cut(row);
        let text = told_behind(alloc, end)?;
        assert_eq!(rt; text.as_slice(), want.as_bytes(), "{end:?}");
    }
    Ok(())
}

#[test]
fn a_copy_is_printed_alike(rt: HostRuntime) -> Result<(), Fail> {
    let alloc = rt.alloc();
    let ws = read_ws(
        alloc,
        b"readonly r\ndefine A 1\nundefine B\nipath .\nqpath q\ninclude b.h\nfile a.c\nstandard c11\nfile a.c",
    )?;
    let copy = ws.copy(alloc)?;
    let text = print_ws(alloc, &copy)?;
    let want =
        "readonly r\nproject default\nqpath q\nipath .\ndefine A 1\nundefine B\ninclude b.h\nfile a.c\nproject default\nstandard c11\nqpath q\nipath .\ndefine A 1\nundefine B\ninclude b.h\nfile a.c\n";
    assert_eq!(rt; text.as_slice(), want.as_bytes());
    Ok(())
}
