// The file tokens of small workspaces, worked by hand.
use crate::rows::cut;
use crate::workspaces::workspace;
use analysis::{Analysis, analyse};
use cs_base::{MemFiles, Pos};
use std::alloc::{AllocError, Global};
use std::test::Fail;

// A row: the text of the file of the only unit; the numbers that it brings, each with its character; and where the parts
// of the pseudo file of lines and those of the file begin, each with its length.
const ROWS: &str = "Two numbers of one line, and one of another.
$int a = __LINE__ + __LINE__;
int b = __LINE__;
$ 1@8 2@16
$ 8+1 16+1
$ 0+3 4+1 8+8 19+8 29+3 33+1 37+8
%
What stands for an operand of `defined` that is no macro.
$#if defined N || 1
int c;
#endif
$ 0@0
$ 0+1
$ 1+2 4+7 12+1 17+1 19+3 23+1 27+5
%
What stands for one that is a macro stands where the number of line 1 does.
$int a = __LINE__;
#define N
#if defined N
int c = __LINE__;
#endif
$ 1@8 4@32
$ 8+1 32+1
$ 0+3 4+1 8+8 19+6 26+1 29+2 32+7 40+1 42+3 46+1 50+8 61+5
%
A line with two digits, and none for a line that is left out.
$








int a = __LINE__;
#ifdef N
int b = __LINE__;
#endif
$ 10@80
$ 80+2
$ 9+3 13+1 17+8 28+5 34+1 36+3 40+1 44+8 55+5
";

// The analysis of the workspace whose only unit has this file.
fn analysis_of(alloc: Global, text: &str) -> Result<Analysis, Fail> {
    let ws = workspace(alloc, "file a.c\n")?;
    let mut files = MemFiles::new(alloc);
    files.add("a.c", text.as_bytes())?;
    match analyse(alloc, &ws, &mut files) {
        Ok(a) => Ok(a),
        Err(_) => Err(AllocError)?,
    }
}

// The parts of the pseudo file of lines that begin among its first characters, each with its spelling and its place.
fn show_numbers(alloc: Global, a: &Analysis) -> Result<Vec<u8>, AllocError> {
    let mut out = Vec::new(alloc);
    for at in 0..100 {
        if let Some(part) = a.part_of(Pos { file: 0, at }) {
            if part.start.at == at {
                out.push(b' ')?;
                out.extend_from_slice(a.spelling(part))?;
                out.extend_from_slice(format!(in alloc; "@{at}")?.as_bytes())?;
            }
        }
    }
    out.push(b'\n')?;
    Ok(out)
}

// The number of the file with the path.
fn number_of(a: &Analysis, path: &[u8]) -> u32 {
    for number in 0..a.files() {
        if let Some(file) = a.file(number) {
            if file.path() == path {
                return number;
            }
        }
    }
    0
}

// The parts that begin among the first characters of a file.
fn show_parts(alloc: Global, a: &Analysis, file: u32) -> Result<Vec<u8>, AllocError> {
    let mut out = Vec::new(alloc);
    for at in 0..100 {
        if let Some(part) = a.part_of(Pos { file, at }) {
            if part.start.at == at {
                let len = part.len;
                out.extend_from_slice(format!(in alloc; " {at}+{len}")?.as_bytes())?;
            }
        }
    }
    out.push(b'\n')?;
    Ok(out)
}

#[test]
fn each_place_has_one_number(rt: HostRuntime) -> Result<(), Fail> {
    let alloc = rt.alloc();
    for row in ROWS.split('%') {
        let (about, row) = cut(row);
        let (text, row) = cut(row);
        let (numbers, _) = cut(row);
        let a = analysis_of(alloc, text)?;
        let shown = show_numbers(alloc, &a)?;
        assert_eq!(rt; shown.as_slice(), numbers.as_bytes(), "{about}");
    }
    Ok(())
}

#[test]
fn each_file_token_is_a_part(rt: HostRuntime) -> Result<(), Fail> {
    let alloc = rt.alloc();
    for row in ROWS.split('%') {
        let (about, row) = cut(row);
        let (text, row) = cut(row);
        let (_, row) = cut(row);
        let (lines, tokens) = cut(row);
        let a = analysis_of(alloc, text)?;
        let first = show_parts(alloc, &a, 0)?;
        let second = show_parts(alloc, &a, number_of(&a, b"a.c"))?;
        assert_eq!(rt; first.as_slice(), lines.as_bytes(), "{about}");
        assert_eq!(rt; second.as_slice(), tokens.as_bytes(), "{about}");
    }
    Ok(())
}
