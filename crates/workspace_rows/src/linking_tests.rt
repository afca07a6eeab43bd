// The classes of small workspaces, worked by hand.
use crate::rows::cut;
use crate::workspaces::analysed;
use analysis::Analysis;
use cs_base::{Part, Pos};
use eclass_map::Classes;
use std::alloc::{AllocError, Global};
use std::test::Fail;

// A row: a workspace file; the files that are held, each as `PATH:TEXT` with `@` between them; and each part whose class
// has a part before it, with the first of these.
const ROWS: &str = "A name, and the same name in a scope of its own.
$file a.c
$a.c:int a;
int f(void) { return a; }
int g(int a) { return a; }
$ a.c:28+1=a.c:4 a.c:55+1=a.c:43
%
The name of a macro, and a name that it brings.
$file a.c
$a.c:#define M x
int x;
int y = M;
$ a.c:16+1=a.c:10 a.c:27+1=a.c:8
%
A pasted name cuts the declared one.
$file a.c
$a.c:#define P(a) a##b
int xb;
int c = P(x);
$ a.c:13+1=a.c:10 a.c:23+1=a.c:16 a.c:34+1=a.c:8 a.c:36+1=a.c:22
%
Names of external linkage are one in a project, and others are not.
$project p
file a.c
file b.c
project q
file c.c
file d.c
$a.c:int g;
static int s;
@b.c:extern int g;
static int s;
@c.c:int g;
@d.c:extern int g;
$ b.c:11+1=a.c:4 d.c:11+1=c.c:4
%
A header of two units.
$file a.c
file b.c
$h.h:static int h;
@a.c:#include \"h.h\"
int a = sizeof h;
@b.c:#include \"h.h\"
int b = sizeof h;
$ h.h:11+1=a.c:30 b.c:30+1=a.c:30
%
Names of directives and conditions.
$file a.c
$a.c:#ifndef A
#define A 1
#endif
#if A && defined A
#undef A
#endif
$ a.c:18+1=a.c:8 a.c:33+1=a.c:8 a.c:46+1=a.c:8 a.c:55+1=a.c:8
";

// The part that begins at a place, and its class number.
fn part_from(classes: &Classes, start: Pos) -> Option<(Part, u32)> {
    match classes.part_at(start) {
        Some(part) => {
            if part.start.at == start.at {
                classes.class_of(part).map(|class| (part, class))
            } else {
                None
            }
        }
        None => None,
    }
}

// The path of a file, and a character of it.
fn show_place(alloc: Global, a: &Analysis, pos: Pos) -> Result<Vec<u8>, AllocError> {
    let mut out = Vec::new(alloc);
    if let Some(file) = a.file(pos.file) {
        out.extend_from_slice(file.path())?;
    }
    let at = pos.at;
    out.extend_from_slice(format!(in alloc; ":{at}")?.as_bytes())?;
    Ok(out)
}

// Where the first part of the class stands, if one was met.
fn first_of(firsts: &[(Pos, u32)], class: u32) -> Option<Pos> {
    for (pos, number) in firsts {
        if *number == class {
            return Some(*pos);
        }
    }
    None
}

// Shows the part that begins at a place, where its class has one before it; else keeps where the class begins.
fn show_part(
    out: &mut Vec<u8>,
    firsts: &mut Vec<(Pos, u32)>,
    alloc: Global,
    a: &Analysis,
    start: Pos,
) -> Result<(), AllocError> {
    if let Some((part, class)) = part_from(a.classes(), start) {
        match first_of(firsts, class) {
            Some(first) => {
                let len = part.len;
                out.push(b' ')?;
                out.extend_from_slice(show_place(alloc, a, start)?.as_slice())?;
                out.extend_from_slice(format!(in alloc; "+{len}=")?.as_bytes())?;
                out.extend_from_slice(show_place(alloc, a, first)?.as_slice())?;
            }
            None => firsts.push((start, class))?,
        }
    }
    Ok(())
}

fn show_classes(alloc: Global, a: &Analysis) -> Result<Vec<u8>, AllocError> {
    let mut out = Vec::new(alloc);
    let mut firsts: Vec<(Pos, u32)> = Vec::new(alloc);
    for file in 1..a.files() {
        for at in 0..100 {
            show_part(&mut out, &mut firsts, alloc, a, Pos { file, at })?;
        }
    }
    out.push(b'\n')?;
    Ok(out)
}

#[test]
fn linked_names_are_of_one_class(rt: HostRuntime) -> Result<(), Fail> {
    let alloc = rt.alloc();
    for row in ROWS.split('%') {
        let (about, row) = cut(row);
        let (ws, row) = cut(row);
        let (files, want) = cut(row);
        for room in [1000, 0] {
            let a = analysed(alloc, ws, files, room)?;
            let shown = show_classes(alloc, &a)?;
            assert_eq!(rt; shown.as_slice(), want.as_bytes(), "{about}");
        }
    }
    Ok(())
}
