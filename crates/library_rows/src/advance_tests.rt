// Analyses that go on with the files behind a renaming, beside new analyses of these files: the classes that are asked for
// are those worked by hand, and they, the files, the tokens and the events of units are alike in both.
ghost use Rattle.std.specs.Prelude.{◌≡◌, IfOk, Ok, Some};
ghost use Rattle.analysis.specs.Analysis.{analysis_of};
ghost use Rattle.analysis.specs.Below.source_files.Files.{Source};
ghost use Rattle.analysis.specs.Naming.{Names};

use analysis::{Analysis, Event, UnitText, analyse_within};
use cs_base::{Link, Part, Pos, Tok};
use kept_analysis::advance;
use rename_plan::plan_rename;
use std::alloc::{AllocError, Global};
use std::test::Fail;
use ws_file::read_ws;

// A row: what it is about; a workspace file; the files that are held, each as `PATH:TEXT` with `@` between them; the place of
// the renaming; the new name; the files behind it; the places that are asked for there, one a line; and of each the
// members of the class of the part that it names, if it names one.
const ROWS: &str = "A part behind a longer name, in its file.
$file a.c
$a.c:int a; int b; int d;$a.c 1 5$alpha$a.c:int alpha; int b; int d;$a.c 1 16
a.c 1 23
a.c 1 5
a.c 1 26
$ a.c:1:16 b
 a.c:1:23 d
 a.c:1:5 alpha

%
A name that is pasted: its first part alone is renamed, and what stands behind it moves.
$file a.c
$a.c:#define F(x) x##_f
int a_f;
int b = F(a);$a.c 3 11$count$a.c:#define F(x) x##_f
int count_f;
int b = F(count);$a.c 2 5
a.c 2 10
a.c 3 11
a.c 3 5
$ a.c:2:5 count a.c:3:11 count
 a.c:1:17 _f a.c:2:10 _f
 a.c:2:5 count a.c:3:11 count
 a.c:3:5 b
%
A header that two units include, and a use in one of them: each file moves by its own members.
$file a.c
file b.c
$h.h:extern int n; extern int m;
@a.c:#include \"h.h\"
int n; int m;
@b.c:#include \"h.h\"
int f(void) { return n + m; }
$b.c 2 22$total$h.h:extern int total; extern int m;
@a.c:#include \"h.h\"
int total; int m;
@b.c:#include \"h.h\"
int f(void) { return total + m; }
$h.h 1 12
h.h 1 30
a.c 2 16
b.c 2 30
$ a.c:2:5 total b.c:2:22 total h.h:1:12 total
 a.c:2:16 m b.c:2:30 m h.h:1:30 m
 a.c:2:16 m b.c:2:30 m h.h:1:30 m
 a.c:2:16 m b.c:2:30 m h.h:1:30 m
%
A macro with a shorter name: its definition, its uses and what stands behind them move.
$file a.c
$a.c:#define LONG_ONE n
int n;
int k = LONG_ONE, j = LONG_ONE;
#ifdef LONG_ONE
#undef LONG_ONE
#endif
$a.c 3 9$M$a.c:#define M n
int n;
int k = M, j = M;
#ifdef M
#undef M
#endif
$a.c 1 11
a.c 3 12
a.c 4 8
$ a.c:1:11 n a.c:2:5 n
 a.c:3:12 j
 a.c:1:9 M a.c:3:9 M a.c:3:16 M a.c:4:8 M a.c:5:8 M
%
A name that a macro makes a string of.
$file a.c
$a.c:#define S(v) put(#v, v)
int put(char *s, int n);
int c; int r(void) { return S(c); }
$a.c 3 5$count$a.c:#define S(v) put(#v, v)
int put(char *s, int n);
int count; int r(void) { return S(count); }
$a.c 3 35
a.c 3 16
$ a.c:3:5 count a.c:3:35 count
 a.c:3:16 r
%
A name that is spliced over two lines stands on one.
$file a.c
$a.c:int na\\
me; int b;
int k = sizeof name;
$a.c 1 5$n$a.c:int n\\
; int b;
int k = sizeof n;
$a.c 2 7
a.c 3 16
$ a.c:2:7 b
 a.c:1:5 n a.c:3:16 n
";

fn analysed(alloc: Global, ws: &str, files: &str) -> Result<Analysis, Fail>
    ensures { IfOk result (λ a. (source : Source) × (analysis_of source a.value.workspace ≡ Ok a.value)) }
{
    let Ok(ws) = read_ws(alloc, ws.as_bytes()) else {
        return Err(AllocError)?;
    };
    let mut files = row_tools::held(alloc, files)?;
    match analyse_within(alloc, &ws, &mut files, 0) {
        Ok(analysis) => Ok(analysis),
        Err(_) => Err(AllocError)?,
    }
}

// The analysis of the files behind a renaming, against which nothing stands.
fn advanced(
    alloc: Global,
    a: Analysis,
    path: &str,
    line: u32,
    column: u32,
    name: &[u8],
) -> Result<Analysis, Fail>
    requires { (source : Source) × (analysis_of source a.value.workspace ≡ Ok a.value) }
{
    match a.part_at(path, line, column) {
        Some(part) => planned(alloc, a, part, path, line, column, name),
        None => Err(AllocError)?,
    }
}

// The same of the part that the place names.
fn planned(
    alloc: Global,
    a: Analysis,
    part: Part,
    path: &str,
    line: u32,
    column: u32,
    name: &[u8],
) -> Result<Analysis, Fail>
    requires accepted { (source : Source) × (analysis_of source a.value.workspace ≡ Ok a.value) }
    requires named { Names a.value path.now line column (Some part) }
{
    match plan_rename(alloc, &a, path, line, column, name, true) {
        Ok(_) => Ok(advance(alloc, a, part, name)?),
        Err(_) => Err(AllocError)?,
    }
}

// ---- what is shown of an analysis

fn show_pos(out: &mut Vec<u8>, alloc: Global, pos: Option<Pos>) -> Result<(), AllocError> {
    if let Some(pos) = pos {
        let (file, at) = (pos.file, pos.at);
        out.extend_from_slice(format!(in alloc; " {file}.{at}")?.as_bytes())?;
    }
    Ok(())
}

// The spelling of a token, its place, and the origins of its first characters.
fn show_tok(out: &mut Vec<u8>, alloc: Global, tok: &Tok) -> Result<(), AllocError> {
    out.extend_from_slice(tok.text())?;
    show_pos(out, alloc, Some(tok.at()))?;
    for k in 0..12 {
        show_pos(out, alloc, tok.origins(k))?;
    }
    out.push(b'\n')?;
    Ok(())
}

fn show_toks(out: &mut Vec<u8>, alloc: Global, toks: &[Tok]) -> Result<(), AllocError> {
    for tok in toks {
        show_tok(out, alloc, tok)?;
    }
    out.push(b'%')?;
    Ok(())
}

fn show_links(out: &mut Vec<u8>, alloc: Global, links: &[Link]) -> Result<(), AllocError> {
    for link in links {
        show_tok(out, alloc, &link.x)?;
        show_tok(out, alloc, &link.y)?;
    }
    Ok(())
}

fn show_events(out: &mut Vec<u8>, alloc: Global, events: &[Event]) -> Result<(), AllocError> {
    for event in events {
        show_pos(out, alloc, Some(event.at))?;
        show_pos(out, alloc, event.def)?;
    }
    Ok(())
}

// The tokens of a unit, with those that are pasted, that make strings, and that links link, and its events.
fn show_unit(out: &mut Vec<u8>, alloc: Global, text: &UnitText) -> Result<(), AllocError> {
    show_toks(out, alloc, text.toks())?;
    show_toks(out, alloc, text.pasted())?;
    show_toks(out, alloc, text.stringized())?;
    show_links(out, alloc, text.links())?;
    show_events(out, alloc, text.events())
}

fn show_files(out: &mut Vec<u8>, a: &Analysis) -> Result<(), AllocError> {
    for number in 0..a.files() {
        if let Some(file) = a.file(number) {
            out.extend_from_slice(file.bytes())?;
        }
    }
    Ok(())
}

fn show_units(out: &mut Vec<u8>, alloc: Global, a: &Analysis) -> Result<(), AllocError> {
    for unit in 0..a.units() {
        let Ok(one) = a.unit(alloc, unit + 1) else {
            return Err(AllocError);
        };
        show_unit(out, alloc, one.text())?;
    }
    Ok(())
}

fn show_place(out: &mut Vec<u8>, alloc: Global, a: &Analysis, pos: Pos) -> Result<(), AllocError> {
    let (path, line, column) = a.place(pos);
    out.push(b' ')?;
    out.extend_from_slice(path)?;
    out.extend_from_slice(format!(in alloc; ":{line}:{column} ")?.as_bytes())?;
    Ok(())
}

// The members of the class of the part that a place names, each with its place and its spelling.
fn show_class(
    out: &mut Vec<u8>,
    alloc: Global,
    a: &Analysis,
    asked: (&str, u32, u32),
) -> Result<(), AllocError> {
    let (path, line, column) = asked;
    if let Some(part) = a.part_at(path, line, column) {
        let members = a.members(part);
        for k in 0..members.len() {
            show_place(out, alloc, a, members[k].start)?;
            out.extend_from_slice(a.spelling(members[k]))?;
        }
    }
    out.push(b'\n')?;
    Ok(())
}

fn show_classes(
    out: &mut Vec<u8>,
    alloc: Global,
    a: &Analysis,
    asked: &str,
) -> Result<(), AllocError> {
    for line in asked.split('\n') {
        if let Some(asked) = place(line) {
            show_class(out, alloc, a, asked)?;
        }
    }
    Ok(())
}

// The classes that are asked for, the files and the units.
fn shown(alloc: Global, a: &Analysis, asked: &str) -> Result<Vec<u8>, AllocError> {
    let mut out = Vec::new(alloc);
    show_classes(&mut out, alloc, a, asked)?;
    show_files(&mut out, a)?;
    show_units(&mut out, alloc, a)?;
    Ok(out)
}

// ---- rows

// The first field of what is left of a row, and what is left behind it.
fn cut(row: &str) -> (&str, &str) {
    row.split_once('$').unwrap_or((row, ""))
}

fn number(word: &str) -> u32 {
    word.parse::<u32>().unwrap_or(0)
}

// The place on a line of a path, a line and a column with a blank between every two.
fn place(line: &str) -> Option<(&str, u32, u32)> {
    let (path, rest) = line.split_once(' ')?;
    let (line, column) = rest.split_once(' ')?;
    Some((path, number(line), number(column)))
}

// What is shown of the analysis that goes on with the files behind a renaming.
fn shown_behind(
    alloc: Global,
    ws: &str,
    files: &str,
    renaming: (&str, &str),
    asked: &str,
) -> Result<Vec<u8>, Fail> {
    let (at, name) = renaming;
    let Some((path, line, column)) = place(at) else {
        return Err(AllocError)?;
    };
    let a = analysed(alloc, ws, files)?;
    let a = advanced(alloc, a, path, line, column, name.as_bytes())?;
    Ok(shown(alloc, &a, asked)?)
}

fn shown_anew(alloc: Global, ws: &str, files: &str, asked: &str) -> Result<Vec<u8>, Fail> {
    let a = analysed(alloc, ws, files)?;
    Ok(shown(alloc, &a, asked)?)
}

#[test]
fn an_analysis_goes_on_with_its_files(rt: HostRuntime) -> Result<(), Fail> {
    let alloc = rt.alloc();
    for row in ROWS.split('%') {
        let (about, row) = cut(row);
        let (ws, row) = cut(row);
        let (files, row) = cut(row);
        let (at, row) = cut(row);
        let (name, row) = cut(row);
        let (behind, row) = cut(row);
        let (asked, want) = cut(row);
        let kept = shown_behind(alloc, ws, files, (at, name), asked)?;
        let anew = shown_anew(alloc, ws, behind, asked)?;
        assert_eq!(rt; kept.as_slice(), anew.as_slice(), "{about}");
        assert!(rt; kept.as_slice().starts_with(want.as_bytes()), "{about}");
    }
    Ok(())
}
