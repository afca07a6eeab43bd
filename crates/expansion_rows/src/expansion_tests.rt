// What texts expand to, by the rows of `expansion_rows`.
use crate::expansion_texts::expanded;
use crate::fault_rows::{FAULTS, NOTES, PLENTY};
use crate::operator_rows::OPERATORS;
use crate::standard_rows::{COUNTED, EXAMPLES, REPLACED, Row};
use cs_base::{Memory, Pos, Tok};
use itoa::Buffer;
use macro_expand::{ExpandFault, Notes, Work};
use std::alloc::Global;
use std::process::Abort;
use std::test::Fail;

const PATH: &[u8] = b"d/a\\b\"c.c";

// Tokens, with a blank where white space stands before one.
fn shown_toks(alloc: Global, toks: &[Tok]) -> Result<Vec<u8>, Memory> {
    let mut shown = Vec::new(alloc);
    for tok in toks {
        if tok.gap() && !shown.is_empty() {
            shown.push(b' ')?;
        }
        shown.extend_from_slice(tok.text())?;
    }
    Ok(shown)
}

fn push_number(shown: &mut Vec<u8>, mark: u8, n: u32) -> Result<(), Memory> {
    shown.push(mark)?;
    shown.extend_from_slice(Buffer::new().format(n).as_bytes())?;
    Ok(())
}

// Adds a token and a position; a blank stands between two of them.
fn push_placed(shown: &mut Vec<u8>, tok: &Tok, at: Option<Pos>) -> Result<(), Memory> {
    match shown.last() {
        None | Some(b'|') => {}
        _ => shown.push(b' ')?,
    }
    shown.extend_from_slice(tok.text())?;
    push_place(shown, b'@', at)
}

fn push_place(shown: &mut Vec<u8>, mark: u8, at: Option<Pos>) -> Result<(), Memory> {
    match at {
        Some(pos) => push_number(shown, mark, pos.at),
        None => {
            shown.extend_from_slice(&[mark, b'-'])?;
            Ok(())
        }
    }
}

// What happened, in the form of the rows.
fn shown_notes(alloc: Global, notes: &Notes) -> Result<Vec<u8>, Memory> {
    let mut shown = Vec::new(alloc);
    for replaced in notes.replaced() {
        push_placed(&mut shown, &replaced.name, Some(replaced.name.at()))?;
        push_place(&mut shown, b'=', replaced.def)?;
        push_number(&mut shown, b'/', replaced.before)?;
    }
    shown.push(b'|')?;
    for link in notes.links() {
        push_placed(&mut shown, &link.x, link.x.origins(0))?;
        push_place(&mut shown, b'~', link.y.origins(0))?;
    }
    shown.push(b'|')?;
    for tok in notes.pasted() {
        push_placed(&mut shown, tok, Some(tok.at()))?;
    }
    shown.push(b'|')?;
    for tok in notes.stringized() {
        push_placed(&mut shown, tok, Some(tok.at()))?;
    }
    Ok(shown)
}

// So much work, where no number of the unit was brought.
fn working(left: u32) -> Work {
    Work { left, counter: 0 }
}

// The name of a fault, and the character where it stands.
fn told(fault: ExpandFault) -> (&'static [u8], u32) {
    match fault {
        ExpandFault::OpenCall { at } => (b"open call", at.at),
        ExpandFault::WrongArguments { at } => (b"wrong arguments", at.at),
        ExpandFault::NotOneToken { at } => (b"not one token", at.at),
        ExpandFault::NotAString { at } => (b"not a string", at.at),
        ExpandFault::TooMuchWork { at } => (b"too much work", at.at),
        ExpandFault::TooDeep { at } => (b"too deep", at.at),
        ExpandFault::Memory => (b"out of memory", 0),
    }
}

fn check_rows(rt: &impl Abort, alloc: Global, table: &str, rows: &[Row]) -> Result<(), Fail> {
    for (k, (text, expected)) in rows.iter().enumerate() {
        let mut work = working(PLENTY);
        let toks = expanded(alloc, PATH, text, &mut work, &mut Notes::new(alloc))?;
        assert!(rt;
            shown_toks(alloc, &toks)?.as_slice() == *expected,
            "{table}, number {k}"
        );
    }
    Ok(())
}

#[test]
fn texts_expand_as_the_standard_says(rt: HostRuntime) -> Result<(), Fail> {
    check_rows(&rt, rt.alloc(), "EXAMPLES", &EXAMPLES)?;
    check_rows(&rt, rt.alloc(), "REPLACED", &REPLACED)?;
    check_rows(&rt, rt.alloc(), "OPERATORS", &OPERATORS)
}

#[test]
fn numbers_of_the_unit_rise(rt: HostRuntime) -> Result<(), Fail> {
    check_rows(&rt, rt.alloc(), "COUNTED", &COUNTED)
}

#[test]
fn the_first_fault_stands_at_the_name(rt: HostRuntime) -> Result<(), Fail> {
    for (k, (text, left, name, at)) in FAULTS.iter().enumerate() {
        let mut work = working(*left);
        match expanded(
            rt.alloc(),
            PATH,
            text,
            &mut work,
            &mut Notes::new(rt.alloc()),
        ) {
            Ok(_) => assert!(rt; false, "FAULTS, number {k}"),
            Err(fault) => assert!(rt; told(fault) == (*name, *at), "FAULTS, number {k}"),
        }
    }
    Ok(())
}

#[test]
fn what_happens_is_kept(rt: HostRuntime) -> Result<(), Fail> {
    for (k, (text, expected, left)) in NOTES.iter().enumerate() {
        let mut work = working(PLENTY);
        let mut notes = Notes::new(rt.alloc());
        let _toks = expanded(rt.alloc(), PATH, text, &mut work, &mut notes)?;
        assert!(rt;
            shown_notes(rt.alloc(), &notes)?.as_slice() == *expected,
            "NOTES, number {k}"
        );
        assert_eq!(rt; work.left, *left, "NOTES, number {k}");
    }
    Ok(())
}

// Calls of a macro, so many inside one another.
fn nested(alloc: Global, depth: usize) -> Result<Vec<u8>, Memory> {
    let mut text = Vec::from_slice(alloc, b"#define f(x) x\n")?;
    for _call in 0..depth {
        text.extend_from_slice(b"f(")?;
    }
    text.push(b'1')?;
    for _call in 0..depth {
        text.push(b')')?;
    }
    Ok(text)
}

#[test]
fn arguments_expand_two_hundred_deep(rt: HostRuntime) -> Result<(), Fail> {
    let deepest = nested(rt.alloc(), 200)?;
    let mut work = working(PLENTY);
    let toks = expanded(
        rt.alloc(),
        PATH,
        &deepest,
        &mut work,
        &mut Notes::new(rt.alloc()),
    )?;
    assert_eq!(rt; shown_toks(rt.alloc(), &toks)?.as_slice(), b"1".as_slice());
    let deeper = nested(rt.alloc(), 201)?;
    match expanded(
        rt.alloc(),
        PATH,
        &deeper,
        &mut work,
        &mut Notes::new(rt.alloc()),
    ) {
        Ok(_) => assert!(rt; false),
        Err(fault) => assert!(rt; told(fault) == (b"too deep".as_slice(), 415)),
    }
    Ok(())
}
