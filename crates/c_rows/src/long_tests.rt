// Texts that are long and not deep, read and bound in the stack of a test.
use crate::refusals::unbound;
use c99_read::{Dialect, Edition, read};
use lexer::lex;
use scope_bind::bind;
use std::alloc::Global;
use std::test::Fail;

// What stands in front, what is repeated, and what stands behind; and how many names are bound.
type Row = (&'static str, &'static str, &'static str, usize);

const DECLARATORS: [Row; 3] = [
    ("int ", "* ", "x ;", 1),
    ("int x ", "[ ] ", ";", 1),
    ("int x = ( int ", "* ", ") 0 ;", 1),
];

const SPECIFIERS: [Row; 2] = [("", "const ", "int x ;", 1), ("", "long ", "x ;", 1)];

const LISTS: [Row; 3] = [
    ("int f ( ) ; int x = f ( 0 ", ", 0 ", ") ;", 3),
    ("int f ( int ", ", int ", ") ;", 1),
    ("int x [ ] = { 0 ", ", 0 ", "} ;", 1),
];

fn long_text(alloc: Global, front: &str, part: &str, behind: &str) -> Result<String, Fail> {
    let mut text = String::new(alloc);
    text.push_str(front)?;
    for _ in 0..100000 {
        text.push_str(part)?;
    }
    text.push_str(behind)?;
    Ok(text)
}

// How many names are bound in a text, or what is wrong with it.
fn answer(alloc: Global, text: &[u8]) -> Result<String, Fail> {
    let file = match lex(alloc, 1, text) {
        Ok(file) => file,
        Err(_) => return Ok(format!(in alloc; "not lexed")?),
    };
    let toks = file.toks();
    if toks.len() > 1000000 {
        return Ok(format!(in alloc; "too long")?);
    }
    match read(alloc, toks, Dialect::Iso(Edition::C99)) {
        Ok(tree) => match bind(alloc, toks, &tree) {
            Ok(bound) => Ok(format!(in alloc; "{}", bound.names().len())?),
            Err(refusal) => Ok(unbound(alloc, refusal)?),
        },
        Err(refusal) => Ok(format!(in alloc; "not read: {refusal:?}")?),
    }
}

// The first row that is answered otherwise, and its answer, or nothing.
fn differing(alloc: Global, rows: &[Row]) -> Result<String, Fail> {
    for (k, (front, part, behind, names)) in rows.iter().enumerate() {
        let text = long_text(alloc, front, part, behind)?;
        let found = answer(alloc, text.as_bytes())?;
        let expected = format!(in alloc; "{names}")?;
        if found.as_str() != expected.as_str() {
            return Ok(format!(in alloc; "number {k}: {found}")?);
        }
    }
    Ok(String::new(alloc))
}

#[test]
fn long_declarators_bind(rt: HostRuntime) -> Result<(), Fail> {
    let found = differing(rt.alloc(), &DECLARATORS)?;
    assert_eq!(rt; found.as_str(), "");
    Ok(())
}

#[test]
fn long_specifiers_bind(rt: HostRuntime) -> Result<(), Fail> {
    let found = differing(rt.alloc(), &SPECIFIERS)?;
    assert_eq!(rt; found.as_str(), "");
    Ok(())
}

#[test]
fn long_lists_bind(rt: HostRuntime) -> Result<(), Fail> {
    let found = differing(rt.alloc(), &LISTS)?;
    assert_eq!(rt; found.as_str(), "");
    Ok(())
}
