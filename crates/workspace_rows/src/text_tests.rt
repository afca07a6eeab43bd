// The workspaces, preprocessed.
use crate::rows::cut;
use crate::text_rows::ROWS;
use analysis::{Texts, texts};
use cs_base::{Link, Tok};
use include_tree::{Event, EventKind, Reached, UnitText};
use row_tools::held;
use std::alloc::Global;
use std::fmt::Write;
use std::str;
use std::test::Fail;
use ws_file::read_ws;

// The items that each pseudo file begins with, and their events.
const FIXED: usize = 5;

fn write_text(out: &mut String, tok: &Tok) -> Result<(), Fail> {
    match str::from_utf8(tok.text()) {
        Ok(text) => write!(out, " {text}")?,
        Err(_) => write!(out, " ?")?,
    }
    Ok(())
}

// A token with the place of its first character.
fn write_tok(out: &mut String, tok: &Tok) -> Result<(), Fail> {
    write_text(out, tok)?;
    match tok.origins(0) {
        Some(at) => write!(out, "@{}.{}", at.file, at.at)?,
        None => write!(out, "@-")?,
    }
    Ok(())
}

fn write_toks(out: &mut String, word: &str, toks: &[Tok]) -> Result<(), Fail> {
    write!(out, "{word}")?;
    for tok in toks {
        write_tok(out, tok)?;
    }
    write!(out, "\n")?;
    Ok(())
}

fn write_tokens(out: &mut String, toks: &[Tok]) -> Result<(), Fail> {
    write!(out, "toks")?;
    for tok in toks {
        write_text(out, tok)?;
    }
    write!(out, "\n")?;
    Ok(())
}

fn write_links(out: &mut String, links: &[Link]) -> Result<(), Fail> {
    write!(out, "links")?;
    for link in links {
        write_tok(out, &link.x)?;
        write!(out, " =")?;
        write_tok(out, &link.y)?;
    }
    write!(out, "\n")?;
    Ok(())
}

fn write_reached(out: &mut String, reached: &[Reached]) -> Result<(), Fail> {
    write!(out, "reached")?;
    for r in reached.iter().skip(FIXED) {
        write!(out, " {}.{}", r.file, r.item)?;
        if r.evaluated {
            write!(out, "!")?;
        }
    }
    write!(out, "\n")?;
    Ok(())
}

fn sign(kind: EventKind) -> &'static str {
    match kind {
        EventKind::Replaced => "r",
        EventKind::Defined => "d",
        EventKind::Undefined => "u",
        EventKind::Tested => "t",
        EventKind::Left => "l",
        EventKind::Enter => "in",
        EventKind::Leave => "out",
        EventKind::Once => "once",
        EventKind::Passed => "passed",
    }
}

fn write_event(out: &mut String, event: &Event) -> Result<(), Fail> {
    write!(out, " {}", sign(event.kind))?;
    if let Some(name) = &event.name {
        write_text(out, name)?;
    }
    if let Some(file) = event.file {
        write!(out, " {file}")?;
    }
    write!(out, ":{}", event.before)?;
    Ok(())
}

fn write_events(out: &mut String, events: &[Event]) -> Result<(), Fail> {
    write!(out, "events")?;
    for event in events.iter().skip(FIXED) {
        write_event(out, event)?;
    }
    write!(out, "\n")?;
    Ok(())
}

fn write_unit(out: &mut String, text: &UnitText) -> Result<(), Fail> {
    write_tokens(out, text.toks())?;
    write_links(out, text.links())?;
    write_toks(out, "pasted", text.pasted())?;
    write_toks(out, "strings", text.stringized())?;
    write_toks(out, "header", text.header())?;
    write_toks(out, "answers", text.answers())?;
    write_reached(out, text.reached())?;
    write_events(out, text.events())
}

fn shown(alloc: Global, all: &Texts) -> Result<String, Fail> {
    let mut out = String::new(alloc);
    for k in 0..all.units() {
        write_unit(&mut out, all.text(k + 1))?;
    }
    Ok(out)
}

// What is told of a workspace.
fn told(alloc: Global, ws: &str, files: &str) -> Result<String, Fail> {
    let mut files = held(alloc, files)?;
    match read_ws(alloc, ws.as_bytes()) {
        Ok(ws) => match texts(alloc, &ws, &mut files) {
            Ok(all) => shown(alloc, &all),
            Err(_) => Ok(format!(in alloc; "refused")?),
        },
        Err(_) => Ok(format!(in alloc; "bad workspace")?),
    }
}

#[test]
fn worked_workspaces(rt: HostRuntime) -> Result<(), Fail> {
    for row in ROWS.split('%') {
        let (about, row) = cut(row);
        let (ws, row) = cut(row);
        let (files, want) = cut(row);
        let text = told(rt.alloc(), ws, files)?;
        assert_eq!(rt; text.as_str(), want, "{about}");
    }
    Ok(())
}
