// The programs, read and bound.
use crate::entity_rows::BOUND;
use crate::fault_rows::FAULTS;
use crate::gnu_entity_rows::BOUND_BY_GNU;
use crate::list_rows::{KINDS, LISTS, PARAMETERS};
use crate::refusals::unbound;
use c99_read::{Dialect, Edition, read};
use c99_tree::Tree;
use cs_base::Tok;
use lexer::lex;
use scope_bind::{BindRefusal, Bound, List, ParameterList, Range, bind, parameter_lists};
use std::alloc::Global;
use std::fmt::Write;
use std::test::Fail;

// What so many tokens denote, as BOUND has it.
pub(crate) fn entities(alloc: Global, bound: &Bound, count: u32) -> Result<String, Fail> {
    let mut out = String::new(alloc);
    for k in 0..count {
        if k > 0 {
            write!(out, " ")?;
        }
        match bound.entity(k) {
            Some(entity) => write!(out, "{entity}")?,
            None => write!(out, ".")?,
        }
    }
    Ok(out)
}

fn separate(out: &mut String) -> Result<(), Fail> {
    if !out.is_empty() {
        write!(out, ", ")?;
    }
    Ok(())
}

// The entities among so many tokens, as KINDS has them.
fn kinds(alloc: Global, bound: &Bound, count: u32) -> Result<String, Fail> {
    let mut out = String::new(alloc);
    for k in 0..count {
        if let Some(kind) = bound.kind(k) {
            separate(&mut out)?;
            let linkage = bound.linkage(k);
            write!(out, "{k} {kind:?} {linkage:?}")?;
        }
    }
    Ok(out)
}

fn write_lists(out: &mut String, word: &str, lists: &[List]) -> Result<(), Fail> {
    for list in lists {
        separate(out)?;
        write!(out, "{word} {} {} {}", list.name, list.begin, list.close)?;
        for comma in list.commas.as_slice() {
            write!(out, " {comma}")?;
        }
    }
    Ok(())
}

fn write_ranges(out: &mut String, word: &str, ranges: &[Range]) -> Result<(), Fail> {
    for range in ranges {
        separate(out)?;
        write!(out, "{word} {} {} {}", range.name, range.from, range.to)?;
    }
    Ok(())
}

// The lists of a binding, as LISTS has them.
fn lists(alloc: Global, bound: &Bound) -> Result<String, Fail> {
    let mut out = String::new(alloc);
    write_lists(&mut out, "list", bound.declarators())?;
    write_lists(&mut out, "call", bound.calls())?;
    write_ranges(&mut out, "body", bound.functions())?;
    for index in bound.bare() {
        separate(&mut out)?;
        write!(out, "bare {index}")?;
    }
    write_ranges(&mut out, "typedef", bound.typedefs())?;
    Ok(out)
}

fn write_names(out: &mut String, list: &ParameterList) -> Result<(), Fail> {
    for name in list.names.as_slice() {
        match name {
            Some(index) => write!(out, " {index}")?,
            None => write!(out, " -")?,
        }
    }
    Ok(())
}

// The parameters of a unit, as PARAMETERS has them.
fn parameters(alloc: Global, tree: &Tree) -> Result<String, Fail> {
    let lists = match parameter_lists(alloc, tree) {
        Ok(lists) => lists,
        Err(_) => return Ok(format!(in alloc; "no memory")?),
    };
    let mut out = String::new(alloc);
    for list in lists.as_slice() {
        separate(&mut out)?;
        write!(out, "{} {:?}", list.name, list.form)?;
        write_names(&mut out, list)?;
    }
    Ok(out)
}

#[derive(Clone, Copy)]
enum Asked {
    Entities,
    Kinds,
    Lists,
    Parameters,
}

fn told(
    alloc: Global,
    asked: Asked,
    tree: &Tree,
    bound: &Bound,
    count: u32,
) -> Result<String, Fail> {
    match asked {
        Asked::Entities => entities(alloc, bound, count),
        Asked::Kinds => kinds(alloc, bound, count),
        Asked::Lists => lists(alloc, bound),
        Asked::Parameters => parameters(alloc, tree),
    }
}

// What is told of a program, or its first fault.
fn answer(alloc: Global, asked: Asked, text: &[u8], dialect: Dialect) -> Result<String, Fail> {
    match lex(alloc, 1, text) {
        Ok(file) => answer_of(alloc, asked, file.toks(), dialect),
        Err(_) => Ok(format!(in alloc; "not lexed")?),
    }
}

fn bound_by(
    alloc: Global,
    toks: &[Tok],
    tree: &Tree,
    dialect: Dialect,
) -> Result<Bound, BindRefusal> {
    match dialect {
        Dialect::Iso(_) => bind(alloc, toks, tree),
        Dialect::Gnu => gnu_bind::bind(alloc, toks, tree),
    }
}

fn answer_of(alloc: Global, asked: Asked, toks: &[Tok], dialect: Dialect) -> Result<String, Fail> {
    if toks.len() > 1000 {
        return Ok(format!(in alloc; "too long")?);
    }
    match read(alloc, toks, dialect) {
        Ok(tree) => match bound_by(alloc, toks, &tree, dialect) {
            Ok(bound) => told(alloc, asked, &tree, &bound, toks.len() as u32),
            Err(refusal) => Ok(unbound(alloc, refusal)?),
        },
        Err(refusal) => Ok(format!(in alloc; "not read: {refusal:?}")?),
    }
}

// The first row that is answered otherwise, and its answer, or nothing.
fn differing(
    alloc: Global,
    asked: Asked,
    rows: &[(&[u8], &str)],
    dialect: Dialect,
) -> Result<String, Fail> {
    for (k, (text, expected)) in rows.iter().enumerate() {
        let found = answer(alloc, asked, text, dialect)?;
        if found.as_str() != *expected {
            return Ok(format!(in alloc; "number {k}: {found}")?);
        }
    }
    Ok(String::new(alloc))
}

/// The first row whose entities or fault are others by C11, or nothing.
pub(crate) fn bound_by_c11(alloc: Global, rows: &[(&[u8], &str)]) -> Result<String, Fail> {
    differing(alloc, Asked::Entities, rows, Dialect::Iso(Edition::C11))
}

#[test]
fn worked_programs(rt: HostRuntime) -> Result<(), Fail> {
    let entities = differing(
        rt.alloc(),
        Asked::Entities,
        &BOUND,
        Dialect::Iso(Edition::C99),
    )?;
    assert_eq!(rt; entities.as_str(), "", "BOUND");
    let faults = differing(
        rt.alloc(),
        Asked::Entities,
        &FAULTS,
        Dialect::Iso(Edition::C99),
    )?;
    assert_eq!(rt; faults.as_str(), "", "FAULTS");
    let kinds = differing(rt.alloc(), Asked::Kinds, &KINDS, Dialect::Iso(Edition::C99))?;
    assert_eq!(rt; kinds.as_str(), "", "KINDS");
    let lists = differing(rt.alloc(), Asked::Lists, &LISTS, Dialect::Iso(Edition::C99))?;
    assert_eq!(rt; lists.as_str(), "", "LISTS");
    let parameters = differing(
        rt.alloc(),
        Asked::Parameters,
        &PARAMETERS,
        Dialect::Iso(Edition::C99),
    )?;
    assert_eq!(rt; parameters.as_str(), "", "PARAMETERS");
    Ok(())
}

#[test]
fn programs_of_gnu_are_bound(rt: HostRuntime) -> Result<(), Fail> {
    let entities = differing(rt.alloc(), Asked::Entities, &BOUND_BY_GNU, Dialect::Gnu)?;
    assert_eq!(rt; entities.as_str(), "", "BOUND_BY_GNU");
    let entities = differing(rt.alloc(), Asked::Entities, &BOUND, Dialect::Gnu)?;
    assert_eq!(rt; entities.as_str(), "", "BOUND");
    let faults = differing(rt.alloc(), Asked::Entities, &FAULTS, Dialect::Gnu)?;
    assert_eq!(rt; faults.as_str(), "", "FAULTS");
    Ok(())
}
