// Lines and files worked by hand from 6.10, 6.10.3 and 6.4.6.
use cs_base::{Cause, Pos};
use lexer::{LexRefusal, lex};
use line_shape::{GnuLine, Item, ItemKind, shape};
use std::alloc::Global;
use std::test::Fail;

// Lines of an allowed form.
const LINES: [(&[u8], ItemKind); 72] = [
    (b"a", ItemKind::Run),
    (b"a # define b", ItemKind::Run),
    (b"## define A", ItemKind::Run),
    (b"define A", ItemKind::Run),
    (b"#", ItemKind::Empty),
    (b"%:", ItemKind::Empty),
    (b"#define A", ItemKind::Define),
    (b"%:define A", ItemKind::Define),
    (b" # define A 1", ItemKind::Define),
    (b"#define define define", ItemKind::Define),
    (b"#define A (", ItemKind::Define),
    (b"#define A (a,a) #b", ItemKind::Define),
    (b"#define A,b", ItemKind::Define),
    (b"#define A # x", ItemKind::Define),
    (b"#define A #", ItemKind::Define),
    (b"#define A a ## b", ItemKind::Define),
    (b"#define A a ## ## b", ItemKind::Define),
    (b"#define F()", ItemKind::Define),
    (b"#define F( )", ItemKind::Define),
    (b"#define F(a) a)", ItemKind::Define),
    (b"#define F(a) (a", ItemKind::Define),
    (b"#define F(a,b) a b", ItemKind::Define),
    (b"#define F(defined) defined", ItemKind::Define),
    (b"#define F(...) __VA_ARGS__", ItemKind::Define),
    (b"#define F(a,...) a __VA_ARGS__", ItemKind::Define),
    (b"#define F(a...) a", ItemKind::Define),
    (b"#define F(a) #a", ItemKind::Define),
    (b"#define F(a) # a", ItemKind::Define),
    (b"#define F(a,b) %:b", ItemKind::Define),
    (b"#define F(...) #__VA_ARGS__", ItemKind::Define),
    (b"#define F(a) x##a", ItemKind::Define),
    (b"#undef A", ItemKind::Undef),
    (b"#undef A defined", ItemKind::Undef),
    (b"#if", ItemKind::If),
    (b"#if 1", ItemKind::If),
    (b"#ifdef A", ItemKind::Ifdef),
    (b"#ifdef A 1 #", ItemKind::Ifdef),
    (b"#ifdef defined", ItemKind::Ifdef),
    (b"#ifdef __VA_ARGS__", ItemKind::Ifdef),
    (b"#ifndef A", ItemKind::Ifndef),
    (b"#ifndef A B", ItemKind::Ifndef),
    (b"#elif", ItemKind::Elif),
    (b"#elif 1", ItemKind::Elif),
    (b"#else", ItemKind::Else),
    (b"#else x", ItemKind::Else),
    (b"#endif", ItemKind::Endif),
    (b"#endif A", ItemKind::Endif),
    (b"#include A", ItemKind::Include),
    (b"#include 1", ItemKind::Include),
    (b"#include A B", ItemKind::Include),
    (b"#line", ItemKind::Line),
    (b"#line 1", ItemKind::Line),
    (b"#error", ItemKind::Error),
    (b"#error ##", ItemKind::Error),
    (b"#pragma", ItemKind::Pragma),
    (b"#pragma once", ItemKind::Pragma),
    (b"#include_next A", ItemKind::Gnu(GnuLine::IncludeNext)),
    (b"#warning", ItemKind::Gnu(GnuLine::Message)),
    (b"#ident \"x\"", ItemKind::Gnu(GnuLine::Message)),
    (b"#sccs x", ItemKind::Gnu(GnuLine::Message)),
    (b"#elifdef A B", ItemKind::Gnu(GnuLine::Elifdef)),
    (b"#elifndef defined", ItemKind::Gnu(GnuLine::Elifndef)),
    (b"#define F/**/(a,a)", ItemKind::Define),
    (b"#define F\\\n(a) #a", ItemKind::Define),
    (b"#define A /* \n # */ 1", ItemKind::Define),
    (b"/*\n*/ # /* */ define A", ItemKind::Define),
    (b"#define A // ##", ItemKind::Define),
    (b"#define A \"#\" '#'", ItemKind::Define),
    (b"#inc\\\nlude A", ItemKind::Include),
    (b"#include <a.h>", ItemKind::Include),
    (b"#include \"a.h\" x", ItemKind::Include),
    (b"#include <a", ItemKind::Include),
];

// Bad lines, each with what stands against it; the last ones have two causes, of which the first is named.
const BAD_LINES: [(&[u8], Cause); 78] = [
    (b"#foo", Cause::UnknownDirective),
    (b"#Define A", Cause::UnknownDirective),
    (b"#defined A", Cause::UnknownDirective),
    (b"#1", Cause::UnknownDirective),
    (b"# #", Cause::UnknownDirective),
    (b"#(", Cause::UnknownDirective),
    (b"#warnings", Cause::UnknownDirective),
    (b"#include_nexts A", Cause::UnknownDirective),
    (b"#elifdef", Cause::NoMacroName),
    (b"#elifndef 1", Cause::NoMacroName),
    (b"#include_next // <a.h>", Cause::NoHeader),
    (b"# define", Cause::NoMacroName),
    (b"#define 1", Cause::NoMacroName),
    (b"#define (a)", Cause::NoMacroName),
    (b"#undef", Cause::NoMacroName),
    (b"#undef 1 A", Cause::NoMacroName),
    (b"#define defined", Cause::BadMacroName),
    (b"#define __VA_ARGS__ 1", Cause::BadMacroName),
    (b"#undef defined", Cause::BadMacroName),
    (b"#undef __VA_ARGS__", Cause::BadMacroName),
    (b"#define F(", Cause::BadParameters),
    (b"#define F(a", Cause::BadParameters),
    (b"#define F(a,", Cause::BadParameters),
    (b"#define F(a,b", Cause::BadParameters),
    (b"#define F(...", Cause::BadParameters),
    (b"#define F(,)", Cause::BadParameters),
    (b"#define F(a,)", Cause::BadParameters),
    (b"#define F(,a)", Cause::BadParameters),
    (b"#define F(a b)", Cause::BadParameters),
    (b"#define F(a;b)", Cause::BadParameters),
    (b"#define F(1)", Cause::BadParameters),
    (b"#define F((a))", Cause::BadParameters),
    (b"#define F(...,a)", Cause::BadParameters),
    (b"#define F(...,...)", Cause::BadParameters),
    (b"#define F(... a)", Cause::BadParameters),
    (b"#define F(a,a)", Cause::BadParameters),
    (b"#define F(a,b,a)", Cause::BadParameters),
    (b"#define F(a,b,b,...)", Cause::BadParameters),
    (b"#define F(__VA_ARGS__)", Cause::BadParameters),
    (b"#define F(a,__VA_ARGS__)", Cause::BadParameters),
    (b"#define F() #", Cause::BadHash),
    (b"#define F(a) #", Cause::BadHash),
    (b"#define F(a) #b", Cause::BadHash),
    (b"#define F(a) #a #b", Cause::BadHash),
    (b"#define F(a) %:1", Cause::BadHash),
    (b"#define F(a,...) #b", Cause::BadHash),
    (b"#define A ##", Cause::BadPaste),
    (b"#define A ##a", Cause::BadPaste),
    (b"#define A a##", Cause::BadPaste),
    (b"#define A a %:%:", Cause::BadPaste),
    (b"#define F(a) ##a", Cause::BadPaste),
    (b"#define A __VA_ARGS__", Cause::BadVaArgs),
    (b"#define F(a) a __VA_ARGS__", Cause::BadVaArgs),
    (b"#include", Cause::NoHeader),
    (b"%:include", Cause::NoHeader),
    (b"#\"define\" A", Cause::UnknownDirective),
    (b"#$", Cause::UnknownDirective),
    (b"#define\\\n", Cause::NoMacroName),
    (b"#define \"A\"", Cause::NoMacroName),
    (b"#define F\\\n(a", Cause::BadParameters),
    (b"#define F(a /* ) */", Cause::BadParameters),
    (b"#define F(a) # \"a\"", Cause::BadHash),
    (b"#define A # /* */ ##", Cause::BadPaste),
    (b"#include // <a.h>", Cause::NoHeader),
    (b"#define 1(a", Cause::NoMacroName),
    (b"#define 1(a) #b", Cause::NoMacroName),
    (b"#define 1 ##", Cause::NoMacroName),
    (b"#define 1 __VA_ARGS__", Cause::NoMacroName),
    (b"#define defined(a", Cause::BadMacroName),
    (b"#define defined(a) #b", Cause::BadMacroName),
    (b"#define __VA_ARGS__ ##", Cause::BadMacroName),
    (b"#define defined __VA_ARGS__", Cause::BadMacroName),
    (b"#define F(a,a) #b", Cause::BadParameters),
    (b"#define F(a,a) ##", Cause::BadParameters),
    (b"#define F(a,a) __VA_ARGS__", Cause::BadParameters),
    (b"#define F(a) # ##", Cause::BadHash),
    (b"#define F(a) #__VA_ARGS__", Cause::BadHash),
    (b"#define A ## __VA_ARGS__", Cause::BadPaste),
];

// Bad lines that begin an if-section all the same.
const NESTING_LINES: [&[u8]; 4] = [b"#ifdef", b"#ifdef 1", b"#ifndef", b"#ifndef (A)"];

type Row = (ItemKind, u32, u32, u32, u32);

// The kind, the first and the last line, and the tokens of each item.
const FILES: [(&[u8], &[Row]); 10] = [
    (b"", &[]),
    (b"\n\n", &[]),
    (b"a b\nc", &[(ItemKind::Run, 1, 2, 0, 3)]),
    (b"\n\na\n\nb\n\n", &[(ItemKind::Run, 3, 5, 0, 2)]),
    (
        b"#if 1\n#endif\n",
        &[(ItemKind::If, 1, 1, 0, 3), (ItemKind::Endif, 2, 2, 3, 5)],
    ),
    (
        b"a\n#define A\n\nb\nc #\n",
        &[
            (ItemKind::Run, 1, 1, 0, 1),
            (ItemKind::Define, 2, 2, 1, 4),
            (ItemKind::Run, 4, 5, 4, 7),
        ],
    ),
    (
        b"#\n\n%: pragma x\na b\n",
        &[
            (ItemKind::Empty, 1, 1, 0, 1),
            (ItemKind::Pragma, 3, 3, 1, 4),
            (ItemKind::Run, 4, 4, 4, 6),
        ],
    ),
    (
        b"#define A\nb\n#undef A\n#define F(a\n",
        &[
            (ItemKind::Define, 1, 1, 0, 3),
            (ItemKind::Run, 2, 2, 3, 4),
            (ItemKind::Undef, 3, 3, 4, 7),
            (
                ItemKind::Bad {
                    cause: Cause::BadParameters,
                    at: Pos { file: 1, at: 21 },
                    nests: false,
                },
                4,
                4,
                7,
                12,
            ),
        ],
    ),
    (
        b"#define A /*\n#if 1\n*/ B\n#else\nc",
        &[
            (ItemKind::Define, 1, 3, 0, 4),
            (ItemKind::Else, 4, 4, 4, 6),
            (ItemKind::Run, 5, 5, 6, 7),
        ],
    ),
    (
        b"a /*\n*/ # define A\n#undef\\\n A\n",
        &[(ItemKind::Run, 1, 2, 0, 4), (ItemKind::Undef, 3, 4, 4, 7)],
    ),
];

fn items(alloc: Global, text: &[u8]) -> Result<Vec<Item>, LexRefusal> {
    let text = lex(alloc, 1, text)?;
    Ok(shape(alloc, &text)?)
}

// The kind of the only item.
fn only_kind(alloc: Global, text: &[u8]) -> Result<Option<ItemKind>, LexRefusal> {
    let items = items(alloc, text)?;
    match items.as_slice() {
        [item] => Ok(Some(item.kind)),
        _ => Ok(None),
    }
}

fn bad(cause: Cause, nests: bool) -> Option<ItemKind> {
    let at = Pos { file: 1, at: 0 };
    Some(ItemKind::Bad { cause, at, nests })
}

#[test]
fn lines_by_their_kind(rt: HostRuntime) -> Result<(), Fail> {
    for (k, (text, kind)) in LINES.iter().enumerate() {
        assert_eq!(rt;
            only_kind(rt.alloc(), text)?,
            Some(*kind),
            "LINES, number {k}"
        );
    }
    Ok(())
}

#[test]
fn the_first_cause_of_a_bad_line(rt: HostRuntime) -> Result<(), Fail> {
    for (k, (text, cause)) in BAD_LINES.iter().enumerate() {
        assert_eq!(rt;
            only_kind(rt.alloc(), text)?,
            bad(*cause, false),
            "BAD_LINES, number {k}"
        );
    }
    for (k, text) in NESTING_LINES.iter().enumerate() {
        assert_eq!(rt;
            only_kind(rt.alloc(), text)?,
            bad(Cause::NoMacroName, true),
            "NESTING_LINES, number {k}"
        );
    }
    Ok(())
}

#[test]
fn files_by_their_items(rt: HostRuntime) -> Result<(), Fail> {
    for (k, (bytes, rows)) in FILES.iter().enumerate() {
        let text = lex(rt.alloc(), 1, bytes)?;
        let items = shape(rt.alloc(), &text)?;
        assert_eq!(rt; items.len(), rows.len(), "FILES, number {k}");
        for (item, (kind, first_line, last_line, from, to)) in items.iter().zip(*rows) {
            assert_eq!(rt; item.kind, *kind, "FILES, number {k}");
            assert_eq!(rt;
                (item.first_line, item.last_line),
                (*first_line, *last_line),
                "FILES, number {k}"
            );
            assert_eq!(rt; (item.from, item.to), (*from, *to), "FILES, number {k}");
            let first = text.toks().get(*from as usize);
            assert!(rt;
                first.is_some_and(|tok| tok.at() == item.at),
                "FILES, number {k}"
            );
        }
    }
    Ok(())
}
