// Lines of the logical text that have a token of none of the other kinds (ISO/IEC 9899:1999, 5.1.1.2 and 6.4 paragraph 3).
ghost use Rattle.std.specs.Prelude.{◌≡◌, ◌+◌, ◌<◌, ◌^◌, ◌++◌, ◌∷◌, [], true, is_some, List, IfOk, OnOk};
ghost use Rattle.analysis.specs.Below.lexer.Lines.{byte_offset_of};
ghost use Rattle.template_rules.specs.LineOffences.{is_line_feed_at, line_begin, odd_positions};
ghost use Rattle.template_rules.specs.declared.odd_lines.OddLine.{OddLine as Line};
ghost use Rattle.template_rules.specs.OddLines.{AddsLine, AreInOrder, ArePlaced, AreOdd, FirstAmong, IsCut, IsLineEnd, IsLineIn, IsTold, comes_before, ends_before, is_before, is_line_among, with_line};

use crate::odd_tokens::odd_tokens;
use analysis::{Analysis, KeptFile};
use cs_base::{Memory, Pos};
use std::alloc::Global;
use std::marker::Model;

/// A line with such a token: the first one in it, the character with which the line begins, and the line feed with which it
/// ends, if one does.
#[derive(Clone, Copy, Debug, PartialEq, Eq)]
pub(crate) struct OddLine {
    pub(crate) first: Pos,
    pub(crate) begin: u32,
    pub(crate) end: Option<u32>,
}

/// Lines with such tokens. Contracts see them alone; it is known whether they stand one behind the other, as those of files
/// do, and then they are looked for by halving.
#[derive(Drop)]
pub(crate) struct OddLines {
    lines: Vec<OddLine>,
    rises: bool,
}

impl Model for OddLines {
    ghost use Rattle.std.specs.Prelude.{◌≡◌, List, true};
    ghost use Rattle.template_rules.specs.declared.odd_lines.OddLine.{OddLine as Line};
    ghost use Rattle.template_rules.specs.OddLines.{AreInOrder};

    ghost Value = { List Line };

    ghost view = { λ l. l.lines.items };

    ghost invariant = { λ l. l.rises ≡ true → AreInOrder l.lines.items };
}

fn is_line_feed_at(file: &KeptFile, at: u32) -> bool
    ensures { result ≡ is_line_feed_at file.now.bytes at }
{
    match file.text().byte_of(at) {
        Some(byte) => file.bytes()[byte as usize] == b'\n',
        None => false,
    }
}

// Whether the file has a character with this number.
fn is_character(file: &KeptFile, at: u32) -> bool
    ensures answer { result ≡ is_some (byte_offset_of file.now.bytes at) }
    ensures within { result ≡ true → at + 1 < 2 ^ 32 }
{
    match file.text().byte_of(at) {
        Some(_) => true,
        None => false,
    }
}

// The character with which the line of a character begins.
fn line_begin(file: &KeptFile, at: u32) -> u32
    ensures { result ≡ line_begin file.now.bytes at }
{
    let mut begin = at;
    'line: while begin > 0 {
        if is_line_feed_at(file, begin - 1) {
            return begin;
        }
        begin -= 1;
    }
    0
}

// The line feed with which the line of a character ends.
fn line_end(file: &KeptFile, at: u32) -> Option<u32>
    ensures { IsLineEnd file.now.bytes at result }
{
    let mut end = at;
    'line: while is_character(file, end) {
        if is_line_feed_at(file, end) {
            return Some(end);
        }
        end += 1;
    }
    None
}

// Whether a line ends before a character of its file.
fn ends_before(line: OddLine, at: u32) -> bool
    ensures { result ≡ ends_before line at }
{
    match line.end {
        Some(end) => end < at,
        None => false,
    }
}

// Whether it stands before a position.
fn is_before(p: Pos, line: OddLine) -> bool
    ensures { result ≡ is_before p line }
{
    line.first.file < p.file || line.first.file == p.file && ends_before(line, p.at)
}

// Whether it is one of the lines from a position to a character of the same file.
fn is_line_among(from: Pos, to: u32, line: OddLine) -> bool
    ensures { result ≡ is_line_among from to line }
{
    line.first.file == from.file && !ends_before(line, from.at) && line.begin <= to
}

// Whether the last of these lines has a token, behind its first one.
fn is_told(lines: &[OddLine], p: Pos) -> bool
    ensures { result ≡ true → IsTold lines.now p }
{
    match lines.last() {
        Some(line) => is_line_among(p, p.at, *line) && line.first.at <= p.at,
        None => false,
    }
}

// The line of a token in its file.
fn line_in(file: &KeptFile, p: Pos) -> OddLine
    ensures { IsLineIn file.now.bytes p result }
{
    let begin = line_begin(file, p.at);
    let end = line_end(file, p.at);
    OddLine {
        first: p,
        begin,
        end,
    }
}

// The line of a token, if it is not the last of these lines.
fn new_line(lines: &[OddLine], a: &Analysis, p: Pos) -> Option<OddLine>
    ensures { AddsLine a.now.value.table p lines.now result }
{
    if is_told(lines, p) {
        return None;
    }
    match a.file(p.file) {
        Some(file) => Some(line_in(file, p)),
        None => None,
    }
}

// Adds a line, if there is one.
fn push_some(lines: &mut Vec<OddLine>, line: Option<OddLine>) -> Result<(), Memory>
    ensures { OnOk result (lines.new.items ≡ with_line lines.old.items line) }
{
    match line {
        Some(line) => {
            lines.push(line)?;
            Ok(())
        }
        None => Ok(()),
    }
}

// The lines of these tokens.
fn lines_of(alloc: Global, a: &Analysis, odds: &[Pos]) -> Result<Vec<OddLine>, Memory>
    ensures { IfOk result (λ lines. AreOdd a.now.value.table odds.now lines.items) }
{
    let mut lines = Vec::new(alloc);
    for p in odds {
        let line = new_line(&lines, a, *p);
        push_some(&mut lines, line)?;
    }
    Ok(lines)
}

/// The lines of all files that have such tokens.
pub(crate) fn odd_lines(alloc: Global, a: &Analysis) -> Result<OddLines, Memory>
    ensures { IfOk result (AreOdd a.now.value.table (odd_positions a.now.value.table)) }
{
    let odds = odd_tokens(alloc, a)?;
    let lines = lines_of(alloc, a, &odds)?;
    Ok(OddLines::new(lines))
}

// Whether a line stands before another.
fn comes_before(line: OddLine, next: OddLine) -> bool
    ensures { result ≡ comes_before line next }
{
    let begin = Pos {
        file: next.first.file,
        at: next.begin,
    };
    is_before(begin, line)
}

// Whether each line stands before the next.
fn are_in_order(lines: &[OddLine]) -> bool
    ensures { result ≡ true → AreInOrder lines.now }
{
    for k in 1..lines.len() {
        if !comes_before(lines[k - 1], lines[k]) {
            return false;
        }
    }
    true
}

// How many of these lines stand before a position.
fn lines_before(lines: &[OddLine], p: Pos) -> usize
    requires placed { ArePlaced lines.now }
    requires ordered { AreInOrder lines.now }
    ensures { IsCut (is_before p) lines.now result }
{
    lines.partition_point(|line| is_before(p, *line))
}

// The first token of the first of these lines from a position to a character of the same file, by halving.
fn first_by_halves(lines: &[OddLine], from: Pos, to: u32) -> Option<Pos>
    requires placed { ArePlaced lines.now }
    requires ordered { AreInOrder lines.now }
    ensures { FirstAmong lines.now from to result }
{
    let k = lines_before(lines, from);
    if k >= lines.len() {
        return None;
    }
    if is_line_among(from, to, lines[k]) {
        Some(lines[k].first)
    } else {
        None
    }
}

// The first of some lines, and of one more.
fn sooner(best: Option<Pos>, from: Pos, to: u32, line: OddLine) -> Option<Pos>
    ensures { (lines : List Line) → FirstAmong lines from to best → FirstAmong (lines ++ line ∷ []) from to result }
{
    if !is_line_among(from, to, line) {
        return best;
    }
    match best {
        Some(p) => {
            if line.first.at < p.at {
                Some(line.first)
            } else {
                best
            }
        }
        None => Some(line.first),
    }
}

// The same, one after another.
fn first_by_each(lines: &[OddLine], from: Pos, to: u32) -> Option<Pos>
    ensures { FirstAmong lines.now from to result }
{
    let mut best = None;
    for line in lines {
        best = sooner(best, from, to, *line);
    }
    best
}

impl OddLines {
    fn new(lines: Vec<OddLine>) -> OddLines
        ensures { result ≡ lines.items }
    {
        let rises = are_in_order(&lines);
        OddLines { lines, rises }
    }

    /// The first token of the first of these lines from a position to a character of the same file.
    pub(crate) fn first_among(&self, from: Pos, to: u32) -> Option<Pos>
        requires { ArePlaced self.now }
        ensures { FirstAmong self.now from to result }
    {
        if self.rises {
            first_by_halves(self.lines.as_slice(), from, to)
        } else {
            first_by_each(self.lines.as_slice(), from, to)
        }
    }
}
