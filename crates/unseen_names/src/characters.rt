// Marks on the characters of files.
ghost use Rattle.std.specs.Prelude.{◌≡◌, ◌≤◌, ◌+◌, [], OnOk, MatchBool, false, length, slice_index_or};
ghost use Rattle.std.specs.List.{list_any};
ghost use Rattle.cs_base.specs.declared.positions.Pos.{Pos as APos};
ghost use Rattle.unseen_names.specs.Characters.{covers, is_marked, Adds, AnyMarked, Grows, HoldsMark, Reaches, ReachesRow, SetsRow, StandsFrom};
ghost use Rattle.unseen_names.specs.Unseen.{comes_from};

use cs_base::{Memory, Part, Pos, Span, Tok};
use std::alloc::Global;
use std::marker::Model;

/// A mark for each character of a file, up to some one. Contracts see the list of them.
#[derive(Drop)]
pub(crate) struct Marks {
    chars: Vec<bool>,
}

impl Model for Marks {
    ghost use Rattle.std.specs.Prelude.{List, Bool};

    ghost Value = { List Bool };

    ghost view = { λ m. m.chars.items };
}

impl Marks {
    fn new(alloc: Global) -> Marks
        ensures { result ≡ [] }
    {
        Marks {
            chars: Vec::new(alloc),
        }
    }

    // Marks so many characters, from one on.
    fn set(&mut self, from: u32, count: u32) -> Result<(), Memory>
        ensures { OnOk result (SetsRow from (from + count) self.old self.new) }
    {
        let end = from as usize + count as usize;
        reach_row(&mut self.chars, end)?;
        set_row(&mut self.chars, from as usize, end);
        Ok(())
    }

    fn is_set(&self, at: usize) -> bool
        ensures { result ≡ slice_index_or self.now at false }
    {
        if at < self.chars.len() {
            self.chars[at]
        } else {
            false
        }
    }
}

// ---- characters

// Room for some more characters, none of which is marked: as many as are copied at once.
fn grow(chars: &mut Vec<bool>) -> Result<(), Memory>
    ensures { OnOk result (Grows chars.old.items chars.new.items) }
{
    chars.extend_from_slice(&[false; 256])?;
    Ok(())
}

// Room for the marks of the characters before `end`.
fn reach_row(chars: &mut Vec<bool>, end: usize) -> Result<(), Memory>
    ensures { OnOk result (ReachesRow end chars.old.items chars.new.items) }
{
    'room: while chars.len() < end {
        grow(chars)?;
    }
    Ok(())
}

// Marks characters for which there is room: those from `from` on before `end`.
fn set_row(chars: &mut [bool], from: usize, end: usize)
    requires order { from ≤ end }
    requires room { end ≤ length chars.old }
    ensures { SetsRow from end chars.old chars.new }
{
    for k in from..end {
        chars[k] = true;
    }
}

// Whether a character of a file is marked.
fn is_marked_at(marks: &[Marks], file: u32, at: usize) -> bool
    ensures { (p : APos) → p.file ≡ file → p.at ≡ at → result ≡ is_marked marks.now p }
{
    if (file as usize) < marks.len() {
        marks[file as usize].is_set(at)
    } else {
        false
    }
}

/// Whether a character is marked.
pub(crate) fn is_marked(marks: &[Marks], p: Pos) -> bool
    ensures { result ≡ is_marked marks.now p }
{
    is_marked_at(marks, p.file, p.at as usize)
}

// Room for the marks of a file.
fn reach(alloc: Global, marks: &mut Vec<Marks>, file: u32) -> Result<(), Memory>
    ensures { OnOk result (Reaches file marks.old.items marks.new.items) }
{
    'room: while marks.len() <= file as usize {
        marks.push(Marks::new(alloc))?;
    }
    Ok(())
}

// Marks the characters of a span.
fn mark_span(alloc: Global, marks: &mut Vec<Marks>, span: Span) -> Result<(), Memory>
    ensures { OnOk result (Adds (λ q. covers q span) marks.old.items marks.new.items) }
{
    reach(alloc, marks, span.start.file)?;
    marks[span.start.file as usize].set(span.start.at, span.len)
}

// Marks those of spans.
fn mark_spans(alloc: Global, marks: &mut Vec<Marks>, spans: &[Span]) -> Result<(), Memory>
    ensures { OnOk result (Adds (λ q. list_any (covers q) spans.now) marks.old.items marks.new.items) }
{
    for span in spans {
        mark_span(alloc, marks, *span)?;
    }
    Ok(())
}

// ---- tokens

// The spans of a token alone.
fn take_spans(spans: &mut Vec<Span>, tok: &Tok) -> Result<(), Memory>
    ensures { OnOk result ((q : APos) → list_any (covers q) spans.new.items ≡ comes_from q tok.now) }
{
    spans.clear();
    let _text = tok.text();
    tok.push_spans(0, spans)
}

/// Marks the characters that a token comes from, span by span. `spans` is room for these.
pub(crate) fn mark_token(
    alloc: Global,
    marks: &mut Vec<Marks>,
    spans: &mut Vec<Span>,
    tok: &Tok,
) -> Result<(), Memory>
    ensures { OnOk result (Adds (λ q. comes_from q tok.now) marks.old.items marks.new.items) }
{
    if let Some(start) = tok.start() {
        return mark_from(alloc, marks, start, tok);
    }
    take_spans(spans, tok)?;
    mark_spans(alloc, marks, spans)
}

// The same where each of its characters stands in a file behind the one before it, the first there.
fn mark_from(alloc: Global, marks: &mut Vec<Marks>, start: Pos, tok: &Tok) -> Result<(), Memory>
    requires { StandsFrom tok.now start }
    ensures { OnOk result (Adds (λ q. comes_from q tok.now) marks.old.items marks.new.items) }
{
    let span = Span {
        from: 0,
        len: tok.text().len() as u32,
        start,
    };
    mark_span(alloc, marks, span)
}

/// Marks those that tokens come from.
pub(crate) fn mark_tokens(alloc: Global, marks: &mut Vec<Marks>, toks: &[Tok]) -> Result<(), Memory>
    ensures { OnOk result (Adds (λ q. list_any (comes_from q) toks.now) marks.old.items marks.new.items) }
{
    let mut spans = Vec::new(alloc);
    for tok in toks {
        mark_token(alloc, marks, &mut spans, tok)?;
    }
    Ok(())
}

// ---- parts

// Whether some character of a part is marked.
fn holds_mark(marks: &[Marks], part: Part) -> bool
    ensures { MatchBool result (HoldsMark marks.now part) (HoldsMark marks.now part → ⊥) }
{
    let start = part.start.at as usize;
    for k in 0..part.len {
        if is_marked_at(marks, part.start.file, start + k as usize) {
            return true;
        }
    }
    false
}

/// Whether some character of some part is marked.
pub(crate) fn any_marked(marks: &[Marks], parts: &[Part]) -> bool
    ensures { MatchBool result (AnyMarked marks.now parts.now) (AnyMarked marks.now parts.now → ⊥) }
{
    for part in parts {
        if holds_mark(marks, *part) {
            return true;
        }
    }
    false
}
