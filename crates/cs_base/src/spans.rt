// Spans of a token's origins (ISO/IEC 9899:1999, 5.1.1.2): characters that stand one behind the other in a file.
ghost use Rattle.std.specs.Prelude.{◌≡◌, ◌≤◌, ◌<◌, ◌+◌, ◌++◌, ◌^◌, [], ◌∷◌, length, map, IfOk, IfSome};
ghost use Rattle.cs_base.specs.Padding.{padded};
ghost use Rattle.cs_base.specs.Spans.{AreSpans, Reached, moved, origin_by, origins_by, whole};

use crate::no_memory::Memory;
use crate::positions::Pos;
use std::alloc::Global;

/// Some characters of a token that stand one behind the other in a file: `len` of them, from character
/// `from` of the token on, the first of which stands at `start`.
#[derive(Clone, Copy, Debug, PartialEq, Eq)]
pub struct Span {
    pub from: u32,
    pub len: u32,
    pub start: Pos,
}

/// The origin of character `k` of `len`: none outside all spans.
pub(crate) fn origin_in(spans: &[Span], len: usize, k: u32) -> Option<Pos>
    requires { AreSpans len spans.now }
    ensures { result ≡ origin_by spans.now k }
{
    match spans_to(spans, len, k) {
        0 => None,
        reached => origin_of(&spans[reached - 1], k),
    }
}

// The origin of character `k`, where it is one of the span's.
fn origin_of(span: &Span, k: u32) -> Option<Pos>
    requires reached { span.now.from ≤ k }
    requires numbered { span.now.start.at + span.now.len ≤ 2 ^ 32 }
    ensures { result ≡ origin_by (span.now ∷ []) k }
{
    if k - span.from < span.len {
        Some(Pos {
            file: span.start.file,
            at: span.start.at + (k - span.from),
        })
    } else {
        None
    }
}

// How many spans begin at character `k` or before it.
fn spans_to(spans: &[Span], len: usize, k: u32) -> usize
    requires { AreSpans len spans.now }
    ensures bound { result ≤ length spans.now }
    ensures found { Reached spans.now k result }
{
    spans.partition_point(|span| span.from <= k)
}

/// Adds the spans of `len` characters that stand behind `from` others.
pub(crate) fn push_moved(
    spans: &mut Vec<Span>,
    from: u32,
    more: &[Span],
    len: usize,
) -> Result<(), Memory>
    requires told { AreSpans from spans.old.items }
    requires more { AreSpans len more.now }
    requires fits { from + len < 2 ^ 32 }
    ensures answer { IfOk result (λ _. origins_by (from + len) spans.new.items
        ≡ origins_by from spans.old.items ++ origins_by len more.now) }
    ensures front { origins_by from spans.new.items ≡ origins_by from spans.old.items }
    ensures sound { AreSpans (from + len) spans.new.items }
{
    for span in more {
        spans.push(Span {
            from: from + span.from,
            len: span.len,
            start: span.start,
        })?;
    }
    Ok(())
}

/// Where the one span begins that has all of `len` characters, if there is no other.
pub(crate) fn start_of_whole(spans: &[Span], len: usize) -> Option<Pos>
    ensures { IfSome result (λ first. spans.now ≡ whole len first ∷ []) }
{
    match spans {
        [span] if span.from == 0 && span.len as usize == len => Some(span.start),
        _ => None,
    }
}

/// The first origin, where there are `len` and each is the character behind the one before.
pub(crate) fn first_of_neighbours(origins: &[Option<Pos>], len: usize) -> Option<Pos>
    ensures same { IfSome result (λ first. padded len origins.now ≡ origins_by len (whole len first ∷ [])) }
    ensures sound { IfSome result (λ first. AreSpans len (whole len first ∷ [])) }
{
    if origins.len() != len {
        return None;
    }
    let first = match origins.get(0) {
        Some(Some(first)) => *first,
        _ => return None,
    };
    let from = first.at as usize;
    for k in 0..len {
        match origins[k] {
            Some(origin) if origin.file == first.file && origin.at as usize == from + k => {}
            _ => return None,
        }
    }
    Some(first)
}

/// The spans of `len` characters, the first of which have these origins and the others none.
pub(crate) fn spans_of(
    alloc: Global,
    origins: &[Option<Pos>],
    len: usize,
) -> Result<Vec<Span>, Memory>
    requires given { length origins.now ≤ len }
    requires short { len < 2 ^ 32 }
    ensures same { IfOk result (λ spans. origins_by len spans.items ≡ padded len origins.now) }
    ensures sound { IfOk result (λ spans. AreSpans len spans.items) }
{
    let mut spans = Vec::new(alloc);
    for k in 0..origins.len() {
        push_origin(&mut spans, k as u32, origins[k])?;
    }
    Ok(spans)
}

// Adds the origin of character `k`, if it has one.
fn push_origin(spans: &mut Vec<Span>, k: u32, origin: Option<Pos>) -> Result<(), Memory>
    requires told { AreSpans k spans.old.items }
    ensures same { IfOk result (λ _. origins_by (k + 1) spans.new.items ≡ origins_by k spans.old.items ++ origin ∷ []) }
    ensures sound { IfOk result (λ _. AreSpans (k + 1) spans.new.items) }
{
    if let Some(start) = origin {
        spans.push(Span {
            from: k,
            len: 1,
            start,
        })?;
    }
    Ok(())
}
