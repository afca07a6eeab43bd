// What a token keeps of its spelling and of its characters' origins. Most tokens have a short text whose
// characters stand one behind the other in a file, and take no memory of their own.
ghost use Rattle.std.specs.Prelude.{◌≡◌, ◌≤◌, ◌<◌, ◌+◌, ◌++◌, ◌^◌, [], ◌∷◌, length, IfOk, IfSome};
ghost use Rattle.cs_base.specs.Form.{spelled, spans_in, IsForm};
ghost use Rattle.cs_base.specs.Spans.{AreSpans, origin_by, origins_by, whole};

use crate::no_memory::Memory;
use crate::positions::Pos;
use crate::spans::{Span, origin_in, push_moved};
use std::alloc::Global;
use std::rc::RcSlice;

/// A text, with the origins of its characters: the first one, where each is the character behind the one before,
/// or else spans. What does not lie in the token lies in memory once for all copies.
pub(crate) enum Form {
    Short(ShortText, Pos),
    Long(RcSlice<u8>, Pos),
    Apart(RcSlice<u8>, RcSlice<Span>),
}

/// A text of at most 14 bytes: the first `len` of these.
#[derive(Clone, Copy)]
pub(crate) struct ShortText {
    bytes: [u8; 14],
    len: u8,
}

// What drops a token need not know of the forms.
impl Drop for Form {
    fn drop(self) {
        match self {
            Form::Short(_, _) => {}
            Form::Long(_text, _) => {}
            Form::Apart(_text, _spans) => {}
        }
    }
}

impl Form {
    /// A text whose characters stand one behind the other, from `first` on.
    pub(crate) fn near(alloc: Global, text: &[u8], first: Pos) -> Result<Form, Memory>
        ensures text { IfOk result (λ form. spelled form ≡ text.now) }
        ensures spans { IfOk result (λ form. spans_in form ≡ whole (length text.now) first ∷ []) }
        ensures room { IfOk result IsForm }
    {
        if text.len() > 14 {
            return Ok(Form::Long(RcSlice::from_slice(alloc, text)?, first));
        }
        let mut bytes = [0; 14];
        bytes[..text.len()].copy_from_slice(text);
        let short = ShortText {
            bytes,
            len: text.len() as u8,
        };
        Ok(Form::Short(short, first))
    }

    /// A text with these spans of its characters' origins.
    pub(crate) fn apart(alloc: Global, text: &[u8], spans: Vec<Span>) -> Result<Form, Memory>
        ensures text { IfOk result (λ form. spelled form ≡ text.now) }
        ensures spans { IfOk result (λ form. spans_in form ≡ spans.items) }
        ensures room { IfOk result IsForm }
    {
        let text = RcSlice::from_slice(alloc, text)?;
        Ok(Form::Apart(text, RcSlice::from_vec(spans)?))
    }

    pub(crate) fn share(&self) -> Result<Form, Memory>
        requires { IsForm self.now }
        ensures text { IfOk result (λ form. spelled form ≡ spelled self.now) }
        ensures spans { IfOk result (λ form. spans_in form ≡ spans_in self.now) }
        ensures room { IfOk result IsForm }
    {
        match self {
            Form::Short(short, first) => Ok(Form::Short(*short, *first)),
            Form::Long(text, first) => Ok(Form::Long(text.clone()?, *first)),
            Form::Apart(text, spans) => Ok(Form::Apart(text.clone()?, spans.clone()?)),
        }
    }

    pub(crate) fn text(&self) -> &[u8]
        requires { IsForm self.now }
        ensures { result.now ≡ spelled self.now }
    {
        match self {
            Form::Short(short, _) => &short.bytes[..short.len as usize],
            Form::Long(text, _) => text.as_slice(),
            Form::Apart(text, _) => text.as_slice(),
        }
    }

    /// The origin of character `k`.
    pub(crate) fn origin(&self, k: u32) -> Option<Pos>
        requires room { IsForm self.now }
        requires sound { AreSpans (length (spelled self.now)) (spans_in self.now) }
        ensures { result ≡ origin_by (spans_in self.now) k }
    {
        let len = self.text().len();
        match self {
            Form::Short(_, first) | Form::Long(_, first) => neighbour(*first, len, k),
            Form::Apart(_, spans) => origin_in(spans.as_slice(), len, k),
        }
    }

    /// The first origin, where it is kept alone for all of them.
    pub(crate) fn start(&self) -> Option<Pos>
        ensures { IfSome result (λ first. spans_in self.now ≡ whole (length (spelled self.now)) first ∷ []) }
    {
        match self {
            Form::Short(_, first) | Form::Long(_, first) => Some(*first),
            Form::Apart(_, _) => None,
        }
    }

    /// Adds the spans of the text, which stands behind `from` other characters.
    pub(crate) fn push_spans(&self, from: u32, spans: &mut Vec<Span>) -> Result<(), Memory>
        requires room { IsForm self.now }
        requires sound { AreSpans (length (spelled self.now)) (spans_in self.now) }
        requires told { AreSpans from spans.old.items }
        requires fits { from + length (spelled self.now) < 2 ^ 32 }
        ensures answer { IfOk result (λ _. origins_by (from + length (spelled self.now)) spans.new.items
            ≡ origins_by from spans.old.items ++ origins_by (length (spelled self.now)) (spans_in self.now)) }
        ensures front { origins_by from spans.new.items ≡ origins_by from spans.old.items }
        ensures sound { AreSpans (from + length (spelled self.now)) spans.new.items }
    {
        let len = self.text().len();
        match self {
            Form::Short(_, first) | Form::Long(_, first) => push_moved(
                spans,
                from,
                &[whole_span(len, *first)],
                len,
            ),
            Form::Apart(_, own) => push_moved(spans, from, own.as_slice(), len),
        }
    }
}

// The span of so many characters.
fn whole_span(len: usize, first: Pos) -> Span
    requires { len < 2 ^ 32 }
    ensures { result ≡ whole len first }
{
    Span {
        from: 0,
        len: len as u32,
        start: first,
    }
}

// The origin of character `k` of so many, each of which stands behind the one before.
fn neighbour(first: Pos, len: usize, k: u32) -> Option<Pos>
    requires { first.at + len ≤ 2 ^ 32 }
    ensures { result ≡ origin_by (whole len first ∷ []) k }
{
    if (k as usize) < len {
        Some(Pos {
            file: first.file,
            at: first.at + k,
        })
    } else {
        None
    }
}
