// Preprocessing tokens as values, which share their text and origins where these are long (ISO/IEC 9899:1999, 6.4).
ghost use Rattle.std.specs.Prelude.{◌≡◌, ◌≤◌, ◌<◌, ◌+◌, ◌++◌, ◌^◌, ℕ, Some, length, IfOk, IfSome};
ghost use Rattle.cs_base.specs.Padding.{padded};
ghost use Rattle.cs_base.specs.Spans.{AreSpans, origins_by};

use crate::forms::Form;
use crate::no_memory::Memory;
use crate::positions::Pos;
use crate::spans::{Span, first_of_neighbours, spans_of, start_of_whole};
use std::alloc::Global;
use std::marker::Model;

/// The kind of a preprocessing token. A keyword is an `Ident`; `Header` stands after `include` alone.
#[derive(Clone, Copy, Debug, PartialEq, Eq)]
pub enum Kind {
    Ident,
    Number,
    Char,
    Str,
    Punct,
    Other,
    Header,
}

/// A preprocessing token. Contracts see the record of its kind, text, origins and labels; copies made
/// by `share` have the same text and origins. A text of up to 14 bytes and the origins of characters that
/// are neighbours in a file lie in the token; others lie in memory once for all copies.
#[derive(Drop)]
pub struct Tok {
    at: Pos,
    line: u32,
    kind: Kind,
    gap: bool,
    direct: bool,
    form: Form,
}

impl Model for Tok {
    ghost use Rattle.cs_base.specs.Token.{Token, token};
    ghost use Rattle.cs_base.specs.Form.{spelled, spans_in};
    ghost use Rattle.cs_base.specs.Spans.{origins_by};
    ghost use Rattle.cs_base.specs.KeptToken.{IsKept};
    ghost use Rattle.std.specs.Prelude.{length};

    ghost Value = { Token };

    ghost view = { λ t. token t.kind (spelled t.form) (origins_by (length (spelled t.form)) (spans_in t.form)) t.gap t.at t.line t.direct };

    ghost invariant = { λ t. IsKept t.kind t.form };
}

impl Tok {
    ghost use Rattle.cs_base.specs.Token.{Token, token, origin_at, IsTraced, IsToken};

    /// A token of these parts. The characters past the end of `origins` have none.
    ///
    /// A text of 2^32 characters or more is answered by `Memory`.
    pub fn new(
        alloc: Global,
        kind: Kind,
        text: &[u8],
        origins: &[Option<Pos>],
        gap: bool,
        at: Pos,
        line: u32,
        direct: bool,
    ) -> Result<Tok, Memory>
        requires no_longer { length origins.now ≤ length text.now }
        requires traced { IsTraced kind (padded (length text.now) origins.now) }
        ensures answer { IfOk result (λ t. t ≡ token kind text.now (padded (length text.now) origins.now) gap at line direct) }
    {
        if text.len() > u32::MAX as usize {
            return Err(Memory);
        }
        let form = match first_of_neighbours(origins, text.len()) {
            Some(first) => Form::near(alloc, text, first)?,
            None => Form::apart(alloc, text, spans_of(alloc, origins, text.len())?)?,
        };
        Ok(Tok {
            at,
            line,
            kind,
            gap,
            direct,
            form,
        })
    }

    /// A token of these parts, whose characters have the origins that the spans tell: a character outside all of them
    /// has none.
    ///
    /// A text of 2^32 characters or more is answered by `Memory`.
    pub fn with_spans(
        alloc: Global,
        kind: Kind,
        text: &[u8],
        spans: &[Span],
        gap: bool,
        at: Pos,
        line: u32,
        direct: bool,
    ) -> Result<Tok, Memory>
        requires sound { AreSpans (length text.now) spans.now }
        requires traced { IsTraced kind (origins_by (length text.now) spans.now) }
        ensures answer { IfOk result (λ t.
            t ≡ token kind text.now (origins_by (length text.now) spans.now) gap at line direct) }
    {
        if text.len() > u32::MAX as usize {
            return Err(Memory);
        }
        let form = match start_of_whole(spans, text.len()) {
            Some(first) => Form::near(alloc, text, first)?,
            None => Form::apart(alloc, text, Vec::from_slice(alloc, spans)?)?,
        };
        Ok(Tok {
            at,
            line,
            kind,
            gap,
            direct,
            form,
        })
    }

    /// The same kind, text and origins, shared, under these labels.
    pub fn share(&self, gap: bool, at: Pos, line: u32, direct: bool) -> Result<Tok, Memory>
        ensures answer { IfOk result (λ t. t ≡ record self.now { gap = gap; at = at; line = line; direct = direct }) }
    {
        Ok(Tok {
            at,
            line,
            kind: self.kind,
            gap,
            direct,
            form: self.form.share()?,
        })
    }

    pub fn kind(&self) -> Kind
        ensures { result ≡ self.now.kind }
    {
        self.kind
    }

    /// The spelling: at least as many bytes as contracts count characters, fewer than 2^32.
    pub fn text(&self) -> &[u8]
        ensures answer { result.now ≡ self.now.text }
        ensures sound { IsToken self.now }
    {
        self.form.text()
    }

    /// The origin of character `k`: none where it has none, and past the end.
    pub fn origins(&self, k: u32) -> Option<Pos>
        ensures answer { result ≡ origin_at self.now k }
    {
        self.form.origin(k)
    }

    /// The first origin, where the token keeps it alone, since each of the others stands behind the one before it in
    /// its file.
    pub fn start(&self) -> Option<Pos>
        ensures { IfSome result (λ first. (k : ℕ) → k < length self.now.text
            → origin_at self.now k ≡ Some (record { file = first.file; at = first.at + k })) }
    {
        self.form.start()
    }

    /// Adds the spans of the characters, which stand behind `from` others: what the spans told up to `from` stays, also
    /// where memory runs out, and the origins of this token follow.
    pub fn push_spans(&self, from: u32, spans: &mut Vec<Span>) -> Result<(), Memory>
        requires told { AreSpans from spans.old.items }
        requires fits { from + length self.now.text < 2 ^ 32 }
        ensures answer { IfOk result (λ _. origins_by (from + length self.now.text) spans.new.items
            ≡ origins_by from spans.old.items ++ self.now.origins) }
        ensures front { origins_by from spans.new.items ≡ origins_by from spans.old.items }
        ensures sound { AreSpans (from + length self.now.text) spans.new.items }
    {
        self.form.push_spans(from, spans)
    }

    pub fn gap(&self) -> bool
        ensures { result ≡ self.now.gap }
    {
        self.gap
    }

    pub fn at(&self) -> Pos
        ensures { result ≡ self.now.at }
    {
        self.at
    }

    pub fn line(&self) -> u32
        ensures { result ≡ self.now.line }
    {
        self.line
    }

    pub fn direct(&self) -> bool
        ensures { result ≡ self.now.direct }
    {
        self.direct
    }
}

/// A list of tokens as one value. Contracts see the list.
#[derive(Drop)]
pub struct Toks {
    toks: Vec<Tok>,
}

impl Model for Toks {
    ghost use Rattle.std.specs.Prelude.{List};
    ghost use Rattle.cs_base.specs.Token.{Token};

    ghost Value = { List Token };

    ghost view = { λ t. t.toks.items };
}

impl Toks {
    pub fn new(toks: Vec<Tok>) -> Toks
        ensures { result ≡ toks.items }
    {
        Toks { toks }
    }

    pub fn as_slice(&self) -> &[Tok]
        ensures { result.now ≡ self.now }
    {
        self.toks.as_slice()
    }
}

/// Two tokens of equal spelling whose characters must stay equal, first to first and so on.
#[derive(Drop)]
pub struct Link {
    pub x: Tok,
    pub y: Tok,
}
