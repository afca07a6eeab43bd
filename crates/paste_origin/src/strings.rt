// The operator # (ISO/IEC 9899:1999, 6.10.3.2).
ghost use Rattle.std.specs.Prelude.{◌≡◌, ◌++◌, ◌+◌, ◌<◌, ◌^◌, false, [], ◌∷◌, IfOk, length};
ghost use Rattle.cs_base.specs.Answer.{Gives};
ghost use Rattle.cs_base.specs.Spans.{AreSpans, origins_by};
ghost use Rattle.paste_origin.specs.Strings.{is_quoted as quoted, needs_backslash as backslash_needed, escaped, escaped_origins, spelling_of, origins_of, later_spelling, later_origins, spellings_of, all_origins, string_text, string_origins, stringize_of};
ghost use Rattle.paste_origin.specs.Told.{told_so_far};
ghost use Rattle.lexer.specs.Characters.{double_quote};
ghost use Rattle.lexer.specs.Spelling.{closes as text_closes, is_plain_string_text};
ghost use Rattle.paste_origin.specs.Refusals.{string_fault_of};

use crate::string_refusal::StrRefusal;
use cs_base::{Kind, Memory, Pos, Span, Tok};
use std::alloc::Global;

// Whether a token is a character constant or a string literal.
fn is_quoted(kind: Kind) -> bool
    ensures { result ≡ quoted kind }
{
    match kind {
        Kind::Char | Kind::Str => true,
        _ => false,
    }
}

// Whether a backslash goes before this character of a token.
fn needs_backslash(kind: Kind, c: u8) -> bool
    ensures { result ≡ backslash_needed kind c }
{
    is_quoted(kind) && (c == b'"' || c == b'\\')
}

// Adds the origin of character `at`, if it has one.
fn push_origin(spans: &mut Vec<Span>, at: u32, origin: Option<Pos>) -> Result<(), Memory>
    requires told { AreSpans at spans.old.items }
    ensures origins { IfOk result (λ _. origins_by (at + 1) spans.new.items ≡ origins_by at spans.old.items ++ origin ∷ []) }
    ensures sound { IfOk result (λ _. AreSpans (at + 1) spans.new.items) }
{
    if let Some(start) = origin {
        spans.push(Span {
            from: at,
            len: 1,
            start,
        })?;
    }
    Ok(())
}

// Adds a character with this origin, if it has one.
fn push_character(
    text: &mut Vec<u8>,
    spans: &mut Vec<Span>,
    c: u8,
    origin: Option<Pos>,
) -> Result<(), Memory>
    requires told { AreSpans (length text.old.items) spans.old.items }
    ensures text { IfOk result (λ _. text.new.items ≡ text.old.items ++ c ∷ []) }
    ensures origins { IfOk result (λ _. told_so_far text.new.items spans.new.items ≡ told_so_far text.old.items spans.old.items ++ origin ∷ []) }
    ensures sound { IfOk result (λ _. AreSpans (length text.new.items) spans.new.items) }
{
    if text.len() > u32::MAX as usize {
        return Err(Memory);
    }
    push_origin(spans, text.len() as u32, origin)?;
    text.push(c)?;
    Ok(())
}

// Adds a character of a token. A backslash that goes before it has no origin.
fn push_escaped(
    text: &mut Vec<u8>,
    spans: &mut Vec<Span>,
    kind: Kind,
    c: u8,
    origin: Option<Pos>,
) -> Result<(), Memory>
    requires told { AreSpans (length text.old.items) spans.old.items }
    ensures text { IfOk result (λ _. text.new.items ≡ text.old.items ++ escaped kind c) }
    ensures origins { IfOk result (λ _. told_so_far text.new.items spans.new.items
        ≡ told_so_far text.old.items spans.old.items ++ escaped_origins kind c origin) }
    ensures sound { IfOk result (λ _. AreSpans (length text.new.items) spans.new.items) }
{
    if needs_backslash(kind, c) {
        push_character(text, spans, b'\\', None)?;
    }
    push_character(text, spans, c, origin)
}

// Adds the spelling of a token, character by character.
fn push_quoted(text: &mut Vec<u8>, spans: &mut Vec<Span>, tok: &Tok) -> Result<(), Memory>
    requires told { AreSpans (length text.old.items) spans.old.items }
    ensures text { IfOk result (λ _. text.new.items ≡ text.old.items ++ spelling_of tok.now) }
    ensures origins { IfOk result (λ _. told_so_far text.new.items spans.new.items
        ≡ told_so_far text.old.items spans.old.items ++ origins_of tok.now) }
    ensures sound { IfOk result (λ _. AreSpans (length text.new.items) spans.new.items) }
{
    for k in 0..tok.text().len() {
        push_escaped(
            text,
            spans,
            tok.kind(),
            tok.text()[k],
            tok.origins(k as u32),
        )?;
    }
    Ok(())
}

// Adds the spelling of a token that gets no backslash: its spans are taken as they are.
fn push_plain(text: &mut Vec<u8>, spans: &mut Vec<Span>, tok: &Tok) -> Result<(), Memory>
    requires told { AreSpans (length text.old.items) spans.old.items }
    requires plain { quoted tok.now.kind ≡ false }
    ensures text { IfOk result (λ _. text.new.items ≡ text.old.items ++ spelling_of tok.now) }
    ensures origins { IfOk result (λ _. told_so_far text.new.items spans.new.items
        ≡ told_so_far text.old.items spans.old.items ++ origins_of tok.now) }
    ensures sound { IfOk result (λ _. AreSpans (length text.new.items) spans.new.items) }
{
    let more = tok.text();
    if text.len() > u32::MAX as usize || more.len() > u32::MAX as usize - text.len() {
        return Err(Memory);
    }
    tok.push_spans(text.len() as u32, spans)?;
    text.extend_from_slice(more)?;
    Ok(())
}

// Adds the spelling of a token.
fn push_spelling(text: &mut Vec<u8>, spans: &mut Vec<Span>, tok: &Tok) -> Result<(), Memory>
    requires told { AreSpans (length text.old.items) spans.old.items }
    ensures text { IfOk result (λ _. text.new.items ≡ text.old.items ++ spelling_of tok.now) }
    ensures origins { IfOk result (λ _. told_so_far text.new.items spans.new.items
        ≡ told_so_far text.old.items spans.old.items ++ origins_of tok.now) }
    ensures sound { IfOk result (λ _. AreSpans (length text.new.items) spans.new.items) }
{
    if is_quoted(tok.kind()) {
        push_quoted(text, spans, tok)
    } else {
        push_plain(text, spans, tok)
    }
}

// Adds the spelling of a token behind another one. The space between them has no origin.
fn push_later_spelling(text: &mut Vec<u8>, spans: &mut Vec<Span>, tok: &Tok) -> Result<(), Memory>
    requires told { AreSpans (length text.old.items) spans.old.items }
    ensures text { IfOk result (λ _. text.new.items ≡ text.old.items ++ later_spelling tok.now) }
    ensures origins { IfOk result (λ _. told_so_far text.new.items spans.new.items
        ≡ told_so_far text.old.items spans.old.items ++ later_origins tok.now) }
    ensures sound { IfOk result (λ _. AreSpans (length text.new.items) spans.new.items) }
{
    if tok.gap() {
        push_character(text, spans, b' ', None)?;
    }
    push_spelling(text, spans, tok)
}

// Adds the spellings of the tokens.
fn push_spellings(text: &mut Vec<u8>, spans: &mut Vec<Span>, toks: &[Tok]) -> Result<(), Memory>
    requires told { AreSpans (length text.old.items) spans.old.items }
    ensures text { IfOk result (λ _. text.new.items ≡ text.old.items ++ spellings_of toks.now) }
    ensures origins { IfOk result (λ _. told_so_far text.new.items spans.new.items
        ≡ told_so_far text.old.items spans.old.items ++ all_origins toks.now) }
    ensures sound { IfOk result (λ _. AreSpans (length text.new.items) spans.new.items) }
{
    if let [first, later @ ..] = toks {
        push_spelling(text, spans, first)?;
        for tok in later {
            push_later_spelling(text, spans, tok)?;
        }
    }
    Ok(())
}

// Adds the string that the tokens make to nothing.
fn push_string(text: &mut Vec<u8>, spans: &mut Vec<Span>, toks: &[Tok]) -> Result<(), Memory>
    requires no_text { text.old.items ≡ [] }
    requires no_spans { spans.old.items ≡ [] }
    ensures text { IfOk result (λ _. text.new.items ≡ string_text toks.now) }
    ensures origins { IfOk result (λ _. told_so_far text.new.items spans.new.items ≡ string_origins toks.now) }
    ensures sound { IfOk result (λ _. AreSpans (length text.new.items) spans.new.items) }
{
    push_character(text, spans, b'"', None)?;
    push_spellings(text, spans, toks)?;
    push_character(text, spans, b'"', None)?;
    Ok(())
}

// Whether the characters behind the first quote of a string literal end with its last one.
fn closes(text: &[u8]) -> bool
    ensures { result ≡ text_closes double_quote false text.now }
{
    let mut escaped = false;
    for k in 0..text.len() {
        let c = text[k];
        if c == b'"' && !escaped {
            return k + 1 == text.len();
        }
        if c == b'\n' {
            return false;
        }
        escaped = !escaped && c == b'\\';
    }
    false
}

// Whether a text is one string literal.
fn is_one_string(text: &[u8]) -> bool
    ensures { result ≡ is_plain_string_text text.now }
{
    match text {
        [first, rest @ ..] => *first == b'"' && closes(rest),
        _ => false,
    }
}

/// The string literal that `#` makes of an argument's tokens (6.10.3.2 paragraph 2): their spelling,
/// one space for white space between two of them, a backslash before each double quote and backslash
/// of a character constant or a string literal. Each character of theirs keeps its origin; the quotes, the
/// spaces and the backslashes that are added have none. The labels are blank: no gap, position 0 of file 0,
/// line 0, not direct.
///
/// Refused: `NotAString` exactly where that text is not one string literal and nothing more. A text of 2^32 characters
/// or more is answered by `Memory`. A refused call changes nothing.
#[tactic(auto, unfolding(crate::specs::Strings::stringize_of))]
pub fn stringize(alloc: Global, toks: &[Tok]) -> Result<Tok, StrRefusal>
    requires few { length toks.now < 2 ^ 32 }
    ensures answer { Gives (λ t. t) string_fault_of result (stringize_of toks.now) }
{
    let mut text = Vec::new(alloc);
    let mut spans = Vec::new(alloc);
    push_string(&mut text, &mut spans, toks)?;
    if !is_one_string(text.as_slice()) {
        return Err(StrRefusal::NotAString);
    }
    Ok(Tok::with_spans(
        alloc,
        Kind::Str,
        text.as_slice(),
        spans.as_slice(),
        false,
        Pos { file: 0, at: 0 },
        0,
        false,
    )?)
}
