// What an include line asks for (6.10.2).
ghost use Rattle.std.specs.Prelude.{◌≡◌, ◌<◌, ◌++◌, ◌&&◌, ◌||◌, not, false, None, Some, IfOk, IfSome, MatchOption, length};
ghost use Rattle.std.specs.List.{list_any, position};
ghost use Rattle.std.specs.Option.{option_map};
ghost use Rattle.lexer.specs.Characters.{begins, double_quote};
ghost use Rattle.source_files.specs.Search.{header};
ghost use Rattle.source_files.specs.HeaderNames.{is_header, is_string, inside, header_in, is_less, is_greater, before_greater, gap_text, spaced, spelled, header_of_string, header_of_signs, header_of_toks, until_greater, header_behind_less, header_at, begins_header};

use crate::signs::{is_greater, is_less};
use cs_base::{Kind, Memory, Text, Tok};
use std::alloc::Global;
use std::marker::Model;

// A name, and whether it is looked for in the directory of the file too.
#[derive(Drop)]
pub struct Header {
    quoted: bool,
    name: Text,
}

impl Model for Header {
    ghost use Rattle.source_files.specs.Search.{Header as Asked, header};

    ghost Value = { Asked };

    ghost view = { λ h. header h.quoted h.name };
}

impl Header {
    ghost use Rattle.source_files.specs.Search.{header};

    fn new(quoted: bool, name: Text) -> Header
        ensures { result ≡ header quoted name }
    {
        Header { quoted, name }
    }

    pub fn quoted(&self) -> bool
        ensures { result ≡ self.now.quoted }
    {
        self.quoted
    }

    pub fn name(&self) -> &[u8]
        ensures { result.now ≡ self.now.name }
    {
        self.name.bytes()
    }
}

/// A header name, which stands behind `include` alone.
pub fn is_header(tok: &Tok) -> bool
    ensures { result ≡ is_header tok.now.kind }
{
    match tok.kind() {
        Kind::Header => true,
        _ => false,
    }
}

/// A string literal.
pub fn is_string(tok: &Tok) -> bool
    ensures { result ≡ is_string tok.now.kind }
{
    match tok.kind() {
        Kind::Str => true,
        _ => false,
    }
}

fn begins_with_quote(text: &[u8]) -> bool
    ensures { result ≡ begins double_quote text.now }
{
    match text {
        [first, ..] => *first == b'"',
        [] => false,
    }
}

// A text without its first and its last character.
fn inside(text: &[u8]) -> &[u8]
    ensures { result.now ≡ inside text.now }
{
    if text.len() < 2 {
        b""
    } else {
        &text[1..text.len() - 1]
    }
}

// The name of a header name or a string (6.4.7, 6.10.2 paragraph 4).
pub fn header_in(alloc: Global, text: &[u8]) -> Result<Header, Memory>
    ensures { IfOk result (λ h. h ≡ header_in text.now) }
{
    let name = Text::new(alloc, inside(text))?;
    Ok(Header::new(begins_with_quote(text), name))
}

// The tokens before the first `>`, which stands last; none where it does not.
fn before_greater(toks: &[Tok]) -> Option<&[Tok]>
    ensures { MatchOption result (before_greater toks.now ≡ None) (λ front. before_greater toks.now ≡ Some front.now) }
{
    match toks.split_last() {
        Some((last, front)) => {
            if ends_there(front, last) {
                Some(front)
            } else {
                None
            }
        }
        None => None,
    }
}

// The last is the only `>`.
fn ends_there(front: &[Tok], last: &Tok) -> bool
    ensures { result ≡ (is_greater last.now && not (list_any is_greater front.now)) }
{
    is_greater(last) && !has_greater(front)
}

fn has_greater(toks: &[Tok]) -> bool
    ensures { result ≡ list_any is_greater toks.now }
{
    toks.iter().any(is_greater)
}

// The spelling of tokens, without the space of the first.
fn spelled(alloc: Global, toks: &[Tok]) -> Result<Vec<u8>, Memory>
    ensures { IfOk result (λ text. text.items ≡ spelled toks.now) }
{
    let mut text = Vec::new(alloc);
    if let Some((first, rest)) = toks.split_first() {
        text.extend_from_slice(first.text())?;
        push_spaced(&mut text, rest)?;
    }
    Ok(text)
}

// Adds the spelling of tokens, one space where a token has white space before it.
fn push_spaced(text: &mut Vec<u8>, toks: &[Tok]) -> Result<(), Memory>
    ensures { IfOk result (λ _. text.new.items ≡ text.old.items ++ spaced toks.now) }
{
    for tok in toks {
        push_spelling(text, tok)?;
    }
    Ok(())
}

fn push_spelling(text: &mut Vec<u8>, tok: &Tok) -> Result<(), Memory>
    ensures { IfOk result (λ _. text.new.items ≡ text.old.items ++ (gap_text tok.now.gap ++ tok.now.text)) }
{
    if tok.gap() {
        text.push(b' ')?;
    }
    text.extend_from_slice(tok.text())?;
    Ok(())
}

// The header that a string names: it has no `L`.
fn header_of_string(alloc: Global, tok: &Tok) -> Result<Option<Header>, Memory>
    ensures { IfOk result (λ h. h ≡ header_of_string tok.now) }
{
    if is_string(tok) && begins_with_quote(tok.text()) {
        Ok(Some(header_in(alloc, tok.text())?))
    } else {
        Ok(None)
    }
}

// The header that tokens between `<` and `>` name.
fn header_of_signs(alloc: Global, toks: &[Tok]) -> Result<Option<Header>, Memory>
    ensures { IfOk result (λ h. h ≡ header_of_signs toks.now) }
{
    match toks.split_first() {
        Some((first, rest)) => {
            if is_less(first) {
                header_before(alloc, rest)
            } else {
                Ok(None)
            }
        }
        None => Ok(None),
    }
}

// The header whose name stands before the `>`.
fn header_before(alloc: Global, toks: &[Tok]) -> Result<Option<Header>, Memory>
    ensures { IfOk result (λ h. h ≡ option_map (λ front. header false (spelled front)) (before_greater toks.now)) }
{
    match before_greater(toks) {
        Some(front) => {
            let text = spelled(alloc, front)?;
            Ok(Some(Header::new(false, Text::new(alloc, &text)?)))
        }
        None => Ok(None),
    }
}

/// The header that the tokens of an expanded include line name, if they have one of the two forms.
pub fn header_of_toks(alloc: Global, toks: &[Tok]) -> Result<Option<Header>, Memory>
    ensures { IfOk result (λ h. h ≡ header_of_toks toks.now) }
{
    match toks {
        [tok] => header_of_string(alloc, tok),
        _ => header_of_signs(alloc, toks),
    }
}

/// The index of the first `>`.
pub fn greater_at(toks: &[Tok]) -> Option<usize>
    ensures answer { result ≡ position is_greater toks.now }
    ensures within { IfSome result (λ k. k < length toks.now) }
{
    toks.iter().position(|tok| is_greater(tok))
}

// The tokens before the first `>`, if there is one.
fn until_greater(toks: &[Tok]) -> Option<&[Tok]>
    ensures { MatchOption result (until_greater toks.now ≡ None) (λ front. until_greater toks.now ≡ Some front.now) }
{
    match greater_at(toks) {
        Some(k) => Some(&toks[..k]),
        None => None,
    }
}

// The header between `<` and the first `>`.
fn header_behind_less(alloc: Global, toks: &[Tok]) -> Result<Option<Header>, Memory>
    ensures { IfOk result (λ h. h ≡ header_behind_less toks.now) }
{
    match toks.split_first() {
        Some((first, rest)) if is_less(first) => match until_greater(rest) {
            Some(front) => {
                let text = spelled(alloc, front)?;
                Ok(Some(Header::new(false, Text::new(alloc, &text)?)))
            }
            None => Ok(None),
        },
        _ => Ok(None),
    }
}

/// The header with which tokens begin that are no header name to the lexer, as they stand.
pub fn header_at(alloc: Global, toks: &[Tok]) -> Result<Option<Header>, Memory>
    ensures { IfOk result (λ h. h ≡ header_at toks.now) }
{
    match toks.split_first() {
        Some((first, _)) => match header_of_string(alloc, first)? {
            Some(header) => Ok(Some(header)),
            None => header_behind_less(alloc, toks),
        },
        None => Ok(None),
    }
}

/// Whether tokens begin as such a header does.
pub fn begins_header(toks: &[Tok]) -> bool
    ensures { result ≡ begins_header toks.now }
{
    match toks.split_first() {
        Some((first, rest)) => begins_with(first, rest),
        None => false,
    }
}

fn begins_with(first: &Tok, rest: &[Tok]) -> bool
    ensures { result ≡ (is_string first.now.kind || (is_less first.now && list_any is_greater rest.now)) }
{
    is_string(first) || is_less(first) && has_greater(rest)
}
