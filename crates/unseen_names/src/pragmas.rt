// Words in the string literals of `_Pragma` operators (ISO/IEC 9899:1999, 6.10.9).
ghost use Rattle.std.specs.Prelude.{◌≡◌, ◌<◌, ◌++◌, true, OnOk, drop, length};
ghost use Rattle.analysis.specs.Below.lexer.Characters.{is_word as goes_on};
ghost use Rattle.unseen_names.specs.Pragmas.{begins_joined, begins_with_word, behind_encoding, closed_words, has_word_behind, inner_words, is_encoding, is_string_kind, operand_words, operator_words, pragma_words, span_behind, word_behind};

use cs_base::{Kind, Memory, Part, Pos, Tok};
use line_shape::{is_close, is_open, is_word};

// ---- words in a string literal

// Whether an identifier has the character.
fn goes_on(c: u8) -> bool
    ensures { result ≡ goes_on c }
{
    c.is_ascii_alphabetic() || c == b'_' || c.is_ascii_digit()
}

// Whether an identifier of this spelling stands first in a text.
fn begins_with_word(name: &[u8], text: &[u8]) -> bool
    ensures answer { result ≡ begins_with_word name.now text.now }
    ensures longer { result ≡ true → length name.now < length text.now }
{
    let len = name.len();
    if len < text.len() {
        name == &text[..len] && !goes_on(text[len])
    } else {
        false
    }
}

// Whether one stands behind the first character, which no identifier has.
fn has_word_behind(name: &[u8], text: &[u8]) -> bool
    ensures answer { result ≡ has_word_behind name.now text.now }
    ensures longer { result ≡ true → length name.now < length text.now }
{
    match text {
        [first, after @ ..] => !goes_on(*first) && begins_with_word(name, after),
        [] => false,
    }
}

// So many characters of a token behind number k.
fn span_behind(tok: &Tok, k: u32, len: u32) -> Part
    requires { k < length tok.now.text }
    ensures { result ≡ span_behind tok.now k len }
{
    let _text = tok.text();
    Part {
        start: tok.origins(k + 1).unwrap_or(Pos { file: 0, at: 0 }),
        len,
    }
}

// Adds where an identifier of this spelling stands behind character k of a token, if one does.
fn push_behind(out: &mut Vec<Part>, name: &[u8], tok: &Tok, k: usize) -> Result<(), Memory>
    requires { k < length tok.now.text }
    ensures { OnOk result (out.new.items ≡ out.old.items ++ word_behind name.now tok.now k (drop k tok.now.text)) }
{
    let text = tok.text();
    if has_word_behind(name, &text[k..]) {
        out.push(span_behind(tok, k as u32, name.len() as u32))?;
    }
    Ok(())
}

#[tactic(auto, unfolding(crate::specs::Pragmas::words_behind))]
// Adds where they stand in a string literal.
fn push_inner(out: &mut Vec<Part>, name: &[u8], tok: &Tok) -> Result<(), Memory>
    ensures { OnOk result (out.new.items ≡ out.old.items ++ inner_words name.now tok.now) }
{
    let text = tok.text();
    for k in 0..text.len() {
        push_behind(out, name, tok, k)?;
    }
    Ok(())
}

// ---- operators

fn is_string(tok: &Tok) -> bool
    ensures { result ≡ is_string_kind tok.now.kind }
{
    match tok.kind() {
        Kind::Str => true,
        _ => false,
    }
}

#[tactic(auto, unfolding(crate::specs::Pragmas::is_encoding))]
// Whether a token is an encoding prefix that is a name in files.
fn is_encoding(tok: &Tok) -> bool
    ensures { result ≡ is_encoding tok.now }
{
    is_word(tok, b"u8") || (is_word(tok, b"u") || is_word(tok, b"U"))
}

// Whether a token stands first, with no white space in front of it.
fn begins_joined(toks: &[Tok]) -> bool
    ensures { result ≡ begins_joined toks.now }
{
    match toks {
        [tok, ..] => !tok.gap(),
        [] => false,
    }
}

// The tokens behind such a prefix.
fn behind_encoding(toks: &[Tok]) -> &[Tok]
    ensures { result.now ≡ behind_encoding toks.now }
{
    match toks {
        [tok, after @ ..] => if is_encoding(tok) && begins_joined(after) {
            after
        } else {
            toks
        },
        [] => toks,
    }
}

// Adds those in a string literal that stands first, with `)` behind it.
fn push_closed(out: &mut Vec<Part>, name: &[u8], toks: &[Tok]) -> Result<(), Memory>
    ensures { OnOk result (out.new.items ≡ out.old.items ++ closed_words name.now toks.now) }
{
    match toks {
        [tok, close, ..] => {
            if is_string(tok) && is_close(close) {
                push_inner(out, name, tok)?;
            }
            Ok(())
        }
        _ => Ok(()),
    }
}

// Adds those in an operand.
fn push_operand(out: &mut Vec<Part>, name: &[u8], toks: &[Tok]) -> Result<(), Memory>
    ensures { OnOk result (out.new.items ≡ out.old.items ++ operand_words name.now toks.now) }
{
    match toks {
        [tok, after @ ..] => {
            if is_open(tok) {
                push_closed(out, name, behind_encoding(after))?;
            }
            Ok(())
        }
        [] => Ok(()),
    }
}

// Adds those of the operator that a token is, with these tokens behind it, if it is one.
fn push_operator(out: &mut Vec<Part>, name: &[u8], tok: &Tok, after: &[Tok]) -> Result<(), Memory>
    ensures { OnOk result (out.new.items ≡ out.old.items ++ operator_words name.now tok.now after.now) }
{
    if is_word(tok, b"_Pragma") {
        push_operand(out, name, after)?;
    }
    Ok(())
}

#[tactic(auto, unfolding(crate::specs::Pragmas::pragma_words))]
/// Adds where the identifiers of this spelling stand in the string literals of all operators among the tokens.
pub(crate) fn push_pragmas(out: &mut Vec<Part>, name: &[u8], toks: &[Tok]) -> Result<(), Memory>
    ensures { OnOk result (out.new.items ≡ out.old.items ++ pragma_words name.now toks.now) }
{
    let mut rest = toks;
    'tokens: while let [tok, after @ ..] = rest {
        push_operator(out, name, tok, after)?;
        rest = after;
    }
    Ok(())
}
