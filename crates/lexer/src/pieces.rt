// Pieces of a text, and what stands on a line (ISO/IEC 9899:1999, 6.4, 6.4.9, 6.10).
ghost use Rattle.std.specs.Prelude.{◌≡◌, ◌≤◌, ◌<◌, ◌+◌, ◌∷◌, ◌^◌, ℕ, IfSome, length, take, codes};
ghost use Rattle.std.specs.List.{prefix_len};
ghost use Rattle.std.specs.Str.{bytes_eq};
ghost use Rattle.lexer.specs.Characters.{is_on_line as on_line};
ghost use Rattle.lexer.specs.Tokens.{piece_of, token_piece as token_piece_of, piece_length, leaves_gap as leaves_gap_of, line_front_after, with_token as with_token_of, expects_header as header_expected, is_line_start as line_start, comment_end as end_of_comment, comment_or_open as piece_of_comment};
ghost use Rattle.lexer.specs.Lone.{IsLone};
ghost use Rattle.lexer.specs.Walk.{spelled, IsFirst};

use crate::characters::is_white;
use crate::front::front;
use crate::logical::{begins_with, next};
use crate::lone::Lone;
use cs_base::Kind;

/// The first piece of a text: white space or a comment, of so many characters, the end of a line, a
/// comment without end, or a token of this kind with so many characters.
#[derive(Clone, Copy)]
pub(crate) enum Piece {
    Blank(usize),
    LineEnd,
    OpenComment,
    Token(Kind, usize),
}

/// The tokens that stand on a line: none, the `#` of a directive, that and the word `include`, or others.
#[derive(Clone, Copy)]
pub(crate) enum LineFront {
    Nothing,
    Hash,
    Include,
    Tokens,
}

// How many characters stand to the end of the first `*/`.
fn comment_end(text: &[u8]) -> Option<usize>
    ensures answer { result ≡ end_of_comment (spelled text.now) }
    ensures within { IfSome result (λ n. n ≤ length text.now + 1) }
{
    let mut count: usize = 0;
    let mut rest = text;
    while let Some((c, behind)) = next(rest) {
        if c == b'*' && begins_with(b"/", behind) {
            return Some(count + 2);
        }
        count += 1;
        rest = behind;
    }
    None
}

// The comment whose characters behind `/*` are these.
fn block_comment(text: &[u8]) -> Piece
    ensures { result ≡ piece_of_comment (end_of_comment (spelled text.now)) }
{
    match comment_end(text) {
        Some(n) => Piece::Blank(n + 2),
        None => Piece::OpenComment,
    }
}

// How many characters stand before the end of the line.
pub(crate) fn count_on_line(text: &[u8]) -> usize
    ensures answer { result ≡ prefix_len on_line (spelled text.now) }
    ensures within { result ≤ length text.now }
{
    let mut count: usize = 0;
    let mut rest = text;
    while let Some((c, behind)) = next(rest) {
        if c == b'\n' {
            return count;
        }
        count += 1;
        rest = behind;
    }
    count
}

// The token that begins a text.
fn token_piece(header: bool, text: &[u8], first: u8, after: &[u8], lone: Lone) -> Piece
    requires first { IsFirst text.now first after.now }
    requires lone { IsLone lone (first ∷ spelled after.now) }
    ensures { result ≡ token_piece_of header (first ∷ spelled after.now) }
{
    let (kind, more) = front(header, text, first, after, lone);
    Piece::Token(kind, more + 1)
}

#[tactic(auto, unfolding(crate::specs::Tokens::piece_of))]
/// The first piece of a text that begins with `first`.
pub(crate) fn first_piece(header: bool, text: &[u8], first: u8, after: &[u8], lone: Lone) -> Piece
    requires first { IsFirst text.now first after.now }
    requires lone { IsLone lone (first ∷ spelled after.now) }
    ensures { result ≡ piece_of header first (spelled after.now) }
{
    if first == b'\n' {
        return Piece::LineEnd;
    }
    if is_white(first) {
        return Piece::Blank(1);
    }
    if first == b'/' {
        match next(after) {
            Some((b'/', _)) => return Piece::Blank(count_on_line(after) + 1),
            Some((b'*', behind)) => return block_comment(behind),
            _ => {}
        }
    }
    token_piece(header, text, first, after, lone)
}

fn is_spelled(word: &[u8], text: &[u8], n: usize) -> bool
    requires { n ≤ length (spelled text.now) }
    ensures { result ≡ bytes_eq (take n (spelled text.now)) word.now }
{
    n == word.len() && begins_with(word, text)
}

// What stands on a line once it has one more token, of n characters.
fn with_token(text: &[u8], n: usize, front: LineFront) -> LineFront
    requires { n ≤ length (spelled text.now) }
    ensures { result ≡ with_token_of (take n (spelled text.now)) front }
{
    match front {
        LineFront::Nothing => {
            if is_spelled(b"#", text, n) || is_spelled(b"%:", text, n) {
                LineFront::Hash
            } else {
                LineFront::Tokens
            }
        }
        LineFront::Hash => {
            if is_spelled(b"include", text, n) {
                LineFront::Include
            } else {
                LineFront::Tokens
            }
        }
        LineFront::Include => LineFront::Tokens,
        LineFront::Tokens => LineFront::Tokens,
    }
}

impl Piece {
    /// How many characters the piece has, where so many are left.
    pub(crate) fn len(self, left: usize) -> usize
        ensures { result ≡ piece_length left self }
    {
        match self {
            Piece::Blank(n) => n,
            Piece::LineEnd => 1,
            Piece::OpenComment => left,
            Piece::Token(_, n) => n,
        }
    }

    /// Whether a gap stands behind it.
    pub(crate) fn leaves_gap(self) -> bool
        ensures { result ≡ leaves_gap_of self }
    {
        match self {
            Piece::Token(_, _) => false,
            _ => true,
        }
    }
}

impl LineFront {
    /// Whether a header name may stand next.
    pub(crate) fn expects_header(self) -> bool
        ensures { result ≡ header_expected self }
    {
        match self {
            LineFront::Include => true,
            _ => false,
        }
    }

    /// Whether no token stands on the line.
    pub(crate) fn is_line_start(self) -> bool
        ensures { result ≡ line_start self }
    {
        match self {
            LineFront::Nothing => true,
            _ => false,
        }
    }

    /// What stands on the line once this piece of the text is read.
    pub(crate) fn after(self, text: &[u8], piece: Piece) -> LineFront
        requires { piece_length 0 piece ≤ length (spelled text.now) }
        ensures { result ≡ line_front_after (spelled text.now) self piece }
    {
        match piece {
            Piece::Blank(_) => self,
            Piece::LineEnd => LineFront::Nothing,
            Piece::OpenComment => self,
            Piece::Token(_, n) => with_token(text, n, self),
        }
    }
}
