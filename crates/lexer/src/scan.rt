// The pieces of a file, from its first byte to its last.
ghost use Rattle.std.specs.Prelude.{◌≡◌, ◌≤◌, ◌<◌, ◌+◌, ◌-◌, ◌++◌, ◌==◌, ◌^◌, ℕ, IfOk, MatchResult, true, length, take, count_by};
ghost use Rattle.cs_base.specs.Limits.{most_bytes};
ghost use Rattle.lexer.specs.LineTable.{line_starts, place_in as place, IsTable};
ghost use Rattle.lexer.specs.Logical.{line_at as line_of};
ghost use Rattle.lexer.specs.Scan.{IsScanned, ScanRefused};
ghost use Rattle.lexer.specs.Tokens.{file_token as token_of, found_in, tokens_in, firsts_in};
ghost use Rattle.lexer.specs.Walk.{spelled};
ghost use Rattle.lexer.specs.declared.refusal.LexRefusal.TheVariants as refusal;

use crate::line_table::place_in;
use crate::logical::{behind, first_character, plain, spelling};
use crate::lone::{Lone, searched};
use crate::pieces::{LineFront, Piece, first_piece};
use crate::refusal::LexRefusal;
use cs_base::{Kind, Memory, Pos, Span, Tok};
use std::alloc::Global;

/// The tokens of a file, for each whether it is the first of its line, and the number of its characters.
#[derive(Drop)]
pub(crate) struct Scanned {
    pub(crate) toks: Vec<Tok>,
    pub(crate) firsts: Vec<bool>,
    pub(crate) len: u32,
}

// The token of a file that has this text, which begins at `at`.
fn file_token(
    alloc: Global,
    file: u32,
    line: u32,
    gap: bool,
    at: u32,
    kind: Kind,
    text: &[u8],
) -> Result<Tok, Memory>
    requires { at + length text.now < 2 ^ 32 }
    ensures { IfOk result (λ t. t ≡ token_of file line gap at kind text.now) }
{
    let start = Pos { file, at };
    let span = Span {
        from: 0,
        len: text.len() as u32,
        start,
    };
    Tok::with_spans(alloc, kind, text, &[span], gap, start, line, true)
}

// The same, where the text is the first n characters of these bytes.
fn token_at(
    alloc: Global,
    file: u32,
    line: u32,
    gap: bool,
    at: u32,
    kind: Kind,
    here: &[u8],
    n: usize,
) -> Result<Tok, Memory>
    requires { at + length here.now < 2 ^ 32 }
    ensures { IfOk result (λ t. t ≡ token_of file line gap at kind (take n (spelled here.now))) }
{
    match plain(here, n) {
        // Mostly no splice stands in a token, and the bytes need no copy.
        Some(text) => file_token(alloc, file, line, gap, at, kind, text),
        None => {
            let text = spelling(alloc, here, n)?;
            file_token(alloc, file, line, gap, at, kind, text.as_slice())
        }
    }
}

// The line of the bytes at `to`, where those at `from`, which they end, stand on this line.
fn line_at(line: u32, from: &[u8], to: &[u8]) -> u32
    requires bound { line + length from.now < 2 ^ 32 }
    requires within { length to.now ≤ length from.now }
    ensures { result ≡ line + count_by (λ b. b == 10) (take (length from.now - length to.now) from.now) }
{
    let (passed, _) = from.split_at(from.len() - to.len());
    line + passed.iter().filter(|b| **b == b'\n').count() as u32
}

// The refusal of a comment without end that begins at character `at` and at this offset.
fn open_comment(starts: &[u32], size: u32, at: u32, offset: u32) -> LexRefusal
    requires table { IsTable size starts.now }
    requires within { offset < size }
    ensures { result ≡ refusal.OpenComment at (place starts.now offset).0 (place starts.now offset).1 }
{
    let (line, column) = place_in(starts, size, offset);
    LexRefusal::OpenComment { at, line, column }
}

// Adds the token that the piece is, if it is one.
fn add_piece(
    alloc: Global,
    file: u32,
    line: u32,
    gap: bool,
    front: LineFront,
    at: u32,
    here: &[u8],
    piece: Piece,
    toks: &mut Vec<Tok>,
    firsts: &mut Vec<bool>,
) -> Result<(), Memory>
    requires { at + length here.now < 2 ^ 32 }
    ensures toks { IfOk result (λ _. toks.new.items ≡ toks.old.items ++ tokens_in (found_in file line gap front at (spelled here.now) piece)) }
    ensures firsts { IfOk result (λ _. firsts.new.items ≡ firsts.old.items ++ firsts_in (found_in file line gap front at (spelled here.now) piece)) }
{
    match piece {
        Piece::Token(kind, n) => {
            let tok = token_at(alloc, file, line, gap, at, kind, here, n)?;
            toks.push(tok)?;
            firsts.push(front.is_line_start())?;
            Ok(())
        }
        _ => Ok(()),
    }
}

/// The tokens of the file, or the first comment that has no end.
pub(crate) fn scan(
    alloc: Global,
    file: u32,
    bytes: &[u8],
    starts: &[u32],
) -> Result<Scanned, LexRefusal>
    requires small { length bytes.now ≤ most_bytes }
    requires table { starts.now ≡ line_starts bytes.now }
    ensures { MatchResult result (λ s. IsScanned file bytes.now s) (λ e. ScanRefused bytes.now e) }
{
    let mut toks = Vec::new(alloc);
    let mut firsts = Vec::new(alloc);
    let mut rest = bytes;
    let mut at = 0;
    let mut line = 1;
    let mut gap = true;
    let mut front = LineFront::Nothing;
    let mut lone = Lone {
        single: 0,
        double: 0,
    };
    while let Some((here, first, after)) = first_character(rest) {
        let line_here = line_at(line, rest, here);
        let piece = first_piece(front.expects_header(), here, first, after, lone);
        if let Piece::OpenComment = piece {
            let size = bytes.len() as u32;
            return Err(open_comment(starts, size, at, size - here.len() as u32));
        }
        add_piece(
            alloc,
            file,
            line_here,
            gap,
            front,
            at,
            here,
            piece,
            &mut toks,
            &mut firsts,
        )?;
        let n = piece.len(0);
        rest = behind(after, n - 1);
        line = line_at(line_here, here, rest);
        at += n as u32;
        gap = piece.leaves_gap();
        front = front.after(here, piece);
        lone = searched(lone, first, after).behind(n);
    }
    Ok(Scanned {
        toks,
        firsts,
        len: at,
    })
}
