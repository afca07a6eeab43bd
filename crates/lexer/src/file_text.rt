// The text of a source file: its tokens, and where each of its characters stands.
ghost use Rattle.std.specs.Prelude.{◌≡◌, ◌≤◌, ◌<◌, ◌+◌, ◌^◌, ◌↔◌, nat_lt, if◌then◌else◌, ℕ, List, IfSome, Ok, Some, None, length, get_or, false};
ghost use Rattle.lexer.specs.Tokens.{tokens_of, firsts_of};
ghost use Rattle.lexer.specs.Lines.{byte_offset_of, line_column_of, offset_of};
ghost use Rattle.lexer.specs.FileText.{file_text, byte_at, place_at, place_byte as byte_place, offset_at};

use crate::gone_table::{byte_in, character_in};
use crate::line_table::{offset_in, place_in};
use cs_base::Tok;
use std::marker::Model;

/// The tokens of one source file, with the table of its line starts and that of the bytes that are no
/// logical character. It keeps no copy of the file.
#[derive(Drop)]
pub struct FileText {
    pub(crate) toks: Vec<Tok>,
    pub(crate) firsts: Vec<bool>,
    pub(crate) len: u32,
    pub(crate) size: u32,
    pub(crate) starts: Vec<u32>,
    pub(crate) gone: Vec<u32>,
    pub(crate) marks: Vec<u32>,
}

impl Model for FileText {
    ghost use Rattle.lexer.specs.FileText.{TextValue, IsText};

    ghost Value = { TextValue };

    ghost view = { λ t. record { toks = t.toks.items; firsts = t.firsts.items; len = t.len; size = t.size; starts = t.starts.items; gone = t.gone.items; marks = t.marks.items } };

    ghost invariant = { λ t. IsText t.toks.items t.firsts.items t.len t.size t.starts.items t.gone.items t.marks.items };
}

impl FileText {
    /// The tokens, in order.
    pub fn toks(&self) -> &[Tok]
        ensures value { result.now ≡ self.now.toks }
        ensures answer { (file : ℕ) (bytes : List ℕ) → file_text file bytes ≡ Ok self.now → result.now ≡ tokens_of file bytes }
    {
        self.toks.as_slice()
    }

    /// Whether token k, from 0, is the first of its line. A line ends at a line feed that stands in no
    /// comment.
    pub fn begins_line(&self, k: u32) -> bool
        requires { k < length self.now.toks }
        ensures value { result ≡ get_or self.now.firsts k false }
        ensures answer { (file : ℕ) (bytes : List ℕ) → file_text file bytes ≡ Ok self.now → result ≡ get_or (firsts_of bytes) k false }
    {
        self.firsts[k as usize]
    }

    /// The byte of the file, from 0, at which logical character `at` stands.
    pub fn byte_of(&self, at: u32) -> Option<u32>
        ensures value { result ≡ byte_at self.now at }
        ensures within { IfSome result (λ byte. byte < self.now.size) }
        ensures answer { (file : ℕ) (bytes : List ℕ) → file_text file bytes ≡ Ok self.now → result ≡ byte_offset_of bytes at }
    {
        if at < self.len {
            Some(byte_in(self.marks.as_slice(), at))
        } else {
            None
        }
    }

    /// The line and the column of logical character `at`, both from 1.
    pub fn line_column(&self, at: u32) -> Option<(u32, u32)>
        ensures value { result ≡ place_at self.now at }
        ensures answer { (file : ℕ) (bytes : List ℕ) → file_text file bytes ≡ Ok self.now → result ≡ line_column_of bytes at }
    {
        let offset = self.byte_of(at)?;
        Some(place_in(self.starts.as_slice(), self.size, offset))
    }

    // The byte at a line and a column.
    fn place_byte(&self, line: u32, column: u32) -> Option<u32>
        ensures value { result ≡ byte_place self.now line column }
    {
        if line == 0 || column == 0 {
            return None;
        }
        offset_in(
            self.starts.as_slice(),
            self.size,
            (line - 1) as usize,
            column - 1,
        )
    }

    /// The logical character at a line and a column, both from 1.
    pub fn at_of(&self, line: u32, column: u32) -> Option<u32>
        ensures value { result ≡ offset_at self.now line column }
        ensures answer { (file : ℕ) (bytes : List ℕ) → file_text file bytes ≡ Ok self.now → result ≡ offset_of bytes line column }
    {
        let offset = self.place_byte(line, column)?;
        character_in(self.gone.as_slice(), offset)
    }
}
