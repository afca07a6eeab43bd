//! Preprocessing tokens of one source file: translation phases 2 and 3 (ISO/IEC 9899:1999, 5.1.1.2).
//!
//! `lex` takes the bytes of a file and gives its preprocessing tokens, each with the positions of its characters in the
//! logical text, and the place of each character by byte, line and column. It equals `file_text` of
//! `specs/FileText.antt`, whose tokens are `tokens_of` of `specs/Tokens.antt`. A keyword is an identifier here and `#`
//! a punctuator: directives, macros and C belong to the crates above; a header name is read only behind the word
//! `include` of a line that begins with `#`.
//!
//! Refused: a file past 2^22 bytes, a comment without end. `one_token`, `is_identifier` and the readers of `FileText`
//! take no memory. The law `places_are_inverse` goes the way back from lines and columns: a character of a file's
//! logical text has the line and the column at which it is found, and no other. Read `specs/Logical.antt`,
//! `specs/Spelling.antt` and `specs/Tokens.antt`, then `scan.rt`; of the law `specs/Inverse.antt`.
#![tactic(auto)]

ghost use Rattle.std.specs.Prelude.{◌≡◌, ◌<◌, ◌≤◌, ◌↔◌, length, IsErrOf};
ghost use Rattle.cs_base.specs.Answer.{Gives};
ghost use Rattle.cs_base.specs.Limits.{most_bytes};
ghost use Rattle.lexer.specs.FileText.{file_text};
ghost use Rattle.lexer.specs.Refusal.{fault_of};

mod characters;
mod file_text;
mod front;
mod gone_table;
mod inverse;
mod laws;
mod line_table;
mod logical;
mod lone;
mod pieces;
mod refusal;
mod scan;
mod single;

use cs_base::MOST_BYTES;
pub use file_text::FileText;
pub use front::is_identifier;
pub use inverse::places_are_inverse;
pub use laws::tokens_can_be_renamed;
pub use refusal::LexRefusal;
pub use single::one_token;
use std::alloc::Global;

/// The text of file number `file`, or the first fault.
pub fn lex(alloc: Global, file: u32, bytes: &[u8]) -> Result<FileText, LexRefusal>
    ensures too_large { IsErrOf result LexRefusal.FileTooLarge ↔ (most_bytes < length bytes.now) }
    ensures answer { Gives (λ text. text) fault_of result (file_text file bytes.now) }
{
    if bytes.len() > MOST_BYTES {
        return Err(LexRefusal::FileTooLarge);
    }
    let starts = line_table::line_starts(alloc, bytes)?;
    let scanned = match scan::scan(alloc, file, bytes, starts.as_slice()) {
        Ok(scanned) => scanned,
        Err(refusal) => return Err(refusal),
    };
    Ok(FileText {
        toks: scanned.toks,
        firsts: scanned.firsts,
        len: scanned.len,
        size: bytes.len() as u32,
        starts,
        gone: gone_table::gone_offsets(alloc, bytes)?,
        marks: gone_table::gone_marks(alloc, bytes)?,
    })
}
