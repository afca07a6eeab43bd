// The words of workspace lines.
ghost use Rattle.std.specs.Prelude.{◌≡◌};
ghost use Rattle.ws_file.specs.Lines.{line_word};

use crate::text_tests::is_text;

/// What a line is about, by its first word.
#[derive(Clone, Copy, Debug, PartialEq, Eq)]
pub enum LineWord {
    Project,
    Standard,
    Qpath,
    Ipath,
    Readonly,
    Define,
    Undefine,
    Include,
    File,
    Other,
}

#[tactic(auto, unfolding(crate::specs::Lines::line_word))]
/// The meaning of the first word.
pub fn word_of(word: &[u8]) -> LineWord
    ensures { result ≡ line_word word.now }
{
    if is_text(word, b"project") {
        LineWord::Project
    } else if is_text(word, b"standard") {
        LineWord::Standard
    } else if is_text(word, b"qpath") {
        LineWord::Qpath
    } else if is_text(word, b"ipath") {
        LineWord::Ipath
    } else if is_text(word, b"readonly") {
        LineWord::Readonly
    } else if is_text(word, b"define") {
        LineWord::Define
    } else if is_text(word, b"undefine") {
        LineWord::Undefine
    } else if is_text(word, b"include") {
        LineWord::Include
    } else if is_text(word, b"file") {
        LineWord::File
    } else {
        LineWord::Other
    }
}
