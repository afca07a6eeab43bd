// The parts of a workspace file and of its lines.
ghost use Rattle.std.specs.Prelude.{◌≡◌, ◌<◌, ◌∷◌, IsTrue, length};
ghost use Rattle.ws_file.specs.Lines.{lines_of, without_first_blanks, without_last_blanks, trimmed, first_word, rest_of};
ghost use Rattle.std.specs.List.{prefix_len, position_or_len};
ghost use Rattle.cs_base.specs.Units.{is_blank};
ghost use Rattle.ws_file.specs.Taking.{is_no_feed, has_no_feed};

use crate::text_tests::is_blank;

/// The first line, and what follows its line feed.
pub fn first_line(bytes: &[u8]) -> (&[u8], &[u8])
    requires { 0 < length bytes.now }
    ensures lines { lines_of bytes.now ≡ result.0.now ∷ lines_of result.1.now }
    ensures one_line { IsTrue (has_no_feed result.0.now) }
    ensures shorter { length result.1.now < length bytes.now }
{
    let (line, after) = bytes.split_at(line_len(bytes));
    match after.split_first() {
        Some((_, more)) => (line, more),
        None => (line, after),
    }
}

fn line_len(bytes: &[u8]) -> usize
    ensures { result ≡ prefix_len is_no_feed bytes.now }
{
    bytes.iter().take_while(|b| **b != b'\n').count()
}

/// The text without the blanks that it begins with.
fn without_first_blanks(text: &[u8]) -> &[u8]
    ensures { result.now ≡ without_first_blanks text.now }
{
    let mut rest = text;
    while let Some((first, more)) = rest.split_first() {
        if !is_blank(*first) {
            break;
        }
        rest = more;
    }
    rest
}

/// The text without the blanks that it ends with.
fn without_last_blanks(text: &[u8]) -> &[u8]
    ensures { result.now ≡ without_last_blanks text.now }
{
    let mut rest = text;
    while let Some((last, front)) = rest.split_last() {
        if !is_blank(*last) {
            break;
        }
        rest = front;
    }
    rest
}

#[tactic(auto, unfolding(crate::specs::Lines::trimmed))]
/// The text without the blanks at its ends.
pub fn trimmed(text: &[u8]) -> &[u8]
    ensures { result.now ≡ trimmed text.now }
{
    without_last_blanks(without_first_blanks(text))
}

#[tactic(auto, unfolding(crate::specs::Lines::first_word, crate::specs::Lines::rest_of))]
/// The first word, and the rest behind the blanks after it.
pub fn word_and_rest(text: &[u8]) -> (&[u8], &[u8])
    ensures word { result.0.now ≡ first_word text.now }
    ensures rest { result.1.now ≡ rest_of text.now }
{
    let (word, after) = text.split_at(word_len(text));
    (word, without_first_blanks(after))
}

fn word_len(text: &[u8]) -> usize
    ensures { result ≡ position_or_len is_blank text.now }
{
    text.iter().take_while(|b| !is_blank(**b)).count()
}
