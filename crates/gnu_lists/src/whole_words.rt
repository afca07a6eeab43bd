// Whole words in a text for the assembler.
ghost use Rattle.std.specs.Prelude.{◌≡◌};
ghost use Rattle.gnu_lists.specs.WholeWords.{is_word_byte, begins_inside, stands_first, holds_from, holds_word};

// Letters, digits, `_` and `$`.
fn is_word_byte(c: u8) -> bool
    ensures { result ≡ is_word_byte c }
{
    c.is_ascii_alphabetic() || (c.is_ascii_digit() || (c == b'_' || c == b'$'))
}

fn begins_inside(text: &[u8]) -> bool
    ensures { result ≡ begins_inside text.now }
{
    match text {
        [c, ..] => is_word_byte(*c),
        [] => false,
    }
}

// The word stands first, and ends there.
fn stands_first(word: &[u8], text: &[u8]) -> bool
    ensures { result ≡ stands_first word.now text.now }
{
    let mut left = word;
    let mut rest = text;
    while let [w, more @ ..] = left {
        match rest {
            [c, behind @ ..] => {
                if *w != *c {
                    return false;
                }
                left = more;
                rest = behind;
            }
            [] => return false,
        }
    }
    !begins_inside(rest)
}

/// Whether the word stands in the text with no character of a name before it or behind it.
pub fn holds_word(word: &[u8], text: &[u8]) -> bool
    ensures { result ≡ holds_word word.now text.now }
{
    let mut rest = text;
    let mut inside = false;
    while let [c, behind @ ..] = rest {
        if !inside && stands_first(word, rest) {
            return true;
        }
        inside = is_word_byte(*c);
        rest = behind;
    }
    false
}
