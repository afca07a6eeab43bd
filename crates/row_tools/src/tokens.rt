// Tokens of words.
ghost use Rattle.std.specs.Prelude.{◌≡◌, map, IfOk};

use cs_base::{Kind, Memory, Pos, Tok};
use std::alloc::Global;

const PLACE: Pos = Pos { file: 1, at: 0 };

fn kind_of(word: &[u8]) -> Kind {
    match word {
        [b'0'..=b'9', ..] => Kind::Number,
        [b'\'', ..] | [b'L', b'\'', ..] => Kind::Char,
        [b'"', ..] => Kind::Str,
        [b'a'..=b'z' | b'A'..=b'Z' | b'_', ..] => Kind::Ident,
        [b'@', ..] => Kind::Other,
        _ => Kind::Punct,
    }
}

fn origins(alloc: Global, word: &[u8]) -> Result<Vec<Option<Pos>>, Memory>
    ensures { IfOk result (λ origins. origins.items ≡ map (λ c. Some PLACE) word.now) }
{
    Ok(word.iter().map(|_| Some(PLACE)).collect(alloc)?)
}

// A token with this spelling, all characters of which come from one place.
fn tok(alloc: Global, word: &[u8]) -> Result<Tok, Memory> {
    let origins = origins(alloc, word)?;
    Tok::new(alloc, kind_of(word), word, &origins, true, PLACE, 1, true)
}

/// The tokens of a text, with a blank between every two. Each stands in line 1, behind white space, and all
/// characters come from the first of file 1.
pub fn toks(alloc: Global, text: &[u8]) -> Result<Vec<Tok>, Memory> {
    let mut toks = Vec::new(alloc);
    for word in text.split(|c| *c == b' ') {
        if !word.is_empty() {
            toks.push(tok(alloc, word)?)?;
        }
    }
    Ok(toks)
}
