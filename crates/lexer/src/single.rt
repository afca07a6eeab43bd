// Whether a text is one token.
ghost use Rattle.std.specs.Prelude.{◌≡◌};
ghost use Rattle.lexer.specs.OneToken.{free_kind as free_kind_of, one_token_of, held_after, held_kind};

use crate::logical::{behind, first_character};
use crate::lone::{Lone, searched};
use crate::pieces::{LineFront, Piece, first_piece};
use cs_base::Kind;

/// The tokens that a walk has met: none, one of this kind, or more.
#[derive(Clone, Copy)]
pub(crate) enum Held {
    Nothing,
    One(Kind),
    More,
}

// The kind of a token that can be one by itself wherever it stands.
fn free_kind(kind: Kind) -> Option<Kind>
    ensures { result ≡ free_kind_of kind }
{
    match kind {
        Kind::Header => None,
        Kind::Other => None,
        _ => Some(kind),
    }
}

impl Held {
    // What is held once this piece is read.
    fn after(self, piece: Piece) -> Held
        ensures { result ≡ held_after self piece }
    {
        match piece {
            Piece::Blank(_) => self,
            Piece::LineEnd => self,
            Piece::OpenComment => Held::More,
            Piece::Token(kind, _) => match self {
                Held::Nothing => Held::One(kind),
                Held::One(_) => Held::More,
                Held::More => Held::More,
            },
        }
    }

    // The kind of what is held, if that is one token that can be one by itself.
    fn kind(self) -> Option<Kind>
        ensures { result ≡ held_kind self }
    {
        match self {
            Held::Nothing => None,
            Held::One(kind) => free_kind(kind),
            Held::More => None,
        }
    }
}

/// The kind of a text that is one token, other than a header name and a character that is no token of
/// another kind. White space and comments may stand before it and behind it. Takes no memory.
pub fn one_token(text: &[u8]) -> Option<Kind>
    ensures { result ≡ one_token_of text.now }
{
    let mut held = Held::Nothing;
    let mut front = LineFront::Nothing;
    let mut lone = Lone {
        single: 0,
        double: 0,
    };
    let mut rest = text;
    while let Some((here, first, after)) = first_character(rest) {
        let piece = first_piece(front.expects_header(), here, first, after, lone);
        if let Piece::OpenComment = piece {
            return None;
        }
        held = held.after(piece);
        let n = piece.len(0);
        rest = behind(after, n - 1);
        front = front.after(here, piece);
        lone = searched(lone, first, after).behind(n);
    }
    held.kind()
}
