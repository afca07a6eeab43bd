// Quotes that are known to stay open: so that no line is searched for a closing quote more than twice.
ghost use Rattle.std.specs.Prelude.{◌≡◌, ◌∷◌};
ghost use Rattle.lexer.specs.Lone.{IsLone, count_for, knows_of, lone_behind, lone_with};
ghost use Rattle.lexer.specs.Walk.{spelled};

use crate::front::{closing, is_quote};
use crate::pieces::count_on_line;

/// For each quote how many characters from here on are known in which none of them closes.
#[derive(Clone, Copy)]
pub(crate) struct Lone {
    pub(crate) single: usize,
    pub(crate) double: usize,
}

impl Lone {
    // For this quote.
    fn count(self, quote: u8) -> usize
        ensures { result ≡ count_for self quote }
    {
        if quote == b'\'' {
            self.single
        } else {
            self.double
        }
    }

    /// Whether the quote that is character k is known to stay open.
    pub(crate) fn knows(self, quote: u8, k: usize) -> bool
        ensures { result ≡ knows_of self quote k }
    {
        k < self.count(quote)
    }

    /// What is known behind n characters.
    pub(crate) fn behind(self, n: usize) -> Lone
        ensures { result ≡ lone_behind self n }
    {
        Lone {
            single: self.single.saturating_sub(n),
            double: self.double.saturating_sub(n),
        }
    }

    // What is known where no such quote closes among so many characters.
    fn with(self, quote: u8, count: usize) -> Lone
        ensures { result ≡ lone_with self quote count }
    {
        if quote == b'\'' {
            Lone {
                single: count,
                double: self.double,
            }
        } else {
            Lone {
                single: self.single,
                double: count,
            }
        }
    }
}

/// What is known of a text that begins with `first`, once its line is searched for what closes that.
pub(crate) fn searched(lone: Lone, first: u8, after: &[u8]) -> Lone
    requires { IsLone lone (first ∷ spelled after.now) }
    ensures { IsLone result (first ∷ spelled after.now) }
{
    if !is_quote(first) || lone.knows(first, 0) {
        return lone;
    }
    match closing(first, after) {
        Some(_) => lone,
        None => lone.with(first, count_on_line(after) + 1),
    }
}
