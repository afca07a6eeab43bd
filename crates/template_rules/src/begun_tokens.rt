// How many tokens of a file begin up to a character, and how many before one.
ghost use Rattle.std.specs.Prelude.{◌≡◌, true, nat_le};
ghost use Rattle.template_rules.specs.ListPlaces.{AreInOrder};
ghost use Rattle.template_rules.specs.FileLists.{begun_before, begun_by};

use cs_base::Tok;

// Whether a token does not begin before another.
fn is_behind(tok: &Tok, other: &Tok) -> bool
    ensures { result ≡ nat_le other.now.at.at tok.now.at.at }
{
    other.at().at <= tok.at().at
}

/// Whether no token begins before the one in front of it, as in every file: then they are counted by halving.
pub(crate) fn are_in_order(toks: &[Tok]) -> bool
    ensures { result ≡ true → AreInOrder toks.now }
{
    for k in 1..toks.len() {
        if !is_behind(&toks[k], &toks[k - 1]) {
            return false;
        }
    }
    true
}

// How many begin up to a character, by halving.
fn by_halves(toks: &[Tok], at: u32) -> usize
    requires { AreInOrder toks.now }
    ensures { result ≡ begun_by toks.now at }
{
    toks.partition_point(|tok| tok.at().at <= at)
}

// The same, one after another.
fn by_each(toks: &[Tok], at: u32) -> usize
    ensures { result ≡ begun_by toks.now at }
{
    let mut count = 0;
    for tok in toks {
        if tok.at().at <= at {
            count += 1;
        }
    }
    count
}

/// How many tokens of a file begin up to a character.
pub(crate) fn begun_by(toks: &[Tok], at: u32, rises: bool) -> usize
    requires { rises ≡ true → AreInOrder toks.now }
    ensures { result ≡ begun_by toks.now at }
{
    if rises {
        by_halves(toks, at)
    } else {
        by_each(toks, at)
    }
}

// How many begin before one, by halving.
fn before_by_halves(toks: &[Tok], at: u32) -> usize
    requires { AreInOrder toks.now }
    ensures { result ≡ begun_before toks.now at }
{
    toks.partition_point(|tok| tok.at().at < at)
}

// The same, one after another.
fn before_by_each(toks: &[Tok], at: u32) -> usize
    ensures { result ≡ begun_before toks.now at }
{
    let mut count = 0;
    for tok in toks {
        if tok.at().at < at {
            count += 1;
        }
    }
    count
}

/// How many begin before one.
pub(crate) fn begun_before(toks: &[Tok], at: u32, rises: bool) -> usize
    requires { rises ≡ true → AreInOrder toks.now }
    ensures { result ≡ begun_before toks.now at }
{
    if rises {
        before_by_halves(toks, at)
    } else {
        before_by_each(toks, at)
    }
}
