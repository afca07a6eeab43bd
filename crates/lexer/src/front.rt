// The first token of a logical text, read in one pass (ISO/IEC 9899:1999, 6.4).
ghost use Rattle.std.specs.Prelude.{◌≡◌, ◌≤◌, ◌&&◌, ◌||◌, ◌∷◌, [], false, length, IfSome, true, None};
ghost use Rattle.std.specs.List.{prefix_len, list_all, list_any};
ghost use Rattle.lexer.specs.Spelling.{is_identifier_text, may_follow as follows, begins_number as number_begins, header_close as header_close_of, punctuators_of_one, punctuators_of_two, punctuators_of_three, punctuators_of_four};
ghost use Rattle.lexer.specs.Characters.{is_word as word, is_quote as quote_is, begins as begins_so};
ghost use Rattle.lexer.specs.Lone.{IsLone};
ghost use Rattle.lexer.specs.Walk.{spelled, IsFirst};
ghost use Rattle.lexer.specs.Front.{front_of, plain_front as plain_front_of, count_following as following, closing as closing_of, header_closing as header_closing_of, punctuator_length as punctuator_length_of, punctuator_front as punctuator_front_of, begins_with as begins_with_word, begins_with_one as begins_with_one_of, is_open_sign as open_sign, is_second_sign as second_sign, is_alone_before as alone_before, quoted as quoted_of, quoted_kind as kind_of_quoted, quoted_front as quoted_front_of, is_lone_sign as lone_sign, wide_front as wide_front_of, header_length as header_length_of, IsFront};

use crate::characters::{is_exponent_letter, is_nondigit, is_sign, is_word};
use crate::logical::{begins_with, next};
use crate::lone::Lone;
use cs_base::Kind;

// Whether a pp-number that ends in `last` may go on with `c` (6.4.8).
fn may_follow(last: u8, c: u8) -> bool
    ensures { result ≡ follows last c }
{
    is_word(c) || c == b'.' || (is_sign(c) && is_exponent_letter(last))
}

// How many characters go on with a pp-number that ends in `first`.
fn count_following(first: u8, after: &[u8]) -> usize
    ensures { result ≡ following first (spelled after.now) }
{
    let mut last = first;
    let mut count: usize = 0;
    let mut rest = after;
    while let Some((c, behind)) = next(rest) {
        if !may_follow(last, c) {
            return count;
        }
        last = c;
        count += 1;
        rest = behind;
    }
    count
}

// Whether the next character is this one.
fn next_is(c: u8, after: &[u8]) -> bool
    ensures { result ≡ begins_so c (spelled after.now) }
{
    match next(after) {
        Some((d, _)) => d == c,
        None => false,
    }
}

// Whether a pp-number begins with this character and these (6.4.8).
fn begins_number(first: u8, after: &[u8]) -> bool
    ensures { result ≡ number_begins first (spelled after.now) }
{
    if first.is_ascii_digit() {
        return true;
    }
    match next(after) {
        Some((c, _)) => first == b'.' && c.is_ascii_digit(),
        None => false,
    }
}

// How many nondigits and digits stand in front.
fn count_words(after: &[u8]) -> usize
    ensures { result ≡ prefix_len word (spelled after.now) }
{
    let mut count: usize = 0;
    let mut rest = after;
    while let Some((c, behind)) = next(rest) {
        if !is_word(c) {
            return count;
        }
        count += 1;
        rest = behind;
    }
    count
}

// How many characters stand behind the first quote of a character constant or a string literal, to
// the closing one (6.4.4.4, 6.4.5).
pub(crate) fn closing(quote: u8, after: &[u8]) -> Option<usize>
    ensures answer { result ≡ closing_of quote false (spelled after.now) }
    ensures within { IfSome result (λ n. n ≤ length after.now) }
{
    let mut escaped = false;
    let mut count: usize = 0;
    let mut rest = after;
    while let Some((c, behind)) = next(rest) {
        count += 1;
        if c == quote && !escaped {
            return Some(count);
        }
        if c == b'\n' {
            return None;
        }
        escaped = c == b'\\' && !escaped;
        rest = behind;
    }
    None
}

// The same of a header name (6.4.7).
fn header_closing(close: u8, after: &[u8]) -> Option<usize>
    ensures { result ≡ header_closing_of close (spelled after.now) }
{
    let mut count: usize = 0;
    let mut rest = after;
    while let Some((c, behind)) = next(rest) {
        count += 1;
        if c == close {
            return Some(count);
        }
        if c == b'\n' {
            return None;
        }
        rest = behind;
    }
    None
}

// How many characters follow a quote to the closing one. `stays_open` says that none does.
fn quoted(quote: u8, after: &[u8], stays_open: bool) -> Option<usize>
    requires { stays_open ≡ true → closing_of quote false (spelled after.now) ≡ None }
    ensures answer { result ≡ quoted_of quote (spelled after.now) }
    ensures within { IfSome result (λ n. n ≤ length after.now) }
{
    if stays_open || (quote == b'\'' && next_is(b'\'', after)) {
        return None;
    }
    closing(quote, after)
}

pub(crate) fn is_quote(c: u8) -> bool
    ensures { result ≡ quote_is c }
{
    c == b'\'' || c == b'"'
}

fn quoted_kind(quote: u8) -> Kind
    ensures { result ≡ kind_of_quoted quote }
{
    if quote == b'\'' {
        Kind::Char
    } else {
        Kind::Str
    }
}

// What begins with a quote.
fn quoted_front(quote: u8, after: &[u8], lone: Lone) -> Option<(Kind, usize)>
    requires quote { quote_is quote ≡ true }
    requires lone { IsLone lone (quote ∷ spelled after.now) }
    ensures { result ≡ quoted_front_of quote (spelled after.now) }
{
    let more = quoted(quote, after, lone.knows(quote, 0))?;
    Some((quoted_kind(quote), more))
}

// What begins with `L` and a quote.
fn wide_front(first: u8, after: &[u8], lone: Lone) -> Option<(Kind, usize)>
    requires { IsLone lone (first ∷ spelled after.now) }
    ensures { result ≡ wide_front_of first (spelled after.now) }
{
    let (quote, behind) = next(after)?;
    if first != b'L' || !is_quote(quote) {
        return None;
    }
    let more = quoted(quote, behind, lone.knows(quote, 1))?;
    Some((quoted_kind(quote), more + 1))
}

// The character that closes a header name which begins with this one, and 0 where none begins so.
fn header_close(first: u8) -> u8
    ensures { result ≡ header_close_of first }
{
    if first == b'<' {
        b'>'
    } else if first == b'"' {
        b'"'
    } else {
        0
    }
}

// How many characters follow the first of a header name.
fn header_length(first: u8, after: &[u8]) -> Option<usize>
    ensures { result ≡ header_length_of first (spelled after.now) }
{
    let close = header_close(first);
    if close == 0 || next_is(close, after) {
        return None;
    }
    header_closing(close, after)
}

// The character is a punctuator with which no other one begins.
fn is_lone_sign(c: u8) -> bool
    ensures { result ≡ lone_sign c }
{
    c == b'('
        || c == b')'
        || c == b'['
        || c == b']'
        || c == b'{'
        || c == b'}'
        || c == b','
        || c == b';'
        || c == b'~'
        || c == b'?'
}

// The character is another punctuator of one character.
fn is_open_sign(c: u8) -> bool
    ensures { result ≡ open_sign c }
{
    c == b'.'
        || c == b'&'
        || c == b'*'
        || c == b'+'
        || c == b'-'
        || c == b'!'
        || c == b'/'
        || c == b'%'
        || c == b'<'
        || c == b'>'
        || c == b'^'
        || c == b'|'
        || c == b':'
        || c == b'='
        || c == b'#'
}

// A longer punctuator has the character second.
fn is_second_sign(c: u8) -> bool
    ensures { result ≡ second_sign c }
{
    c == b'='
        || c == b'>'
        || c == b'+'
        || c == b'-'
        || c == b'<'
        || c == b'&'
        || c == b'|'
        || c == b'#'
        || c == b':'
        || c == b'%'
        || c == b'.'
}

// Another character is next, and no longer punctuator has it second.
fn is_alone_before(after: &[u8]) -> bool
    ensures { result ≡ alone_before (spelled after.now) }
{
    match next(after) {
        Some((c, _)) => !is_second_sign(c),
        None => false,
    }
}

// The character is a punctuator, and no longer one begins with it and what follows.
fn is_alone(c: u8, after: &[u8]) -> bool
    ensures { result ≡ (lone_sign c || (open_sign c && alone_before (spelled after.now))) }
{
    is_lone_sign(c) || (is_open_sign(c) && is_alone_before(after))
}

// The text begins with a punctuator of one character, and with no longer one. Most punctuators of a file are such, and
// need no search among all.
fn begins_with_lone_sign(text: &[u8]) -> bool
    ensures { result ≡ true → punctuator_length_of (spelled text.now) ≡ 1 }
{
    match next(text) {
        Some((c, after)) => is_alone(c, after),
        None => false,
    }
}

fn begins_with_one(words: &[&[u8]], text: &[u8]) -> bool
    ensures { result ≡ list_any (λ word. begins_with_word word.now (spelled text.now)) words.now }
{
    words.iter().any(|word| begins_with(word, text))
}

fn begins_with_one_sign(text: &[u8]) -> bool
    ensures { result ≡ begins_with_one_of punctuators_of_one (spelled text.now) }
{
    begins_with_one(
        &[
            b"[", b"]", b"(", b")", b"{", b"}", b".", b"&", b"*", b"+", b"-", b"~", b"!", b"/",
            b"%", b"<", b">", b"^", b"|", b"?", b":", b";", b"=", b",", b"#",
        ],
        text,
    )
}

fn begins_with_two_signs(text: &[u8]) -> bool
    ensures { result ≡ begins_with_one_of punctuators_of_two (spelled text.now) }
{
    begins_with_one(
        &[
            b"->", b"++", b"--", b"<<", b">>", b"<=", b">=", b"==", b"!=", b"&&", b"||", b"*=",
            b"/=", b"%=", b"+=", b"-=", b"&=", b"^=", b"|=", b"##", b"<:", b":>", b"<%", b"%>",
            b"%:",
        ],
        text,
    )
}

fn begins_with_three_signs(text: &[u8]) -> bool
    ensures { result ≡ begins_with_one_of punctuators_of_three (spelled text.now) }
{
    begins_with_one(&[b"...", b"<<=", b">>="], text)
}

fn begins_with_four_signs(text: &[u8]) -> bool
    ensures { result ≡ begins_with_one_of punctuators_of_four (spelled text.now) }
{
    begins_with_one(&[b"%:%:"], text)
}

#[tactic(auto, unfolding(crate::specs::Front::punctuator_length))]
// How many characters the longest punctuator in front has, and 0 where there is none (6.4.6).
fn punctuator_length(text: &[u8]) -> usize
    ensures { result ≡ punctuator_length_of (spelled text.now) }
{
    if begins_with_lone_sign(text) {
        1
    } else if begins_with_four_signs(text) {
        4
    } else if begins_with_three_signs(text) {
        3
    } else if begins_with_two_signs(text) {
        2
    } else if begins_with_one_sign(text) {
        1
    } else {
        0
    }
}

// A punctuator, or a character that is a token by itself.
fn punctuator_front(text: &[u8]) -> (Kind, usize)
    ensures { result ≡ punctuator_front_of (punctuator_length_of (spelled text.now)) }
{
    let len = punctuator_length(text);
    if len == 0 {
        (Kind::Other, 0)
    } else {
        (Kind::Punct, len - 1)
    }
}

#[tactic(auto, unfolding(crate::specs::Front::plain_front))]
// The first token of a text, other than a header name.
fn plain_front(text: &[u8], first: u8, after: &[u8], lone: Lone) -> (Kind, usize)
    requires first { IsFirst text.now first after.now }
    requires lone { IsLone lone (first ∷ spelled after.now) }
    ensures { result ≡ plain_front_of first (spelled after.now) }
{
    if is_nondigit(first) {
        match wide_front(first, after, lone) {
            Some(front) => front,
            None => (Kind::Ident, count_words(after)),
        }
    } else if begins_number(first, after) {
        (Kind::Number, count_following(first, after))
    } else if is_quote(first) {
        match quoted_front(first, after, lone) {
            Some(front) => front,
            None => (Kind::Other, 0),
        }
    } else {
        punctuator_front(text)
    }
}

#[tactic(auto, unfolding(crate::specs::Front::front_of))]
// The first token of a text, in one pass.
fn read_front(header: bool, text: &[u8], first: u8, after: &[u8], lone: Lone) -> (Kind, usize)
    requires first { IsFirst text.now first after.now }
    requires lone { IsLone lone (first ∷ spelled after.now) }
    ensures { result ≡ front_of header first (spelled after.now) }
{
    let front = plain_front(text, first, after, lone);
    if !header {
        return front;
    }
    match header_length(first, after) {
        Some(more) => if front.1 <= more {
            (Kind::Header, more)
        } else {
            front
        },
        None => front,
    }
}

/// The kind of the first token of a text that begins with `first`, no white space, and how many
/// characters follow its first. `header` says whether a header name may stand.
pub(crate) fn front(header: bool, text: &[u8], first: u8, after: &[u8], lone: Lone) -> (Kind, usize)
    requires first { IsFirst text.now first after.now }
    requires lone { IsLone lone (first ∷ spelled after.now) }
    ensures { IsFront header first (spelled after.now) result.0 result.1 }
{
    read_front(header, text, first, after, lone)
}

fn all_words(text: &[u8]) -> bool
    ensures { result ≡ list_all word text.now }
{
    text.iter().all(|c| is_word(*c))
}

/// Whether the whole text is one identifier (6.4.2.1).
pub fn is_identifier(text: &[u8]) -> bool
    ensures { result ≡ is_identifier_text text.now }
{
    match text {
        [first, after @ ..] => is_nondigit(*first) && all_words(after),
        [] => false,
    }
}
