// Headers that conditions ask for (GNU C, beside 6.10.1).
ghost use Rattle.std.specs.Prelude.{◌≡◌, ◌≤◌, ◌<◌, ◌+◌, ◌++◌, ◌∷◌, ◌&&◌, ℕ, [], IsTrue, IfOk, IfSome, Some, Ok, length, map, take, drop};
ghost use Rattle.std.specs.List.{list_all};
ghost use Rattle.macro_expand.specs.Below.macro_body.Sound.{is_traced, is_low};
ghost use Rattle.source_files.specs.Files.{Table};
ghost use Rattle.unit_steps.specs.Keeping.{kept_after};
ghost use Rattle.unit_steps.specs.Moments.{state_in, IsAble, GoesOn};
ghost use Rattle.unit_steps.specs.Questions.{Looks, asks_next, asks_header, header_length, closes_at, asked_length, lacking, questions_from, is_sound, found_as, question_of};

use crate::conditions::answer_for;
use crate::progress::Progress;
use cs_base::{Memory, Tok};
use macro_expand::{is_close, is_open, is_word, push_shared, shared};
use source_files::{greater_at, is_less, is_string};
use std::alloc::Global;

/// A piece of a condition: a token that stays, a word that asks for a header with the tokens of its operand, or one that
/// has no operand.
#[derive(Drop)]
pub enum Question {
    Unasked(Tok),
    Looks(Tok, Vec<Tok>),
    Lacks,
}

/// A word that asks for the next file of a name.
pub fn asks_next(tok: &Tok) -> bool
    ensures { result ≡ asks_next tok.now }
{
    is_word(tok, b"__has_include_next")
}

// A word that asks for a header.
fn asks_header(tok: &Tok) -> bool
    ensures { result ≡ asks_header tok.now }
{
    is_word(tok, b"__has_include") || asks_next(tok)
}

// How many tokens the header has with which tokens begin.
fn header_length(toks: &[Tok]) -> Option<usize>
    ensures answer { result ≡ header_length toks.now }
    ensures within { IfSome result (λ n. n ≤ length toks.now) }
{
    let (first, rest) = toks.split_first()?;
    if is_string(first) {
        return Some(1);
    }
    if !is_less(first) {
        return None;
    }
    let last = greater_at(rest)?;
    Some(last + 2)
}

// Whether a `)` stands behind so many tokens.
fn closes_at(toks: &[Tok], len: usize) -> bool
    ensures answer { result ≡ closes_at toks.now len }
    ensures within { IsTrue result → len < length toks.now }
{
    match toks.get(len) {
        Some(tok) => is_close(tok),
        None => false,
    }
}

// How many tokens the header has that stands in the parentheses with which tokens begin.
fn asked_length(toks: &[Tok]) -> Option<usize>
    ensures answer { result ≡ asked_length toks.now }
    ensures within { IfSome result (λ n. n + 2 ≤ length toks.now) }
{
    let (first, rest) = toks.split_first()?;
    if !is_open(first) {
        return None;
    }
    let len = header_length(rest)?;
    if closes_at(rest, len) {
        Some(len)
    } else {
        None
    }
}

// What stands for a word without an operand.
fn lacking(early: bool, word: &Tok) -> Result<Question, Memory>
    ensures { IfOk result (λ q. question_of q ≡ lacking early word.now) }
{
    if early {
        Ok(Question::Unasked(shared(word)?))
    } else {
        Ok(Question::Lacks)
    }
}

// The word with its operand of so many tokens, which stands in parentheses behind it.
fn looking(alloc: Global, word: &Tok, after: &[Tok], len: usize) -> Result<Question, Memory>
    requires { len + 2 ≤ length after.now }
    ensures { IfOk result (λ q. question_of q ≡ Looks word.now (take len (drop 1 after.now))) }
{
    let mut operand = Vec::new(alloc);
    push_shared(&mut operand, &after[1..len + 1])?;
    Ok(Question::Looks(shared(word)?, operand))
}

// Adds the piece that begins with a token: how many tokens behind it belong to it.
fn push_question(
    alloc: Global,
    early: bool,
    word: &Tok,
    after: &[Tok],
    out: &mut Vec<Question>,
) -> Result<usize, Memory>
    ensures within { IfOk result (λ n. n ≤ length after.now) }
    ensures answer { IfOk result (λ n. map question_of out.old.items ++ questions_from early 0 (word.now ∷ after.now) ≡ map question_of out.new.items ++ questions_from early n after.now) }
{
    if !asks_header(word) {
        let same = shared(word)?;
        out.push(Question::Unasked(same))?;
        return Ok(0);
    }
    match asked_length(after) {
        None => {
            let question = lacking(early, word)?;
            out.push(question)?;
            Ok(0)
        }
        Some(len) => {
            let question = looking(alloc, word, after, len)?;
            out.push(question)?;
            Ok(len + 2)
        }
    }
}

/// The pieces of a condition, as it is written or once macros are expanded.
pub fn questions_of(alloc: Global, early: bool, toks: &[Tok]) -> Result<Vec<Question>, Memory>
    ensures answer { IfOk result (λ out. map question_of out.items ≡ questions_from early 0 toks.now) }
    ensures sound { IsTrue (list_all (λ t. is_traced t && is_low t) toks.now) → IfOk result (λ out. IsTrue (list_all is_sound (map question_of out.items))) }
{
    let mut out = Vec::new(alloc);
    let mut rest = toks;
    'pieces: while let Some((word, after)) = rest.split_first() {
        let n = push_question(alloc, early, word, after, &mut out)?;
        rest = &after[n..];
    }
    Ok(out)
}

impl Progress {
    /// The number that stands for a word that asks for a header, where that is there or not.
    pub fn found(&mut self, word: &Tok, known: bool) -> Result<Tok, Memory>
        requires able { IsAble self.old }
        ensures goes_on { GoesOn self.old self.new result }
        ensures answer { (table : Table) → IfOk result (λ t. kept_after self.old.text (found_as word.now known (state_in table self.old)) ≡ Ok (t, state_in table self.new, self.new.text)) }
        ensures sound { IsTrue (is_low word.now) → IfOk result (λ t. IsTrue (is_traced t && is_low t)) }
    {
        let number = answer_for(self.alloc, word, known)?;
        self.text.note_answered(&number)?;
        Ok(number)
    }
}
