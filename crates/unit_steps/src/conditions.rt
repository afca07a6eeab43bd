// Controlling expressions of a unit (6.10.1).
ghost use Rattle.std.specs.Prelude.{◌≡◌, ◌≤◌, ◌<◌, ◌^◌, ◌&&◌, ◌++◌, ◌∷◌, [], List, IsTrue, IfOk, IfErr, OnOk, IfSome, MatchOption, None, false, length, slice_get, option_copied};
ghost use Rattle.std.specs.List.{list_all, list_any};
ghost use Rattle.std.specs.Option.{option_map};
ghost use Rattle.cs_base.specs.Answer.{Gives};
ghost use Rattle.cs_base.specs.Token.{Token};
ghost use Rattle.source_files.specs.Below.line_shape.Signs.{is_open, is_name, is_close};
ghost use Rattle.macro_expand.specs.Below.macro_body.Sound.{is_traced, is_low};
ghost use Rattle.source_files.specs.Files.{Table};
ghost use Rattle.unit_steps.specs.Conditions.{is_defined, in_parentheses, operand_of, digit_of, digit_place, answer_for, is_macro, left_over, place_or, condition_fault, judged, asked_toks, holds};
ghost use Rattle.source_files.specs.Answers.{fault_of, IsNoReadFault};
ghost use Rattle.unit_steps.specs.Keeping.{noted_in, kept_after};
ghost use Rattle.unit_steps.specs.Answering.{answer_notes, asked_in, behind, left_kept};
ghost use Rattle.unit_steps.specs.SourceTexts.{source_in};
ghost use Rattle.unit_steps.specs.FirstNames.{names_with};
ghost use Rattle.unit_steps.specs.Moments.{state_in, IsAble, GoesOn};

use crate::events::EventKind;
use crate::progress::Progress;
use crate::source_text::SourceText;
use cond_eval::{CondFault, eval};
use cs_base::{Cause, Kind, Memory, Pos, Tok};
use macro_expand::{is_close, is_name, is_open, is_word, shared};
use source_files::PreFault;
use std::alloc::Global;

// The word `defined`.
fn is_defined(tok: &Tok) -> bool
    ensures { result ≡ is_defined tok.now }
{
    is_word(tok, b"defined")
}

// `(`, an identifier and `)`.
fn are_parenthesized(left: &Tok, name: &Tok, right: &Tok) -> bool
    ensures { result ≡ (is_open left.now && is_name name.now && is_close right.now) }
{
    is_open(left) && is_name(name) && is_close(right)
}

// The identifier in the parentheses that tokens begin with.
fn in_parentheses(toks: &[Tok]) -> Option<&Tok>
    ensures { option_copied result ≡ in_parentheses toks.now }
{
    match toks {
        [left, name, right, ..] => {
            if are_parenthesized(left, name, right) {
                Some(name)
            } else {
                None
            }
        }
        _ => None,
    }
}

// The operand that stands behind `defined`, and how many tokens it has.
fn operand_of(toks: &[Tok]) -> Option<(&Tok, usize)>
    ensures answer { option_map (λ r. (r.0.now, r.1)) result ≡ operand_of toks.now }
    ensures within { IfSome result (λ r. r.1 ≤ length toks.now) }
{
    let (first, _) = toks.split_first()?;
    if is_name(first) {
        return Some((first, 1));
    }
    let name = in_parentheses(toks)?;
    Some((name, 3))
}

// The digit of a truth value, and where it stands in the pseudo file of lines.
fn digit_of(b: bool) -> &'static [u8]
    ensures { result.now ≡ digit_of b }
{
    if b { b"1" } else { b"0" }
}

fn digit_place(b: bool) -> u32
    ensures { result ≡ digit_place b }
{
    if b { 8 } else { 0 }
}

// The number that stands for `defined` and its operand.
pub(crate) fn answer_for(alloc: Global, word: &Tok, known: bool) -> Result<Tok, Memory>
    ensures { IfOk result (λ t. t ≡ answer_for word.now known) }
{
    let origin = Pos {
        file: 0,
        at: digit_place(known),
    };
    Tok::new(
        alloc,
        Kind::Number,
        digit_of(known),
        &[Some(origin)],
        word.gap(),
        word.at(),
        word.line(),
        false,
    )
}

// Whether the word `defined` stands among tokens.
fn has_defined(toks: &[Tok]) -> bool
    ensures { result ≡ list_any is_defined toks.now }
{
    toks.iter().any(is_defined)
}

// The position of the token with this index, or of the `#` where that is the end.
fn place_of(at: Pos, toks: &[Tok], index: u32) -> Pos
    ensures { result ≡ place_or at (slice_get toks.now index) }
{
    match toks.get(index as usize) {
        Some(tok) => tok.at(),
        None => at,
    }
}

// The fault of a condition.
fn condition_fault(
    alloc: Global,
    file: &SourceText,
    at: Pos,
    toks: &[Tok],
    found: CondFault,
) -> PreFault
    ensures answer { IfSome (fault_of result) (λ f. f ≡ condition_fault (source_in file.now) at toks.now found) }
    ensures no_read { IsNoReadFault result }
{
    let (index, cause) = match found {
        CondFault::Syntax { index } => (index, Cause::BadCondition),
        CondFault::DivideByZero { index } => (index, Cause::DivideByZero),
        CondFault::Overflow { index } => (index, Cause::Overflow),
        CondFault::TooDeep { index } => (index, Cause::TooDeep),
    };
    file.fault(alloc, place_of(at, toks, index), cause)
}

impl Progress {
    // An operand of `defined` is asked for, and the number that stands for it is put behind `out`.
    fn answer(&mut self, word: &Tok, name: &Tok, out: &mut Vec<Tok>) -> Result<(), Memory>
        requires able { IsAble self.old }
        ensures most { self.new.most ≡ self.old.most }
        ensures noted { (table : Table) → OnOk result (self.new ≡ record self.old { names = names_with name.now self.old.names; text = noted_in self.old.text (answer_notes word.now name.now (state_in table self.old)) }) }
        ensures put { (table : Table) → OnOk result (out.new.items ≡ out.old.items ++ answer_for word.now (is_macro name.now (state_in table self.old)) ∷ []) }
    {
        let known = self.test(name)?;
        let number = answer_for(self.alloc, word, known)?;
        self.text.note_answered(&number)?;
        out.push(number)?;
        Ok(())
    }

    // The piece that begins with a token: how many tokens behind it belong to it, or none where an operand is
    // missing.
    fn answer_piece(
        &mut self,
        word: &Tok,
        after: &[Tok],
        out: &mut Vec<Tok>,
    ) -> Result<Option<usize>, Memory>
        requires able { IsAble self.old }
        ensures goes_on { GoesOn self.old self.new result }
        ensures within { IfOk result (λ next. IfSome next (λ n. n ≤ length after.now)) }
        ensures answer { (table : Table) → IfOk result (λ next. MatchOption next
            (asked_in self.old.text 0 (word.now ∷ after.now) (state_in table self.old) ≡ None)
            (λ n. behind out.old.items (asked_in self.old.text 0 (word.now ∷ after.now) (state_in table self.old)) ≡ behind out.new.items (asked_in self.new.text n after.now (state_in table self.new)))) }
    {
        if !is_defined(word) {
            out.push(shared(word)?)?;
            return Ok(Some(0));
        }
        match operand_of(after) {
            None => Ok(None),
            Some((name, len)) => {
                self.answer(word, name, out)?;
                Ok(Some(len))
            }
        }
    }

    // The tokens with each operand of `defined` answered; none where some `defined` has no operand.
    fn answered(&mut self, toks: &[Tok]) -> Result<Option<Vec<Tok>>, Memory>
        requires able { IsAble self.old }
        ensures goes_on { GoesOn self.old self.new result }
        ensures answer { (table : Table) → IfOk result (λ out. asked_in self.old.text 0 toks.now (state_in table self.old) ≡ option_map (λ v. (v.items, state_in table self.new, self.new.text)) out) }
    {
        let mut out = Vec::new(self.alloc);
        let mut rest = toks;
        'pieces: while let Some((word, after)) = rest.split_first() {
            match self.answer_piece(word, after, &mut out)? {
                Some(n) => rest = &after[n..],
                None => return Ok(None),
            }
        }
        Ok(Some(out))
    }

    // A name that is left over is processed.
    fn left_name(&mut self, tok: &Tok) -> Result<(), Memory>
        requires able { IsAble self.old }
        ensures goes_on { GoesOn self.old self.new result }
        ensures answer { (table : Table) (toks : List Token) → OnOk result (left_kept self.old.text (left_over (tok.now ∷ toks) (state_in table self.old)) ≡ left_kept self.new.text (left_over toks (state_in table self.new))) }
    {
        if is_name(tok) {
            self.process_event(EventKind::Left, tok)?;
        }
        Ok(())
    }

    // The names left over.
    fn left_over(&mut self, toks: &[Tok]) -> Result<(), Memory>
        requires able { IsAble self.old }
        ensures goes_on { GoesOn self.old self.new result }
        ensures answer { (table : Table) → OnOk result (left_kept self.old.text (left_over toks.now (state_in table self.old)) ≡ (state_in table self.new, self.new.text)) }
    {
        for tok in toks {
            self.left_name(tok)?;
        }
        Ok(())
    }

    /// The value of a condition that was expanded to these tokens.
    pub fn judged(&mut self, file: &SourceText, at: Pos, toks: &[Tok]) -> Result<bool, PreFault>
        requires few { length toks.now < 2 ^ 32 }
        requires able { IsAble self.old }
        ensures goes_on { GoesOn self.old self.new result }
        ensures no_read { IfErr result IsNoReadFault }
        ensures answer { (table : Table) → Gives (λ b. (b, state_in table self.new, self.new.text)) fault_of result (kept_after self.old.text (judged (source_in file.now) at toks.now (state_in table self.old))) }
    {
        if has_defined(toks) {
            return Err(file.fault(self.alloc, at, Cause::DefinedFromMacro));
        }
        match eval(toks) {
            Ok(value) => {
                self.left_over(toks)?;
                Ok(value)
            }
            Err(found) => Err(condition_fault(self.alloc, file, at, toks, found)),
        }
    }

    /// The tokens to which a condition expands once its operands of `defined` are answered, given by the tokens behind its
    /// word.
    pub fn asked_toks(
        &mut self,
        file: &SourceText,
        at: Pos,
        toks: &[Tok],
    ) -> Result<Vec<Tok>, PreFault>
        requires sound { IsTrue (list_all (λ t. is_traced t && is_low t) toks.now) }
        requires able { IsAble self.old }
        ensures goes_on { GoesOn self.old self.new result }
        ensures few { IfOk result (λ out. length out.items < 2 ^ 32) }
        ensures no_read { IfErr result IsNoReadFault }
        ensures answer { (table : Table) → Gives (λ out. (out.items, state_in table self.new, self.new.text)) fault_of result (kept_after self.old.text (asked_toks (source_in file.now) at toks.now (state_in table self.old))) }
    {
        match self.answered(toks)? {
            None => Err(file.fault(self.alloc, at, Cause::BadDirective)),
            Some(asked) => self.expanded(file, false, asked.as_slice()),
        }
    }

    /// The condition of an `if` or `elif` line whose `#` is there, given by the tokens behind its word.
    pub fn holds(&mut self, file: &SourceText, at: Pos, toks: &[Tok]) -> Result<bool, PreFault>
        requires sound { IsTrue (list_all (λ t. is_traced t && is_low t) toks.now) }
        requires able { IsAble self.old }
        ensures goes_on { GoesOn self.old self.new result }
        ensures no_read { IfErr result IsNoReadFault }
        ensures answer { (table : Table) → Gives (λ b. (b, state_in table self.new, self.new.text)) fault_of result (kept_after self.old.text (holds (source_in file.now) at toks.now (state_in table self.old))) }
    {
        let out = self.asked_toks(file, at, toks)?;
        self.judged(file, at, out.as_slice())
    }
}
