// One replacement of a name, its arguments expanded first (6.10.3.1, 6.10.8).
ghost use Rattle.std.specs.Prelude.{◌≡◌, ◌+◌, ◌≤◌, ◌<◌, ◌^◌, ◌∷◌, ◌++◌, [], length, IfOk, OnOk, IsTrue};
ghost use Rattle.std.specs.List.{list_all};
ghost use Rattle.cs_base.specs.Answer.{Gives};
ghost use Rattle.macro_expand.specs.Expansion.{links_name, first_notes, put_for, counted, substituted, full_from, alone, whole};
ghost use Rattle.macro_body.specs.Kept.{kept_with, finished};
ghost use Rattle.macro_body.specs.Faults.{fault_of};
ghost use Rattle.macro_body.specs.Sound.{is_traced, is_low, all_sound, are_fitting};
ghost use Rattle.macro_expand.specs.Going.{setting_of, brought, one_spent, full_of, all_full};

use crate::context::{Context, DEEPEST};
use crate::rest::{Lent, Rest};
use cs_base::{MOST_BYTES, Memory, Tok};
use macro_body::{
    Chain, Definition, ExpandFault, Form, HiddenTok, HiddenToks, HideSet, Notes, Work, chains_of,
    line_number, number_token, occurs_alone, only, path_string, result_of, work_left,
};
use std::alloc::Global;

impl<'a> Context<'a> {
    #[cycle(expansion)]
    /// What a name is replaced by. The note of the name comes before those of its parts.
    pub(crate) fn replacement(
        &self,
        before: u32,
        name: &Tok,
        m: &Definition,
        raw: &[HiddenToks],
        work: &mut Work,
        notes: &mut Notes,
    ) -> Result<Vec<HiddenTok>, ExpandFault>
        requires low { IsTrue (is_low name.now) }
        requires traced { IsTrue (list_all is_traced m.now.body) }
        requires fitting { IsTrue (are_fitting (before + work.old.left) raw.now) }
        ensures sound { IfOk result (λ v. IsTrue (all_sound v.items)) }
        ensures within { IfOk result (λ v. work.new.left + length v.items ≤ work.old.left) }
        ensures answer { Gives (λ v. (v.items, work.new, notes.new)) fault_of result
            (finished notes.old [] (brought (setting_of self.now) (whole (setting_of self.now))
            self.now.depth before name.now m.now raw.now work.old)) }
    {
        note_name(notes, name, m, before)?;
        self.put_for(before, name, m, raw, work, notes)
    }

    #[cycle(expansion)]
    // The same by the form of the macro, without the note of the name.
    fn put_for(
        &self,
        before: u32,
        name: &Tok,
        m: &Definition,
        raw: &[HiddenToks],
        work: &mut Work,
        notes: &mut Notes,
    ) -> Result<Vec<HiddenTok>, ExpandFault>
        requires low { IsTrue (is_low name.now) }
        requires traced { IsTrue (list_all is_traced m.now.body) }
        requires fitting { IsTrue (are_fitting (before + work.old.left) raw.now) }
        ensures sound { IfOk result (λ v. IsTrue (all_sound v.items)) }
        ensures within { IfOk result (λ v. work.new.left + length v.items ≤ work.old.left) }
        ensures answer { Gives (λ v. (v.items, work.new, notes.new)) fault_of result
            (finished notes.old [] (put_for m.now.form (setting_of self.now).path
            (whole (setting_of self.now)) self.now.depth before name.now m.now raw.now work.old)) }
    {
        match m.form {
            Form::Line => one_token(self.alloc, line_number(self.alloc, name)?, name, work),
            Form::File => one_token(
                self.alloc,
                path_string(self.alloc, self.path, name)?,
                name,
                work,
            ),
            Form::Counter => counted(self.alloc, name, work, notes),
            _ => self.substituted(before, name, m, raw, work, notes),
        }
    }

    #[cycle(expansion)]
    // The replacement list with the arguments in place of the parameters.
    fn substituted(
        &self,
        before: u32,
        name: &Tok,
        m: &Definition,
        raw: &[HiddenToks],
        work: &mut Work,
        notes: &mut Notes,
    ) -> Result<Vec<HiddenTok>, ExpandFault>
        requires low { IsTrue (is_low name.now) }
        requires traced { IsTrue (list_all is_traced m.now.body) }
        requires fitting { IsTrue (are_fitting (before + work.old.left) raw.now) }
        ensures sound { IfOk result (λ v. IsTrue (all_sound v.items)) }
        ensures within { IfOk result (λ v. work.new.left + length v.items ≤ work.old.left) }
        ensures answer { Gives (λ v. (v.items, work.new, notes.new)) fault_of result
            (finished notes.old [] (substituted (whole (setting_of self.now)) self.now.depth before
            name.now m.now raw.now work.old)) }
    {
        let body = chains_of(self.alloc, m)?;
        let chains = body.as_slice();
        let arguments = self.full_arguments(before, name, chains, raw, work, notes)?;
        let full = arguments.as_slice();
        // The cost counts before anything is made: it comes before every fault of `#` and `##`.
        match work_left(work.left, name, raw, full, chains) {
            Some(left) => {
                work.left = left;
                result_of(self.alloc, name, raw, full, chains, notes)
            }
            None => Err(ExpandFault::TooMuchWork { at: name.at() }),
        }
    }

    #[cycle(expansion)]
    // The arguments, each expanded whose parameter occurs other than as an operand of `#` or `##`, from
    // the first to the last.
    fn full_arguments(
        &self,
        before: u32,
        name: &Tok,
        chains: &[Chain],
        raw: &[HiddenToks],
        work: &mut Work,
        notes: &mut Notes,
    ) -> Result<Vec<HiddenToks>, ExpandFault>
        requires fitting { IsTrue (are_fitting (before + work.old.left) raw.now) }
        ensures sound { IfOk result (λ full. IsTrue (list_all all_sound full.items)) }
        ensures falls { OnOk result (work.new.left ≤ work.old.left) }
        ensures answer { Gives (λ full. (full.items, work.new, notes.new)) fault_of result
            (all_full notes.old [] (full_from (whole (setting_of self.now)) self.now.depth before
            name.now chains.now 0 raw.now work.old)) }
    {
        let mut full = Vec::new(self.alloc);
        for (number, argument) in raw.iter().enumerate() {
            let lone = occurs_alone(number, chains);
            let toks = self.full_argument(before, name, lone, argument, work, notes)?;
            push_argument(&mut full, toks)?;
        }
        Ok(full)
    }

    #[cycle(expansion)]
    // An argument expanded, or no tokens where it is not to be expanded.
    fn full_argument(
        &self,
        before: u32,
        name: &Tok,
        lone: bool,
        argument: &HiddenToks,
        work: &mut Work,
        notes: &mut Notes,
    ) -> Result<HiddenToks, ExpandFault>
        requires sound { IsTrue (all_sound argument.now) }
        requires fits { before + work.old.left + length argument.now < 2 ^ 32 }
        ensures sound { IfOk result (λ full. IsTrue (all_sound full)) }
        ensures falls { OnOk result (work.new.left ≤ work.old.left) }
        ensures answer { Gives (λ full. (full, work.new, notes.new)) fault_of result
            (finished notes.old [] (full_of lone (whole (setting_of self.now)) self.now.depth before
            name.now argument.now work.old)) }
    {
        if lone {
            let toks = self.alone(before, name, argument, work, notes)?;
            Ok(HiddenToks::new(toks))
        } else {
            Ok(HiddenToks::new(Vec::new(self.alloc)))
        }
    }

    #[cycle(expansion)]
    // An argument expanded alone, within the limit on depth.
    fn alone(
        &self,
        before: u32,
        name: &Tok,
        argument: &HiddenToks,
        work: &mut Work,
        notes: &mut Notes,
    ) -> Result<Vec<HiddenTok>, ExpandFault>
        requires sound { IsTrue (all_sound argument.now) }
        requires fits { before + work.old.left + length argument.now < 2 ^ 32 }
        ensures sound { IfOk result (λ v. IsTrue (all_sound v.items)) }
        ensures falls { OnOk result (work.new.left ≤ work.old.left) }
        ensures answer { Gives (λ v. (v.items, work.new, notes.new)) fault_of result
            (finished notes.old [] (alone (whole (setting_of self.now)) self.now.depth before
            name.now argument.now work.old)) }
    {
        if self.depth < DEEPEST {
            let inside = self.inside();
            let rest = Rest::new(self.alloc, Lent::Argument(argument.as_slice()));
            inside.whole_list(before, rest, work, notes)
        } else {
            Err(ExpandFault::TooDeep { at: name.at() })
        }
    }
}

// Notes that a name is replaced, and links it with the name of its macro if that stands in a file.
fn note_name(notes: &mut Notes, name: &Tok, m: &Definition, before: u32) -> Result<(), Memory>
    ensures { IfOk result (λ _. notes.new ≡ kept_with notes.old (first_notes name.now m.now before)) }
{
    notes.note_replaced(name, &m.name, before)?;
    if links_name(m.form) {
        notes.note_linked(name, &m.name)
    } else {
        Ok(())
    }
}

// Whether the name of a macro stands in a file.
fn links_name(form: Form) -> bool
    ensures { result ≡ links_name form }
{
    match form {
        Form::Line | Form::File | Form::Counter => false,
        _ => true,
    }
}

// The token that stands for a name, at the cost of one.
fn one_token(
    alloc: Global,
    tok: Tok,
    name: &Tok,
    work: &mut Work,
) -> Result<Vec<HiddenTok>, ExpandFault>
    ensures { Gives (λ v. (v.items, work.new)) fault_of result (one_spent name.now tok work.old) }
{
    if work.left < 1 {
        return Err(ExpandFault::TooMuchWork { at: name.at() });
    }
    let toks = only(alloc, HiddenTok::new(tok, HideSet::new(alloc)))?;
    work.left -= 1;
    Ok(toks)
}

// The next number of the unit. There are fewer than a file may have bytes, as each costs work.
fn counted(
    alloc: Global,
    name: &Tok,
    work: &mut Work,
    notes: &mut Notes,
) -> Result<Vec<HiddenTok>, ExpandFault>
    requires low { IsTrue (is_low name.now) }
    ensures sound { IfOk result (λ v. IsTrue (all_sound v.items)) }
    ensures within { IfOk result (λ v. work.new.left + length v.items ≤ work.old.left) }
    ensures answer { Gives (λ v. (v.items, work.new, notes.new)) fault_of result
        (finished notes.old [] (counted name.now work.old)) }
{
    if work.counter as usize >= MOST_BYTES {
        return Err(ExpandFault::TooMuchWork { at: name.at() });
    }
    let tok = number_token(alloc, name, work.counter)?;
    work.counter += 1;
    notes.note_counted(&tok)?;
    one_token(alloc, tok, name, work)
}

fn push_argument(full: &mut Vec<HiddenToks>, toks: HiddenToks) -> Result<(), Memory>
    ensures { IfOk result (λ _. full.new.items ≡ full.old.items ++ toks ∷ []) }
{
    full.push(toks)?;
    Ok(())
}
