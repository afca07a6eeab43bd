// Expansion of a list of tokens (6.10.3.4): the first name that can be replaced is replaced, and its
// result is scanned again together with what follows.
ghost use Rattle.std.specs.Prelude.{◌≡◌, ◌+◌, ◌≤◌, ◌<◌, ◌^◌, ◌++◌, ◌∷◌, [], ◌&&◌, true, false, length, option_to_list, Some, IfOk, IfSome, OnOk, IsTrue};
ghost use Rattle.std.specs.List.{list_all};
ghost use Rattle.cs_base.specs.Answer.{Gives};
ghost use Rattle.macro_body.specs.declared.notes.Work.{Work as WorkValue};
ghost use Rattle.macro_body.specs.Hides.{toks_of};
ghost use Rattle.macro_body.specs.Macro.{is_function};
ghost use Rattle.macro_body.specs.Live.{table_of};
ghost use Rattle.macro_expand.specs.Expansion.{macro_of, expansion};
ghost use Rattle.macro_body.specs.Kept.{Kept, finished, expanded_kept};
ghost use Rattle.macro_body.specs.Faults.{fault_of};
ghost use Rattle.macro_expand.specs.Laws.{begins_open};
ghost use Rattle.macro_body.specs.Sound.{is_traced, is_low, is_sound, all_sound, AllTraced};
ghost use Rattle.macro_expand.specs.Going.{setting_of, whole_in, before_behind, plain, GoesOn};

use crate::call_reading::{CallRead, begins_open, read_call};
use crate::context::Context;
use crate::rest::{Lent, Rest};
use cs_base::{Memory, Tok};
use macro_body::{Definition, ExpandFault, HiddenTok, HideSet, Macros, Notes, Work, is_function};
use std::alloc::Global;

/// Expands the macros of a run (6.10.3): the first name that can be replaced is replaced, and its result
/// is scanned again together with what follows, until no name can be replaced. `path` is what `__FILE__`
/// stands for. `notes` gets what happened behind what it holds, and `work` loses what the replacements
/// cost.
///
/// The fault is the first that comes in the order of the replacements, at the position of a macro's name.
/// A call has no `)` in the run (`OpenCall`) or a wrong number of arguments (`WrongArguments`). Then its
/// arguments are expanded, from the first to the last, with their faults; where 200 are being expanded
/// inside one another, none is expanded inside them (`TooDeep`). Then the cost is counted, which may pass
/// the work that is left (`TooMuchWork`); a `#` may make no string (`NotAString`), and then a `##` no
/// token (`NotOneToken`). Want of memory (`Memory`) may come at any time. After a refusal nothing is said
/// of what `work` and `notes` hold.
pub fn expand(
    alloc: Global,
    macros: &Macros,
    path: &[u8],
    run: &[Tok],
    work: &mut Work,
    notes: &mut Notes,
) -> Result<Vec<Tok>, ExpandFault>
    requires fits { length run.now + work.old.left < 2 ^ 32 }
    requires sound { IsTrue (list_all (λ t. is_traced t && is_low t) run.now) }
    requires bodies { AllTraced (table_of macros.now) }
    ensures falls { OnOk result (work.new.left ≤ work.old.left) }
    // Each replacement costs more than it puts in.
    ensures few { IfOk result (λ toks.
        work.new.left + length toks.items ≤ work.old.left + length run.now) }
    ensures answer { Gives (λ toks. (toks.items, work.new, notes.new)) fault_of result
        (expanded_kept notes.old (expansion (table_of macros.now) path.now run.now work.old)) }
{
    let context = Context {
        alloc,
        macros,
        path,
        depth: 0,
    };
    let rest = Rest::new(alloc, Lent::Run(run));
    context.whole_run(rest, work, notes)
}

impl<'a> Context<'a> {
    // The whole expansion of a run: its tokens keep no hide sets.
    fn whole_run(
        &self,
        mut rest: Rest,
        work: &mut Work,
        notes: &mut Notes,
    ) -> Result<Vec<Tok>, ExpandFault>
        requires outermost { self.now.depth ≡ 0 }
        requires sound { IsTrue (all_sound rest) }
        requires fits { work.old.left + length rest < 2 ^ 32 }
        ensures falls { OnOk result (work.new.left ≤ work.old.left) }
        ensures few { IfOk result (λ v.
            work.new.left + length v.items ≤ work.old.left + length rest.entry) }
        ensures answer { Gives (λ v. (v.items, work.new, notes.new)) fault_of result
            (expanded_kept notes.old (whole_in self.now 0 rest.entry work.old)) }
    {
        let mut out = Vec::new(self.alloc);
        let mut before = self.plain_run(0, &mut rest, &mut out)?;
        'toks: while let Some(first) = rest.take()? {
            let stayed = self.next_token(before, first, &mut rest, work, notes)?;
            before = behind(self.depth, before, &stayed);
            put_out_plain(&mut out, stayed)?;
            before = self.plain_run(before, &mut rest, &mut out)?;
        }
        Ok(out)
    }

    // Puts out the tokens before the first that is the name of a macro, where so many were put out; and gives how
    // many are then. What they come from, and their hide sets, mean nothing to them.
    fn plain_run(&self, before: u32, rest: &mut Rest, out: &mut Vec<Tok>) -> Result<u32, Memory>
        requires outermost { self.now.depth ≡ 0 }
        requires fits { before + length rest.old < 2 ^ 32 }
        ensures sound { OnOk result (IsTrue (all_sound rest.old) → IsTrue (all_sound rest.new)) }
        ensures counted { IfOk result (λ after. after + length rest.new ≡ before + length rest.old) }
        ensures shorter { OnOk result (length rest.new ≤ length rest.old) }
        ensures few { OnOk result (length out.new.items + length rest.new ≡ length out.old.items + length rest.old) }
        ensures answer { IfOk result (λ after. (kept : Kept) (left : WorkValue) →
            plain out.new.items (finished kept [] (whole_in self.now after rest.new left))
            ≡ plain out.old.items (finished kept [] (whole_in self.now before rest.old left))) }
    {
        let mut before = before;
        'toks: while let Some(tok) = rest.take_plain(self.macros)? {
            out.push(tok)?;
            before += 1;
        }
        Ok(before)
    }

    #[cycle(expansion)]
    /// The whole expansion of the tokens that follow, where so many were put out before.
    pub(crate) fn whole_list(
        &self,
        mut before: u32,
        mut rest: Rest,
        work: &mut Work,
        notes: &mut Notes,
    ) -> Result<Vec<HiddenTok>, ExpandFault>
        requires sound { IsTrue (all_sound rest) }
        requires fits { before + work.old.left + length rest < 2 ^ 32 }
        ensures sound { IfOk result (λ v. IsTrue (all_sound v.items)) }
        ensures falls { OnOk result (work.new.left ≤ work.old.left) }
        ensures few { IfOk result (λ v.
            work.new.left + length v.items ≤ work.old.left + length rest.entry) }
        ensures answer { Gives (λ v. (v.items, work.new, notes.new)) fault_of result
            (finished notes.old [] (whole_in self.now before rest.entry work.old)) }
    {
        let mut out = Vec::new(self.alloc);
        'toks: while let Some(first) = rest.take()? {
            let stayed = self.next_token(before, first, &mut rest, work, notes)?;
            before = behind(self.depth, before, &stayed);
            put_out(&mut out, stayed)?;
        }
        Ok(out)
    }

    #[cycle(expansion)]
    // The first token, if it stays; or none, and what replaces it is put before the rest.
    fn next_token(
        &self,
        before: u32,
        first: HiddenTok,
        rest: &mut Rest,
        work: &mut Work,
        notes: &mut Notes,
    ) -> Result<Option<HiddenTok>, ExpandFault>
        requires first_sound { IsTrue (is_sound first) }
        requires sound { IsTrue (all_sound rest.old) }
        requires fits { before + work.old.left + length rest.old + 1 < 2 ^ 32 }
        ensures stayed_sound { IfOk result (λ stayed. IfSome stayed (λ t. IsTrue (is_sound t))) }
        ensures sound { OnOk result (IsTrue (all_sound rest.new)) }
        ensures shorter { OnOk result
            (work.new.left + length rest.new ≤ work.old.left + length rest.old) }
        ensures falls { OnOk result (work.new.left ≤ work.old.left) }
        ensures answer { GoesOn result
            (finished notes.old [] (whole_in self.now before (first ∷ rest.old) work.old))
            (λ stayed. finished notes.new (option_to_list stayed)
            (whole_in self.now (before_behind stayed self.now.depth before) rest.new work.new)) }
    {
        match self.macro_of(&first) {
            Some(m) => {
                if is_function(m.form) {
                    self.function_like(before, first, m, rest, work, notes)
                } else {
                    self.object_like(before, first, m, rest, work, notes)
                }
            }
            None => Ok(Some(first)),
        }
    }

    #[cycle(expansion)]
    // A name that stands alone for its macro's replacement list (6.10.3 paragraph 9).
    fn object_like(
        &self,
        before: u32,
        first: HiddenTok,
        m: &Definition,
        rest: &mut Rest,
        work: &mut Work,
        notes: &mut Notes,
    ) -> Result<Option<HiddenTok>, ExpandFault>
        requires named { macro_of (setting_of self.now).table first ≡ Some m.now }
        requires object { is_function m.now.form ≡ false }
        requires traced { IsTrue (list_all is_traced m.now.body) }
        requires first_sound { IsTrue (is_sound first) }
        requires sound { IsTrue (all_sound rest.old) }
        ensures stayed_sound { IfOk result (λ stayed. IfSome stayed (λ t. IsTrue (is_sound t))) }
        ensures sound { OnOk result (IsTrue (all_sound rest.new)) }
        ensures shorter { OnOk result
            (work.new.left + length rest.new ≤ work.old.left + length rest.old) }
        ensures falls { OnOk result (work.new.left ≤ work.old.left) }
        ensures answer { GoesOn result
            (finished notes.old [] (whole_in self.now before (first ∷ rest.old) work.old))
            (λ stayed. finished notes.new (option_to_list stayed)
            (whole_in self.now (before_behind stayed self.now.depth before) rest.new work.new)) }
    {
        let added = with_name(self.alloc, &first)?;
        let toks = self.replacement(before, first.tok(), m, &[], work, notes)?;
        rest.put(toks, added)?;
        Ok(None)
    }

    #[cycle(expansion)]
    // A function-like macro's name: it stays where no `(` follows (6.10.3 paragraph 10).
    fn function_like(
        &self,
        before: u32,
        first: HiddenTok,
        m: &Definition,
        rest: &mut Rest,
        work: &mut Work,
        notes: &mut Notes,
    ) -> Result<Option<HiddenTok>, ExpandFault>
        requires named { macro_of (setting_of self.now).table first ≡ Some m.now }
        requires function { is_function m.now.form ≡ true }
        requires traced { IsTrue (list_all is_traced m.now.body) }
        requires first_sound { IsTrue (is_sound first) }
        requires sound { IsTrue (all_sound rest.old) }
        requires fits { before + work.old.left + length rest.old < 2 ^ 32 }
        ensures stayed_sound { IfOk result (λ stayed. IfSome stayed (λ t. IsTrue (is_sound t))) }
        ensures sound { OnOk result (IsTrue (all_sound rest.new)) }
        ensures shorter { OnOk result
            (work.new.left + length rest.new ≤ work.old.left + length rest.old) }
        ensures falls { OnOk result (work.new.left ≤ work.old.left) }
        ensures answer { GoesOn result
            (finished notes.old [] (whole_in self.now before (first ∷ rest.old) work.old))
            (λ stayed. finished notes.new (option_to_list stayed)
            (whole_in self.now (before_behind stayed self.now.depth before) rest.new work.new)) }
    {
        if begins_open(rest) {
            self.call(before, &first, m, rest, work, notes)?;
            Ok(None)
        } else {
            Ok(Some(first))
        }
    }

    #[cycle(expansion)]
    // A call, which what replaces it is put in place of.
    fn call(
        &self,
        before: u32,
        first: &HiddenTok,
        m: &Definition,
        rest: &mut Rest,
        work: &mut Work,
        notes: &mut Notes,
    ) -> Result<(), ExpandFault>
        requires named { macro_of (setting_of self.now).table first.now ≡ Some m.now }
        requires function { is_function m.now.form ≡ true }
        requires opens { IsTrue (begins_open rest.old) }
        requires traced { IsTrue (list_all is_traced m.now.body) }
        requires first_sound { IsTrue (is_sound first.now) }
        requires sound { IsTrue (all_sound rest.old) }
        requires fits { before + work.old.left + length rest.old < 2 ^ 32 }
        ensures sound { OnOk result (IsTrue (all_sound rest.new)) }
        ensures shorter { OnOk result
            (work.new.left + length rest.new ≤ work.old.left + length rest.old) }
        ensures falls { OnOk result (work.new.left ≤ work.old.left) }
        ensures answer { GoesOn result
            (finished notes.old [] (whole_in self.now before (first.now ∷ rest.old) work.old))
            (λ _. finished notes.new [] (whole_in self.now before rest.new work.new)) }
    {
        let _sign = rest.take()?;
        let read = read_call(self.alloc, first, m, rest)?;
        let CallRead { raw, added } = read;
        let toks = self.replacement(before, first.tok(), m, &raw, work, notes)?;
        rest.put(toks, added)?;
        Ok(())
    }
}

// How many tokens are put out behind a token that stays, if one does.
fn behind(depth: u32, before: u32, stayed: &Option<HiddenTok>) -> u32
    requires { before + 1 < 2 ^ 32 }
    ensures { result ≡ before_behind stayed.now depth before }
{
    match stayed {
        Some(_) if depth == 0 => before + 1,
        _ => before,
    }
}

// Puts out a token that stays, if one does.
fn put_out(out: &mut Vec<HiddenTok>, stayed: Option<HiddenTok>) -> Result<(), Memory>
    ensures { IfOk result (λ _. out.new.items ≡ out.old.items ++ option_to_list stayed) }
{
    if let Some(tok) = stayed {
        out.push(tok)?;
    }
    Ok(())
}

// The names that are not available to what an object-like macro's name is replaced by.
fn with_name(alloc: Global, name: &HiddenTok) -> Result<HideSet, Memory>
    ensures { IfOk result (λ added. added ≡ name.now.hides ++ name.now.tok.text ∷ []) }
{
    let mut added = name.hides().copy(alloc)?;
    added.add(name.tok())?;
    Ok(added)
}

// Puts out a token that stays, if one does, without its hide set.
fn put_out_plain(out: &mut Vec<Tok>, stayed: Option<HiddenTok>) -> Result<(), Memory>
    ensures { IfOk result (λ _. out.new.items ≡ out.old.items ++ toks_of (option_to_list stayed)) }
{
    if let Some(tok) = stayed {
        out.push(tok.into_tok())?;
    }
    Ok(())
}
