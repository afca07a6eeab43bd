// Replacement of a name by its macro's replacement list (6.10.3.1 to 6.10.3.3).
ghost use Rattle.std.specs.Prelude.{◌≡◌, ◌≤◌, suc, length, IfOk, IsTrue};
ghost use Rattle.std.specs.List.{list_all};
ghost use Rattle.cs_base.specs.Answer.{Gives};
ghost use Rattle.macro_body.specs.Substitution.{with_gap, cost_of, result_of};
ghost use Rattle.macro_body.specs.Kept.{made_kept};
ghost use Rattle.macro_body.specs.Faults.{fault_of};
ghost use Rattle.macro_body.specs.Sound.{is_low, all_sound, is_argument, chains_traced};

use crate::chains::Chain;
pub use crate::costs::work_left;
use crate::fault::ExpandFault;
use crate::hidden::{HiddenTok, HiddenToks};
use crate::notes::Notes;
use crate::operands::chains_made;
use crate::pasting::chains_pasted;
use crate::plain_bodies::{are_plain, plain_tokens};
use cs_base::{Memory, Tok};
use std::alloc::Global;

/// What a name is replaced by, its arguments given: strings are made first, then tokens are pasted.
pub fn result_of(
    alloc: Global,
    name: &Tok,
    raw: &[HiddenToks],
    full: &[HiddenToks],
    chains: &[Chain],
    notes: &mut Notes,
) -> Result<Vec<HiddenTok>, ExpandFault>
    requires low { IsTrue (is_low name.now) }
    requires raw_sound { IsTrue (list_all is_argument raw.now) }
    requires full_sound { IsTrue (list_all all_sound full.now) }
    requires traced { IsTrue (chains_traced chains.now) }
    ensures sound { IfOk result (λ v. IsTrue (all_sound v.items)) }
    ensures within { IfOk result (λ v. suc (length v.items) ≤ cost_of name.now (record { raw = raw.now; full = full.now }) chains.now) }
    ensures answer { Gives (λ v. (v.items, notes.new)) fault_of result (made_kept notes.old (result_of name.now (record { raw = raw.now; full = full.now }) chains.now)) }
{
    if are_plain(chains) {
        let toks = plain_tokens(alloc, name, full, chains)?;
        return Ok(with_gap(alloc, name.gap(), toks)?);
    }
    let made = chains_made(alloc, name, raw, full, chains, notes)?;
    let pasted = chains_pasted(alloc, name, made, notes)?;
    Ok(with_gap(alloc, name.gap(), pasted)?)
}

// White space before the first token, as before the name.
fn with_gap(alloc: Global, gap: bool, toks: Vec<HiddenTok>) -> Result<Vec<HiddenTok>, Memory>
    ensures { IfOk result (λ v. v.items ≡ with_gap gap toks.items) }
{
    let mut toks = toks;
    if !toks.is_empty() {
        let first = toks[0].with_gap(alloc, gap)?;
        toks[0] = first;
    }
    Ok(toks)
}
