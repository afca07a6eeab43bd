// A call of a function-like macro, read behind its `(` (6.10.3 paragraphs 4 and 10 to 12).
ghost use Rattle.std.specs.Prelude.{◌≡◌, ◌+◌, ◌≤◌, ◌<◌, ◌^◌, ℕ, length, IfOk, OnOk, IsTrue, List};
ghost use Rattle.cs_base.specs.Answer.{Gives};
ghost use Rattle.macro_body.specs.Hides.{Hidden};
ghost use Rattle.macro_expand.specs.Calls.{call_from, commas_of, arguments_of};
ghost use Rattle.macro_expand.specs.Expansion.{added_by};
ghost use Rattle.macro_body.specs.Faults.{fault_of};
ghost use Rattle.macro_expand.specs.Going.{read_with, read_from};
ghost use Rattle.macro_expand.specs.Laws.{begins_open};
ghost use Rattle.macro_body.specs.Sound.{all_sound, are_fitting};

use crate::calls::{CallToks, arguments_of, commas_of, take_call};
use crate::rest::Rest;
use cs_base::Memory;
use macro_body::{Definition, ExpandFault, HiddenTok, HiddenToks, HideSet, is_open};
use std::alloc::Global;

/// The arguments of a call, and the names that are not available to its result.
#[derive(Drop)]
pub struct CallRead {
    pub raw: Vec<HiddenToks>,
    pub added: HideSet,
}

/// Whether a `(` follows.
pub fn begins_open(rest: &Rest) -> bool
    ensures { result ≡ begins_open rest.now }
{
    match rest.first() {
        Some(tok) => is_open(tok),
        None => false,
    }
}

/// Reads a call of this name, its `(` being taken, and takes its tokens away.
pub fn read_call(
    alloc: Global,
    name: &HiddenTok,
    m: &Definition,
    rest: &mut Rest,
) -> Result<CallRead, ExpandFault>
    requires sound { IsTrue (all_sound rest.old) }
    ensures sound { OnOk result (IsTrue (all_sound rest.new)) }
    ensures shorter { OnOk result (length rest.new ≤ length rest.old) }
    // Each argument can be expanded where what the call stands in could be.
    ensures fitting { IfOk result (λ call. (n : ℕ) → n + length rest.old < 2 ^ 32 →
        IsTrue (are_fitting n call.raw.items)) }
    ensures answer { Gives (λ call. (call.raw.items, call.added, rest.new)) fault_of result
        (read_from name.now m.now (call_from rest.old (commas_of m.now) 0)) }
{
    match take_call(alloc, rest, commas_of(m))? {
        Some(call) => with_arguments(alloc, name, m, call),
        None => Err(ExpandFault::OpenCall {
            at: name.tok().at(),
        }),
    }
}

// The same where the arguments stand alone.
fn with_arguments(
    alloc: Global,
    name: &HiddenTok,
    m: &Definition,
    call: CallToks,
) -> Result<CallRead, ExpandFault>
    ensures { (rest : List Hidden) → Gives (λ read. (read.raw.items, read.added, rest)) fault_of result
        (read_with name.now call.close rest (arguments_of m.now call.arguments.items)) }
{
    let CallToks { arguments, close } = call;
    match arguments_of(m, arguments)? {
        Some(raw) => Ok(CallRead {
            raw,
            added: added_by(alloc, name, &close)?,
        }),
        None => Err(ExpandFault::WrongArguments {
            at: name.tok().at(),
        }),
    }
}

// The names that are not available to the result of a call: those of both the name and the `)`, and
// the name itself.
fn added_by(alloc: Global, name: &HiddenTok, close: &HideSet) -> Result<HideSet, Memory>
    ensures { IfOk result (λ added. added ≡ added_by name.now close.now) }
{
    let mut added = name.hides().common(alloc, close)?;
    added.add(name.tok())?;
    Ok(added)
}
