// Calls by tokens that name who calls and who is called.
ghost use Rattle.std.specs.Prelude.{◌≡◌, ◌++◌, OnOk};
ghost use Rattle.std.specs.Option.{option_to_list};
ghost use Rattle.calls_of.specs.Calls.{call, call_for};

use crate::named::Named;
use cs_base::Memory;
use std::marker::Model;

/// A call. Contracts see its two nodes.
#[derive(Drop)]
pub(crate) struct NamedCall<'a> {
    caller: Named<'a>,
    callee: Named<'a>,
}

impl<'a> Model for NamedCall<'a> {
    ghost use Rattle.calls_of.specs.Calls.{Call, call};

    ghost Value = { Call };

    ghost view = { λ c. call c.caller c.callee };
}

impl<'a> NamedCall<'a> {
    pub(crate) fn caller(&self) -> &Named<'a>
        ensures { result.now ≡ self.now.caller }
    {
        &self.caller
    }

    pub(crate) fn callee(&self) -> &Named<'a>
        ensures { result.now ≡ self.now.callee }
    {
        &self.callee
    }
}

/// A call where there are both nodes.
pub(crate) fn call_for<'a>(
    caller: Option<Named<'a>>,
    callee: Option<Named<'a>>,
) -> Option<NamedCall<'a>>
    ensures { option_to_list result ≡ call_for caller.entry callee.entry }
{
    match (caller, callee) {
        (Some(caller), Some(callee)) => Some(NamedCall { caller, callee }),
        _ => None,
    }
}

/// Adds a call, if there is one.
pub(crate) fn push_call<'a>(
    calls: &mut Vec<NamedCall<'a>>,
    call: Option<NamedCall<'a>>,
) -> Result<(), Memory>
    ensures { OnOk result (calls.new.items ≡ calls.old.items ++ option_to_list call.entry) }
{
    if let Some(call) = call {
        calls.push(call)?;
    }
    Ok(())
}
