// Calls that are taken to declare a function, of which no unit of their project tells.
ghost use Rattle.std.specs.Prelude.{◌≡◌, [], slice_get};
ghost use Rattle.std.specs.List.{flat_map};
ghost use Rattle.std.specs.Option.{option_map_or};
ghost use Rattle.cs_base.specs.declared.causes.Cause.TheVariants as cause;
ghost use Rattle.offences.specs.First.{standing, FirstThen};
ghost use Rattle.rename_rules.specs.Undeclared.{call_place, call_places, declares_by_call, is_declared, project_unit, undeclared_place};

use crate::member_offences::in_token;
use crate::project_names::{ProjectName, is_declared};
use analysis::{Analysis, Name, UnitAt};
use cs_base::{Cause, Tok};
use offences::{Class, Offence};

// `Undeclared` at each member in a token, unless the project declares what is spelled so.
fn at_token(
    a: &Analysis,
    class: &Class<'_>,
    names: &[ProjectName],
    project: &[u8],
    tok: &Tok,
    first: Option<Offence>,
) -> Option<Offence>
    ensures { FirstThen a.now.value.table (standing cause.Undeclared
        (undeclared_place class.now.members (is_declared names.now project.now) tok.now)) first result }
{
    if is_declared(names, project, tok.text()) {
        first
    } else {
        in_token(a, class, tok, Cause::Undeclared, first)
    }
}

// Whether a use is the first name of its entity: a call that is taken to declare the function.
fn declares_by_call(name: Name) -> bool
    ensures { result ≡ declares_by_call name }
{
    !name.declares && name.entity == name.index
}

// The same in token `k`.
fn at_index(
    a: &Analysis,
    class: &Class<'_>,
    names: &[ProjectName],
    project: &[u8],
    toks: &[Tok],
    k: u32,
    first: Option<Offence>,
) -> Option<Offence>
    ensures { FirstThen a.now.value.table (standing cause.Undeclared
        (option_map_or (undeclared_place class.now.members (is_declared names.now project.now)) (slice_get toks.now k) [])) first result }
{
    match toks.get(k as usize) {
        Some(tok) => at_token(a, class, names, project, tok, first),
        None => first,
    }
}

// The same in the token of a name, if it is such a call.
fn at_name(
    a: &Analysis,
    class: &Class<'_>,
    names: &[ProjectName],
    project: &[u8],
    toks: &[Tok],
    name: Name,
    first: Option<Offence>,
) -> Option<Offence>
    ensures { FirstThen a.now.value.table (standing cause.Undeclared
        (call_place class.now.members (is_declared names.now project.now) toks.now name)) first result }
{
    if declares_by_call(name) {
        at_index(a, class, names, project, toks, name.index, first)
    } else {
        first
    }
}

// The same for each of these names.
fn at_names(
    a: &Analysis,
    class: &Class<'_>,
    names: &[ProjectName],
    project: &[u8],
    toks: &[Tok],
    all: &[Name],
    first: Option<Offence>,
) -> Option<Offence>
    ensures { FirstThen a.now.value.table (standing cause.Undeclared
        (flat_map (call_place class.now.members (is_declared names.now project.now) toks.now) all.now)) first result }
{
    let mut now = first;
    for name in all {
        now = at_name(a, class, names, project, toks, *name, now);
    }
    now
}

/// `Undeclared` at each member in the calls of a unit of the project that are taken to declare what none of these names declares.
pub(crate) fn at_calls(
    a: &Analysis,
    class: &Class<'_>,
    names: &[ProjectName],
    project: &[u8],
    one: &UnitAt<'_>,
    first: Option<Offence>,
) -> Option<Offence>
    ensures { FirstThen a.now.value.table (standing cause.Undeclared
        (call_places class.now.members names.now (project_unit project.now one.now))) first result }
{
    let text = one.text();
    let bound = one.bound();
    at_names(a, class, names, project, text.toks(), bound.names(), first)
}
