// What happens inside lists that stands against a new order.
ghost use Rattle.std.specs.Borrow.{Bor};
ghost use Rattle.std.specs.Prelude.{◌≡◌, ◌++◌, List};
ghost use Rattle.std.specs.List.{flat_map};
ghost use Rattle.c_types.specs.declared.lists.List.{List as NameList};
ghost use Rattle.cs_base.specs.declared.causes.Cause.TheVariants as cause;
ghost use Rattle.offences.specs.First.{standing, FirstThen};
ghost use Rattle.template_rules.specs.Insides.{list_insides, all_insides};
ghost use Rattle.template_rules.specs.ListPlaces.{HaveSame};
ghost use Rattle.template_rules.specs.MacroOffences.{is_line_number, line_number_place};
ghost use Rattle.template_rules.specs.ScopeOffences.{is_type_or_constant, is_function_word, declares_more, declaration_place};

use crate::covers::Covers;
use crate::dependences::spelling_at;
use crate::functions::Functions;
use crate::macro_names::is_replacing;
use crate::places::at_token;
use crate::unit_functions::UnitFunctions;
use analysis::{Analysis, Event, Name};
use c_types::EntityKind;
use cs_base::{Cause, Tok};
use offences::{Offence, first_with};

// Whether an event replaces `__LINE__` by the number of its line, or `__COUNTER__` by the next number of the unit.
fn is_line_number(event: &Event) -> bool
    ensures { result ≡ is_line_number event.now.kind event.now.def event.now.name }
{
    if !is_replacing(event.kind) {
        return false;
    }
    if event.def.is_some() {
        return false;
    }
    match &event.name {
        Some(name) => {
            name.text() == b"__LINE__".as_slice() || name.text() == b"__COUNTER__".as_slice()
        }
        None => false,
    }
}

// `LineNumber` at an event that happens inside one of these lists.
fn line_number_in(
    a: &Analysis,
    event: &Event,
    lists: &Covers<'_>,
    first: Option<Offence>,
) -> Option<Offence>
    ensures { (ls : List (Bor NameList)) → HaveSame ls lists.now.lists.items
        → FirstThen a.now.value.table (flat_map (λ (l : Bor NameList). standing cause.LineNumber (line_number_place l.now event.now)) ls) first result }
{
    if !is_line_number(event) {
        return first;
    }
    if lists.holds(event.before, event.before as u64) {
        first_with(a, first, event.at, Cause::LineNumber)
    } else {
        first
    }
}

// The same at each event.
fn line_numbers_at(
    a: &Analysis,
    events: &[Event],
    lists: &Covers<'_>,
    first: Option<Offence>,
) -> Option<Offence>
    ensures { (ls : List (Bor NameList)) → HaveSame ls lists.now.lists.items
        → FirstThen a.now.value.table (flat_map (λ e. flat_map (λ (l : Bor NameList). standing cause.LineNumber (line_number_place l.now e)) ls) events.now)
        first result }
{
    let mut now = first;
    for event in events {
        now = line_number_in(a, event, lists, now);
    }
    now
}

// Whether names of this kind are declared for later tokens: types, or a constant.
fn is_type_or_constant(kind: EntityKind) -> bool
    ensures { result ≡ is_type_or_constant kind }
{
    match kind {
        EntityKind::Tag | EntityKind::Typedef | EntityKind::Enumerator => true,
        _ => false,
    }
}

// Whether token `k` is spelled as the name of the function in which it stands.
fn is_function_word(toks: &[Tok], k: u32) -> bool
    ensures { result ≡ is_function_word toks.now k }
{
    spelling_at(toks, k) == b"__func__".as_slice()
}

// Whether a name declares a tag, a typedef name, an enumerator or `__func__`, or anew what another name declares.
fn declares_more(toks: &[Tok], name: Name) -> bool
    ensures { result ≡ declares_more toks.now name }
{
    name.declares
        && (is_type_or_constant(name.kind)
            || (is_function_word(toks, name.index) || name.entity != name.index))
}

// `DeclarationInArgument` at a name that declares such a thing inside one of these lists.
fn declaration_in(
    a: &Analysis,
    toks: &[Tok],
    name: Name,
    lists: &Covers<'_>,
    first: Option<Offence>,
) -> Option<Offence>
    ensures { (ls : List (Bor NameList)) → HaveSame ls lists.now.lists.items → FirstThen a.now.value.table
        (flat_map (λ (l : Bor NameList). standing cause.DeclarationInArgument (declaration_place toks.now l.now name)) ls) first result }
{
    if !declares_more(toks, name) {
        return first;
    }
    if lists.holds(name.index, name.index as u64 + 1) {
        at_token(a, toks, name.index, Cause::DeclarationInArgument, first)
    } else {
        first
    }
}

// The same at each name.
fn declarations_at(
    a: &Analysis,
    toks: &[Tok],
    names: &[Name],
    lists: &Covers<'_>,
    first: Option<Offence>,
) -> Option<Offence>
    ensures { (ls : List (Bor NameList)) → HaveSame ls lists.now.lists.items → FirstThen a.now.value.table
        (flat_map (λ n. flat_map (λ (l : Bor NameList). standing cause.DeclarationInArgument (declaration_place toks.now l.now n)) ls) names.now)
        first result }
{
    let mut now = first;
    for name in names {
        now = declaration_in(a, toks, *name, lists, now);
    }
    now
}

// Both in the lists of a unit that are ones of a function that the class names.
fn insides_at(a: &Analysis, unit: &UnitFunctions<'_>, first: Option<Offence>) -> Option<Offence>
    ensures { FirstThen a.now.value.table
        (flat_map (list_insides unit.now.class.members unit.now.text.now.toks unit.now.text.now.events unit.now.bound.now.names)
        unit.now.bound.now.declarators
        ++ flat_map (list_insides unit.now.class.members unit.now.text.now.toks unit.now.text.now.events unit.now.bound.now.names)
        unit.now.bound.now.calls) first result }
{
    let lists = unit.found.as_slice();
    if lists.is_empty() {
        return first;
    }
    let numbered = line_numbers_at(a, unit.text.events(), &unit.covers, first);
    declarations_at(
        a,
        unit.text.toks(),
        unit.bound.names(),
        &unit.covers,
        numbered,
    )
}

/// `LineNumber`, at each `__LINE__` or `__COUNTER__` that is replaced by a number inside a list; `DeclarationInArgument`,
/// at each tag, typedef name, enumerator or `__func__` that is declared inside one.
pub fn at_insides(functions: &Functions<'_>, first: Option<Offence>) -> Option<Offence>
    ensures answer { FirstThen functions.now.analysis.value.table
        (all_insides functions.now.members functions.now.analysis.value) first result }
{
    let a = functions.analysis();
    let mut now = first;
    let units = functions.units();
    for unit in units {
        now = insides_at(a, unit, now);
    }
    now
}
