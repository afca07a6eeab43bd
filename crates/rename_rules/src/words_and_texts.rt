// What stands against a renaming in units of GNU C: names that denote nothing, texts for the assembler, and calls of what
// nothing declares.
ghost use Rattle.std.specs.Prelude.{◌≡◌, ◌≤◌, IfOk, IsTrue, length};
ghost use Rattle.std.specs.List.{flat_map};
ghost use Rattle.cs_base.specs.declared.causes.Cause.TheVariants as cause;
ghost use Rattle.offences.specs.First.{standing, FirstThen};
ghost use Rattle.rename_rules.specs.GnuOffences.{has_gnu, gnu_offences};
ghost use Rattle.rename_rules.specs.GnuTexts.{is_free, told_in, word_place_in, AreQuiet, NoneIsFree};
ghost use Rattle.rename_rules.specs.GnuUnits.{AreTold, IsAgainstUnit};

use crate::first_calls::at_calls;
use crate::gnu_texts::{in_texts, may_be_named};
use crate::member_offences::in_token;
use crate::project_names::project_of;
use crate::renamings::Renaming;
use crate::symbols::{OldSpellings, old_spellings};
use analysis::{Analysis, Bound, UnitAt};
use cs_base::{Cause, Memory, Tok};
use gnu_lists::{Lists, lists_of};
use offences::{Class, Offence, holds_member};
use std::alloc::Global;

/// Whether some unit is of GNU C.
pub(crate) fn has_gnu(a: &Analysis) -> bool
    ensures { result ≡ has_gnu a.now.value }
{
    for unit in 0..a.units() {
        if a.gnu_begin(unit + 1).is_some() {
            return true;
        }
    }
    false
}

// `Reserved` at each member in token `k`, if that denotes nothing.
fn in_word(
    a: &Analysis,
    class: &Class<'_>,
    bound: &Bound,
    toks: &[Tok],
    k: u32,
    first: Option<Offence>,
) -> Option<Offence>
    ensures { FirstThen a.now.value.table (standing cause.Reserved (word_place_in class.now.members bound.now.names toks.now k)) first result }
{
    if bound.entity(k).is_some() {
        return first;
    }
    match toks.get(k as usize) {
        Some(tok) => in_token(a, class, tok, Cause::Reserved, first),
        None => first,
    }
}

// The same at each of these tokens.
fn in_words(
    a: &Analysis,
    class: &Class<'_>,
    bound: &Bound,
    toks: &[Tok],
    places: &[u32],
    first: Option<Offence>,
) -> Option<Offence>
    ensures { FirstThen a.now.value.table (standing cause.Reserved (flat_map (word_place_in class.now.members bound.now.names toks.now) places.now)) first result }
{
    let mut now = first;
    for k in places {
        now = in_word(a, class, bound, toks, *k, now);
    }
    now
}

// Both offences in a unit whose tree tells these lists.
fn in_lists(
    alloc: Global,
    a: &Analysis,
    renaming: &Renaming<'_>,
    olds: &[Tok],
    bound: &Bound,
    toks: &[Tok],
    lists: &Lists,
    first: Option<Offence>,
) -> Result<Option<Offence>, Memory>
    ensures { IfOk result (FirstThen a.now.value.table (told_in renaming.now.class.members renaming.now.name olds.now bound.now.names toks.now lists.now) first) }
{
    let words = in_words(a, renaming.class(), bound, toks, lists.places(), first);
    in_texts(alloc, a, renaming, olds, toks, lists.texts(), words)
}

// Whether a token holds a member, where it denotes nothing.
fn is_free(class: &Class<'_>, bound: &Bound, toks: &[Tok], k: u32) -> bool
    ensures { result ≡ is_free class.now.members bound.now.names toks.now k }
{
    match toks.get(k as usize) {
        Some(tok) => bound.entity(k).is_none() && holds_member(class, tok),
        None => false,
    }
}

// Whether none of the tokens does.
fn none_is_free(class: &Class<'_>, bound: &Bound, toks: &[Tok]) -> bool
    ensures { IsTrue result → NoneIsFree class.now.members bound.now.names toks.now }
{
    for k in 0..u32::MAX {
        if k as usize >= toks.len() {
            return true;
        }
        if is_free(class, bound, toks, k) {
            return false;
        }
    }
    false
}

// Neither offence stands in a unit, as its tokens alone tell.
fn is_quiet(
    alloc: Global,
    renaming: &Renaming<'_>,
    olds: &[Tok],
    bound: &Bound,
    toks: &[Tok],
) -> Result<bool, Memory>
    ensures { IfOk result (λ quiet. IsTrue quiet
        → AreQuiet renaming.now.class.members renaming.now.name olds.now bound.now.names toks.now) }
{
    if !none_is_free(renaming.class(), bound, toks) {
        return Ok(false);
    }
    let named = may_be_named(alloc, renaming, olds, toks)?;
    Ok(!named)
}

// Both offences in a unit of GNU C. Its tree is read again only where its tokens alone leave it open.
fn in_read(
    alloc: Global,
    a: &Analysis,
    renaming: &Renaming<'_>,
    olds: &[Tok],
    one: &UnitAt<'_>,
    first: Option<Offence>,
) -> Result<Option<Offence>, Memory>
    ensures { IfOk result (AreTold a.now.value renaming.now.class.members renaming.now.name olds.now one.now first) }
{
    let toks = one.text().toks();
    let bound = one.bound();
    let quiet = is_quiet(alloc, renaming, olds, bound, toks)?;
    if quiet {
        return Ok(first);
    }
    let tree = one.tree(alloc)?;
    let lists = lists_of(alloc, toks, &tree)?;
    in_lists(alloc, a, renaming, olds, bound, toks, &lists, first)
}

// All offences of a unit: none where it is not of GNU C.
fn in_unit(
    alloc: Global,
    a: &Analysis,
    renaming: &Renaming<'_>,
    olds: &OldSpellings,
    unit: u32,
    first: Option<Offence>,
) -> Result<Option<Offence>, Memory>
    requires start { 1 ≤ unit }
    requires end { unit ≤ length a.now.value.units }
    ensures { IfOk result (λ now. IsAgainstUnit a.now.value renaming.now.class.members renaming.now.name
        olds.now.texts.items olds.now.names.items unit first now) }
{
    if a.gnu_begin(unit).is_none() {
        return Ok(first);
    }
    let one = a.unit(alloc, unit)?;
    let project = project_of(a, unit - 1);
    let calls = at_calls(a, renaming.class(), &olds.names, project, &one, first);
    in_read(alloc, a, renaming, &olds.texts, &one, calls)
}

// All offences of all units.
fn in_units(
    alloc: Global,
    renaming: &Renaming<'_>,
    first: Option<Offence>,
) -> Result<Option<Offence>, Memory>
    ensures { IfOk result (FirstThen renaming.now.class.analysis.value.table
        (gnu_offences renaming.now.class.analysis.value renaming.now.class.members renaming.now.name) first) }
{
    let class = renaming.class();
    let a = class.analysis();
    let olds = old_spellings(alloc, class)?;
    let mut now = first;
    for unit in 0..a.units() {
        now = in_unit(alloc, a, renaming, &olds, unit + 1, now)?;
    }
    Ok(now)
}

/// In each unit of GNU C: `Undeclared` at each member in a call that is taken to declare what no unit of its project declares, `Reserved`
/// at each in a name that denotes nothing, as that of an attribute, and `AssemblerText` where a text for the assembler begins
/// that has a name of the class.
pub fn gnu_offences(
    alloc: Global,
    renaming: &Renaming<'_>,
    first: Option<Offence>,
) -> Result<Option<Offence>, Memory>
    ensures { IfOk result (FirstThen renaming.now.class.analysis.value.table
        (gnu_offences renaming.now.class.analysis.value renaming.now.class.members renaming.now.name) first) }
{
    let a = renaming.class().analysis();
    if has_gnu(a) {
        in_units(alloc, renaming, first)
    } else {
        Ok(first)
    }
}
