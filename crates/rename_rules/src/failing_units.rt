// Units of GNU C that would be read or bound otherwise.
ghost use Rattle.std.specs.Prelude.{◌≡◌, ◌≤◌, false, IfOk, length, slice_get};
ghost use Rattle.std.specs.Option.{option_map_or};
ghost use Rattle.cs_base.specs.declared.causes.Cause.TheVariants as cause;
ghost use Rattle.analysis.specs.Below.line_shape.Signs.{is_name};
ghost use Rattle.offences.specs.Moves.{renaming_by};
ghost use Rattle.offences.specs.First.{standing, FirstThen};
ghost use Rattle.rename_rules.specs.GnuOffences.{are_identifiers, failing_places};
ghost use Rattle.rename_rules.specs.GnuUnits.{FailsIn, FailsAt, IsKeptIn};

use crate::member_offences::is_name;
use crate::renamings::Renaming;
use crate::words_and_texts::has_gnu;
use analysis::{Analysis, Name};
use cs_base::{Cause, Memory, Pos, Tok};
use offences::{Moves, Offence, class_moves, first_with, renamed_toks, toks_stay};
use same_readings::{goes_whole, reads_so};
use std::alloc::Global;

// `Syntax` where a unit of GNU C begins, if its tokens are read or bound otherwise behind these moves.
fn at_begin(
    alloc: Global,
    a: &Analysis,
    moves: &Moves,
    unit: u32,
    at: Pos,
    first: Option<Offence>,
) -> Result<Option<Offence>, Memory>
    requires start { 1 ≤ unit }
    requires end { unit ≤ length a.now.value.units }
    ensures { IfOk result (λ now. FailsAt a.now.value (renaming_by moves.now) unit at first now) }
{
    if is_kept(alloc, a, moves, unit)? {
        Ok(first)
    } else {
        Ok(first_with(a, first, at, Cause::Syntax))
    }
}

// Whether the tokens of a unit are read to its tree behind these moves, and bound as it is. They are where one spelling
// becomes another wherever it stands, and nothing is read again then.
fn is_kept(alloc: Global, a: &Analysis, moves: &Moves, unit: u32) -> Result<bool, Memory>
    requires start { 1 ≤ unit }
    requires end { unit ≤ length a.now.value.units }
    ensures { IfOk result (IsKeptIn a.now.value (renaming_by moves.now) unit) }
{
    let one = a.unit(alloc, unit)?;
    let toks = one.text().toks();
    let bound = one.bound();
    if !are_identifiers(toks, bound.names()) {
        return Ok(false);
    }
    if toks_stay(moves, toks) && goes_whole(toks, toks) {
        return Ok(true);
    }
    let renamed = renamed_toks(alloc, moves, toks)?;
    if goes_whole(toks, &renamed) {
        return Ok(true);
    }
    let tree = one.tree(alloc)?;
    reads_so(alloc, &renamed, &tree, bound)
}

// Whether each token that is bound is an identifier.
fn are_identifiers(toks: &[Tok], names: &[Name]) -> bool
    ensures { result ≡ are_identifiers toks.now names.now }
{
    names.iter().all(|name| is_identifier_at(toks, name.index))
}

fn is_identifier_at(toks: &[Tok], k: u32) -> bool
    ensures { result ≡ option_map_or is_name (slice_get toks.now k) false }
{
    match toks.get(k as usize) {
        Some(tok) => is_name(tok),
        None => false,
    }
}

// The same for any unit.
fn in_unit(
    alloc: Global,
    a: &Analysis,
    moves: &Moves,
    unit: u32,
    first: Option<Offence>,
) -> Result<Option<Offence>, Memory>
    requires start { 1 ≤ unit }
    requires end { unit ≤ length a.now.value.units }
    ensures { IfOk result (λ now. FailsIn a.now.value (renaming_by moves.now) unit first now) }
{
    match a.gnu_begin(unit) {
        Some(at) => at_begin(alloc, a, moves, unit, at, first),
        None => Ok(first),
    }
}

// The same for all units.
fn in_units(
    alloc: Global,
    renaming: &Renaming<'_>,
    first: Option<Offence>,
) -> Result<Option<Offence>, Memory>
    ensures { IfOk result (FirstThen renaming.now.class.analysis.value.table (standing cause.Syntax
        (failing_places renaming.now.class.analysis.value renaming.now.class.members renaming.now.name)) first) }
{
    let class = renaming.class();
    let a = class.analysis();
    let moves = class_moves(alloc, a, class.members(), renaming.name())?;
    let mut now = first;
    for unit in 0..a.units() {
        now = in_unit(alloc, a, &moves, unit + 1, now)?;
    }
    Ok(now)
}

/// `Syntax`: where each unit of GNU C begins whose tokens, once the members are respelled, are not read to its tree and bound as
/// it is, name for name. They are read and bound again, but where one spelling becomes another wherever it stands.
pub fn failing(
    alloc: Global,
    renaming: &Renaming<'_>,
    first: Option<Offence>,
) -> Result<Option<Offence>, Memory>
    ensures { IfOk result (FirstThen renaming.now.class.analysis.value.table (standing cause.Syntax
        (failing_places renaming.now.class.analysis.value renaming.now.class.members renaming.now.name)) first) }
{
    let a = renaming.class().analysis();
    if has_gnu(a) {
        in_units(alloc, renaming, first)
    } else {
        Ok(first)
    }
}
