// What stands against a renaming in the texts of units, each of which is asked for once.
ghost use Rattle.std.specs.Prelude.{List, None, IfOk};
ghost use Rattle.cs_base.specs.declared.causes.Cause.TheVariants as cause;
ghost use Rattle.offences.specs.declared.firsts.Offence.{Offence as AnOffence};
ghost use Rattle.offences.specs.First.{standing, FirstThen};
ghost use Rattle.rename_rules.specs.InUnits.{kept_in, AreInUnits};

use crate::bare_offences::at_indices;
use crate::escapes::escaped_in;
use crate::member_offences::in_tokens;
use crate::occurrences::occurring_in;
use crate::renamings::Renaming;
use analysis::Analysis;
use cs_base::{Cause, Memory, Tok};
use offences::{Class, Offence, first_with};
use std::alloc::Global;

/// Of each of four causes the first offence that stands in texts of units, if one does.
#[derive(Clone, Copy)]
pub struct InUnits {
    /// `Stringized`: at each member in a token that `#` made a string of; where strings may follow the renaming, only at
    /// each in one that stands directly behind a backslash there.
    pub strings: Option<Offence>,
    /// `HeaderName`: at each member in a token of an include line that was expanded.
    pub headers: Option<Offence>,
    /// `Occurs`: at each pasted token whose spelling is a new spelling of the tokens that hold members.
    pub pasted: Option<Offence>,
    /// `ShadowedTypedef`: at each bare name in the range of a typedef name of its spelling, where this is the old spelling of
    /// a token that holds a member.
    pub bare: Option<Offence>,
}

// `Stringized` in the tokens of strings.
fn at_strings(
    a: &Analysis,
    class: &Class<'_>,
    strings: bool,
    toks: &[Tok],
    first: Option<Offence>,
) -> Option<Offence>
    ensures { FirstThen a.now.value.table (standing cause.Stringized (kept_in class.now.members strings toks.now)) first result }
{
    if strings {
        escaped_in(a, class, toks, first)
    } else {
        in_tokens(a, class, toks, Cause::Stringized, first)
    }
}

/// All of them; `strings` says that strings which `#` makes may follow the renaming.
pub fn in_units(alloc: Global, renaming: &Renaming<'_>, strings: bool) -> Result<InUnits, Memory>
    ensures { IfOk result (AreInUnits renaming.now.class.analysis.value renaming.now.class.members renaming.now.name strings) }
{
    let class = renaming.class();
    let a = class.analysis();
    let table = renaming.table();
    let mut kept = None;
    let mut headers = None;
    let mut pasted = None;
    let mut bare = None;
    for unit in 0..a.units() {
        let one = a.unit(alloc, unit + 1)?;
        let text = one.text();
        let bound = one.bound();
        kept = at_strings(a, class, strings, text.stringized(), kept);
        headers = in_tokens(a, class, text.header(), Cause::HeaderName, headers);
        pasted = occurring_in(a, renaming, text.pasted(), pasted);
        bare = at_indices(a, table, text.toks(), bound.typedefs(), bound.bare(), bare);
    }
    Ok(InUnits {
        strings: kept,
        headers,
        pasted,
        bare,
    })
}

/// The first of some offences, and of others the first of which is known.
pub fn and_first(
    renaming: &Renaming<'_>,
    first: Option<Offence>,
    other: Option<Offence>,
) -> Option<Offence>
    ensures { (others : List AnOffence) → FirstThen renaming.now.class.analysis.value.table others None other
        → FirstThen renaming.now.class.analysis.value.table others first result }
{
    let a = renaming.class().analysis();
    match other {
        Some(offence) => first_with(a, first, offence.at, offence.cause),
        None => first,
    }
}
