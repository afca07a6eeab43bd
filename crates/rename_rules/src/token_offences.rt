// Causes that stand at the tokens which hold members of a class.
ghost use Rattle.std.specs.Prelude.{◌≡◌, ◌||◌, IfOk};
ghost use Rattle.std.specs.List.{flat_map};
ghost use Rattle.cs_base.specs.Reserved.{is_reserved_in};
ghost use Rattle.cs_base.specs.declared.causes.Cause.TheVariants as cause;
ghost use Rattle.offences.specs.First.{standing, FirstThen};
ghost use Rattle.rename_rules.specs.LibraryNames.{is_closed_in};
ghost use Rattle.rename_rules.specs.Offences.{reserved_place, reserved_places, clashing_place, clashing_places};
ghost use Rattle.rename_rules.specs.RenamingValue.{held};

use crate::constant_prefixes::prefixes;
use crate::library_names::is_closed_in;
use crate::library_places::library_names;
use crate::member_offences::in_token;
use crate::renamings::Renaming;
use crate::respelling_table::is_clash;
use crate::spelling::spelled;
use crate::words_and_texts::has_gnu;
use analysis::Analysis;
use cs_base::{Cause, Memory, Tok, is_reserved_in};
use offences::{Class, Offence};
use std::alloc::Global;

// Whether the old spelling of a token is reserved, or no name may take the new one.
fn is_reserved(gnu: bool, tok: &Tok, new: &[u8]) -> bool
    ensures { result ≡ (is_reserved_in gnu tok.now.text || is_closed_in gnu new.now) }
{
    is_reserved_in(gnu, tok.text()) || is_closed_in(gnu, new)
}

// `Reserved` in a token.
fn reserved_in(
    alloc: Global,
    a: &Analysis,
    class: &Class<'_>,
    name: &[u8],
    gnu: bool,
    tok: &Tok,
    first: Option<Offence>,
) -> Result<Option<Offence>, Memory>
    ensures { IfOk result (FirstThen a.now.value.table (standing cause.Reserved (reserved_place gnu class.now.members name.now tok.now)) first) }
{
    let new = spelled(alloc, class, name, tok)?;
    if is_reserved(gnu, tok, &new) {
        Ok(in_token(a, class, tok, Cause::Reserved, first))
    } else {
        Ok(first)
    }
}

// The same in each of these tokens.
fn reserved_in_all(
    alloc: Global,
    a: &Analysis,
    class: &Class<'_>,
    name: &[u8],
    gnu: bool,
    toks: &[Tok],
    first: Option<Offence>,
) -> Result<Option<Offence>, Memory>
    ensures { IfOk result (FirstThen a.now.value.table (standing cause.Reserved
        (flat_map (reserved_place gnu class.now.members name.now) toks.now)) first) }
{
    let mut now = first;
    for tok in toks {
        now = reserved_in(alloc, a, class, name, gnu, tok, now)?;
    }
    Ok(now)
}

/// `Reserved`: at each member in a token whose old or new spelling is reserved, or whose new spelling would become the
/// prefix of a constant behind it, or, of something with linkage, is a name of the library. Where a unit is of GNU C, its words are
/// reserved too.
pub fn reserved(
    alloc: Global,
    renaming: &Renaming<'_>,
    first: Option<Offence>,
) -> Result<Option<Offence>, Memory>
    ensures { IfOk result (FirstThen renaming.now.class.analysis.value.table (standing cause.Reserved
        (reserved_places renaming.now.class.analysis.value renaming.now.class.members renaming.now.name)) first) }
{
    let class = renaming.class();
    let a = class.analysis();
    let gnu = has_gnu(a);
    let words = reserved_in_all(
        alloc,
        a,
        class,
        renaming.name(),
        gnu,
        renaming.toks(),
        first,
    )?;
    let joined = prefixes(alloc, a, renaming, words)?;
    library_names(alloc, renaming, joined)
}

// `Clash` in a token.
fn clashing_in(
    alloc: Global,
    a: &Analysis,
    renaming: &Renaming<'_>,
    tok: &Tok,
    first: Option<Offence>,
) -> Result<Option<Offence>, Memory>
    ensures { IfOk result (FirstThen a.now.value.table (standing cause.Clash
        (clashing_place renaming.now.class.members renaming.now.name (held renaming.now.class) tok.now)) first) }
{
    let new = spelled(alloc, renaming.class(), renaming.name(), tok)?;
    if is_clash(renaming.table(), tok.text(), &new) {
        Ok(in_token(a, renaming.class(), tok, Cause::Clash, first))
    } else {
        Ok(first)
    }
}

// The same in each of these tokens.
fn clashing_in_all(
    alloc: Global,
    a: &Analysis,
    renaming: &Renaming<'_>,
    toks: &[Tok],
    first: Option<Offence>,
) -> Result<Option<Offence>, Memory>
    ensures { IfOk result (FirstThen a.now.value.table (standing cause.Clash (flat_map
        (clashing_place renaming.now.class.members renaming.now.name (held renaming.now.class)) toks.now)) first) }
{
    let mut now = first;
    for tok in toks {
        now = clashing_in(alloc, a, renaming, tok, now)?;
    }
    Ok(now)
}

/// `Clash`: at each member in a token whose new spelling a token gets that had another one.
pub fn clashing(
    alloc: Global,
    renaming: &Renaming<'_>,
    first: Option<Offence>,
) -> Result<Option<Offence>, Memory>
    ensures { IfOk result (FirstThen renaming.now.class.analysis.value.table (standing cause.Clash
        (clashing_places renaming.now.class.analysis.value renaming.now.class.members renaming.now.name)) first) }
{
    let a = renaming.class().analysis();
    clashing_in_all(alloc, a, renaming, renaming.toks(), first)
}
