// Bare names that would turn into typedef names (ISO/IEC 9899:1999, 6.7.5.3 paragraph 11).
ghost use Rattle.std.specs.Prelude.{◌≡◌};
ghost use Rattle.std.specs.List.{flat_map, list_any};
ghost use Rattle.cs_base.specs.declared.causes.Cause.TheVariants as cause;
ghost use Rattle.analysis.specs.Below.c_types.Declarations.{spelling_at};
ghost use Rattle.offences.specs.First.{standing, FirstThen};
ghost use Rattle.rename_rules.specs.Offences.{is_shadow};
ghost use Rattle.rename_rules.specs.Respellings.{bare_place_by, bare_places_by};

use crate::occurrences::at_first;
use crate::respelling_table::{Respelling, is_old_spelling};
use analysis::{Analysis, Range};
use cs_base::{Cause, Tok};
use offences::Offence;

// The spelling of a token.
fn spelling_at(toks: &[Tok], k: u32) -> &[u8]
    ensures { result.now ≡ spelling_at toks.now k }
{
    if (k as usize) < toks.len() {
        toks[k as usize].text()
    } else {
        &[]
    }
}

// Whether token `k`, which is spelled so, stands in the range of a typedef name of that spelling.
fn is_shadow(toks: &[Tok], text: &[u8], k: u32, range: Range) -> bool
    ensures { result ≡ is_shadow toks.now text.now k range }
{
    spelling_at(toks, range.name) == text && range.from <= k && k < range.to
}

// The same of one of these typedef names.
fn is_shadow_of(toks: &[Tok], typedefs: &[Range], text: &[u8], k: u32) -> bool
    ensures { result ≡ list_any (is_shadow toks.now text.now k) typedefs.now }
{
    typedefs
        .iter()
        .any(|range| is_shadow(toks, text, k, *range))
}

// `ShadowedTypedef` at a bare name of a unit: its spelling is an old spelling of the tokens that hold members.
fn at_name(
    a: &Analysis,
    table: &[Respelling],
    toks: &[Tok],
    typedefs: &[Range],
    k: u32,
    tok: &Tok,
    first: Option<Offence>,
) -> Option<Offence>
    ensures { FirstThen a.now.value.table (standing cause.ShadowedTypedef (bare_place_by table.now toks.now typedefs.now k tok.now)) first result }
{
    if is_shadow_of(toks, typedefs, tok.text(), k) && is_old_spelling(table, tok.text()) {
        at_first(a, tok, Cause::ShadowedTypedef, first)
    } else {
        first
    }
}

// The same at token `k`.
fn at_index(
    a: &Analysis,
    table: &[Respelling],
    toks: &[Tok],
    typedefs: &[Range],
    k: u32,
    first: Option<Offence>,
) -> Option<Offence>
    ensures { FirstThen a.now.value.table (standing cause.ShadowedTypedef (bare_places_by table.now toks.now typedefs.now k)) first result }
{
    if (k as usize) < toks.len() {
        at_name(a, table, toks, typedefs, k, &toks[k as usize], first)
    } else {
        first
    }
}

/// The same at each bare name of a unit.
pub(crate) fn at_indices(
    a: &Analysis,
    table: &[Respelling],
    toks: &[Tok],
    typedefs: &[Range],
    bare: &[u32],
    first: Option<Offence>,
) -> Option<Offence>
    ensures { FirstThen a.now.value.table (standing cause.ShadowedTypedef (flat_map (bare_places_by table.now toks.now typedefs.now) bare.now)) first result }
{
    let mut now = first;
    for k in bare {
        now = at_index(a, table, toks, typedefs, *k, now);
    }
    now
}
