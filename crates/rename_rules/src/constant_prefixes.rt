// Names that would become the prefix of a string or character constant.
ghost use Rattle.std.specs.Prelude.{◌≡◌, [], IfOk};
ghost use Rattle.std.specs.List.{list_any};
ghost use Rattle.std.specs.Option.{option_map_or};
ghost use Rattle.std.specs.Str.{bytes_eq};
ghost use Rattle.cs_base.specs.declared.causes.Cause.TheVariants as cause;
ghost use Rattle.analysis.specs.Below.source_files.KeptFiles.{kept_at};
ghost use Rattle.offences.specs.First.{standing, FirstThen};
ghost use Rattle.rename_rules.specs.Prefixes.{is_joined, is_prefix, is_quoted, prefix_place, prefix_places, prefix_places_in, prefix_places_of};

use crate::member_offences::in_token;
use crate::renamings::Renaming;
use crate::spelling::spelled;
use analysis::{Analysis, KeptFile};
use cs_base::{Cause, Kind, Memory, Tok};
use offences::Offence;
use std::alloc::Global;

fn is_one_of(text: &[u8], words: &[&[u8]]) -> bool
    ensures { result ≡ list_any (λ word. bytes_eq text.now word.now) words.now }
{
    words.iter().any(|word| text == *word)
}

#[tactic(auto, unfolding(crate::specs::Prefixes::is_prefix))]
// Whether the spelling is a prefix of C11 or GNU C.
fn is_prefix(text: &[u8]) -> bool
    ensures { result ≡ is_prefix text.now }
{
    is_one_of(
        text,
        &[b"u8", b"u", b"U", b"R", b"LR", b"uR", b"UR", b"u8R"],
    )
}

fn is_quoted(kind: Kind) -> bool
    ensures { result ≡ is_quoted kind }
{
    match kind {
        Kind::Char | Kind::Str => true,
        _ => false,
    }
}

// Whether a token is a constant between quotes with no white space in front of it.
fn is_joined(tok: &Tok) -> bool
    ensures { result ≡ is_joined tok.now }
{
    is_quoted(tok.kind()) && !tok.gap()
}

// `Reserved` in a token that would become the prefix of a constant behind it.
fn prefix_in(
    alloc: Global,
    a: &Analysis,
    renaming: &Renaming<'_>,
    tok: &Tok,
    next: &Tok,
    first: Option<Offence>,
) -> Result<Option<Offence>, Memory>
    ensures { IfOk result (FirstThen a.now.value.table (standing cause.Reserved
        (prefix_place renaming.now.class.members renaming.now.name tok.now next.now)) first) }
{
    if !is_joined(next) {
        return Ok(first);
    }
    let new = spelled(alloc, renaming.class(), renaming.name(), tok)?;
    if is_prefix(&new) {
        Ok(in_token(a, renaming.class(), tok, Cause::Reserved, first))
    } else {
        Ok(first)
    }
}

// The same for each two of these tokens that stand side by side.
fn prefixes_in(
    alloc: Global,
    a: &Analysis,
    renaming: &Renaming<'_>,
    toks: &[Tok],
    first: Option<Offence>,
) -> Result<Option<Offence>, Memory>
    ensures { IfOk result (FirstThen a.now.value.table (standing cause.Reserved
        (prefix_places_of renaming.now.class.members renaming.now.name toks.now)) first) }
{
    let mut now = first;
    for k in 1..toks.len() {
        now = prefix_in(alloc, a, renaming, &toks[k - 1], &toks[k], now)?;
    }
    Ok(now)
}

// The same in the kept file with this number, if there is one.
fn prefixes_in_numbered(
    alloc: Global,
    a: &Analysis,
    renaming: &Renaming<'_>,
    file: u32,
    first: Option<Offence>,
) -> Result<Option<Offence>, Memory>
    ensures { IfOk result (FirstThen a.now.value.table (standing cause.Reserved (option_map_or
        (prefix_places_in renaming.now.class.members renaming.now.name) (kept_at a.now.value.table file) [])) first) }
{
    match a.file(file) {
        Some(kept) => prefixes_in(alloc, a, renaming, kept.text().toks(), first),
        None => Ok(first),
    }
}

/// `Reserved`: at each member in a token of a file whose new spelling would become the prefix of the string or character
/// constant that stands directly behind it.
pub(crate) fn prefixes(
    alloc: Global,
    a: &Analysis,
    renaming: &Renaming<'_>,
    first: Option<Offence>,
) -> Result<Option<Offence>, Memory>
    ensures { IfOk result (FirstThen a.now.value.table (standing cause.Reserved
        (prefix_places renaming.now.class.members renaming.now.name 0 a.now.value.table)) first) }
{
    let mut now = first;
    for file in 0..a.files() {
        now = prefixes_in_numbered(alloc, a, renaming, file, now)?;
    }
    Ok(now)
}
