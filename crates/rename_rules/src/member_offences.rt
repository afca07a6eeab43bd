// Causes that stand at members of a class.
ghost use Rattle.std.specs.Prelude.{◌≡◌, Some, length};
ghost use Rattle.std.specs.List.{flat_map};
ghost use Rattle.cs_base.specs.declared.causes.Cause.TheVariants as cause;
ghost use Rattle.analysis.specs.Below.line_shape.Signs.{is_name};
ghost use Rattle.offences.specs.First.{standing, FirstThen};
ghost use Rattle.rename_rules.specs.Offences.{read_only_place, read_only_places, no_identifier_place, no_identifier_places};
ghost use Rattle.rename_rules.specs.Tokens.{start_of, starts_in};
ghost use Rattle.cs_base.specs.Token.{origin_at};

use crate::renamings::Renaming;
use analysis::Analysis;
use cs_base::{Cause, Kind, Part, Tok};
use offences::{Class, Offence, first_with, length, member_at};

// A cause that stands at the member which character `k` of a token comes from.
fn at_character(
    a: &Analysis,
    class: &Class<'_>,
    tok: &Tok,
    k: u32,
    cause: Cause,
    first: Option<Offence>,
) -> Option<Offence>
    ensures { FirstThen a.now.value.table (standing cause (start_of class.now.members (origin_at tok.now k))) first result }
{
    match member_at(class, tok, k) {
        Some(part) => first_with(a, first, part.start, cause),
        None => first,
    }
}

/// A cause that stands at each member in a token.
pub(crate) fn in_token(
    a: &Analysis,
    class: &Class<'_>,
    tok: &Tok,
    cause: Cause,
    first: Option<Offence>,
) -> Option<Offence>
    ensures { FirstThen a.now.value.table (standing cause (starts_in class.now.members tok.now)) first result }
{
    let count = length(tok);
    let mut now = first;
    for k in 0..count {
        now = at_character(a, class, tok, k, cause, now);
    }
    now
}

/// The same in each of these tokens.
pub(crate) fn in_tokens(
    a: &Analysis,
    class: &Class<'_>,
    toks: &[Tok],
    cause: Cause,
    first: Option<Offence>,
) -> Option<Offence>
    ensures { FirstThen a.now.value.table (standing cause (flat_map (starts_in class.now.members) toks.now)) first result }
{
    let mut now = first;
    for tok in toks {
        now = in_token(a, class, tok, cause, now);
    }
    now
}

// `ReadOnly` at a member.
fn read_only_at(a: &Analysis, part: Part, first: Option<Offence>) -> Option<Offence>
    ensures { FirstThen a.now.value.table (standing cause.ReadOnly (read_only_place a.now.value part)) first result }
{
    if a.read_only(part.start.file) {
        first_with(a, first, part.start, Cause::ReadOnly)
    } else {
        first
    }
}

#[tactic(auto, unfolding(crate::specs::Offences::read_only_places))]
// The same at each of these members.
fn read_only_in(a: &Analysis, members: &[Part], first: Option<Offence>) -> Option<Offence>
    ensures { FirstThen a.now.value.table (standing cause.ReadOnly (read_only_places a.now.value members.now)) first result }
{
    let mut now = first;
    for part in members {
        now = read_only_at(a, *part, now);
    }
    now
}

/// `ReadOnly`: at each member in a read-only file or a pseudo file.
pub fn read_only(renaming: &Renaming<'_>, first: Option<Offence>) -> Option<Offence>
    ensures { FirstThen renaming.now.class.analysis.value.table (standing cause.ReadOnly
        (read_only_places renaming.now.class.analysis.value renaming.now.class.members)) first result }
{
    let class = renaming.class();
    read_only_in(class.analysis(), class.members(), first)
}

/// Whether a token is an identifier.
pub(crate) fn is_name(tok: &Tok) -> bool
    ensures { result ≡ is_name tok.now }
{
    match tok.kind() {
        Kind::Ident => true,
        _ => false,
    }
}

// `NotIdentifier` in a token.
fn no_identifier_in(
    a: &Analysis,
    class: &Class<'_>,
    tok: &Tok,
    first: Option<Offence>,
) -> Option<Offence>
    ensures { FirstThen a.now.value.table (standing cause.NotIdentifier (no_identifier_place class.now.members tok.now)) first result }
{
    if is_name(tok) {
        first
    } else {
        in_token(a, class, tok, Cause::NotIdentifier, first)
    }
}

// The same in each of these tokens.
fn no_identifiers_in(
    a: &Analysis,
    class: &Class<'_>,
    toks: &[Tok],
    first: Option<Offence>,
) -> Option<Offence>
    ensures { FirstThen a.now.value.table (standing cause.NotIdentifier
        (flat_map (no_identifier_place class.now.members) toks.now)) first result }
{
    let mut now = first;
    for tok in toks {
        now = no_identifier_in(a, class, tok, now);
    }
    now
}

/// `NotIdentifier`: at each member in a token that is no identifier.
pub fn no_identifiers(renaming: &Renaming<'_>, first: Option<Offence>) -> Option<Offence>
    ensures { FirstThen renaming.now.class.analysis.value.table (standing cause.NotIdentifier
        (no_identifier_places renaming.now.class.analysis.value renaming.now.class.members)) first result }
{
    let class = renaming.class();
    no_identifiers_in(class.analysis(), class, renaming.toks(), first)
}
