// The kind of a directive line, or what stands against it first (6.10).
ghost use Rattle.std.specs.Prelude.{◌≡◌, if◌then◌else◌, IfOk, drop};
ghost use Rattle.line_shape.specs.Signs.{is_unfit_name};
ghost use Rattle.std.specs.Str.{bytes_eq};
ghost use Rattle.std.specs.Option.{option_map};
ghost use Rattle.line_shape.specs.Directives.{gnu_directives, meaning_in, directive_spelled, directive_named, nests_when_bad};
ghost use Rattle.line_shape.specs.BadLines.{cause_on};
ghost use Rattle.line_shape.specs.Items.{kind_unless, named_kind, directive_kind, line_kind};

use crate::items::{GnuLine, ItemKind};
use crate::macro_line::definition_cause;
use crate::signs::{is_hash, is_name, is_unfit_name};
use cs_base::{Cause, Memory, Pos, Tok};
use std::alloc::Global;

/// The kind of a line: a run, where it does not begin with `#`.
pub fn line_kind(alloc: Global, toks: &[Tok]) -> Result<ItemKind, Memory>
    ensures { IfOk result (λ kind. kind ≡ line_kind toks.now) }
{
    match toks {
        [first, behind @ ..] if is_hash(first) => directive_kind(alloc, first.at(), behind),
        _ => Ok(ItemKind::Run),
    }
}

#[tactic(auto, unfolding(crate::specs::Items::directive_kind))]
// The kind of a directive line by the tokens behind its `#`, which is at this position.
fn directive_kind(alloc: Global, at: Pos, behind: &[Tok]) -> Result<ItemKind, Memory>
    ensures { IfOk result (λ kind. kind ≡ directive_kind at behind.now) }
{
    match behind {
        [] => Ok(ItemKind::Empty),
        [word, operands @ ..] => named_kind(alloc, directive_named(word), at, operands),
    }
}

fn named_kind(
    alloc: Global,
    directive: Option<ItemKind>,
    at: Pos,
    operands: &[Tok],
) -> Result<ItemKind, Memory>
    ensures { IfOk result (λ kind. kind ≡ named_kind directive at operands.now) }
{
    match directive {
        None => Ok(ItemKind::Bad {
            cause: Cause::UnknownDirective,
            at,
            nests: false,
        }),
        Some(kind) => Ok(kind_unless(cause_on(alloc, kind, operands)?, at, kind)),
    }
}

fn kind_unless(cause: Option<Cause>, at: Pos, kind: ItemKind) -> ItemKind
    ensures { result ≡ kind_unless cause at kind }
{
    match cause {
        None => kind,
        Some(cause) => ItemKind::Bad {
            cause,
            at,
            nests: nests_when_bad(kind),
        },
    }
}

fn nests_when_bad(kind: ItemKind) -> bool
    ensures { result ≡ nests_when_bad kind }
{
    match kind {
        ItemKind::Ifdef | ItemKind::Ifndef => true,
        _ => false,
    }
}

// The directive that a token behind `#` names.
fn directive_named(word: &Tok) -> Option<ItemKind>
    ensures { result ≡ directive_named word.now }
{
    if is_name(word) {
        directive_spelled(word.text())
    } else {
        None
    }
}

fn is_spelled(text: &[u8], spelling: &[u8]) -> bool
    ensures { result ≡ bytes_eq text.now spelling.now }
{
    text == spelling
}

#[tactic(auto, unfolding(crate::specs::Directives::directive_spelled))]
// The directive with this word.
fn directive_spelled(text: &[u8]) -> Option<ItemKind>
    ensures { result ≡ directive_spelled text.now }
{
    if is_spelled(text, b"define") {
        return Some(ItemKind::Define);
    }
    if is_spelled(text, b"undef") {
        return Some(ItemKind::Undef);
    }
    if is_spelled(text, b"if") {
        return Some(ItemKind::If);
    }
    if is_spelled(text, b"ifdef") {
        return Some(ItemKind::Ifdef);
    }
    if is_spelled(text, b"ifndef") {
        return Some(ItemKind::Ifndef);
    }
    if is_spelled(text, b"elif") {
        return Some(ItemKind::Elif);
    }
    if is_spelled(text, b"else") {
        return Some(ItemKind::Else);
    }
    if is_spelled(text, b"endif") {
        return Some(ItemKind::Endif);
    }
    if is_spelled(text, b"include") {
        return Some(ItemKind::Include);
    }
    if is_spelled(text, b"line") {
        return Some(ItemKind::Line);
    }
    if is_spelled(text, b"error") {
        return Some(ItemKind::Error);
    }
    if is_spelled(text, b"pragma") {
        return Some(ItemKind::Pragma);
    }
    match gnu_spelled(text) {
        Some(line) => Some(ItemKind::Gnu(line)),
        None => None,
    }
}

// The directive with this word that GNU C alone has.
fn gnu_spelled(text: &[u8]) -> Option<GnuLine>
    ensures { option_map ItemKind.Gnu result ≡ meaning_in gnu_directives text.now }
{
    if is_spelled(text, b"include_next") {
        return Some(GnuLine::IncludeNext);
    }
    if is_spelled(text, b"warning") || is_spelled(text, b"ident") || is_spelled(text, b"sccs") {
        return Some(GnuLine::Message);
    }
    if is_spelled(text, b"elifdef") {
        return Some(GnuLine::Elifdef);
    }
    if is_spelled(text, b"elifndef") {
        return Some(GnuLine::Elifndef);
    }
    None
}

#[tactic(auto, unfolding(crate::specs::BadLines::cause_on))]
// What stands first against a directive with these operands.
fn cause_on(alloc: Global, kind: ItemKind, operands: &[Tok]) -> Result<Option<Cause>, Memory>
    ensures { IfOk result (λ cause. cause ≡ cause_on kind operands.now) }
{
    match kind {
        ItemKind::Define => define_cause(alloc, operands),
        ItemKind::Undef => Ok(undef_cause(operands)),
        ItemKind::Ifdef | ItemKind::Ifndef => Ok(condition_cause(operands)),
        ItemKind::Include => Ok(include_cause(operands)),
        ItemKind::Gnu(line) => Ok(gnu_cause(line, operands)),
        _ => Ok(None),
    }
}

#[tactic(auto, unfolding(crate::specs::BadLines::cause_on))]
// What stands first against a line that GNU C alone has.
fn gnu_cause(line: GnuLine, operands: &[Tok]) -> Option<Cause>
    ensures { result ≡ cause_on (ItemKind.Gnu line) operands.now }
{
    match line {
        GnuLine::IncludeNext => include_cause(operands),
        GnuLine::Message => None,
        GnuLine::Elifdef | GnuLine::Elifndef => condition_cause(operands),
    }
}

#[tactic(auto, unfolding(crate::specs::BadLines::cause_on))]
// What stands first against a `define` line.
fn define_cause(alloc: Global, operands: &[Tok]) -> Result<Option<Cause>, Memory>
    ensures { IfOk result (λ cause. cause ≡ cause_on ItemKind.Define operands.now) }
{
    match undef_cause(operands) {
        Some(cause) => Ok(Some(cause)),
        None => definition_cause(alloc, behind_name(operands)),
    }
}

// The tokens behind the first.
fn behind_name(operands: &[Tok]) -> &[Tok]
    ensures { result.now ≡ drop 1 operands.now }
{
    match operands {
        [] => operands,
        [_, behind @ ..] => behind,
    }
}

#[tactic(auto, unfolding(crate::specs::BadLines::cause_on))]
// What stands first against an `undef` line.
fn undef_cause(operands: &[Tok]) -> Option<Cause>
    ensures { result ≡ cause_on ItemKind.Undef operands.now }
{
    match operands {
        [name, ..] if is_name(name) => name_cause(name),
        _ => Some(Cause::NoMacroName),
    }
}

// What stands against a name that gets a meaning or loses it.
fn name_cause(name: &Tok) -> Option<Cause>
    ensures { result ≡ (if is_unfit_name name.now then Some Cause.BadMacroName else None) }
{
    if is_unfit_name(name) {
        Some(Cause::BadMacroName)
    } else {
        None
    }
}

#[tactic(auto, unfolding(crate::specs::BadLines::cause_on))]
// What stands against an `ifdef` line or an `ifndef` line.
fn condition_cause(operands: &[Tok]) -> Option<Cause>
    ensures { result ≡ cause_on ItemKind.Ifdef operands.now }
{
    match operands {
        [name, ..] if is_name(name) => None,
        _ => Some(Cause::NoMacroName),
    }
}

#[tactic(auto, unfolding(crate::specs::BadLines::cause_on))]
// What stands against an `include` line.
fn include_cause(operands: &[Tok]) -> Option<Cause>
    ensures { result ≡ cause_on ItemKind.Include operands.now }
{
    if operands.is_empty() {
        Some(Cause::NoHeader)
    } else {
        None
    }
}
