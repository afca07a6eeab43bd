// New spellings that occur already.
ghost use Rattle.std.specs.Prelude.{[]};
ghost use Rattle.std.specs.List.{flat_map};
ghost use Rattle.std.specs.Option.{option_map_or};
ghost use Rattle.cs_base.specs.declared.causes.Cause.TheVariants as cause;
ghost use Rattle.analysis.specs.Below.source_files.KeptFiles.{kept_at};
ghost use Rattle.analysis.specs.Below.lexer.Tokens.{tokens_of};
ghost use Rattle.offences.specs.First.{standing, FirstThen};
ghost use Rattle.rename_rules.specs.Offences.{occurring_place};
ghost use Rattle.rename_rules.specs.RenamingValue.{held};
ghost use Rattle.rename_rules.specs.Tokens.{all_file_tokens};
ghost use Rattle.offences.specs.Tokens.{file_toks, first_place, kept_tokens};

use crate::renamings::Renaming;
use crate::respelling_table::is_new_spelling;
use analysis::{Analysis, KeptFile};
use cs_base::{Cause, Tok};
use offences::{Offence, first_with};

// A cause that stands where a token begins.
pub(crate) fn at_first(
    a: &Analysis,
    tok: &Tok,
    cause: Cause,
    first: Option<Offence>,
) -> Option<Offence>
    ensures { FirstThen a.now.value.table (standing cause (first_place tok.now)) first result }
{
    match tok.origins(0) {
        Some(pos) => first_with(a, first, pos, cause),
        None => first,
    }
}

// `Occurs` at a token.
fn occurring_at(
    a: &Analysis,
    renaming: &Renaming<'_>,
    tok: &Tok,
    first: Option<Offence>,
) -> Option<Offence>
    ensures { FirstThen a.now.value.table (standing cause.Occurs (occurring_place renaming.now.class.members renaming.now.name (held renaming.now.class) tok.now)) first result }
{
    if is_new_spelling(renaming.table(), tok.text()) {
        at_first(a, tok, Cause::Occurs, first)
    } else {
        first
    }
}

/// The same at each of these tokens.
pub(crate) fn occurring_in(
    a: &Analysis,
    renaming: &Renaming<'_>,
    all: &[Tok],
    first: Option<Offence>,
) -> Option<Offence>
    ensures { FirstThen a.now.value.table (standing cause.Occurs (flat_map (occurring_place renaming.now.class.members renaming.now.name (held renaming.now.class)) all.now)) first result }
{
    let mut now = first;
    for tok in all {
        now = occurring_at(a, renaming, tok, now);
    }
    now
}

// The same in a file.
fn occurring_in_file(
    a: &Analysis,
    renaming: &Renaming<'_>,
    file: &KeptFile,
    first: Option<Offence>,
) -> Option<Offence>
    ensures { FirstThen a.now.value.table (standing cause.Occurs (flat_map (occurring_place renaming.now.class.members renaming.now.name (held renaming.now.class)) (tokens_of file.now.number file.now.bytes))) first result }
{
    occurring_in(a, renaming, file.text().toks(), first)
}

// The same in the kept file with this number, if there is one.
fn occurring_in_numbered(
    a: &Analysis,
    renaming: &Renaming<'_>,
    file: u32,
    first: Option<Offence>,
) -> Option<Offence>
    ensures { FirstThen a.now.value.table (standing cause.Occurs (flat_map (occurring_place renaming.now.class.members renaming.now.name (held renaming.now.class)) (option_map_or file_toks (kept_at a.now.value.table file) []))) first result }
{
    match a.file(file) {
        Some(kept) => occurring_in_file(a, renaming, kept, first),
        None => first,
    }
}

// The same in all kept files.
fn occurring_in_files(
    a: &Analysis,
    renaming: &Renaming<'_>,
    first: Option<Offence>,
) -> Option<Offence>
    ensures { FirstThen a.now.value.table (standing cause.Occurs (flat_map (occurring_place renaming.now.class.members renaming.now.name (held renaming.now.class)) (kept_tokens 0 a.now.value.table))) first result }
{
    let mut now = first;
    for file in 0..a.files() {
        now = occurring_in_numbered(a, renaming, file, now);
    }
    now
}

/// `Occurs`: at each file token whose spelling is a new spelling of the tokens that hold members.
pub fn occurring(renaming: &Renaming<'_>, first: Option<Offence>) -> Option<Offence>
    ensures { FirstThen renaming.now.class.analysis.value.table (standing cause.Occurs
        (flat_map (occurring_place renaming.now.class.members renaming.now.name (held renaming.now.class)) (all_file_tokens renaming.now.class.analysis.value))) first result }
{
    let a = renaming.class().analysis();
    let in_files = occurring_in_files(a, renaming, first);
    let brought = a.numbers_brought();
    occurring_in(a, renaming, brought, in_files)
}
