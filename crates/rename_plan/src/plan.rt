// The edits of a renaming, or its first refusal.
ghost use Rattle.std.specs.Prelude.{◌≡◌, Bool, List, None, IfOk};
ghost use Rattle.offences.specs.Class.{IsClass};
ghost use Rattle.offences.specs.First.{FirstThen, IsFirst};
ghost use Rattle.rename_rules.specs.Offences.{member_offences, offences_of, spelling_offences};
ghost use Rattle.rename_rules.specs.InUnits.{AreInUnits};
ghost use Rattle.rename_rules.specs.GnuOffences.{with_failing};
ghost use Rattle.offences.specs.declared.firsts.Offence.{Offence as AnOffence};
ghost use Rattle.rename_rules.specs.Renaming.{IsClassRenamed, IsRenamed, IsRenaming};
ghost use Rattle.offences.specs.Answers.{GivesOne};
ghost use Rattle.offences.specs.Refusals.{refusal_of};
ghost use Rattle.rename_rules.specs.Runs.{edits_of};
ghost use Rattle.renamed.specs.Rename.{RenamesOver};
ghost use Rattle.analysis.specs.Parts.{IsPart};

use analysis::Analysis;
use cs_base::{Edits, Memory, Part};
use lexer::is_identifier;
use offences::{Offence, PlanFault, Refusal, refused};
use rename_rules::{
    InUnits, Renaming, and_first, clashing, edit_files, failing, gnu_offences, in_units,
    no_identifiers, occurring, read_only, reserved, too_large,
};
use std::alloc::Global;

/// The edits that rename the class of the part which a place names, or the first refusal. Lines and columns count
/// from 1. `strings` says that strings which `#` makes may follow the renaming.
pub fn plan_rename(
    alloc: Global,
    a: &Analysis,
    path: &str,
    line: u32,
    column: u32,
    name: &[u8],
    strings: bool,
) -> Result<Edits, PlanFault>
    ensures answer { GivesOne (λ edits. edits) refusal_of result (IsRenaming a.now.value path.now line column name.now strings) }
    // Over each source with this analysis, once the edits are made, the workspace means what it meant.
    ensures meaning { IfOk result (λ edits. RenamesOver a.now.value.workspace a.now.value path.now line column name.now strings edits) }
{
    // The classes are those of the links, and the workspace is one that lines make.
    let _classes = a.classes();
    let ws = a.workspace();
    let _units = ws.units();
    plan_named(alloc, a, path, line, column, name, strings)
}

// The same, by what is looked at: the name, the place, the offences.
fn plan_named(
    alloc: Global,
    a: &Analysis,
    path: &str,
    line: u32,
    column: u32,
    name: &[u8],
    strings: bool,
) -> Result<Edits, PlanFault>
    ensures { GivesOne (λ edits. edits) refusal_of result (IsRenaming a.now.value path.now line column name.now strings) }
{
    if !is_identifier(name) {
        return Err(PlanFault::Refused(Refusal::BadName));
    }
    match a.part_at(path, line, column) {
        Some(part) => plan_part(alloc, a, part, name, strings),
        None => Err(PlanFault::Refused(Refusal::NoName)),
    }
}

// The same for the class of a part.
fn plan_part(
    alloc: Global,
    a: &Analysis,
    part: Part,
    name: &[u8],
    strings: bool,
) -> Result<Edits, PlanFault>
    requires { IsPart a.now.value part }
    ensures { GivesOne (λ edits. edits) refusal_of result (IsClassRenamed a.now.value part name.now strings) }
{
    match a.classes().class_of(part) {
        Some(number) => plan_class(alloc, a, a.members(part), number, name, strings),
        // Each part has a class.
        None => Err(PlanFault::Memory),
    }
}

// The same for the class with these members and this number.
fn plan_class(
    alloc: Global,
    a: &Analysis,
    members: &[Part],
    number: u32,
    name: &[u8],
    strings: bool,
) -> Result<Edits, PlanFault>
    requires { IsClass a.now members.now number }
    ensures { GivesOne (λ edits. edits) refusal_of result (IsRenamed a.now.value members.now name.now strings) }
{
    let renaming = Renaming::new(alloc, a, members, number, name)?;
    plan_renaming(alloc, &renaming, strings)
}

// The same for the class and its new name.
fn plan_renaming(alloc: Global, renaming: &Renaming<'_>, strings: bool) -> Result<Edits, PlanFault>
    ensures { GivesOne (λ edits. edits) refusal_of result
        (IsRenamed renaming.now.class.analysis.value renaming.now.class.members renaming.now.name strings) }
{
    match first_offence(alloc, renaming, strings)? {
        Some(offence) => Err(refused(alloc, renaming.class().analysis(), offence)),
        None => Ok(class_edits(alloc, renaming)?),
    }
}

// The edits of a class against which nothing stands.
fn class_edits(alloc: Global, renaming: &Renaming<'_>) -> Result<Edits, Memory>
    ensures { IfOk result (λ e. e ≡ edits_of renaming.now.class.analysis.value renaming.now.class.members renaming.now.name) }
{
    let class = renaming.class();
    let a = class.analysis();
    let _files = a.files();
    edit_files(alloc, a, class.members(), renaming.name())
}

// The first offence, if one stands.
fn first_offence(
    alloc: Global,
    renaming: &Renaming<'_>,
    strings: bool,
) -> Result<Option<Offence>, Memory>
    ensures { IfOk result (IsFirst renaming.now.class.analysis.value.table
        (offences_of renaming.now.class.analysis.value renaming.now.class.members renaming.now.name strings)) }
{
    let found = in_units(alloc, renaming, strings)?;
    let at_members = member_offences(alloc, renaming, &found)?;
    let known = spelling_offences(alloc, renaming, &found, at_members)?;
    or_failing(alloc, renaming, known)
}

// The first of some offences, and where there are none, of those of units of GNU C that would be read or bound otherwise.
fn or_failing(
    alloc: Global,
    renaming: &Renaming<'_>,
    known: Option<Offence>,
) -> Result<Option<Offence>, Memory>
    ensures { IfOk result (λ first. (offences : List AnOffence) → IsFirst renaming.now.class.analysis.value.table offences known
        → IsFirst renaming.now.class.analysis.value.table
        (with_failing renaming.now.class.analysis.value renaming.now.class.members renaming.now.name offences) first) }
{
    match known {
        Some(offence) => Ok(Some(offence)),
        None => failing(alloc, renaming, None),
    }
}

// The first of those at members and the tokens that hold them, where these were found in units.
fn member_offences(
    alloc: Global,
    renaming: &Renaming<'_>,
    found: &InUnits,
) -> Result<Option<Offence>, Memory>
    ensures { IfOk result (λ first. (strings : Bool)
        → AreInUnits renaming.now.class.analysis.value renaming.now.class.members renaming.now.name strings found.now
        → FirstThen renaming.now.class.analysis.value.table
        (member_offences renaming.now.class.analysis.value renaming.now.class.members renaming.now.name strings) None first) }
{
    let kept = read_only(renaming, None);
    let words = reserved(alloc, renaming, kept)?;
    let made = and_first(renaming, words, found.strings);
    let headers = and_first(renaming, made, found.headers);
    Ok(no_identifiers(renaming, headers))
}

// The first of these and of those of new spellings among all others.
fn spelling_offences(
    alloc: Global,
    renaming: &Renaming<'_>,
    found: &InUnits,
    first: Option<Offence>,
) -> Result<Option<Offence>, Memory>
    ensures { IfOk result (λ now. (strings : Bool)
        → AreInUnits renaming.now.class.analysis.value renaming.now.class.members renaming.now.name strings found.now
        → FirstThen renaming.now.class.analysis.value.table
        (spelling_offences renaming.now.class.analysis.value renaming.now.class.members renaming.now.name) first now) }
{
    let words = occurring(renaming, first);
    let all = and_first(renaming, words, found.pasted);
    let pairs = clashing(alloc, renaming, all)?;
    let sizes = too_large(alloc, renaming, pairs)?;
    let hidden = and_first(renaming, sizes, found.bare);
    gnu_offences(alloc, renaming, hidden)
}
