// A unit that is preprocessed, read and bound; and its refusals.
ghost use Rattle.std.specs.Prelude.{◌≡◌, IfErr, IfSome};
ghost use Rattle.std.specs.Option.{option_map};
ghost use Rattle.cs_base.specs.Answer.{Gives, result_map_err};
ghost use Rattle.c99_read.specs.Answer.{stop_of};
ghost use Rattle.gnu_bind.specs.Below.scope_bind.Causes.{cause_of, index_of};
ghost use Rattle.gnu_bind.specs.Below.c_types.Faults.{fault_of as name_fault_of};
ghost use Rattle.analysis.specs.Texts.{unit_fault};
ghost use Rattle.analysis.specs.Answers.{fault_of};
ghost use Rattle.analysis.specs.Analysis.{read_unit, bound_unit};
ghost use Rattle.analysis.specs.Trees.{HasTree};
ghost use Rattle.analysis.specs.Accepting.{told_of_stop, told_fault, MayTell, IsNoReadFault};
ghost use Rattle.c99_tree.specs.Joined.{followed};
ghost use Rattle.c99_read.specs.Fronts.{BeginsWith};

use crate::accepted::UnitParts;
use crate::analyse_fault::AnalyseFault;
use crate::fault_places::place_of_index;
use crate::fronts::{front_of, keep, learn};
use crate::reading::{read_toks, read_toks_from};
use crate::unit_fronts::UnitFront;
use c99_read::ReadRefusal;
use c99_tree::Tree;
use cs_base::{Cause, Memory, Standard, Tok};
use gnu_bind::{BindRefusal, bind_by};
use include_tree::{Cache, UnitText};
use std::alloc::Global;

/// Reads by this standard and binds unit `number` of this path, whose text this is, or names its fault. The cache has the
/// files that the text comes from. Where the text begins with a front, it is read on from there, and what it begins with as
/// the unit before does becomes a front.
pub(crate) fn read_text(
    alloc: Global,
    cache: &Cache,
    fronts: &mut Vec<UnitFront>,
    before: Option<&UnitParts>,
    number: u32,
    standard: Standard,
    path: &[u8],
    text: UnitText,
) -> Result<UnitParts, AnalyseFault>
    ensures answer { Gives (λ u. u) fault_of result (result_map_err (unit_fault number) (read_unit standard cache.now.table path.now text)) }
    ensures no_read { IfErr result IsNoReadFault }
{
    let known = front_of(fronts.as_slice(), text.toks(), standard);
    match learn_of(alloc, known, before, text.toks(), standard) {
        Ok(None) => read_on(alloc, cache, known, number, standard, path, text),
        Ok(Some(front)) => match keep(fronts, front) {
            Ok(()) => read_known(
                alloc,
                cache,
                fronts.as_slice(),
                number,
                standard,
                path,
                text,
            ),
            Err(_) => Err(AnalyseFault::Memory),
        },
        Err(_) => Err(AnalyseFault::Memory),
    }
}

// What the tokens have in common with the unit before, where it is worth it.
fn learn_of(
    alloc: Global,
    known: Option<&UnitFront>,
    before: Option<&UnitParts>,
    toks: &[Tok],
    standard: Standard,
) -> Result<Option<UnitFront>, Memory> {
    match before {
        Some(unit) => {
            if unit.standard() == standard {
                learn(alloc, known, unit.text().toks(), toks, standard)
            } else {
                Ok(None)
            }
        }
        None => Ok(None),
    }
}

/// The same with these fronts.
pub(crate) fn read_known(
    alloc: Global,
    cache: &Cache,
    fronts: &[UnitFront],
    number: u32,
    standard: Standard,
    path: &[u8],
    text: UnitText,
) -> Result<UnitParts, AnalyseFault>
    ensures answer { Gives (λ u. u) fault_of result (result_map_err (unit_fault number) (read_unit standard cache.now.table path.now text)) }
    ensures no_read { IfErr result IsNoReadFault }
{
    let front = front_of(fronts, text.toks(), standard);
    read_on(alloc, cache, front, number, standard, path, text)
}

// Reads the text, which begins with the front, if there is one.
fn read_on(
    alloc: Global,
    cache: &Cache,
    front: Option<&UnitFront>,
    number: u32,
    standard: Standard,
    path: &[u8],
    text: UnitText,
) -> Result<UnitParts, AnalyseFault>
    requires begins { IfSome front (λ f. (f.now.standard ≡ standard) × BeginsWith text.toks f.now.reading) }
    ensures answer { Gives (λ u. u) fault_of result (result_map_err (unit_fault number) (read_unit standard cache.now.table path.now text)) }
    ensures no_read { IfErr result IsNoReadFault }
{
    match front {
        Some(front) => read_behind(alloc, cache, front, number, standard, path, text),
        None => read_whole(alloc, cache, number, standard, path, text),
    }
}

// Reads the whole text.
fn read_whole(
    alloc: Global,
    cache: &Cache,
    number: u32,
    standard: Standard,
    path: &[u8],
    text: UnitText,
) -> Result<UnitParts, AnalyseFault>
    ensures answer { Gives (λ u. u) fault_of result (result_map_err (unit_fault number) (read_unit standard cache.now.table path.now text)) }
    ensures no_read { IfErr result IsNoReadFault }
{
    match read_toks(alloc, text.toks(), standard) {
        Ok(tree) => bind_text(alloc, cache, number, standard, path, text, &tree),
        Err(refusal) => Err(refused(
            alloc,
            cache,
            number,
            path,
            text.toks(),
            told_of_stop(refusal),
        )),
    }
}

// Reads what stands behind the front with which the text begins.
fn read_behind(
    alloc: Global,
    cache: &Cache,
    front: &UnitFront,
    number: u32,
    standard: Standard,
    path: &[u8],
    text: UnitText,
) -> Result<UnitParts, AnalyseFault>
    requires by { front.now.standard ≡ standard }
    requires begins { BeginsWith text.toks front.now.reading }
    ensures answer { Gives (λ u. u) fault_of result (result_map_err (unit_fault number) (read_unit standard cache.now.table path.now text)) }
    ensures no_read { IfErr result IsNoReadFault }
{
    match read_toks_from(alloc, front.reading(), text.toks(), standard) {
        Ok(rest) => bind_behind(alloc, cache, front, number, standard, path, text, &rest),
        Err(refusal) => Err(refused(
            alloc,
            cache,
            number,
            path,
            text.toks(),
            told_of_stop(refusal),
        )),
    }
}

// Binds a unit that begins with the front, and whose tokens have this tree behind it.
fn bind_behind(
    alloc: Global,
    cache: &Cache,
    front: &UnitFront,
    number: u32,
    standard: Standard,
    path: &[u8],
    text: UnitText,
    rest: &Tree,
) -> Result<UnitParts, AnalyseFault>
    requires by { front.now.standard ≡ standard }
    requires begins { BeginsWith text.toks front.now.reading }
    requires read { HasTree standard text.toks (followed front.now.reading.tree rest.now) }
    ensures answer { Gives (λ u. u) fault_of result (result_map_err (unit_fault number) (bound_unit standard cache.now.table path.now text (followed front.now.reading.tree rest.now))) }
    ensures no_read { IfErr result IsNoReadFault }
{
    match front.bind(alloc, text.toks(), rest) {
        Ok(bound) => Ok(UnitParts::behind(standard, text, front.reading().tree(), rest, bound)),
        Err(refusal) => Err(refused(
            alloc,
            cache,
            number,
            path,
            text.toks(),
            told_of_name(refusal),
        )),
    }
}

// The same for a unit whose tokens have this tree.
fn bind_text(
    alloc: Global,
    cache: &Cache,
    number: u32,
    standard: Standard,
    path: &[u8],
    text: UnitText,
    tree: &Tree,
) -> Result<UnitParts, AnalyseFault>
    requires read { HasTree standard text.toks tree.now }
    ensures answer { Gives (λ u. u) fault_of result (result_map_err (unit_fault number) (bound_unit standard cache.now.table path.now text tree.now)) }
    ensures no_read { IfErr result IsNoReadFault }
{
    match bind_by(alloc, text.toks(), tree, standard) {
        Ok(bound) => Ok(UnitParts::new(standard, text, tree, bound)),
        Err(refusal) => Err(refused(
            alloc,
            cache,
            number,
            path,
            text.toks(),
            told_of_name(refusal),
        )),
    }
}

// Why the reader refused, and at which token: none where it was memory.
fn told_of_stop(refusal: ReadRefusal) -> Option<(u32, Cause)>
    ensures { result ≡ option_map told_of_stop (stop_of refusal) }
{
    match refusal {
        ReadRefusal::Syntax { index } => Some((index, Cause::Syntax)),
        ReadRefusal::TooDeep { index } => Some((index, Cause::TooDeep)),
        ReadRefusal::Memory => None,
    }
}

// Why the binder refused, and at which token: none where it was memory.
fn told_of_name(refusal: BindRefusal) -> Option<(u32, Cause)>
    ensures { result ≡ option_map (λ f. (index_of f, cause_of f)) (name_fault_of refusal) }
{
    match refusal {
        BindRefusal::Undeclared { index } => Some((index, Cause::Undeclared)),
        BindRefusal::NoMember { index } => Some((index, Cause::NoMember)),
        BindRefusal::NoLabel { index } => Some((index, Cause::NoLabel)),
        BindRefusal::Redeclared { index } => Some((index, Cause::Redeclared)),
        BindRefusal::TagRedefined { index } => Some((index, Cause::TagRedefined)),
        BindRefusal::MixedLinkage { index } => Some((index, Cause::MixedLinkage)),
        BindRefusal::DesignatorAfterElision { index } => Some((
            index,
            Cause::DesignatorAfterElision,
        )),
        BindRefusal::Memory => None,
    }
}

// The fault of the unit, which stands at a token; none was told where memory ran out.
fn refused(
    alloc: Global,
    cache: &Cache,
    number: u32,
    path: &[u8],
    toks: &[Tok],
    told: Option<(u32, Cause)>,
) -> AnalyseFault
    ensures answer { MayTell result (option_map (told_fault number cache.now.table path.now toks.now) told) }
    ensures no_read { IsNoReadFault result }
{
    match told {
        Some((index, cause)) => match place_of_index(alloc, cache, path, toks, index) {
            Ok(place) => AnalyseFault::WorkspaceFault {
                unit: number,
                place,
                cause,
            },
            Err(_) => AnalyseFault::Memory,
        },
        None => AnalyseFault::Memory,
    }
}
