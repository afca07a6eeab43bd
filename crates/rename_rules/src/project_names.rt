// The spellings of a class by which the units of a project declare something of external linkage.
ghost use Rattle.std.specs.Prelude.{◌≡◌, ◌++◌, ◌∷◌, [], OnOk, slice_get};
ghost use Rattle.std.specs.List.{flat_map};
ghost use Rattle.std.specs.Option.{option_map_or};
ghost use Rattle.rename_rules.specs.Undeclared.{declared_by, declared_in, declares_external, held_name, is_declared, is_of, project_at, project_name, project_unit, HaveNames};

use analysis::{Analysis, Bound, Name, UnitAt, is_external};
use cs_base::{Memory, Tok, Unit};
use offences::{Class, holds_member};
use std::alloc::Global;
use std::marker::Model;

/// A spelling in a project.
#[derive(Drop)]
pub(crate) struct ProjectName {
    project: Vec<u8>,
    text: Vec<u8>,
}

impl Model for ProjectName {
    ghost use Rattle.rename_rules.specs.Undeclared.{ProjectName, project_name};

    ghost Value = { ProjectName };

    ghost view = { λ n. project_name n.project.items n.text.items };
}

impl ProjectName {
    fn is_of(&self, project: &[u8], text: &[u8]) -> bool
        ensures { result ≡ is_of project.now text.now self.now }
    {
        self.project.as_slice() == project && self.text.as_slice() == text
    }
}

// The project of unit `k` of a workspace; a unit that it does not have is of that without a name.
fn project_at(units: &[Unit], k: u32) -> &[u8]
    ensures { result.now ≡ project_at units.now k }
{
    match units.get(k as usize) {
        Some(unit) => unit.project().bytes(),
        None => &[],
    }
}

/// The same of the workspace that is analysed.
pub(crate) fn project_of(a: &Analysis, k: u32) -> &[u8]
    ensures { result.now ≡ project_at a.now.value.workspace.units k }
{
    project_at(a.workspace().units(), k)
}

/// Whether one of these names is so spelled in the project.
pub(crate) fn is_declared(names: &[ProjectName], project: &[u8], text: &[u8]) -> bool
    ensures { result ≡ is_declared names.now project.now text.now }
{
    names.iter().any(|name| name.is_of(project, text))
}

// A spelling comes to the names of a project, if it is new among them.
fn push_new(
    alloc: Global,
    names: &mut Vec<ProjectName>,
    project: &[u8],
    text: &[u8],
) -> Result<(), Memory>
    ensures { OnOk result (HaveNames names.new.items (names.old.items ++ project_name project.now text.now ∷ [])) }
{
    if is_declared(names, project, text) {
        return Ok(());
    }
    let project = Vec::from_slice(alloc, project)?;
    let text = Vec::from_slice(alloc, text)?;
    names.push(ProjectName { project, text })?;
    Ok(())
}

// The same for that of a token, if it holds a member.
fn push_held(
    alloc: Global,
    names: &mut Vec<ProjectName>,
    class: &Class<'_>,
    project: &[u8],
    tok: &Tok,
) -> Result<(), Memory>
    ensures { OnOk result (HaveNames names.new.items (names.old.items ++ held_name class.now.members project.now tok.now)) }
{
    if holds_member(class, tok) {
        return push_new(alloc, names, project, tok.text());
    }
    Ok(())
}

// The same for token `k`.
fn push_at(
    alloc: Global,
    names: &mut Vec<ProjectName>,
    class: &Class<'_>,
    project: &[u8],
    toks: &[Tok],
    k: u32,
) -> Result<(), Memory>
    ensures { OnOk result (HaveNames names.new.items
        (names.old.items ++ option_map_or (held_name class.now.members project.now) (slice_get toks.now k) [])) }
{
    match toks.get(k as usize) {
        Some(tok) => push_held(alloc, names, class, project, tok),
        None => Ok(()),
    }
}

// Whether a name declares something of external linkage.
fn declares_external(bound: &Bound, name: Name) -> bool
    ensures { result ≡ declares_external bound.now.names name }
{
    name.declares && is_external(bound.linkage(name.entity))
}

// The same for the token of a name, if this declares something of external linkage.
fn push_name(
    alloc: Global,
    names: &mut Vec<ProjectName>,
    class: &Class<'_>,
    project: &[u8],
    bound: &Bound,
    toks: &[Tok],
    name: Name,
) -> Result<(), Memory>
    ensures { OnOk result (HaveNames names.new.items
        (names.old.items ++ declared_by class.now.members project.now bound.now.names toks.now name)) }
{
    if declares_external(bound, name) {
        push_at(alloc, names, class, project, toks, name.index)
    } else {
        Ok(())
    }
}

// The same for each of these names.
fn push_names(
    alloc: Global,
    names: &mut Vec<ProjectName>,
    class: &Class<'_>,
    project: &[u8],
    bound: &Bound,
    toks: &[Tok],
    all: &[Name],
) -> Result<(), Memory>
    ensures { OnOk result (HaveNames names.new.items
        (names.old.items ++ flat_map (declared_by class.now.members project.now bound.now.names toks.now) all.now)) }
{
    for name in all {
        push_name(alloc, names, class, project, bound, toks, *name)?;
    }
    Ok(())
}

/// Those of a unit of the project come to these names, each spelling once.
pub(crate) fn push_declared(
    alloc: Global,
    names: &mut Vec<ProjectName>,
    class: &Class<'_>,
    project: &[u8],
    one: &UnitAt<'_>,
) -> Result<(), Memory>
    ensures { OnOk result (HaveNames names.new.items (names.old.items ++ declared_in class.now.members (project_unit project.now one.now))) }
{
    let bound = one.bound();
    let text = one.text();
    push_names(
        alloc,
        names,
        class,
        project,
        bound,
        text.toks(),
        bound.names(),
    )
}
