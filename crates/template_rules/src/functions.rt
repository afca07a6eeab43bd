// The functions that a class names.
ghost use Rattle.std.specs.Prelude.{◌≡◌, ◌==◌, ◌||◌, ◌&&◌, ◌⊎◌, ℕ, [], IfOk, OnOk};
ghost use Rattle.std.specs.List.{list_any};
ghost use Rattle.analysis.specs.Below.scope_bind.Bound.{is_function_name};
ghost use Rattle.offences.specs.Class.{class_over, IsClass};
ghost use Rattle.template_rules.specs.Functions.{holds_at, is_named, has_function, AreFunctionsOf};
ghost use Rattle.template_rules.specs.Units.{AreOfTree, AreUnits, IsUnit, has_some};

use crate::body_lists::body_lists;
use crate::covers::Covers;
use crate::run_list::Runs;
use crate::unit_functions::{UnitFunctions, by_place, has, push_named};
use crate::unit_parameters::UnitParameters;
use analysis::{AllUnits, Analysis, Name, UnitAt};
use c_types::{EntityKind, Indices, ParameterList, parameter_lists};
use cs_base::{Memory, Part, Tok};
use offences::{Class, holds_member};
use std::alloc::Global;
use std::marker::Model;

/// The functions that a class names, unit by unit, over an analysis. Contracts see the analysis and the members of the
/// class.
#[derive(Drop)]
pub struct Functions<'a> {
    class: Class<'a>,
    units: Vec<UnitFunctions<'a>>,
}

impl<'a> Model for Functions<'a> {
    ghost use Rattle.std.specs.Coded.{codes};
    ghost use Rattle.c99_tree.specs.TreeCode.{node_code};
    ghost use Rattle.offences.specs.Class.{ClassValue};
    ghost use Rattle.template_rules.specs.Units.{AreUnits};

    ghost Value = { ClassValue };

    ghost coded = { Prim.hlevel (codes, node_code) };

    ghost view = { λ f. f.class };

    ghost invariant = { λ f. AreUnits f.class f.units.items };
}

impl<'a> Functions<'a> {
    pub(crate) fn class(&self) -> &Class<'a>
        ensures { result.now ≡ self.now }
    {
        &self.class
    }

    /// The analysis that they are of.
    pub fn analysis(&self) -> &'a Analysis
        ensures { result.now ≡ self.now.analysis }
    {
        self.class.analysis()
    }

    /// Those of each unit.
    pub(crate) fn units(&self) -> &[UnitFunctions<'a>]
        ensures { AreUnits self.now result.now }
    {
        self.units.as_slice()
    }
}

fn is_function_name(kind: EntityKind) -> bool
    ensures { result ≡ is_function_name kind }
{
    match kind {
        EntityKind::Function => true,
        _ => false,
    }
}

/// Whether token `k` holds a member.
pub(crate) fn holds_at(class: &Class<'_>, toks: &[Tok], k: u32) -> bool
    ensures { result ≡ holds_at class.now.members toks.now k }
{
    if (k as usize) < toks.len() {
        holds_member(class, &toks[k as usize])
    } else {
        false
    }
}

// Whether a name is one of a function, and its token holds a member.
fn is_named(class: &Class<'_>, toks: &[Tok], name: Name) -> bool
    ensures { result ≡ is_named class.now.members toks.now name }
{
    is_function_name(name.kind) && holds_at(class, toks, name.index)
}

// Adds the entity of a name, if it is a function that the class names and is not there yet.
fn push(out: &mut Vec<u32>, class: &Class<'_>, toks: &[Tok], name: Name) -> Result<(), Memory>
    ensures { OnOk result ((e : ℕ) → list_any (λ f. f == e) out.new.items
        ≡ (list_any (λ f. f == e) out.old.items || ((name.entity == e) && is_named class.now.members toks.now name))) }
{
    if !is_named(class, toks, name) {
        return Ok(());
    }
    if has(out, name.entity) {
        return Ok(());
    }
    out.push(name.entity)?;
    Ok(())
}

// The functions of a unit.
fn functions_of(
    alloc: Global,
    class: &Class<'_>,
    toks: &[Tok],
    names: &[Name],
) -> Result<Indices, Memory>
    ensures { IfOk result (AreFunctionsOf class.now.members toks.now names.now) }
{
    let mut out = Vec::new(alloc);
    for name in names {
        push(&mut out, class, toks, *name)?;
    }
    Ok(Indices::new(out))
}

// What is told of the tree of a unit, where it has some of these functions: its parameter lists, and where those lists end
// whose names bodies begin with.
fn lists_of(
    alloc: Global,
    unit: &UnitAt<'_>,
    entities: &[u32],
) -> Result<(Vec<ParameterList>, Vec<u32>), Memory>
    ensures { IfOk result (λ r. (entities.now ≡ []) ⊎ AreOfTree unit.now r.0.items r.1.items) }
{
    if entities.is_empty() {
        return Ok((Vec::new(alloc), Vec::new(alloc)));
    }
    let tree = unit.tree(alloc)?;
    let lists = parameter_lists(alloc, &tree)?;
    let ends = body_lists(alloc, &tree)?;
    Ok((lists, ends))
}

// A unit with them.
fn unit_at<'a>(
    alloc: Global,
    a: &'a Analysis,
    members: &'a [Part],
    number: u32,
    unit: &'a UnitAt<'_>,
) -> Result<UnitFunctions<'a>, Memory>
    requires { IsClass a.now members.now number }
    ensures class { IfOk result (λ f. f.class ≡ class_over a.now members.now) }
    ensures unit { IfOk result (IsUnit unit.now) }
{
    let class = Class::new(a, members, number);
    let text = unit.text();
    let bound = unit.bound();
    let entities = functions_of(alloc, &class, text.toks(), bound.names())?;
    let (parameters, ends) = lists_of(alloc, unit, entities.as_slice())?;
    let lists = UnitParameters::new(parameters);
    let mut found = Vec::new(alloc);
    push_named(&mut found, bound, entities.as_slice(), bound.declarators())?;
    push_named(&mut found, bound, entities.as_slice(), bound.calls())?;
    let by_place = by_place(alloc, text.toks(), &found)?;
    let covers = Covers::new(alloc, &found)?;
    let runs = Runs::new(text.reached());
    Ok(UnitFunctions {
        class,
        text,
        bound,
        entities,
        lists,
        ends,
        found,
        by_place,
        covers,
        runs,
    })
}

/// The functions that a class names, given by its members and its number.
pub fn named_functions<'a>(
    alloc: Global,
    all: &'a AllUnits<'_>,
    members: &'a [Part],
    number: u32,
) -> Result<Functions<'a>, Memory>
    requires { IsClass all.now members.now number }
    ensures answer { IfOk result (λ f. f ≡ class_over all.now members.now) }
{
    let a = all.analysis();
    let read = all.units();
    let class = Class::new(a, members, number);
    let mut units = Vec::new(alloc);
    for k in 0..read.len() {
        let found = unit_at(alloc, a, members, number, &read[k])?;
        units.push(found)?;
    }
    Ok(Functions { class, units })
}

// Whether one of these units has a function.
fn has_some(units: &[UnitFunctions<'_>]) -> bool
    ensures { result ≡ list_any has_some units.now }
{
    units
        .iter()
        .any(|unit| !unit.entities.as_slice().is_empty())
}

/// Whether there is one.
pub fn has_functions(functions: &Functions<'_>) -> bool
    ensures answer { result ≡ has_function functions.now.members functions.now.analysis.value }
{
    has_some(functions.units())
}
