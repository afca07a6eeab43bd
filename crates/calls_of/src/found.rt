// The calls, the macros and the functions of all units.
ghost use Rattle.std.specs.Prelude.{◌≡◌, ◌++◌, IfOk, OnOk};
ghost use Rattle.std.specs.List.{flat_map};
ghost use Rattle.calls_of.specs.Calls.{calls_in_unit, calls_of, in_units};
ghost use Rattle.calls_of.specs.Graphs.{ends_of, nodes_in_unit, nodes_of};
ghost use Rattle.calls_of.specs.InUnits.{AreKnown};

use crate::call::NamedCall;
use crate::known::Known;
use crate::named::Named;
use crate::one_unit::OneUnit;
use analysis::{AllUnits, Analysis, UnitAt};
use cs_base::{Memory, Unit};
use std::alloc::Global;

/// The calls, and the nodes.
#[derive(Drop)]
pub(crate) struct Found<'a> {
    pub(crate) calls: Vec<NamedCall<'a>>,
    pub(crate) nodes: Vec<Named<'a>>,
}

// Adds the calls and the nodes of a unit.
fn add_unit<'a>(
    alloc: Global,
    a: &Analysis,
    known: &Known<'a>,
    unit: &'a Unit,
    read: &'a UnitAt<'_>,
    calls: &mut Vec<NamedCall<'a>>,
    nodes: &mut Vec<Named<'a>>,
) -> Result<(), Memory>
    requires known { AreKnown a.now.value known.now }
    ensures calls { OnOk result (calls.new.items ≡ calls.old.items ++ calls_in_unit a.now.value unit.now read.now) }
    ensures nodes { OnOk result (nodes.new.items ≡ nodes.old.items ++ nodes_in_unit a.now.value unit.now read.now) }
{
    let text = read.text();
    let bound = read.bound();
    let events = text.events();
    let one = OneUnit::new(alloc, unit.project().bytes(), text.toks(), bound)?;
    one.push_calls(known, events, calls)?;
    one.push_nodes(known, events, nodes)?;
    Ok(())
}

// Adds those of all units.
fn add_units<'a>(
    alloc: Global,
    units: &'a [Unit],
    a: &Analysis,
    all: &'a [UnitAt<'_>],
    known: &Known<'a>,
    calls: &mut Vec<NamedCall<'a>>,
    nodes: &mut Vec<Named<'a>>,
) -> Result<(), Memory>
    requires { AreKnown a.now.value known.now }
    ensures calls { OnOk result (calls.new.items ≡ calls.old.items ++ in_units (calls_in_unit a.now.value) units.now all.now) }
    ensures nodes { OnOk result (nodes.new.items ≡ nodes.old.items ++ in_units (nodes_in_unit a.now.value) units.now all.now) }
{
    for i in 0..units.len().min(all.len()) {
        add_unit(alloc, a, known, &units[i], &all[i], calls, nodes)?;
    }
    Ok(())
}

// Adds the ends of a call.
fn push_both<'a>(nodes: &mut Vec<Named<'a>>, call: &NamedCall<'a>) -> Result<(), Memory>
    ensures { OnOk result (nodes.new.items ≡ nodes.old.items ++ ends_of call.now) }
{
    nodes.push(call.caller().again())?;
    nodes.push(call.callee().again())?;
    Ok(())
}

// Adds the ends of calls.
fn push_ends<'a>(nodes: &mut Vec<Named<'a>>, calls: &[NamedCall<'a>]) -> Result<(), Memory>
    ensures { OnOk result (nodes.new.items ≡ nodes.old.items ++ flat_map ends_of calls.now) }
{
    for call in calls {
        push_both(nodes, call)?;
    }
    Ok(())
}

/// All of an analysis, the units of whose workspace are these.
pub(crate) fn all_found<'a>(
    alloc: Global,
    units: &'a [Unit],
    all: &'a AllUnits<'_>,
    known: &Known<'a>,
) -> Result<Found<'a>, Memory>
    requires units { all.now.value.workspace.units ≡ units.now }
    requires known { AreKnown all.now.value known.now }
    ensures calls { IfOk result (λ f. f.calls.items ≡ calls_of all.now.value) }
    ensures nodes { IfOk result (λ f. f.nodes.items ≡ nodes_of all.now.value) }
{
    let a = all.analysis();
    let read = all.units();
    let mut calls = Vec::new(alloc);
    let mut nodes = Vec::new(alloc);
    add_units(alloc, units, a, read, known, &mut calls, &mut nodes)?;
    push_ends(&mut nodes, &calls)?;
    Ok(Found { calls, nodes })
}
