// The macros that a class names, with the names that they replace.
ghost use Rattle.std.specs.Prelude.{◌≡◌, IfOk};
ghost use Rattle.offences.specs.Class.{class_over, IsClass};
ghost use Rattle.macro_rules.specs.Class.{AreMacros};
ghost use Rattle.macro_rules.specs.Counting.{class_heads};

use crate::heads::{Head, heads};
use crate::lines::loose_places;
use crate::positions::Positions;
use crate::replacements::{called_places, found_places};
use analysis::Analysis;
use cs_base::{Memory, Part};
use offences::Class;
use std::alloc::Global;
use std::marker::Model;

/// The macros that a class names, over an analysis: where their names stand, where they are called by names that come from
/// no macro, where a replacement could tear a list, and where numbers of lines are put in. Contracts see the analysis and
/// the members of the class.
#[derive(Drop)]
pub struct Macros<'a> {
    class: Class<'a>,
    macros: Positions,
    calls: Positions,
    torn: Positions,
    lines: Positions,
}

impl<'a> Model for Macros<'a> {
    ghost use Rattle.std.specs.Coded.{codes};
    ghost use Rattle.analysis.specs.Below.c99_tree.TreeCode.{node_code};
    ghost use Rattle.offences.specs.Class.{ClassValue};
    ghost use Rattle.macro_rules.specs.Class.{AreMacros};

    ghost Value = { ClassValue };

    ghost coded = { Prim.hlevel (codes, node_code) };

    ghost view = { λ m. m.class };

    ghost invariant = { λ m. AreMacros m.class m.macros m.calls m.torn m.lines };
}

/// The places that are asked for of the macros of a class: the names of the macros, those that are called, those where a
/// replacement could tear a list, and those where numbers of lines are put in.
#[derive(Drop)]
pub(crate) struct Asked<'b> {
    pub(crate) macros: &'b Positions,
    pub(crate) calls: &'b Positions,
    pub(crate) torn: &'b Positions,
    pub(crate) lines: &'b Positions,
}

impl<'a> Macros<'a> {
    pub(crate) fn class(&self) -> &Class<'a>
        ensures { result.now ≡ self.now }
    {
        &self.class
    }

    pub fn analysis(&self) -> &'a Analysis
        ensures { result.now ≡ self.now.analysis }
    {
        self.class.analysis()
    }

    /// Their places.
    pub(crate) fn asked(&self) -> Asked<'_>
        ensures { AreMacros self.now result.macros.now result.calls.now result.torn.now result.lines.now }
    {
        Asked {
            macros: &self.macros,
            calls: &self.calls,
            torn: &self.torn,
            lines: &self.lines,
        }
    }
}

/// The macros that a class names, given by its members and its number.
pub fn named_macros<'a>(
    alloc: Global,
    a: &'a Analysis,
    members: &'a [Part],
    number: u32,
) -> Result<Macros<'a>, Memory>
    requires { IsClass a.now members.now number }
    ensures answer { IfOk result (λ m. m ≡ class_over a.now members.now) }
{
    let class = Class::new(a, members, number);
    let loose = loose_places(alloc, a)?;
    let found = found_places(alloc, a, &class, &loose)?;
    let calls = called_places(alloc, a, &found.macros)?;
    Ok(Macros {
        class,
        macros: found.macros,
        calls,
        // A list that one of these replacements stands in could be torn.
        torn: found.replaced,
        lines: found.lines,
    })
}

/// The beginnings of their definitions, in the order of files: none where the class names no macro.
pub fn macro_heads(alloc: Global, macros: &Macros<'_>) -> Result<Vec<Head>, Memory>
    ensures answer { IfOk result (λ heads. heads.items ≡ class_heads macros.now.members macros.now.analysis.value) }
{
    let asked = macros.asked();
    heads(alloc, macros.analysis(), asked.macros)
}
