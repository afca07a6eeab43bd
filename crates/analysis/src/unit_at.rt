// A unit of an analysis, one at a time: as it is kept, or made again from its files.
ghost use Rattle.std.specs.Prelude.{◌≡◌, IfOk};

use crate::accepted::UnitParts;
use c99_tree::Tree;
use cs_base::{Memory, Pos, Standard};
use gnu_bind::Bound;
use include_tree::UnitText;
use std::alloc::Global;
use std::marker::Model;

/// Where a unit is.
#[derive(Drop)]
pub(crate) enum Held<'a> {
    Kept(&'a UnitParts),
    Made(UnitParts),
}

/// A unit that an analysis lends, or that was made for the one who asked. Contracts see the unit.
#[derive(Drop)]
pub struct UnitAt<'a> {
    held: Held<'a>,
}

impl<'a> Model for UnitAt<'a> {
    ghost use Rattle.std.specs.Coded.{codes};
    ghost use Rattle.c99_tree.specs.TreeCode.{node_code};
    ghost use Rattle.analysis.specs.Analysis.{UnitAnalysis};
    ghost use Rattle.analysis.specs.HeldUnits.{unit_of};

    ghost Value = { UnitAnalysis };

    ghost coded = { Prim.hlevel (codes, node_code) };

    ghost view = { λ u. unit_of u.held };
}

impl<'a> UnitAt<'a> {
    ghost use Rattle.analysis.specs.GnuUnits.{gnu_begin};

    pub(crate) fn kept(unit: &'a UnitParts) -> UnitAt<'a>
        ensures { result ≡ unit.now }
    {
        UnitAt {
            held: Held::Kept(unit),
        }
    }

    pub(crate) fn made(unit: UnitParts) -> UnitAt<'a>
        ensures { result ≡ unit }
    {
        UnitAt {
            held: Held::Made(unit),
        }
    }

    pub(crate) fn parts(&self) -> &UnitParts
        ensures { result.now ≡ self.now }
    {
        match &self.held {
            Held::Kept(unit) => unit,
            Held::Made(unit) => unit,
        }
    }

    /// The standard by which the unit is read.
    pub fn standard(&self) -> Standard
        ensures { result ≡ self.now.standard }
    {
        self.parts().standard()
    }

    /// The text of the unit.
    pub fn text(&self) -> &UnitText
        ensures { result.now ≡ self.now.text }
    {
        self.parts().text()
    }

    /// The tree of the unit. No tree is kept: the unit's tokens are read again.
    pub fn tree(&self, alloc: Global) -> Result<Tree, Memory>
        ensures { IfOk result (λ tree. tree ≡ self.now.tree) }
    {
        self.parts().tree(alloc)
    }

    /// Where the unit begins, if it is one of GNU C.
    pub fn gnu_begin(&self) -> Option<Pos>
        ensures { result ≡ gnu_begin self.now }
    {
        self.parts().gnu_begin()
    }

    /// What the identifiers of the unit denote.
    pub fn bound(&self) -> &Bound
        ensures { result.now ≡ self.now.bound }
    {
        self.parts().bound()
    }
}
