// The members of each class and the first of each.
ghost use Rattle.std.specs.Prelude.{◌≡◌, ◌++◌, [], OnOk, take, slice_index_or};
ghost use Rattle.std.specs.List.Sorted.{IsPermutation, IsStrictlySortedBy};
ghost use Rattle.analysis.specs.Parts.{part_cmp};

use crate::accepted::Accepted;
use crate::part_lists::PartLists;
use crate::place_order::sort;
use cs_base::{Memory, Part};
use std::alloc::Global;
use std::marker::Model;

/// The members of each class under its number, and the first member of each class.
#[derive(Drop)]
pub(crate) struct Lists {
    members: PartLists,
    firsts: Vec<Part>,
}

impl Model for Lists {
    ghost use Rattle.analysis.specs.Analysed.{ClassLists, class_lists};

    ghost Value = { ClassLists };

    ghost view = { λ l. class_lists l.members l.firsts.items };
}

impl Lists {
    ghost use Rattle.analysis.specs.Analysed.{class_lists};
    ghost use Rattle.analysis.specs.Listing.{with_class};

    pub(crate) fn new(alloc: Global) -> Lists
        ensures { result ≡ class_lists [] [] }
    {
        Lists {
            members: PartLists::new(alloc),
            firsts: Vec::new(alloc),
        }
    }

    // The parts of the class with the next number, in order.
    pub(crate) fn push(&mut self, parts: &[Part]) -> Result<(), Memory>
        ensures { OnOk result (self.new ≡ with_class parts.now self.old) }
    {
        self.members.push(parts)?;
        push_first(&mut self.firsts, parts)?;
        Ok(())
    }

    // Puts the first members into the order of their places.
    pub(crate) fn sort_firsts(&mut self, a: &Accepted, ranks: &[usize]) -> Result<(), Memory>
        ensures members { self.new.members ≡ self.old.members }
        ensures moved { IsPermutation self.old.firsts self.new.firsts }
        ensures sorted { OnOk result (IsStrictlySortedBy (part_cmp a.now) self.new.firsts) }
    {
        sort(a, ranks, &mut self.firsts)
    }

    /// The members of the class with this number, in the order of their places. Takes no memory.
    pub(crate) fn members(&self, class: u32) -> &[Part]
        ensures { result.now ≡ slice_index_or self.now.members class [] }
    {
        self.members.get(class)
    }

    /// The first member of each class, in the order of their places. Takes no memory.
    pub(crate) fn firsts(&self) -> &[Part]
        ensures { result.now ≡ self.now.firsts }
    {
        self.firsts.as_slice()
    }
}

// The first part of a list, if there is one.
fn push_first(firsts: &mut Vec<Part>, parts: &[Part]) -> Result<(), Memory>
    ensures { OnOk result (firsts.new.items ≡ firsts.old.items ++ take 1 parts.now) }
{
    if !parts.is_empty() {
        firsts.push(parts[0])?;
    }
    Ok(())
}
