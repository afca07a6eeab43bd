// The classes of a table as lists, in the order of the places of their parts.
ghost use Rattle.std.specs.Prelude.{IfOk};
ghost use Rattle.eclass_map.specs.ClassTable.{HasParts};
ghost use Rattle.analysis.specs.Analysed.{AreLists};
ghost use Rattle.analysis.specs.Classes.{AreItsClasses};
ghost use Rattle.analysis.specs.Listing.{AreOfClass};

use crate::accepted::Accepted;
use crate::listed::Lists;
use crate::place_order::{ranks, sort};
use cs_base::{Memory, Part};
use eclass_map::Classes;
use std::alloc::Global;

/// The members of each class, and the first member of each, in the order of their places.
pub(crate) fn lists(alloc: Global, a: &Accepted, classes: &Classes) -> Result<Lists, Memory>
    requires { AreItsClasses a.now classes.now }
    ensures { IfOk result (λ l. AreLists a.now classes.now l) }
{
    let ranks = ranks(alloc, a)?;
    let mut lists = Lists::new(alloc);
    for class in 0..classes.class_numbers() {
        let parts = parts_of(alloc, a, &ranks, classes, class)?;
        lists.push(&parts)?;
    }
    lists.sort_firsts(a, &ranks)?;
    Ok(lists)
}

// The parts of a class, in the order of their places.
fn parts_of(
    alloc: Global,
    a: &Accepted,
    ranks: &[usize],
    classes: &Classes,
    class: u32,
) -> Result<Vec<Part>, Memory>
    requires { HasParts classes.now }
    ensures { IfOk result (λ parts. AreOfClass a.now classes.now class parts.items) }
{
    let mut parts = classes.members(alloc, class)?;
    sort(a, ranks, &mut parts)?;
    Ok(parts)
}
