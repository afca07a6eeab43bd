// What is taken of the units one at a time: their links are joined, and what they process is marked.
ghost use Rattle.std.specs.Prelude.{◌≡◌, ◌++◌, [], IfOk, OnOk, take, drop};
ghost use Rattle.std.specs.List.{flat_map};
ghost use Rattle.eclass_map.specs.ClassTable.{AreLinks, HasParts, added_tokens};
ghost use Rattle.analysis.specs.Joins.{Joins};
ghost use Rattle.analysis.specs.Links.{linked_pairs, names_of_units, unit_links};
ghost use Rattle.analysis.specs.Marking.{AreMarked, MarksTokens};
ghost use Rattle.analysis.specs.Naming.{names_processed};

use crate::accepted::{Accepted, UnitParts};
use crate::external_names::push_names;
use crate::joining::join;
use crate::marks::Marks;
use crate::occurrences::join_occurrences;
use crate::processed::{blank, mark_reached};
use cs_base::{Link, Memory};
use eclass_map::Classes;
use include_tree::Fronts;
use linkage_join::{UnitNames, external_links};
use std::alloc::Global;

/// Joins the links of a workspace, in order, and marks the identifiers that its units process. `Memory` also where a link is
/// not of whole tokens of the table. A unit that is not kept is made once for both.
pub(crate) fn join_links(
    alloc: Global,
    a: &Accepted,
    classes: &mut Classes,
) -> Result<Vec<Marks>, Memory>
    requires none { AreLinks [] classes.old }
    requires parts { HasParts classes.old }
    ensures links { OnOk result (AreLinks (linked_pairs a.now) classes.new) }
    ensures tokens { OnOk result (added_tokens classes.new ≡ added_tokens classes.old) }
    ensures parts { OnOk result (HasParts classes.new) }
    ensures marks { IfOk result (λ marks. AreMarked a.now.table (names_processed a.now) marks.items) }
{
    let mut marks = blank(alloc, a)?;
    let names = join_units(alloc, a, classes, &mut marks)?;
    let links = external_links(alloc, &names)?;
    join_all(&links, classes)?;
    Ok(marks)
}

// Joins the links in the units and marks what they process; and their external names.
fn join_units(
    alloc: Global,
    a: &Accepted,
    classes: &mut Classes,
    marks: &mut Vec<Marks>,
) -> Result<Vec<UnitNames>, Memory>
    ensures links { OnOk result (Joins (flat_map unit_links a.now.units) classes.old classes.new) }
    ensures marks { OnOk result (MarksTokens a.now.table (names_processed a.now) marks.old.items marks.new.items) }
    ensures names { IfOk result (λ names. names.items ≡ names_of_units a.now.workspace.units a.now.units) }
{
    let mut names = Vec::new(alloc);
    let mut shared = Fronts::new(alloc);
    let units = a.workspace().units();
    for k in 0..a.count() {
        let unit = a.unit_over(alloc, &mut shared, k)?;
        join_unit(alloc, unit.parts(), classes)?;
        mark_reached(a, marks, unit.text().reached())?;
        push_names(alloc, &mut names, units, k, unit.parts())?;
    }
    Ok(names)
}

fn join_unit(alloc: Global, unit: &UnitParts, classes: &mut Classes) -> Result<(), Memory>
    ensures { OnOk result (Joins (unit_links unit.now) classes.old classes.new) }
{
    let text = unit.text();
    join_all(text.links(), classes)?;
    join_occurrences(alloc, unit.bound(), text.toks(), classes)
}

fn join_all(links: &[Link], classes: &mut Classes) -> Result<(), Memory>
    ensures { OnOk result (Joins links.now classes.old classes.new) }
{
    for link in links {
        join(&link.x, &link.y, classes)?;
    }
    Ok(())
}
