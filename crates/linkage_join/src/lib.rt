//! External linkage over the units of a program (ISO/IEC 9899:1999, 6.2.2).
//!
//! `external_links` takes the units in order, each with its project and the first token of each of its
//! names of external linkage, and gives the links that make such a name one entity in its project: each
//! token of a later unit with the first token of its spelling in the units before. It equals `links_of`
//! of `specs/Linkage.antt`. Which names have external linkage, and the occurrences inside a unit, belong
//! to the crates that bind names: this one compares spellings alone, and knows neither kinds nor types.
//! A project takes the place of the standard's program. Nothing is refused; what wants memory answers
//! `Memory`. It takes time in proportion to the text of the names. Read `specs/Linkage.antt`, then
//! `firsts.rt`.
#![tactic(auto)]

ghost use Rattle.std.specs.Prelude.{◌≡◌, All, IfOk};
ghost use Rattle.linkage_join.specs.Linkage.{links_of};

mod firsts;
mod unit_names;

use crate::firsts::Firsts;
use cs_base::{Link, Memory};
use std::alloc::Global;
pub use unit_names::UnitNames;

/// The links that make each external name of these units one entity in its project, in order of the
/// units and of their names. `x` is the token of the later unit, and `y` the first one.
pub fn external_links(alloc: Global, units: &[UnitNames]) -> Result<Vec<Link>, Memory>
    // Each link can be joined: its two tokens are spelled alike.
    ensures alike { IfOk result (λ links. All (λ l. l.x.text ≡ l.y.text) links.items) }
    ensures answer { IfOk result (λ links. links.items ≡ links_of units.now) }
{
    let mut firsts = Firsts::new(alloc);
    let mut links = Vec::new(alloc);
    for unit in units {
        // The unit's own names come after its links: a name of one unit is not linked within it.
        firsts.link(unit, &mut links)?;
        firsts.add(unit)?;
    }
    Ok(links)
}
