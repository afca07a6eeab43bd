// One link, joined.
ghost use Rattle.std.specs.Prelude.{◌≡◌, ◌<◌, ◌∷◌, [], true, IsTrue, MatchBool, OnOk};
ghost use Rattle.eclass_map.specs.ClassTable.{AreWhole};
ghost use Rattle.analysis.specs.Joins.{IsKnown, Joins, JoinsPair, link_of};
ghost use Rattle.analysis.specs.Links.{are_alike};

use cs_base::{Memory, Steps, Tok};
use eclass_map::Classes;
use macro_expand::is_name;
use std::marker::Brand;
use std::sync::ledger::{Blank, Ledger};

/// Joins two tokens, if they are identifiers of equal spelling. `Memory` where they would be and some of
/// their characters come from no whole token of the table.
pub(crate) fn join(x: &Tok, y: &Tok, classes: &mut Classes) -> Result<(), Memory>
    ensures { OnOk result (Joins (link_of x.now y.now ∷ []) classes.old classes.new) }
{
    if !are_alike(x, y) {
        return Ok(());
    }
    if join_whole::<Brand>(x, y, classes, Blank::new(1)) {
        Ok(())
    } else {
        Err(Memory)
    }
}

fn are_alike(x: &Tok, y: &Tok) -> bool
    ensures { result ≡ are_alike (link_of x.now y.now) }
{
    is_name(x) && is_name(y) && x.text() == y.text()
}

// The tokens are joined, if their characters are those of whole tokens of the table; the blank is for a count of
// steps that nobody reads.
fn join_whole<L: Ledger>(x: &Tok, y: &Tok, classes: &mut Classes, blank: Blank) -> bool
    requires name { blank.name ≡ L.name }
    requires parts { blank.parts ≡ L.parts }
    requires some { 0 < blank.parts }
    requires equal { x.now.text ≡ y.now.text }
    ensures { IsTrue result → JoinsPair x.now y.now classes.old classes.new }
{
    let mut steps = Steps::<L>::new(blank);
    classes.join_whole(x, y, &mut steps)
}

/// The same, where the second token is the first one of its entity: itself, or one that was joined before. `Memory`
/// where the other would be joined and some of its characters come from no whole token of the table. The places are
/// guesses where the table has the two.
pub(crate) fn join_first(
    x: &Tok,
    first: &Tok,
    is_own: bool,
    places: [usize; 2],
    classes: &mut Classes,
) -> Result<(), Memory>
    requires { MatchBool is_own (first.now ≡ x.now) (IsKnown first.now classes.old) }
    ensures joined { OnOk result (Joins (link_of x.now first.now ∷ []) classes.old classes.new) }
    ensures known { OnOk result (IsKnown first.now classes.new) }
{
    if !are_alike(x, first) {
        return Ok(());
    }
    if is_own {
        return join_own(x, first, places[0], classes);
    }
    if join_known::<Brand>(x, first, places, classes, Blank::new(1)) {
        Ok(())
    } else {
        Err(Memory)
    }
}

// The same, where the first one is the token itself: a link that forces nothing.
fn join_own(x: &Tok, first: &Tok, place: usize, classes: &Classes) -> Result<(), Memory>
    requires same { first.now ≡ x.now }
    requires alike { are_alike (link_of x.now first.now) ≡ true }
    ensures joined { OnOk result (Joins (link_of x.now first.now ∷ []) classes.now classes.now) }
    ensures known { OnOk result (IsKnown first.now classes.now) }
{
    if classes.is_whole_near(first, place) {
        Ok(())
    } else {
        Err(Memory)
    }
}

// The tokens are joined, if the characters of the first are those of whole tokens of the table, as those of the
// second are.
fn join_known<L: Ledger>(
    x: &Tok,
    y: &Tok,
    places: [usize; 2],
    classes: &mut Classes,
    blank: Blank,
) -> bool
    requires name { blank.name ≡ L.name }
    requires parts { blank.parts ≡ L.parts }
    requires some { 0 < blank.parts }
    requires equal { x.now.text ≡ y.now.text }
    requires whole { AreWhole classes.old y.now.origins }
    ensures { IsTrue result → JoinsPair x.now y.now classes.old classes.new }
{
    let mut steps = Steps::<L>::new(blank);
    classes.join_to(x, y, places[0], places[1], &mut steps)
}
