// Texts of units that stay as they are behind a renaming.
ghost use Rattle.std.specs.Prelude.{◌≡◌, IsTrue, map};
ghost use Rattle.std.specs.Option.{option_map};
ghost use Rattle.analysis.specs.Changed.{renamed_event, renamed_text, renamed_token};
ghost use Rattle.offences.specs.Moves.{move_by, renaming_by};

use analysis::{Event, UnitText};
use cs_base::{Pos, Tok};
use offences::{Moves, links_stay, stays, toks_stay};

#[tactic(auto, using(crate::proofs::TextLemmas::text_same))]
/// Whether a text does, each token, link and event of it.
pub(crate) fn text_stays(moves: &Moves, text: &UnitText) -> bool
    ensures { IsTrue result → renamed_text (renaming_by moves.now) text.now ≡ text.now }
{
    toks_stay(moves, text.toks())
        && links_stay(moves, text.links())
        && toks_stay(moves, text.pasted())
        && toks_stay(moves, text.stringized())
        && toks_stay(moves, text.header())
        && toks_stay(moves, text.answers())
        && events_stay(moves, text.events())
}

fn events_stay(moves: &Moves, events: &[Event]) -> bool
    ensures { IsTrue result → map (renamed_event (renaming_by moves.now)) events.now ≡ events.now }
{
    for event in events {
        if !event_stays(moves, event) {
            return false;
        }
    }
    true
}

#[tactic(auto, using(crate::proofs::TextLemmas::event_same))]
fn event_stays(moves: &Moves, event: &Event) -> bool
    ensures { IsTrue result → renamed_event (renaming_by moves.now) event.now ≡ event.now }
{
    moves.keeps(event.at) && def_stays(moves, event.def) && name_stays(moves, &event.name)
}

fn def_stays(moves: &Moves, def: Option<Pos>) -> bool
    ensures { IsTrue result → option_map (move_by moves.now) def ≡ def }
{
    match def {
        Some(p) => moves.keeps(p),
        None => true,
    }
}

fn name_stays(moves: &Moves, name: &Option<Tok>) -> bool
    ensures { IsTrue result → option_map (renamed_token (renaming_by moves.now)) name.now ≡ name.now }
{
    match name {
        Some(tok) => stays(moves, tok),
        None => true,
    }
}
