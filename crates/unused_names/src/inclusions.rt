// What the inclusions of a unit bring.
ghost use Rattle.std.specs.Prelude.{◌≡◌, ◌+◌, ◌^◌, ◌<◌, ◌≤◌, length};
ghost use Rattle.unused_names.specs.Inclusions.{end_of, is_enter, open_behind, tokens_before};

use analysis::{Event, EventKind, UnitText};

/// Whether the items of an included file begin.
pub fn is_enter(kind: EventKind) -> bool
    ensures { result ≡ is_enter kind }
{
    match kind {
        EventKind::Enter => true,
        _ => false,
    }
}

// How many inclusions are open behind an event, so many being open before it.
fn open_behind(kind: EventKind, inner: usize) -> Option<usize>
    requires { inner + 1 < 2 ^ 64 }
    ensures { result ≡ open_behind kind inner }
{
    match kind {
        EventKind::Enter => Some(inner + 1),
        EventKind::Leave => { if inner == 0 { None } else { Some(inner - 1) } }
        _ => Some(inner),
    }
}

/// The number of the event that ends the inclusion which an event begins.
pub fn end_of(events: &[Event], k: usize) -> usize
    requires { k < length events.now }
    ensures answer { result ≡ end_of events.now k }
    ensures within { result ≤ length events.now }
{
    let mut inner = 0usize;
    for number in k + 1..events.len() {
        let event = &events[number];
        match open_behind(event.kind, inner) {
            Some(now) => inner = now,
            None => return number,
        }
    }
    events.len()
}

/// How many tokens are put out before an event, or in all where there is no such event.
pub fn tokens_before(text: &UnitText, count: u32, k: usize) -> u32
    requires { count ≡ length text.now.toks }
    ensures { result ≡ tokens_before text.now k }
{
    let events = text.events();
    if k < events.len() {
        events[k].before
    } else {
        count
    }
}
