// Where numbers of a unit are brought, which GNU C has.
ghost use Rattle.std.specs.Prelude.{◌≡◌, ◌<◌, ◌≤◌, ℕ, true, false, MatchBool, length};
ghost use Rattle.unused_names.specs.Unneeded.{brings_number, counts_at};

use analysis::{Event, EventKind};

// Whether an event replaces `__COUNTER__` by the next number of the unit.
fn brings_number(event: &Event) -> bool
    ensures { result ≡ brings_number event.now.kind event.now.def event.now.name }
{
    match event.kind {
        EventKind::Replaced => {
            if event.def.is_some() {
                return false;
            }
            match &event.name {
                Some(name) => name.text() == b"__COUNTER__".as_slice(),
                None => false,
            }
        }
        _ => false,
    }
}

// Whether event `i` does.
fn counts_at(events: &[Event], i: usize) -> bool
    requires { i < length events.now }
    ensures { result ≡ counts_at events.now i }
{
    brings_number(&events[i])
}

/// Whether some event behind event `k` and before number `end` brings a number of the unit.
pub(crate) fn any_counts(events: &[Event], k: usize, end: usize) -> bool
    requires within { end ≤ length events.now }
    requires begins { k < length events.now }
    ensures { MatchBool result ((i : ℕ) × (k < i) × (i < end) × (counts_at events.now i ≡ true))
        ((i : ℕ) → k < i → i < end → counts_at events.now i ≡ false) }
{
    for i in k + 1..end {
        if counts_at(events, i) {
            return true;
        }
    }
    false
}
