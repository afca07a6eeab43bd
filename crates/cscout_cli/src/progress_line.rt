// The line on a terminal that says which file is being read, where a run takes long.
ghost use Rattle.std.specs.Prelude.{◌≤◌, length};

use std::cell::Cell;
use std::io::{IsTerminal, Write};
use std::time::Instant;

// A run that ends before so many milliseconds has no line.
const QUIET: u128 = 2_000;

// So many each line stands at least, so that it can be read.
const PAUSE: u128 = 200;

// More characters of a path are not shown: a line that is wiped must not be wrapped.
const MOST_SHOWN: usize = 60;

// It covers what stands on the line, and leaves the cursor at its begin, also where a terminal knows no escape sequence.
const BLANK: &[u8] = b"\r                                                                     \r";

/// Which file is being read: on standard error, if that is a terminal, from two seconds on. The line has no line feed;
/// who writes something wipes it first.
#[derive(Drop)]
pub(crate) struct Progress<'a> {
    rt: &'a HostRuntime,
    // Nothing where no line will ever stand.
    start: Option<Instant>,
    told: Cell<u128>,
    stands: Cell<bool>,
}

impl<'a> Progress<'a> {
    /// A run begins.
    pub(crate) fn new(rt: &'a HostRuntime) -> Progress<'a> {
        Progress {
            rt,
            start: start_of(rt),
            told: Cell::new(0),
            stands: Cell::new(false),
        }
    }

    /// This file is being read.
    pub(crate) fn tell(&self, path: &str) {
        let Some(millis) = self.millis() else {
            return;
        };
        if millis >= QUIET && millis.saturating_sub(self.told.get()) >= PAUSE {
            self.wipe();
            self.told.set(millis);
            self.stands.set(true);
            write_line(self.rt, path.as_bytes());
        }
    }

    /// The line goes, if one stands.
    pub(crate) fn wipe(&self) {
        if self.stands.get() {
            self.stands.set(false);
            let _ = self.rt.stderr().write_all(BLANK);
        }
    }

    // How many milliseconds the run has taken.
    fn millis(&self) -> Option<u128> {
        let elapsed = self.start?.elapsed(self.rt).ok()?;
        Some(elapsed.as_millis())
    }
}

// When the run began, if standard error is a terminal.
fn start_of(rt: &HostRuntime) -> Option<Instant> {
    if rt.stderr().is_terminal() {
        Instant::now(rt).ok()
    } else {
        None
    }
}

// Writes the line of a path at once. Nothing comes of it where that fails.
fn write_line(rt: &HostRuntime, path: &[u8]) {
    let mut line = *b"reading                                                             ";
    let shown = end_of(path);
    for k in 0..shown.len() {
        line[8 + k] = visible(shown[k]);
    }
    let _ = rt.stderr().write_all(&line[..8 + shown.len()]);
}

// The last characters of a path.
fn end_of(path: &[u8]) -> &[u8]
    ensures { length result.now ≤ 60 }
{
    if path.len() > MOST_SHOWN {
        &path[path.len() - MOST_SHOWN..]
    } else {
        path
    }
}

// A path may have bytes that a terminal takes for something else than a character of one column.
fn visible(byte: u8) -> u8
    ensures { (32 ≤ result) × (result ≤ 126) }
{
    if byte.is_ascii_graphic() || byte == b' ' {
        byte
    } else {
        b'?'
    }
}
