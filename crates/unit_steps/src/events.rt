// What happens while a unit is preprocessed.
ghost use Rattle.std.specs.Prelude.{◌≡◌, IfOk};

use cs_base::{Memory, Pos, Tok};
use macro_expand::shared;

/// What an event is.
#[derive(Clone, Copy, Debug, PartialEq, Eq)]
pub enum EventKind {
    /// A macro replaces the name.
    Replaced,
    /// A `define` line gives the name a meaning.
    Defined,
    /// An `undef` line takes it away.
    Undefined,
    /// An `ifdef` or `ifndef` line, or `defined`, asks whether the name has one.
    Tested,
    /// The name is left over in an evaluated controlling expression, where it counts as 0.
    Left,
    /// The items of an included file begin.
    Enter,
    /// They end.
    Leave,
    /// A line says that its file is read once.
    Once,
    /// The items of an included file are passed over, since it is read once.
    Passed,
}

/// An event: its name, which `Enter`, `Leave`, `Once` and `Passed` alone have none of; where it stands,
/// which is the `#` of the line for these four; of a replaced name, the position of the name in its
/// macro's definition, if it has one; of these four, the number of the file; and how many tokens of the
/// unit were put out before.
#[derive(Drop)]
pub struct Event {
    pub kind: EventKind,
    pub name: Option<Tok>,
    pub at: Pos,
    pub def: Option<Pos>,
    pub file: Option<u32>,
    pub before: u32,
}

/// An item that stands in a processed group: the number of its file and its own number there, from 0;
/// whether it is a condition that was evaluated; and how many events came, and tokens were put out,
/// before it.
#[derive(Clone, Copy, Debug, PartialEq, Eq)]
pub struct Reached {
    pub file: u32,
    pub item: u32,
    pub evaluated: bool,
    pub events: u32,
    pub before: u32,
}

impl Event {
    // The same event. Text and origins of its name are shared.
    pub(crate) fn copied(&self) -> Result<Event, Memory>
        ensures { IfOk result (λ event. event ≡ self.now) }
    {
        let name = match &self.name {
            Some(name) => Some(shared(name)?),
            None => None,
        };
        Ok(Event {
            kind: self.kind,
            name,
            at: self.at,
            def: self.def,
            file: self.file,
            before: self.before,
        })
    }
}
