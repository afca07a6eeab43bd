// The external names of one unit.
ghost use Rattle.std.specs.Prelude.{◌≡◌};

use cs_base::{Text, Tok, Toks};
use std::marker::Model;

/// A unit: its project, and the first token of each of its external names.
#[derive(Drop)]
pub struct UnitNames {
    project: Text,
    names: Toks,
}

impl Model for UnitNames {
    ghost use Rattle.linkage_join.specs.Linkage.{UnitValue, unit};

    ghost Value = { UnitValue };

    ghost view = { λ u. unit u.project u.names };
}

impl UnitNames {
    ghost use Rattle.linkage_join.specs.Linkage.{unit};

    /// A unit of these parts.
    pub fn new(project: Text, names: Toks) -> UnitNames
        ensures { result ≡ unit project names }
    {
        UnitNames { project, names }
    }

    pub(crate) fn project(&self) -> &[u8]
        ensures { result.now ≡ self.now.project }
    {
        self.project.bytes()
    }

    pub(crate) fn names(&self) -> &[Tok]
        ensures { result.now ≡ self.now.names }
    {
        self.names.as_slice()
    }
}
