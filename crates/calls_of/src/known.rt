// What is known of all units.
ghost use Rattle.std.specs.Prelude.{◌≡◌, IfOk};
ghost use Rattle.std.specs.Option.{option_copied, option_and_then};
ghost use Rattle.cs_base.specs.Token.{origin_at};
ghost use Rattle.calls_of.specs.InUnits.{owner_by, first_by, AreKnown};

use crate::firsts::Firsts;
use crate::owners::Owners;
use analysis::AllUnits;
use cs_base::{Memory, Tok, Unit};
use std::alloc::Global;

/// The macros in whose replacement lists positions stand, and the first tokens of external names.
#[derive(Drop)]
pub(crate) struct Known<'a> {
    owners: Owners<'a>,
    firsts: Firsts<'a>,
}

impl<'a> Known<'a> {
    /// Of an analysis, the units of whose workspace are these.
    pub(crate) fn of(
        alloc: Global,
        units: &'a [Unit],
        all: &'a AllUnits<'_>,
    ) -> Result<Known<'a>, Memory>
        requires { all.now.value.workspace.units ≡ units.now }
        ensures { IfOk result (AreKnown all.now.value) }
    {
        let a = all.analysis();
        let read = all.units();
        let owners = Owners::of(alloc, a)?;
        let firsts = Firsts::of(alloc, units, read)?;
        Ok(Known { owners, firsts })
    }

    /// The name of the macro in whose replacement list a name stands.
    pub(crate) fn owner(&self, tok: &Tok) -> Option<&'a Tok>
        ensures { option_copied result ≡ option_and_then (owner_by self.now) (origin_at tok.now 0) }
    {
        match tok.origins(0) {
            Some(pos) => self.owners.at(pos),
            None => None,
        }
    }

    /// The first token of an external name of this spelling in a project.
    pub(crate) fn first(&self, project: &'a [u8], text: &'a [u8]) -> Option<&'a Tok>
        ensures { option_copied result ≡ first_by self.now project.now text.now }
    {
        self.firsts.first(project, text)
    }
}
