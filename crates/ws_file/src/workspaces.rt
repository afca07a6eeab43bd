// Workspaces as values.
ghost use Rattle.std.specs.Prelude.{◌≡◌, IfOk};

use crate::copies::{copied_texts, copied_units};
use cs_base::{Memory, Text, Unit};
use std::alloc::Global;
use std::marker::Model;

/// A workspace. Contracts see the record of its units and prefixes.
#[derive(Drop)]
pub struct Workspace {
    units: Vec<Unit>,
    readonly: Vec<Text>,
}

impl Model for Workspace {
    ghost use Rattle.ws_file.specs.Workspace.{WorkspaceValue, workspace, IsWorkspace};

    ghost Value = { WorkspaceValue };

    ghost view = { λ w. workspace w.units.items w.readonly.items };

    ghost invariant = { λ w. IsWorkspace (workspace w.units.items w.readonly.items) };
}

impl Workspace {
    ghost use Rattle.ws_file.specs.Workspace.{workspace, IsWorkspace};

    /// A workspace of these units, numbered from 1, and prefixes.
    pub fn new(units: Vec<Unit>, readonly: Vec<Text>) -> Workspace
        requires sound { IsWorkspace (workspace units.items readonly.items) }
        ensures answer { result ≡ workspace units.items readonly.items }
    {
        Workspace { units, readonly }
    }

    /// The units in order.
    pub fn units(&self) -> &[Unit]
        ensures answer { result.now ≡ self.now.units }
        ensures sound { IsWorkspace self.now }
    {
        self.units.as_slice()
    }

    /// The prefixes of read-only paths.
    pub fn readonly(&self) -> &[Text]
        ensures answer { result.now ≡ self.now.readonly }
        ensures sound { IsWorkspace self.now }
    {
        self.readonly.as_slice()
    }

    /// An equal workspace.
    pub fn copy(&self, alloc: Global) -> Result<Workspace, Memory>
        ensures { IfOk result (λ ws. ws ≡ self.now) }
    {
        let units = copied_units(alloc, self.units())?;
        let readonly = copied_texts(alloc, self.readonly())?;
        Ok(Workspace::new(units, readonly))
    }
}
