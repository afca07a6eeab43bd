// Files in memory no read of which fails.
ghost use Rattle.std.specs.Prelude.{◌≡◌, [], Some};
ghost use Rattle.cs_base.specs.Outside.{GivesHeld, ReadsOnly, read_end, Puts, PutsOnly, put_failed};
ghost use Rattle.generated.specs.Unfailing.{told_unfailing};

use cs_base::{Files, Got, MemFiles, Put};
use std::alloc::Global;
use std::marker::Model;

/// Files in memory that were told to let no call fail. So none of their reads does: their count stays at nought, and an
/// answer for a read that failed never comes over them.
#[derive(Drop)]
pub struct Unfailing {
    files: MemFiles,
}

impl Model for Unfailing {
    ghost use Rattle.std.specs.Prelude.{◌≡◌, []};
    ghost use Rattle.cs_base.specs.World.{World};

    ghost Value = { World };

    ghost view = { λ u. u.files };

    ghost invariant = { λ u. u.files.fails ≡ [] };
}

impl Unfailing {
    /// These files.
    pub fn new(files: MemFiles) -> Unfailing
        requires { files.fails ≡ [] }
        ensures { result ≡ files }
    {
        Unfailing { files }
    }
}

impl Files for Unfailing {
    ghost told = { told_unfailing };

    fn read(&mut self, alloc: Global, path: &str) -> Got
        ensures answer { GivesHeld path.now self.old.files result }
        ensures faults { ReadsOnly (told_unfailing self.old) (told_unfailing self.new) (read_end path.now result) }
    {
        self.files.read(alloc, path)
    }

    fn put(&mut self, path: &str, bytes: &[u8]) -> Put
        ensures held { Puts path.now bytes.now (Some self.old.files) (Some self.new.files) result }
        ensures faults { PutsOnly path.now (put_failed result) (told_unfailing self.old) (told_unfailing self.new) }
    {
        self.files.put(path, bytes)
    }
}
