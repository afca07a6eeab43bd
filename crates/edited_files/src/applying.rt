// Putting edits into files: the one place of the program that writes them.
ghost use Rattle.cs_base.specs.Edit.{with_edits};
ghost use Rattle.edited_files.specs.Applying.{Applies, AppliesCounts};

use cs_base::{Edits, Files, Put};

/// How putting the edits ended: all of them, or so many before the put that failed.
#[derive(Clone, Copy, Debug, PartialEq, Eq)]
pub enum Applied {
    Done,
    Failed { written: u32 },
}

/// Puts each edit in order of path, and stops at the first put that fails. Takes no memory.
pub fn apply<F: Files>(edits: &Edits, files: &mut F) -> Applied
    ensures held { Applies edits.now (F.told files.old).held (F.told files.new).held result }
    ensures faults { AppliesCounts edits.now (F.told files.old) (F.told files.new) result }
{
    for k in 0..edits.len() {
        match files.put(edits.path_text(k), edits.bytes(k)) {
            Put::Done => {}
            Put::Failed => return Applied::Failed { written: k },
        }
    }
    Applied::Done
}
