// Opening a file of a unit.
ghost use Rattle.std.specs.Prelude.{◌≡◌, false, IfOk, IfErr, IsSome};
ghost use Rattle.std.specs.Str.{bytes_eq};
ghost use Rattle.lexer.specs.FileText.{file_text};
ghost use Rattle.source_files.specs.Limits.{the_limits};
ghost use Rattle.source_files.specs.Files.{lines_path};
ghost use Rattle.source_files.specs.Faults.{first_place};
ghost use Rattle.source_files.specs.Opening.{opening};
ghost use Rattle.source_files.specs.Answers.{IsNoReadFault, Keeps};
ghost use Rattle.source_files.specs.Sources.{source_at, GivesOpening};

use crate::cache::Cache;
use crate::pre_fault::PreFault;
use cs_base::{Memory, Place, Text};
use std::alloc::Global;

/// The number of the file of a path that was asked for; it is opened, and kept. A fault of opening it stands
/// at this place.
pub fn open_file(
    alloc: Global,
    cache: &mut Cache,
    path: &[u8],
    place: &Place,
) -> Result<u32, PreFault>
    requires other { bytes_eq path.now lines_path ≡ false }
    ensures answer { GivesOpening result (opening the_limits file_text place.now path.now cache.old.table) cache.new.table }
    ensures there { IfOk result (λ n. IsSome (source_at cache.new.table n)) }
    ensures keeps { Keeps cache.old cache.new }
    ensures no_read { IfErr result IsNoReadFault }
{
    cache.open(alloc, path, place)
}

/// Where a fault of opening a unit's own file stands.
pub fn first_place(alloc: Global, path: &[u8]) -> Result<Place, Memory>
    ensures { IfOk result (λ place. place ≡ first_place path.now) }
{
    Ok(Place {
        path: Text::new(alloc, path)?,
        line: 1,
        column: 1,
    })
}
