// The search for an included file (6.10.2).
ghost use Rattle.std.specs.Prelude.{◌≡◌, ◌<◌, true, not, None, IfOk, IfErr, OnOk, IfSome, get_or, length, []};
ghost use Rattle.std.specs.List.{list_all};
ghost use Rattle.std.specs.Option.{option_map};
ghost use Rattle.cs_base.specs.Outside.{ReadsOnly};
ghost use Rattle.source_files.specs.Files.{Source, asked, found_at};
ghost use Rattle.source_files.specs.Tables.{AreFound};
ghost use Rattle.source_files.specs.Search.{can_be_asked, searched, search};
ghost use Rattle.source_files.specs.Statuses.{is_missing};
ghost use Rattle.source_files.specs.Answers.{fault_of, reads_of, AsksOn};

use crate::cache::Cache;
use crate::pre_fault::PreFault;
use cs_base::{Files, Text};
use std::alloc::Global;
use std::str;

// Asks for a path that can be asked for.
pub fn ask_bytes<F: Files>(
    alloc: Global,
    cache: &mut Cache,
    files: &mut F,
    path: &[u8],
) -> Result<bool, PreFault>
    requires { can_be_asked path.now ≡ true }
    ensures answer { (source : Source) → AreFound source cache.new.table → OnOk result (cache.new.table ≡ asked source path.now cache.old.table) }
    ensures there { IfOk result (λ there. is_missing (found_at path.now cache.new.table) ≡ not there) }
    ensures asks { AsksOn (F.told files.old).held cache.old cache.new }
    ensures no_fault { IfErr result (λ e. fault_of e ≡ None) }
    ensures faults { ReadsOnly (F.told files.old) (F.told files.new) (reads_of result) }
{
    match str::from_utf8(path) {
        Ok(text) => cache.ask(alloc, files, text),
        Err(_) => unreachable!(),
    }
}

// The first of these paths that is there, by its place among them.
pub fn search<F: Files>(
    alloc: Global,
    cache: &mut Cache,
    files: &mut F,
    paths: &[Text],
) -> Result<Option<usize>, PreFault>
    requires { list_all can_be_asked paths.now ≡ true }
    ensures answer { (source : Source) → AreFound source cache.new.table → IfOk result (λ at. search source paths.now cache.old.table ≡ searched (option_map (λ i. get_or paths.now i []) at) cache.new.table) }
    ensures within { IfOk result (λ at. IfSome at (λ i. i < length paths.now)) }
    ensures asks { AsksOn (F.told files.old).held cache.old cache.new }
    ensures no_fault { IfErr result (λ e. fault_of e ≡ None) }
    ensures faults { ReadsOnly (F.told files.old) (F.told files.new) (reads_of result) }
{
    for i in 0..paths.len() {
        match ask_bytes(alloc, cache, files, paths[i].bytes()) {
            Ok(there) => {
                if there {
                    return Ok(Some(i));
                }
            }
            Err(fault) => return Err(fault),
        }
    }
    Ok(None)
}
