// Include lines (6.10.2): the file.
ghost use Rattle.std.specs.Prelude.{◌≡◌, true, false, IfOk, IfErr, IfSome, IsSome};
ghost use Rattle.std.specs.List.{list_all};
ghost use Rattle.std.specs.Str.{bytes_eq};
ghost use Rattle.cs_base.specs.Answer.{Gives};
ghost use Rattle.cs_base.specs.Outside.{ReadsOnly};
ghost use Rattle.source_files.specs.Below.lexer.FileText.{file_text};
ghost use Rattle.source_files.specs.Files.{Source, lines_path};
ghost use Rattle.source_files.specs.Limits.{the_limits};
ghost use Rattle.source_files.specs.Opening.{opening};
ghost use Rattle.source_files.specs.Faults.{place_in};
ghost use Rattle.unit_steps.specs.State.{State};
ghost use Rattle.source_files.specs.Search.{can_be_asked, behind_of, candidates_of, search};
ghost use Rattle.include_tree.specs.Including.{open_header};
ghost use Rattle.include_tree.specs.Asking.{is_there};
ghost use Rattle.source_files.specs.Answers.{fault_of, reads_of, IsNoReadFault, Keeps, ReadsOn};
ghost use Rattle.source_files.specs.Tables.{AreFound};
ghost use Rattle.source_files.specs.Sources.{source_kept, source_at, GivesOpening, opening_found};
ghost use Rattle.include_tree.specs.GivenFiles.{unit_context, GivesFile, opens_there, found_there, IsThere};

use crate::item_toks::source_of;
use cs_base::{Cause, Files, Memory, Place, Pos, Text, Tok, Unit};
use source_files::{
    Cache, Header, KeptFile, PreFault, behind_of, candidates_of, fault_there, header_in,
    header_of_toks, is_header, open_file, search,
};
use std::alloc::Global;
use unit_steps::{Progress, SourceText};

// What an include line asks for: the paths, and where a fault of opening one of them stands.
#[derive(Drop)]
pub struct Asked {
    pub paths: Vec<Text>,
    pub place: Place,
}

// What an include line of this file asks for, whose `#` is there.
fn asked_by(
    alloc: Global,
    file: &KeptFile,
    unit: &Unit,
    at: Pos,
    next: bool,
    header: &Header,
    behind: Option<u32>,
) -> Result<Asked, Memory>
    ensures can { IfOk result (λ a. list_all can_be_asked a.paths.items ≡ true) }
    ensures paths { IfOk result (λ a. IfSome (source_kept file.now) (λ source. a.paths.items ≡ candidates_of next header.now behind source.path unit.now)) }
    ensures place { IfOk result (λ a. IfSome (source_kept file.now) (λ source. a.place ≡ place_in source at)) }
{
    let source = source_of(file);
    let (line, column) = source.line_column(at);
    Ok(Asked {
        paths: candidates_of(alloc, next, header, behind, source.path, unit)?,
        place: Place {
            path: Text::new(alloc, source.path)?,
            line,
            column,
        },
    })
}

// What an include line of the kept file with this number asks for, whose `#` is there.
pub(crate) fn asked_in(
    alloc: Global,
    cache: &Cache,
    unit: &Unit,
    number: u32,
    at: Pos,
    next: bool,
    header: &Header,
    behind: Option<u32>,
) -> Result<Asked, Memory>
    requires kept { IsSome (source_at cache.now.table number) }
    ensures can { IfOk result (λ a. list_all can_be_asked a.paths.items ≡ true) }
    ensures paths { IfOk result (λ a. IfSome (source_at cache.now.table number) (λ source. a.paths.items ≡ candidates_of next header.now behind source.path unit.now)) }
    ensures place { IfOk result (λ a. IfSome (source_at cache.now.table number) (λ source. a.place ≡ place_in source at)) }
{
    match cache.file(number) {
        Some(file) => asked_by(alloc, file, unit, at, next, header, behind),
        None => unreachable!(),
    }
}

// The number of the first of these files that is there; it is opened.
fn open_asked<F: Files>(
    alloc: Global,
    cache: &mut Cache,
    files: &mut F,
    asked: &Asked,
) -> Result<u32, PreFault>
    requires can { list_all can_be_asked asked.now.paths.items ≡ true }
    ensures answer { (source : Source) → AreFound source cache.new.table →
        GivesOpening result (opening_found asked.now.place (search source asked.now.paths.items cache.old.table)) cache.new.table }
    ensures there { IfOk result (λ n. IsSome (source_at cache.new.table n)) }
    ensures reads { ReadsOn (F.told files.old).held cache.old cache.new }
    ensures faults { ReadsOnly (F.told files.old) (F.told files.new) (reads_of result) }
{
    match search(alloc, cache, files, asked.paths.as_slice()) {
        Ok(Some(i)) => open_file(alloc, cache, asked.paths[i].bytes(), &asked.place),
        Ok(None) => Err(fault_there(alloc, &asked.place, Cause::MissingFile)),
        Err(fault) => Err(fault),
    }
}

// A file that is there is opened.
fn open_there(
    alloc: Global,
    cache: &mut Cache,
    path: &[u8],
    place: &Place,
) -> Result<bool, PreFault>
    requires other { bytes_eq path.now lines_path ≡ false }
    ensures answer { Gives (λ b. (b, cache.new.table)) fault_of result (opens_there (opening the_limits file_text place.now path.now cache.old.table)) }
    ensures keeps { Keeps cache.old cache.new }
    ensures no_read { IfErr result IsNoReadFault }
{
    match open_file(alloc, cache, path, place) {
        Ok(_number) => Ok(true),
        Err(fault) => Err(fault),
    }
}

// Whether one of these files is there; the first that is there is opened.
fn there_asked<F: Files>(
    alloc: Global,
    cache: &mut Cache,
    files: &mut F,
    asked: &Asked,
) -> Result<bool, PreFault>
    requires can { list_all can_be_asked asked.now.paths.items ≡ true }
    ensures answer { (source : Source) → AreFound source cache.new.table →
        Gives (λ b. (b, cache.new.table)) fault_of result (found_there asked.now.place (search source asked.now.paths.items cache.old.table)) }
    ensures reads { ReadsOn (F.told files.old).held cache.old cache.new }
    ensures faults { ReadsOnly (F.told files.old) (F.told files.new) (reads_of result) }
{
    match search(alloc, cache, files, asked.paths.as_slice()) {
        Ok(Some(i)) => open_there(alloc, cache, asked.paths[i].bytes(), &asked.place),
        Ok(None) => Ok(false),
        Err(fault) => Err(fault),
    }
}

/// Whether the file of a header is there, for which a condition of file `number` asks; it is opened then. The `#` of the
/// line is there.
pub(crate) fn is_there<F: Files>(
    alloc: Global,
    cache: &mut Cache,
    files: &mut F,
    unit: &Unit,
    number: u32,
    at: Pos,
    next: bool,
    header: &Header,
    behind: Option<u32>,
) -> Result<bool, PreFault>
    requires kept { IsSome (source_at cache.old.table number) }
    ensures answer { (source : Source) → AreFound source cache.new.table → IfSome (source_at cache.old.table number) (λ file. (s : State) → s.table ≡ cache.old.table → s.behind ≡ behind →
        IsThere result (is_there (unit_context source unit.now cache.old.toks) file at next header.now s) cache.new.table s) }
    ensures reads { ReadsOn (F.told files.old).held cache.old cache.new }
    ensures faults { ReadsOnly (F.told files.old) (F.told files.new) (reads_of result) }
{
    match asked_in(alloc, cache, unit, number, at, next, header, behind) {
        Ok(asked) => there_asked(alloc, cache, files, &asked),
        Err(_) => Err(PreFault::Memory),
    }
}

/// The number of the file that a header names, which an include line of file `number` asks for; it is
/// opened. The `#` of the line is there.
pub(crate) fn open_header<F: Files>(
    alloc: Global,
    cache: &mut Cache,
    files: &mut F,
    unit: &Unit,
    number: u32,
    at: Pos,
    next: bool,
    header: &Header,
    behind: Option<u32>,
) -> Result<u32, PreFault>
    requires kept { IsSome (source_at cache.old.table number) }
    ensures answer { (source : Source) → AreFound source cache.new.table → IfSome (source_at cache.old.table number) (λ file. (s : State) → s.table ≡ cache.old.table → s.behind ≡ behind →
        GivesFile result (open_header (unit_context source unit.now cache.old.toks) file at next header.now s) cache.new.table s) }
    ensures there { IfOk result (λ n. IsSome (source_at cache.new.table n)) }
    ensures reads { ReadsOn (F.told files.old).held cache.old cache.new }
    ensures faults { ReadsOnly (F.told files.old) (F.told files.new) (reads_of result) }
{
    match asked_in(alloc, cache, unit, number, at, next, header, behind) {
        Ok(asked) => open_asked(alloc, cache, files, &asked),
        Err(_) => Err(PreFault::Memory),
    }
}

/// Where a search for the next file of the name begins in the kept file `found`, which a line of file `number` asked for.
pub(crate) fn behind_found(
    alloc: Global,
    cache: &Cache,
    unit: &Unit,
    number: u32,
    next: bool,
    header: &Header,
    behind: Option<u32>,
    found: u32,
) -> Result<Option<u32>, Memory>
    requires kept { IsSome (source_at cache.now.table number) }
    requires there { IsSome (source_at cache.now.table found) }
    ensures { IfOk result (λ k. IfSome (source_at cache.now.table number) (λ file. IfSome (source_at cache.now.table found) (λ inner.
        k ≡ behind_of next header.now behind file.path unit.now inner.path))) }
{
    match (cache.file(number), cache.file(found)) {
        (Some(file), Some(inner)) => behind_of(
            alloc,
            next,
            header,
            behind,
            source_of(file).path,
            unit,
            source_of(inner).path,
        ),
        _ => unreachable!(),
    }
}
