// The include lines with which the file of a unit begins, where their files are known: no path is asked for.
ghost use Rattle.std.specs.Prelude.{◌≡◌, ℕ, List, IfOk, IfSome, IsSome, Some};
ghost use Rattle.source_files.specs.Files.{number_at};
ghost use Rattle.include_tree.specs.ItemTexts.{item_in};
ghost use Rattle.include_tree.specs.Leads.{KnowsPath, IsKnownFile, IsFirstHeader, IsWritten, OpensLead, IsLead, AreLeads};
ghost use Rattle.source_files.specs.Sources.{source_at};

use crate::including::{asked_in, behind_found};
use crate::item_toks::{ItemToks, item_at, source_of};
use crate::walking::{item_count, kept_file};
use cs_base::{Memory, Pos, Text, Tok, Unit};
use source_files::{Cache, Header, ItemKind, header_in, is_header};
use std::alloc::Global;
use unit_steps::behind_word;

/// Such a line: where its `#` stands, the number of its file, and where a search for the next file of the name begins in that.
#[derive(Clone, Copy)]
pub struct Lead {
    pub at: Pos,
    pub number: u32,
    pub behind: Option<u32>,
}

// What is known of a path: the number of its kept file; that no file was there; or neither.
#[derive(Clone, Copy)]
pub enum Known {
    Kept(u32),
    Absent,
    Unknown,
}

// What is known of a path that has this number.
fn known_number(cache: &Cache, number: u32) -> Known
    ensures { (path : List ℕ) → number_at path cache.now.table ≡ Some number → KnowsPath result cache.now.table path }
{
    match cache.file(number) {
        Some(file) => {
            let _source = source_of(file);
            Known::Kept(number)
        }
        None => match cache.absent(number) {
            Some(_path) => Known::Absent,
            None => Known::Unknown,
        },
    }
}

// What is known of a path.
fn known_path(cache: &Cache, path: &[u8]) -> Known
    ensures { KnowsPath result cache.now.table path.now }
{
    match cache.number(path) {
        Some(number) => known_number(cache, number),
        None => Known::Unknown,
    }
}

// The number of the kept file of the first of these paths that is there, where it is known that none was at those before.
fn known_file(cache: &Cache, paths: &[Text]) -> Option<u32>
    ensures { IfSome result (λ n. IsKnownFile cache.now.table paths.now n) }
{
    for k in 0..paths.len() {
        match known_path(cache, paths[k].bytes()) {
            Known::Kept(number) => return Some(number),
            Known::Absent => {}
            Known::Unknown => return None,
        }
    }
    None
}

// The header of an include line that names it as it stands.
fn header_written(alloc: Global, item: &ItemToks) -> Result<Option<Header>, Memory>
    ensures { IfOk result (λ o. IfSome o (λ h. IsWritten (item_in item.now) h)) }
{
    match item.kind {
        ItemKind::Include => header_first(alloc, behind_word(item.toks)),
        _ => Ok(None),
    }
}

// The header that is the first of these tokens.
fn header_first(alloc: Global, toks: &[Tok]) -> Result<Option<Header>, Memory>
    ensures { IfOk result (λ o. IfSome o (λ h. IsFirstHeader toks.now h)) }
{
    match toks {
        [first, ..] => {
            if is_header(first) {
                Ok(Some(header_in(alloc, first.text())?))
            } else {
                Ok(None)
            }
        }
        [] => Ok(None),
    }
}

// The file of a header for which a line of file `main` asks, whose `#` is there, if it is known.
fn lead_to(
    alloc: Global,
    cache: &Cache,
    unit: &Unit,
    main: u32,
    at: Pos,
    header: &Header,
) -> Result<Option<Lead>, Memory>
    requires kept { IsSome (source_at cache.now.table main) }
    ensures { IfOk result (λ o. IfSome o (λ l. (l.at ≡ at) × IfSome (source_at cache.now.table main) (λ file. OpensLead unit.now cache.now.table file at header.now l))) }
{
    let asked = asked_in(alloc, cache, unit, main, at, false, header, None)?;
    match known_file(cache, asked.paths.as_slice()) {
        Some(number) => {
            let behind = behind_found(alloc, cache, unit, main, false, header, None, number)?;
            Ok(Some(Lead { at, number, behind }))
        }
        None => Ok(None),
    }
}

/// Item number `k` of file `main`, if it is such a line.
pub(crate) fn lead_at(
    alloc: Global,
    cache: &Cache,
    unit: &Unit,
    main: u32,
    k: u32,
) -> Result<Option<Lead>, Memory>
    requires kept { IsSome (source_at cache.now.table main) }
    ensures { IfOk result (λ o. IfSome o (λ l. IfSome (source_at cache.now.table main) (λ file. IsLead unit.now cache.now.table file k l))) }
{
    match item_at(kept_file(cache, main), k) {
        Some(item) => match header_written(alloc, &item)? {
            Some(header) => lead_to(alloc, cache, unit, main, item.at, &header),
            None => Ok(None),
        },
        None => Ok(None),
    }
}

/// The lines of this kind with which file `main` begins.
pub(crate) fn leads_of(
    alloc: Global,
    cache: &Cache,
    unit: &Unit,
    main: u32,
) -> Result<Vec<Lead>, Memory>
    requires kept { IsSome (source_at cache.now.table main) }
    ensures { IfOk result (λ all. IfSome (source_at cache.now.table main) (λ file. AreLeads unit.now cache.now.table file 0 all.items)) }
{
    let mut all = Vec::new(alloc);
    let count = item_count(cache, main)?;
    for k in 0..count {
        match lead_at(alloc, cache, unit, main, k)? {
            Some(lead) => all.push(lead)?,
            None => return Ok(all),
        }
    }
    Ok(all)
}
