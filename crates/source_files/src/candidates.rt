// Where an included file is looked for (6.10.2 paragraphs 2 and 3).
ghost use Rattle.std.specs.Prelude.{◌≡◌, ◌++◌, ◌∷◌, [], IfOk, drop, filter, map};
ghost use Rattle.std.specs.Str.{is_utf8, bytes_eq};
ghost use Rattle.cs_base.specs.Paths.{is_absolute, joined_path_of};
ghost use Rattle.source_files.specs.Search.{directory_of, or_root, can_be_asked, places_from, all_places, passed_for, paths_in, candidates_of, behind_in, behind_of};

use crate::header::Header;
use cs_base::{Memory, Text, Unit, normal_path};
use std::alloc::Global;
use std::str;

// The directory of a file: the empty one where its path has no `/`.
fn directory_of(path: &[u8]) -> &[u8]
    ensures { result.now ≡ directory_of path.now }
{
    let mut end = path.len();
    'bytes: while end > 0 {
        if path[end - 1] == b'/' {
            return or_root(&path[..end - 1]);
        }
        end -= 1;
    }
    b""
}

// The directory that these bytes before the last `/` name.
fn or_root(front: &[u8]) -> &[u8]
    ensures { result.now ≡ or_root front.now }
{
    match front {
        [] => b"/",
        _ => front,
    }
}

fn is_absolute(name: &[u8]) -> bool
    ensures { result ≡ is_absolute name.now }
{
    match name {
        [first, ..] => *first == b'/',
        [] => false,
    }
}

fn is_empty(directory: &[u8]) -> bool
    ensures { result ≡ bytes_eq directory.now [] }
{
    directory == b"".as_slice()
}

// A name joined to a directory and normalised.
fn joined_path(alloc: Global, directory: &[u8], name: &[u8]) -> Result<Text, Memory>
    ensures { IfOk result (λ t. t ≡ joined_path_of directory.now name.now) }
{
    if is_empty(directory) || is_absolute(name) {
        return normal_path(alloc, name);
    }
    let mut path = Vec::from_slice(alloc, directory)?;
    path.push(b'/')?;
    path.extend_from_slice(name)?;
    normal_path(alloc, &path)
}

fn is_text(path: &[u8]) -> bool
    ensures { result ≡ is_utf8 path.now }
{
    match str::from_utf8(path) {
        Ok(_text) => true,
        Err(_) => false,
    }
}

// A path that can be asked for.
fn can_be_asked(path: &[u8]) -> bool
    ensures { result ≡ can_be_asked path.now }
{
    match path {
        [first, ..] => is_text(path) && *first != b'<',
        [] => is_text(path),
    }
}

// Adds the path of a name in a directory, if it can be asked for.
fn add_candidate(
    alloc: Global,
    all: &mut Vec<Text>,
    directory: &[u8],
    name: &[u8],
) -> Result<(), Memory>
    ensures { IfOk result (λ _. all.new.items ≡ all.old.items ++ filter can_be_asked (joined_path_of directory.now name.now ∷ [])) }
{
    let path = joined_path(alloc, directory, name)?;
    if can_be_asked(path.bytes()) {
        all.push(path)?;
    }
    Ok(())
}

// Adds those of a name in directories.
fn add_candidates(
    alloc: Global,
    all: &mut Vec<Text>,
    directories: &[Text],
    name: &[u8],
) -> Result<(), Memory>
    ensures { IfOk result (λ _. all.new.items ≡ all.old.items ++ filter can_be_asked (map (λ d. joined_path_of d name.now) directories.now)) }
{
    for directory in directories {
        add_candidate(alloc, all, directory.bytes(), name)?;
    }
    Ok(())
}

// Those behind so many of them.
fn behind(directories: &[Text], passed: usize) -> &[Text]
    ensures { result.now ≡ drop passed directories.now }
{
    if passed < directories.len() {
        &directories[passed..]
    } else {
        &[]
    }
}

// Adds those in the directories of a unit, so many of which are passed over.
fn add_behind(
    alloc: Global,
    all: &mut Vec<Text>,
    unit: &Unit,
    passed: usize,
    name: &[u8],
) -> Result<(), Memory>
    ensures { IfOk result (λ _. all.new.items ≡ all.old.items ++ paths_in name.now (drop passed (all_places unit.now))) }
{
    let left = passed.saturating_sub(unit.qpath().len());
    add_candidates(alloc, all, behind(unit.qpath(), passed), name)?;
    add_candidates(alloc, all, behind(unit.ipath(), left), name)?;
    Ok(())
}

// How many of the directories of a unit are passed over, where a search goes through these alone; none where the directory of
// the file is asked first.
fn passed_over(next: bool, header: &Header, behind: Option<u32>, unit: &Unit) -> Option<usize>
    ensures { result ≡ passed_for next header.now behind unit.now }
{
    match behind {
        Some(behind) if next => Some(behind as usize),
        _ if header.quoted() => None,
        _ => Some(unit.qpath().len()),
    }
}

/// The paths that are asked for by a line of a file of this path, in order: by one that asks for the next file of the name,
/// those behind the directory in which the present file was found, where that is known.
pub fn candidates_of(
    alloc: Global,
    next: bool,
    header: &Header,
    behind: Option<u32>,
    path: &[u8],
    unit: &Unit,
) -> Result<Vec<Text>, Memory>
    ensures { IfOk result (λ all. all.items ≡ candidates_of next header.now behind path.now unit.now) }
{
    let mut all = Vec::new(alloc);
    match passed_over(next, header, behind, unit) {
        Some(passed) => add_behind(alloc, &mut all, unit, passed, header.name())?,
        None => {
            add_candidate(alloc, &mut all, directory_of(path), header.name())?;
            add_behind(alloc, &mut all, unit, 0, header.name())?;
        }
    }
    Ok(all)
}

// Whether a name in a directory is this path.
fn is_path_in(alloc: Global, directory: &[u8], name: &[u8], path: &[u8]) -> Result<bool, Memory>
    ensures { IfOk result (λ b. b ≡ bytes_eq (joined_path_of directory.now name.now) path.now) }
{
    let joined = joined_path(alloc, directory, name)?;
    Ok(joined.bytes() == path)
}

// The first of directories, so many standing before them, in which a name is this path: how many stand to its end. More of
// them than a number says, which no unit has, are answered by `Memory`.
fn place_in(
    alloc: Global,
    before: usize,
    directories: &[Text],
    name: &[u8],
    path: &[u8],
) -> Result<Option<usize>, Memory>
    ensures { IfOk result (λ k. k ≡ behind_in name.now path.now (places_from before directories.now)) }
{
    let mut at = before;
    for directory in directories {
        if at == usize::MAX {
            return Err(Memory);
        }
        at += 1;
        if is_path_in(alloc, directory.bytes(), name, path)? {
            return Ok(Some(at));
        }
    }
    Ok(None)
}

// The same among the directories of a unit, so many of which are passed over.
fn place_behind(
    alloc: Global,
    unit: &Unit,
    passed: usize,
    name: &[u8],
    path: &[u8],
) -> Result<Option<usize>, Memory>
    ensures { IfOk result (λ k. k ≡ behind_in name.now path.now (drop passed (all_places unit.now))) }
{
    let quoted = unit.qpath().len();
    let left = passed.saturating_sub(quoted);
    match place_in(alloc, passed, behind(unit.qpath(), passed), name, path)? {
        Some(k) => Ok(Some(k)),
        None => {
            let before = passed.max(quoted);
            let later = place_in(alloc, before, behind(unit.ipath(), left), name, path)?;
            Ok(later)
        }
    }
}

/// Where a search for the next file of the name begins in a file of this path that was found so. More than 2^32
/// directories, which no unit has, are answered by `Memory`.
pub fn behind_of(
    alloc: Global,
    next: bool,
    header: &Header,
    behind: Option<u32>,
    path: &[u8],
    unit: &Unit,
    found: &[u8],
) -> Result<Option<u32>, Memory>
    ensures { IfOk result (λ k. k ≡ behind_of next header.now behind path.now unit.now found.now) }
{
    if !unit.standard().is_gnu() || is_absolute(header.name()) {
        return Ok(None);
    }
    let place = match passed_over(next, header, behind, unit) {
        Some(passed) => place_behind(alloc, unit, passed, header.name(), found)?,
        None => {
            if is_path_in(alloc, directory_of(path), header.name(), found)? {
                Some(0)
            } else {
                place_behind(alloc, unit, 0, header.name(), found)?
            }
        }
    };
    match place {
        Some(k) if k > u32::MAX as usize => Err(Memory),
        Some(k) => Ok(Some(k as u32)),
        None => Ok(None),
    }
}
