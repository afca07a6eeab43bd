// Where the characters of all files stand behind a renaming, and what stands for them.
ghost use Rattle.std.specs.Prelude.{◌≡◌, ◌<◌, ◌≤◌, ◌+◌, ◌^◌, ◌++◌, ◌∷◌, [], List, IfOk, IsTrue, OnOk, Some, filter, length, nat_lt, option_copied};
ghost use Rattle.cs_base.specs.declared.positions.Part.{Part as APart};
ghost use Rattle.analysis.specs.Below.source_files.KeptFiles.{kept_at};
ghost use Rattle.offences.specs.Class.{IsFree};
ghost use Rattle.offences.specs.Moves.{AreMoves, AreMovesTo, ArePuts, AreTables, IsOf, IsStillTo, file_at, is_outside, move_by, place_in, put_at, put_in, put_of, put_told, size_of, table_size, text_in};

use crate::puts::{Put, puts};
use analysis::{Analysis, KeptFile};
use cs_base::{Memory, Part, Pos};
use eclass_map::part_holds;
use std::alloc::Global;

/// Of each character of a file what stands for it, and where it stands then; and where the text ends. Where no member
/// stands in the file, each character stays, and only the end is told.
#[derive(Drop)]
pub struct FileMove {
    pub still: bool,
    pub puts: Vec<Put>,
    pub places: Vec<u32>,
    pub end: u32,
}

/// The same for each file with this number that is kept, the new name, and the members that reach past these tables.
#[derive(Drop)]
pub struct Moves {
    pub files: Vec<Option<FileMove>>,
    pub name: Vec<u8>,
    pub others: Vec<Part>,
}

// What stands for a character by these members.
fn put_by(members: &[Part], p: Pos) -> Put
    ensures { result ≡ put_at members.now p }
{
    for part in members {
        if part_holds(*part, p) {
            return put_of(*part, p);
        }
    }
    Put::Character
}

// What stands for a character of a member.
fn put_of(part: Part, p: Pos) -> Put
    ensures { result ≡ put_of p part }
{
    if part.start.at == p.at {
        Put::Name
    } else {
        Put::Nothing
    }
}

impl Moves {
    // The tables of a file, if it has some.
    pub(crate) fn file(&self, number: u32) -> Option<&FileMove>
        ensures { option_copied result ≡ file_at self.now number }
    {
        if (number as usize) < self.files.len() {
            self.files[number as usize].as_ref()
        } else {
            None
        }
    }

    /// What stands for a character.
    pub fn put(&self, p: Pos) -> Put
        ensures { result ≡ put_told self.now p }
    {
        match self.file(p.file) {
            Some(file) => self.put_within(file, p),
            None => put_by(&self.others, p),
        }
    }

    // The same by the tables of its file.
    fn put_within(&self, file: &FileMove, p: Pos) -> Put
        ensures { result ≡ put_in self.now.others.items (Some file.now) p }
    {
        if (p.at as usize) < file.puts.len() {
            file.puts[p.at as usize]
        } else {
            put_by(&self.others, p)
        }
    }

    /// Whether a position stays.
    pub fn keeps(&self, p: Pos) -> bool
        ensures { IsTrue result → move_by self.now p ≡ p }
    {
        self.moved(p).at == p.at
    }

    /// Where a position moves.
    pub fn moved(&self, p: Pos) -> Pos
        ensures { result ≡ move_by self.now p }
    {
        match self.file(p.file) {
            Some(file) => Pos {
                file: p.file,
                at: place_in(file, p.at),
            },
            None => p,
        }
    }
}

fn place_in(file: &FileMove, at: u32) -> u32
    ensures { result ≡ place_in (Some file.now) at }
{
    if file.still {
        return at.min(file.end);
    }
    if (at as usize) < file.places.len() {
        file.places[at as usize]
    } else {
        file.end
    }
}

/// The tables of the members of a class, which get this name. A text of 2^32 characters is answered by `Memory`.
pub fn class_moves(
    alloc: Global,
    a: &Analysis,
    members: &[Part],
    name: &[u8],
) -> Result<Moves, Memory>
    ensures { IfOk result (λ m. AreMoves a.now.value.table members.now name.now m) }
{
    let files = all_moves(alloc, a, members, name)?;
    let others = others(alloc, &files, members)?;
    Ok(Moves {
        files,
        name: Vec::from_slice(alloc, name)?,
        others,
    })
}

// The tables of all files.
fn all_moves(
    alloc: Global,
    a: &Analysis,
    members: &[Part],
    name: &[u8],
) -> Result<Vec<Option<FileMove>>, Memory>
    ensures { IfOk result (λ files. AreMovesTo a.now.value.table members.now name.now (length a.now.value.table) files.items) }
{
    let mut files = Vec::new(alloc);
    for number in 0..a.files() {
        files.push(file_moves(alloc, a, number, members, name)?)?;
    }
    Ok(files)
}

// The members that reach past the tables: none of them stands in a file, as a number of a line does.
fn others(alloc: Global, files: &[Option<FileMove>], members: &[Part]) -> Result<Vec<Part>, Memory>
    ensures { IfOk result (λ o. o.items ≡ filter (is_outside files.now) members.now) }
{
    let mut others = Vec::new(alloc);
    for part in members {
        push_outside(&mut others, files, *part)?;
    }
    Ok(others)
}

fn push_outside(
    others: &mut Vec<Part>,
    files: &[Option<FileMove>],
    part: Part,
) -> Result<(), Memory>
    ensures { OnOk result (others.new.items ≡ others.old.items ++ filter (is_outside files.now) (part ∷ [])) }
{
    if is_outside(files, part) {
        others.push(part)?;
    }
    Ok(())
}

// Whether a member reaches past the tables of its file.
fn is_outside(files: &[Option<FileMove>], part: Part) -> bool
    ensures { result ≡ is_outside files.now part }
{
    table_size(files, part.start.file) < part.start.at as usize + part.len as usize
}

// How many characters the tables of a file tell.
fn table_size(files: &[Option<FileMove>], number: u32) -> usize
    ensures { result ≡ table_size files.now number }
{
    if (number as usize) < files.len() {
        match &files[number as usize] {
            Some(file) => file.puts.len(),
            None => 0,
        }
    } else {
        0
    }
}

// Those of the kept file of this number, if there is one.
fn file_moves(
    alloc: Global,
    a: &Analysis,
    number: u32,
    members: &[Part],
    name: &[u8],
) -> Result<Option<FileMove>, Memory>
    ensures { IfOk result (λ f. IsOf members.now name.now number (kept_at a.now.value.table number) f) }
{
    match a.file(number) {
        Some(file) => Ok(Some(moves_of(alloc, file, number, members, name)?)),
        None => Ok(None),
    }
}

fn moves_of(
    alloc: Global,
    file: &KeptFile,
    number: u32,
    members: &[Part],
    name: &[u8],
) -> Result<FileMove, Memory>
    ensures { IfOk result (λ f. AreTables members.now name.now number file.now.bytes f) }
{
    if is_free(members, number) {
        return Ok(still_moves(alloc, file));
    }
    let puts = puts(alloc, number, members, characters(file) as usize)?;
    places(alloc, file, number, name, puts)
}

// Whether no member stands in the file with this number.
fn is_free(members: &[Part], number: u32) -> bool
    ensures { IsTrue result → IsFree members.now number }
{
    for part in members {
        if part.start.file == number {
            return false;
        }
    }
    true
}

// The tables of a file in which none does.
fn still_moves(alloc: Global, file: &KeptFile) -> FileMove
    ensures { IsStillTo file.now.bytes result }
{
    FileMove {
        still: true,
        puts: Vec::new(alloc),
        places: Vec::new(alloc),
        end: characters(file),
    }
}

// How many characters the text of a file has, by halving.
fn characters(file: &KeptFile) -> u32
    ensures { result ≡ length (text_in file.now.bytes) }
{
    let mut low: u32 = 0;
    let mut high = most_characters(file, file.bytes());
    'halves: while low < high {
        let middle = low + (high - low) / 2;
        if is_character(file, middle) {
            low = middle + 1;
        } else {
            high = middle;
        }
    }
    low
}

// It has no more than the file has bytes.
fn most_characters(file: &KeptFile, bytes: &[u8]) -> u32
    requires { bytes.now ≡ file.now.bytes }
    ensures { length (text_in file.now.bytes) ≤ result }
{
    let _text = file.text();
    bytes.len() as u32
}

fn is_character(file: &KeptFile, at: u32) -> bool
    ensures answer { result ≡ nat_lt at (length (text_in file.now.bytes)) }
    ensures short { length (text_in file.now.bytes) < 2 ^ 32 }
{
    file.text().byte_of(at).is_some()
}

// Where the characters of a file stand, by what stands for each.
fn places(
    alloc: Global,
    file: &KeptFile,
    number: u32,
    name: &[u8],
    puts: Vec<Put>,
) -> Result<FileMove, Memory>
    requires { length puts.items ≡ length (text_in file.now.bytes) }
    ensures { (members : List APart) → ArePuts members number puts.items → IfOk result (λ f. AreTables members name.now number file.now.bytes f) }
{
    let mut places = Vec::with_capacity(alloc, puts.len())?;
    let mut end: u32 = 0;
    for at in 0..puts.len() {
        places.push(end)?;
        end = behind(end, puts[at], name)?;
    }
    Ok(FileMove {
        still: false,
        puts,
        places,
        end,
    })
}

// Where what stands for a character ends, which begins there.
fn behind(place: u32, put: Put, name: &[u8]) -> Result<u32, Memory>
    ensures { IfOk result (λ end. end ≡ place + size_of name.now put) }
{
    let size = match put {
        Put::Character => 1,
        Put::Name => name.len(),
        Put::Nothing => 0,
    };
    let end = place as usize + size;
    if end > u32::MAX as usize {
        return Err(Memory);
    }
    Ok(end as u32)
}
