// Files with their new bytes behind a renaming.
ghost use Rattle.std.specs.Prelude.{ℕ, ◌≡◌, ◌≤◌, ◌++◌, ◌∷◌, [], All, IfOk, IsSome, IsTrue, OnOk, Some, length};
ghost use Rattle.std.specs.Option.{option_map};
ghost use Rattle.cs_base.specs.Limits.{most_bytes};
ghost use Rattle.include_tree.specs.Below.source_files.Edited.{edited};
ghost use Rattle.include_tree.specs.Below.source_files.KeptFiles.{kept_at};
ghost use Rattle.kept_analysis.specs.Edits.{IsNew, edited_front, edited_one, stands_at};
ghost use Rattle.analysis.specs.Below.lexer.Places.{pos};
ghost use Rattle.offences.specs.Moves.{editing_by, put_by};
ghost use Rattle.offences.specs.declared.puts.Put.TheVariants.{Character};

use analysis::KeptFile;
use cs_base::{Memory, Pos};
use include_tree::Cache;
use offences::{Moves, Put};
use std::alloc::Global;

/// The files, each kept one with its new bytes; one whose bytes stay is not lexed again.
pub(crate) fn edited_files(alloc: Global, moves: &Moves, cache: Cache) -> Result<Cache, Memory>
    ensures { IfOk result (λ c. c.table ≡ edited_front (editing_by moves.now) 0 (length cache.table) cache.table) }
{
    let mut files = cache;
    for number in 0..files.numbers() {
        edit_numbered(alloc, moves, &mut files, number)?;
    }
    Ok(files)
}

// The same for the kept file of this number, if there is one.
fn edit_numbered(alloc: Global, moves: &Moves, cache: &mut Cache, number: u32) -> Result<(), Memory>
    ensures { OnOk result (cache.new.table ≡ edited_one (editing_by moves.now number) number cache.old.table) }
{
    match new_bytes(alloc, moves, cache, number)? {
        Some(bytes) => set_bytes(alloc, cache, number, bytes),
        None => Ok(()),
    }
}

fn set_bytes(alloc: Global, cache: &mut Cache, number: u32, bytes: Vec<u8>) -> Result<(), Memory>
    requires { IsSome (kept_at cache.old.table number) }
    ensures { OnOk result (cache.new.table ≡ edited number bytes.items cache.old.table) }
{
    match cache.edit(alloc, number, bytes) {
        Ok(()) => Ok(()),
        Err(_) => Err(Memory),
    }
}

// The new bytes of the kept file of this number, if there is one and they are others.
fn new_bytes(
    alloc: Global,
    moves: &Moves,
    cache: &Cache,
    number: u32,
) -> Result<Option<Vec<u8>>, Memory>
    ensures { IfOk result (λ b. IsNew (editing_by moves.now number) (kept_at cache.now.table number) (option_map (λ v. v.items) b)) }
{
    match cache.file(number) {
        Some(file) => changed(alloc, moves, number, file),
        None => Ok(None),
    }
}

// Each of these characters stays.
fn are_characters(puts: &[Put]) -> bool
    ensures { IsTrue result → All (λ put. put ≡ Character) puts.now }
{
    puts.iter().all(|put| matches!(put, Put::Character))
}

// No member stands in the file with this number, so that each of its characters stays.
fn is_apart(moves: &Moves, number: u32) -> bool
    ensures { IsTrue result → (at c : ℕ) → put_by moves.now (pos number at) c ≡ c ∷ [] }
{
    if moves.others.len() > 0 {
        return false;
    }
    match moves.files.get(number as usize) {
        Some(Some(file)) => are_characters(&file.puts),
        _ => true,
    }
}

fn changed(
    alloc: Global,
    moves: &Moves,
    number: u32,
    file: &KeptFile,
) -> Result<Option<Vec<u8>>, Memory>
    ensures { IfOk result (λ b. IsNew (editing_by moves.now number) (Some file.now) (option_map (λ v. v.items) b)) }
{
    if is_apart(moves, number) {
        return Ok(None);
    }
    let bytes = respelled(alloc, moves, number, file, file.bytes())?;
    if bytes.as_slice() == file.bytes() {
        Ok(None)
    } else {
        Ok(Some(bytes))
    }
}

// The new bytes of a file.
fn respelled(
    alloc: Global,
    moves: &Moves,
    number: u32,
    file: &KeptFile,
    bytes: &[u8],
) -> Result<Vec<u8>, Memory>
    requires { bytes.now ≡ file.now.bytes }
    ensures { IfOk result (λ b. b.items ≡ editing_by moves.now number bytes.now) }
{
    let mut out = Vec::new(alloc);
    let mut at: u32 = 0;
    for offset in 0..bytes.len() {
        if stands_at(file, at, offset) {
            push_put(moves, Pos { file: number, at }, bytes[offset], &mut out)?;
            at += 1;
        } else {
            out.push(bytes[offset])?;
        }
    }
    Ok(out)
}

// Whether the byte at an offset of a file is character `at` of its text.
fn stands_at(file: &KeptFile, at: u32, offset: usize) -> bool
    ensures answer { result ≡ stands_at file.now.bytes at offset }
    ensures small { length file.now.bytes ≤ most_bytes }
{
    match file.text().byte_of(at) {
        Some(byte) => byte as usize == offset,
        None => false,
    }
}

// Adds what stands for the character at a position.
fn push_put(moves: &Moves, p: Pos, c: u8, out: &mut Vec<u8>) -> Result<(), Memory>
    ensures { OnOk result (out.new.items ≡ out.old.items ++ put_by moves.now p c) }
{
    match moves.put(p) {
        Put::Character => {
            out.push(c)?;
            Ok(())
        }
        Put::Name => {
            out.extend_from_slice(&moves.name)?;
            Ok(())
        }
        Put::Nothing => Ok(()),
    }
}
