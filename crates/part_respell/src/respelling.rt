// The bytes of a file with the new spelling of each member: those between members at once, the others byte by byte.
ghost use Rattle.std.specs.Prelude.{◌≡◌, ◌≤◌, ◌<◌, ◌+◌, ◌-◌, ◌++◌, ◌∷◌, [], Ok, Some, ℕ, IfOk, OnOk, length, take, drop, option_copied};
ghost use Rattle.std.specs.Option.{option_map, option_map_or};
ghost use Rattle.lexer.specs.FileText.{file_text};
ghost use Rattle.lexer.specs.Places.{pos};
ghost use Rattle.part_respell.specs.Order.{AreInOrder, AreLeft, IsUpTo};
ghost use Rattle.part_respell.specs.Respelled.{member_over, put_in, respelled};
ghost use Rattle.part_respell.specs.Walk.{is_between, is_character, next_at, next_byte};

use cs_base::{Memory, Part};
use lexer::FileText;
use std::alloc::Global;

// Whether the byte at an offset of a file is character `at` of its text.
fn is_character(file: u32, bytes: &[u8], text: &FileText, at: u32, offset: usize) -> bool
    requires { file_text file bytes.now ≡ Ok text.now }
    ensures { result ≡ is_character bytes.now at offset }
{
    match text.byte_of(at) {
        Some(byte) => byte as usize == offset,
        None => false,
    }
}

// The members left once the characters before `at` are passed.
fn behind(file: u32, members: &[Part], at: u32) -> &[Part]
    requires { AreLeft file at members.now }
    ensures left { AreLeft file (at + 1) result.now }
    ensures same { (p : ℕ) → at + 1 ≤ p → member_over result.now (pos file p) ≡ member_over members.now (pos file p) }
{
    match members {
        [first, more @ ..] => {
            if first.start.at <= at && first.len - 1 <= at - first.start.at {
                more
            } else {
                members
            }
        }
        [] => members,
    }
}

// The member that holds a character: only the first one that is left can.
fn over(file: u32, members: &[Part], at: u32) -> Option<Part>
    requires { AreLeft file at members.now }
    ensures { result ≡ member_over members.now (pos file at) }
{
    match members {
        [first, ..] => {
            if first.start.at <= at {
                Some(*first)
            } else {
                None
            }
        }
        [] => None,
    }
}

// Whether no member that is left holds a character.
fn is_between(members: &[Part], at: u32) -> bool
    ensures { result ≡ is_between members.now at }
{
    match members {
        [first, ..] => at < first.start.at,
        [] => true,
    }
}

// The character at which the first member begins that is left; this one where none is.
fn next_at(members: &[Part], at: u32) -> u32
    ensures { result ≡ next_at members.now at }
{
    match members {
        [first, ..] => first.start.at,
        [] => at,
    }
}

// The offset of its byte; where the file ends if no such member begins in it.
fn next_byte(file: u32, bytes: &[u8], text: &FileText, members: &[Part]) -> usize
    requires { file_text file bytes.now ≡ Ok text.now }
    ensures { result ≡ next_byte bytes.now members.now }
{
    match members {
        [first, ..] => match text.byte_of(first.start.at) {
            Some(byte) => byte as usize,
            None => bytes.len(),
        },
        [] => bytes.len(),
    }
}

// The bytes from one offset to another.
fn between(bytes: &[u8], from: usize, to: usize) -> &[u8]
    requires up { from ≤ to }
    requires within { to ≤ length bytes.now }
    ensures { result.now ≡ take (to - from) (drop from bytes.now) }
{
    &bytes[from..to]
}

// Adds what stands for a character, which has this byte and lies in this member or in none.
fn push(
    out: &mut Vec<u8>,
    member: Option<Part>,
    name: &[u8],
    file: u32,
    at: u32,
    byte: u8,
) -> Result<(), Memory>
    ensures { OnOk result (out.new.items ≡ out.old.items ++ option_map_or (put_in name.now (pos file at)) member (byte ∷ [])) }
{
    match member {
        None => {
            out.push(byte)?;
        }
        Some(part) => {
            if part.start.at == at {
                out.extend_from_slice(name)?;
            }
        }
    }
    Ok(())
}

/// The bytes of a file, given with its text, in which each member has the new name; none where they would be
/// more than so many.
pub fn respell(
    alloc: Global,
    file: u32,
    bytes: &[u8],
    text: &FileText,
    members: &[Part],
    name: &[u8],
    most: usize,
) -> Result<Option<Vec<u8>>, Memory>
    requires lexed { file_text file bytes.now ≡ Ok text.now }
    requires in_order { AreInOrder file 0 members.now }
    ensures { IfOk result (λ made. IsUpTo most (respelled members.now name.now file bytes.now) (option_map (λ v. v.items) made)) }
{
    let mut out = Vec::new(alloc);
    let mut left = members;
    let mut at: u32 = 0;
    let mut offset: usize = 0;
    'bytes: while offset < bytes.len() {
        if out.len() > most {
            return Ok(None);
        }
        if is_between(left, at) {
            let next = next_byte(file, bytes, text, left);
            out.extend_from_slice(between(bytes, offset, next))?;
            at = next_at(left, at);
            offset = next;
        } else {
            if is_character(file, bytes, text, at, offset) {
                push(
                    &mut out,
                    over(file, left, at),
                    name,
                    file,
                    at,
                    bytes[offset],
                )?;
                left = behind(file, left, at);
                at += 1;
            } else {
                out.push(bytes[offset])?;
            }
            offset += 1;
        }
    }
    if out.len() > most {
        return Ok(None);
    }
    Ok(Some(out))
}
