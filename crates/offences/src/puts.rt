// What stands for each character of a file behind a renaming.
ghost use Rattle.std.specs.Prelude.{◌≡◌, ◌==◌, if◌then◌else◌, IfOk, length, slice_set};
ghost use Rattle.offences.specs.Moves.{AddsMember, ArePuts, MarksTo};
ghost use Rattle.offences.specs.declared.puts.Put.TheVariants.{Name, Nothing};

use cs_base::{Memory, Part};
use std::alloc::Global;

/// What stands for a character: itself, the new name for the first one of a member, and nothing for the others of one.
#[derive(Clone, Copy, Debug, PartialEq, Eq)]
pub enum Put {
    Character,
    Name,
    Nothing,
}

/// What stands for each of the first characters of a file, so many as `size`.
pub(crate) fn puts(
    alloc: Global,
    number: u32,
    members: &[Part],
    size: usize,
) -> Result<Vec<Put>, Memory>
    ensures each { IfOk result (λ puts. ArePuts members.now number puts.items) }
    ensures all { IfOk result (λ puts. length puts.items ≡ size) }
{
    let mut puts = vec![in alloc; Put::Character; size]?;
    for k in 0..members.len() {
        add(&mut puts, number, members[members.len() - 1 - k]);
    }
    Ok(puts)
}

// A member in front of those that are in.
fn add(puts: &mut Vec<Put>, number: u32, member: Part)
    ensures added { AddsMember number member puts.old.items puts.new.items }
    ensures all { length puts.new.items ≡ length puts.old.items }
{
    if member.start.file == number {
        mark(puts, member);
    }
}

// Puts the characters of a member in.
fn mark(puts: &mut Vec<Put>, member: Part)
    ensures marked { MarksTo member member.len puts.old.items puts.new.items }
    ensures all { length puts.new.items ≡ length puts.old.items }
{
    for o in 0..member.len {
        set(puts, member.start.at as usize + o as usize, put_of(o));
    }
}

// What stands for a character so many behind the first of its member.
fn put_of(offset: u32) -> Put
    ensures { result ≡ if offset == 0 then Name else Nothing }
{
    if offset == 0 { Put::Name } else { Put::Nothing }
}

// Puts one character in, if it is there.
fn set(puts: &mut Vec<Put>, at: usize, put: Put)
    ensures { puts.new.items ≡ slice_set puts.old.items at put }
{
    if at < puts.len() {
        puts[at] = put;
    }
}
