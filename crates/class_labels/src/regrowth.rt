// New labels, links and rows for parts that get another length, beside the old ones.
ghost use Rattle.std.specs.Prelude.{ℕ, ◌≡◌, ◌+◌, ◌-◌, ◌^◌, ◌<◌, ◌≤◌, ◌++◌, length, map, replicate, take, slice_get, slice_index_or, IfOk, vec_len, vec_capacity};
ghost use Rattle.std.specs.List.{flat_map};
ghost use Rattle.class_labels.specs.Regrown.{piece, share, place, ArePlaces, regrown_links, moved_row};

use crate::partition::{Row, add_links, add_spots};
use crate::spots::Spot;
use cs_base::Memory;
use std::alloc::Global;

// How many characters stand for one: all of the part for its first, none for its others.
fn share_of(spot: Spot, class: u32, len: u32) -> u32
    ensures { result ≡ share class len spot }
{
    if spot.class != class {
        1
    } else if spot.offset == 0 {
        len
    } else {
        0
    }
}

/// The number of each character afterwards, and behind them how many there are.
pub fn new_numbers(alloc: Global, spots: &[Spot], class: u32, len: u32) -> Result<Vec<u32>, Memory>
    requires long { length spots.now < 2 ^ 32 }
    requires short { place class len spots.now (length spots.now) < 2 ^ 32 }
    ensures { IfOk result (λ numbers. ArePlaces class len spots.now numbers.items) }
{
    let mut numbers = vec![in alloc; 0; spots.len() + 1]?;
    number_each(&mut numbers, spots, class, len);
    Ok(numbers)
}

// The same, written over so many numbers.
fn number_each(numbers: &mut [u32], spots: &[Spot], class: u32, len: u32)
    requires long { length numbers.old ≡ length spots.now + 1 }
    requires short { place class len spots.now (length spots.now) < 2 ^ 32 }
    ensures { ArePlaces class len spots.now numbers.new }
{
    let mut at = 0;
    for index in 0..spots.len() {
        numbers[index] = at;
        at += share_of(spots[index], class, len);
    }
    numbers[spots.len()] = at;
}

// How many of the first characters lie in no part of the class: these stay.
fn others(spots: &[Spot], class: u32, len: u32) -> usize
    ensures within { result ≤ length spots.now }
    ensures stay { flat_map (piece class len) (take result spots.now) ≡ take result spots.now }
{
    let mut count = 0;
    'stay: while count < spots.len() {
        if spots[count].class == class {
            return count;
        }
        count += 1;
    }
    count
}

// What stands for the first of these characters is added, if there is one, for which there is room. Gives those behind it.
fn add_first<'a>(all: &mut Vec<Spot>, spots: &'a [Spot], class: u32, len: u32) -> &'a [Spot]
    requires { vec_len all.old + length (flat_map (piece class len) spots.now) ≤ vec_capacity all.old }
    ensures rest { all.new.items ++ flat_map (piece class len) result.now ≡ all.old.items ++ flat_map (piece class len) spots.now }
    ensures room { vec_capacity all.old ≤ vec_capacity all.new }
    ensures less { length result.now ≡ length spots.now - 1 }
{
    match spots.split_first() {
        Some((spot, behind)) => {
            add_piece(all, *spot, class, len);
            behind
        }
        None => spots,
    }
}

// What stands for a character is added; there is room for it.
fn add_piece(spots: &mut Vec<Spot>, spot: Spot, class: u32, len: u32)
    requires { vec_len spots.old + share class len spot ≤ vec_capacity spots.old }
    ensures items { spots.new.items ≡ spots.old.items ++ piece class len spot }
    ensures room { vec_capacity spots.old ≤ vec_capacity spots.new }
{
    if spot.class != class {
        spots.push(spot).unwrap();
    } else if spot.offset == 0 {
        add_spots(spots, class, len);
    }
}

/// The labels afterwards; `count` is how many. Those between the parts of the class are copied at once.
pub fn new_spots(
    alloc: Global,
    spots: &[Spot],
    class: u32,
    len: u32,
    count: u32,
) -> Result<Vec<Spot>, Memory>
    requires { count ≡ place class len spots.now (length spots.now) }
    ensures { IfOk result (λ all. all.items ≡ flat_map (piece class len) spots.now) }
{
    let mut all = Vec::with_capacity(alloc, count as usize)?;
    let mut rest = spots;
    'rest: while rest.len() > 0 {
        let (stay, more) = rest.split_at(others(rest, class, len));
        all.extend_from_slice(stay)?;
        rest = add_first(&mut all, more, class, len);
    }
    Ok(all)
}

/// The links afterwards.
pub fn new_links(
    alloc: Global,
    spots: &[Spot],
    nexts: &[u32],
    numbers: &[u32],
    class: u32,
    len: u32,
) -> Result<Vec<u32>, Memory>
    requires linked { length nexts.now ≡ length spots.now }
    requires numbers { ArePlaces class len spots.now numbers.now }
    ensures { IfOk result (λ all. all.items ≡ regrown_links class len numbers.now spots.now nexts.now) }
{
    let mut all = Vec::with_capacity(alloc, numbers[spots.len()] as usize)?;
    for index in 0..spots.len() {
        let next = new_number(numbers, nexts[index]);
        add_links(&mut all, next, share_of(spots[index], class, len));
    }
    Ok(all)
}

// The number of a character afterwards, 0 where there is no such character.
fn new_number(numbers: &[u32], x: u32) -> u32
    ensures { result ≡ slice_index_or numbers.now x 0 }
{
    if (x as usize) < numbers.len() {
        numbers[x as usize]
    } else {
        0
    }
}

/// The rows afterwards, but for the length of the parts.
pub fn move_rows(rows: &mut [Row], numbers: &[u32])
    ensures { rows.new ≡ map (moved_row numbers.now) rows.old }
{
    for index in 0..rows.len() {
        let row = rows[index];
        rows[index] = Row {
            size: row.size,
            first: new_number(numbers, row.first),
            last: new_number(numbers, row.last),
            len: row.len,
        };
    }
}
