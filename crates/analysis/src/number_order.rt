// Numbers in the order of their places, one for each place.
ghost use Rattle.std.specs.Prelude.{◌≡◌, ◌≤◌, ◌+◌, IsTrue, IfOk, OnOk};
ghost use Rattle.analysis.specs.BroughtNumbers.{AddsOnce, AllEndBy, AreInOrder, AreNumbers, ComesBehind, StandsFor};

use crate::adding::span;
use cs_base::{Memory, Part, Tok};
use std::alloc::Global;

/// One of the numbers for each place, in the order of their places. Two of one place with different spellings,
/// and numbers that overlap or stand elsewhere than in the pseudo file of lines, are answered by `Memory`.
pub(crate) fn each_once(alloc: Global, mut brought: Vec<Tok>) -> Result<Vec<Tok>, Memory>
    ensures { IfOk result (λ numbers. AreNumbers brought.items numbers.items) }
{
    brought.sort_unstable_by_key(|tok| start_of(tok));
    one_by_one(alloc, brought)
}

// The file and the character at which a token begins.
fn start_of(tok: &Tok) -> (u32, u32) {
    let start = match tok.start() {
        Some(start) => start,
        None => span(tok).start,
    };
    (start.file, start.at)
}

// The same of numbers that are sorted.
fn one_by_one(alloc: Global, sorted: Vec<Tok>) -> Result<Vec<Tok>, Memory>
    ensures { IfOk result (λ numbers. AreNumbers sorted.items numbers.items) }
{
    let mut numbers = Vec::new(alloc);
    for tok in sorted {
        push_once(&mut numbers, tok)?;
    }
    Ok(numbers)
}

// Adds a number, unless the last one stands for it.
fn push_once(numbers: &mut Vec<Tok>, tok: Tok) -> Result<(), Memory>
    requires { AreInOrder numbers.old.items }
    ensures { OnOk result (AddsOnce tok numbers.old.items numbers.new.items) }
{
    if stands_last(numbers, &tok) {
        return Ok(());
    }
    if !comes_behind(numbers, span(&tok)) {
        return Err(Memory);
    }
    numbers.push(tok)?;
    Ok(())
}

// Whether the last number stands at the place of a token and is spelled so.
fn stands_last(numbers: &[Tok], tok: &Tok) -> bool
    ensures { IsTrue result → StandsFor numbers.now tok.now }
{
    match numbers.last() {
        Some(last) => span(last) == span(tok) && last.text() == tok.text(),
        None => false,
    }
}

// Whether a number can stand at the place, behind all others.
fn comes_behind(numbers: &[Tok], place: Part) -> bool
    requires { AreInOrder numbers.now }
    ensures { IsTrue result → ComesBehind numbers.now place }
{
    place.start.file == 0 && place.len > 0 && all_end_by(numbers, place.start.at)
}

fn all_end_by(numbers: &[Tok], at: u32) -> bool
    requires { AreInOrder numbers.now }
    ensures { IsTrue result → AllEndBy at numbers.now }
{
    match numbers.last() {
        Some(last) => ends_by(span(last), at),
        None => true,
    }
}

fn ends_by(place: Part, at: u32) -> bool
    ensures { IsTrue result → place.start.at + place.len ≤ at }
{
    place.start.at <= at && place.len <= at - place.start.at
}
