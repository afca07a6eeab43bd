// Joins of several kinds on one table: together they take few ticks, as public clauses say.
ghost use Rattle.std.specs.Prelude.{◌≡◌, ◌+◌, ◌-◌, ◌*◌, ◌≤◌, ◌<◌, ℕ, IfOk, codes};
ghost use Rattle.class_labels.specs.Weight.{digits};
ghost use Rattle.eclass_map.specs.ClassTable.{parts_in};
ghost use Rattle.eclass_map.specs.History.{History};

use cs_base::{Kind, Memory, Part, Pos, Steps, Tok};
use eclass_map::{Classes, joins_relabel_little};
use std::alloc::Global;
use std::marker::Brand;
use std::sync::ledger::{Blank, Ledger};

// Two tokens of equal spelling, which are to be joined.
#[derive(Drop)]
struct Pair {
    x: Tok,
    y: Tok,
    ghost alike: { x.text ≡ y.text },
}

// The pair is joined, if the origins of both are whole added tokens.
fn join<L: Ledger>(classes: &mut Classes, pair: &Pair, steps: &mut Steps<L>) -> bool
    ensures more { steps.old ≤ steps.new }
    ensures history { (r n : ℕ) → History classes.old r n → (s : ℕ) × History classes.new s (n + (steps.new - steps.old)) }
{
    classes.join_whole(&pair.x, &pair.y, steps)
}

// The class with this number gets another length, where there is one and there is room.
fn lengthen(classes: &mut Classes, class: u32, len: u32) -> Result<bool, Memory>
    requires some { 0 < len }
    ensures history { IfOk result (λ done. (r n : ℕ) → History classes.old r n → History classes.new r n) }
{
    if classes.first_member(class).is_some() {
        if classes.can_resize(class, len) {
            classes.resize(class, len)?;
            return Ok(true);
        }
    }
    Ok(false)
}

// All four were done.
fn are_all(first: bool, second: bool, third: bool, fourth: bool) -> bool {
    first && second && third && fourth
}

// A pair of whole tokens is joined, then one of which a token was pasted out of two, so that parts are cut, then a class gets
// another length, and a third pair is joined. Behind whatever was done to the table before, all joins, these among them, took no more
// ticks than N times the binary digits of N, where the table has N parts.
fn join_in_turn<L: Ledger>(
    classes: &mut Classes,
    whole: &Pair,
    cut: &Pair,
    behind: &Pair,
    class: u32,
    len: u32,
    steps: &mut Steps<L>,
) -> Result<bool, Memory>
    requires some { 0 < len }
    ensures few { IfOk result (λ all. (r n : ℕ) → History classes.old r n
        → n + (steps.new - steps.old) ≤ parts_in classes.new * digits (parts_in classes.new)) }
{
    joins_relabel_little();
    let first = join(classes, whole, steps);
    let second = join(classes, cut, steps);
    let done = lengthen(classes, class, len)?;
    let third = join(classes, behind, steps);
    Ok(are_all(first, second, done, third))
}

fn position(at: u32) -> Pos {
    Pos { file: 1, at }
}

// A part of one character.
fn letter_part(at: u32) -> Part {
    Part {
        start: position(at),
        len: 1,
    }
}

// Tokens `a`, `a`, `ab`, `a`, `b` and `a` at 0, 2, 4, 8, 11 and 13 of file 1.
fn six_tokens(alloc: Global) -> Result<Classes, Memory> {
    let mut classes = Classes::new(alloc);
    classes.add_token(1, 0, 1)?;
    classes.add_token(1, 2, 1)?;
    classes.add_token(1, 4, 2)?;
    classes.add_token(1, 8, 1)?;
    classes.add_token(1, 11, 1)?;
    classes.add_token(1, 13, 1)?;
    Ok(classes)
}

// A token of one character.
fn letter(alloc: Global, at: u32) -> Result<Tok, Memory>
    ensures { IfOk result (λ token. token.text ≡ codes "a") }
{
    Tok::new(
        alloc,
        Kind::Ident,
        b"a",
        &[Some(position(at))],
        false,
        position(at),
        1,
        true,
    )
}

// A token of two characters.
fn two_letters(alloc: Global, first: u32, second: u32) -> Result<Tok, Memory>
    ensures { IfOk result (λ token. token.text ≡ codes "ab") }
{
    Tok::new(
        alloc,
        Kind::Ident,
        b"ab",
        &[Some(position(first)), Some(position(second))],
        false,
        position(first),
        1,
        true,
    )
}

// Two tokens of one character.
fn letters(alloc: Global, first: u32, second: u32) -> Result<Pair, Memory> {
    let x = letter(alloc, first)?;
    let y = letter(alloc, second)?;
    Ok(Pair { x, y })
}

// A token that is declared, and what two others were pasted to.
fn pasted(alloc: Global) -> Result<Pair, Memory> {
    let x = two_letters(alloc, 4, 5)?;
    let y = two_letters(alloc, 8, 11)?;
    Ok(Pair { x, y })
}

// What the joins of all kinds answer on the six tokens.
fn joined<L: Ledger>(alloc: Global, blank: Blank) -> Result<bool, Memory>
    requires name { blank.name ≡ L.name }
    requires parts { blank.parts ≡ L.parts }
    requires some { 0 < blank.parts }
{
    let mut classes = six_tokens(alloc)?;
    let whole = letters(alloc, 8, 13)?;
    let cut = pasted(alloc)?;
    let behind = letters(alloc, 0, 2)?;
    let mut steps = Steps::<L>::new(blank);
    let Some(class) = classes.class_of(letter_part(8)) else {
        return Ok(false);
    };
    join_in_turn(&mut classes, &whole, &cut, &behind, class, 3, &mut steps)
}

#[test]
fn joins_of_several_kinds_can_be_done(rt: HostRuntime) -> Result<(), Memory> {
    assert!(rt; joined::<Brand>(rt.alloc(), Blank::new(1))?);
    Ok(())
}
