// Tables made by a few joins, with the parts and classes that were worked out by hand.
ghost use Rattle.std.specs.Prelude.{◌≡◌, ◌+◌, ◌<◌, ◌≤◌, [], ◌∷◌, Some, IfOk, codes};
ghost use Rattle.eclass_map.specs.ClassTable.{IsAdded, part_of_file, character_count};
ghost use Rattle.cs_base.specs.declared.positions.Part.{Part};

use cs_base::{Kind, Memory, Part, Pos, Steps, Tok};
use eclass_map::Classes;
use std::alloc::Global;
use std::marker::Brand;
use std::sync::ledger::{Blank, Ledger};

fn position(at: u32) -> Pos
    ensures { result ≡ record { file = 1; at = at } }
{
    Pos { file: 1, at }
}

fn part(at: u32, len: u32) -> Part
    ensures { result ≡ part_of_file 1 at len }
{
    Part {
        start: position(at),
        len,
    }
}

// Tokens `ab`, `a` and `b` at 0, 5 and 8 of file 1.
fn three_tokens(alloc: Global) -> Result<Classes, Memory>
    ensures { IfOk result (λ t. IsAdded t (part_of_file 1 0 2) × IsAdded t (part_of_file 1 5 1) × IsAdded t (part_of_file 1 8 1)) }
{
    let mut classes = Classes::new(alloc);
    classes.add_token(1, 0, 2)?;
    classes.add_token(1, 5, 1)?;
    classes.add_token(1, 8, 1)?;
    Ok(classes)
}

// `ab` is joined with what `a` and `b` were pasted to.
fn pasted<L: Ledger>(alloc: Global, blank: Blank) -> Result<Classes, Memory>
    requires name { blank.name ≡ L.name }
    requires parts { blank.parts ≡ L.parts }
    requires some { 0 < blank.parts }
{
    let mut classes = three_tokens(alloc)?;
    let declared = [Some(position(0)), Some(position(1))];
    let pasted = [Some(position(5)), Some(position(8))];
    let x = Tok::new(
        alloc,
        Kind::Ident,
        b"ab",
        &declared,
        false,
        position(0),
        1,
        true,
    )?;
    let y = Tok::new(
        alloc,
        Kind::Ident,
        b"ab",
        &pasted,
        false,
        position(5),
        1,
        true,
    )?;
    let mut steps = Steps::<L>::new(blank);
    classes.join(&x, &y, &mut steps);
    Ok(classes)
}

// The member after a part, none where it is no part.
fn after(classes: &Classes, part: Part) -> Option<Part> {
    if classes.class_of(part).is_none() {
        return None;
    }
    classes.next_member(part)
}

#[test]
fn a_pasted_name_cuts_a_declared_one(rt: HostRuntime) -> Result<(), Memory> {
    let classes = pasted::<Brand>(rt.alloc(), Blank::new(1))?;
    for (at, other) in [(0, 5), (1, 8)] {
        let first = Part {
            start: position(at),
            len: 1,
        };
        let second = Part {
            start: position(other),
            len: 1,
        };
        assert_eq!(rt; classes.part_at(position(at)), Some(first), "at {at}");
        assert_eq!(rt;
            classes.part_at(position(other)),
            Some(second),
            "at {other}"
        );
        let class = classes.class_of(first);
        assert!(rt; class.is_some(), "at {at}");
        assert_eq!(rt; class, classes.class_of(second), "at {at}");
        let number = class.unwrap_or(0);
        assert_eq!(rt; classes.first_member(number), Some(first), "at {at}");
        assert_eq!(rt; after(&classes, first), Some(second), "at {at}");
        assert_eq!(rt; after(&classes, second), None, "at {at}");
    }
    assert_eq!(rt; classes.part_at(position(2)), None);
    Ok(())
}

// Whether a token of two characters that come from these is whole.
fn is_whole_pair(alloc: Global, classes: &Classes, ats: [u32; 2]) -> Result<bool, Memory> {
    let origins = [Some(position(ats[0])), Some(position(ats[1]))];
    let tok = Tok::new(
        alloc,
        Kind::Ident,
        b"ab",
        &origins,
        false,
        position(ats[0]),
        1,
        true,
    )?;
    Ok(classes.is_whole(&tok))
}

#[test]
fn a_token_of_added_ones_is_whole(rt: HostRuntime) -> Result<(), Memory> {
    let classes = three_tokens(rt.alloc())?;
    for (ats, whole) in [
        ([0, 1], true),
        ([5, 8], true),
        ([8, 5], true),
        // Ends inside `ab`, begins inside it, and goes on elsewhere.
        ([5, 0], false),
        ([1, 5], false),
        ([0, 5], false),
        // No added token.
        ([5, 7], false),
    ] {
        assert_eq!(rt;
            is_whole_pair(rt.alloc(), &classes, ats)?,
            whole,
            "at {} and {}",
            ats[0],
            ats[1]
        );
    }
    Ok(())
}

// Tokens of one character at 0 and 2 and one of three at 4 of file 1.
fn short_tokens(alloc: Global) -> Result<Classes, Memory>
    ensures added { IfOk result (λ t. IsAdded t (part_of_file 1 0 1) × IsAdded t (part_of_file 1 2 1)) }
    ensures few { IfOk result (λ t. character_count t ≡ 5) }
    ensures near { IfOk result (λ t. (token : Part) → IsAdded t token → token.start.at + token.len ≤ 7) }
{
    let mut classes = Classes::new(alloc);
    classes.add_token(1, 0, 1)?;
    classes.add_token(1, 2, 1)?;
    classes.add_token(1, 4, 3)?;
    Ok(classes)
}

// A token of one character.
fn letter(alloc: Global, at: u32) -> Result<Tok, Memory>
    ensures { IfOk result (λ token. (token.text ≡ codes "a") × (token.origins ≡ Some (record { file = 1; at = at }) ∷ [])) }
{
    Tok::new(
        alloc,
        Kind::Ident,
        b"a",
        &[Some(position(at))],
        false,
        position(at),
        1,
        true,
    )
}

// The first two of these tokens are joined.
fn joined_letters<L: Ledger>(alloc: Global, blank: Blank) -> Result<Classes, Memory>
    requires name { blank.name ≡ L.name }
    requires parts { blank.parts ≡ L.parts }
    requires some { 0 < blank.parts }
    ensures few { IfOk result (λ t. character_count t ≡ 5) }
    ensures near { IfOk result (λ t. (token : Part) → IsAdded t token → token.start.at + token.len ≤ 7) }
{
    let mut classes = short_tokens(alloc)?;
    let x = letter(alloc, 0)?;
    let y = letter(alloc, 2)?;
    let mut steps = Steps::<L>::new(blank);
    classes.join(&x, &y, &mut steps);
    Ok(classes)
}

// The class of this number gets five characters, where there is one.
fn lengthen(classes: &mut Classes, class: u32) -> Result<(), Memory>
    requires few { character_count classes.old ≡ 5 }
    requires near { (token : Part) → IsAdded classes.old token → token.start.at + token.len ≤ 7 }
{
    if classes.first_member(class).is_some() {
        classes.resize(class, 5)?;
    }
    Ok(())
}

#[test]
fn a_longer_part_moves_what_stands_behind_it(rt: HostRuntime) -> Result<(), Memory> {
    let mut classes = joined_letters::<Brand>(rt.alloc(), Blank::new(1))?;
    let pair = classes.class_of(part(0, 1));
    let other = classes.class_of(part(4, 3));
    assert_eq!(rt; pair, Some(0));
    assert_eq!(rt; other, Some(2));
    lengthen(&mut classes, 0)?;
    for (at, len, class) in [(0, 5, pair), (6, 5, pair), (12, 3, other)] {
        assert_eq!(rt;
            classes.part_at(position(at)),
            Some(part(at, len)),
            "at {at}"
        );
        assert_eq!(rt; classes.class_of(part(at, len)), class, "at {at}");
    }
    assert_eq!(rt; classes.class_of(part(0, 1)), None);
    assert_eq!(rt; classes.part_at(position(15)), None);
    Ok(())
}
