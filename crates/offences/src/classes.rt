// A class over an analysis, and its members in tokens.
ghost use Rattle.std.specs.Prelude.{◌≡◌, Some, MatchBool, is_some, true, false, length};
ghost use Rattle.part_respell.specs.Respelled.{member_over};
ghost use Rattle.cs_base.specs.Token.{origin_at};
ghost use Rattle.eclass_map.specs.ClassTable.{class_in};
ghost use Rattle.cs_base.specs.declared.positions.Pos.{Pos};
ghost use Rattle.eclass_map.specs.Positions.{holds};
ghost use Rattle.offences.specs.Class.{class_over, HoldFiles, IsApart, IsClass, IsFree};
ghost use Rattle.offences.specs.Tokens.{holds_member, member_of};
ghost use Rattle.cs_base.specs.declared.positions.Part.{Part as Member};
ghost use Rattle.analysis.specs.Parts.{AreMembers};

use analysis::Analysis;
use cs_base::{Part, Pos, Tok};
use eclass_map::{Classes, part_holds};
use std::marker::Model;

/// A class over an analysis, by its members and its number. Contracts see the analysis and the members.
#[derive(Drop)]
pub struct Class<'a> {
    a: &'a Analysis,
    members: &'a [Part],
    number: u32,
    // Whether a member stands in a file, by the remainder of its number; files of one remainder share an entry.
    files: [bool; 256],
}

impl<'a> Model for Class<'a> {
    ghost use Rattle.std.specs.Coded.{codes};
    ghost use Rattle.analysis.specs.Below.c99_tree.TreeCode.{node_code};
    ghost use Rattle.offences.specs.Class.{ClassValue, class_over, IsKept};

    ghost Value = { ClassValue };

    ghost coded = { Prim.hlevel (codes, node_code) };

    ghost view = { λ c. class_over c.a.now c.members.now };

    ghost invariant = { λ c. IsKept c.a.now c.members.now c.number c.files };
}

impl<'a> Class<'a> {
    /// The class with these members and this number.
    pub fn new(a: &'a Analysis, members: &'a [Part], number: u32) -> Class<'a>
        requires { IsClass a.now members.now number }
        ensures { result ≡ class_over a.now members.now }
    {
        Class {
            a,
            members,
            number,
            files: files_of(members),
        }
    }

    pub fn analysis(&self) -> &'a Analysis
        ensures { result.now ≡ self.now.analysis }
    {
        self.a
    }

    /// The members are those of the class of some part.
    pub fn members(&self) -> &'a [Part]
        ensures answer { result.now ≡ self.now.members }
        ensures of_part { (part : Member) × AreMembers self.now.analysis.value part self.now.members }
    {
        self.members
    }

    // Whether a member may stand in a file: none does where this says no.
    fn may_stand_in(&self, file: u32) -> bool
        ensures { result ≡ false → IsFree self.now.members file }
    {
        self.files[(file % 256) as usize]
    }
}

// Which files members stand in, by the remainders of their numbers.
fn files_of(members: &[Part]) -> [bool; 256]
    ensures { HoldFiles members.now result }
{
    let mut files = [false; 256];
    for part in members {
        files[(part.start.file % 256) as usize] = true;
    }
    files
}

// Whether a part is one of the class with this number.
fn has_number(classes: &Classes, part: Part, number: u32) -> bool
    ensures { MatchBool result (class_in classes.now part ≡ Some number) (class_in classes.now part ≡ Some number → ⊥) }
{
    match classes.class_of(part) {
        Some(other) => other == number,
        None => false,
    }
}

/// The member of a class that holds a character, if one does. Takes no memory.
pub fn member_over(class: &Class<'_>, pos: Pos) -> Option<Part>
    ensures { result ≡ member_over class.now.members pos }
{
    let classes = class.a.classes();
    match class.a.part_of(pos) {
        Some(part) => {
            if has_number(classes, part, class.number) {
                Some(part)
            } else {
                None
            }
        }
        None => None,
    }
}

/// The member that character `k` of a token comes from.
pub fn member_at(class: &Class<'_>, tok: &Tok, k: u32) -> Option<Part>
    ensures { result ≡ member_of class.now.members (origin_at tok.now k) }
{
    match tok.origins(k) {
        Some(pos) => member_over(class, pos),
        None => None,
    }
}

/// How many characters a token has.
pub fn length(tok: &Tok) -> u32
    ensures { result ≡ length tok.now.origins }
{
    tok.text().len() as u32
}

// Whether a member holds a character. No member has characters of the part `apart`, which is the part of this one
// afterwards, if no member holds it: the characters of one part are looked up once.
fn lies_in_member(class: &Class<'_>, pos: Pos, apart: &mut Part) -> bool
    requires { IsApart class.now.members apart.old }
    ensures answer { result ≡ is_some (member_over class.now.members pos) }
    ensures apart { IsApart class.now.members apart.new }
{
    if part_holds(*apart, pos) {
        return false;
    }
    let classes = class.a.classes();
    match class.a.part_of(pos) {
        Some(part) => {
            if has_number(classes, part, class.number) {
                return true;
            }
            *apart = part;
            false
        }
        None => false,
    }
}

// Whether character `k` of a token comes from a member.
fn comes_from(class: &Class<'_>, tok: &Tok, k: u32, apart: &mut Part) -> bool
    requires { IsApart class.now.members apart.old }
    ensures answer { result ≡ is_some (member_of class.now.members (origin_at tok.now k)) }
    ensures apart { IsApart class.now.members apart.new }
{
    match tok.origins(k) {
        Some(pos) => lies_in_member(class, pos, apart),
        None => false,
    }
}

// A part without characters.
fn no_part() -> Part
    ensures { (p : Pos) → holds result p ≡ false }
{
    Part {
        start: Pos { file: 0, at: 0 },
        len: 0,
    }
}

// Whether a token may hold a member, by the file in which it begins where all its characters come from one.
fn may_hold(class: &Class<'_>, tok: &Tok) -> bool
    ensures { result ≡ false → holds_member class.now.members tok.now ≡ false }
{
    let _text = tok.text();
    match tok.start() {
        Some(first) => class.may_stand_in(first.file),
        None => true,
    }
}

/// Whether a token holds a member of the class.
pub fn holds_member(class: &Class<'_>, tok: &Tok) -> bool
    ensures { result ≡ holds_member class.now.members tok.now }
{
    if !may_hold(class, tok) {
        return false;
    }
    let count = length(tok);
    let mut apart = no_part();
    for k in 0..count {
        if comes_from(class, tok, k, &mut apart) {
            return true;
        }
    }
    false
}
