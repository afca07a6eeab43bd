// Places in brace lists (ISO/IEC 9899:1999, 6.7.8), as far as designators name members in them.
ghost use Rattle.std.specs.Prelude.{◌≡◌, ◌&&◌, not, IfOk, OnOk, if◌then◌else◌};
ghost use Rattle.std.specs.Option.{option_map, option_map_or};
ghost use Rattle.c99_tree.specs.declared.production.Production.TheVariants.{InitItem as InitItemNode, InitList as InitListNode};
ghost use Rattle.scope_bind.specs.Known.{known};
ghost use Rattle.c_types.specs.Types.{unknown, arithmetic, inner_of, is_array, is_arithmetic};
ghost use Rattle.name_chains.specs.Members.{members_of, member_at};
ghost use Rattle.name_chains.specs.Places.{place_found};
ghost use Rattle.name_chains.specs.Initializers.{is_inner, member_place, is_union_base, place_at, next_member, is_lost, next_place, behind, element_of, is_part, is_elision, after_item, after_designator, position_after, designated_facts, designated_type, designated_position};

use crate::facts::Facts;
use crate::tags::number_in;
use c_types::{Base, CType, Cause, Frame, Position, Space, is_node, is_text};
use c99_tree::{Production, Tree};
use cs_base::Memory;
use std::alloc::Global;

fn unknown(alloc: Global) -> CType
    ensures { result ≡ unknown }
{
    CType::plain(alloc, Base::Unknown)
}

fn arithmetic(alloc: Global) -> CType
    ensures { result ≡ arithmetic }
{
    CType::plain(alloc, Base::Arithmetic)
}

fn is_union(t: &CType) -> bool
    ensures { result ≡ is_union_base t.now.base }
{
    matches!(t.base(), Base::Union(_))
}

// A member that is found: in an anonymous member or not, and the token that is its name.
#[derive(Clone, Copy)]
struct Found {
    inner: bool,
    name_at: u32,
}

fn is_inner(space: Space) -> bool
    ensures { result ≡ is_inner space }
{
    matches!(space, Space::Inner(_))
}

fn is_lost(at: Position) -> bool
    ensures { result ≡ is_lost at }
{
    matches!(at, Position::Lost)
}

fn behind(at: Position) -> Result<Position, Memory>
    ensures { IfOk result (λ p. p ≡ behind at) }
{
    match at {
        Position::Numbered(n) => match n.checked_add(1) {
            Some(next) => Ok(Position::Numbered(next)),
            None => Err(Memory),
        },
        Position::Lost => Ok(at),
        Position::Beyond => Ok(at),
    }
}

fn element_or_number(alloc: Global, t: &CType) -> Result<CType, Memory>
    ensures { IfOk result (λ e. e ≡ (if is_array t.now then inner_of t.now else arithmetic)) }
{
    if t.is_array() {
        Ok(t.copied()?.inner())
    } else {
        Ok(arithmetic(alloc))
    }
}

/// The element that `[` and an index designate.
pub(crate) fn element_of(alloc: Global, t: &CType) -> Result<CType, Memory>
    ensures { IfOk result (λ e. e ≡ element_of t.now) }
{
    if t.is_unknown() {
        Ok(unknown(alloc))
    } else {
        element_or_number(alloc, t)
    }
}

// An array is no place of a string's.
fn is_part_of_array(place: &CType, text: bool) -> Result<bool, Memory>
    ensures { IfOk result (λ b. b ≡ not (text && is_arithmetic (inner_of place.now))) }
{
    Ok(!(text && place.copied()?.inner().is_arithmetic()))
}

fn is_part(place: &CType, item: &CType, text: bool) -> Result<bool, Memory>
    ensures { IfOk result (λ b. b ≡ is_part place.now item.now text) }
{
    if place.is_unknown() {
        return Ok(true);
    }
    if item.is_record() {
        return Ok(false);
    }
    if place.is_array() {
        is_part_of_array(place, text)
    } else {
        Ok(place.is_record())
    }
}

fn is_elision(tree: &Tree, child: &Frame) -> Result<bool, Memory>
    ensures { IfOk result (λ b. b ≡ is_elision tree.now.label tree.now.under child.now) }
{
    if tree.label().alternative == 2 {
        is_part(&child.given, &child.found, is_text(tree))
    } else {
        Ok(false)
    }
}

fn after_item(f: &Frame, tree: &Tree, child: &Frame) -> Result<Position, Memory>
    ensures { IfOk result (λ p. p ≡ after_item f.now tree.now.label tree.now.under child.now) }
{
    if is_elision(tree, child)? {
        Ok(Position::Lost)
    } else {
        behind(f.position)
    }
}

fn after_designator(f: &Frame, child: &Frame) -> Position
    ensures { result ≡ after_designator f.now child.now }
{
    if f.nth == 0 {
        child.position
    } else {
        Position::Lost
    }
}

fn after_part(f: &Frame, tree: &Tree, child: &Frame) -> Result<Position, Memory>
    ensures { IfOk result (λ p. p ≡ position_after InitItemNode f.now tree.now.label tree.now.under child.now) }
{
    if is_node(tree.label(), Production::Designator) {
        Ok(after_designator(f, child))
    } else {
        after_item(f, tree, child)
    }
}

fn after_list_item(f: &Frame, tree: &Tree, child: &Frame) -> Position
    ensures { result ≡ position_after InitListNode f.now tree.now.label tree.now.under child.now }
{
    if is_node(tree.label(), Production::InitItem) {
        child.position
    } else {
        f.position
    }
}

/// The next place of a node, once this child of it is read.
pub fn position_after(f: &Frame, tree: &Tree, child: &Frame) -> Result<Position, Memory>
    ensures { IfOk result (λ p. p ≡ position_after f.now.label.production f.now tree.now.label tree.now.under child.now) }
{
    match f.label.production {
        Production::InitItem => after_part(f, tree, child),
        Production::InitList => Ok(after_list_item(f, tree, child)),
        _ => Ok(f.position),
    }
}

impl Facts<'_> {
    // The type of member number `n` of a structure or union that is complete.
    fn member_place(&self, alloc: Global, t: &CType, n: u32) -> Result<CType, Memory>
        ensures { IfOk result (λ r. r ≡ member_place t.now n self.now.facts) }
    {
        if self.is_known(t) {
            self.member_numbered(alloc, number_in(t), n)
        } else {
            Ok(arithmetic(alloc))
        }
    }

    fn place_at(&self, alloc: Global, t: &CType, n: u32) -> Result<CType, Memory>
        ensures { IfOk result (λ r. r ≡ place_at t.now n self.now.facts) }
    {
        if is_union(t) && n != 0 {
            Ok(arithmetic(alloc))
        } else {
            self.member_place(alloc, t, n)
        }
    }

    fn next_member(&self, alloc: Global, t: &CType, at: Position) -> Result<CType, Memory>
        ensures { IfOk result (λ r. r ≡ next_member t.now at self.now.facts) }
    {
        match at {
            Position::Lost => Ok(unknown(alloc)),
            Position::Numbered(n) => self.place_at(alloc, t, n),
            Position::Beyond => Ok(arithmetic(alloc)),
        }
    }

    fn known_place(&self, alloc: Global, t: &CType, at: Position) -> Result<CType, Memory>
        ensures { IfOk result (λ r. r ≡ (if is_array t.now then inner_of t.now else next_member t.now at self.now.facts)) }
    {
        if t.is_array() {
            Ok(t.copied()?.inner())
        } else {
            self.next_member(alloc, t, at)
        }
    }

    /// The next place in a list of the type.
    pub(crate) fn next_place(&self, alloc: Global, t: &CType, at: Position) -> Result<CType, Memory>
        ensures { IfOk result (λ r. r ≡ next_place t.now at self.now.facts) }
    {
        if t.is_unknown() || is_lost(at) {
            Ok(unknown(alloc))
        } else {
            self.known_place(alloc, t, at)
        }
    }

    /// A member is designated.
    pub(crate) fn designate(&mut self, place: &CType, i: u32) -> Result<(), Memory>
        ensures { OnOk result (self.new ≡ known self.old.toks (designated_facts self.old.toks place.now i self.old.facts)) }
    {
        if place.is_unknown() {
            self.note(true, Cause::DesignatorAfterElision, i);
            Ok(())
        } else {
            self.use_member(place, i)
        }
    }

    /// Its type.
    pub(crate) fn designated_type(
        &self,
        alloc: Global,
        place: &CType,
        i: u32,
    ) -> Result<CType, Memory>
        ensures { IfOk result (λ t. t ≡ designated_type self.now.toks place.now i self.now.facts) }
    {
        let other = unknown(alloc);
        if place.is_unknown() {
            Ok(other)
        } else {
            self.member_type(place, i, other)
        }
    }

    fn found_position(&self, number: u32, found: Found) -> Result<Position, Memory>
        ensures { IfOk result (λ p. p ≡ place_found (members_of number self.now.facts) found.inner found.name_at) }
    {
        if found.inner {
            Ok(Position::Lost)
        } else {
            Ok(Position::Numbered(self.number_before(number, found.name_at)?))
        }
    }

    fn position_of(
        &self,
        number: u32,
        member: Option<Found>,
        at: Position,
    ) -> Result<Position, Memory>
        ensures { IfOk result (λ p. p ≡ option_map_or (λ m. place_found (members_of number self.now.facts) m.inner m.name_at) member at) }
    {
        match member {
            None => Ok(at),
            Some(found) => self.found_position(number, found),
        }
    }

    fn designated_name(&self, place: &CType, i: u32) -> Option<Found>
        ensures { result ≡ option_map (λ d. record { inner = is_inner d.space; name_at = d.name_at }) (member_at self.now.toks place.now i self.now.facts) }
    {
        match self.member_at(place, i) {
            None => None,
            Some(d) => Some(Found {
                inner: is_inner(d.space),
                name_at: d.name_at,
            }),
        }
    }

    /// The place of the member that token `i` designates.
    pub(crate) fn designated_position(
        &self,
        place: &CType,
        i: u32,
        at: Position,
    ) -> Result<Position, Memory>
        ensures { IfOk result (λ p. p ≡ designated_position self.now.toks place.now i self.now.facts at) }
    {
        let member = self.designated_name(place, i);
        self.position_of(number_in(place), member, at)
    }
}
