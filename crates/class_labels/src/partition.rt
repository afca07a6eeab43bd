// Characters in parts and parts in classes, by number: the labels of the characters, the links of the walks, and
// a row for each class number.
ghost use Rattle.std.specs.Prelude.{ℕ, ◌≡◌, ◌+◌, ◌-◌, ◌^◌, ◌<◌, ◌≤◌, ◌++◌, length, replicate, Some, slice_get, slice_index_or, IfOk, OnOk, OnErr, vec_len, vec_capacity};
ghost use Rattle.class_labels.specs.Labels.{Labels, spot, no_labels, fresh_part, added, class_at, walk_at, length_at, united, cut, leveled, merged, moved_parts, common, step, step_parts};
ghost use Rattle.class_labels.specs.Table.{In, IsTable, IsCut, IsUnion, AreClasses};
ghost use Rattle.class_labels.specs.Regrown.{place, regrown, ArePlaces};
ghost use Rattle.class_labels.specs.Links.{members, with_part, with_parts, with_links};

use crate::regrowth::{move_rows, new_links, new_numbers, new_spots};
use crate::spots::Spot;
use cs_base::{Memory, Steps};
use std::alloc::Global;
use std::marker::Model;
use std::sync::ledger::Ledger;

/// How many parts a class has, where its walk begins and ends, and how long each part is.
#[derive(Clone, Copy, Drop)]
pub struct Row {
    pub size: u32,
    pub first: u32,
    pub last: u32,
    pub len: u32,
}

/// The parts of the characters 0, 1, .. and their classes. Contracts see the `Labels`.
#[derive(Drop)]
pub struct Partition {
    spots: Vec<Spot>,
    nexts: Vec<u32>,
    rows: Vec<Row>,
}

impl Model for Partition {
    ghost use Rattle.class_labels.specs.Labels.{Labels};

    ghost Value = { Labels };

    ghost use Rattle.std.specs.Prelude.{vec_capacity};
    ghost use Rattle.class_labels.specs.Held.{labels_of, AreFields};

    ghost view = { λ p. labels_of p.spots.items p.nexts.items p.rows.items };

    ghost invariant = { λ p. AreFields p.spots.items p.nexts.items p.rows.items (vec_capacity p.rows) };
}

impl Partition {
    pub fn new(alloc: Global) -> Partition
        ensures { result ≡ no_labels }
    {
        Partition {
            spots: Vec::new(alloc),
            nexts: Vec::new(alloc),
            rows: Vec::new(alloc),
        }
    }

    /// How many characters there are.
    pub fn len(&self) -> u32
        ensures answer { result ≡ length self.now.spots }
        ensures sound { IsTable self.now }
    {
        self.spots.len() as u32
    }

    /// How many class numbers were given.
    pub fn classes(&self) -> u32
        ensures { result ≡ length self.now.walks }
    {
        self.rows.len() as u32
    }

    pub fn spot_of(&self, x: u32) -> Spot
        requires { x < length self.now.spots }
        ensures answer { slice_get self.now.spots x ≡ Some result }
        ensures sound { IsTable self.now }
    {
        self.spots[x as usize]
    }

    pub fn class_of(&self, x: u32) -> u32
        requires { x < length self.now.spots }
        ensures answer { result ≡ class_at self.now x }
        ensures sound { IsTable self.now }
    {
        self.spots[x as usize].class
    }

    pub fn length_of(&self, class: u32) -> u32
        requires { class < length self.now.walks }
        ensures { result ≡ length_at self.now class }
    {
        self.rows[class as usize].len
    }

    fn size_of(&self, class: u32) -> u32
        requires { class < length self.now.walks }
        ensures { result ≡ length (walk_at self.now class) }
    {
        self.rows[class as usize].size
    }

    /// `len` more characters are a part in a class of its own. It takes the room for every part that they can be
    /// cut into.
    pub fn add(&mut self, len: u32) -> Result<(), Memory>
        requires some { 0 < len }
        requires short { length self.old.spots + len < 2 ^ 32 }
        ensures ok { OnOk result (self.new ≡ added len self.old) }
        ensures err { OnErr result (self.new ≡ self.old) }
    {
        let first = self.spots.len() as u32;
        let class = self.rows.len() as u32;
        self.spots.reserve(len as usize)?;
        self.nexts.reserve(len as usize)?;
        self.rows.reserve((first - class + len) as usize)?;
        add_spots(&mut self.spots, class, len);
        add_links(&mut self.nexts, 0, len);
        let row = Row {
            size: 1,
            first,
            last: first,
            len,
        };
        self.rows.push(row).unwrap();
        Ok(())
    }

    /// The member that the walk of its class gives after `x`.
    pub fn next(&self, x: u32) -> Option<u32>
        requires { slice_get self.now.spots x ≡ Some (spot (class_at self.now x) 0) }
        ensures { (k : ℕ) → slice_get (walk_at self.now (class_at self.now x)) k ≡ Some x → result ≡ slice_get (walk_at self.now (class_at self.now x)) (k + 1) }
    {
        let class = self.spots[x as usize].class;
        let row = self.rows[class as usize];
        if row.last == x {
            None
        } else {
            Some(self.nexts[x as usize])
        }
    }

    /// The first member of the walk of a class, none where no class has the number.
    pub fn first(&self, class: u32) -> Option<u32>
        ensures { result ≡ slice_get (walk_at self.now class) 0 }
    {
        if class as usize >= self.rows.len() {
            return None;
        }
        let row = self.rows[class as usize];
        if row.size > 0 { Some(row.first) } else { None }
    }
}

impl Partition {
    /// The number of each character once each part of a class has `len` characters, and behind them how many
    /// there are then.
    pub fn numbers(&self, class: u32, len: u32) -> Result<Vec<u32>, Memory>
        requires { place class len self.now.spots (length self.now.spots) < 2 ^ 32 }
        ensures { IfOk result (λ numbers. ArePlaces class len self.now.spots numbers.items) }
    {
        new_numbers(*self.spots.allocator(), &self.spots, class, len)
    }

    /// Each part of a class gets `len` characters; `numbers` tells the number of each character then.
    pub fn regrow(&mut self, class: u32, len: u32, numbers: &[u32]) -> Result<(), Memory>
        requires known { class < length self.old.walks }
        requires some { 0 < len }
        requires numbers { ArePlaces class len self.old.spots numbers.now }
        requires short { place class len self.old.spots (length self.old.spots) < 2 ^ 32 }
        ensures ok { OnOk result (self.new ≡ regrown class len self.old) }
        ensures err { OnErr result (self.new ≡ self.old) }
    {
        let alloc = *self.spots.allocator();
        let count = numbers[self.spots.len()];
        let spots = new_spots(alloc, &self.spots, class, len, count)?;
        let nexts = new_links(alloc, &self.spots, &self.nexts, numbers, class, len)?;
        self.rows.reserve(count as usize - self.rows.len())?;
        move_rows(&mut self.rows, numbers);
        let row = self.rows[class as usize];
        self.rows[class as usize] = Row {
            size: row.size,
            first: row.first,
            last: row.last,
            len,
        };
        self.spots = spots;
        self.nexts = nexts;
        Ok(())
    }
}

impl Partition {
    // The parts of class `lost` go over to class `kept`; a tick for each.
    fn unite<L: Ledger>(&mut self, kept: u32, lost: u32, steps: &mut Steps<L>)
        requires union { IsUnion kept lost self.old }
        requires kept_held { 0 < length (walk_at self.old kept) }
        requires lost_held { 0 < length (walk_at self.old lost) }
        ensures table { self.new ≡ united kept lost self.old }
        ensures steps { steps.new ≡ steps.old + length (walk_at self.old lost) }
    {
        let gone = self.rows[lost as usize];
        let stays = self.rows[kept as usize];
        relabel(&mut self.spots, &self.nexts, kept, gone, steps);
        self.nexts[stays.last as usize] = gone.first;
        self.rows[kept as usize] = Row {
            size: stays.size + gone.size,
            first: stays.first,
            last: gone.last,
            len: stays.len,
        };
        self.rows[lost as usize] = Row {
            size: 0,
            first: gone.first,
            last: gone.last,
            len: gone.len,
        };
    }
}

impl Partition {
    // Each part of a class is cut after `at` characters; the second halves get a new number.
    fn cut_class(&mut self, class: u32, at: u32)
        requires { IsCut class at self.old }
        ensures { self.new ≡ cut class at self.old }
    {
        let row = self.rows[class as usize];
        let fresh = self.rows.len() as u32;
        split(&mut self.spots, &mut self.nexts, fresh, at, row);
        self.rows[class as usize] = Row {
            size: row.size,
            first: row.first,
            last: row.last,
            len: at,
        };
        let second = Row {
            size: row.size,
            first: row.first + at,
            last: row.last + at,
            len: row.len - at,
        };
        self.rows.push(second).unwrap();
    }
}

impl Partition {
    // The parts of two classes are made equally long.
    fn level(&mut self, first: u32, second: u32)
        requires { AreClasses first second self.old }
        ensures { self.new ≡ leveled first second self.old }
    {
        let first_len = self.length_of(first);
        let second_len = self.length_of(second);
        if first_len < second_len {
            self.cut_class(second, first_len);
        } else if second_len < first_len {
            self.cut_class(first, second_len);
        }
    }

    // Two classes of equally long parts become one; a tick for each part that gets another number.
    fn merge<L: Ledger>(&mut self, first: u32, second: u32, steps: &mut Steps<L>)
        requires classes { AreClasses first second self.old }
        requires level { length_at self.old first ≡ length_at self.old second }
        ensures table { self.new ≡ merged first second self.old }
        ensures steps { steps.new ≡ steps.old + moved_parts first second self.old }
    {
        if first == second {
            return;
        }
        if self.size_of(first) < self.size_of(second) {
            self.unite(second, first, steps);
        } else {
            self.unite(first, second, steps);
        }
    }

    /// The parts that begin at two characters are made equally long, and their classes one. Returns how long
    /// the two parts are then.
    pub fn step<L: Ledger>(&mut self, x: u32, y: u32, steps: &mut Steps<L>) -> u32
        requires first { slice_get self.old.spots x ≡ Some (spot (class_at self.old x) 0) }
        requires second { slice_get self.old.spots y ≡ Some (spot (class_at self.old y) 0) }
        ensures table { self.new ≡ step (class_at self.old x) (class_at self.old y) self.old }
        ensures len { result ≡ common self.old (class_at self.old x) (class_at self.old y) }
        ensures steps { steps.new ≡ steps.old + step_parts (class_at self.old x) (class_at self.old y) self.old }
    {
        let first = self.class_of(x);
        let second = self.class_of(y);
        let len = self.shorter(first, second);
        self.level(first, second);
        self.merge(first, second, steps);
        len
    }

    // How long the parts of the class with shorter parts are.
    fn shorter(&self, first: u32, second: u32) -> u32
        requires known { first < length self.now.walks }
        requires also { second < length self.now.walks }
        ensures { result ≡ common self.now first second }
    {
        let first_len = self.length_of(first);
        let second_len = self.length_of(second);
        if first_len < second_len {
            first_len
        } else {
            second_len
        }
    }
}

// The members of a row become parts of the class; a tick for each.
fn relabel<L: Ledger>(spots: &mut [Spot], nexts: &[u32], class: u32, row: Row, steps: &mut Steps<L>)
    requires some { 0 < row.len }
    requires linked { length nexts.now ≡ length spots.old }
    requires within { (x : ℕ) → In x (members row.size nexts.now row.first) → x + row.len ≤ length spots.old }
    ensures labels { spots.new ≡ with_parts class 0 row.len (members row.size nexts.now row.first) spots.old }
    ensures steps { steps.new ≡ steps.old + row.size }
{
    let mut x = row.first;
    let mut left = row.size;
    while left > 0 {
        write_part(spots, class, x, row.len);
        steps.tick();
        x = nexts[x as usize];
        left -= 1;
    }
}

// The characters of the members of a row from `at` on become parts of the class, linked as the members are.
fn split(spots: &mut [Spot], nexts: &mut [u32], class: u32, at: u32, row: Row)
    requires less { at < row.len }
    requires linked { length nexts.old ≡ length spots.old }
    requires short { length spots.old < 2 ^ 32 }
    requires within { (x : ℕ) → In x (members row.size nexts.old row.first) → x + row.len ≤ length spots.old }
    requires clear { (x y : ℕ) → In x (members row.size nexts.old row.first) → In y (members row.size nexts.old row.first) → (y ≡ x + at → ⊥) }
    ensures labels { spots.new ≡ with_parts class at (row.len - at) (members row.size nexts.old row.first) spots.old }
    ensures links { nexts.new ≡ with_links at (members row.size nexts.old row.first) nexts.old }
{
    let mut x = row.first;
    let mut left = row.size;
    while left > 0 {
        left -= 1;
        write_part(spots, class, x + at, row.len - at);
        let next = nexts[x as usize];
        if left > 0 {
            nexts[(x + at) as usize] = next + at;
        }
        x = next;
    }
}

// The `len` characters from `x` on become a part of the class.
fn write_part(spots: &mut [Spot], class: u32, x: u32, len: u32)
    requires { x + len ≤ length spots.old }
    ensures { spots.new ≡ with_part class len x spots.old }
{
    for offset in 0..len {
        spots[x as usize + offset as usize] = Spot { class, offset };
    }
}

/// The labels of a new part; there is room for them.
pub fn add_spots(spots: &mut Vec<Spot>, class: u32, len: u32)
    requires { vec_len spots.old + len ≤ vec_capacity spots.old }
    ensures items { spots.new.items ≡ spots.old.items ++ fresh_part class len }
    ensures room { vec_capacity spots.old ≤ vec_capacity spots.new }
{
    for offset in 0..len {
        spots.push(Spot { class, offset }).unwrap();
    }
}

/// One link for each of so many characters; there is room for them.
pub fn add_links(nexts: &mut Vec<u32>, next: u32, len: u32)
    requires { vec_len nexts.old + len ≤ vec_capacity nexts.old }
    ensures items { nexts.new.items ≡ nexts.old.items ++ replicate len next }
    ensures room { vec_capacity nexts.old ≤ vec_capacity nexts.new }
{
    if len == 1 {
        nexts.push(next).unwrap();
        return;
    }
    for _offset in 0..len {
        nexts.push(next).unwrap();
    }
}
