// The table of classes: added tokens by their places, and the partition of their characters by number.
ghost use Rattle.std.specs.Prelude.{ℕ, ◌≡◌, ◌+◌, ◌-◌, ◌*◌, ◌^◌, ◌<◌, ◌≤◌, List, [], ◌∷◌, ◌++◌, length, Some, IsSome, slice_get, IfSome, OnOk, OnErr, IsTrue, MatchBool, ◌⊎◌};
ghost use Rattle.std.specs.Option.{option_map};
ghost use Rattle.eclass_map.specs.ClassTable.{Table, part_of, class_in, members_of, part_with, added_tokens, part_of_file, AddsToken, with_token, IsFree, AreWhole, SameOrLinked, HasParts, AreLinks, IsAdded, relabelled_in, weight_in, parts_in, character_count, label, joined_in, parts_joined};
ghost use Rattle.eclass_map.specs.Joined.{AreJoined};
ghost use Rattle.eclass_map.specs.History.{History};
ghost use Rattle.eclass_map.specs.Resized.{moved_to, count_after, Resizes};
ghost use Rattle.class_labels.specs.Labels.{no_labels, joined, joined_parts};
ghost use Rattle.class_labels.specs.Chain.{Least};
ghost use Rattle.class_labels.specs.Walk.{AtPlace, Forced};
ghost use Rattle.eclass_map.specs.Positions.{end_of, index_at, numbers, Begins, AreTokens};
ghost use Rattle.class_labels.specs.Weight.{digits};
ghost use Rattle.eclass_map.specs.Kept.{IsKept};
ghost use Rattle.cs_base.specs.Token.{Token};
ghost use Rattle.cs_base.specs.declared.positions.Part.{Part};

mod class_numbers;
mod resizing;
mod walks;

use crate::file_hints::{add_hints, missing_hints};
use crate::places::{Places, place_runs};
use crate::token_list::{Added, count_begun, find, find_near, near, near_from, number, settle};
use crate::wholeness::are_whole;
use class_labels::Partition;
use cs_base::{Memory, Part, Pos, Steps, Tok};
use std::alloc::Global;
use std::marker::Model;
use std::sync::ledger::Ledger;

/// A part, and the number of its class.
#[derive(Clone, Copy)]
pub struct FoundPart {
    pub part: Part,
    pub class: u32,
}

/// Added tokens, cut into parts; the parts in classes. Contracts see the `Table`.
#[derive(Drop)]
pub struct Classes {
    tokens: Vec<Added>,
    places: Places,
    labels: Partition,
    // For each file number how many tokens stood in front of its first when that was added. A guess: no contract
    // rests on it, and each look-up tests what it takes from it.
    files: Vec<usize>,
}

impl Model for Classes {
    ghost use Rattle.eclass_map.specs.ClassTable.{Table};

    ghost Value = { Table };

    ghost use Rattle.eclass_map.specs.Kept.{IsKept};

    ghost view = { λ c. record { tokens = c.tokens.items; places = c.places.list; labels = c.labels } };

    ghost invariant = { λ c. IsKept (record { tokens = c.tokens.items; places = c.places.list; labels = c.labels }) };
}

impl Classes {
    pub fn new(alloc: Global) -> Classes
        ensures links { AreLinks [] result }
        ensures history { History result 0 0 }
        ensures parts { HasParts result }
        ensures exact { result ≡ record { tokens = []; places = []; labels = no_labels } }
    {
        Classes {
            tokens: Vec::new(alloc),
            places: Places::new(alloc),
            labels: Partition::new(alloc),
            files: Vec::new(alloc),
        }
    }

    /// Adds a token as one part in a class of its own. It takes the room for every part that the token can be
    /// cut into.
    pub fn add_token(&mut self, file: u32, at: u32, len: u32) -> Result<(), Memory>
        requires some { 0 < len }
        requires within { at + len < 2 ^ 32 }
        requires short { character_count self.old + len < 2 ^ 32 }
        requires free { IsFree self.old (part_of_file file at len) }
        ensures added { OnOk result (AddsToken (part_of_file file at len) self.old self.new) }
        ensures parts { OnOk result (HasParts self.new) }
        // What the joins of a list of links forced is forced still, and nothing else.
        ensures links { OnOk result ((links : List (Token × Token)) → AreLinks links self.old → AreLinks links self.new) }
        ensures count { OnOk result (character_count self.new ≡ character_count self.old + len) }
        ensures weight { OnOk result (weight_in self.new ≡ weight_in self.old) }
        ensures history { OnOk result ((r n : ℕ) → History self.old r n → History self.new r n) }
        ensures exact { OnOk result (self.new ≡ with_token (part_of_file file at len) self.old) }
        ensures err { OnErr result (self.new ≡ self.old) }
    {
        let start = Pos { file, at };
        let place = Part { start, len };
        let index = count_begun(&self.tokens, &self.files, start);
        let more = missing_hints(&self.files, file, self.tokens.len());
        self.tokens.reserve(1)?;
        self.places.reserve()?;
        self.files.reserve(more)?;
        self.labels.add(len)?;
        let first = self.places.len();
        self.tokens.insert(index, Added { place, first }).unwrap();
        self.places.push(start, len);
        add_hints(&mut self.files, more, index);
        Ok(())
    }

    /// Gives each member of a class the length `len`: every token and part moves, in its file, by the growth of
    /// the members before it, and the class numbers stay. It takes the room for every part that the tokens can
    /// be cut into.
    pub fn resize(&mut self, class: u32, len: u32) -> Result<(), Memory>
        requires held { 0 < length (members_of self.old class) }
        requires some { 0 < len }
        requires short { count_after class len self.old < 2 ^ 32 }
        requires within { (token : Part) → IsAdded self.old token → (moved_to class len self.old (end_of token)).at < 2 ^ 32 }
        ensures moved { OnOk result (Resizes class len self.old self.new) }
        ensures parts { OnOk result (HasParts self.new) }
        ensures count { OnOk result (character_count self.new ≡ count_after class len self.old) }
        ensures weight { OnOk result (weight_in self.new ≡ weight_in self.old) }
        ensures history { OnOk result ((r n : ℕ) → History self.old r n → History self.new r n) }
        ensures err { OnErr result (self.new ≡ self.old) }
    {
        let numbers = self.labels.numbers(class, len)?;
        let alloc = *self.tokens.allocator();
        let tokens = settle(alloc, &self.tokens, &numbers)?;
        let places = place_runs(alloc, &tokens, numbers[self.places.len() as usize])?;
        self.labels.regrow(class, len, &numbers)?;
        self.tokens = tokens;
        self.places = places;
        Ok(())
    }

    /// The part that holds the character, none where no added token holds it.
    pub fn part_at(&self, pos: Pos) -> Option<Part>
        ensures answer { result ≡ part_of self.now pos }
        ensures parts { HasParts self.now }
    {
        match find(&self.tokens, &self.files, pos) {
            Some(index) => Some(self.part_of_character(pos, index)),
            None => None,
        }
    }

    // The part of the character of this number.
    fn part_of_character(&self, pos: Pos, index: u32) -> Part
        requires { index_at self.now.tokens pos ≡ Some index }
        ensures { part_of self.now pos ≡ Some result }
    {
        let spot = self.labels.spot_of(index);
        let start = Pos {
            file: pos.file,
            at: pos.at - spot.offset,
        };
        Part {
            start,
            len: self.labels.length_of(spot.class),
        }
    }

    /// The part that holds the character, with its class number. The added token with the place of the guess and those
    /// shortly behind it are tried first; the guess afterwards is that of the character.
    pub fn found(&self, pos: Pos, guess: &mut usize) -> Option<FoundPart>
        ensures part { option_map (λ f. f.part) result ≡ part_of self.now pos }
        ensures class { IfSome result (λ f. class_in self.now f.part ≡ Some f.class) }
        ensures parts { HasParts self.now }
    {
        let place = near_from(&self.tokens, &self.files, Some(pos), *guess);
        *guess = place;
        match find_near(&self.tokens, &self.files, pos, place) {
            Some(index) => Some(self.found_character(pos, index)),
            None => None,
        }
    }

    // The same of the character of this number.
    fn found_character(&self, pos: Pos, index: u32) -> FoundPart
        requires { index_at self.now.tokens pos ≡ Some index }
        ensures part { part_of self.now pos ≡ Some result.part }
        ensures class { class_in self.now result.part ≡ Some result.class }
    {
        let spot = self.labels.spot_of(index);
        let start = Pos {
            file: pos.file,
            at: pos.at - spot.offset,
        };
        FoundPart {
            part: Part {
                start,
                len: self.labels.length_of(spot.class),
            },
            class: spot.class,
        }
    }

    /// The class number of the part, none where it is no part now.
    pub fn class_of(&self, part: Part) -> Option<u32>
        ensures answer { result ≡ class_in self.now part }
    {
        match find(&self.tokens, &self.files, part.start) {
            Some(index) => self.class_of_character(part, index),
            None => None,
        }
    }

    // The same, where the part would begin at the character of this number.
    fn class_of_character(&self, part: Part, index: u32) -> Option<u32>
        requires { index_at self.now.tokens part.start ≡ Some index }
        ensures { result ≡ class_in self.now part }
    {
        let spot = self.labels.spot_of(index);
        if spot.offset == 0 && self.labels.length_of(spot.class) == part.len {
            Some(spot.class)
        } else {
            None
        }
    }

    /// The first member of the walk of a class, none where no class has the number.
    pub fn first_member(&self, class: u32) -> Option<Part>
        ensures answer { result ≡ slice_get (members_of self.now class) 0 }
        // What a caller of `resize` can go by.
        ensures few { length (members_of self.now class) ≤ character_count self.now }
    {
        match self.labels.first(class) {
            Some(x) => Some(self.member(class, x)),
            None => None,
        }
    }

    /// The member that the walk of its class gives after the part.
    pub fn next_member(&self, part: Part) -> Option<Part>
        requires { IsSome (class_in self.now part) }
        ensures answer { (c k : ℕ) → class_in self.now part ≡ Some c → slice_get (members_of self.now c) k ≡ Some part → result ≡ slice_get (members_of self.now c) (k + 1) }
    {
        match find(&self.tokens, &self.files, part.start) {
            Some(index) => self.member_after(part, index),
            None => None,
        }
    }

    // The same, where the part begins at the character of this number.
    fn member_after(&self, part: Part, index: u32) -> Option<Part>
        requires held { index_at self.now.tokens part.start ≡ Some index }
        requires part { IsSome (class_in self.now part) }
        ensures { (c k : ℕ) → class_in self.now part ≡ Some c → slice_get (members_of self.now c) k ≡ Some part → result ≡ slice_get (members_of self.now c) (k + 1) }
    {
        let class = self.labels.class_of(index);
        match self.labels.next(index) {
            Some(x) => Some(self.member(class, x)),
            None => None,
        }
    }

    // The part of a class that begins at a character. Before tokens are joined, the number of a class is that of the
    // run of its characters.
    fn member(&self, class: u32, x: u32) -> Part
        requires held { x < length self.now.labels.spots }
        requires known { class < length self.now.labels.walks }
        ensures { result ≡ part_with self.now class x }
    {
        Part {
            start: self.places.at(x, class as usize),
            len: self.labels.length_of(class),
        }
    }

    /// Whether the origins of a token are whole added tokens, one after another. Takes no memory.
    pub fn is_whole(&self, tok: &Tok) -> bool
        ensures { MatchBool result (AreWhole self.now tok.now.origins) (AreWhole self.now tok.now.origins → ⊥) }
    {
        self.whole_near(tok, self.near(tok))
    }

    // The same; the added token with this place is tried first.
    fn whole_near(&self, tok: &Tok, guess: usize) -> bool
        ensures { MatchBool result (AreWhole self.now tok.now.origins) (AreWhole self.now tok.now.origins → ⊥) }
    {
        are_whole(&self.tokens, &self.files, tok, guess)
    }

    /// The same; the added token with this place is tried first. Where they are, a link of the token with itself
    /// forces nothing that is not so already.
    pub fn is_whole_near(&self, tok: &Tok, guess: usize) -> bool
        ensures answer { MatchBool result (AreWhole self.now tok.now.origins) (AreWhole self.now tok.now.origins → ⊥) }
        ensures own { AreWhole self.now tok.now.origins → (links : List (Token × Token)) → AreLinks links self.now → AreLinks (links ++ (tok.now, tok.now) ∷ []) self.now }
        ensures parts { HasParts self.now }
    {
        are_whole(&self.tokens, &self.files, tok, guess)
    }

    // The place of the added token that holds a token's first character. A guess: no contract rests on it.
    fn near(&self, tok: &Tok) -> usize {
        near(&self.tokens, &self.files, tok.origins(0))
    }

    /// The place of the added token that holds a token's first character; those at the guess and shortly behind it are
    /// tried first. A guess too: no contract rests on it.
    pub fn near_from(&self, tok: &Tok, guess: usize) -> usize {
        near_from(&self.tokens, &self.files, tok.origins(0), guess)
    }

    /// The characters of two tokens of equal spelling are the same from now on, first to first and so on. The
    /// class with fewer parts gets the other's number; a tick for each of its parts.
    pub fn join<L: Ledger>(&mut self, x: &Tok, y: &Tok, steps: &mut Steps<L>)
        requires equal { x.now.text ≡ y.now.text }
        requires whole_x { AreWhole self.old x.now.origins }
        requires whole_y { AreWhole self.old y.now.origins }
        ensures unchanged { added_tokens self.new ≡ added_tokens self.old }
        ensures count { character_count self.new ≡ character_count self.old }
        // The same now: a chain of what was the same and of the new link leads from one to the other.
        ensures same { Least (SameOrLinked self.old x.now y.now) (label self.new) }
        // So after the joins of a list of links it is what these force together.
        ensures links { (links : List (Token × Token)) → AreLinks links self.old → AreLinks (links ++ (x.now, y.now) ∷ []) self.new }
        ensures parts { HasParts self.new }
        // At least one tick for each character that began a part and lies in a part of another number now.
        ensures enough { relabelled_in self.old self.new + steps.old ≤ steps.new }
        ensures bound { steps.new + weight_in self.old ≤ steps.old + weight_in self.new }
        // What all joins so far relabelled, and their ticks, in sum: no more than `joins_relabel_little` says.
        ensures history { (r n : ℕ) → History self.old r n → History self.new (r + relabelled_in self.old self.new) (n + (steps.new - steps.old)) }
        ensures most { weight_in self.new ≤ parts_in self.new * digits (parts_in self.new) }
        // Tokens and positions stay, and there is one tick for each part that got another number.
        ensures exact { self.new ≡ joined_in x.now y.now self.old }
        ensures ticks { steps.new ≡ steps.old + parts_joined x.now y.now self.old }
    {
        let first = self.near(x);
        let second = self.near(y);
        self.join_near(x, y, first, second, steps);
    }

    /// Joins two tokens of equal spelling, if the origins of both are whole added tokens, one after another, and
    /// says whether they are. Each token is sought once.
    pub fn join_whole<L: Ledger>(&mut self, x: &Tok, y: &Tok, steps: &mut Steps<L>) -> bool
        requires equal { x.now.text ≡ y.now.text }
        ensures joined { IsTrue result → AreJoined x.now y.now self.old self.new steps.old steps.new }
        ensures whole { MatchBool result (AreWhole self.old x.now.origins × AreWhole self.old y.now.origins) (AreWhole self.old x.now.origins → AreWhole self.old y.now.origins → ⊥) }
        ensures unchanged { IsTrue result ⊎ ((self.new ≡ self.old) × (steps.new ≡ steps.old)) }
    {
        let first = self.near(x);
        if !self.whole_near(x, first) {
            return false;
        }
        let second = self.near(y);
        if !self.whole_near(y, second) {
            return false;
        }
        self.join_near(x, y, first, second, steps);
        true
    }

    /// The same, where the origins of the second token are known to be whole added tokens, one after another; the
    /// added tokens with these places are tried first.
    pub fn join_to<L: Ledger>(
        &mut self,
        x: &Tok,
        y: &Tok,
        first: usize,
        second: usize,
        steps: &mut Steps<L>,
    ) -> bool
        requires equal { x.now.text ≡ y.now.text }
        requires whole { AreWhole self.old y.now.origins }
        ensures joined { IsTrue result → AreJoined x.now y.now self.old self.new steps.old steps.new }
        ensures whole { MatchBool result (AreWhole self.old x.now.origins) (AreWhole self.old x.now.origins → ⊥) }
        ensures unchanged { IsTrue result ⊎ ((self.new ≡ self.old) × (steps.new ≡ steps.old)) }
    {
        if !self.whole_near(x, first) {
            return false;
        }
        self.join_near(x, y, first, second, steps);
        true
    }

    // The same as `join`; the added tokens with these places are tried first.
    fn join_near<L: Ledger>(
        &mut self,
        x: &Tok,
        y: &Tok,
        first: usize,
        second: usize,
        steps: &mut Steps<L>,
    )
        requires equal { x.now.text ≡ y.now.text }
        requires whole_x { AreWhole self.old x.now.origins }
        requires whole_y { AreWhole self.old y.now.origins }
        ensures { AreJoined x.now y.now self.old self.new steps.old steps.new }
    {
        let len = text_length(x);
        let also = text_length(y);
        prove_eq!(len, also);
        join_characters(
            &self.tokens,
            &self.files,
            &mut self.labels,
            x,
            y,
            first,
            second,
            len,
            steps,
        );
    }
}

// How many characters a token has.
fn text_length(token: &Tok) -> u32
    ensures origins { result ≡ length token.now.origins }
    ensures text { result ≡ length token.now.text }
{
    token.text().len() as u32
}

// The parts of two tokens are joined, one after another.
fn join_characters<L: Ledger>(
    tokens: &[Added],
    files: &[usize],
    labels: &mut Partition,
    x: &Tok,
    y: &Tok,
    first_near: usize,
    second_near: usize,
    len: u32,
    steps: &mut Steps<L>,
)
    requires tokens { AreTokens tokens.now }
    requires len { len ≡ length x.now.origins }
    requires place { AtPlace (Begins tokens.now) (Forced (numbers tokens.now x.now.origins) (numbers tokens.now y.now.origins) labels.old) (length labels.old.spots) 0 (numbers tokens.now x.now.origins) (numbers tokens.now y.now.origins) labels.old }
    ensures labels { labels.new ≡ joined 0 (numbers tokens.now x.now.origins) (numbers tokens.now y.now.origins) labels.old }
    ensures steps { steps.new ≡ steps.old + joined_parts 0 (numbers tokens.now x.now.origins) (numbers tokens.now y.now.origins) labels.old }
{
    let mut at = 0;
    while at < len {
        let first = number(tokens, files, x.origins(at), first_near);
        let second = number(tokens, files, y.origins(at), second_near);
        let part_len = labels.step(first, second, steps);
        at += part_len;
    }
}
