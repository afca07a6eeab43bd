// Many names of a hide set together, found by the hash of their spellings.
ghost use Rattle.std.specs.Prelude.{◌≡◌, ◌≤◌, ◌++◌, [], List, ℕ, length, map, IfOk};
ghost use Rattle.std.specs.Bool.{OnTrue};
ghost use Rattle.std.specs.List.{flat_map, list_any};
ghost use Rattle.std.specs.Str.{bytes_eq};
ghost use Rattle.line_shape.specs.MacroLine.{spellings};
ghost use Rattle.macro_body.specs.Hides.{hides_name, lacking};

use crate::shared_tokens::push_shared;
use cs_base::{Memory, Tok};
use std::alloc::Global;
use std::collections::HashSet;
use std::marker::Model;
use std::rc::{Rc, RcSlice};

/// Names in their order, as tokens that are spelled so; their spellings to be found; and to be compared all at once,
/// one behind the other, with the length of each. Its copies share all of it. Contracts see the list of the names.
#[derive(Drop)]
pub struct NamePart {
    names: RcSlice<Tok>,
    known: Rc<HashSet<Vec<u8>>>,
    text: RcSlice<u8>,
    lengths: RcSlice<usize>,
}

impl Model for NamePart {
    ghost use Rattle.std.specs.Prelude.{◌≡◌, List, ℕ, length, map};
    ghost use Rattle.std.specs.List.{flat_map, list_any};
    ghost use Rattle.std.specs.Rc.{rc_slice_items};
    ghost use Rattle.std.specs.Str.{bytes_eq};
    ghost use Rattle.line_shape.specs.MacroLine.{spellings};
    ghost use Rattle.macro_body.specs.Hides.{hides_name, lacking};

    ghost Value = { List (List ℕ) };

    ghost view = { λ p. spellings (rc_slice_items p.names) };

    ghost invariant = { λ p. ((name : List ℕ) → list_any (λ k. bytes_eq name k.items) p.known.value.keys
        ≡ hides_name (spellings (rc_slice_items p.names)) name)
        × (rc_slice_items p.text ≡ flat_map (λ name. name) (spellings (rc_slice_items p.names)))
        × (rc_slice_items p.lengths ≡ map length (spellings (rc_slice_items p.names))) };
}

impl NamePart {
    pub fn of(alloc: Global, names: Vec<Tok>) -> Result<NamePart, Memory>
        ensures { IfOk result (λ p. p ≡ spellings names.items) }
    {
        let known = Rc::new(alloc, known_among(alloc, &names)?)?;
        let text = RcSlice::from_vec(text_of(alloc, &names)?)?;
        let lengths = RcSlice::from_vec(lengths_of(alloc, &names)?)?;
        Ok(NamePart {
            names: RcSlice::from_vec(names)?,
            known,
            text,
            lengths,
        })
    }

    pub fn contains(&self, name: &[u8]) -> bool
        ensures { result ≡ hides_name self.now name.now }
    {
        self.known.contains(name)
    }

    pub fn len(&self) -> usize {
        self.names.len()
    }

    /// The same names.
    pub fn copy(&self) -> Result<NamePart, Memory>
        ensures { IfOk result (λ p. p ≡ self.now) }
    {
        Ok(NamePart {
            names: self.names.clone()?,
            known: self.known.clone()?,
            text: self.text.clone()?,
            lengths: self.lengths.clone()?,
        })
    }

    /// The tokens that are spelled as the names.
    pub fn toks(&self) -> &[Tok]
        ensures { spellings result.now ≡ self.now }
    {
        self.names.as_slice()
    }

    /// Whether another part is known to have the same names in the same order.
    fn is_alike(&self, other: &NamePart) -> bool
        ensures { OnTrue result (self.now ≡ other.now) }
    {
        self.lengths.as_slice() == other.lengths.as_slice()
            && self.text.as_slice() == other.text.as_slice()
    }
}

// The spellings of tokens, one behind the other.
fn text_of(alloc: Global, names: &[Tok]) -> Result<Vec<u8>, Memory>
    ensures { IfOk result (λ text. text.items ≡ flat_map (λ name. name) (spellings names.now)) }
{
    let mut text = Vec::new(alloc);
    for name in names {
        text.extend_from_slice(name.text())?;
    }
    Ok(text)
}

// How long the spelling of each token is.
fn lengths_of(alloc: Global, names: &[Tok]) -> Result<Vec<usize>, Memory>
    ensures { IfOk result (λ lengths. lengths.items ≡ map length (spellings names.now)) }
{
    let mut lengths = Vec::with_capacity(alloc, names.len())?;
    for name in names {
        lengths.push(name.text().len())?;
    }
    Ok(lengths)
}

// The spellings of tokens.
fn known_among(alloc: Global, names: &[Tok]) -> Result<HashSet<Vec<u8>>, Memory>
    ensures { IfOk result (λ known. (name : List ℕ) → list_any (λ k. bytes_eq name k.items) known.keys
        ≡ hides_name (spellings names.now) name) }
{
    let mut known = HashSet::with_capacity(alloc, names.len())?;
    for name in names {
        let spelling = Vec::from_slice(alloc, name.text())?;
        known.insert(spelling)?;
    }
    Ok(known)
}

/// Whether tokens are spelled as others, first to first and so on.
pub fn are_alike(xs: &[Tok], ys: &[Tok]) -> bool
    ensures { OnTrue result (spellings xs.now ≡ spellings ys.now) }
{
    if xs.len() != ys.len() {
        return false;
    }
    for k in 0..xs.len() {
        if !is_alike(&xs[k], &ys[k]) {
            return false;
        }
    }
    true
}

fn is_alike(x: &Tok, y: &Tok) -> bool
    ensures { OnTrue result (x.now.text ≡ y.now.text) }
{
    x.text() == y.text()
}

/// Whether parts are known to have the names of others in the same order.
pub fn are_alike_parts(xs: &[NamePart], ys: &[NamePart]) -> bool
    ensures { OnTrue result (flat_map (λ p. p) xs.now ≡ flat_map (λ p. p) ys.now) }
{
    if xs.len() != ys.len() {
        return false;
    }
    for k in 0..xs.len() {
        if !xs[k].is_alike(&ys[k]) {
            return false;
        }
    }
    true
}

/// Whether a part has a name.
pub fn is_in_parts(name: &[u8], parts: &[NamePart]) -> bool
    ensures { result ≡ list_any (λ p. hides_name p name.now) parts.now }
{
    parts.iter().any(|part| part.contains(name))
}

/// Whether parts are known to have all names of another one.
pub fn have_part(parts: &[NamePart], other: &NamePart) -> bool
    ensures { OnTrue result (lacking (flat_map (λ p. p) parts.now) other.now ≡ []) }
{
    for part in parts {
        if part.is_alike(other) {
            return true;
        }
    }
    false
}

/// Adds the tokens of parts.
pub fn push_parts(all: &mut Vec<Tok>, parts: &[NamePart]) -> Result<(), Memory>
    ensures { IfOk result (λ _. spellings all.new.items ≡ spellings all.old.items ++ flat_map (λ p. p) parts.now) }
{
    for part in parts {
        push_shared(all, part.toks())?;
    }
    Ok(())
}

/// The parts, and further names behind them. Parts that have no more names than are put behind them become one with
/// these: so each part has more names than the next, and each name is put into a part anew as often as these double.
pub fn with_part(
    alloc: Global,
    parts: &[NamePart],
    names: Vec<Tok>,
) -> Result<Vec<NamePart>, Memory>
    ensures { IfOk result (λ all. flat_map (λ p. p) all.items ≡ flat_map (λ p. p) parts.now ++ spellings names.items) }
{
    let stay = staying(parts, names.len());
    let mut all = same_parts(alloc, &parts[..stay])?;
    all.push(merged(alloc, &parts[stay..], names)?)?;
    Ok(all)
}

// How many parts have more names than there are behind them.
fn staying(parts: &[NamePart], behind: usize) -> usize
    ensures { result ≤ length parts.now }
{
    let mut stay = parts.len();
    let mut behind = behind;
    'last: while stay > 0 && parts[stay - 1].len() <= behind {
        behind = behind.saturating_add(parts[stay - 1].len());
        stay -= 1;
    }
    stay
}

// Parts and further names as one.
fn merged(alloc: Global, parts: &[NamePart], names: Vec<Tok>) -> Result<NamePart, Memory>
    ensures { IfOk result (λ p. p ≡ flat_map (λ p. p) parts.now ++ spellings names.items) }
{
    let mut all = Vec::with_capacity(alloc, names.len())?;
    push_parts(&mut all, parts)?;
    push_shared(&mut all, &names)?;
    NamePart::of(alloc, all)
}

fn same_parts(alloc: Global, parts: &[NamePart]) -> Result<Vec<NamePart>, Memory>
    ensures { IfOk result (λ all. all.items ≡ parts.now) }
{
    let mut all = Vec::with_capacity(alloc, parts.len() + 1)?;
    for part in parts {
        all.push(part.copy()?)?;
    }
    Ok(all)
}
