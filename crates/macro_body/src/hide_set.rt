// Hide sets: the names that are not available to a token (6.10.3.4 paragraph 2).
ghost use Rattle.std.specs.Prelude.{◌≡◌, ◌++◌, ◌∷◌, [], option_map, unwrap_or, IfOk};
ghost use Rattle.std.specs.Bool.{OnTrue};
ghost use Rattle.std.specs.List.{flat_map, list_any};
ghost use Rattle.std.specs.Rc.{rc_slice_items};
ghost use Rattle.std.specs.Str.{bytes_eq};
ghost use Rattle.cs_base.specs.Token.{Token};
ghost use Rattle.line_shape.specs.MacroLine.{spellings};
ghost use Rattle.macro_body.specs.Hides.{hides_name, in_both, lacking, with_names};

use crate::name_parts::{
    NamePart, are_alike, are_alike_parts, have_part, is_in_parts, push_parts, with_part,
};
use crate::shared_tokens::{all_shared, push_shared, shared};
use cs_base::{Memory, Tok};
use std::alloc::Global;
use std::marker::Model;
use std::rc::RcSlice;

// So many names are looked through one by one, and copied where one is added.
const MOST_COPIED: usize = 64;

/// A hide set, kept as tokens that are spelled as its names, which its copies share: parts of many names, which
/// larger sets share too, each with more names than the next; and the few names behind them. So a name is sought
/// in a time that grows as the logarithm of their number. An empty set keeps none. Contracts see the list of the names.
#[derive(Drop)]
pub struct HideSet {
    alloc: Global,
    full: Option<RcSlice<NamePart>>,
    last: Option<RcSlice<Tok>>,
}

impl Model for HideSet {
    ghost use Rattle.std.specs.Prelude.{List, ℕ, [], ◌++◌, option_map, unwrap_or};
    ghost use Rattle.std.specs.List.{flat_map};
    ghost use Rattle.std.specs.Rc.{rc_slice_items};
    ghost use Rattle.line_shape.specs.MacroLine.{spellings};

    ghost Value = { List (List ℕ) };

    ghost view = { λ h. flat_map (λ p. p) (unwrap_or (option_map rc_slice_items h.full) [])
        ++ spellings (unwrap_or (option_map rc_slice_items h.last) []) };
}

impl HideSet {
    pub fn new(alloc: Global) -> HideSet
        ensures { result ≡ [] }
    {
        HideSet {
            alloc,
            full: None,
            last: None,
        }
    }

    // The names of parts, and these behind them: where these are many, they are put into a part.
    fn behind(
        alloc: Global,
        full: &Option<RcSlice<NamePart>>,
        names: Vec<Tok>,
    ) -> Result<HideSet, Memory>
        ensures { IfOk result (λ h. h ≡ flat_map (λ p. p) (unwrap_or (option_map rc_slice_items full.now) []) ++ spellings names.items) }
    {
        if names.len() <= MOST_COPIED {
            return Ok(HideSet {
                alloc,
                full: same_parts(full)?,
                last: Some(RcSlice::from_vec(names)?),
            });
        }
        let parts = with_part(alloc, parts_in(full), names)?;
        Ok(HideSet {
            alloc,
            full: Some(RcSlice::from_vec(parts)?),
            last: None,
        })
    }

    /// Whether the set is known to have no names.
    pub(crate) fn is_empty(&self) -> bool
        ensures { OnTrue result (self.now ≡ []) }
    {
        match (&self.full, &self.last) {
            (None, None) => true,
            _ => false,
        }
    }

    pub fn contains(&self, name: &[u8]) -> bool
        ensures { result ≡ hides_name self.now name.now }
    {
        if is_among(name, names_in(&self.last)) {
            return true;
        }
        is_in_parts(name, parts_in(&self.full))
    }

    /// The same names.
    pub fn copy(&self, alloc: Global) -> Result<HideSet, Memory>
        ensures { IfOk result (λ h. h ≡ self.now) }
    {
        Ok(HideSet {
            alloc,
            full: same_parts(&self.full)?,
            last: same_names(&self.last)?,
        })
    }

    /// Adds the name of a token.
    pub fn add(&mut self, name: &Tok) -> Result<(), Memory>
        ensures { IfOk result (λ _. self.new ≡ self.old ++ name.now.text ∷ []) }
    {
        let names = with_one(self.alloc, names_in(&self.last), name)?;
        *self = HideSet::behind(self.alloc, &self.full, names)?;
        Ok(())
    }

    // The tokens that are spelled as the names.
    fn listed(&self, alloc: Global) -> Result<Vec<Tok>, Memory>
        ensures { IfOk result (λ all. spellings all.items ≡ self.now) }
    {
        let last = names_in(&self.last);
        let mut all = Vec::with_capacity(alloc, last.len() + 1)?;
        push_parts(&mut all, parts_in(&self.full))?;
        push_shared(&mut all, last)?;
        Ok(all)
    }

    /// The same names, and those of another set that it does not have.
    pub fn with_names(&self, more: &HideSet) -> Result<HideSet, Memory>
        ensures { IfOk result (λ h. h ≡ with_names self.now more.now) }
    {
        if self.is_empty() {
            return more.copy(self.alloc);
        }
        let mut names = all_shared(self.alloc, names_in(&self.last))?;
        push_lacking_parts(&mut names, parts_in(&more.full), self)?;
        push_lacking(&mut names, names_in(&more.last), self)?;
        HideSet::behind(self.alloc, &self.full, names)
    }

    /// Whether another set is known to have the same names.
    pub fn is_same(&self, other: &HideSet) -> bool
        ensures { OnTrue result (self.now ≡ other.now) }
    {
        are_alike(names_in(&self.last), names_in(&other.last))
            && are_alike_parts(parts_in(&self.full), parts_in(&other.full))
    }

    /// The names that are in another set too.
    pub fn common(&self, alloc: Global, other: &HideSet) -> Result<HideSet, Memory>
        ensures { IfOk result (λ h. h ≡ in_both self.now other.now) }
    {
        if self.is_same(other) {
            return self.copy(alloc);
        }
        let names = self.listed(alloc)?;
        HideSet::behind(alloc, &None, common_names(alloc, &names, other)?)
    }
}

// Whether a token is spelled so.
fn is_among(name: &[u8], names: &[Tok]) -> bool
    ensures { result ≡ list_any (λ (t : Token). bytes_eq name.now t.text) names.now }
{
    names.iter().any(|known| name == known.text())
}

// Those of the tokens that are spelled as a name of the set.
fn common_names(alloc: Global, names: &[Tok], other: &HideSet) -> Result<Vec<Tok>, Memory>
    ensures { IfOk result (λ common. spellings common.items ≡ in_both (spellings names.now) other.now) }
{
    let mut common = Vec::new(alloc);
    for name in names {
        if other.contains(name.text()) {
            common.push(shared(name)?)?;
        }
    }
    Ok(common)
}

// Adds those of the tokens that are spelled as no name of the set.
fn push_lacking(all: &mut Vec<Tok>, names: &[Tok], hides: &HideSet) -> Result<(), Memory>
    ensures { IfOk result (λ _. spellings all.new.items ≡ spellings all.old.items ++ lacking hides.now (spellings names.now)) }
{
    for name in names {
        if !hides.contains(name.text()) {
            all.push(shared(name)?)?;
        }
    }
    Ok(())
}

// The same of the tokens of parts. A part that the set has too is passed over.
fn push_lacking_parts(all: &mut Vec<Tok>, parts: &[NamePart], hides: &HideSet) -> Result<(), Memory>
    ensures { IfOk result (λ _. spellings all.new.items ≡ spellings all.old.items ++ lacking hides.now (flat_map (λ p. p) parts.now)) }
{
    for part in parts {
        if !have_part(parts_in(&hides.full), part) {
            push_lacking(all, part.toks(), hides)?;
        }
    }
    Ok(())
}

// ---- the parts of a set

fn names_in(last: &Option<RcSlice<Tok>>) -> &[Tok]
    ensures { result.now ≡ unwrap_or (option_map rc_slice_items last.now) [] }
{
    match last {
        Some(names) => names.as_slice(),
        None => &[],
    }
}

fn parts_in(full: &Option<RcSlice<NamePart>>) -> &[NamePart]
    ensures { result.now ≡ unwrap_or (option_map rc_slice_items full.now) [] }
{
    match full {
        Some(parts) => parts.as_slice(),
        None => &[],
    }
}

fn same_names(last: &Option<RcSlice<Tok>>) -> Result<Option<RcSlice<Tok>>, Memory>
    ensures { IfOk result (λ same. unwrap_or (option_map rc_slice_items same) [] ≡ unwrap_or (option_map rc_slice_items last.now) []) }
{
    match last {
        Some(names) => Ok(Some(names.clone()?)),
        None => Ok(None),
    }
}

fn same_parts(full: &Option<RcSlice<NamePart>>) -> Result<Option<RcSlice<NamePart>>, Memory>
    ensures { IfOk result (λ same. unwrap_or (option_map rc_slice_items same) [] ≡ unwrap_or (option_map rc_slice_items full.now) []) }
{
    match full {
        Some(parts) => Ok(Some(parts.clone()?)),
        None => Ok(None),
    }
}

// The tokens, and one more.
fn with_one(alloc: Global, names: &[Tok], name: &Tok) -> Result<Vec<Tok>, Memory>
    ensures { IfOk result (λ all. all.items ≡ names.now ++ name.now ∷ []) }
{
    let mut all = Vec::with_capacity(alloc, names.len() + 1)?;
    push_shared(&mut all, names)?;
    all.push(shared(name)?)?;
    Ok(all)
}
