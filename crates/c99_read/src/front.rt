// The beginning of a text that others have too: what has been read of it, from where these are read on.
ghost use Rattle.std.specs.Prelude.{◌≡◌, ◌<◌, ◌^◌, true, length, IfOk, IfSome};
ghost use Rattle.cs_base.specs.Answer.{Gives};
ghost use Rattle.c99_read.specs.Answer.{stop_of};
ghost use Rattle.c99_read.specs.Fronts.{BeginsWith, IsFront, front_value};
ghost use Rattle.c99_tree.specs.Joined.{followed};
ghost use Rattle.c99_read.specs.Reading.{read_of};
ghost use Rattle.c99_grammar.specs.Standard.{grammar};

use crate::faults::ReadRefusal;
use crate::file_names::FileNames;
use crate::reader::{Reader, Stand};
use c99_grammar::Dialect;
use c99_tree::Tree;
use cs_base::{Memory, Tok};
use std::alloc::Global;
use std::marker::Model;

/// What has been read of a text up to a place between two external declarations (6.9): its tokens as far as the reader has
/// seen them, and the tree and the names. Contracts see the record of specs/Fronts.antt.
#[derive(Drop)]
pub struct Front {
    dialect: Dialect,
    toks: Vec<Tok>,
    count: u32,
    at: usize,
    names: FileNames,
    tree: Tree,
}

impl Model for Front {
    ghost use Rattle.std.specs.Coded.{codes};
    ghost use Rattle.c99_tree.specs.TreeCode.{node_code};
    ghost use Rattle.c99_read.specs.Fronts.{FrontValue, front_value, IsFront};

    ghost Value = { FrontValue };

    ghost coded = { Prim.hlevel (codes, node_code) };

    ghost view = { λ f. front_value f.dialect f.toks.items f.count f.at f.names f.tree };

    ghost invariant = { λ f. IsFront (front_value f.dialect f.toks.items f.count f.at f.names f.tree) };
}

// Where the external declarations of the text end that begins so, and how many they are; none where one stops there, or the
// last is not followed by two tokens.
fn stand_in(
    alloc: Global,
    toks: &[Tok],
    end: usize,
    dialect: Dialect,
) -> Result<Option<(u32, Stand)>, Memory>
    requires few { length toks.now < 2 ^ 32 }
    ensures { IfOk result (λ o. IfSome o (λ r. IsFront (front_value dialect toks.now r.0 r.1.at r.1.names r.1.tree))) }
{
    let mut reader = match Reader::new(alloc, toks, dialect) {
        Ok(reader) => reader,
        Err(_) => return Err(Memory),
    };
    let count = match reader.externals_to(end, dialect) {
        Ok(count) => count,
        Err(_) => return Ok(None),
    };
    if count == 0 {
        return Ok(None);
    }
    match reader.into_stand()? {
        Some(stand) => Ok(Some((count, stand))),
        None => Ok(None),
    }
}

fn is_alike(a: &Tok, b: &Tok) -> bool
    ensures { result ≡ true → (a.now.kind ≡ b.now.kind) × (a.now.text ≡ b.now.text) }
{
    a.kind() == b.kind() && a.text() == b.text()
}

impl Front {
    /// What is read of these tokens up to token `end`, or to the end of the external declaration that has it; none where that
    /// is none, or fewer than two tokens follow.
    pub fn of(
        alloc: Global,
        toks: Vec<Tok>,
        end: usize,
        dialect: Dialect,
    ) -> Result<Option<Front>, Memory>
        requires few { length toks.items < 2 ^ 32 }
        ensures { IfOk result (λ o. IfSome o (λ f. (f.toks ≡ toks.items) × (f.dialect ≡ dialect))) }
    {
        match stand_in(alloc, toks.as_slice(), end, dialect)? {
            Some((count, stand)) => {
                let Stand { at, names, tree } = stand;
                Ok(Some(Front {
                    dialect,
                    toks,
                    count,
                    at,
                    names,
                    tree,
                }))
            }
            None => Ok(None),
        }
    }

    /// Which token is the first that has not been read.
    pub fn at(&self) -> usize
        ensures { result ≡ self.now.at }
    {
        self.at
    }

    pub fn dialect(&self) -> Dialect
        ensures { result ≡ self.now.dialect }
    {
        self.dialect
    }

    /// The node around the unit, as far as it is built.
    pub fn tree(&self) -> &Tree
        ensures { result.now ≡ self.now.tree }
    {
        &self.tree
    }

    /// The tokens that have been seen.
    pub fn toks(&self) -> &[Tok]
        ensures { result.now ≡ self.now.toks }
    {
        self.toks.as_slice()
    }

    /// How many tokens have been seen.
    pub fn len(&self) -> usize
        ensures { result ≡ length self.now.toks }
    {
        self.toks.len()
    }

    /// The text begins with the same tokens.
    pub fn begins(&self, toks: &[Tok]) -> bool
        ensures { result ≡ true → BeginsWith toks.now self.now }
    {
        let count = self.toks.len();
        if count > toks.len() {
            return false;
        }
        'tokens: for k in 0..count {
            if !is_alike(&self.toks[k], &toks[k]) {
                return false;
            }
        }
        true
    }
}

/// The tree of the tokens behind a front with which they begin, or the first fault.
pub fn read_from(alloc: Global, front: &Front, toks: &[Tok]) -> Result<Tree, ReadRefusal>
    requires few { length toks.now < 2 ^ 32 }
    requires begins { BeginsWith toks.now front.now }
    ensures answer { Gives (λ rest. followed front.now.tree rest) stop_of result (read_of (grammar front.now.dialect) toks.now) }
{
    let dialect = front.dialect;
    let mut reader = Reader::new(alloc, toks, dialect)?;
    reader.resume(&front.names, front.at, dialect)?;
    reader.externals(dialect)?;
    reader.finish()?;
    Ok(reader.into_unit()?)
}
