// The first token of each external name.
ghost use Rattle.std.specs.Prelude.{◌≡◌, ◌++◌, ◌∷◌, [], List, ℕ, None, IfOk, OnOk};
ghost use Rattle.std.specs.Option.{option_copied};
ghost use Rattle.linkage_join.specs.Firsts.{first_at, with_names, table_links};

use crate::unit_names::UnitNames;
use cs_base::{Link, Memory, Tok};
use indexmap::IndexMap;
use std::alloc::Global;

/// For a project and a spelling the first token, where there is one. The keys are lent by the units.
#[derive(Drop)]
pub struct Firsts<'a> {
    toks: IndexMap<(&'a [u8], &'a [u8]), &'a Tok>,
}

impl<'a> Firsts<'a> {
    pub fn new(alloc: Global) -> Firsts<'a>
        ensures { (project text : List ℕ) → first_at result.toks project text ≡ None }
    {
        Firsts {
            toks: IndexMap::new(alloc),
        }
    }

    fn first(&self, project: &'a [u8], text: &'a [u8]) -> Option<&'a Tok>
        ensures { option_copied result ≡ first_at self.now.toks project.now text.now }
    {
        self.toks.get(&(project, text)).copied()
    }

    /// The links of a unit's names with the tokens of the table, in order.
    pub fn link(&self, unit: &'a UnitNames, links: &mut Vec<Link>) -> Result<(), Memory>
        ensures { OnOk result (links.new.items ≡ links.old.items ++ table_links (first_at self.now.toks) unit.now.project unit.now.names) }
    {
        for name in unit.names() {
            if let Some(first) = self.first(unit.project(), name.text()) {
                links.push(link(name, first)?)?;
            }
        }
        Ok(())
    }

    /// A unit's names become first, where their spellings have no token yet.
    pub fn add(&mut self, unit: &'a UnitNames) -> Result<(), Memory>
        ensures { OnOk result ((project text : List ℕ) →
            first_at self.new.toks project text ≡ with_names unit.now.project unit.now.names (first_at self.old.toks) project text) }
    {
        for name in unit.names() {
            self.keep(unit.project(), name)?;
        }
        Ok(())
    }

    fn keep(&mut self, project: &'a [u8], name: &'a Tok) -> Result<(), Memory>
        ensures { OnOk result ((own text : List ℕ) →
            first_at self.new.toks own text ≡ with_names project.now (name.now ∷ []) (first_at self.old.toks) own text) }
    {
        if self.first(project, name.text()).is_none() {
            self.toks.insert((project, name.text()), name)?;
        }
        Ok(())
    }
}

fn copied(tok: &Tok) -> Result<Tok, Memory>
    ensures { IfOk result (λ copy. copy ≡ tok.now) }
{
    tok.share(tok.gap(), tok.at(), tok.line(), tok.direct())
}

fn link(later: &Tok, first: &Tok) -> Result<Link, Memory>
    ensures { IfOk result (λ link. link ≡ record { x = later.now; y = first.now }) }
{
    Ok(Link {
        x: copied(later)?,
        y: copied(first)?,
    })
}
