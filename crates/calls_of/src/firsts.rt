// The first token of each name of external linkage, in its project (ISO/IEC 9899:1999, 6.2.2 paragraph 2).
ghost use Rattle.std.specs.Prelude.{◌≡◌, ◌∷◌, [], List, ℕ, None, IfOk, OnOk};
ghost use Rattle.std.specs.Option.{option_copied};
ghost use Rattle.analysis.specs.Below.linkage_join.Firsts.{first_at};
ghost use Rattle.analysis.specs.Below.linkage_join.Linkage.{first_spelled, names_of};
ghost use Rattle.analysis.specs.Links.{external_names_from, names_of_units};
ghost use Rattle.calls_of.specs.Externals.{own_name, Adds, AddsUnits};

use analysis::{Bound, UnitAt, is_external_name};
use cs_base::{Memory, Tok, Unit};
use indexmap::IndexMap;
use std::alloc::Global;

/// For a project and a spelling the first token, where there is one. The keys and the tokens are lent.
#[derive(Drop)]
pub(crate) struct Firsts<'a> {
    toks: IndexMap<(&'a [u8], &'a [u8]), &'a Tok>,
}

impl<'a> Firsts<'a> {
    fn new(alloc: Global) -> Firsts<'a>
        ensures { (project text : List ℕ) → first_at result.toks project text ≡ None }
    {
        Firsts {
            toks: IndexMap::new(alloc),
        }
    }

    /// The first token of a spelling in a project.
    pub(crate) fn first(&self, project: &'a [u8], text: &'a [u8]) -> Option<&'a Tok>
        ensures { option_copied result ≡ first_at self.now.toks project.now text.now }
    {
        self.toks.get(&(project, text)).copied()
    }

    // A name becomes first, where its spelling has no token yet.
    fn keep(&mut self, project: &'a [u8], name: &'a Tok) -> Result<(), Memory>
        ensures { OnOk result (Adds project.now (name.now ∷ []) (first_at self.old.toks) (first_at self.new.toks)) }
    {
        if self.first(project, name.text()).is_none() {
            self.toks.insert((project, name.text()), name)?;
        }
        Ok(())
    }

    // So does token `k`, if it is the first that declares an entity of external linkage.
    fn keep_own(
        &mut self,
        project: &'a [u8],
        tok: &'a Tok,
        bound: &Bound,
        k: u32,
    ) -> Result<(), Memory>
        ensures { OnOk result (Adds project.now (own_name bound.now.names k tok.now) (first_at self.old.toks) (first_at self.new.toks)) }
    {
        if is_external_name(bound, k) {
            self.keep(project, tok)
        } else {
            Ok(())
        }
    }

    // So do those of a unit.
    fn keep_unit(&mut self, project: &'a [u8], toks: &'a [Tok], bound: &Bound) -> Result<(), Memory>
        ensures { OnOk result (Adds project.now (external_names_from bound.now.names 0 toks.now) (first_at self.old.toks) (first_at self.new.toks)) }
    {
        if toks.len() > u32::MAX as usize {
            return Err(Memory);
        }
        for k in 0..toks.len() {
            self.keep_own(project, &toks[k], bound, k as u32)?;
        }
        Ok(())
    }

    // So do those of all units.
    fn keep_units(&mut self, units: &'a [Unit], all: &'a [UnitAt<'_>]) -> Result<(), Memory>
        ensures { OnOk result (AddsUnits (names_of_units units.now all.now) (first_at self.old.toks) (first_at self.new.toks)) }
    {
        for i in 0..units.len().min(all.len()) {
            let one = &all[i];
            let text = one.text();
            let bound = one.bound();
            self.keep_unit(units[i].project().bytes(), text.toks(), bound)?;
        }
        Ok(())
    }

    /// The table of these units of an analysis, for those of its workspace.
    pub(crate) fn of(
        alloc: Global,
        units: &'a [Unit],
        all: &'a [UnitAt<'_>],
    ) -> Result<Firsts<'a>, Memory>
        ensures { IfOk result (λ f. (project text : List ℕ) → first_at f.toks project text ≡ first_spelled text (names_of project (names_of_units units.now all.now))) }
    {
        let mut firsts = Firsts::new(alloc);
        firsts.keep_units(units, all)?;
        Ok(firsts)
    }
}
