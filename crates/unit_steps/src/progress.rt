// What is known at each moment of a unit, beside the table of files.
ghost use Rattle.std.specs.Prelude.{◌≡◌, ◌<◌, ◌^◌, ◌&&◌, IsTrue, length, is_some, IfOk, Some, IfErr};
ghost use Rattle.std.specs.List.{list_all};
ghost use Rattle.cs_base.specs.Answer.{Gives};
ghost use Rattle.macro_expand.specs.Below.macro_body.Live.{table_of};
ghost use Rattle.macro_expand.specs.Below.macro_body.Sound.{is_traced, is_low};
ghost use Rattle.source_files.specs.Files.{Table};
ghost use Rattle.unit_steps.specs.State.{Context};
ghost use Rattle.unit_steps.specs.Names.{spelled_in, linked_with};
ghost use Rattle.unit_steps.specs.Expanding.{expanded_in, most_toks, put_out, run_of};
ghost use Rattle.source_files.specs.Answers.{fault_of, IsNoReadFault};
ghost use Rattle.unit_steps.specs.Keeping.{noted_in, kept_after, put_after};
ghost use Rattle.unit_steps.specs.SourceTexts.{source_in};

use crate::events::EventKind;
use crate::first_names::FirstNames;
use crate::source_text::SourceText;
use crate::unit_text::UnitText;
use cs_base::{Cause, Memory, Tok};
use macro_expand::{Macros, Notes, Work, expand};
use source_files::PreFault;
use std::alloc::Global;

const MOST_RUN: usize = 1 << 31;

/// The macros that are defined, the work that is left, the first names of each spelling, how many tokens
/// the unit may have, its text so far, where a search for the next file of the present one's name begins, and the
/// numbers of the files that are read once.
#[derive(Drop)]
pub struct Progress {
    pub alloc: Global,
    pub macros: Macros,
    pub work: Work,
    pub names: FirstNames,
    pub most: u32,
    pub text: UnitText,
    pub behind: Option<u32>,
    pub once: Vec<u32>,
}

// The link of a name with the one of its spelling, if there is one.
pub(crate) fn link_name(text: &mut UnitText, names: &FirstNames, name: &Tok) -> Result<(), Memory>
    ensures { IfOk result (λ _. text.new ≡ noted_in text.old (linked_with name.now (spelled_in names.now name.now.text))) }
{
    match names.find(name.text()) {
        Some(first) => text.note_linked(name, first),
        None => Ok(()),
    }
}

impl Progress {
    ghost use Rattle.unit_steps.specs.Moments.{state_in, IsAble, named_in, with_event, GoesOn};

    /// A name that is processed: it is linked with the first one of its spelling, or is the first.
    pub(crate) fn process_name(&mut self, name: &Tok) -> Result<(), Memory>
        ensures most { self.new.most ≡ self.old.most }
        ensures named { IfOk result (λ _. self.new ≡ named_in name.now self.old) }
    {
        link_name(&mut self.text, &self.names, name)?;
        self.names.add(name)
    }

    /// An event with a name, which is processed.
    pub(crate) fn process_event(&mut self, kind: EventKind, name: &Tok) -> Result<(), Memory>
        requires able { IsAble self.old }
        ensures most { self.new.most ≡ self.old.most }
        ensures named { IfOk result (λ _. self.new ≡ named_in name.now (with_event kind name.now self.old)) }
    {
        let before = self.text.before();
        self.text.note_name(kind, name, before)?;
        self.process_name(name)?;
        Ok(())
    }

    /// Whether a macro of this name is defined.
    pub(crate) fn has_macro(&self, name: &Tok) -> bool
        ensures { result ≡ is_some (table_of self.now.macros name.now.text) }
    {
        self.macros.find(name.text()).is_some()
    }

    /// The tokens that tokens of a file expand to, in a run or not. A run of more than 2^31 tokens, which
    /// no file has, is answered by `Memory`.
    pub fn expanded(
        &mut self,
        file: &SourceText,
        run: bool,
        toks: &[Tok],
    ) -> Result<Vec<Tok>, PreFault>
        requires sound { IsTrue (list_all (λ t. is_traced t && is_low t) toks.now) }
        requires able { IsAble self.old }
        ensures goes_on { GoesOn self.old self.new result }
        ensures few { IfOk result (λ out. length out.items < 2 ^ 32) }
        ensures no_read { IfErr result IsNoReadFault }
        ensures answer { (table : Table) → Gives (λ out. (out.items, state_in table self.new, self.new.text)) fault_of result (kept_after self.old.text (expanded_in run (source_in file.now) toks.now (state_in table self.old))) }
    {
        if toks.len() > MOST_RUN {
            return Err(PreFault::Memory);
        }
        let before = self.text.before();
        let mut notes = Notes::new(self.alloc);
        match expand(
            self.alloc,
            &self.macros,
            file.path,
            toks,
            &mut self.work,
            &mut notes,
        ) {
            Ok(out) => {
                self.text.note_expanded(run, before, notes)?;
                Ok(out)
            }
            Err(refused) => Err(file.expansion_fault(self.alloc, refused)),
        }
    }

    /// Tokens are put out.
    pub(crate) fn put_out(&mut self, file: &SourceText, out: Vec<Tok>) -> Result<(), PreFault>
        requires able { IsAble self.old }
        ensures goes_on { GoesOn self.old self.new result }
        ensures no_read { IfErr result IsNoReadFault }
        ensures answer { (ctx : Context) (table : Table) → most_toks ctx ≡ self.old.most → Gives (λ _. (state_in table self.new, self.new.text)) fault_of result (put_after self.old.text (put_out ctx (source_in file.now) out.items (state_in table self.old))) }
    {
        let room = (self.most - self.text.before()) as usize;
        if out.len() > room {
            return Err(file.fault(self.alloc, out[room].at(), Cause::TooManyTokens));
        }
        self.text.put(out)?;
        Ok(())
    }

    /// A run of text lines.
    pub fn run_of(&mut self, file: &SourceText, toks: &[Tok]) -> Result<(), PreFault>
        requires sound { IsTrue (list_all (λ t. is_traced t && is_low t) toks.now) }
        requires able { IsAble self.old }
        ensures goes_on { GoesOn self.old self.new result }
        ensures no_read { IfErr result IsNoReadFault }
        ensures answer { (ctx : Context) (table : Table) → most_toks ctx ≡ self.old.most → Gives (λ _. (state_in table self.new, self.new.text)) fault_of result (put_after self.old.text (run_of ctx (source_in file.now) toks.now (state_in table self.old))) }
    {
        let out = self.expanded(file, true, toks)?;
        self.put_out(file, out)
    }
}
