// What include lines name (6.10.2).
ghost use Rattle.std.specs.Prelude.{◌≡◌, ◌&&◌, IsTrue, IfErr};
ghost use Rattle.std.specs.List.{list_all};
ghost use Rattle.cs_base.specs.Answer.{Gives};
ghost use Rattle.macro_expand.specs.Below.macro_body.Sound.{is_traced, is_low};
ghost use Rattle.source_files.specs.Files.{Table};
ghost use Rattle.source_files.specs.HeaderNames.{header_of_toks, header_at};
ghost use Rattle.source_files.specs.Answers.{fault_of, IsNoReadFault};
ghost use Rattle.unit_steps.specs.IncludeNames.{header_or, computed_header, written_header, header_named, next_named};
ghost use Rattle.unit_steps.specs.Keeping.{kept_after};
ghost use Rattle.unit_steps.specs.SourceTexts.{source_in};
ghost use Rattle.unit_steps.specs.Moments.{state_in, IsAble, GoesOn};

use crate::progress::Progress;
use crate::source_text::SourceText;
use cs_base::{Cause, Pos, Tok};
use source_files::{
    Header, PreFault, begins_header, header_at, header_in, header_of_toks, is_header,
};

impl Progress {
    /// The header that an include line whose `#` is there names, given by the tokens behind its word.
    pub fn header_named(
        &mut self,
        file: &SourceText,
        at: Pos,
        toks: &[Tok],
    ) -> Result<Header, PreFault>
        requires sound { IsTrue (list_all (λ t. is_traced t && is_low t) toks.now) }
        requires able { IsAble self.old }
        ensures goes_on { GoesOn self.old self.new result }
        ensures no_read { IfErr result IsNoReadFault }
        ensures answer { (table : Table) → Gives (λ h. (h, state_in table self.new, self.new.text)) fault_of result (kept_after self.old.text (header_named (source_in file.now) at toks.now (state_in table self.old))) }
    {
        match toks {
            [] => Err(file.fault(self.alloc, at, Cause::BadDirective)),
            [first, ..] => {
                if is_header(first) {
                    Ok(header_in(self.alloc, first.text())?)
                } else {
                    self.computed_header(file, at, toks)
                }
            }
        }
    }

    /// The header that an `include_next` line whose `#` is there names, given by the tokens behind its word.
    pub fn next_named(
        &mut self,
        file: &SourceText,
        at: Pos,
        toks: &[Tok],
    ) -> Result<Header, PreFault>
        requires sound { IsTrue (list_all (λ t. is_traced t && is_low t) toks.now) }
        requires able { IsAble self.old }
        ensures goes_on { GoesOn self.old self.new result }
        ensures no_read { IfErr result IsNoReadFault }
        ensures answer { (table : Table) → Gives (λ h. (h, state_in table self.new, self.new.text)) fault_of result (kept_after self.old.text (next_named (source_in file.now) at toks.now (state_in table self.old))) }
    {
        if begins_header(toks) {
            self.written_header(file, at, toks)
        } else {
            self.computed_header(file, at, toks)
        }
    }

    // The header of tokens as they stand.
    fn written_header(
        &mut self,
        file: &SourceText,
        at: Pos,
        toks: &[Tok],
    ) -> Result<Header, PreFault>
        requires able { IsAble self.old }
        ensures goes_on { GoesOn self.old self.new result }
        ensures no_read { IfErr result IsNoReadFault }
        ensures answer { (table : Table) → Gives (λ h. (h, state_in table self.new, self.new.text)) fault_of result (kept_after self.old.text (written_header (source_in file.now) at (state_in table self.old) (header_at toks.now))) }
    {
        match header_at(self.alloc, toks)? {
            None => Err(file.fault(self.alloc, at, Cause::BadDirective)),
            Some(header) => Ok(header),
        }
    }

    // The header of a line that is expanded.
    fn computed_header(
        &mut self,
        file: &SourceText,
        at: Pos,
        toks: &[Tok],
    ) -> Result<Header, PreFault>
        requires sound { IsTrue (list_all (λ t. is_traced t && is_low t) toks.now) }
        requires able { IsAble self.old }
        ensures goes_on { GoesOn self.old self.new result }
        ensures no_read { IfErr result IsNoReadFault }
        ensures answer { (table : Table) → Gives (λ h. (h, state_in table self.new, self.new.text)) fault_of result (kept_after self.old.text (computed_header (source_in file.now) at toks.now (state_in table self.old))) }
    {
        let out = self.expanded(file, false, toks)?;
        self.header_or(file, at, &out)
    }

    /// The header of the tokens that it is expanded to, or of those with which a condition asks for one.
    pub fn header_or(&mut self, file: &SourceText, at: Pos, out: &[Tok]) -> Result<Header, PreFault>
        requires able { IsAble self.old }
        ensures goes_on { GoesOn self.old self.new result }
        ensures no_read { IfErr result IsNoReadFault }
        ensures answer { (table : Table) → Gives (λ h. (h, state_in table self.new, self.new.text)) fault_of result (kept_after self.old.text (header_or (source_in file.now) at out.now (state_in table self.old) (header_of_toks out.now))) }
    {
        match header_of_toks(self.alloc, out)? {
            None => Err(file.fault(self.alloc, at, Cause::BadDirective)),
            Some(header) => {
                self.text.note_named(out)?;
                Ok(header)
            }
        }
    }
}
