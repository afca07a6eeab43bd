// Lines that define macros, take them away or ask for them (6.10.1, 6.10.3, 6.10.3.5), and pragmas (6.10.6).
ghost use Rattle.std.specs.Prelude.{◌≡◌, ◌∷◌, [], ◌&&◌, not, false, IsTrue, IfOk, OnOk, Ok, Some, codes, cond, drop, length, option_copied, IfErr};
ghost use Rattle.std.specs.List.{flat_map, list_all, list_any};
ghost use Rattle.cs_base.specs.Answer.{Gives};
ghost use Rattle.source_files.specs.Below.line_shape.Signs.{is_word};
ghost use Rattle.source_files.specs.Below.line_shape.declared.items.ItemKind.TheVariants.{Define};
ghost use Rattle.source_files.specs.Below.line_shape.Items.{line_kind};
ghost use Rattle.macro_expand.specs.Below.macro_body.declared.definitions.Definition.{Definition as Macro};
ghost use Rattle.macro_expand.specs.Below.macro_body.Sound.{is_traced, is_low};
ghost use Rattle.macro_expand.specs.Below.macro_body.Defining.{defined_by};
ghost use Rattle.source_files.specs.Files.{Table, SourceFile};
ghost use Rattle.unit_steps.specs.Names.{linked_with, parameter_named, definition_links};
ghost use Rattle.unit_steps.specs.Conditions.{is_macro, test_notes};
ghost use Rattle.unit_steps.specs.Directives.{operand_in, define_notes, define_of, undef_of, asks_name, opens_with, goes_with_line, goes_with, says_once, said_once, pragma_of, may_define};
ghost use Rattle.source_files.specs.Answers.{fault_of, IsNoReadFault};
ghost use Rattle.unit_steps.specs.Keeping.{noted_in, kept_after, put_after};
ghost use Rattle.unit_steps.specs.SourceTexts.{source_in};
ghost use Rattle.unit_steps.specs.FirstNames.{names_with};
ghost use Rattle.unit_steps.specs.Moments.{state_in, IsAble, GoesOn};

use crate::events::EventKind;
use crate::first_names::FirstNames;
use crate::progress::{Progress, link_name};
use crate::source_text::SourceText;
use crate::unit_text::UnitText;
use cs_base::{Cause, Memory, Pos, Tok};
use macro_expand::{Definition, is_name, is_word};
use source_files::{GnuLine, ItemKind, PreFault};
use std::alloc::Global;

// The link of a token of a replacement list with the parameter that it names.
fn link_use(text: &mut UnitText, params: &FirstNames, tok: &Tok) -> Result<(), Memory>
    ensures { IfOk result (λ _. text.new ≡ noted_in text.old (linked_with tok.now (parameter_named params.now tok.now))) }
{
    if is_name(tok) {
        link_name(text, params, tok)
    } else {
        Ok(())
    }
}

// The links of a replacement list: each use of a parameter with the parameter.
fn link_body(text: &mut UnitText, params: &FirstNames, body: &[Tok]) -> Result<(), Memory>
    ensures { IfOk result (λ _. text.new ≡ noted_in text.old (flat_map (λ t. linked_with t (parameter_named params.now t)) body.now)) }
{
    for tok in body {
        link_use(text, params, tok)?;
    }
    Ok(())
}

// The links of a definition.
fn link_uses(alloc: Global, text: &mut UnitText, m: &Definition) -> Result<(), Memory>
    ensures { IfOk result (λ _. text.new ≡ noted_in text.old (definition_links m.now)) }
{
    let params = FirstNames::of(alloc, m.params.as_slice())?;
    link_body(text, &params, m.body.as_slice())?;
    Ok(())
}

// The name that a directive takes.
fn operand_in(toks: &[Tok]) -> Option<&Tok>
    ensures { option_copied result ≡ operand_in toks.now }
{
    match toks {
        [_, _, name, ..] => Some(name),
        _ => None,
    }
}

// Whether a unit of GNU C, or of another standard, has such a macro.
fn may_define(gnu: bool, m: &Definition) -> bool
    ensures { result ≡ may_define gnu m.now }
{
    if gnu {
        !has_optional(m.body.as_slice())
    } else {
        !m.named
    }
}

fn has_optional(body: &[Tok]) -> bool
    ensures { result ≡ list_any (λ t. is_word (codes "__VA_OPT__") t) body.now }
{
    body.iter().any(|tok| is_word(tok, b"__VA_OPT__"))
}

// Whether a `pragma` line says that its file is read once.
fn says_once(toks: &[Tok]) -> bool
    ensures { result ≡ says_once toks.now }
{
    match operand_in(toks) {
        Some(word) => is_word(word, b"once"),
        None => false,
    }
}

// The same of a line in a unit of GNU C or of another standard, where it says nothing.
fn is_once_line(gnu: bool, toks: &[Tok]) -> bool
    ensures { result ≡ (gnu && says_once toks.now) }
{
    gnu && says_once(toks)
}

/// The tokens behind the `#` and the word of a line.
pub fn behind_word(toks: &[Tok]) -> &[Tok]
    ensures { result.now ≡ drop 2 toks.now }
{
    if toks.len() < 2 {
        return &toks[toks.len()..];
    }
    &toks[2..]
}

impl Progress {
    // A macro is defined: what happens then, the definition aside.
    fn note_define(&mut self, m: &Definition) -> Result<(), Memory>
        requires able { IsAble self.old }
        ensures most { self.new.most ≡ self.old.most }
        ensures noted { (table : Table) → OnOk result (self.new ≡ record self.old { names = names_with m.now.name self.old.names; text = noted_in self.old.text (define_notes m.now (state_in table self.old)) }) }
    {
        self.process_event(EventKind::Defined, &m.name)?;
        link_uses(self.alloc, &mut self.text, m)?;
        Ok(())
    }

    /// A `define` line whose `#` is there, in a unit of GNU C or of another standard.
    pub fn define(
        &mut self,
        gnu: bool,
        file: &SourceText,
        at: Pos,
        toks: &[Tok],
    ) -> Result<(), PreFault>
        requires defines { line_kind toks.now ≡ Define }
        requires traced { (m : Macro) → defined_by toks.now ≡ Some m → IsTrue (list_all is_traced m.body) }
        requires able { IsAble self.old }
        ensures goes_on { GoesOn self.old self.new result }
        ensures no_read { IfErr result IsNoReadFault }
        ensures answer { (table : Table) → Gives (λ _. (state_in table self.new, self.new.text)) fault_of result (put_after self.old.text (define_of gnu (source_in file.now) at toks.now (state_in table self.old))) }
    {
        let mut m = Definition::of(self.alloc, toks)?;
        if !may_define(gnu, &m) {
            return Err(file.fault(self.alloc, at, Cause::BadDirective));
        }
        m.gnu = gnu;
        self.note_define(&m)?;
        self.macros.define(m)?;
        Ok(())
    }

    /// An `undef` line whose `#` is there.
    pub fn undef(&mut self, file: &SourceText, at: Pos, toks: &[Tok]) -> Result<(), PreFault>
        requires able { IsAble self.old }
        ensures goes_on { GoesOn self.old self.new result }
        ensures no_read { IfErr result IsNoReadFault }
        ensures answer { (table : Table) → Gives (λ _. (state_in table self.new, self.new.text)) fault_of result (put_after self.old.text (undef_of (source_in file.now) at toks.now (state_in table self.old))) }
    {
        match operand_in(toks) {
            None => Err(file.fault(self.alloc, at, Cause::BadDirective)),
            Some(name) => {
                self.process_event(EventKind::Undefined, name)?;
                self.macros.undef(name.text());
                Ok(())
            }
        }
    }

    /// Whether a macro of this name is defined, where that is asked for.
    pub(crate) fn test(&mut self, name: &Tok) -> Result<bool, Memory>
        requires able { IsAble self.old }
        ensures most { self.new.most ≡ self.old.most }
        ensures answer { (table : Table) → IfOk result (λ b. b ≡ is_macro name.now (state_in table self.old)) }
        ensures noted { (table : Table) → OnOk result (self.new ≡ record self.old { names = names_with name.now self.old.names; text = noted_in self.old.text (test_notes name.now (state_in table self.old)) }) }
    {
        let known = self.has_macro(name);
        self.process_event(EventKind::Tested, name)?;
        Ok(known)
    }

    /// An `ifdef` line, or an `ifndef` line, which asks for the opposite.
    pub fn asks_name(
        &mut self,
        file: &SourceText,
        at: Pos,
        opposite: bool,
        toks: &[Tok],
    ) -> Result<bool, PreFault>
        requires able { IsAble self.old }
        ensures goes_on { GoesOn self.old self.new result }
        ensures no_read { IfErr result IsNoReadFault }
        ensures answer { (table : Table) → Gives (λ b. (b, state_in table self.new, self.new.text)) fault_of result (kept_after self.old.text (asks_name (source_in file.now) at (λ b. cond opposite (not b) b) (state_in table self.old) (operand_in toks.now))) }
    {
        match operand_in(toks) {
            None => Err(file.fault(self.alloc, at, Cause::BadDirective)),
            Some(name) => {
                let known = self.test(name)?;
                Ok(known != opposite)
            }
        }
    }

    /// Whether the first group of a section is processed, by the line of this kind that opens it.
    pub fn opens_with(
        &mut self,
        file: &SourceText,
        kind: ItemKind,
        at: Pos,
        toks: &[Tok],
    ) -> Result<bool, PreFault>
        requires sound { IsTrue (list_all (λ t. is_traced t && is_low t) toks.now) }
        requires able { IsAble self.old }
        ensures goes_on { GoesOn self.old self.new result }
        ensures no_read { IfErr result IsNoReadFault }
        ensures answer { (table : Table) → Gives (λ b. (b, state_in table self.new, self.new.text)) fault_of result (kept_after self.old.text (opens_with kind (source_in file.now) at toks.now (state_in table self.old))) }
    {
        match kind {
            ItemKind::If => self.holds(file, at, behind_word(toks)),
            ItemKind::Ifdef => self.asks_name(file, at, false, toks),
            ItemKind::Ifndef => self.asks_name(file, at, true, toks),
            _ => Err(file.fault(self.alloc, at, Cause::BadDirective)),
        }
    }

    // The same of a line that goes on with a section, which GNU C alone has.
    fn goes_with_line(
        &mut self,
        file: &SourceText,
        line: GnuLine,
        at: Pos,
        toks: &[Tok],
    ) -> Result<bool, PreFault>
        requires able { IsAble self.old }
        ensures goes_on { GoesOn self.old self.new result }
        ensures no_read { IfErr result IsNoReadFault }
        ensures answer { (table : Table) → Gives (λ b. (b, state_in table self.new, self.new.text)) fault_of result (kept_after self.old.text (goes_with_line line (source_in file.now) at toks.now (state_in table self.old))) }
    {
        match line {
            GnuLine::Elifdef => self.asks_name(file, at, false, toks),
            GnuLine::Elifndef => self.asks_name(file, at, true, toks),
            _ => Err(file.fault(self.alloc, at, Cause::BadDirective)),
        }
    }

    /// Whether the next group of a section is processed where none was yet, by the line of this kind that goes on with it.
    pub fn goes_with(
        &mut self,
        file: &SourceText,
        kind: ItemKind,
        at: Pos,
        toks: &[Tok],
    ) -> Result<bool, PreFault>
        requires sound { IsTrue (list_all (λ t. is_traced t && is_low t) toks.now) }
        requires able { IsAble self.old }
        ensures goes_on { GoesOn self.old self.new result }
        ensures no_read { IfErr result IsNoReadFault }
        ensures answer { (table : Table) → Gives (λ b. (b, state_in table self.new, self.new.text)) fault_of result (kept_after self.old.text (goes_with kind (source_in file.now) at toks.now (state_in table self.old))) }
    {
        match kind {
            ItemKind::Gnu(line) => self.goes_with_line(file, line, at, toks),
            _ => self.holds(file, at, behind_word(toks)),
        }
    }

    // A line whose `#` is there says that its file is read once.
    fn say_once(&mut self, at: Pos, file: u32) -> Result<(), Memory>
        requires able { IsAble self.old }
        ensures goes_on { GoesOn self.old self.new result }
        ensures answer { (table : Table) (source : SourceFile) → source.number ≡ file → OnOk result (put_after self.old.text (said_once source at (state_in table self.old)) ≡ Ok (state_in table self.new, self.new.text)) }
    {
        let before = self.text.before();
        self.text.note_file(EventKind::Once, at, file, before)?;
        self.once.push(file)?;
        Ok(())
    }

    /// A `pragma` line whose `#` is there, in a unit of GNU C or of another standard.
    pub fn pragma(
        &mut self,
        gnu: bool,
        file: &SourceText,
        at: Pos,
        toks: &[Tok],
    ) -> Result<(), Memory>
        requires able { IsAble self.old }
        ensures goes_on { GoesOn self.old self.new result }
        ensures answer { (table : Table) → OnOk result (put_after self.old.text (pragma_of gnu (source_in file.now) at toks.now (state_in table self.old)) ≡ Ok (state_in table self.new, self.new.text)) }
    {
        if is_once_line(gnu, toks) {
            self.say_once(at, file.number)
        } else {
            Ok(())
        }
    }
}
