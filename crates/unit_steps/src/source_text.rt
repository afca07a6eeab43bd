// A source file that is processed, as it is lent.
ghost use Rattle.std.specs.Prelude.{◌≡◌, IfSome, IsSome, unwrap_or};
ghost use Rattle.source_files.specs.Below.lexer.FileText.{place_at};
ghost use Rattle.macro_expand.specs.Below.macro_body.Faults.{fault_of as expand_fault_of};
ghost use Rattle.source_files.specs.Faults.{fault_at};
ghost use Rattle.unit_steps.specs.Expanding.{expansion_fault};
ghost use Rattle.source_files.specs.Answers.{fault_of, IsNoReadFault};

use cs_base::{Cause, Pos};
use macro_expand::ExpandFault;
use source_files::{FileText, PreFault, fault_at};
use std::alloc::Global;

/// The number, the path and the text of a kept file.
#[derive(Clone, Copy)]
pub struct SourceText<'a> {
    pub number: u32,
    pub path: &'a [u8],
    pub text: &'a FileText,
}

impl<'a> SourceText<'a> {
    ghost use Rattle.unit_steps.specs.SourceTexts.{source_in};

    // The line and the column of a position.
    pub fn line_column(&self, at: Pos) -> (u32, u32)
        ensures { result ≡ unwrap_or (place_at self.now.text.now at.at) (1, 1) }
    {
        match self.text.line_column(at.at) {
            Some(place) => place,
            None => (1, 1),
        }
    }

    // A fault at a position.
    pub fn fault(&self, alloc: Global, at: Pos, cause: Cause) -> PreFault
        ensures answer { IfSome (fault_of result) (λ f. f ≡ fault_at (source_in self.now) at cause) }
        ensures no_read { IsNoReadFault result }
    {
        let (line, column) = self.line_column(at);
        fault_at(alloc, self.path, line, column, cause)
    }

    // The fault of an expansion: it stands at the name of a macro.
    pub(crate) fn expansion_fault(&self, alloc: Global, refused: ExpandFault) -> PreFault
        ensures answer { IfSome (fault_of result) (λ f. IfSome (expand_fault_of refused) (λ e. f ≡ expansion_fault (source_in self.now) e)) }
        ensures told { IsSome (fault_of result) → IsSome (expand_fault_of refused) }
        ensures no_read { IsNoReadFault result }
    {
        match refused {
            ExpandFault::OpenCall { at } => self.fault(alloc, at, Cause::OpenCall),
            ExpandFault::WrongArguments { at } => self.fault(alloc, at, Cause::WrongArguments),
            ExpandFault::NotOneToken { at } => self.fault(alloc, at, Cause::NotOneToken),
            ExpandFault::NotAString { at } => self.fault(alloc, at, Cause::NotAString),
            ExpandFault::TooMuchWork { at } => self.fault(alloc, at, Cause::TooMuchWork),
            ExpandFault::TooDeep { at } => self.fault(alloc, at, Cause::TooDeep),
            ExpandFault::Memory => PreFault::Memory,
        }
    }
}
