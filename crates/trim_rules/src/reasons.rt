// Why include lines stay.
ghost use Rattle.std.specs.Prelude.{◌≡◌, IfOk};
ghost use Rattle.trim_rules.specs.Reasons.{reason, why};

use cs_base::{Memory, Text};
use std::alloc::Global;

/// Why an include line stays.
#[derive(Drop)]
pub enum Why {
    /// Its operand is expanded first.
    Computed,
    /// It brings tokens that are no whole declarations.
    Fragment,
    /// This name, to which it gives a meaning, is mentioned elsewhere.
    Name(Text),
    /// It brings a definition of this name, with external linkage.
    Definition(Text),
    /// A pragma is reached inside.
    Pragma,
}

/// The same, its name lent by the analysis.
#[derive(Clone, Copy)]
pub(crate) enum Reason<'a> {
    Computed,
    Fragment,
    Name(&'a [u8]),
    Definition(&'a [u8]),
    Pragma,
}

impl<'a> Reason<'a> {
    /// The reason with a name of its own.
    pub(crate) fn kept(self, alloc: Global) -> Result<Why, Memory>
        ensures { IfOk result (λ w. why w ≡ reason self.entry) }
    {
        match self {
            Reason::Computed => Ok(Why::Computed),
            Reason::Fragment => Ok(Why::Fragment),
            Reason::Name(name) => Ok(Why::Name(Text::new(alloc, name)?)),
            Reason::Definition(name) => Ok(Why::Definition(Text::new(alloc, name)?)),
            Reason::Pragma => Ok(Why::Pragma),
        }
    }
}
