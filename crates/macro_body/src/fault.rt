// Why an expansion fails.
use cs_base::{Memory as NoMemory, Pos};

/// The first fault of an expansion. `at` is the position of a macro's name.
#[derive(Clone, Copy, Debug, PartialEq, Eq)]
pub enum ExpandFault {
    /// A call has no `)` in the run (6.10.3 paragraph 4).
    OpenCall { at: Pos },
    /// A call has a wrong number of arguments (6.10.3 paragraph 4).
    WrongArguments { at: Pos },
    /// A `##` makes no token (6.10.3.3 paragraph 3).
    NotOneToken { at: Pos },
    /// A `#` makes no string literal (6.10.3.2 paragraph 2).
    NotAString { at: Pos },
    /// The replacements of the translation unit put in more tokens than this project allows.
    TooMuchWork { at: Pos },
    /// More than 200 arguments are expanded inside one another.
    TooDeep { at: Pos },
    /// Memory ran out.
    Memory,
}

impl From<NoMemory> for ExpandFault {
    ghost use Rattle.std.specs.Prelude.{◌≡◌};
    ghost use Rattle.macro_body.specs.declared.fault.ExpandFault.TheVariants.{Memory as no_memory};

    ghost from_gives = { λ _ e. e ≡ no_memory };

    fn from(_: NoMemory) -> Self {
        ExpandFault::Memory
    }
}
