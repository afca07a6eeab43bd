// What can be wrong with the names of a translation unit.
ghost use Rattle.std.specs.Prelude.{◌≡◌};
ghost use Rattle.c_types.specs.declared.faults.BindRefusal.TheVariants.{Memory as NoMemory};

use cs_base::Memory;

/// The first fault in order of tokens, and at one token the first of these; each stands at an identifier.
#[derive(Clone, Copy, Debug, PartialEq, Eq, Drop)]
pub enum BindRefusal {
    /// The name is not visible (ISO/IEC 9899:1999, 6.2.1).
    Undeclared { index: u32 },
    /// The structure or union has no such member, or is not known (6.5.2.3).
    NoMember { index: u32 },
    /// The function has no such label (6.8.6.1).
    NoLabel { index: u32 },
    /// The name is declared already in this scope, structure or function (6.7, 6.8.1).
    Redeclared { index: u32 },
    /// The tag has a list already, or is of another kind (6.7.2.3).
    TagRedefined { index: u32 },
    /// The name has both linkages (6.2.2 paragraph 7).
    MixedLinkage { index: u32 },
    /// A member is designated at a place that is not followed (6.7.8).
    DesignatorAfterElision { index: u32 },
    Memory,
}

impl From<Memory> for BindRefusal {
    ghost from_gives = { λ _ e. e ≡ NoMemory };

    fn from(_: Memory) -> BindRefusal {
        BindRefusal::Memory
    }
}
