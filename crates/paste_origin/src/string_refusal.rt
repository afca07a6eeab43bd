// Why tokens make no string.
use cs_base::Memory as NoMemory;

/// What `stringize` answers where it gives no token.
#[derive(Clone, Copy, Debug, PartialEq, Eq)]
pub enum StrRefusal {
    /// The text is not one string literal.
    NotAString,
    /// Memory ran out.
    Memory,
}

impl From<NoMemory> for StrRefusal {
    ghost use Rattle.std.specs.Prelude.{◌≡◌};
    ghost use Rattle.paste_origin.specs.declared.string_refusal.StrRefusal.TheVariants.{Memory as no_memory};

    ghost from_gives = { λ _ e. e ≡ no_memory };

    fn from(_: NoMemory) -> Self {
        StrRefusal::Memory
    }
}
