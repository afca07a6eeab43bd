// Why two tokens are not pasted.
use cs_base::Memory as NoMemory;

/// What `glue` answers where it gives no token.
#[derive(Clone, Copy, Debug, PartialEq, Eq)]
pub enum GlueRefusal {
    /// The spellings of the two tokens together are not one token.
    NotOneToken,
    /// Memory ran out.
    Memory,
}

impl From<NoMemory> for GlueRefusal {
    ghost use Rattle.std.specs.Prelude.{◌≡◌};
    ghost use Rattle.paste_origin.specs.declared.glue_refusal.GlueRefusal.TheVariants.{Memory as no_memory};

    ghost from_gives = { λ _ e. e ≡ no_memory };

    fn from(_: NoMemory) -> Self {
        GlueRefusal::Memory
    }
}
