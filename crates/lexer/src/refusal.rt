// Why a file is refused.
use cs_base::Memory as NoMemory;
use thiserror::Error;

/// What `lex` answers where it gives no text, in the order in which it looks.
#[derive(Debug, Drop, Error)]
pub enum LexRefusal {
    /// The file has more than 2^22 bytes.
    #[error("FileTooLarge")]
    FileTooLarge,
    /// A comment that begins at logical character `at`, at this line and column, has no end.
    #[error("OpenComment")]
    OpenComment { at: u32, line: u32, column: u32 },
    /// Memory ran out.
    #[error("Memory")]
    Memory,
}

impl From<NoMemory> for LexRefusal {
    ghost use Rattle.std.specs.Prelude.{◌≡◌};
    ghost use Rattle.lexer.specs.declared.refusal.LexRefusal.TheVariants.{Memory as no_memory};

    ghost from_gives = { λ _ e. e ≡ no_memory };

    fn from(_: NoMemory) -> Self {
        LexRefusal::Memory
    }
}
