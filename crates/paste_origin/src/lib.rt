//! Pasting and strings: the operators `##` and `#` of a replacement list (ISO/IEC 9899:1999, 6.10.3.3
//! and 6.10.3.2).
//!
//! `glue` makes one token of two, whose characters keep their origins; it equals `glue_of` of
//! `specs/Pasting.antt`. `stringize` makes a string literal of an argument's tokens; it equals
//! `stringize_of` of `specs/Strings.antt`. Both ask the lexer whether the text is one token. Macros,
//! arguments, placemarkers and hide sets belong to the crates above, which also give the results the
//! labels of the macro's name. Each call takes time linear in the texts and shares no memory with its
//! operands. Read `specs/Pasting.antt` and `specs/Strings.antt`.
#![tactic(auto)]

mod glue_refusal;
mod pasting;
mod string_refusal;
mod strings;

pub use glue_refusal::GlueRefusal;
pub use pasting::glue;
pub use string_refusal::StrRefusal;
pub use strings::stringize;
