// Macro definitions (ISO/IEC 9899:1999, 6.10.3).
ghost use Rattle.std.specs.Prelude.{◌≡◌, IfOk};

use crate::shared_tokens::{all_shared, shared};
use cs_base::{Memory, Tok, Toks};
use std::alloc::Global;

/// The form of a macro: object-like or function-like as its `define` line says (6.10.3 paragraphs 9
/// and 10), or one of those that stand for the line and the path of the file (6.10.8) and for the next
/// number of the unit, which GNU C has.
#[derive(Clone, Copy, Debug, PartialEq, Eq)]
pub enum Form {
    Object,
    Function,
    Line,
    File,
    Counter,
}

/// A macro: its name, its named parameters, whether variable arguments follow them, whether the last of them
/// stands for these, its replacement list, and whether a unit of GNU C defines it.
#[derive(Drop)]
pub struct Definition {
    pub name: Tok,
    pub form: Form,
    pub params: Toks,
    pub variadic: bool,
    pub named: bool,
    pub body: Toks,
    pub gnu: bool,
}

impl Definition {
    /// The same definition. Texts and origins of its tokens are shared.
    pub(crate) fn copied(&self, alloc: Global) -> Result<Definition, Memory>
        ensures { IfOk result (λ m. m ≡ self.now) }
    {
        Ok(Definition {
            name: shared(&self.name)?,
            form: self.form,
            params: Toks::new(all_shared(alloc, self.params.as_slice())?),
            variadic: self.variadic,
            named: self.named,
            body: Toks::new(all_shared(alloc, self.body.as_slice())?),
            gnu: self.gnu,
        })
    }
}
