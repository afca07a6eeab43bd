// Labels behind `goto` (ISO/IEC 9899:1999, 6.8.6.1).
ghost use Rattle.std.specs.Prelude.{◌≡◌, OnOk};
ghost use Rattle.std.specs.Option.{option_map};
ghost use Rattle.c_types.specs.declared.declarations.Space.TheVariants.{Labels};
ghost use Rattle.c_types.specs.Declarations.{anywhere};
ghost use Rattle.scope_bind.specs.Known.{known};
ghost use Rattle.scope_bind.specs.Labels.{jump_to, with_jumps, with_labels};

use crate::facts::Facts;
use c_types::{Body, Cause, Space};
use cs_base::Memory;

impl Facts<'_> {
    fn label_entity(&self, b: Body, i: u32) -> Option<u32>
        ensures { result ≡ option_map (λ d. d.entity) (anywhere self.now.toks (Labels b.from) i self.now.facts) }
    {
        self.anywhere(Space::Labels(b.from), i).map(|d| d.entity)
    }

    // A `goto` of the function.
    fn join(&mut self, b: Body, i: u32) -> Result<(), Memory>
        ensures { OnOk result (self.new ≡ known self.old.toks (jump_to self.old.toks i (anywhere self.old.toks (Labels b.from) i self.old.facts) self.old.facts)) }
    {
        match self.label_entity(b, i) {
            None => {
                self.note(true, Cause::NoLabel, i);
                Ok(())
            }
            Some(entity) => self.occur(i, entity, false),
        }
    }

    fn join_all(&mut self, b: Body, jumps: &[u32]) -> Result<(), Memory>
        ensures { OnOk result (self.new ≡ known self.old.toks (with_jumps self.old.toks b jumps.now self.old.facts)) }
    {
        'jumps: for i in jumps {
            self.join(b, *i)?;
        }
        Ok(())
    }

    /// The `goto`s of a function, once its body is read.
    pub(crate) fn join_jumps(&mut self, body: Option<Body>) -> Result<(), Memory>
        ensures { OnOk result (self.new ≡ known self.old.toks (with_labels self.old.toks body self.old.facts)) }
    {
        match body {
            None => Ok(()),
            Some(b) => {
                let jumps = self.jumps()?;
                self.join_all(b, jumps.as_slice())
            }
        }
    }
}
