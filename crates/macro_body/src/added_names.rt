// Names that are added to the hide sets of the tokens of a result (6.10.3.4).
ghost use Rattle.std.specs.Prelude.{◌≡◌, [], IfOk};
ghost use Rattle.macro_body.specs.Hides.{hide_more, with_names};

use crate::hidden::HiddenTok;
use crate::hide_set::HideSet;
use cs_base::Memory;
use std::alloc::Global;
use std::marker::Model;

/// Names that are not available to the tokens of a result; and the set that they were added to last, with
/// what came of it, since tokens that follow one another mostly have the same. Contracts see the names.
#[derive(Drop)]
pub struct AddedNames {
    alloc: Global,
    names: HideSet,
    last: HideSet,
    both: HideSet,
}

impl Model for AddedNames {
    ghost use Rattle.std.specs.Prelude.{◌≡◌, List, ℕ};
    ghost use Rattle.macro_body.specs.Hides.{with_names};

    ghost Value = { List (List ℕ) };

    ghost view = { λ a. a.names };

    ghost invariant = { λ a. a.both ≡ with_names a.last a.names };
}

impl AddedNames {
    /// No names.
    pub fn none(alloc: Global) -> AddedNames
        ensures { result ≡ [] }
    {
        AddedNames {
            alloc,
            names: HideSet::new(alloc),
            last: HideSet::new(alloc),
            both: HideSet::new(alloc),
        }
    }

    pub fn new(alloc: Global, names: HideSet) -> Result<AddedNames, Memory>
        ensures { IfOk result (λ a. a ≡ names) }
    {
        let both = names.copy(alloc)?;
        Ok(AddedNames {
            alloc,
            names,
            last: HideSet::new(alloc),
            both,
        })
    }

    /// A token to which the names are not available either.
    pub fn added_to(&mut self, tok: HiddenTok) -> Result<HiddenTok, Memory>
        ensures answer { IfOk result (λ h. h ≡ hide_more self.old tok) }
        ensures unchanged { self.new ≡ self.old }
    {
        let HiddenTok { tok, hides } = tok;
        let hides = joined(
            self.alloc,
            hides,
            &self.names,
            &mut self.last,
            &mut self.both,
        )?;
        Ok(HiddenTok { tok, hides })
    }
}

// A set with further names, which were added to the last set before.
fn joined(
    alloc: Global,
    hides: HideSet,
    names: &HideSet,
    last: &mut HideSet,
    both: &mut HideSet,
) -> Result<HideSet, Memory>
    requires known { both.old ≡ with_names last.old names.now }
    ensures known { both.new ≡ with_names last.new names.now }
    ensures answer { IfOk result (λ h. h ≡ with_names hides names.now) }
{
    // A set without names is not kept, since it would push out the last one.
    if hides.is_empty() {
        return names.copy(alloc);
    }
    if hides.is_same(last) {
        return both.copy(alloc);
    }
    let made = hides.with_names(names)?;
    *both = made.copy(alloc)?;
    *last = hides;
    Ok(made)
}
