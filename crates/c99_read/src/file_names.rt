// The names of file scope, as they are between two external declarations (6.2.1, 6.9).
ghost use Rattle.std.specs.Prelude.{◌≡◌, ◌<◌, length, reverse, get_or};
ghost use Rattle.c99_read.specs.FileScope.{file_names, innermost};

use crate::names::Declaration;
use std::marker::Model;

/// The names of the one scope that is open, those of the scope that ended last, and those that were given to the declarator
/// read last. Contracts see the record of specs/State.antt.
#[derive(Drop)]
pub(crate) struct FileNames {
    pub(crate) open: Vec<Declaration>,
    pub(crate) ended: Vec<Declaration>,
    pub(crate) kept: Vec<Declaration>,
}

impl Model for FileNames {
    ghost use Rattle.std.specs.Prelude.{reverse};
    ghost use Rattle.c99_read.specs.State.{Names};
    ghost use Rattle.c99_read.specs.FileScope.{file_names};

    ghost Value = { Names };

    ghost view = { λ f. file_names (reverse f.open.items) (reverse f.ended.items) (reverse f.kept.items) };
}

impl FileNames {
    /// How many names the scope has.
    pub(crate) fn len(&self) -> usize
        ensures answer { result ≡ length (innermost self.now) }
        ensures shape { self.now ≡ file_names (innermost self.now) self.now.ended self.now.kept }
    {
        self.open.len()
    }

    /// Name number `k` of the scope from the first declared.
    pub(crate) fn at(&self, k: usize) -> Declaration
        requires { k < length (innermost self.now) }
        ensures { result ≡ get_or (reverse (innermost self.now)) k result }
    {
        self.open[k]
    }
}
