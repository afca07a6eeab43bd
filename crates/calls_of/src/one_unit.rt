// A unit of an analysis, and the bodies of its functions (ISO/IEC 9899:1999, 6.9.1).
ghost use Rattle.std.specs.Prelude.{◌≡◌, IfOk};
ghost use Rattle.calls_of.specs.OpenBodies.{AreOpenIn};

use crate::open_bodies::open_bodies;
use analysis::Bound;
use cs_base::{Memory, Tok};
use std::alloc::Global;

/// A unit: its project, its tokens and its binding, and for each number of tokens the function whose body is open
/// behind them.
#[derive(Drop)]
pub(crate) struct OneUnit<'a> {
    pub(crate) project: &'a [u8],
    pub(crate) toks: &'a [Tok],
    pub(crate) bound: &'a Bound,
    pub(crate) bodies: Vec<Option<u32>>,
    ghost told: { AreOpenIn bodies.items bound.now.functions },
}

impl<'a> OneUnit<'a> {
    pub(crate) fn new(
        alloc: Global,
        project: &'a [u8],
        toks: &'a [Tok],
        bound: &'a Bound,
    ) -> Result<OneUnit<'a>, Memory>
        ensures project { IfOk result (λ u. u.project.now ≡ project.now) }
        ensures toks { IfOk result (λ u. u.toks.now ≡ toks.now) }
        ensures bound { IfOk result (λ u. u.bound.now ≡ bound.now) }
    {
        let bodies = open_bodies(alloc, bound.functions())?;
        Ok(OneUnit {
            project,
            toks,
            bound,
            bodies,
        })
    }
}
