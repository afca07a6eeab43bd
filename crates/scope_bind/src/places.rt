// The types of members by their number in a structure or union.
ghost use Rattle.std.specs.Prelude.{◌≡◌, slice_get, IfOk};
ghost use Rattle.std.specs.Option.{option_map, option_map_or};
ghost use Rattle.c_types.specs.Types.{arithmetic};
ghost use Rattle.name_chains.specs.Members.{members_of};

use crate::facts::Facts;
use c_types::{Base, CType, Declaration};
use cs_base::Memory;
use std::alloc::Global;

fn type_or(alloc: Global, member: Option<&Declaration>) -> Result<CType, Memory>
    ensures { IfOk result (λ r. r ≡ option_map_or (λ d. d.ctype) (option_map (λ d. d.now) member.entry) arithmetic) }
{
    match member {
        Some(d) => d.ctype.copied(),
        None => Ok(CType::plain(alloc, Base::Arithmetic)),
    }
}

impl Facts<'_> {
    /// The type of member number `n` of the structure or union.
    pub(crate) fn member_numbered(
        &self,
        alloc: Global,
        number: u32,
        n: u32,
    ) -> Result<CType, Memory>
        ensures { IfOk result (λ r. r ≡ option_map_or (λ d. d.ctype) (slice_get (members_of number self.now.facts) n) arithmetic) }
    {
        type_or(alloc, self.member(number, n))
    }
}
