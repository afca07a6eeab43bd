// What a binding tells of the identifiers in a tree: laws that no caller runs, and that callers' proofs cite.
ghost use Rattle.tree_laws.specs.ToldNames.{IdentifiersAreTold};

use crate::bound::each_token_is_one_name;

/// Where the tree binds, each identifier in it is told as its place says.
pub fn identifiers_are_told()
    ensures { IdentifiersAreTold }
{
    each_token_is_one_name();
}
