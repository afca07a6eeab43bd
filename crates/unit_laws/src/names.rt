// What is true of the links of all units: laws that no caller runs, and that callers' proofs cite.
ghost use Rattle.unit_laws.specs.ToldNames.{ReplacingMacrosAreLinked, ToldNamesAreLinked};
ghost use Rattle.unit_laws.specs.Uses.{UsesAreLinked};

/// Names of one spelling of which events of a unit tell hang together by its links: what is the same for both tokens of
/// each link is the same for them. Only names spelled `__LINE__`, `__FILE__` or `__COUNTER__` need not. So does a replaced
/// name with that of its macro.
pub fn told_names_are_linked()
    ensures told { ToldNamesAreLinked }
    ensures replaced { ReplacingMacrosAreLinked }
{}

/// What a unit reached is an item of a kept file; of a `define` line the unit has a link of each use of a parameter in the
/// replacement list.
pub fn uses_are_linked()
    ensures uses { UsesAreLinked }
{}
