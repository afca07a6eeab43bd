// What holds after any list of calls.
ghost use Rattle.eclass_map.specs.History.{JoinsRelabelLittle};

/// All joins so far gave another class number to at most N times the binary digits of N characters, where the
/// table has N parts, with no more ticks than that.
pub fn joins_relabel_little()
    ensures { JoinsRelabelLittle }
{}
