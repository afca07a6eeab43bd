// Renamings that break meaning: laws that no caller runs.
ghost use Rattle.std.specs.Prelude.{codes};
ghost use Rattle.cs_base.specs.declared.causes.Cause.TheVariants.{Clash, Occurs, ShadowedTypedef};
ghost use Rattle.meaning_rows.specs.Clause.{KeptMeaningReadsAlike};
ghost use Rattle.meaning_rows.specs.Rows.{BreaksMeaning, IsOffence, IsPreprocessed, hidden_typedef, pasted_names, two_objects};
ghost use Rattle.meaning_rows.specs.Shared.{ArePreprocessed, BreaksSharing, KeepsEachReading, StandsAgainst, two_names};

/// Where meaning is kept, the renamed tokens of each unit are read to the tree that it had, and bound as they were.
pub fn kept_meaning_reads_alike()
    ensures { KeptMeaningReadsAlike }
{}

/// The files of the rows preprocess to their tokens.
pub fn rows_are_preprocessed()
    ensures objects { IsPreprocessed two_objects }
    ensures names { IsPreprocessed pasted_names }
    ensures typedefs { IsPreprocessed hidden_typedef }
    ensures shared { ArePreprocessed two_names }
{}

/// The first object of `int x;int y;` gets the name of the second: it occurs already, and both are one object.
pub fn occurring_names_break_meaning()
    ensures offence { IsOffence two_objects 4 (codes "y") Occurs 10 }
    ensures broken { BreaksMeaning two_objects 4 (codes "y") }
{}

/// The argument of `A(x)` gets the name `y`, which occurs nowhere: the names `xyy` and `yyx` that are pasted of it clash, and
/// are one object.
pub fn clashing_names_break_meaning()
    ensures offence { IsOffence pasted_names 32 (codes "y") Clash 32 }
    ensures broken { BreaksMeaning pasted_names 32 (codes "y") }
{}

/// The variable `T`, which hides a typedef name, gets another name: what was a list of identifiers in `g(T)` is a list of
/// types.
pub fn uncovered_typedefs_break_meaning()
    ensures offence { IsOffence hidden_typedef 31 (codes "U") ShadowedTypedef 39 }
    ensures broken { BreaksMeaning hidden_typedef 31 (codes "U") }
{}

/// The argument of `N(x)` gets the name `y` where one unit pastes `xyy` of it and another `yyx`: each unit is read and bound as
/// before, but the names clash, and the two units of a project share one object.
pub fn clashing_names_break_sharing()
    ensures offence { StandsAgainst two_names 72 (codes "y") Clash 72 }
    ensures alone { KeepsEachReading two_names 72 (codes "y") }
    ensures broken { BreaksSharing two_names 72 (codes "y") }
{}
