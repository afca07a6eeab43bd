// What is true of the table of productions: laws that no caller runs.
ghost use Rattle.c99_grammar.specs.FirstSets.{FirstSetsAreTheTables};

/// The classes with which productions are said to start are those with which their alternatives in the
/// table do.
pub fn first_sets_are_the_tables()
    ensures { FirstSetsAreTheTables }
{}
