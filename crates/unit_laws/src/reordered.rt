// What is true of units over files in which lists are in a new order: laws that no caller runs, and that callers' proofs cite.
ghost use Rattle.unit_laws.specs.Files.{ItemsAreAlike, RunsStandInFiles, TextsStay};
ghost use Rattle.unit_laws.specs.Reordered.{UnitsAreReordered};
ghost use Rattle.unit_laws.specs.TokenRuns.{UnitTokensAreOfRuns};
ghost use Rattle.unit_laws.specs.Walking.{UnitsGoAlike};

use expansion_laws::{notes_tell_what_happened, runs_are_arranged, runs_have_cuts};

/// Over edited files whose items are the old ones but for runs of text lines, where each run that the unit reaches brings
/// the tokens in the new order, and as many, for as much work, the unit brings its tokens in the new order, and the state
/// behind it is the same but for the bytes of files.
pub fn units_go_alike()
    ensures alike { UnitsGoAlike }
{}

/// Over files in which the items of lists change places, where the marks of the lists of a unit were put in by no macro, no
/// item is reached in a list, no `__LINE__` or `__COUNTER__` is replaced in one, and the runs of the edited files are the
/// old ones in the new order, but for lines, places and white space before items, the unit brings its tokens in the new
/// order, by their kinds and spellings, and what is carried on is the same but for the bytes of files.
pub fn units_are_reordered()
    ensures reordered { UnitsAreReordered }
{
    runs_are_arranged();
    runs_have_cuts();
    notes_tell_what_happened();
}

/// A file whose tokens are the old ones in the new order, by a cut of lists that stand inside runs of text lines, has the items
/// that it had, but for the tokens of runs; so has one without lists that stays. Where in each run that a unit reaches the lists of its file stand, with the marks
/// that they have in the unit, each run of such files is the old one in the new order.
pub fn files_stand()
    ensures items { ItemsAreAlike }
    ensures stay { TextsStay }
    ensures runs { RunsStandInFiles }
{
    runs_have_cuts();
}

/// Each token of a unit was put out by a run of text lines that the unit reached: the item of its file, as often as it is
/// reached, puts out the tokens from where it is reached to where its expansion ends, and no others.
pub fn tokens_are_of_runs()
    ensures { UnitTokensAreOfRuns }
{}
