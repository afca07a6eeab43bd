// What is true of all units: laws that no caller runs, and that callers' proofs cite.
ghost use Rattle.include_tree.specs.Again.{ItemsGiveTheSameAgain, UnitGivesTheSameAgain};
ghost use Rattle.include_tree.specs.Laws.{FilesLead, UnitsEnd, DepthIsALimit};
ghost use Rattle.source_files.specs.Tables.{EarlierFound, SomeAgrees};
ghost use Rattle.include_tree.specs.PseudoFiles.{EqualSettingsShare, OthersStay};

/// Tokens that are put out are counted, and stay within the limits; work never rises; and the table of
/// files only grows, stays what the files hold, and has each path once, so that each is asked for once.
pub fn units_are_counted()
    ensures files { FilesLead }
    ensures units { UnitsEnd }
{}

/// A table only grows, so a source that agrees with what it tells agrees with what it told before; and some
/// source agrees with each table that has each path once.
pub fn tables_only_grow()
    ensures earlier { EarlierFound }
    ensures some { SomeAgrees }
{}

/// Where so many files suffice that may be open inside one another, more of them change nothing.
pub fn depth_is_a_limit()
    ensures depth { DepthIsALimit }
{}

/// A unit gives numbers to no pseudo files of other units.
pub fn pseudo_files_are_of_their_units()
    ensures others { OthersStay }
{}

/// Units of equal standards, settings and files included before their own begin with one pseudo file, that of the
/// first of them.
pub fn equal_settings_share()
    ensures share { EqualSettingsShare }
{}

/// What the items of a file gave, they give again in another unit of the same standard that looks for headers in the same
/// directories, where the table of files has only grown since: nothing is asked for, and nothing is read.
pub fn items_give_the_same_again()
    ensures again { ItemsGiveTheSameAgain }
{}

/// A unit that was preprocessed gives the same text again where the table of files has only grown since, whatever its number
/// is: nothing is asked for, and nothing is read.
pub fn unit_gives_the_same_again()
    ensures again { UnitGivesTheSameAgain }
{}
