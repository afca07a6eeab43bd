// What a renaming against which nothing stands keeps of names: laws that no caller runs, and that callers' proofs cite.
ghost use Rattle.rename_meaning.specs.ReachedLines.{LinesStayAlikeWhereNamed};
ghost use Rattle.rename_meaning.specs.ToldNames.{ToldNamesAreKept, UnitsOccur};

/// Each identifier and each punctuator of a unit, and each name of which it tells, is one of a kept file or a pasted one.
pub fn units_occur()
    ensures { UnitsOccur }
{}

/// Each name of which a unit tells gets the new spelling of the macros of its spelling; `__LINE__`, `__FILE__` and
/// `__COUNTER__` stay.
pub fn told_names_are_kept()
    ensures { ToldNamesAreKept }
{}

/// What is spelled as a parameter of a definition gets the new spelling of the parameter, for a class that a place names.
pub fn lines_stay_alike_where_named()
    ensures { LinesStayAlikeWhereNamed }
{}
