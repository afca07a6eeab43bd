// What is true of expansions whose tokens change places: laws that no caller runs, and that callers' proofs cite.
ghost use Rattle.expansion_laws.specs.Alike.{ExpandsAlike};
ghost use Rattle.expansion_laws.specs.Arranging.{CutsAreOne, RunsAreArranged, RunsHaveCuts};
ghost use Rattle.expansion_laws.specs.Ends.{ExpansionsEndAlike, FirstStays, LastStays};
ghost use Rattle.expansion_laws.specs.Portions.{PortionsCompose, PortionsMove};
ghost use Rattle.expansion_laws.specs.Sections.{RunsFall};
ghost use Rattle.expansion_laws.specs.Splitting.{ExpansionSplits};

use crate::expansions::expansion_goes_part_by_part;

/// An expansion splits at each of its tokens that no macro put in: the tokens of the run before it are expanded by
/// themselves to those before it, and those behind it to those behind it; and the former are expanded so whatever
/// stands behind that token.
pub fn expansion_splits()
    ensures splits { ExpansionSplits }
{}

/// Tokens that are alike but for their lines, and for white space before the first of them, are expanded to tokens
/// that are so too, with as much work, wherever they stand and whatever was put out before, where that much work is
/// left and no `__LINE__` or `__COUNTER__` is replaced. So are tokens that are alike but for these, and for their places too.
pub fn expansion_goes_alike()
    ensures alike { ExpandsAlike }
{}

/// A run that is made of portions, one behind the other, each of which is expanded somewhere and brings no number of a
/// line, is expanded to what they are expanded to, one behind the other, in whatever order they stand: tokens and notes
/// are alike, and it asks for as much work as they do together. So it is where lists of portions are in a new order,
/// and that asks for as much as before.
pub fn portions_compose()
    ensures portions { PortionsCompose }
    ensures moves { PortionsMove }
{
    expansion_goes_part_by_part();
}

/// A run whose expansion falls into sections, each of which ends in a sign that no macro put in, falls into sections
/// that are expanded to these by themselves, each with the work that the one before it left, and with its sign too.
pub fn runs_fall()
    ensures falls { RunsFall }
{}

/// A run in which lists stand whose marks are in what it is expanded to, each put in by no macro, goes along with a new
/// order of their items: the run in that order is expanded to the tokens in that order, but for lines, places and white
/// space, and as much work is left. In a list no `__LINE__` or `__COUNTER__` is replaced; outside lists one may be.
pub fn runs_are_arranged()
    ensures arranged { RunsAreArranged }
{
    expansion_goes_part_by_part();
}

/// Where the marks of lists stand in what a run is expanded to, each put in by no macro, the run has the same lists, with
/// as many items: each mark stands in it too. There is one such cut, where no token stands in the run twice.
pub fn runs_have_cuts()
    ensures cuts { RunsHaveCuts }
    ensures one { CutsAreOne }
{}

/// The first token of an expansion is that of its run where this one is no name, and the last one is where it is no name and
/// no `)`. So tests that each name passes, and each `)`, tell of the ends of the run what they tell of those of the expansion.
pub fn ends_stay()
    ensures first { FirstStays }
    ensures last { LastStays }
    ensures tests { ExpansionsEndAlike }
{}
