// What is true of all units: laws that no caller runs, and that callers' proofs cite.
ghost use Rattle.unit_laws.specs.UnitItems.{ReachedTokensAreWhole};
ghost use Rattle.unit_laws.specs.UnitLinks.{UnitLinksAreAlike};
ghost use Rattle.unit_laws.specs.UnitNames.{UnitNamesAreMade};
ghost use Rattle.unit_laws.specs.UnitSpelling.{FilesAreSpelled, UnitTokensAreSpelled};
ghost use Rattle.unit_laws.specs.UnitTests.{UnitKeepsTests};
ghost use Rattle.unit_laws.specs.UnitTokens.{UnitTokensAreWhole, UnitTokensStandInFiles};

/// Each link of a unit joins two identifiers of equal spelling: a replaced name with the name of its macro,
/// a name of a directive or a condition with the first one of its spelling, and a use of a parameter with
/// the parameter.
pub fn unit_links_are_alike()
    ensures alike { UnitLinksAreAlike }
{}

/// A test that the tokens of kept files pass, also where they are put in for names that pass, and the numbers
/// that the unit brought, the strings that stand for `__FILE__`, and strings and pasted tokens that are
/// made of tokens that pass, each token of the unit passes: of its result, of links, pasted tokens,
/// strings' tokens, include lines and events.
pub fn unit_keeps_tests()
    ensures tests { UnitKeepsTests }
{}

/// Where the tokens of kept files that are spelled with certain characters are made of whole tokens out of
/// a list, one behind the other, and so are the numbers that the unit brought, so is each such token of
/// the unit: of its result, of links, pasted tokens, strings' tokens, include lines and events. Any
/// characters will do, but `"`.
pub fn unit_tokens_are_whole()
    ensures whole { UnitTokensAreWhole }
{}

/// The same where it is so of the tokens that a unit takes from the items that it reached: of runs, of names,
/// parameters and replacement lists, of conditions that are evaluated and of include lines that are expanded. So
/// nothing of a unit comes from the word of a directive, or from a line that no unit processes.
pub fn reached_tokens_are_whole()
    ensures whole { ReachedTokensAreWhole }
{}

/// Each token of a unit stands where a token of a kept file stands, and on its line; and each event stands
/// where one stands.
pub fn unit_tokens_stand_in_files()
    ensures places { UnitTokensStandInFiles }
{}

/// The tokens of kept files are spelled as their kinds say, and so is each token of a unit: an identifier is
/// spelled as an identifier, and a number as a pp-number.
pub fn unit_tokens_are_spelled()
    ensures files { FilesAreSpelled }
    ensures spelled { UnitTokensAreSpelled }
{}

/// Each identifier of a unit is made of identifiers and pp-numbers of kept files, and of numbers that the
/// unit brought, each whole, one behind the other: in its spelling, and in the origins of its characters.
/// So is each token of its links. Of a pp-number `unit_tokens_are_whole` says the same only where letters,
/// digits and `_` alone spell it: a `.` or a sign in it may have been a punctuator of a file.
pub fn unit_names_are_made_of_names()
    ensures made { UnitNamesAreMade }
{}
