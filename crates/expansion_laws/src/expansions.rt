// What is true of all expansions: laws that no caller runs, and that callers' proofs cite.
ghost use Rattle.macro_expand.specs.Laws.{ExpandsInParts, IsOneStep, NothingElseIs, TokensComeFromSomewhere, WorkFalls};
ghost use Rattle.macro_expand.specs.Renaming.{ExpansionIsRenamed};
ghost use Rattle.expansion_laws.specs.Passing.{TestsAreKept};
ghost use Rattle.expansion_laws.specs.Pieces.{PlacesAreOfTheRun, TokensAreWhole};
ghost use Rattle.expansion_laws.specs.Spelled.{TokensAreSpelled, WordsAreNames};
ghost use Rattle.expansion_laws.specs.Telling.{LinksAreAlike, NotesAreTrue};

/// The whole expansion is one step and the whole expansion of what follows; nothing else is; and the work
/// that is left never rises.
pub fn expansion_goes_step_by_step()
    ensures steps { IsOneStep }
    ensures only { NothingElseIs }
    ensures falls { WorkFalls }
{}

/// Tokens are expanded part by part where no call reaches past the first part: their tokens, and what
/// happened, are those of the parts, one behind the other.
pub fn expansion_goes_part_by_part()
    ensures parts { ExpandsInParts }
{}

/// Kind, origins and spelling of each token of an expansion come from the run, a replacement list, a line,
/// the path, a string or a pasted token, and only names of macros are in hide sets.
pub fn expanded_tokens_come_from_somewhere()
    ensures tokens { TokensComeFromSomewhere }
{}

/// An expansion without a fault goes on as before under a renaming: where each replaced name gets the new
/// spelling of its macro's name, each string is that of the renamed tokens and each pasted token is what
/// the renamed tokens are pasted to, the renamed run expands to the renamed tokens, over the renamed
/// macros, with the same work left.
pub fn expansion_can_be_renamed()
    ensures renames { ExpansionIsRenamed }
{}

/// What the notes of an expansion tell did happen: a replaced name, and a linked one, is an identifier
/// that the table has a macro for, whose name stands beside it; strings and pasted tokens are those that
/// the definitions make. Where macros stand under their names, links join identifiers of equal spelling.
pub fn notes_tell_what_happened()
    ensures notes { NotesAreTrue }
    ensures links { LinksAreAlike }
{}

/// A test that the tokens of the run pass, and what macros put in for names that pass, and strings and
/// pasted tokens that are made of tokens that pass, each token of the expansion passes: of its result,
/// and each of which its notes tell, in all argument expansions too. The test may look at all of a token
/// but its white space and whether it is direct; of lines those alone must pass that were brought.
pub fn expansion_keeps_tests()
    ensures tests { TestsAreKept }
{}

/// Where each token of the run and of macros that is spelled with certain characters alone is made of
/// whole tokens out of a list, one behind the other, so is each such token of the expansion: of its
/// result, and each of which its notes tell. Any characters will do, but `"`, with which the strings
/// begin that `#` and `__FILE__` make; so the law says nothing of tokens that hold one.
pub fn expanded_tokens_are_whole()
    ensures whole { TokensAreWhole }
{}

/// Each token of an expansion stands where a token of the run stands, and on its line.
pub fn expanded_tokens_stand_in_the_run()
    ensures places { PlacesAreOfTheRun }
{}

/// Where the tokens of the run and of macros are spelled as their kinds say, so are those of the
/// expansion, of its result, and each of which its notes tell: an identifier is spelled as an identifier,
/// and a number as a pp-number. For character constants, strings and header names this speaks of their
/// first characters alone. What is spelled so, with letters, digits and `_` alone, is an identifier or a
/// number.
pub fn expanded_tokens_are_spelled()
    ensures spelled { TokensAreSpelled }
    ensures words { WordsAreNames }
{}
