// What is true of a renaming against which no offence stands: laws that no caller runs, and that callers' proofs cite.
ghost use Rattle.rename_meaning.specs.KeptFiles.{FilesKeepPieces};
ghost use Rattle.rename_meaning.specs.KeptLines.{LinesAreKept};
ghost use Rattle.rename_meaning.specs.KeptTokens.{PastedTokensAreKept, TokensAreKept};
ghost use Rattle.rename_meaning.specs.MadeTokens.{HeadersStay, StringsAreOfRenamedTokens, TokensAreMadeAnew};
ghost use Rattle.rename_meaning.specs.NamedClasses.{WordsAreFreeWhereNamed};
ghost use Rattle.rename_meaning.specs.Occurring.{FileTokensOccur, OccurringAreKept, PastedTokensOccur};
ghost use Rattle.rename_meaning.specs.Renamings.{EditedFilesAreRenamed, RenamingsKeepUnedited, RenamingsSpell};
ghost use Rattle.rename_meaning.specs.Spellings.{LinkedStayAlike, OthersStayApart};

use edited_unit_laws::edited_files_keep_tokens;

/// Where no offence stands against a renaming, each kept file keeps its pieces as far as it keeps the words of its
/// directives: identifiers alone are spelled otherwise, each as another identifier.
pub fn files_keep_pieces()
    ensures { FilesKeepPieces }
{}

/// No word of a directive holds a member of a class that a place names: such members lie in what units take from the
/// items of their files.
pub fn words_are_free_where_named()
    ensures { WordsAreFreeWhereNamed }
{}

/// Both tokens of a link get one new spelling.
pub fn linked_stay_alike()
    ensures { LinkedStayAlike }
{}

/// Tokens of kept files and pasted identifiers that get one new spelling had one old spelling.
pub fn others_stay_apart()
    ensures { OthersStayApart }
{}

/// Tokens of kept files and pasted ones occur; of what occurs, identifiers of different spellings stay different, none
/// becomes a reserved word, and punctuators stay.
pub fn occurring_are_kept()
    ensures kept { OccurringAreKept }
    ensures files { FileTokensOccur }
    ensures pasted { PastedTokensOccur }
{}

/// Each token of a kept file is kept, and each pasted one: what is neither an identifier nor a string literal stays, and so do
/// `defined` and `__VA_ARGS__`.
pub fn tokens_are_kept()
    ensures files { TokensAreKept }
    ensures pasted { PastedTokensAreKept }
{}

/// Each line of a kept file names the directive that it named, and an identifier of a definition the parameter that
/// it named, where uses of parameters stay alike with these.
pub fn lines_are_kept()
    ensures { LinesAreKept }
{}

/// The renaming of a unit spells tokens as members are spelled; and each edited file has the tokens of the old one,
/// renamed.
pub fn edited_files_are_renamed()
    ensures spells { RenamingsSpell }
    ensures files { EditedFilesAreRenamed }
{
    edited_files_keep_tokens();
}

/// What has no origin stays under the renaming of a unit, and so do numbers of lines and of answers, where they stand
/// too.
pub fn unedited_text_stays()
    ensures { RenamingsKeepUnedited }
{}

/// The tokens of expanded include lines stay; each string and each pasted token of a unit is what the renamed tokens
/// make.
pub fn tokens_are_made_anew()
    ensures stay { HeadersStay }
    ensures made { TokensAreMadeAnew }
{}

/// A string that `#` made of tokens of a unit (6.10.3.2) has as its new spelling the text of the string that it makes of these
/// tokens, renamed.
pub fn strings_are_made_of_renamed_tokens()
    ensures { StringsAreOfRenamedTokens }
{}
