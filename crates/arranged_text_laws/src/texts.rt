// What is true of the tokens of texts whose parts change places: laws that no caller runs, and that callers'
// proofs cite.
ghost use Rattle.arranged_text_laws.specs.Arranging.{FilesAreArranged};
ghost use Rattle.arranged_text_laws.specs.Calm.{CalmTextsSettle, LeadsSettle};
ghost use Rattle.arranged_text_laws.specs.FileItems.{FileItemsStay};
ghost use Rattle.arranged_text_laws.specs.Joining.{FilesBegin, LogicalTextsJoin, TextsJoin};
ghost use Rattle.arranged_text_laws.specs.Parts.{PartsSettle};
ghost use Rattle.arranged_text_laws.specs.Places.{PlacesDoNotMatter};
ghost use Rattle.arranged_text_laws.specs.Runs.{ItemsStay, RunsMove};
ghost use Rattle.arranged_text_laws.specs.Tokens.{TokensOfFilesAreArranged};

/// What is found in a text that settles is found there before any text, or before any that begins with white space,
/// a parenthesis, a comma or a `/`; and behind it what is found in that text. The logical text of bytes is that of
/// the first ones and that of the last, where no new-line that goes stands across the seam. What is found in a file
/// is found in its logical text from the first character on.
pub fn texts_join()
    ensures texts { TextsJoin }
    ensures logical { LogicalTextsJoin }
    ensures files { FilesBegin }
    ensures places { PlacesDoNotMatter }
{}

/// A text that ends with a token, other than one that ends in a `/`, settles before white space, a parenthesis, a
/// comma or a `/`, where nothing that is found in it is a single character of no other kind, a `#` that begins a
/// directive or an open comment: so an item does. One whose last token is a parenthesis or a comma settles before
/// whatever stands behind it, where a line feed stands in it behind each such character, and its last line is of no
/// directive. A text along whose cut all parts are such may have its parts elsewhere.
pub fn texts_settle()
    ensures items { CalmTextsSettle }
    ensures leads { LeadsSettle }
    ensures parts { PartsSettle }
{}

/// A file whose lists stand so that each part of its text that their cut leaves whole settles, and whose items
/// begin and end with tokens, has its tokens in the new order, once the items of the lists are: each stands where
/// its characters went, and is as it was but for its line, and, the first of an item, for white space before it and
/// for whether it is the first of its line. Outside of lists all tokens stay as they are.
pub fn files_are_arranged()
    ensures { FilesAreArranged }
{}

/// So it is with the tokens of such a file, and with what is said of each, whether it is the first of its line; no
/// comment is open in it where none was, and it has as many bytes and characters.
pub fn tokens_are_arranged()
    ensures { TokensOfFilesAreArranged }
{}

/// The items of a file, its directive lines and the runs of text lines between them, are the same where tokens
/// inside a run change, behind its first and before its last one, and none of them begins a directive line. So it
/// is where lists that stand in runs have their items in a new order, and so with the bytes of a file whose lists
/// do.
pub fn items_stay()
    ensures items { ItemsStay }
    ensures runs { RunsMove }
    ensures file { FileItemsStay }
{}
