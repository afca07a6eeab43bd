// What is true of files whose lists may move: laws that no caller runs, and that callers' proofs cite.
ghost use Rattle.arranged_text_laws.specs.Moving.{FilesAreArranged, FilesMayMove, NumbersDoNotMatter};
ghost use Rattle.arranged_text_laws.specs.RunTokens.{RunListsAreText, RunTokensAreText};

/// A file whose lists stand so may have their items in another order: the cut of its bytes may move, and gives that of its
/// tokens.
pub fn files_may_move()
    ensures { FilesMayMove }
{}

/// Then it has a text again, its tokens are those that it had, in the order that the cut of its lists gives, and its items,
/// directive lines and runs of text lines, are those that it had.
pub fn moved_files_are_arranged()
    ensures { FilesAreArranged }
{}

/// It does not matter which number the file has.
pub fn numbers_do_not_matter()
    ensures { NumbersDoNotMatter }
{}

/// Each token of a run of a file stands in a text line and begins no directive line; so it is with a list whose tokens, from
/// its `(` to before its `)`, are of one run.
pub fn run_tokens_are_text()
    ensures tokens { RunTokensAreText }
    ensures lists { RunListsAreText }
{}
