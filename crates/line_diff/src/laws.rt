// What is true of a diff: a law that no caller runs, and that callers' proofs cite.
ghost use Rattle.line_diff.specs.Laws.{HunksMakeTheNewText};

/// For all texts: the hunks, applied to the old one, give the new one.
pub fn hunks_make_the_new_text()
    ensures { HunksMakeTheNewText }
{}
