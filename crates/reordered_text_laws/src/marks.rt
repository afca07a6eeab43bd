// What is true of the marks of lists: laws that no caller runs, and that callers' proofs cite.
ghost use Rattle.reordered_text_laws.specs.Classes.{TokensAreOfClasses};
ghost use Rattle.reordered_text_laws.specs.Runs.{RunsHaveMarks, SignedMarksStand};
ghost use Rattle.reordered_text_laws.specs.Trees.{TreesHaveMarks};

/// The cut of a tree has the marks of the lists that begin with some tokens, and no others, where each is a pair of
/// parentheses with identifiers in it, or with items and a token between each two.
pub fn trees_have_marks()
    ensures marks { TreesHaveMarks }
{}

/// Marks of a cut that are parentheses and commas, put in by no macro, stand where expansion looks for them; and a run and
/// what it is expanded to have the same marks.
pub fn runs_have_marks()
    ensures signs { SignedMarksStand }
    ensures marks { RunsHaveMarks }
{}

/// Each node of a tree that is read of a text has tokens of the classes that the alternative asks for by which it was read.
pub fn tokens_are_of_classes()
    ensures classes { TokensAreOfClasses }
{}
