// What is true of all answers: a law that no caller runs.
ghost use Rattle.cscout_run.specs.Alike.{AnswersAreAlike};

/// Words and files decide the answer: its status, its output, its message and its edits.
pub fn words_and_files_decide()
    ensures { AnswersAreAlike }
{}
