// How the binding of GNU C and that of the standards agree: a law that no caller runs.
ghost use Rattle.gnu_bind.specs.Standards.{StandardTextsBindAlike};

/// A text that uses nothing of GNU C and that the standards bind binds so by GNU C.
pub fn standard_texts_bind_alike()
    ensures { StandardTextsBindAlike }
{}
