// What is true of all lists of tokens: laws that no caller runs, and that callers' proofs cite.
ghost use Rattle.c99_read.specs.Alike.{AlikeReadAlike};

/// Reading sees tokens through their classes: two lists of as many tokens, of equal classes, with
/// spellings alike in the one exactly where they are in the other, read to the same tree or fault.
pub fn alike_tokens_read_alike()
    ensures { AlikeReadAlike }
{}
