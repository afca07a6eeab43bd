// What is true of the tokens of all texts: laws that no caller runs, and that callers' proofs cite.
ghost use Rattle.lexer.specs.Order.{TokensInOrder};
ghost use Rattle.lexer.specs.Respelling.{EditKeepsTokens};
ghost use Rattle.lexer.specs.KeptTokens.{KeptTokensKeepPieces};

/// The tokens of a file stand one behind the other. An edit by which other identifiers stand for
/// identifiers, and all else stays, splices too, keeps the tokens: their number and order, their kinds,
/// gaps and lines, each at the place to which it moves. An edit is one if it keeps each token so, and changes
/// no character outside of tokens.
pub fn tokens_can_be_renamed()
    ensures in_order { TokensInOrder }
    ensures edited { EditKeepsTokens }
    ensures kept { KeptTokensKeepPieces }
{}
