// Laws over patterns and queries that no caller runs.
ghost use Rattle.query_words.specs.Laws.{PatternsAreReplaced, QueriesAreDerived};

/// A pattern matches exactly what becomes of it where each `*` is replaced by some bytes, perhaps none.
pub fn patterns_are_replaced()
    ensures { PatternsAreReplaced }
{}

/// A word is a query exactly where the grammar derives it, and the one that it derives. Where it is bad, some query
/// goes on from the bytes before that, and none from those and the word behind them; where it is too deep, one does
/// where one more may be open, and none else.
pub fn queries_are_derived()
    ensures { QueriesAreDerived }
{}
