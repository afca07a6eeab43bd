// Renamings that keep how units are read and bound, each beside one that breaks it.
ghost use Rattle.std.specs.Prelude.{[], codes, ◌∷◌};
ghost use Rattle.meaning_rows.specs.Rows.{KeepsReading, hidden_typedef, pasted_names, two_objects};
ghost use Rattle.meaning_rows.specs.Shared.{KeepsDeclared, two_names};

/// A new name for the first object of `int x;int y;`, which occurs nowhere.
pub fn name_that_is_new() -> u8
    ensures { KeepsReading two_objects 4 (result ∷ []) }
{
    b'z'
}

/// A new name for the argument of `A(x)`, with which the names that are pasted of it stay two.
pub fn name_pasted_apart() -> u8
    ensures { KeepsReading pasted_names 32 (result ∷ []) }
{
    b'w'
}

/// Where a name of one character begins in `typedef int T;void f(void){int T;int g(T);}` that may become `U`: that of `g`.
pub fn place_that_hides_nothing() -> u32
    ensures { KeepsReading hidden_typedef result (codes "U") }
{
    37
}

/// A new name for the argument of `N(x)`, with which the names that two units paste of it stay two.
pub fn name_shared_by_no_unit() -> u8
    ensures { KeepsDeclared two_names 72 (result ∷ []) }
{
    b'v'
}
