// What is true of a text by both standards: laws that no caller runs.
ghost use Rattle.tree_laws.specs.Narrowed.{TextsOfC99AreReadByC11, TextsOfC11AreReadByC99, TextsBindAlike, TextsOfC99AreBoundByC11, TextsOfC11AreBoundByC99};

/// Of a text without a word that C11 adds: what C99 reads, C11 reads; and what C11 reads, C99 reads, where no
/// semicolon stands alone behind specifiers of members, as none does in what C99 reads. The tree by C99 is the
/// narrowed one by C11.
pub fn texts_are_read_by_both_standards()
    ensures by_c11 { TextsOfC99AreReadByC11 }
    ensures by_c99 { TextsOfC11AreReadByC99 }
{}

/// Such a text has the same binding by both standards, or the same first fault at the same token: the two trees bind
/// alike, so what C99 reads and binds, C11 reads and binds so, and the other way.
pub fn texts_are_bound_by_both_standards()
    ensures alike { TextsBindAlike }
    ensures by_c11 { TextsOfC99AreBoundByC11 }
    ensures by_c99 { TextsOfC11AreBoundByC99 }
{}
