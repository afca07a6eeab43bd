// How the binding of GNU C and that of the standards agree, and what beginnings of texts bind: laws that no caller runs, and that
// callers' proofs cite.
ghost use Rattle.scope_bind.specs.Carried.{FrontsBindAlike};
ghost use Rattle.gnu_bind.specs.Fronts.{GnuFrontsBindAlike};
ghost use Rattle.gnu_bind.specs.Standards.{StandardsBindAlike};

/// A unit of C99 or C11 binds by its edition, and one of `gnu99` or `gnu11` as GNU C binds it.
pub fn standards_bind_alike()
    ensures { StandardsBindAlike }
{}

/// What is known behind a part of a text that ends before its last token is known behind it in each text that begins
/// with the same tokens, but for the end of file scope.
pub fn fronts_bind_alike()
    ensures { FrontsBindAlike }
{}

/// So it is in GNU C.
pub fn gnu_fronts_bind_alike()
    ensures { GnuFrontsBindAlike }
{}
